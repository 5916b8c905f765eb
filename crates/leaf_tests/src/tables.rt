//! A table of three entries and one behind it, by its handlers.
use exn_tables::{Entry, Table, joined};
use std::alloc::{AllocError, Global};

fn entry(tag: Option<u32>, target: u8) -> Entry<u8> {
    Entry { tag, target }
}

/// `[ tag1: 10, default: 20, tag2: 30 ]`
fn inner(alloc: Global) -> Result<Table<u8>, AllocError> {
    Ok(Table::new(vec![in alloc; entry(Some(1), 10), entry(None, 20), entry(Some(2), 30)]?))
}

/// `[ tag3: 40 ]`
fn outer(alloc: Global) -> Result<Table<u8>, AllocError> {
    Ok(Table::new(vec![in alloc; entry(Some(3), 40)]?))
}

/// `[ tag1: 10, default: 20, tag2: 30, tag3: 40 ]`
fn inner_first(alloc: Global) -> Result<Table<u8>, AllocError> {
    joined(alloc, &inner(alloc)?, &outer(alloc)?)
}

/// `[ tag3: 40, tag1: 10, default: 20, tag2: 30 ]`
fn outer_first(alloc: Global) -> Result<Table<u8>, AllocError> {
    joined(alloc, &outer(alloc)?, &inner(alloc)?)
}

/// Where the inner table has tags 1 and 2, and the outer one tag 2.
fn found_alone(alloc: Global) -> Result<[Option<usize>; 3], AllocError> {
    let (inner, outer) = (inner(alloc)?, outer(alloc)?);
    Ok([inner.find(1), inner.find(2), outer.find(2)])
}

#[test]
fn first_match_is_taken(rt: HostRuntime) -> Result<(), AllocError> {
    assert_eq!(rt; found_alone(rt.alloc())?, [Some(0), Some(1), None]);
    Ok(())
}

/// How many entries the table has, and where it has tag 3.
fn found(table: &Table<u8>) -> (usize, Option<usize>) {
    (table.entries().len(), table.find(3))
}

/// Where the tables joined have tag 3, in either order, each with its number of entries.
fn found_joined(alloc: Global) -> Result<[(usize, Option<usize>); 2], AllocError> {
    Ok([found(&inner_first(alloc)?), found(&outer_first(alloc)?)])
}

/// Whether joined tables have other entries in the other order.
fn order_is_kept(alloc: Global) -> Result<bool, AllocError> {
    let (both, back) = (inner_first(alloc)?, outer_first(alloc)?);
    Ok(both.entries() != back.entries())
}

/// `default` hides what stands behind it.
#[test]
fn joined_in_order(rt: HostRuntime) -> Result<(), AllocError> {
    assert_eq!(rt; found_joined(rt.alloc())?, [(4, Some(1)), (4, Some(0))]);
    assert!(rt; order_is_kept(rt.alloc())?);
    Ok(())
}

#[test]
fn copy_is_equal(rt: HostRuntime) -> Result<(), AllocError> {
    let back = outer_first(rt.alloc())?;
    assert!(rt; back.clone()? == back);
    Ok(())
}

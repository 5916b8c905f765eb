//! The tags of a site stand before those of the callee's line.
use debug_tags::{Tag, Tags, prefixed};
use std::alloc::{AllocError, Global};

fn outer(alloc: Global) -> Result<Tags, AllocError> {
    Ok(Tags::new(vec![in alloc; Tag::User(7)]?))
}

/// The tags of the callee's line, where its slots begin at 3, and whether they named a slot.
fn inner(alloc: Global) -> Result<(Tags, bool), AllocError> {
    let mut inner = Tags::new(vec![in alloc; Tag::Slot(0), Tag::User(1)]?);
    let has_slot = inner.has_slot();
    inner.map_slots(3);
    Ok((inner, has_slot))
}

/// The tags of the site and then those of the callee's line.
fn both(alloc: Global) -> Result<Tags, AllocError> {
    let (inner, _) = inner(alloc)?;
    prefixed(alloc, &outer(alloc)?, &inner)
}

#[test]
fn slots_are_seen(rt: HostRuntime) -> Result<(), AllocError> {
    let (_, has_slot) = inner(rt.alloc())?;
    assert!(rt; has_slot);
    assert!(rt; !outer(rt.alloc())?.has_slot());
    Ok(())
}

/// Whether a copy of the tags is equal to them.
fn is_copied(tags: &Tags) -> Result<bool, AllocError> {
    Ok(tags.clone()? == *tags)
}

/// Whether these are all the tags, in their order.
fn is_both(tags: &Tags) -> bool {
    tags.list() == [Tag::User(7), Tag::Slot(3), Tag::User(1)].as_slice()
}

#[test]
fn outer_tags_stand_first(rt: HostRuntime) -> Result<(), AllocError> {
    let tags = both(rt.alloc())?;
    assert!(rt; is_both(&tags));
    assert!(rt; is_copied(&tags)?);
    Ok(())
}

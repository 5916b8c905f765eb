//! Lists of values, as instructions have them.
ghost use Rattle.std.specs.Prelude.{◌≡◌, ◌∷◌, ◌++◌, ◌<◌, ◌+◌, ◌^◌, [], IfOk, OnErr, OnOk, length, map};
ghost use Rattle.ir_core.specs.Lists.{Each};

use crate::numbers::Value;
use std::alloc::{AllocError, Global};
use std::marker::Model;

/// A list of values. Up to three take no memory but the list's own. Contracts see its items in order.
#[derive(Drop)]
pub struct Values {
    items: Items,
}

#[derive(Drop)]
enum Items {
    None,
    One([Value; 1]),
    Two([Value; 2]),
    Three([Value; 3]),
    Many(Box<Vec<Value>>),
}

impl Model for Values {
    ghost use Rattle.std.specs.Prelude.{List, ℕ};

    ghost Value = { List ℕ };

    ghost use Rattle.ir_core.specs.Listed.{items_of};

    ghost view = { λ values. items_of values.items };
}

impl Values {
    /// The empty list.
    #[inline]
    pub fn none() -> Values
        ensures { result ≡ [] }
    {
        Values { items: Items::None }
    }

    /// The list of one value.
    #[inline]
    pub fn one(value: Value) -> Values
        ensures { result ≡ value ∷ [] }
    {
        Values {
            items: Items::One([value]),
        }
    }

    /// The list of two values.
    #[inline]
    pub fn two(first: Value, second: Value) -> Values
        ensures { result ≡ first ∷ second ∷ [] }
    {
        Values {
            items: Items::Two([first, second]),
        }
    }

    /// The list of these values. Only `AllocError` refuses, and only four or more.
    pub fn from_slice(alloc: Global, values: &[Value]) -> Result<Values, AllocError>
        ensures ok { IfOk result (λ list. list ≡ values.now) }
        ensures err { OnErr result (3 < length values.now) }
    {
        let items = match values {
            [] => Items::None,
            [a] => Items::One([*a]),
            [a, b] => Items::Two([*a, *b]),
            [a, b, c] => Items::Three([*a, *b, *c]),
            _ => Items::Many(Box::new(alloc, Vec::from_slice(alloc, values)?)?),
        };
        Ok(Values { items })
    }

    /// Appends a value. Only `AllocError` refuses, where there are four or more then, and the list is as before.
    pub fn push(&mut self, alloc: Global, value: Value) -> Result<(), AllocError>
        ensures ok { OnOk result (self.new ≡ self.old ++ value ∷ []) }
        ensures err { OnErr result (self.new ≡ self.old) }
    {
        if let Items::Many(values) = &mut self.items {
            values.push(value)?;
            return Ok(());
        }
        let items = match self.as_slice() {
            [] => Items::One([value]),
            [a] => Items::Two([*a, value]),
            [a, b] => Items::Three([*a, *b, value]),
            few => Items::Many(Box::new(alloc, with_one_more(alloc, few, value)?)?),
        };
        self.items = items;
        Ok(())
    }

    /// These values with a number added to that of each. Only `AllocError` refuses, and only four or more.
    pub fn from_shifted(alloc: Global, values: &[Value], by: u32) -> Result<Values, AllocError>
        requires { Each (λ v. by + v < 2 ^ 32) values.now }
        ensures ok { IfOk result (λ list. list ≡ map (λ v. by + v) values.now) }
        ensures err { OnErr result (3 < length values.now) }
    {
        let items = match values {
            [] => Items::None,
            [a] => Items::One([moved(*a, by)]),
            [a, b] => Items::Two([moved(*a, by), moved(*b, by)]),
            [a, b, c] => Items::Three([moved(*a, by), moved(*b, by), moved(*c, by)]),
            many => Items::Many(Box::new(alloc, all_moved(alloc, many, by)?)?),
        };
        Ok(Values { items })
    }

    /// The values in order.
    #[inline]
    pub fn as_slice(&self) -> &[Value]
        ensures { result.now ≡ self.now }
    {
        match &self.items {
            Items::None => &[],
            Items::One(values) => values.as_slice(),
            Items::Two(values) => values.as_slice(),
            Items::Three(values) => values.as_slice(),
            Items::Many(values) => values.as_slice(),
        }
    }
}

/// The values with another one behind them.
fn with_one_more(alloc: Global, values: &[Value], value: Value) -> Result<Vec<Value>, AllocError>
    ensures { IfOk result (λ list. list.items ≡ values.now ++ value ∷ []) }
{
    let mut list = Vec::with_capacity(alloc, values.len().saturating_add(1))?;
    list.extend_from_slice(values)?;
    list.push(value)?;
    Ok(list)
}

/// The value with a number added to its own.
fn moved(value: Value, by: u32) -> Value
    requires { by + value < 2 ^ 32 }
    ensures { result ≡ by + value }
{
    Value::new(by + value.number())
}

/// The values with a number added to that of each.
fn all_moved(alloc: Global, values: &[Value], by: u32) -> Result<Vec<Value>, AllocError>
    requires { Each (λ v. by + v < 2 ^ 32) values.now }
    ensures { IfOk result (λ list. list.items ≡ map (λ v. by + v) values.now) }
{
    let mut list = Vec::new(alloc);
    for value in values {
        list.push(moved(*value, by))?;
    }
    Ok(list)
}

impl Clone for Values {
    ghost is_clone = { λ list copy. copy ≡ list };

    fn clone(&self) -> Result<Values, AllocError> {
        let items = match &self.items {
            Items::None => Items::None,
            Items::One(values) => Items::One(*values),
            Items::Two(values) => Items::Two(*values),
            Items::Three(values) => Items::Three(*values),
            Items::Many(values) => Items::Many(values.clone()?),
        };
        Ok(Values { items })
    }
}

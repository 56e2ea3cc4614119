//! Which signals of a message are active.
ghost use Rattle.std.specs.Prelude.{◌≡◌, ◌↔◌, ℕ, ℤ, Option, Some, true, map, IsSomeAnd};
ghost use Rattle.can_model.specs.Active.{lies_in, value_at, IsActive};

use crate::database::{Message, MuxRange};

/// Whether the signal of this index is active where the message's signals have these values: a
/// signal without a parent always is, and one with a parent is where its selector is active and
/// the selector's value, as it is given, lies in one of the ranges.
///
/// A selector that is not there or that leads back to the signal makes it inactive.
pub fn active(message: &Message, index: usize, values: &[i128]) -> bool
    ensures { (result ≡ true) ↔ IsActive message.now (map Some values.now) index }
{
    chain_holds(message, index, values)
}

/// The same where some signals have no value; a selector without one asks for no signal.
pub fn active_in(message: &Message, index: usize, values: &[Option<i128>]) -> bool
    ensures { (result ≡ true) ↔ IsActive message.now values.now index }
{
    chain_holds(message, index, values)
}

/// A value that may be missing.
trait Given {
    ghost value: { Self → Option ℤ };

    fn given(&self) -> Option<i128>
        ensures { result ≡ value self.now };
}

impl Given for i128 {
    ghost value = { λ v. Some v };

    fn given(&self) -> Option<i128> {
        Some(*self)
    }
}

impl Given for Option<i128> {
    ghost value = { λ v. v };

    fn given(&self) -> Option<i128> {
        *self
    }
}

/// Goes from the signal to its selector, on to that one's selector, and so on. A chain that ends
/// has each signal at most once.
fn chain_holds<V: Given>(message: &Message, index: usize, values: &[V]) -> bool
    ensures { (result ≡ true) ↔ IsActive message.now (map V.value values.now) index }
{
    let signals = message.signals.items();
    let mut at = index;
    for _ in 0..signals.len() {
        let Some(signal) = signals.get(at) else {
            return false;
        };
        let Some(parent) = &signal.parent else {
            return true;
        };
        let Some(selector) = parent.selector else {
            return false;
        };
        if !asks_for(values, selector, parent.ranges.items()) {
            return false;
        }
        at = selector as usize;
    }
    false
}

/// Whether the selector has a value and it lies in one of the ranges.
fn asks_for<V: Given>(values: &[V], selector: u32, ranges: &[MuxRange]) -> bool
    ensures { (result ≡ true) ↔ IsSomeAnd (value_at (map V.value values.now) selector) (λ v. lies_in ranges.now v ≡ true) }
{
    match values.get(selector as usize) {
        None => false,
        Some(value) => match value.given() {
            None => false,
            Some(value) => lies_in(ranges, value),
        },
    }
}

fn lies_in(ranges: &[MuxRange], value: i128) -> bool
    ensures { result ≡ lies_in ranges.now value }
{
    ranges.iter().any(|r| i128::from(r.first) <= value && value <= i128::from(r.last))
}

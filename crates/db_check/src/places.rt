//! The places that the bits of a message's signals take.
ghost use Rattle.std.specs.Prelude.{◌≡◌, ◌⊎◌, ℕ, ◌<◌, ◌≤◌, ◌↔◌, IsTrue, true, false, length, get_or};
ghost use Rattle.can_model.specs.Place.{HasPlace};
ghost use Rattle.can_model.specs.RawValue.{has_bits};
ghost use Rattle.db_check.specs.OfSignal.{ReachesTo, HasTaken};

use can_model::{Signal, place};

/// Whether a bit of the signal is at a place from `size` on.
pub(crate) fn is_outside(signal: &Signal, size: u32) -> bool
    requires bits { has_bits signal.now.length ≡ true }
    requires size { size ≤ 16384 }
    ensures { IsTrue result ↔ ReachesTo size signal.now }
{
    signal.start >= size || has_bit_from(signal, size)
}

fn has_bit_from(signal: &Signal, size: u32) -> bool
    requires bits { has_bits signal.now.length ≡ true }
    requires start { signal.now.start ≤ 65535 }
    ensures { IsTrue result ↔ ReachesTo size signal.now }
{
    for k in 0..signal.length {
        if place(signal, k) >= size {
            return true;
        }
    }
    false
}

/// Whether a bit of the signal is at a taken place.
pub(crate) fn is_any_taken(signal: &Signal, taken: &[bool]) -> bool
    requires bits { has_bits signal.now.length ≡ true }
    requires start { signal.now.start ≤ 65535 }
    requires inside { (p : ℕ) → HasPlace signal.now p → p < length taken.now }
    ensures { IsTrue result ↔ HasTaken taken.now signal.now }
{
    for k in 0..signal.length {
        if taken[place(signal, k) as usize] {
            return true;
        }
    }
    false
}

/// Takes the places of the signal.
pub(crate) fn take_places(signal: &Signal, taken: &mut [bool])
    requires bits { has_bits signal.now.length ≡ true }
    requires start { signal.now.start ≤ 65535 }
    requires inside { (p : ℕ) → HasPlace signal.now p → p < length taken.old }
    ensures { (p : ℕ) → (get_or taken.new p false ≡ true)
        ↔ ((get_or taken.old p false ≡ true) ⊎ HasPlace signal.now p) }
{
    for k in 0..signal.length {
        taken[place(signal, k) as usize] = true;
    }
}

//! Where the bits of a signal stand, and which values they hold.
ghost use Rattle.std.specs.Prelude.{◌≡◌, ℕ, ◌+◌, ◌^◌, ◌<◌, ◌≤◌};
ghost use Rattle.can_model.specs.Place.{rank, place_of, IsAt};
ghost use Rattle.can_model.specs.RawValue.{has_bits, lowest, greatest, is_raw, field_bits, is_field_value};

use crate::database::Signal;

/// The place of bit `k` of the signal, where bit 0 is the least significant.
///
/// Place n is bit `n % 8` of byte `n / 8` of the frame.
pub fn place(signal: &Signal, k: u32) -> u32
    requires bit { k < signal.now.length }
    requires length { signal.now.length ≤ 64 }
    requires start { signal.now.start ≤ 65535 }
    ensures value { result ≡ place_of signal.now k }

    // It is the one place that the bit is at.
    ensures is_at { IsAt signal.now k result }
    ensures only { (p : ℕ) → IsAt signal.now k p → p ≡ result }
{
    place_at(signal, k)
}

fn place_at(signal: &Signal, k: u32) -> u32
    requires bit { k < signal.now.length }
    requires length { signal.now.length ≤ 64 }
    requires start { signal.now.start ≤ 65535 }
    ensures { result ≡ place_of signal.now k }
{
    if signal.motorola {
        rank(rank(signal.start) + (signal.length - (k + 1)))
    } else {
        signal.start + k
    }
}

/// How many bits stand ahead of a place where each byte is read from its most significant bit on.
fn rank(place: u32) -> u32
    requires { place < 2 ^ 20 }
    ensures value { result ≡ rank place }
    ensures near { result ≤ place + 7 }
{
    8 * (place / 8) + (7 - place % 8)
}

/// Whether the value is a raw value of a signal of this many bits: from 0 to 2^length - 1, where
/// it is signed from -2^(length - 1) to 2^(length - 1) - 1. A length of 0 or above 64 has none.
pub fn is_raw(length: u32, signed: bool, value: i128) -> bool
    ensures { result ≡ is_raw length signed value }
{
    has_bits(length) && lowest(length, signed) <= value && value <= greatest(length, signed)
}

/// Whether a signal may have this many bits: from 1 to 64.
pub fn has_bits(length: u32) -> bool
    ensures { result ≡ has_bits length }
{
    1 <= length && length <= 64
}

/// Whether the value is one of the signal's field in C, which has the fewest of 8, 16, 32 and 64
/// bits that hold the signal, and its sign: such a value may be wider than the signal.
pub fn is_field_value(length: u32, signed: bool, value: i128) -> bool
    ensures { result ≡ is_field_value length signed value }
{
    is_raw(field_bits(length), signed, value)
}

/// How many bits the C field of a signal of this many bits has: 8, 16, 32 or 64.
pub fn field_bits(length: u32) -> u32
    ensures { result ≡ field_bits length }
{
    match length {
        0..=8 => 8,
        9..=16 => 16,
        17..=32 => 32,
        _ => 64,
    }
}

fn lowest(length: u32, signed: bool) -> i128
    requires least { 1 ≤ length }
    requires most { length ≤ 64 }
    ensures { result ≡ lowest length signed }
{
    if signed { -(1i128 << (length - 1)) } else { 0 }
}

fn greatest(length: u32, signed: bool) -> i128
    requires least { 1 ≤ length }
    requires most { length ≤ 64 }
    ensures { result ≡ greatest length signed }
{
    let bits = if signed { length - 1 } else { length };
    (1i128 << bits) - 1
}

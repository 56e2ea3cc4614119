//! Integer constants (ISO/IEC 9899:1999, 6.4.4.1).
ghost use Rattle.std.specs.Prelude.{◌≡◌, ◌+◌, ◌*◌, ◌^◌, ◌≤◌, length, [], ◌∷◌, take_while, MatchOption};
ghost use Rattle.std.specs.Str.Parse.{digits_value, AllDigits};
ghost use Rattle.c_text.specs.IntegerConstant as constants;

use crate::character::behind;
use c_text::Constant;
use std::marker::Model;

/// What stands behind the digits of a constant; contracts see the record of the definition.
#[derive(Drop)]
struct Suffix {
    unsigned: bool,
    /// How many letters `l` there are.
    longs: u8,
}

impl Model for Suffix {
    ghost use Rattle.c_text.specs.IntegerConstant as constants;

    ghost Value = { constants.Suffix };

    ghost view = { λ s. record { unsigned = s.unsigned; longs = s.longs } };
}

/// How many letters of a long-suffix or a long-long-suffix the bytes are, if they are nothing else.
fn longs_of(bytes: &[u8]) -> Option<u8>
    ensures value { result ≡ constants.longs_of bytes.now }
{
    match bytes {
        [] => Some(0),
        [b'l' | b'L'] => Some(1),
        [b'l', b'l'] | [b'L', b'L'] => Some(2),
        _ => None,
    }
}

/// The suffix with these letters beside its `u`, or without one.
fn with_longs(unsigned: bool, bytes: &[u8]) -> Option<Suffix>
    ensures { result ≡ constants.with_longs unsigned (constants.longs_of bytes.now) }
{
    let longs = longs_of(bytes)?;
    Some(Suffix { unsigned, longs })
}

/// The suffix that all the bytes spell.
fn suffix_of(bytes: &[u8]) -> Option<Suffix>
    ensures { result ≡ constants.suffix_of bytes.now }
{
    match bytes {
        [b'u' | b'U', rest @ ..] => with_longs(true, rest),
        [front @ .., b'u' | b'U'] => with_longs(true, front),
        _ => with_longs(false, bytes),
    }
}

/// How many digits of the base stand at the front.
fn digits_length(base: u8, bytes: &[u8]) -> usize
    requires lower { 2 ≤ base }
    requires upper { base ≤ 36 }
    ensures value { result ≡ length (take_while (constants.in_base base) bytes.now) }
    ensures within { result ≤ length bytes.now }
{
    bytes
        .iter()
        .take_while(|b| char::from(**b).is_digit(u32::from(base)))
        .count()
}

/// The value of digits with one more behind them, where it is below 2^64.
fn with_digit(base: u8, value: u64, digit: u32) -> Option<u64>
    ensures { MatchOption result (2 ^ 64 ≤ value * base + digit) (λ v. v ≡ value * base + digit) }
{
    value
        .checked_mul(u64::from(base))?
        .checked_add(u64::from(digit))
}

/// The value of digits of the base, where it is below 2^64.
fn value_of(base: u8, digits: &[u8]) -> Option<u64>
    requires lower { 2 ≤ base }
    requires upper { base ≤ 36 }
    requires digits { AllDigits base digits.now }
    ensures { MatchOption result
        (2 ^ 64 ≤ digits_value base digits.now)
        (λ v. v ≡ digits_value base digits.now) }
{
    let mut value: u64 = 0;
    for byte in digits {
        let digit = char::from(*byte).to_digit(u32::from(base))?;
        value = with_digit(base, value, digit)?;
    }
    Some(value)
}

/// The constant of one digit or more of the base, then a suffix.
fn constant_in(base: u8, bytes: &[u8]) -> Option<Constant>
    requires lower { 2 ≤ base }
    requires upper { base ≤ 36 }
    ensures { result ≡ constants.constant_in base bytes.now }
{
    let count = digits_length(base, bytes);
    if count == 0 {
        return None;
    }
    let suffix = suffix_of(behind(bytes, count))?;
    let value = value_of(base, &bytes[..count])?;
    Some(Constant {
        value,
        base,
        unsigned: suffix.unsigned,
        longs: suffix.longs,
    })
}

/// The number 0 with a suffix; its base counts as 10.
fn constant_zero(suffix: &[u8]) -> Option<Constant>
    ensures { result ≡ constants.constant_from 10 (48 ∷ []) (constants.suffix_of suffix.now) }
{
    let suffix = suffix_of(suffix)?;
    Some(Constant {
        value: 0,
        base: 10,
        unsigned: suffix.unsigned,
        longs: suffix.longs,
    })
}

/// The constant that the digit 0 begins.
fn constant_after_zero(bytes: &[u8]) -> Option<Constant>
    ensures { result ≡ constants.constant_after_zero bytes.now }
{
    match bytes {
        [b'x' | b'X', digits @ ..] => constant_in(16, digits),
        [b'0'..=b'7', ..] => constant_in(8, bytes),
        _ => constant_zero(bytes),
    }
}

/// The constant that all the bytes spell.
#[tactic(auto, unfolding(c_text::specs::IntegerConstant::constant_of))]
pub fn constant_of(bytes: &[u8]) -> Option<Constant>
    ensures { result ≡ constants.constant_of bytes.now }
{
    match bytes {
        [b'0', rest @ ..] => constant_after_zero(rest),
        _ => constant_in(10, bytes),
    }
}

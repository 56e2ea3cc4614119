//! From bytes to decimals.
ghost use Rattle.std.specs.Prelude.{◌≡◌, ℕ, ℤ, ◌+◌, ◌-◌, ◌*◌, ◌%◌, ◌^◌, ◌<◌, ◌≤◌, length, IfOk, IfSome, MatchOption, MatchResult, [], IsSomeAnd, min, None, Some, pos, ◌-ℤ◌, ◌+ℤ◌, unsigned_abs};
ghost use Rattle.limit_fraction.specs.Digits.{value_after, signed, IsLong, IsAlike};
ghost use Rattle.limit_fraction.specs.Number.{units, IsKept};
ghost use Rattle.limit_fraction.specs.Reading.{sign_of, digits_of, after_digits, fraction_of, after_fraction, size_of, exponent_of, number_behind, kept, decimal_for, decimal_of};

use crate::number::{Decimal, NumberFault};
use crate::powers::{times_ten_to, with_sign};

/// Digits that were read: their value is `mantissa * 10^zeros`.
#[derive(Clone, Copy)]
struct Digits {
    mantissa: u128,
    zeros: usize,
    ghost trimmed: { mantissa % 10 ≡ 0 → mantissa ≡ 0 },
    ghost short: { mantissa < 10 ^ 28 },
}

/// The least mantissa of 29 digits.
const TOO_LONG: u128 = 10_000_000_000_000_000_000_000_000_000;

impl Digits {
    /// The digits with one more behind them.
    fn with(self, digit: u8) -> Result<Digits, NumberFault>
        requires digit { digit < 10 }
        requires room { self.zeros + 1 < 2 ^ 64 }
        ensures value { MatchResult result
            (λ d. d.mantissa * 10 ^ d.zeros ≡ self.mantissa * 10 ^ self.zeros * 10 + digit)
            (λ _. IsLong (self.mantissa * 10 ^ self.zeros * 10 + digit)) }
        ensures room { IfOk result (λ d. d.zeros ≤ self.zeros + 1) }
    {
        if digit == 0 {
            return Ok(Digits {
                mantissa: self.mantissa,
                zeros: self.zeros + 1,
            });
        }
        let mantissa = times_ten_to(self.mantissa, self.zeros + 1) + u128::from(digit);
        if mantissa < TOO_LONG {
            Ok(Digits { mantissa, zeros: 0 })
        } else {
            Err(NumberFault)
        }
    }
}

/// Whether a text begins with a minus, and what follows its sign.
fn read_sign(bytes: &[u8]) -> (bool, &[u8])
    ensures { (result.0, result.1.now) ≡ sign_of bytes.now }
{
    match bytes {
        [b'-', rest @ ..] => (true, rest),
        [b'+', rest @ ..] => (false, rest),
        _ => (false, bytes),
    }
}

/// The digits at the front behind those that were read, and what follows them.
fn read_digits(before: Digits, bytes: &[u8]) -> Result<(Digits, &[u8]), NumberFault>
    requires { before.zeros + length bytes.now < 2 ^ 64 }
    ensures value { MatchResult result
        (λ r. r.0.mantissa * 10 ^ r.0.zeros ≡ value_after (before.mantissa * 10 ^ before.zeros) (digits_of bytes.now))
        (λ _. IsLong (value_after (before.mantissa * 10 ^ before.zeros) (digits_of bytes.now))) }
    ensures rest { IfOk result (λ r. r.1.now ≡ after_digits bytes.now) }
    ensures count { IfOk result (λ r. length (digits_of bytes.now) + length r.1.now ≡ length bytes.now) }
    ensures room { IfOk result (λ r. r.0.zeros + length r.1.now ≤ before.zeros + length bytes.now) }
{
    let mut digits = before;
    for (i, byte) in bytes.iter().enumerate() {
        if !byte.is_ascii_digit() {
            return Ok((digits, &bytes[i..]));
        }
        digits = digits.with(*byte - b'0')?;
    }
    Ok((digits, &bytes[bytes.len()..]))
}

/// What stands behind a point at the front, where there is one.
fn behind_point(bytes: &[u8]) -> Option<&[u8]>
    ensures fraction { MatchOption result (fraction_of bytes.now ≡ []) (λ r. fraction_of bytes.now ≡ digits_of r.now) }
    ensures rest { MatchOption result (after_fraction bytes.now ≡ bytes.now) (λ r. after_fraction bytes.now ≡ after_digits r.now) }
    ensures shorter { IfSome result (λ r. length r.now < length bytes.now) }
{
    match bytes {
        [b'.', rest @ ..] => Some(rest),
        _ => None,
    }
}

/// The digits behind a point at the front, how many they are, and what follows them.
fn read_fraction(whole: Digits, bytes: &[u8]) -> Result<(Digits, usize, &[u8]), NumberFault>
    requires { whole.zeros + length bytes.now < 2 ^ 64 }
    ensures value { MatchResult result
        (λ r. r.0.mantissa * 10 ^ r.0.zeros ≡ value_after (whole.mantissa * 10 ^ whole.zeros) (fraction_of bytes.now))
        (λ _. IsLong (value_after (whole.mantissa * 10 ^ whole.zeros) (fraction_of bytes.now))) }
    ensures count { IfOk result (λ r. r.1 ≡ length (fraction_of bytes.now)) }
    ensures rest { IfOk result (λ r. r.2.now ≡ after_fraction bytes.now) }
{
    let Some(behind) = behind_point(bytes) else {
        return Ok((whole, 0, bytes));
    };
    let (digits, rest) = read_digits(whole, behind)?;
    Ok((digits, behind.len() - rest.len(), rest))
}

/// The size at which exponents are cut off: no text is long enough to bring one back.
const FAR: u128 = 1 << 100;

/// The value of at least one digit, or 2^100 where that is less.
fn read_size(bytes: &[u8]) -> Result<u128, NumberFault>
    ensures { MatchResult result
        (λ n. IsSomeAnd (size_of bytes.now) (λ size. n ≡ min size (2 ^ 100)))
        (λ _. size_of bytes.now ≡ None) }
{
    if bytes.is_empty() {
        return Err(NumberFault);
    }
    let mut size: u128 = 0;
    for byte in bytes {
        if !byte.is_ascii_digit() {
            return Err(NumberFault);
        }
        size = (size * 10 + u128::from(*byte - b'0')).min(FAR);
    }
    Ok(size)
}

/// The exponent that the text spells, 0 where it is empty.
fn read_exponent(bytes: &[u8]) -> Result<i128, NumberFault>
    ensures value { MatchResult result
        (λ e. IsSomeAnd (exponent_of bytes.now) (λ exponent. IsAlike exponent e))
        (λ _. exponent_of bytes.now ≡ None) }
    ensures within { IfOk result (λ e. unsigned_abs e ≤ 2 ^ 100) }
{
    let [mark, rest @ ..] = bytes else {
        return Ok(0);
    };
    if *mark != b'e' && *mark != b'E' {
        return Err(NumberFault);
    }
    let (negative, digits) = read_sign(rest);
    let size = read_size(digits)?;
    Ok(with_sign(negative, size))
}

/// The exponent of these digits without their zeros, where it is from -400 to 400.
fn near_exponent(exponent: i128, fraction: usize, zeros: usize) -> Option<i16>
    requires { unsigned_abs exponent ≤ 2 ^ 100 }
    ensures value { (spelled : ℤ) → IsAlike spelled exponent → MatchOption result
        (400 < unsigned_abs (spelled -ℤ pos fraction +ℤ pos zeros))
        (λ e. e ≡ spelled -ℤ pos fraction +ℤ pos zeros) }
    ensures near { IfSome result (λ e. unsigned_abs e ≤ 400) }
{
    let exponent = exponent - fraction as i128 + zeros as i128;
    if exponent >= -400 && exponent <= 400 {
        Some(exponent as i16)
    } else {
        None
    }
}

/// The decimal of just these parts.
fn decimal(mantissa: i128, exponent: i16) -> Decimal
    requires { IsKept mantissa exponent }
    ensures mantissa { result.mantissa ≡ mantissa }
    ensures exponent { result.exponent ≡ exponent }
{
    Decimal { mantissa, exponent }
}

/// The decimal of these digits with this exponent, of which `fraction` stand behind the point.
fn kept_decimal(
    negative: bool,
    digits: Digits,
    exponent: i128,
    fraction: usize,
) -> Result<Decimal, NumberFault>
    requires { unsigned_abs exponent ≤ 2 ^ 100 }
    ensures { (spelled : ℤ) → IsAlike spelled exponent → MatchResult result
        (λ d. decimal_for (signed negative (digits.mantissa * 10 ^ digits.zeros)) (spelled -ℤ pos fraction) ≡ Some d)
        (λ _. decimal_for (signed negative (digits.mantissa * 10 ^ digits.zeros)) (spelled -ℤ pos fraction) ≡ None) }
{
    if digits.mantissa == 0 {
        return Ok(decimal(0, 0));
    }
    let Some(exponent) = near_exponent(exponent, fraction, digits.zeros) else {
        return Err(NumberFault);
    };
    Ok(decimal(with_sign(negative, digits.mantissa), exponent))
}

/// The decimal that a text behind its sign spells.
fn read_behind(negative: bool, bytes: &[u8]) -> Result<Decimal, NumberFault>
    ensures { MatchResult result
        (λ d. kept (number_behind negative bytes.now) ≡ Some d)
        (λ _. kept (number_behind negative bytes.now) ≡ None) }
{
    let none = Digits {
        mantissa: 0,
        zeros: 0,
    };
    let (whole, behind) = read_digits(none, bytes)?;
    let (digits, fraction, tail) = read_fraction(whole, behind)?;
    if behind.len() == bytes.len() && fraction == 0 {
        return Err(NumberFault);
    }
    let exponent = read_exponent(tail)?;
    kept_decimal(negative, digits, exponent, fraction)
}

/// The decimal that the text spells.
pub(crate) fn read_decimal(bytes: &[u8]) -> Result<Decimal, NumberFault>
    ensures { MatchResult result
        (λ d. decimal_of bytes.now ≡ Some d)
        (λ _. decimal_of bytes.now ≡ None) }
{
    let (negative, behind) = read_sign(bytes);
    read_behind(negative, behind)
}

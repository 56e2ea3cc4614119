//! Decimals.
ghost use Rattle.limit_fraction.specs.Number.{IsKept};

use crate::powers::{times_ten_to, with_sign};
use crate::reading::read_decimal;
use thiserror::Error;

/// The number `mantissa * 10^exponent`.
///
/// Zero has exponent 0. Any other mantissa is not divisible by 10 and has at most 28 digits, and
/// the exponent is from -400 to 400.
#[derive(Clone, Copy, Debug, PartialEq, Eq)]
pub struct Decimal {
    pub mantissa: i128,
    pub exponent: i16,
    pub ghost kept: { IsKept mantissa exponent },
}

/// The text spells no number that is kept.
#[derive(Clone, Copy, Debug, PartialEq, Eq, Error)]
#[error("this is not a number")]
pub struct NumberFault;

/// The greatest size of a whole number that is answered.
const WHOLE: u128 = 1 << 64;

impl Decimal {
    ghost use Rattle.std.specs.Prelude.{◌≡◌, ◌^◌, ◌≤◌, ℤ, pos, neg_ℤ, unsigned_abs, IfOk, OnErr, IfSome, Some, None};
    ghost use Rattle.limit_fraction.specs.Number.{units, IsSame};
    ghost use Rattle.limit_fraction.specs.Decimal.{number_of, whole_of};
    ghost use Rattle.limit_fraction.specs.Negated.{negated};
    ghost use Rattle.limit_fraction.specs.Reading.{decimal_of, IsSpelled};
    ghost use Rattle.limit_fraction.specs.declared.number.Decimal.{Decimal};

    /// The decimal that the text spells: an optional sign, digits with an optional point and at
    /// least one digit in all, and optionally `e` or `E`, an optional sign and digits.
    ///
    /// # Errors
    ///
    /// The text spells no number, or one that is not kept: not 0, and with more than 28 digits
    /// or an exponent that is not from -400 to 400 once all tens are taken off its mantissa.
    pub fn read(bytes: &[u8]) -> Result<Decimal, NumberFault>
        ensures value { IfOk result (λ d. decimal_of bytes.now ≡ Some d) }
        ensures fault { OnErr result (decimal_of bytes.now ≡ None) }

        // By the spelling alone: it is the one kept decimal whose number the text spells.
        ensures spelled { IfOk result (λ d. IsSpelled bytes.now d) }
        ensures only { (d : Decimal) → IsSpelled bytes.now d → result ≡ Ok d }
    {
        read_decimal(bytes)
    }

    /// The number with its sign turned.
    pub fn negated(&self) -> Decimal
        ensures value { result ≡ negated self.now }
        ensures mantissa { result.mantissa ≡ neg_ℤ self.now.mantissa }
        ensures exponent { result.exponent ≡ self.now.exponent }
    {
        Decimal {
            mantissa: -self.mantissa,
            exponent: self.exponent,
        }
    }

    /// The number, where it is whole and from -2^64 to 2^64.
    pub fn whole(&self) -> Option<i128>
        ensures value { result ≡ whole_of self.now }

        // By the number alone: it is the one whole number in reach that equals the decimal.
        ensures same { IfSome result (λ z. IsSame (units (pos 0) z) (number_of self.now)) }
        ensures within { IfSome result (λ z. unsigned_abs z ≤ 2 ^ 64) }
        ensures only { (z : ℤ) → unsigned_abs z ≤ 2 ^ 64 → IsSame (units (pos 0) z) (number_of self.now)
            → result ≡ Some z }
    {
        self.whole_value()
    }

    fn whole_value(&self) -> Option<i128>
        ensures { result ≡ whole_of self.now }
    {
        if self.exponent < 0 {
            return None;
        }
        let size = times_ten_to(self.mantissa.unsigned_abs(), self.exponent as usize);
        if size <= WHOLE {
            Some(with_sign(self.mantissa < 0, size))
        } else {
            None
        }
    }
}

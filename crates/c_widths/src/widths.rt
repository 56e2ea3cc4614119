//! The types of integers under a data model, one body for all models.
ghost use Rattle.std.specs.Prelude.{◌≡◌, pos, neg_ℤ, ◌^◌, ◌-◌, ◌≤◌, ◌≤ℤ◌, ◌<ℤ◌};
ghost use Rattle.c_widths.specs.DataModel.{IsModel, model_of};
ghost use Rattle.c_widths.specs.IntegerType as integer;
ghost use Rattle.c_widths.specs.Promotion as promotion;
ghost use Rattle.c_widths.specs.Conversion as conversion;
ghost use Rattle.c_widths.specs.CommonType as common;
ghost use Rattle.c_widths.specs.ConstantType as constant_of;

use c_mean::{Constant, IntType, Spelled};

/// Calls over the widths of int, long and pointers, in bits.
pub struct Widths<const INT: u32, const LONG: u32, const PTR: u32>;

impl<const INT: u32, const LONG: u32, const PTR: u32> Widths<INT, LONG, PTR> {
    /// The type that an operand of a type has before an operator (6.3.1.1).
    pub fn promote(kind: IntType) -> IntType
        requires { IsModel INT LONG PTR }
        ensures { result ≡ promotion.promote (model_of INT LONG PTR) kind }
    {
        if rank(kind) >= 3 {
            kind
        } else if Self::value_bits(kind) < INT {
            IntType::Int
        } else {
            IntType::UnsignedInt
        }
    }

    /// The common type of two promoted operands (6.3.1.8).
    pub fn common(left: IntType, right: IntType) -> IntType
        requires { IsModel INT LONG PTR }
        ensures { result ≡ common.common (model_of INT LONG PTR) left right }
    {
        match (is_signed(left), is_signed(right)) {
            (true, false) => Self::of_both_signs(right, left),
            (false, true) => Self::of_both_signs(left, right),
            _ => greater_rank(left, right),
        }
    }

    /// The type of a constant (6.4.4.1), or none where no type of its list holds it.
    #[tactic(auto, unfolding(crate::specs::ConstantType::constant_type))]
    pub fn constant_type(constant: &Constant) -> Option<IntType>
        requires { IsModel INT LONG PTR }
        ensures { result ≡ constant_of.constant_type (model_of INT LONG PTR) constant.now }
    {
        Self::first_that_holds(i128::from(constant.value), types_of(constant))
    }

    /// The value that a number has in a type (6.3.1.2 and 6.3.1.3).
    pub fn convert(value: i128, to: IntType) -> i128
        requires { IsModel INT LONG PTR }
        ensures value { result ≡ conversion.convert (model_of INT LONG PTR) to value }
        ensures low { neg_ℤ (pos (2 ^ 63)) ≤ℤ result }
        ensures high { result <ℤ pos (2 ^ 64) }
    {
        match to {
            IntType::Bool => truth(value),
            _ => wrap(is_signed(to), Self::bits(to), value),
        }
    }

    /// The type that a spelling stands for (7.17 and 7.18.1.1).
    pub fn type_of(kind: Spelled) -> IntType
        ensures { result ≡ integer.type_of (model_of INT LONG PTR) kind }
    {
        match kind {
            Spelled::Exact { width, signed } => Self::exact_type(width, signed),
            Spelled::Size => Self::size_type(),
            Spelled::Plain(kind) => kind,
        }
    }

    /// How many bits a type has (6.2.6.2).
    #[tactic(auto, using(crate::proofs::Bounds::bounds))]
    pub fn bits(kind: IntType) -> u32
        requires { IsModel INT LONG PTR }
        ensures width { result ≡ integer.bits_of (model_of INT LONG PTR) kind }
        ensures some { 1 ≤ result }
        ensures few { result ≤ 64 }
    {
        match kind {
            IntType::Bool => 1,
            IntType::SignedChar | IntType::UnsignedChar => 8,
            IntType::Short | IntType::UnsignedShort => 16,
            IntType::Int | IntType::UnsignedInt => INT,
            IntType::Long | IntType::UnsignedLong => LONG,
            IntType::LongLong | IntType::UnsignedLongLong => 64,
        }
    }

    /// How many bits it has without its sign.
    fn value_bits(kind: IntType) -> u32
        requires { IsModel INT LONG PTR }
        ensures { result ≡ integer.value_bits (model_of INT LONG PTR) kind }
    {
        if is_signed(kind) {
            Self::bits(kind) - 1
        } else {
            Self::bits(kind)
        }
    }

    fn of_both_signs(unsigned: IntType, signed: IntType) -> IntType
        requires { IsModel INT LONG PTR }
        ensures { result ≡ common.of_both_signs (model_of INT LONG PTR) unsigned signed }
    {
        if rank(signed) <= rank(unsigned) {
            unsigned
        } else if Self::bits(unsigned) < Self::bits(signed) {
            signed
        } else {
            unsigned_of(signed)
        }
    }

    fn signed_exact(width: u32) -> IntType
        ensures { result ≡ integer.signed_exact (model_of INT LONG PTR) width }
    {
        if width == INT {
            IntType::Int
        } else if width == 8 {
            IntType::SignedChar
        } else if width == 16 {
            IntType::Short
        } else if width == LONG {
            IntType::Long
        } else {
            IntType::LongLong
        }
    }

    #[tactic(auto, unfolding(crate::specs::IntegerType::exact_type))]
    fn exact_type(width: u32, signed: bool) -> IntType
        ensures { result ≡ integer.exact_type (model_of INT LONG PTR) width signed }
    {
        if signed {
            Self::signed_exact(width)
        } else {
            unsigned_of(Self::signed_exact(width))
        }
    }

    /// `size_t`.
    #[tactic(auto, unfolding(crate::specs::IntegerType::size_type))]
    fn size_type() -> IntType
        ensures { result ≡ integer.size_type (model_of INT LONG PTR) }
    {
        if PTR == INT {
            IntType::UnsignedInt
        } else {
            IntType::UnsignedLong
        }
    }

    /// Whether a type has a number.
    fn holds(kind: IntType, number: i128) -> bool
        requires { IsModel INT LONG PTR }
        ensures { result ≡ conversion.holds (model_of INT LONG PTR) kind number }
    {
        Self::convert(number, kind) == number
    }

    fn first_that_holds(number: i128, kinds: &[IntType]) -> Option<IntType>
        requires { IsModel INT LONG PTR }
        ensures { result ≡ constant_of.first_that_holds (model_of INT LONG PTR) number kinds.now }
    {
        for kind in kinds {
            if Self::holds(*kind, number) {
                return Some(*kind);
            }
        }
        None
    }
}

/// Whether a type has a sign (6.2.5).
pub fn is_signed(kind: IntType) -> bool
    ensures { result ≡ integer.is_signed kind }
{
    matches!(
        kind,
        IntType::SignedChar | IntType::Short | IntType::Int | IntType::Long | IntType::LongLong
    )
}

fn unsigned_of(kind: IntType) -> IntType
    ensures { result ≡ integer.unsigned_of kind }
{
    match kind {
        IntType::SignedChar => IntType::UnsignedChar,
        IntType::Short => IntType::UnsignedShort,
        IntType::Int => IntType::UnsignedInt,
        IntType::Long => IntType::UnsignedLong,
        IntType::LongLong => IntType::UnsignedLongLong,
        _ => kind,
    }
}

fn rank(kind: IntType) -> u32
    ensures { result ≡ promotion.rank kind }
{
    match kind {
        IntType::Bool => 0,
        IntType::SignedChar | IntType::UnsignedChar => 1,
        IntType::Short | IntType::UnsignedShort => 2,
        IntType::Int | IntType::UnsignedInt => 3,
        IntType::Long | IntType::UnsignedLong => 4,
        IntType::LongLong | IntType::UnsignedLongLong => 5,
    }
}

fn greater_rank(left: IntType, right: IntType) -> IntType
    ensures { result ≡ common.greater_rank left right }
{
    if rank(left) < rank(right) {
        right
    } else {
        left
    }
}

/// The types that a constant may have, of which the first that holds it wins.
fn types_of(constant: &Constant) -> &'static [IntType]
    ensures { result.now ≡ constant_of.types_of constant.now }
{
    use IntType::{Int, Long, LongLong, UnsignedInt, UnsignedLong, UnsignedLongLong};
    match (constant.longs, constant.unsigned, constant.base == 10) {
        (0, true, _) => &[UnsignedInt, UnsignedLong, UnsignedLongLong],
        (0, false, true) => &[Int, Long, LongLong],
        (0, false, false) => &[
            Int,
            UnsignedInt,
            Long,
            UnsignedLong,
            LongLong,
            UnsignedLongLong,
        ],
        (1, true, _) => &[UnsignedLong, UnsignedLongLong],
        (1, false, true) => &[Long, LongLong],
        (1, false, false) => &[Long, UnsignedLong, LongLong, UnsignedLongLong],
        (_, true, _) => &[UnsignedLongLong],
        (_, false, true) => &[LongLong],
        (_, false, false) => &[LongLong, UnsignedLongLong],
    }
}

fn truth(number: i128) -> i128
    ensures { result ≡ conversion.truth number }
{
    if number == 0 { 0 } else { 1 }
}

/// 2 to the power of so many bits.
pub fn power(bits: u32) -> i128
    requires { bits ≤ 64 }
    ensures { result ≡ pos (2 ^ bits) }
{
    (1u128 << bits) as i128
}

#[tactic(auto, unfolding(crate::specs::Conversion::wrap))]
fn wrap(signed: bool, bits: u32, number: i128) -> i128
    requires some { 1 ≤ bits }
    requires few { bits ≤ 64 }
    ensures value { result ≡ conversion.wrap signed bits number }
    ensures low { neg_ℤ (pos (2 ^ (bits - 1))) ≤ℤ result }
    ensures high { result <ℤ pos (2 ^ bits) }
{
    let low = number.rem_euclid(power(bits));
    if signed && low >= power(bits - 1) {
        low - power(bits)
    } else {
        low
    }
}

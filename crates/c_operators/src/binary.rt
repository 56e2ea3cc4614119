//! The operators between two operands (ISO/IEC 9899:1999, 6.5.6 to 6.5.12), but for `&&` and `||`.
ghost use Rattle.std.specs.Prelude.{◌≡◌, pos, neg_ℤ, ◌^◌, ◌<◌, ◌+ℤ◌, ◌-ℤ◌, ◌*ℤ◌, ◌≤ℤ◌, ◌<ℤ◌};
ghost use Rattle.c_widths.specs.DataModel.{IsModel, model_of};
ghost use Rattle.c_operators.specs.Operator as spec;
ghost use Rattle.c_operators.specs.Shift as shift;
ghost use Rattle.c_operators.specs.Arithmetic as arithmetic;

use crate::pointers::compared;
use crate::signs::Operators;
use crate::value::{TypedValue, Value, pointer_of, truth_value};
use c_mean::{BinaryOp, IntType};
use c_mem::Undefined;
use c_widths::{Widths, is_signed, power};

impl<const INT: u32, const LONG: u32, const PTR: u32> Operators<INT, LONG, PTR> {
    /// What an operator gives between any two values.
    pub fn applied(op: BinaryOp, left: Value, right: Value) -> Result<TypedValue, Undefined>
        requires { IsModel INT LONG PTR }
        ensures { result ≡ spec.applied (model_of INT LONG PTR) op left right }
    {
        match (left, right) {
            (Value::Integer(left), Value::Integer(right)) => Self::operate(op, left, right),
            _ => compared(op, pointer_of(left), pointer_of(right)),
        }
    }

    /// What an operator gives between two numbers.
    #[tactic(auto, unfolding(crate::specs::Operator::operate))]
    pub fn operate(
        op: BinaryOp,
        left: TypedValue,
        right: TypedValue,
    ) -> Result<TypedValue, Undefined>
        requires { IsModel INT LONG PTR }
        ensures { result ≡ spec.operate (model_of INT LONG PTR) op left right }
    {
        let kind = Widths::<INT, LONG, PTR>::promote(left.kind);
        if is_shift(op) {
            let value = Widths::<INT, LONG, PTR>::convert(left.value, kind);
            return Self::shifted(op, kind, value, right.value);
        }
        let other = Widths::<INT, LONG, PTR>::promote(right.kind);
        let common = Widths::<INT, LONG, PTR>::common(kind, other);
        let left = Widths::<INT, LONG, PTR>::convert(left.value, common);
        let right = Widths::<INT, LONG, PTR>::convert(right.value, common);
        Self::combined(op, common, left, right)
    }

    fn shifted(
        op: BinaryOp,
        kind: IntType,
        value: i128,
        count: i128,
    ) -> Result<TypedValue, Undefined>
        requires model { IsModel INT LONG PTR }
        requires low { neg_ℤ (pos (2 ^ 63)) ≤ℤ value }
        requires high { value <ℤ pos (2 ^ 64) }
        ensures { result ≡ shift.shifted (model_of INT LONG PTR) op kind value count }
    {
        if count < 0 || count >= i128::from(Widths::<INT, LONG, PTR>::bits(kind)) {
            return Err(Undefined::ShiftCount);
        }
        match op {
            BinaryOp::ShiftLeft => Self::left_shifted(kind, value, count as u32),
            _ => right_shifted(kind, value, count as u32),
        }
    }

    fn left_shifted(kind: IntType, value: i128, count: u32) -> Result<TypedValue, Undefined>
        requires model { IsModel INT LONG PTR }
        requires low { neg_ℤ (pos (2 ^ 63)) ≤ℤ value }
        requires high { value <ℤ pos (2 ^ 64) }
        requires few { count < 64 }
        ensures { result ≡ shift.left_shifted (model_of INT LONG PTR) kind value count }
    {
        if value < 0 && is_signed(kind) {
            return Err(Undefined::ShiftOverflow);
        }
        Self::in_type(Undefined::ShiftOverflow, kind, scaled(value, count))
    }

    /// Both operands in their common type.
    fn combined(
        op: BinaryOp,
        kind: IntType,
        left: i128,
        right: i128,
    ) -> Result<TypedValue, Undefined>
        requires model { IsModel INT LONG PTR }
        requires left_low { neg_ℤ (pos (2 ^ 63)) ≤ℤ left }
        requires left_high { left <ℤ pos (2 ^ 64) }
        requires right_low { neg_ℤ (pos (2 ^ 63)) ≤ℤ right }
        requires right_high { right <ℤ pos (2 ^ 64) }
        ensures { result ≡ arithmetic.combined (model_of INT LONG PTR) op kind left right }
    {
        match op {
            BinaryOp::Add => Self::in_type(Undefined::Overflow, kind, plus(left, right)),
            BinaryOp::Subtract => Self::in_type(Undefined::Overflow, kind, minus(left, right)),
            BinaryOp::BitAnd => Ok(Self::of_bits(
                kind,
                Self::bits_of(kind, left) & Self::bits_of(kind, right),
            )),
            BinaryOp::BitOr => Ok(Self::of_bits(
                kind,
                Self::bits_of(kind, left) | Self::bits_of(kind, right),
            )),
            BinaryOp::BitXor => Ok(Self::of_bits(
                kind,
                Self::bits_of(kind, left) ^ Self::bits_of(kind, right),
            )),
            BinaryOp::Equal => Ok(truth_value(left == right)),
            BinaryOp::NotEqual => Ok(truth_value(left != right)),
            BinaryOp::Less => Ok(truth_value(left < right)),
            BinaryOp::Greater => Ok(truth_value(right < left)),
            BinaryOp::LessEqual => Ok(truth_value(left <= right)),
            _ => Ok(truth_value(right <= left)),
        }
    }

    /// The bits of a number in a type, the least first, as a number.
    #[tactic(auto, unfolding(c_widths::specs::Conversion::wrap))]
    fn bits_of(kind: IntType, number: i128) -> u64
        requires { IsModel INT LONG PTR }
        ensures { result ≡ arithmetic.bits_in (model_of INT LONG PTR) kind number }
    {
        number.rem_euclid(power(Widths::<INT, LONG, PTR>::bits(kind))) as u64
    }

    /// The value of bits in a type.
    fn of_bits(kind: IntType, bits: u64) -> TypedValue
        requires { IsModel INT LONG PTR }
        ensures { result ≡ arithmetic.of_bits (model_of INT LONG PTR) kind bits }
    {
        TypedValue {
            kind,
            value: Widths::<INT, LONG, PTR>::convert(i128::from(bits), kind),
        }
    }
}

fn is_shift(op: BinaryOp) -> bool
    ensures { result ≡ spec.is_shift op }
{
    matches!(op, BinaryOp::ShiftLeft | BinaryOp::ShiftRight)
}

fn right_shifted(kind: IntType, value: i128, count: u32) -> Result<TypedValue, Undefined>
    requires { count < 64 }
    ensures { result ≡ shift.right_shifted kind value count }
{
    if value < 0 {
        return Err(Undefined::NegativeRightShift);
    }
    Ok(TypedValue {
        kind,
        value: value / power(count),
    })
}

fn scaled(value: i128, count: u32) -> i128
    requires low { neg_ℤ (pos (2 ^ 63)) ≤ℤ value }
    requires high { value <ℤ pos (2 ^ 64) }
    requires few { count < 64 }
    ensures { result ≡ value *ℤ pos (2 ^ count) }
{
    value * power(count)
}

fn plus(left: i128, right: i128) -> i128
    requires left_low { neg_ℤ (pos (2 ^ 63)) ≤ℤ left }
    requires left_high { left <ℤ pos (2 ^ 64) }
    requires right_low { neg_ℤ (pos (2 ^ 63)) ≤ℤ right }
    requires right_high { right <ℤ pos (2 ^ 64) }
    ensures { result ≡ left +ℤ right }
{
    left + right
}

fn minus(left: i128, right: i128) -> i128
    requires left_low { neg_ℤ (pos (2 ^ 63)) ≤ℤ left }
    requires left_high { left <ℤ pos (2 ^ 64) }
    requires right_low { neg_ℤ (pos (2 ^ 63)) ≤ℤ right }
    requires right_high { right <ℤ pos (2 ^ 64) }
    ensures { result ≡ left -ℤ right }
{
    left - right
}

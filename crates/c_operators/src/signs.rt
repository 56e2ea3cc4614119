//! Constants and the operators before an operand (ISO/IEC 9899:1999, 6.4.4.1 and 6.5.3.3).
ghost use Rattle.std.specs.Prelude.{◌≡◌, pos, negsuc, neg_ℤ, ◌^◌, ◌-ℤ◌, ◌≤ℤ◌, ◌<ℤ◌};
ghost use Rattle.c_widths.specs.DataModel.{IsModel, model_of};
ghost use Rattle.c_operators.specs.Value as values;
ghost use Rattle.c_operators.specs.Sign as spec;

use crate::value::{TypedValue, truth_value};
use c_mean::{Constant, IntType, UnaryOp};
use c_mem::Undefined;
use c_widths::{Widths, is_signed};

/// Operators under the widths of int, long and pointers, in bits.
pub struct Operators<const INT: u32, const LONG: u32, const PTR: u32>;

impl<const INT: u32, const LONG: u32, const PTR: u32> Operators<INT, LONG, PTR> {
    /// What an operator gives before an operand.
    pub fn signed(op: UnaryOp, operand: TypedValue) -> Result<TypedValue, Undefined>
        requires { IsModel INT LONG PTR }
        ensures { result ≡ spec.signed (model_of INT LONG PTR) op operand }
    {
        let kind = Widths::<INT, LONG, PTR>::promote(operand.kind);
        let value = Widths::<INT, LONG, PTR>::convert(operand.value, kind);
        match op {
            UnaryOp::Plus => Ok(TypedValue { kind, value }),
            UnaryOp::Minus => Self::in_type(Undefined::Overflow, kind, negated(value)),
            UnaryOp::Complement => Ok(TypedValue {
                kind,
                value: Widths::<INT, LONG, PTR>::convert(complement(value), kind),
            }),
            UnaryOp::Not => Ok(truth_value(operand.value == 0)),
        }
    }

    /// The value of a constant in its type.
    pub fn constant(constant: &Constant) -> Result<TypedValue, Undefined>
        requires { IsModel INT LONG PTR }
        ensures { result ≡ spec.constant (model_of INT LONG PTR) constant.now }
    {
        match Widths::<INT, LONG, PTR>::constant_type(constant) {
            Some(kind) => Ok(TypedValue {
                kind,
                value: constant.value as i128,
            }),
            None => Err(Undefined::Indeterminate),
        }
    }

    /// A result in its type, or what is undefined where a signed type does not hold it.
    pub(crate) fn in_type(
        fault: Undefined,
        kind: IntType,
        number: i128,
    ) -> Result<TypedValue, Undefined>
        requires { IsModel INT LONG PTR }
        ensures { result ≡ values.in_type (model_of INT LONG PTR) fault kind number }
    {
        let value = Widths::<INT, LONG, PTR>::convert(number, kind);
        if is_signed(kind) && value != number {
            return Err(fault);
        }
        Ok(TypedValue { kind, value })
    }
}

fn negated(number: i128) -> i128
    requires low { neg_ℤ (pos (2 ^ 63)) ≤ℤ number }
    requires high { number <ℤ pos (2 ^ 64) }
    ensures { result ≡ neg_ℤ number }
{
    -number
}

/// The number whose bits are the others.
fn complement(number: i128) -> i128
    requires low { neg_ℤ (pos (2 ^ 63)) ≤ℤ number }
    requires high { number <ℤ pos (2 ^ 64) }
    ensures { result ≡ negsuc 0 -ℤ number }
{
    -1 - number
}

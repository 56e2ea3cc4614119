//! Pointers that are compared (ISO/IEC 9899:1999, 6.5.9).
ghost use Rattle.std.specs.Prelude.{◌≡◌};
ghost use Rattle.c_operators.specs.PointerEquality as spec;

use crate::value::{TypedValue, truth_value};
use c_mean::BinaryOp;
use c_mem::{Pointer, Undefined};

/// What `==` and `!=` give; a pointer to no object has no equal.
pub fn compared(op: BinaryOp, left: Pointer, right: Pointer) -> Result<TypedValue, Undefined>
    ensures { result ≡ spec.compared op left right }
{
    let equal = are_equal(left, right)?;
    match op {
        BinaryOp::Equal => Ok(truth_value(equal)),
        BinaryOp::NotEqual => Ok(truth_value(!equal)),
        _ => Err(Undefined::Indeterminate),
    }
}

fn are_equal(left: Pointer, right: Pointer) -> Result<bool, Undefined>
    ensures { result ≡ spec.are_equal left right }
{
    match (left, right) {
        (Pointer::Stray, _) | (_, Pointer::Stray) => Err(Undefined::OutOfBounds),
        (Pointer::Null, Pointer::Null) => Ok(true),
        (Pointer::At(m), Pointer::At(n)) => Ok(m == n),
        _ => Ok(false),
    }
}

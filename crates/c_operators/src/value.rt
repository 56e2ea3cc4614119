//! What an expression gives.
ghost use Rattle.std.specs.Prelude.{◌≡◌};
ghost use Rattle.c_operators.specs.Value as spec;

use c_mean::IntType;
use c_mem::Pointer;

/// A number with its type.
#[derive(Clone, Copy, Debug, PartialEq, Eq)]
pub struct TypedValue {
    pub kind: IntType,
    pub value: i128,
}

/// The value of an expression.
#[derive(Clone, Copy, Debug, PartialEq, Eq)]
pub enum Value {
    Integer(TypedValue),
    Pointer(Pointer),
}

/// The number of a value; of a pointer the int 0.
pub fn number_of(value: Value) -> TypedValue
    ensures { result ≡ spec.number_of value }
{
    match value {
        Value::Integer(number) => number,
        Value::Pointer(_) => TypedValue {
            kind: IntType::Int,
            value: 0,
        },
    }
}

/// The pointer of a value; of a number the null pointer.
pub fn pointer_of(value: Value) -> Pointer
    ensures { result ≡ spec.pointer_of value }
{
    match value {
        Value::Integer(_) => Pointer::Null,
        Value::Pointer(pointer) => pointer,
    }
}

/// Whether a value compares unequal to 0 (6.5.13p3, 6.8.4.1p2).
pub fn is_true(value: Value) -> bool
    ensures { result ≡ spec.is_true value }
{
    number_of(value).value != 0
}

/// The int 1 or 0 (6.5.8p6).
pub fn truth_value(is: bool) -> TypedValue
    ensures { result ≡ spec.truth_value is }
{
    TypedValue {
        kind: IntType::Int,
        value: if is { 1 } else { 0 },
    }
}

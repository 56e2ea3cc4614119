//! What a call runs on, and how it ends.
use c_mean::{IntType, Place};
use c_mem::{Pointer, Undefined};
use c_operators::TypedValue;

/// What a local or a parameter holds.
#[derive(Clone, Copy, Debug, PartialEq, Eq)]
pub enum Held {
    /// Of an integer type, a number or none yet.
    Integer(IntType, Option<i128>),
    Pointer(Pointer),
}

/// The cell of a field in its struct: its number, counted from 0, and its type.
#[derive(Clone, Copy, Debug, PartialEq, Eq)]
pub struct Slot {
    pub number: usize,
    pub kind: IntType,
}

/// Undefined behaviour, and where it shows.
#[derive(Clone, Copy, Debug, PartialEq, Eq)]
pub struct Stop {
    pub kind: Undefined,
    pub place: Place,
}

/// How a statement ends that is not undefined (6.8).
#[derive(Clone, Copy, Debug, PartialEq, Eq)]
pub enum Flow {
    Next,
    /// By a `break`.
    Broken,
    /// By a `return`, with its value before it is converted.
    Returned(Option<TypedValue>),
}

/// An argument of a call from outside.
#[derive(Clone, Copy, Debug, PartialEq, Eq)]
pub enum Arg {
    Integer(i128),
    Pointer(Pointer),
}

/// How a call from outside ends.
#[derive(Clone, Copy, Debug, PartialEq, Eq)]
pub enum Outcome {
    /// With a value in the function's type, or none of a void function.
    Returned(Option<i128>),
    Undefined { kind: Undefined, place: Place },
}

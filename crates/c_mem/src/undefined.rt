//! Undefined behaviour (ISO/IEC 9899:1999, 3.4.3).

/// What is undefined.
#[derive(Clone, Copy, Debug, PartialEq, Eq)]
pub enum Undefined {
    /// A shift by less than 0, or by the width of the promoted left operand or more (6.5.7p3).
    ShiftCount,
    /// A left shift of a negative number, or one whose result its signed type does not hold
    /// (6.5.7p4).
    ShiftOverflow,
    /// A right shift of a negative number, which the standard leaves to each compiler (6.5.7p5).
    NegativeRightShift,
    /// A result that its signed type does not hold (6.5p5).
    Overflow,
    /// A null pointer that is used (6.5.3.2p4, 7.1.4).
    NullUse,
    /// A cell outside its object (6.5.6p8), or a pointer to no object that is used (6.2.4p2).
    OutOfBounds,
    /// A value that nothing gave (6.7.8p10).
    Indeterminate,
    /// A function that ends at its brace and promised a value (6.9.1p12).
    NoValue,
}

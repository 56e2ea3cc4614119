//! How operators, types of integers and what a call names are spelled (ISO/IEC 9899:1999, 6.4.1,
//! 6.4.6, 7.16 to 7.18 and 7.21.6.1).
ghost use Rattle.std.specs.Prelude.{◌≡◌, ◌++◌, OnOk};
ghost use Rattle.c_printed.specs.Spelling as spec;

use c_text::{IntType, Spelled};
use c_tree::{AssignOp, BinaryOp, Callee, UnaryOp};
use std::alloc::AllocError;

/// A prefix operator (6.5.3.3).
pub fn sign_text(op: UnaryOp) -> &'static [u8]
    ensures { result.now ≡ spec.sign_text op }
{
    match op {
        UnaryOp::Plus => b"+",
        UnaryOp::Minus => b"-",
        UnaryOp::Complement => b"~",
        UnaryOp::Not => b"!",
    }
}

/// An operator between two operands, with a blank on each side.
pub fn operator_text(op: BinaryOp) -> &'static [u8]
    ensures { result.now ≡ spec.between (spec.operator_text op) }
{
    match op {
        BinaryOp::LogicalOr => b" || ",
        BinaryOp::LogicalAnd => b" && ",
        BinaryOp::BitOr => b" | ",
        BinaryOp::BitXor => b" ^ ",
        BinaryOp::BitAnd => b" & ",
        BinaryOp::Equal => b" == ",
        BinaryOp::NotEqual => b" != ",
        BinaryOp::Less => b" < ",
        BinaryOp::Greater => b" > ",
        BinaryOp::LessEqual => b" <= ",
        BinaryOp::GreaterEqual => b" >= ",
        BinaryOp::ShiftLeft => b" << ",
        BinaryOp::ShiftRight => b" >> ",
        BinaryOp::Add => b" + ",
        BinaryOp::Subtract => b" - ",
    }
}

/// An operator of an assignment, with a blank on each side.
pub fn assign_text(op: AssignOp) -> &'static [u8]
    ensures { result.now ≡ spec.between (spec.assign_text op) }
{
    match op {
        AssignOp::Set => b" = ",
        AssignOp::BitOr => b" |= ",
        AssignOp::BitAnd => b" &= ",
        AssignOp::BitXor => b" ^= ",
        AssignOp::Add => b" += ",
        AssignOp::Subtract => b" -= ",
        AssignOp::ShiftLeft => b" <<= ",
        AssignOp::ShiftRight => b" >>= ",
    }
}

/// A type that is spelled by keywords (6.7.2), and `bool` (7.16), with a blank between two words.
fn plain_text(kind: IntType) -> &'static [u8]
    ensures { result.now ≡ spec.spaced (spec.plain_words kind) }
{
    match kind {
        IntType::Bool => b"bool",
        IntType::SignedChar => b"signed char",
        IntType::UnsignedChar => b"unsigned char",
        IntType::Short => b"short",
        IntType::UnsignedShort => b"unsigned short",
        IntType::Int => b"int",
        IntType::UnsignedInt => b"unsigned int",
        IntType::Long => b"long",
        IntType::UnsignedLong => b"unsigned long",
        IntType::LongLong => b"long long",
        IntType::UnsignedLongLong => b"unsigned long long",
    }
}

/// The digits of the width of an exact-width type, which is 8, 16, 32 or 64 bits.
fn width_text(width: u32) -> &'static [u8]
    ensures { result.now ≡ spec.width_text width }
{
    if width < 16 {
        b"8"
    } else if width < 32 {
        b"16"
    } else if width < 64 {
        b"32"
    } else {
        b"64"
    }
}

/// What an exact-width type (7.18.1.1) begins with.
fn sign_letter(signed: bool) -> &'static [u8]
    ensures { result.now ≡ spec.sign_letter signed }
{
    if signed { b"" } else { b"u" }
}

/// Appends a type of integers.
pub fn print_type(kind: Spelled, out: &mut Vec<u8>) -> Result<(), AllocError>
    ensures { OnOk result (out.new.items ≡ out.old.items ++ spec.type_text kind) }
{
    match kind {
        Spelled::Exact { width, signed } => {
            out.extend_from_slice(sign_letter(signed))?;
            out.extend_from_slice(b"int")?;
            out.extend_from_slice(width_text(width))?;
            out.extend_from_slice(b"_t")
        }
        Spelled::Size => out.extend_from_slice(b"size_t"),
        Spelled::Plain(plain) => out.extend_from_slice(plain_text(plain)),
    }
}

/// The name of what a call calls.
pub fn callee_text(function: &Callee) -> &[u8]
    ensures { result.now ≡ spec.callee_text function.now }
{
    match function {
        Callee::Name(name) => name.bytes(),
        Callee::Memset => b"memset",
    }
}

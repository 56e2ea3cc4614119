//! Operators, and how tight they bind (ISO/IEC 9899:1999, 6.5).
ghost use Rattle.std.specs.Prelude.{◌≡◌};
ghost use Rattle.c_tree.specs.Operators as spec;

use crate::symbols::mark;
use c_text::TokenKind;
use c_tree::{AssignOp, BinaryOp, Punctuator, UnaryOp};

/// The level and the operator of a token that may stand between two operands; level 0 is the
/// loosest, 8 the tightest.
pub fn operator(kind: &TokenKind) -> Option<(u32, BinaryOp)>
    ensures { result ≡ spec.operator kind.now }
{
    match mark(kind) {
        Some(Punctuator::BarBar) => Some((0, BinaryOp::LogicalOr)),
        Some(Punctuator::AndAnd) => Some((1, BinaryOp::LogicalAnd)),
        Some(Punctuator::Bar) => Some((2, BinaryOp::BitOr)),
        Some(Punctuator::Caret) => Some((3, BinaryOp::BitXor)),
        Some(Punctuator::And) => Some((4, BinaryOp::BitAnd)),
        Some(Punctuator::EqualEqual) => Some((5, BinaryOp::Equal)),
        Some(Punctuator::NotEqual) => Some((5, BinaryOp::NotEqual)),
        Some(Punctuator::Less) => Some((6, BinaryOp::Less)),
        Some(Punctuator::Greater) => Some((6, BinaryOp::Greater)),
        Some(Punctuator::LessEqual) => Some((6, BinaryOp::LessEqual)),
        Some(Punctuator::GreaterEqual) => Some((6, BinaryOp::GreaterEqual)),
        Some(Punctuator::ShiftLeft) => Some((7, BinaryOp::ShiftLeft)),
        Some(Punctuator::ShiftRight) => Some((7, BinaryOp::ShiftRight)),
        Some(Punctuator::Plus) => Some((8, BinaryOp::Add)),
        Some(Punctuator::Minus) => Some((8, BinaryOp::Subtract)),
        _ => None,
    }
}

/// The operator of a token that may stand before an operand.
pub fn prefix(kind: &TokenKind) -> Option<UnaryOp>
    ensures { result ≡ spec.prefix kind.now }
{
    match mark(kind) {
        Some(Punctuator::Plus) => Some(UnaryOp::Plus),
        Some(Punctuator::Minus) => Some(UnaryOp::Minus),
        Some(Punctuator::Complement) => Some(UnaryOp::Complement),
        Some(Punctuator::Not) => Some(UnaryOp::Not),
        _ => None,
    }
}

/// The sign that a token is before the constant of a `case`.
pub fn sign(kind: &TokenKind) -> Option<UnaryOp>
    ensures { result ≡ spec.sign_of kind.now }
{
    match mark(kind) {
        Some(Punctuator::Plus) => Some(UnaryOp::Plus),
        Some(Punctuator::Minus) => Some(UnaryOp::Minus),
        _ => None,
    }
}

/// The operator of an assignment that a token is.
pub fn assignment(kind: &TokenKind) -> Option<AssignOp>
    ensures { result ≡ spec.assignment kind.now }
{
    match mark(kind) {
        Some(Punctuator::Equal) => Some(AssignOp::Set),
        Some(Punctuator::BarEqual) => Some(AssignOp::BitOr),
        Some(Punctuator::AndEqual) => Some(AssignOp::BitAnd),
        Some(Punctuator::CaretEqual) => Some(AssignOp::BitXor),
        Some(Punctuator::PlusEqual) => Some(AssignOp::Add),
        Some(Punctuator::MinusEqual) => Some(AssignOp::Subtract),
        Some(Punctuator::ShiftLeftEqual) => Some(AssignOp::ShiftLeft),
        Some(Punctuator::ShiftRightEqual) => Some(AssignOp::ShiftRight),
        _ => None,
    }
}

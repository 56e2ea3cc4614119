//! The parts of a helper: its parameters and the expression that it returns.
ghost use Rattle.std.specs.Prelude.{◌≡◌, IfOk};
ghost use Rattle.shift_helpers.specs.HelperTree as spec;

use crate::helper::HelperKind;
use c_text::{Place, Spelled};
use c_tree::{BinaryOp, CType, Expr, ExprKind, Field};
use cg_out::{Boxed, Memory, Text};
use std::alloc::Global;

/// The place of a tree that no text has.
pub fn nowhere() -> Place
    ensures { result ≡ spec.nowhere }
{
    Place {
        header: false,
        line: 0,
        start: 0,
        end: 0,
    }
}

/// The unsigned type of a width.
pub fn unsigned(width: u32) -> CType
    ensures { result ≡ spec.unsigned width }
{
    CType::Integer(Spelled::Exact {
        width,
        signed: false,
    })
}

/// A parameter of the unsigned type of a width.
pub fn parameter(alloc: Global, width: u32, name: &[u8]) -> Result<Field, Memory>
    ensures { IfOk result (λ f. f ≡ spec.parameter width name.now) }
{
    Ok(Field {
        kind: unsigned(width),
        name: Text::copy_of(alloc, name)?,
        place: nowhere(),
    })
}

fn node(kind: ExprKind) -> Expr
    ensures { result ≡ spec.node kind }
{
    Expr {
        place: nowhere(),
        kind,
    }
}

fn name_of(alloc: Global, name: &[u8]) -> Result<Expr, Memory>
    ensures { IfOk result (λ e. e ≡ spec.name_of name.now) }
{
    Ok(node(ExprKind::Name(Text::copy_of(alloc, name)?)))
}

/// `(uintW_t)(left op right)`.
fn cast_of(alloc: Global, width: u32, op: BinaryOp, left: Expr, right: Expr) -> Result<Expr, Memory>
    ensures { IfOk result (λ e. e ≡ spec.cast_of width op left right) }
{
    let left = Boxed::new(alloc, left)?;
    let right = Boxed::new(alloc, right)?;
    let whole = node(ExprKind::Binary { op, left, right });
    let bracket = node(ExprKind::Bracket(Boxed::new(alloc, whole)?));
    Ok(node(ExprKind::Cast {
        to: Spelled::Exact {
            width,
            signed: false,
        },
        operand: Boxed::new(alloc, bracket)?,
    }))
}

/// `(uint8_t)((uint8_t)(value op shift) & mask)`.
#[tactic(auto, unfolding(crate::specs::HelperTree::packed))]
fn packed(alloc: Global, op: BinaryOp) -> Result<Expr, Memory>
    ensures { IfOk result (λ e. e ≡ spec.packed op) }
{
    let value = name_of(alloc, b"value")?;
    let shift = name_of(alloc, b"shift")?;
    let mask = name_of(alloc, b"mask")?;
    let shifted = cast_of(alloc, 8, op, value, shift)?;
    cast_of(alloc, 8, BinaryOp::BitAnd, shifted, mask)
}

/// `(uintW_t)((uintW_t)(value & mask) op shift)`.
#[tactic(auto, unfolding(crate::specs::HelperTree::unpacked))]
fn unpacked(alloc: Global, width: u32, op: BinaryOp) -> Result<Expr, Memory>
    ensures { IfOk result (λ e. e ≡ spec.unpacked width op) }
{
    let value = name_of(alloc, b"value")?;
    let shift = name_of(alloc, b"shift")?;
    let mask = name_of(alloc, b"mask")?;
    let masked = cast_of(alloc, width, BinaryOp::BitAnd, value, mask)?;
    cast_of(alloc, width, op, masked, shift)
}

/// What a helper for values of so many bits returns.
#[tactic(auto, unfolding(crate::specs::HelperTree::returned))]
pub fn returned(alloc: Global, kind: HelperKind, width: u32) -> Result<Expr, Memory>
    ensures { IfOk result (λ e. e ≡ spec.returned kind width) }
{
    match kind {
        HelperKind::PackLeft => packed(alloc, BinaryOp::ShiftLeft),
        HelperKind::PackRight => packed(alloc, BinaryOp::ShiftRight),
        HelperKind::UnpackLeft => unpacked(alloc, width, BinaryOp::ShiftLeft),
        HelperKind::UnpackRight => unpacked(alloc, width, BinaryOp::ShiftRight),
    }
}

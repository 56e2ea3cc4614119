//! The statements that extend the sign of a signal in its local.
ghost use Rattle.std.specs.Prelude.{◌≡◌, ◌≤◌, ◌<◌, [], ◌∷◌, ◌++◌, ◌-◌, ◌^◌, map, IfOk, OnOk};
ghost use Rattle.c_tree.specs.BareExpression.{bare_expression, bracket, binary};
ghost use Rattle.c_tree.specs.BareStatement.{bare_statement, when, block, actions_of};
ghost use Rattle.shift_helpers.specs.HelperResult.{IsWidth};
ghost use Rattle.gen_pack.specs.PackTree.{longs_of};
ghost use Rattle.gen_unpack.specs.UnpackTree as spec;

use crate::nodes::{name_of, node, stmt};
use c_text::Constant;
use c_tree::{AssignOp, BinaryOp, Expr, ExprKind, Stmt, StmtKind};
use cg_out::{Boxed, List, Memory};
use std::alloc::Global;

/// How many `l` a constant of that width has.
fn longs_of(width: u32) -> u8
    ensures { result ≡ longs_of width }
{
    if width <= 16 {
        0
    } else if width <= 32 {
        1
    } else {
        2
    }
}

/// A constant of the unsigned type of a width.
fn of_width(width: u32, value: u64, base: u8) -> Expr
    ensures { bare_expression result ≡ spec.of_width width value base }
{
    node(ExprKind::Constant(Constant {
        value,
        base,
        unsigned: true,
        longs: longs_of(width),
    }))
}

/// The bit of the sign of so many bits.
#[tactic(auto, using(std::proofs::lemmas::Nat::one_shl))]
fn sign_bit(length: u32) -> u64
    requires { length ≤ 64 }
    ensures { result ≡ 2 ^ (length - 1) }
{
    1 << length.saturating_sub(1)
}

/// All bits of a width.
fn all_bits(width: u32) -> u64
    requires { IsWidth width }
    ensures { result ≡ 2 ^ width - 1 }
{
    match width {
        8 => 0xff,
        16 => 0xffff,
        32 => 0xffff_ffff,
        _ => 0xffff_ffff_ffff_ffff,
    }
}

/// The bits of a width from the length up.
#[tactic(auto, using(std::proofs::lemmas::Nat::one_shl))]
fn upper_bits(width: u32, length: u32) -> u64
    requires width { IsWidth width }
    requires below { length < width }
    ensures { result ≡ 2 ^ width - 2 ^ length }
{
    all_bits(width) - ((1 << length) - 1)
}

fn binary(alloc: Global, op: BinaryOp, left: Expr, right: Expr) -> Result<Expr, Memory>
    ensures { IfOk result (λ e. bare_expression e ≡ binary op (bare_expression left) (bare_expression right)) }
{
    let left = Boxed::new(alloc, left)?;
    let right = Boxed::new(alloc, right)?;
    Ok(node(ExprKind::Binary { op, left, right }))
}

/// `(local & sign) != 0`
fn has_sign(alloc: Global, width: u32, length: u32, local: &[u8]) -> Result<Expr, Memory>
    requires { length ≤ 64 }
    ensures { IfOk result (λ e. bare_expression e ≡ spec.has_sign width length local.now) }
{
    let sign = of_width(width, sign_bit(length), 16);
    let bits = binary(alloc, BinaryOp::BitAnd, name_of(alloc, local)?, sign)?;
    let bits = node(ExprKind::Bracket(Boxed::new(alloc, bits)?));
    binary(alloc, BinaryOp::NotEqual, bits, of_width(width, 0, 10))
}

/// `local |= upper;`
fn filled_up(alloc: Global, width: u32, length: u32, local: &[u8]) -> Result<Stmt, Memory>
    requires width { IsWidth width }
    requires below { length < width }
    ensures { IfOk result (λ s. bare_statement s ≡ spec.filled_up width length local.now) }
{
    Ok(stmt(StmtKind::Assign {
        target: name_of(alloc, local)?,
        op: AssignOp::BitOr,
        value: of_width(width, upper_bits(width, length), 16),
    }))
}

/// `if ((local & sign) != 0) { local |= upper; }`
fn sign_extended(alloc: Global, width: u32, length: u32, local: &[u8]) -> Result<Stmt, Memory>
    requires width { IsWidth width }
    requires below { length < width }
    requires most { length ≤ 64 }
    ensures { IfOk result (λ s. bare_statement s ≡ when (spec.has_sign width length local.now) (block (actions_of (spec.filled_up width length local.now ∷ [])))) }
{
    let condition = has_sign(alloc, width, length, local)?;
    let mut block = List::new(alloc);
    block.push(filled_up(alloc, width, length, local)?)?;
    let yes = Boxed::new(alloc, stmt(StmtKind::Block(block)))?;
    Ok(stmt(StmtKind::If {
        condition,
        yes,
        no: None,
    }))
}

/// Puts the statement that extends the sign last, where so many bits do not fill the width.
pub fn put_sign_extended(
    alloc: Global,
    out: &mut List<Stmt>,
    width: u32,
    length: u32,
    local: &[u8],
) -> Result<(), Memory>
    requires width { IsWidth width }
    requires most { length ≤ 64 }
    ensures { OnOk result (map bare_statement out.new ≡ map bare_statement out.old ++ spec.sign_extended width length local.now) }
{
    if length < width {
        out.push(sign_extended(alloc, width, length, local)?)?;
    }
    Ok(())
}

//! The body of an unpack function.
ghost use Rattle.std.specs.Prelude.{◌≡◌, ◌==◌, if◌then◌else◌, [], ◌∷◌, ◌++◌, map, IfOk, OnOk};
ghost use Rattle.std.specs.List.{AllByRecursion, flat_map};
ghost use Rattle.c_tree.specs.BareExpression.{bare_expression, name};
ghost use Rattle.c_tree.specs.BareStatement.{bare_statement, discard};
ghost use Rattle.gen_pack.specs.Parts.{parts_from};
ghost use Rattle.gen_pack.specs.SegmentMove.{HasSegments};
ghost use Rattle.gen_pack.specs.Switches.{HasNoParent};
ghost use Rattle.gen_pack.specs.PackTree as pack;
ghost use Rattle.gen_unpack.specs.UnpackTree as spec;

use crate::nodes::{discarded, name_of, node, number, returned, stmt, unsigned};
use crate::reads::{bytes, put_declaration, put_signal, structure};
use c_tree::{BinaryOp, Expr, ExprKind, Stmt, StmtKind, UnaryOp};
use can_model::Signal;
use cg_out::{Boxed, List, Memory};
use name_rules::SignalNames;
use std::alloc::Global;

/// The name of the buffer's size.
#[tactic(auto, unfolding(gen_pack::specs::PackTree::size))]
pub fn size() -> &'static [u8]
    ensures { result.now ≡ pack.size }
{
    b"size"
}

/// The macro of the error's number.
#[tactic(auto, unfolding(gen_pack::specs::PackTree::error_name))]
fn error_name() -> &'static [u8]
    ensures { result.now ≡ pack.error_name }
{
    b"EINVAL"
}

/// `size < Nu`
fn is_short(alloc: Global, length: u32) -> Result<Expr, Memory>
    ensures { IfOk result (λ e. bare_expression e ≡ pack.size_below length) }
{
    let left = Boxed::new(alloc, name_of(alloc, size())?)?;
    let right = Boxed::new(alloc, unsigned(length, 10))?;
    Ok(node(ExprKind::Binary {
        op: BinaryOp::Less,
        left,
        right,
    }))
}

/// `-EINVAL`
fn error(alloc: Global) -> Result<Expr, Memory>
    ensures { IfOk result (λ e. bare_expression e ≡ pack.negative (name pack.error_name)) }
{
    let operand = Boxed::new(alloc, name_of(alloc, error_name())?)?;
    Ok(node(ExprKind::Unary {
        op: UnaryOp::Minus,
        operand,
    }))
}

/// `if (size < Nu) { return (-EINVAL); }`
fn size_asked(alloc: Global, length: u32) -> Result<Stmt, Memory>
    ensures { IfOk result (λ s. bare_statement s ≡ pack.size_asked (name pack.error_name) length) }
{
    let condition = is_short(alloc, length)?;
    let mut block = List::new(alloc);
    block.push(returned(alloc, error(alloc)?)?)?;
    let yes = Boxed::new(alloc, stmt(StmtKind::Block(block)))?;
    Ok(stmt(StmtKind::If {
        condition,
        yes,
        no: None,
    }))
}

/// The body of a message of no bytes.
#[tactic(auto, unfolding(gen_pack::specs::PackTree::empty_body))]
pub fn empty_body(alloc: Global) -> Result<List<Stmt>, Memory>
    ensures { IfOk result (λ v. map bare_statement v ≡ pack.empty_body) }
{
    let mut out = List::new(alloc);
    out.push(discarded(alloc, structure())?)?;
    out.push(discarded(alloc, bytes())?)?;
    out.push(discarded(alloc, size())?)?;
    out.push(returned(alloc, number(0))?)?;
    Ok(out)
}

fn put_discarded(alloc: Global, out: &mut List<Stmt>, name: &[u8]) -> Result<(), Memory>
    ensures { OnOk result (map bare_statement out.new ≡ map bare_statement out.old ++ discard name.now ∷ []) }
{
    out.push(discarded(alloc, name)?)
}

fn put_pointers_discarded(alloc: Global, out: &mut List<Stmt>, count: usize) -> Result<(), Memory>
    ensures { OnOk result (map bare_statement out.new ≡ map bare_statement out.old ++ (if count == 0 then discard pack.buffer ∷ discard pack.source ∷ [] else [])) }
{
    if count == 0 {
        put_discarded(alloc, out, structure())?;
        put_discarded(alloc, out, bytes())?;
    }
    Ok(())
}

/// `(void)dst_p; (void)src_p;` where there is no signal.
fn put_unused(
    alloc: Global,
    out: &mut List<Stmt>,
    signals: &[Signal],
    names: &[SignalNames],
) -> Result<(), Memory>
    ensures { OnOk result (map bare_statement out.new ≡ map bare_statement out.old ++ spec.unused (parts_from 0 signals.now names.now)) }
{
    let count = signals.len().min(names.len());
    put_pointers_discarded(alloc, out, count)?;
    Ok(())
}

fn put_declarations(
    alloc: Global,
    out: &mut List<Stmt>,
    signals: &[Signal],
    names: &[SignalNames],
) -> Result<(), Memory>
    ensures { OnOk result (map bare_statement out.new ≡ map bare_statement out.old ++ flat_map pack.declared (parts_from 0 signals.now names.now)) }
{
    for (signal, name) in signals.iter().zip(names) {
        put_declaration(alloc, out, signal, name)?;
    }
    Ok(())
}

fn put_signals(
    alloc: Global,
    out: &mut List<Stmt>,
    signals: &[Signal],
    names: &[SignalNames],
) -> Result<(), Memory>
    requires segments { AllByRecursion HasSegments signals.now }
    ensures { OnOk result (map bare_statement out.new ≡ map bare_statement out.old ++ flat_map spec.part_got (parts_from 0 signals.now names.now)) }
{
    for (signal, name) in signals.iter().zip(names) {
        put_signal(alloc, out, signal, name)?;
    }
    Ok(())
}

fn put_size_asked(alloc: Global, out: &mut List<Stmt>, length: u32) -> Result<(), Memory>
    ensures { OnOk result (map bare_statement out.new ≡ map bare_statement out.old ++ pack.size_asked (name pack.error_name) length ∷ []) }
{
    out.push(size_asked(alloc, length)?)
}

fn put_returned(alloc: Global, out: &mut List<Stmt>, value: u32) -> Result<(), Memory>
    ensures { OnOk result (map bare_statement out.new ≡ map bare_statement out.old ++ pack.returned (pack.number value) ∷ []) }
{
    out.push(returned(alloc, number(value))?)
}

/// The body of a message of that many bytes, 1 or more, in which no signal has a parent.
pub fn long_body(
    alloc: Global,
    length: u32,
    signals: &[Signal],
    names: &[SignalNames],
) -> Result<List<Stmt>, Memory>
    requires segments { AllByRecursion HasSegments signals.now }
    requires flat { AllByRecursion HasNoParent signals.now }
    ensures { IfOk result (λ v. map bare_statement v ≡ spec.long_body (name pack.error_name) length (parts_from 0 signals.now names.now)) }
{
    let mut out = List::new(alloc);
    put_unused(alloc, &mut out, signals, names)?;
    put_declarations(alloc, &mut out, signals, names)?;
    put_size_asked(alloc, &mut out, length)?;
    put_signals(alloc, &mut out, signals, names)?;
    put_returned(alloc, &mut out, 0)?;
    Ok(out)
}

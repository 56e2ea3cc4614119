//! The body of a pack function.
ghost use Rattle.std.specs.Prelude.{◌≡◌, ◌==◌, if◌then◌else◌, [], ◌∷◌, ◌++◌, map, IfOk, OnOk};
ghost use Rattle.std.specs.List.{AllByRecursion, flat_map};
ghost use Rattle.c_tree.specs.BareExpression.{bare_expression, name};
ghost use Rattle.c_tree.specs.BareStatement.{bare_statement, discard};
ghost use Rattle.gen_pack.specs.Parts.{parts_from};
ghost use Rattle.gen_pack.specs.SegmentMove.{HasSegments};
ghost use Rattle.gen_pack.specs.Switches.{HasNoParent};
ghost use Rattle.gen_pack.specs.PackTree as spec;

use crate::nodes::{discarded, name_of, node, number, returned, stmt, unsigned};
use crate::puts::{buffer, put_declaration, put_signal, source};
use c_tree::{BinaryOp, Callee, Expr, ExprKind, Stmt, StmtKind, UnaryOp};
use can_model::Signal;
use cg_out::{Boxed, List, Memory};
use name_rules::SignalNames;
use std::alloc::Global;

/// The name of the buffer's size.
#[tactic(auto, unfolding(crate::specs::PackTree::size))]
pub fn size() -> &'static [u8]
    ensures { result.now ≡ spec.size }
{
    b"size"
}

/// The macro of the error's number.
#[tactic(auto, unfolding(crate::specs::PackTree::error_name))]
fn error_name() -> &'static [u8]
    ensures { result.now ≡ spec.error_name }
{
    b"EINVAL"
}

/// `size < Nu`
fn is_short(alloc: Global, length: u32) -> Result<Expr, Memory>
    ensures { IfOk result (λ e. bare_expression e ≡ spec.size_below length) }
{
    let left = Boxed::new(alloc, name_of(alloc, size())?)?;
    let right = Boxed::new(alloc, unsigned(length, 10))?;
    Ok(node(ExprKind::Binary {
        op: BinaryOp::Less,
        left,
        right,
    }))
}

/// `-EINVAL`
fn error(alloc: Global) -> Result<Expr, Memory>
    ensures { IfOk result (λ e. bare_expression e ≡ spec.negative (name spec.error_name)) }
{
    let operand = Boxed::new(alloc, name_of(alloc, error_name())?)?;
    Ok(node(ExprKind::Unary {
        op: UnaryOp::Minus,
        operand,
    }))
}

/// `if (size < Nu) { return (-EINVAL); }`
fn size_asked(alloc: Global, length: u32) -> Result<Stmt, Memory>
    ensures { IfOk result (λ s. bare_statement s ≡ spec.size_asked (name spec.error_name) length) }
{
    let condition = is_short(alloc, length)?;
    let mut block = List::new(alloc);
    block.push(returned(alloc, error(alloc)?)?)?;
    let yes = Boxed::new(alloc, stmt(StmtKind::Block(block)))?;
    Ok(stmt(StmtKind::If {
        condition,
        yes,
        no: None,
    }))
}

/// `memset(dst_p, 0, Nu);`
fn cleared(alloc: Global, length: u32) -> Result<Stmt, Memory>
    ensures { IfOk result (λ s. bare_statement s ≡ spec.cleared length) }
{
    let mut args = List::new(alloc);
    args.push(name_of(alloc, buffer())?)?;
    args.push(number(0))?;
    args.push(unsigned(length, 10))?;
    Ok(stmt(StmtKind::Call {
        function: Callee::Memset,
        args,
    }))
}

/// The body of a message of no bytes.
#[tactic(auto, unfolding(crate::specs::PackTree::empty_body))]
pub fn empty_body(alloc: Global) -> Result<List<Stmt>, Memory>
    ensures { IfOk result (λ v. map bare_statement v ≡ spec.empty_body) }
{
    let mut out = List::new(alloc);
    out.push(discarded(alloc, buffer())?)?;
    out.push(discarded(alloc, source())?)?;
    out.push(discarded(alloc, size())?)?;
    out.push(returned(alloc, number(0))?)?;
    Ok(out)
}

fn put_discarded(alloc: Global, out: &mut List<Stmt>, name: &[u8]) -> Result<(), Memory>
    ensures { OnOk result (map bare_statement out.new ≡ map bare_statement out.old ++ discard name.now ∷ []) }
{
    out.push(discarded(alloc, name)?)
}

fn put_source_discarded(alloc: Global, out: &mut List<Stmt>, count: usize) -> Result<(), Memory>
    ensures { OnOk result (map bare_statement out.new ≡ map bare_statement out.old ++ (if count == 0 then discard spec.source ∷ [] else [])) }
{
    if count == 0 {
        put_discarded(alloc, out, source())?;
    }
    Ok(())
}

/// `(void)src_p;` where no signal is read.
fn put_unread(
    alloc: Global,
    out: &mut List<Stmt>,
    signals: &[Signal],
    names: &[SignalNames],
) -> Result<(), Memory>
    ensures { OnOk result (map bare_statement out.new ≡ map bare_statement out.old ++ spec.unread (parts_from 0 signals.now names.now)) }
{
    let count = signals.len().min(names.len());
    put_source_discarded(alloc, out, count)?;
    Ok(())
}

fn put_declarations(
    alloc: Global,
    out: &mut List<Stmt>,
    signals: &[Signal],
    names: &[SignalNames],
) -> Result<(), Memory>
    ensures { OnOk result (map bare_statement out.new ≡ map bare_statement out.old ++ flat_map spec.declared (parts_from 0 signals.now names.now)) }
{
    for (signal, name) in signals.iter().zip(names) {
        put_declaration(alloc, out, signal, name)?;
    }
    Ok(())
}

fn put_signals(
    alloc: Global,
    out: &mut List<Stmt>,
    signals: &[Signal],
    names: &[SignalNames],
) -> Result<(), Memory>
    requires segments { AllByRecursion HasSegments signals.now }
    ensures { OnOk result (map bare_statement out.new ≡ map bare_statement out.old ++ flat_map spec.part_put (parts_from 0 signals.now names.now)) }
{
    for (signal, name) in signals.iter().zip(names) {
        put_signal(alloc, out, signal, name)?;
    }
    Ok(())
}

fn put_size_asked(alloc: Global, out: &mut List<Stmt>, length: u32) -> Result<(), Memory>
    ensures { OnOk result (map bare_statement out.new ≡ map bare_statement out.old ++ spec.size_asked (name spec.error_name) length ∷ []) }
{
    out.push(size_asked(alloc, length)?)
}

fn put_cleared(alloc: Global, out: &mut List<Stmt>, length: u32) -> Result<(), Memory>
    ensures { OnOk result (map bare_statement out.new ≡ map bare_statement out.old ++ spec.cleared length ∷ []) }
{
    out.push(cleared(alloc, length)?)
}

fn put_returned(alloc: Global, out: &mut List<Stmt>, value: u32) -> Result<(), Memory>
    ensures { OnOk result (map bare_statement out.new ≡ map bare_statement out.old ++ spec.returned (spec.number value) ∷ []) }
{
    out.push(returned(alloc, number(value))?)
}

/// The body of a message of that many bytes, 1 or more, in which no signal has a parent.
pub fn long_body(
    alloc: Global,
    length: u32,
    signals: &[Signal],
    names: &[SignalNames],
) -> Result<List<Stmt>, Memory>
    requires segments { AllByRecursion HasSegments signals.now }
    requires flat { AllByRecursion HasNoParent signals.now }
    ensures { IfOk result (λ v. map bare_statement v ≡ spec.long_body (name spec.error_name) length (parts_from 0 signals.now names.now)) }
{
    let mut out = List::new(alloc);
    put_unread(alloc, &mut out, signals, names)?;
    put_declarations(alloc, &mut out, signals, names)?;
    put_size_asked(alloc, &mut out, length)?;
    put_cleared(alloc, &mut out, length)?;
    put_signals(alloc, &mut out, signals, names)?;
    put_returned(alloc, &mut out, length)?;
    Ok(out)
}

//! The statements that put a signal into the buffer, and those that declare its local.
ghost use Rattle.std.specs.Prelude.{◌≡◌, ◌≤◌, ◌++◌, false, map, None, IfOk, OnOk};
ghost use Rattle.bit_layout.specs.Covers.{IsWithin};
ghost use Rattle.bit_layout.specs.Segments.{segments_of};
ghost use Rattle.c_tree.specs.BareExpression.{bare_expression, name, member, element, cast};
ghost use Rattle.c_tree.specs.BareStatement.{bare_statement, assign, declare};
ghost use Rattle.c_tree.specs.declared.statement.AssignOp.TheVariants.{Set};
ghost use Rattle.c_text.specs.declared.token.Spelled.TheVariants.{Exact};
ghost use Rattle.gen_pack.specs.Parts.{part};
ghost use Rattle.gen_pack.specs.SegmentMove.{width_of};
ghost use Rattle.gen_pack.specs.PackTree as spec;

use crate::moves::{mask_of, pack_kind, pack_shift};
use crate::nodes::{name_of, node, number, stmt, unsigned};
use bit_layout::{Segment, segments};
use c_text::Spelled;
use c_tree::{AssignOp, Callee, Expr, ExprKind, Stmt, StmtKind};
use can_model::{Signal, field_bits};
use cg_out::{Boxed, List, Memory, Text};
use name_rules::SignalNames;
use shift_helpers::helper_name;
use std::alloc::Global;

/// The name of the buffer.
#[tactic(auto, unfolding(crate::specs::PackTree::buffer))]
pub fn buffer() -> &'static [u8]
    ensures { result.now ≡ spec.buffer }
{
    b"dst_p"
}

/// The name of the struct's pointer.
#[tactic(auto, unfolding(crate::specs::PackTree::source))]
pub fn source() -> &'static [u8]
    ensures { result.now ≡ spec.source }
{
    b"src_p"
}

/// `src_p->field`
fn field(alloc: Global, names: &SignalNames) -> Result<Expr, Memory>
    ensures { IfOk result (λ e. bare_expression e ≡ member spec.source names.now.field) }
{
    Ok(node(ExprKind::Member {
        base: Text::copy_of(alloc, source())?,
        field: Text::copy_of(alloc, names.field.bytes())?,
    }))
}

/// What the helpers take: the local where the signal has one, else the field.
fn taken(alloc: Global, signal: &Signal, names: &SignalNames) -> Result<Expr, Memory>
    ensures { IfOk result (λ e. bare_expression e ≡ spec.taken (part 0 signal.now names.now)) }
{
    match &names.local {
        None => field(alloc, names),
        Some(local) => name_of(alloc, local.bytes()),
    }
}

/// `dst_p[byte]`
fn byte_of_buffer(alloc: Global, byte: u32) -> Result<Expr, Memory>
    ensures { IfOk result (λ e. bare_expression e ≡ element spec.buffer (spec.number byte)) }
{
    Ok(node(ExprKind::Element {
        base: Text::copy_of(alloc, buffer())?,
        index: Boxed::new(alloc, number(byte))?,
    }))
}

/// `dst_p[byte] |= helper(value, shift, mask);`
fn segment_put(
    alloc: Global,
    signal: &Signal,
    names: &SignalNames,
    segment: Segment,
) -> Result<Stmt, Memory>
    requires { IsWithin 64 segment }
    ensures { IfOk result (λ s. bare_statement s ≡ spec.segment_put (part 0 signal.now names.now) segment) }
{
    let helper = helper_name(pack_kind(segment), field_bits(signal.length));
    let mut args = List::new(alloc);
    args.push(taken(alloc, signal, names)?)?;
    args.push(unsigned(pack_shift(segment), 10))?;
    args.push(unsigned(mask_of(segment), 16))?;
    Ok(stmt(StmtKind::Assign {
        target: byte_of_buffer(alloc, segment.byte)?,
        op: AssignOp::BitOr,
        value: node(ExprKind::Call {
            function: Callee::Name(Text::copy_of(alloc, helper)?),
            args,
        }),
    }))
}

fn put_segments(
    alloc: Global,
    out: &mut List<Stmt>,
    signal: &Signal,
    names: &SignalNames,
) -> Result<(), Memory>
    requires length { signal.now.length ≤ 64 }
    requires start { signal.now.start ≤ 65535 }
    ensures { OnOk result (map bare_statement out.new ≡ map bare_statement out.old ++ map (spec.segment_put (part 0 signal.now names.now)) (segments_of signal.now)) }
{
    let mut walk = segments(signal);
    while let Some(segment) = walk.next() {
        out.push(segment_put(alloc, signal, names, segment)?)?;
    }
    Ok(())
}

/// `uintW_t`
fn unsigned_type(width: u32) -> Spelled
    ensures { result ≡ Exact width false }
{
    Spelled::Exact {
        width,
        signed: false,
    }
}

/// `local = (uintW_t)src_p->field;`
fn local_set(alloc: Global, local: &[u8], width: u32, names: &SignalNames) -> Result<Stmt, Memory>
    ensures { IfOk result (λ s. bare_statement s ≡ assign (name local.now) Set (cast (Exact width false) (member spec.source names.now.field))) }
{
    let operand = Boxed::new(alloc, field(alloc, names)?)?;
    let to = unsigned_type(width);
    Ok(stmt(StmtKind::Assign {
        target: name_of(alloc, local)?,
        op: AssignOp::Set,
        value: node(ExprKind::Cast { to, operand }),
    }))
}

fn put_local(
    alloc: Global,
    out: &mut List<Stmt>,
    signal: &Signal,
    names: &SignalNames,
) -> Result<(), Memory>
    ensures { OnOk result (map bare_statement out.new ≡ map bare_statement out.old ++ spec.local_set names.now.local (width_of signal.now) (spec.field (part 0 signal.now names.now))) }
{
    if let Some(local) = &names.local {
        out.push(local_set(alloc, local.bytes(), field_bits(signal.length), names)?)?;
    }
    Ok(())
}

/// Puts the statements of a signal last.
pub fn put_signal(
    alloc: Global,
    out: &mut List<Stmt>,
    signal: &Signal,
    names: &SignalNames,
) -> Result<(), Memory>
    requires length { signal.now.length ≤ 64 }
    requires start { signal.now.start ≤ 65535 }
    ensures { OnOk result (map bare_statement out.new ≡ map bare_statement out.old ++ spec.part_put (part 0 signal.now names.now)) }
{
    put_local(alloc, out, signal, names)?;
    put_segments(alloc, out, signal, names)
}

/// `uintW_t local;`
fn local_declared(alloc: Global, local: &[u8], width: u32) -> Result<Stmt, Memory>
    ensures { IfOk result (λ s. bare_statement s ≡ declare (Exact width false) local.now None) }
{
    Ok(stmt(StmtKind::Declare {
        kind: unsigned_type(width),
        name: Text::copy_of(alloc, local)?,
        value: None,
    }))
}

/// Puts the declaration of a signal's local last, where it has one.
pub fn put_declaration(
    alloc: Global,
    out: &mut List<Stmt>,
    signal: &Signal,
    names: &SignalNames,
) -> Result<(), Memory>
    ensures { OnOk result (map bare_statement out.new ≡ map bare_statement out.old ++ spec.declared (part 0 signal.now names.now)) }
{
    if let Some(local) = &names.local {
        out.push(local_declared(alloc, local.bytes(), field_bits(signal.length))?)?;
    }
    Ok(())
}

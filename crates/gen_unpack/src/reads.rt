//! The statements that read a signal from the bytes, and those that declare its local.
ghost use Rattle.std.specs.Prelude.{◌≡◌, ◌≤◌, [], ◌∷◌, ◌++◌, true, false, map, None, IfOk, OnOk};
ghost use Rattle.bit_layout.specs.Covers.{IsWithin};
ghost use Rattle.bit_layout.specs.Segments.{segments_of};
ghost use Rattle.c_tree.specs.BareExpression.{bare_expression, member, element, cast, name};
ghost use Rattle.c_tree.specs.BareStatement.{bare_statement, assign, declare};
ghost use Rattle.c_tree.specs.declared.statement.AssignOp.TheVariants.{Set};
ghost use Rattle.c_text.specs.declared.token.Spelled.TheVariants.{Exact};
ghost use Rattle.shift_helpers.specs.HelperResult.{IsWidth};
ghost use Rattle.gen_pack.specs.Parts.{part};
ghost use Rattle.gen_pack.specs.SegmentMove.{width_of};
ghost use Rattle.gen_pack.specs.PackTree as pack;
ghost use Rattle.gen_unpack.specs.UnpackTree as spec;

use crate::moves::{mask_of, unpack_kind, unpack_shift};
use crate::nodes::{name_of, node, number, stmt, unsigned};
use crate::sign::put_sign_extended;
use bit_layout::{Segment, segments};
use c_text::Spelled;
use c_tree::{AssignOp, Callee, Expr, ExprKind, Stmt, StmtKind};
use can_model::{Signal, field_bits};
use cg_out::{Boxed, List, Memory, Text};
use name_rules::SignalNames;
use shift_helpers::helper_name;
use std::alloc::Global;

/// The name of the struct's pointer.
#[tactic(auto, unfolding(gen_pack::specs::PackTree::buffer))]
pub fn structure() -> &'static [u8]
    ensures { result.now ≡ pack.buffer }
{
    b"dst_p"
}

/// The name of the bytes' pointer.
#[tactic(auto, unfolding(gen_pack::specs::PackTree::source))]
pub fn bytes() -> &'static [u8]
    ensures { result.now ≡ pack.source }
{
    b"src_p"
}

/// `dst_p->field`
fn field(alloc: Global, names: &SignalNames) -> Result<Expr, Memory>
    ensures { IfOk result (λ e. bare_expression e ≡ member pack.buffer names.now.field) }
{
    Ok(node(ExprKind::Member {
        base: Text::copy_of(alloc, structure())?,
        field: Text::copy_of(alloc, names.field.bytes())?,
    }))
}

/// What the bits are joined in: the local where the signal has one, else the field.
fn joined_in(alloc: Global, signal: &Signal, names: &SignalNames) -> Result<Expr, Memory>
    ensures { IfOk result (λ e. bare_expression e ≡ spec.joined_in (part 0 signal.now names.now)) }
{
    match &names.local {
        None => field(alloc, names),
        Some(local) => name_of(alloc, local.bytes()),
    }
}

/// `src_p[byte]`
fn byte_of_bytes(alloc: Global, byte: u32) -> Result<Expr, Memory>
    ensures { IfOk result (λ e. bare_expression e ≡ element pack.source (pack.number byte)) }
{
    Ok(node(ExprKind::Element {
        base: Text::copy_of(alloc, bytes())?,
        index: Boxed::new(alloc, number(byte))?,
    }))
}

/// `helper(src_p[byte], shift, mask)`
fn segment_of_byte(alloc: Global, width: u32, segment: Segment) -> Result<Expr, Memory>
    requires { IsWithin 64 segment }
    ensures { IfOk result (λ e. bare_expression e ≡ spec.segment_of_byte width segment) }
{
    let helper = helper_name(unpack_kind(segment), width);
    let mut args = List::new(alloc);
    args.push(byte_of_bytes(alloc, segment.byte)?)?;
    args.push(unsigned(unpack_shift(segment), 10))?;
    args.push(unsigned(mask_of(segment), 16))?;
    Ok(node(ExprKind::Call {
        function: Callee::Name(Text::copy_of(alloc, helper)?),
        args,
    }))
}

/// `target op helper(src_p[byte], shift, mask);`
fn segment_joined(
    alloc: Global,
    op: AssignOp,
    signal: &Signal,
    names: &SignalNames,
    segment: Segment,
) -> Result<Stmt, Memory>
    requires { IsWithin 64 segment }
    ensures { IfOk result (λ s. bare_statement s ≡ assign (spec.joined_in (part 0 signal.now names.now)) op (spec.segment_of_byte (width_of signal.now) segment)) }
{
    Ok(stmt(StmtKind::Assign {
        target: joined_in(alloc, signal, names)?,
        op,
        value: segment_of_byte(alloc, field_bits(signal.length), segment)?,
    }))
}

/// The first segment is set, and the others are joined to it.
fn put_joined(
    alloc: Global,
    out: &mut List<Stmt>,
    signal: &Signal,
    names: &SignalNames,
) -> Result<(), Memory>
    requires length { signal.now.length ≤ 64 }
    requires start { signal.now.start ≤ 65535 }
    ensures { OnOk result (map bare_statement out.new ≡ map bare_statement out.old ++ spec.joined Set (spec.joined_in (part 0 signal.now names.now)) (width_of signal.now) (segments_of signal.now)) }
{
    let mut op = AssignOp::Set;
    let mut walk = segments(signal);
    while let Some(segment) = walk.next() {
        out.push(segment_joined(alloc, op, signal, names, segment)?)?;
        op = AssignOp::BitOr;
    }
    Ok(())
}

/// `dst_p->field = (intW_t)local;`
fn field_set(alloc: Global, local: &[u8], width: u32, names: &SignalNames) -> Result<Stmt, Memory>
    ensures { IfOk result (λ s. bare_statement s ≡ spec.field_set width (member pack.buffer names.now.field) local.now) }
{
    let operand = Boxed::new(alloc, name_of(alloc, local)?)?;
    let to = Spelled::Exact {
        width,
        signed: true,
    };
    Ok(stmt(StmtKind::Assign {
        target: field(alloc, names)?,
        op: AssignOp::Set,
        value: node(ExprKind::Cast { to, operand }),
    }))
}

fn put_field_set(
    alloc: Global,
    out: &mut List<Stmt>,
    local: &[u8],
    width: u32,
    names: &SignalNames,
) -> Result<(), Memory>
    ensures { OnOk result (map bare_statement out.new ≡ map bare_statement out.old ++ spec.field_set width (member pack.buffer names.now.field) local.now ∷ []) }
{
    out.push(field_set(alloc, local, width, names)?)
}

/// The sign is extended, and the field is set.
fn put_settled(
    alloc: Global,
    out: &mut List<Stmt>,
    signal: &Signal,
    names: &SignalNames,
) -> Result<(), Memory>
    requires { signal.now.length ≤ 64 }
    ensures { OnOk result (map bare_statement out.new ≡ map bare_statement out.old ++ spec.settled names.now.local (width_of signal.now) signal.now.length (spec.field (part 0 signal.now names.now))) }
{
    if let Some(local) = &names.local {
        let width = field_bits(signal.length);
        put_sign_extended(alloc, out, width, signal.length, local.bytes())?;
        put_field_set(alloc, out, local.bytes(), width, names)?;
    }
    Ok(())
}

/// Puts the statements of a signal last.
pub fn put_signal(
    alloc: Global,
    out: &mut List<Stmt>,
    signal: &Signal,
    names: &SignalNames,
) -> Result<(), Memory>
    requires length { signal.now.length ≤ 64 }
    requires start { signal.now.start ≤ 65535 }
    ensures { OnOk result (map bare_statement out.new ≡ map bare_statement out.old ++ spec.part_got (part 0 signal.now names.now)) }
{
    put_joined(alloc, out, signal, names)?;
    put_settled(alloc, out, signal, names)
}

/// `uintW_t local;`
fn local_declared(alloc: Global, local: &[u8], width: u32) -> Result<Stmt, Memory>
    ensures { IfOk result (λ s. bare_statement s ≡ declare (Exact width false) local.now None) }
{
    Ok(stmt(StmtKind::Declare {
        kind: Spelled::Exact {
            width,
            signed: false,
        },
        name: Text::copy_of(alloc, local)?,
        value: None,
    }))
}

/// Puts the declaration of a signal's local last, where it has one.
pub fn put_declaration(
    alloc: Global,
    out: &mut List<Stmt>,
    signal: &Signal,
    names: &SignalNames,
) -> Result<(), Memory>
    ensures { OnOk result (map bare_statement out.new ≡ map bare_statement out.old ++ pack.declared (part 0 signal.now names.now)) }
{
    if let Some(local) = &names.local {
        out.push(local_declared(alloc, local.bytes(), field_bits(signal.length))?)?;
    }
    Ok(())
}

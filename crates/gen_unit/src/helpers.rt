//! The helpers that pack functions call.
ghost use Rattle.std.specs.Prelude.{◌≡◌, ◌≤◌, ◌++◌, ◌∷◌, [], OnOk};
ghost use Rattle.std.specs.List.{AllByRecursion, list_any, filter};
ghost use Rattle.can_model.specs.Validity.{IsOfValidDatabase};
ghost use Rattle.bit_layout.specs.Segments.{segments_of};
ghost use Rattle.shift_helpers.specs.HelperResult.{IsWidth};
ghost use Rattle.c_printer.specs.BarePart.{bare_parts};
ghost use Rattle.gen_types.specs.HelperList.{every_helper};
ghost use Rattle.gen_pack.specs.SegmentMove as move_spec;
ghost use Rattle.gen_items.specs.CalledHelpers as spec;
ghost use Rattle.gen_unit.specs.Source.{called_parts, of_kind};

use crate::parts::{put_blank, put_function};
use bit_layout::segments;
use c_printer::Part;
use can_model::{Message, Signal, field_bits};
use cg_out::{List, Memory};
use gen_pack::pack_kind;
use shift_helpers::{Helper, HelperKind};
use std::alloc::Global;

fn same_kind(a: HelperKind, b: HelperKind) -> bool
    ensures { result ≡ spec.same_kind a b }
{
    matches!(
        (a, b),
        (HelperKind::PackLeft, HelperKind::PackLeft)
            | (HelperKind::PackRight, HelperKind::PackRight)
            | (HelperKind::UnpackLeft, HelperKind::UnpackLeft)
            | (HelperKind::UnpackRight, HelperKind::UnpackRight)
    )
}

/// Whether a segment of the signal is moved by helpers of this kind.
fn has_move(signal: &Signal, kind: HelperKind) -> bool
    requires length { signal.now.length ≤ 64 }
    requires start { signal.now.start ≤ 65535 }
    ensures { result ≡ list_any (λ g. spec.same_kind (move_spec.pack_kind g) kind) (segments_of signal.now) }
{
    let mut walk = segments(signal);
    while let Some(segment) = walk.next() {
        if same_kind(pack_kind(segment), kind) {
            return true;
        }
    }
    false
}

fn signal_calls(signal: &Signal, kind: HelperKind, width: u32) -> bool
    requires length { signal.now.length ≤ 64 }
    requires start { signal.now.start ≤ 65535 }
    ensures { result ≡ spec.calls_helper (kind, width) signal.now }
{
    field_bits(signal.length) == width && has_move(signal, kind)
}

fn message_calls(signals: &[Signal], kind: HelperKind, width: u32) -> bool
    requires { AllByRecursion move_spec.HasSegments signals.now }
    ensures { result ≡ list_any (spec.calls_helper (kind, width)) signals.now }
{
    for s in signals {
        if signal_calls(s, kind, width) {
            return true;
        }
    }
    false
}

/// Whether a pack function of these messages calls the helper.
fn is_called(messages: &[Message], kind: HelperKind, width: u32) -> bool
    requires { AllByRecursion IsOfValidDatabase messages.now }
    ensures { result ≡ spec.is_called messages.now (kind, width) }
{
    for m in messages {
        if message_calls(m.signals.items(), kind, width) {
            return true;
        }
    }
    false
}

/// Puts the helper behind a blank line, where it is called.
fn put_helper<const W: u32>(
    alloc: Global,
    parts: &mut List<Part>,
    messages: &[Message],
    kind: HelperKind,
) -> Result<(), Memory>
    requires width { IsWidth W }
    requires valid { AllByRecursion IsOfValidDatabase messages.now }
    ensures { OnOk result (bare_parts parts.new ≡ bare_parts parts.old ++ called_parts messages.now ((kind, W) ∷ [])) }
{
    if is_called(messages, kind, W) {
        put_blank(parts)?;
        put_function(parts, Helper::<W>::tree(alloc, kind)?)?;
    }
    Ok(())
}

/// Puts those of a kind, by rising width.
fn put_kind(
    alloc: Global,
    parts: &mut List<Part>,
    messages: &[Message],
    kind: HelperKind,
) -> Result<(), Memory>
    requires { AllByRecursion IsOfValidDatabase messages.now }
    ensures { OnOk result (bare_parts parts.new ≡ bare_parts parts.old ++ called_parts messages.now (of_kind kind)) }
{
    put_helper::<8>(alloc, parts, messages, kind)?;
    put_helper::<16>(alloc, parts, messages, kind)?;
    put_helper::<32>(alloc, parts, messages, kind)?;
    put_helper::<64>(alloc, parts, messages, kind)
}

/// Puts the helpers that are called.
pub fn put_helpers(
    alloc: Global,
    parts: &mut List<Part>,
    messages: &[Message],
) -> Result<(), Memory>
    requires { AllByRecursion IsOfValidDatabase messages.now }
    ensures { OnOk result (bare_parts parts.new ≡ bare_parts parts.old ++ called_parts messages.now every_helper) }
{
    put_kind(alloc, parts, messages, HelperKind::PackLeft)?;
    put_kind(alloc, parts, messages, HelperKind::PackRight)?;
    put_kind(alloc, parts, messages, HelperKind::UnpackLeft)?;
    put_kind(alloc, parts, messages, HelperKind::UnpackRight)
}

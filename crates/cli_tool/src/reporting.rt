//! What a run writes to its sink.
ghost use Rattle.std.specs.Prelude.{◌≡◌, ◌++◌, map, IfOk, OnOk};
ghost use Rattle.cli_tool.specs.Report.{usage_report, written_report, fine_report, text_named, refused_report, refusal_report, shown_byte, marked, fault_report, c_refusal_report};

use crate::naming::{header_file, source_file};
use c_mean::{CKind, Place};
use can_model::{CheckKind, TextKind};
use cg_out::Memory;
use itoa::Buffer;
use std::alloc::{AllocError, Global};

/// The report of words that are no command.
#[tactic(auto, unfolding(crate::specs::Report::usage_report))]
pub fn usage() -> &'static [u8]
    ensures { result.now ≡ usage_report }
{
    b"cantoolc: wrong words\n"
}

/// The report of a header and a source that were written.
#[tactic(auto, unfolding(crate::specs::Report::written_report))]
pub fn written(alloc: Global, file: &[u8]) -> Result<Vec<u8>, Memory>
    ensures { IfOk result (λ v. v.items ≡ written_report file.now) }
{
    let mut names = header_file(alloc, file)?;
    names.push(b'\n')?;
    names.extend_from_slice(&source_file(alloc, file)?)?;
    names.push(b'\n')?;
    Ok(names)
}

/// The report of texts without a fault.
#[tactic(auto, unfolding(crate::specs::Report::fine_report))]
pub fn fine(alloc: Global) -> Result<Vec<u8>, Memory>
    ensures { IfOk result (λ v. v.items ≡ fine_report) }
{
    Ok(Vec::from_slice(alloc, b"ok\n")?)
}

/// The text in which a place is, behind a blank.
#[tactic(auto, unfolding(crate::specs::Report::text_named))]
fn text_named(place: Place) -> &'static str
    ensures { result.now ≡ text_named place.header }
{
    if place.header { " header" } else { " source" }
}

/// The report of a refusal.
#[tactic(auto, unfolding(crate::specs::Report::refused_report))]
fn refused(
    alloc: Global,
    number: u8,
    name: &str,
    text: &str,
    line: u32,
    names: &[u8],
) -> Result<Vec<u8>, AllocError>
    ensures { IfOk result (λ v. v.items ≡ refused_report number name.now text.now line names.now) }
{
    let mut report = Vec::from_slice(alloc, b"refused ")?;
    report.extend_from_slice(Buffer::new().format(number).as_bytes())?;
    report.push(b' ')?;
    report.extend_from_slice(name.as_bytes())?;
    report.extend_from_slice(text.as_bytes())?;
    report.extend_from_slice(b" line ")?;
    report.extend_from_slice(Buffer::new().format(line).as_bytes())?;
    report.extend_from_slice(names)?;
    report.push(b'\n')?;
    Ok(report)
}

/// The report of a text that is refused.
pub fn refusal(alloc: Global, kind: TextKind, line: u32) -> Result<Vec<u8>, Memory>
    ensures { IfOk result (λ v. v.items ≡ refusal_report (record { kind = kind; line = line })) }
{
    Ok(refused(alloc, kind.number(), kind.name(), "", line, b"")?)
}

fn shown(b: u8) -> u8
    ensures { result ≡ shown_byte b }
{
    if b < 33 || b > 126 { b'.' } else { b }
}

fn shown_name(alloc: Global, name: &[u8]) -> Result<Vec<u8>, AllocError>
    ensures { IfOk result (λ v. v.items ≡ map shown_byte name.now) }
{
    name.iter().map(|b| shown(*b)).collect(alloc)
}

/// Appends a mark and a name, where there is one.
fn put_marked(alloc: Global, names: &mut Vec<u8>, mark: u8, name: &[u8]) -> Result<(), AllocError>
    ensures { OnOk result (names.new.items ≡ names.old.items ++ marked mark name.now) }
{
    if name.is_empty() {
        return Ok(());
    }
    let shown = shown_name(alloc, name)?;
    names.push(mark)?;
    names.extend_from_slice(&shown)
}

/// The report of a database that is refused; a name that does not apply is empty.
pub fn database_refusal(
    alloc: Global,
    kind: CheckKind,
    line: u32,
    message: &[u8],
    signal: &[u8],
) -> Result<Vec<u8>, Memory>
    ensures { IfOk result (λ v. v.items ≡ fault_report (record { kind = kind; line = line; message = message.now; signal = signal.now })) }
{
    let mut names = Vec::new(alloc);
    put_marked(alloc, &mut names, b' ', message)?;
    put_marked(alloc, &mut names, b'.', signal)?;
    Ok(refused(alloc, kind.number(), kind.name(), "", line, &names)?)
}

/// The report of one of two C texts that is refused.
pub fn c_refusal(alloc: Global, kind: CKind, place: Place) -> Result<Vec<u8>, Memory>
    ensures { IfOk result (λ v. v.items ≡ c_refusal_report (record { kind = kind; place = place })) }
{
    let text = text_named(place);
    Ok(refused(alloc, kind.number(), kind.name(), text, place.line, b"")?)
}

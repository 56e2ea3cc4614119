//! The answer of `check`.
ghost use Rattle.std.specs.Prelude.{◌≡◌, ◌≤◌, [], ◌∷◌, length, IfOk};
ghost use Rattle.c_text.specs.Refusal.{Gives};
ghost use Rattle.c_text.specs.Preprocessing.{preprocessed_texts};
ghost use Rattle.c_types.specs.FirstFault.{typed_texts};
ghost use Rattle.c_mean.specs.FirstFault.{unit_of_texts};
ghost use Rattle.c_types.specs.UnitTypes.{faults_under};
ghost use Rattle.c_widths.specs.DataModel.{models};
ghost use Rattle.cli_tool.specs.CheckTask.{check_work};
ghost use Rattle.cli_tool.specs.Report.{c_refusal_report};
ghost use Rattle.cli_tool.specs.Task.{refused as refusal};
ghost use Rattle.cli_tool.specs.Asked.{answer_in};

use crate::answer::{Answer, Why};
use crate::column::column_of;
use crate::naming::base;
use crate::reporting::{c_refusal, fine};
use c_lexer::{SOURCE_LIMIT, tokens};
use c_mean::{CFault, CKind, Place, Preprocessed, Unit};
use c_parser::unit;
use c_pre::expand;
use c_types::check;
use cg_out::Memory;
use std::alloc::Global;

/// What the texts of a header and a source give: they have no fault, or are refused for their
/// first. They are lent up to here, since a person is told its column.
pub fn checked<'a>(
    alloc: Global,
    header: &'a [u8],
    source: &'a [u8],
    header_text: &[u8],
    source_text: &[u8],
) -> Result<Answer<'a>, Memory>
    requires header_fits { length header_text.now ≤ SOURCE_LIMIT }
    requires source_fits { length source_text.now ≤ SOURCE_LIMIT }
    ensures { IfOk result (λ a. answer_in a ≡ check_work header.now (header_text.now ∷ source_text.now ∷ [])) }
{
    match typed_unit_of(alloc, header_text, base(header), source_text) {
        Ok(_) => Ok(Answer::Outcome(true, Vec::new(alloc), fine(alloc)?)),
        Err(CFault::Fault { kind, place }) => refused(
            alloc,
            kind,
            place,
            (header, header_text),
            (source, source_text),
        ),
        Err(CFault::Memory) => Err(Memory),
    }
}

/// The refusal of the header or the source, each a file with its text, for a fault.
pub fn refused<'a>(
    alloc: Global,
    kind: CKind,
    place: Place,
    header: (&'a [u8], &[u8]),
    source: (&'a [u8], &[u8]),
) -> Result<Answer<'a>, Memory>
    requires header_fits { length header.1.now ≤ SOURCE_LIMIT }
    requires source_fits { length source.1.now ≤ SOURCE_LIMIT }
    ensures { IfOk result (λ a. answer_in a ≡ refusal (c_refusal_report (record { kind = kind; place = place }))) }
{
    let report = c_refusal(alloc, kind, place)?;
    let why = if place.header {
        why_of(kind, place, header.0, header.1)
    } else {
        why_of(kind, place, source.0, source.1)
    };
    Ok(Answer::Refused(report, why))
}

/// Why the text of this file is refused.
fn why_of<'a>(kind: CKind, place: Place, file: &'a [u8], text: &[u8]) -> Why<'a>
    requires { length text.now ≤ SOURCE_LIMIT }
{
    Why {
        file,
        line: place.line,
        column: Some(column_of(text, place.start)),
        message: kind.message(),
    }
}

/// The unit that the texts are, without a fault of names and types under any data model.
#[tactic(auto, using(crate::proofs::FaultlessUnits::no_faults))]
pub fn typed_unit_of(
    alloc: Global,
    header: &[u8],
    name: &[u8],
    source: &[u8],
) -> Result<Unit, CFault>
    requires header_fits { length header.now ≤ SOURCE_LIMIT }
    requires source_fits { length source.now ≤ SOURCE_LIMIT }
    ensures unit { Gives (λ u. u) result (typed_texts header.now name.now source.now) }
    ensures faultless { IfOk result (λ u. faults_under models u ≡ []) }
{
    let unit = unit_of(alloc, header, name, source)?;
    check(alloc, &unit)?;
    Ok(unit)
}

/// The unit that the texts are.
fn unit_of(alloc: Global, header: &[u8], name: &[u8], source: &[u8]) -> Result<Unit, CFault>
    requires header_fits { length header.now ≤ SOURCE_LIMIT }
    requires source_fits { length source.now ≤ SOURCE_LIMIT }
    ensures { Gives (λ u. u) result (unit_of_texts header.now name.now source.now) }
{
    let left = left_of(alloc, header, name, source)?;
    unit(alloc, left.tokens.items())
}

/// What preprocessing leaves of the texts.
fn left_of(alloc: Global, header: &[u8], name: &[u8], source: &[u8]) -> Result<Preprocessed, CFault>
    requires header_fits { length header.now ≤ SOURCE_LIMIT }
    requires source_fits { length source.now ≤ SOURCE_LIMIT }
    ensures { Gives (λ x. x) result (preprocessed_texts header.now name.now source.now) }
{
    let header = tokens(alloc, header, true)?;
    let source = tokens(alloc, source, false)?;
    expand(alloc, &header, name, &source)
}

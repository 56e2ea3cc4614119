//! From the tokens of both files to what is left of them.
ghost use Rattle.std.specs.Prelude.{◌≡◌, [], map, IfOk};
ghost use Rattle.std.specs.Option.{option_copied};
ghost use Rattle.c_text.specs.Refusal.{Gives};
ghost use Rattle.c_text.specs.Preprocessing.{preprocessed};
ghost use Rattle.c_text.specs.Conditional as mean;
ghost use Rattle.c_pre.specs.Shown.{told, cut};
ghost use Rattle.c_pre.specs.Merging.{merged};
ghost use Rattle.c_pre.specs.Parts.{lines_in, KnowEnds};

use crate::balancing::balanced;
use crate::cutting::lines_of;
use crate::expansion::Expansion;
use crate::parts::{FileLine, file_lines};
use c_text::{CFault, Preprocessed, Token};
use cg_out::Memory;
use std::alloc::Global;

/// What preprocessing leaves of a header (known to the source's quoted include as header_name) and a source (ISO/IEC 9899:1999, 6.10).
///
/// A token in the place of a name has the name's place. The macros are listed by their first
/// definitions. The time grows with what is read and what is left, not with their product.
///
/// # Errors
///
/// The first fault in the order of reading, at the `#` of its directive: a directive that may not
/// stand there, a header that is not known, a macro's body with a name in it, a macro that is
/// defined again with another body, or a conditional line that belongs to no whole conditional of
/// its file. Or memory ran out.
pub fn expand(
    alloc: Global,
    header: &[Token],
    header_name: &[u8],
    source: &[Token],
) -> Result<Preprocessed, CFault>
    ensures exact { Gives (λ x. x) result (preprocessed header.now header_name.now source.now) }
{
    let header_lines = lines_of_file(alloc, None, header)?;
    let source_lines = lines_of_file(alloc, Some(header_name), source)?;
    let mut left = Expansion::new(alloc);
    left.read_source(alloc, &header_lines, &source_lines)?;
    let macros = left.macros.list(alloc)?;
    Ok(Preprocessed {
        tokens: left.tokens,
        macros,
    })
}

fn lines_of_file<'a>(
    alloc: Global,
    beside: Option<&[u8]>,
    tokens: &'a [Token],
) -> Result<Vec<FileLine<'a>>, Memory>
    ensures lines { IfOk result (λ v. lines_in v.items ≡ mean.balanced [] (map (told (option_copied beside.entry)) (merged (cut tokens.now)))) }
    ensures ends { IfOk result (λ v. KnowEnds v.items) }
{
    let lines = lines_of(alloc, beside, tokens)?;
    let lines = balanced(alloc, &lines)?;
    file_lines(alloc, &lines)
}

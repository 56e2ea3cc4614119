//! Where reading goes on behind a part that is skipped (6.10.1).
ghost use Rattle.std.specs.Prelude.{◌≡◌, ◌<◌, ◌≤◌, false, length, map, take, slice_get, IfOk, OnOk, if◌then◌else◌};
ghost use Rattle.c_pre.specs.Shown.{shown};
ghost use Rattle.c_pre.specs.Balance.{is_flag};
ghost use Rattle.c_pre.specs.Parts.{end_of, open_behind, lines_in, KnowEnds};

use crate::counts::Counts;
use crate::flags::Flags;
use crate::line::Line;
use cg_out::Memory;
use std::alloc::Global;

/// A line of a file, whose lines are kept from the last to the first.
#[derive(Clone, Copy, Debug)]
pub struct FileLine<'a> {
    pub line: Line<'a>,
    /// How many lines are left, where the part behind this line is skipped.
    pub end: usize,
}

/// The lines of a file, from the last to the first.
pub fn file_lines<'a>(alloc: Global, lines: &[Line<'a>]) -> Result<Vec<FileLine<'a>>, Memory>
    ensures lines { IfOk result (λ v. lines_in v.items ≡ map shown lines.now) }
    ensures ends { IfOk result (λ v. KnowEnds v.items) }
{
    let mut list = Vec::new(alloc);
    let mut ends = Counts::new(alloc);
    for at in (0..lines.len()).rev() {
        let line = lines[at];
        let end = end_of_part(&mut ends, line, list.len())?;
        list.push(FileLine { line, end })?;
    }
    Ok(list)
}

/// How many lines are left at the end of the part behind the line, behind which so many are left.
/// `ends` says it of the parts whose beginning is not met yet, the innermost first.
fn end_of_part(ends: &mut Counts, line: Line, left: usize) -> Result<usize, Memory>
    requires { left < usize.MAX }
    ensures end { IfOk result (λ n. n ≡ end_of (shown line.entry) ends.old left) }
    ensures ends { OnOk result (ends.new ≡ open_behind (shown line.entry) ends.old left) }
{
    match line {
        Line::Conditional { .. } => Ok(ends.pop().unwrap_or(left)),
        Line::Otherwise { .. } => match ends.pop() {
            Some(end) => {
                ends.push(left + 1)?;
                Ok(end)
            }
            None => Ok(left),
        },
        Line::EndIf { .. } => {
            ends.push(left + 1)?;
            Ok(left)
        }
        Line::Unbalanced { .. } => {
            ends.clear();
            Ok(left)
        }
        _ => Ok(left),
    }
}

/// The lines that are left behind this line and before these.
pub fn lines_behind<'b, 'a>(
    line: &FileLine<'a>,
    rest: &'b [FileLine<'a>],
    reads: &Flags,
) -> &'b [FileLine<'a>]
    requires { line.now.end ≤ length rest.now }
    ensures { result.now ≡ (if is_flag false (slice_get reads.now 0) then take line.now.end rest.now else rest.now) }
{
    if reads.top() == Some(false) {
        &rest[..line.end]
    } else {
        rest
    }
}

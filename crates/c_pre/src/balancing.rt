//! Which conditional lines belong to whole conditionals (6.10.1).
ghost use Rattle.std.specs.Prelude.{◌≡◌, [], map, slice_get, IfOk, OnOk};
ghost use Rattle.c_text.specs.Conditional as mean;
ghost use Rattle.c_pre.specs.Shown.{shown};
ghost use Rattle.c_pre.specs.Balance as spec;

use crate::flags::Flags;
use crate::line::Line;
use c_text::Place;
use cg_out::Memory;
use std::alloc::Global;

/// The lines of a file, in which a conditional line that belongs to no whole conditional is unbalanced.
pub fn balanced<'a>(alloc: Global, lines: &[Line<'a>]) -> Result<Vec<Line<'a>>, Memory>
    ensures { IfOk result (λ ls. map shown ls.items ≡ mean.balanced [] (map shown lines.now)) }
{
    let mut ended = endings(alloc, lines)?;
    let mut elses = Flags::new(alloc);
    let mut list = Vec::new(alloc);
    for line in lines {
        list.push(balanced_line(&mut elses, &mut ended, *line)?)?;
    }
    Ok(list)
}

/// For each conditional line, the first at the top: whether its `#endif` stands in the lines.
fn endings(alloc: Global, lines: &[Line]) -> Result<Flags, Memory>
    ensures { IfOk result (λ f. f ≡ spec.endings (map shown lines.now)) }
{
    let mut ended = Flags::new(alloc);
    let mut open = 0usize;
    for at in (0..lines.len()).rev() {
        match lines[at] {
            Line::Conditional { .. } => {
                ended.push(open > 0)?;
                open = open.saturating_sub(1);
            }
            Line::EndIf { .. } => open += 1,
            _ => {}
        }
    }
    Ok(ended)
}

/// The line as it stands in its file; `elses` says of each open conditional whether its `#else` came.
fn balanced_line<'a>(
    elses: &mut Flags,
    ended: &mut Flags,
    line: Line<'a>,
) -> Result<Line<'a>, Memory>
    ensures line { IfOk result (λ l. shown l ≡ spec.balanced_line elses.old ended.old (shown line.entry)) }
    ensures elses { OnOk result (elses.new ≡ spec.elses_behind elses.old (shown line.entry)) }
    ensures ended { OnOk result (ended.new ≡ spec.endings_behind ended.old (shown line.entry)) }
{
    match line {
        Line::Conditional { hash, .. } => {
            elses.push(false)?;
            Ok(if_whole(ended.pop() == Some(true), line, hash))
        }
        Line::Otherwise { hash } => {
            let top = elses.pop();
            if top.is_some() {
                elses.push(true)?;
            }
            Ok(if_whole(top == Some(false), line, hash))
        }
        Line::EndIf { hash } => Ok(if_whole(elses.pop().is_some(), line, hash)),
        _ => Ok(line),
    }
}

fn if_whole<'a>(whole: bool, line: Line<'a>, hash: Place) -> Line<'a>
    ensures { shown result ≡ mean.if_ended whole (shown line.entry) hash }
{
    if whole {
        line
    } else {
        Line::Unbalanced { hash }
    }
}

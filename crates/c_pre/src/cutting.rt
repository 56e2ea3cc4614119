//! A file's tokens, cut into lines.
ghost use Rattle.std.specs.Prelude.{◌≡◌, ◌∷◌, ◌<◌, ◌≤◌, not, length, take, drop, map, IfOk};
ghost use Rattle.std.specs.List.{prefix_len};
ghost use Rattle.std.specs.Option.{option_copied};
ghost use Rattle.c_pre.specs.Shown.{shown, told, cut};
ghost use Rattle.c_pre.specs.Merging.{begins_directive, merged};

use crate::directive::{begins_directive, line_of};
use crate::line::Line;
use c_text::Token;
use cg_out::Memory;
use std::alloc::Global;

/// The lines of a file, of which adjacent lines of text are one.
pub fn lines_of<'a>(
    alloc: Global,
    beside: Option<&[u8]>,
    tokens: &'a [Token],
) -> Result<Vec<Line<'a>>, Memory>
    ensures { IfOk result (λ ls. map shown ls.items ≡ map (told (option_copied beside.entry)) (merged (cut tokens.now))) }
{
    let mut lines = Vec::new(alloc);
    let mut left = tokens;
    while !left.is_empty() {
        let (line, behind) = left.split_at(line_length(left));
        lines.push(line_of(beside, line))?;
        left = behind;
    }
    Ok(lines)
}

/// How many tokens the directive at the front has, or the text before the next directive.
fn line_length(tokens: &[Token]) -> usize
    requires { 0 < length tokens.now }
    ensures first { merged (cut tokens.now) ≡ take result tokens.now ∷ merged (cut (drop result tokens.now)) }
    ensures some { 0 < result }
    ensures within { result ≤ length tokens.now }
{
    let rest = &tokens[1..];
    if begins_directive(&tokens[0]) {
        1 + length_before_fresh(rest)
    } else {
        1 + length_before_directive(rest)
    }
}

fn length_before_fresh(tokens: &[Token]) -> usize
    ensures value { result ≡ prefix_len (λ t. not t.fresh) tokens.now }
    ensures within { result ≤ length tokens.now }
{
    tokens.iter().take_while(|token| !token.fresh).count()
}

fn length_before_directive(tokens: &[Token]) -> usize
    ensures value { result ≡ prefix_len (λ t. not (begins_directive t)) tokens.now }
    ensures within { result ≤ length tokens.now }
{
    tokens
        .iter()
        .take_while(|token| !begins_directive(token))
        .count()
}

//! The identifier of a text, rule by rule.
ghost use Rattle.std.specs.Prelude.{◌≡◌, ◌+◌, map, take, IfOk};
ghost use Rattle.std.specs.Char.{to_ascii_lowercase};
ghost use Rattle.name_rules.specs.IsIdentifier.{IsIdentifier};
ghost use Rattle.name_rules.specs.Identifier.{cleaned_byte, is_break, first_or_zero, broken, unrun, without_first_line, without_last_line, begun, cut_short, identifier_of};

use cg_out::{Memory, Text};
use std::alloc::{AllocError, Global};

/// The identifier of a text in any encoding: lower-case ASCII letters, digits and single `_`
/// between words, at most 128 bytes, and it begins with a letter. Words are told apart by bytes
/// that are no letter or digit and by their capitals: `ABCDef9X` gives `abc_def9_x`.
pub fn identifier(alloc: Global, text: &[u8]) -> Result<Text, Memory>
    ensures exact { IfOk result (λ t. t ≡ identifier_of text.now) }
    ensures shape { IfOk result IsIdentifier }
{
    let clean = cleaned(alloc, text)?;
    let words = with_breaks(alloc, &clean)?;
    let joined = without_runs(alloc, &words)?;
    let small = lower(alloc, strip_last(strip_first(&joined)))?;
    let whole = with_first_letter(alloc, &small)?;
    Text::copy_of(alloc, shortened(&whole))
}

fn cleaned(alloc: Global, text: &[u8]) -> Result<Vec<u8>, AllocError>
    ensures { IfOk result (λ v. v.items ≡ map cleaned_byte text.now) }
{
    text.iter().map(|b| clean_byte(*b)).collect(alloc)
}

fn clean_byte(b: u8) -> u8
    ensures { result ≡ cleaned_byte b }
{
    if b.is_ascii_alphanumeric() { b } else { b'_' }
}

/// Whether a word ends between `a` and `b`, where `c` follows `b`.
fn breaks(a: u8, b: u8, c: u8) -> bool
    ensures { result ≡ is_break a b c }
{
    b.is_ascii_uppercase()
        && (a.is_ascii_lowercase()
            || a.is_ascii_digit()
            || (a.is_ascii_uppercase() && c.is_ascii_lowercase()))
}

fn first_of(bytes: &[u8]) -> u8
    ensures { result ≡ first_or_zero bytes.now }
{
    match bytes {
        [] => 0,
        [first, ..] => *first,
    }
}

fn with_breaks(alloc: Global, text: &[u8]) -> Result<Vec<u8>, AllocError>
    ensures { IfOk result (λ v. v.items ≡ broken 0 text.now) }
{
    let mut out = Vec::new(alloc);
    let mut before = 0u8;
    for (i, b) in text.iter().enumerate() {
        if breaks(before, *b, first_of(&text[i + 1..])) {
            out.push(b'_')?;
        }
        out.push(*b)?;
        before = *b;
    }
    Ok(out)
}

fn without_runs(alloc: Global, text: &[u8]) -> Result<Vec<u8>, AllocError>
    ensures { IfOk result (λ v. v.items ≡ unrun text.now) }
{
    let mut out = Vec::new(alloc);
    for (i, b) in text.iter().enumerate() {
        let goes_on = *b == b'_' && first_of(&text[i + 1..]) == b'_';
        if !goes_on {
            out.push(*b)?;
        }
    }
    Ok(out)
}

fn strip_first(text: &[u8]) -> &[u8]
    ensures { result.now ≡ without_first_line text.now }
{
    match text {
        [b'_', rest @ ..] => rest,
        _ => text,
    }
}

fn strip_last(text: &[u8]) -> &[u8]
    ensures { result.now ≡ without_last_line text.now }
{
    let len = text.len();
    if len > 0 && text[len - 1] == b'_' {
        &text[..len - 1]
    } else {
        text
    }
}

fn lower(alloc: Global, text: &[u8]) -> Result<Vec<u8>, AllocError>
    ensures { IfOk result (λ v. v.items ≡ map to_ascii_lowercase text.now) }
{
    text.iter().map(|b| b.to_ascii_lowercase()).collect(alloc)
}

fn with_first_letter(alloc: Global, text: &[u8]) -> Result<Vec<u8>, AllocError>
    ensures { IfOk result (λ v. v.items ≡ begun text.now) }
{
    let mut out = Vec::new(alloc);
    if text.is_empty() || text[0].is_ascii_digit() {
        out.push(b'x')?;
    }
    out.extend_from_slice(text)?;
    Ok(out)
}

fn shortened(bytes: &[u8]) -> &[u8]
    ensures { result.now ≡ cut_short bytes.now }
{
    front(bytes, 128)
}

fn front(bytes: &[u8], count: usize) -> &[u8]
    ensures { result.now ≡ take count bytes.now }
{
    if bytes.len() > count {
        &bytes[..count]
    } else {
        bytes
    }
}

//! What a line is (6.10).
ghost use Rattle.std.specs.Prelude.{◌≡◌, ℕ, Option, Some, is_some};
ghost use Rattle.std.specs.List.{list_any};
ghost use Rattle.std.specs.Option.{option_map, option_copied};
ghost use Rattle.c_text.specs.SeenToken.{seen_behind};
ghost use Rattle.c_text.specs.Directive as mean;
ghost use Rattle.c_pre.specs.Shown.{keyword_shown, kinds, unjoined, shown, told};
ghost use Rattle.c_pre.specs.Merging as merging;

use crate::line::Line;
use crate::standard::{header_of, is_mark, is_word};
use c_text::{CKind, Place, Token, TokenKind};

/// The word behind the `#`.
#[derive(Clone, Copy)]
enum Keyword {
    Include,
    Define,
    IfDef,
    IfNotDef,
    Else,
    EndIf,
}

#[tactic(auto, unfolding(c_text::specs::Directive::directive_word))]
fn keyword_of(kind: &TokenKind) -> Option<Keyword>
    ensures { option_map keyword_shown result ≡ mean.directive_word kind.now }
{
    if is_word(kind, b"include") {
        Some(Keyword::Include)
    } else if is_word(kind, b"define") {
        Some(Keyword::Define)
    } else if is_word(kind, b"ifdef") {
        Some(Keyword::IfDef)
    } else if is_word(kind, b"ifndef") {
        Some(Keyword::IfNotDef)
    } else if is_word(kind, b"else") {
        Some(Keyword::Else)
    } else if is_word(kind, b"endif") {
        Some(Keyword::EndIf)
    } else {
        None
    }
}

/// Whether this is the first token of a directive.
pub fn begins_directive(token: &Token) -> bool
    ensures { result ≡ merging.begins_directive token.now }
{
    token.fresh && is_mark(&token.kind, b"#")
}

/// The line with these tokens, of a file in which a quoted include may name the header beside it.
pub fn line_of<'a>(beside: Option<&[u8]>, tokens: &'a [Token]) -> Line<'a>
    ensures { shown result ≡ told (option_copied beside.entry) tokens.now }
{
    match tokens {
        [first, rest @ ..] => {
            if begins_directive(first) {
                directive(beside, first.place, rest)
            } else {
                Line::Text(tokens)
            }
        }
        [] => Line::Text(tokens),
    }
}

fn directive<'a>(beside: Option<&[u8]>, hash: Place, tokens: &'a [Token]) -> Line<'a>
    ensures { shown result ≡ unjoined (mean.directive (option_copied beside.entry) hash (seen_behind (Some hash.end) tokens.now)) }
{
    let [word, rest @ ..] = tokens else {
        return bad_directive(hash);
    };
    match keyword_of(&word.kind) {
        Some(Keyword::Include) => include_line(beside, hash, rest),
        Some(Keyword::Define) => define_line(hash, rest),
        Some(Keyword::IfDef) => conditional_line(hash, true, rest),
        Some(Keyword::IfNotDef) => conditional_line(hash, false, rest),
        Some(Keyword::Else) => alone(Line::Otherwise { hash }, hash, rest),
        Some(Keyword::EndIf) => alone(Line::EndIf { hash }, hash, rest),
        None => bad_directive(hash),
    }
}

fn refused<'a>(hash: Place, kind: CKind) -> Line<'a>
    ensures { shown result ≡ mean.refused hash kind }
{
    Line::Refused { hash, kind }
}

fn bad_directive<'a>(hash: Place) -> Line<'a>
    ensures { shown result ≡ mean.refused hash CKind.BadDirective }
{
    refused(hash, CKind::BadDirective)
}

/// The line, where no tokens follow.
fn alone<'a>(line: Line<'a>, hash: Place, tokens: &[Token]) -> Line<'a>
    ensures { (end : Option ℕ) → shown result ≡ mean.none_follow hash (shown line.entry) (seen_behind end tokens.now) }
{
    match tokens {
        [] => line,
        [_, ..] => bad_directive(hash),
    }
}

// ---- includes (6.10.2)

fn include_line<'a>(beside: Option<&[u8]>, hash: Place, tokens: &[Token]) -> Line<'a>
    ensures { (end : Option ℕ) → shown result ≡ mean.include_line (option_copied beside.entry) hash (seen_behind end tokens.now) }
{
    let [first, rest @ ..] = tokens else {
        return bad_directive(hash);
    };
    if is_mark(&first.kind, b"<") {
        return include_angled(hash, up_to_greater(first.place.end, rest));
    }
    match &first.kind {
        TokenKind::Quoted(name) => include_quoted(beside, hash, name.bytes(), rest),
        _ => bad_directive(hash),
    }
}

/// What stands before a `>` that is the last token; nothing stands between any two of them.
fn up_to_greater(start: u32, tokens: &[Token]) -> Option<&[Token]>
    ensures { option_map (λ ts. kinds ts.now) result ≡ mean.up_to_greater (seen_behind (Some start) tokens.now) }
{
    let mut end = start;
    for (i, token) in tokens.iter().enumerate() {
        if token.place.start != end {
            return None;
        }
        if is_mark(&token.kind, b">") {
            return if i + 1 == tokens.len() {
                Some(&tokens[..i])
            } else {
                None
            };
        }
        end = token.place.end;
    }
    None
}

fn include_angled<'a>(hash: Place, name: Option<&[Token]>) -> Line<'a>
    ensures { shown result ≡ mean.include_angled hash (option_map (λ ts. kinds ts.now) name.entry) }
{
    let Some(name) = name else {
        return bad_directive(hash);
    };
    if name.is_empty() {
        return bad_directive(hash);
    }
    match header_of(name) {
        Some(header) => Line::Standard(header),
        None => refused(hash, CKind::UnknownHeader),
    }
}

fn include_quoted<'a>(beside: Option<&[u8]>, hash: Place, name: &[u8], rest: &[Token]) -> Line<'a>
    ensures { (end : Option ℕ) → shown result ≡ mean.include_quoted (option_copied beside.entry) hash (TokenKind.Quoted name.now) (seen_behind end rest.now) }
{
    match rest {
        [] => {
            if !name.is_empty() && is_beside(beside, name) {
                Line::Quoted
            } else {
                refused(hash, CKind::UnknownHeader)
            }
        }
        [_, ..] => bad_directive(hash),
    }
}

fn is_beside(beside: Option<&[u8]>, name: &[u8]) -> bool
    ensures { result ≡ mean.is_beside (option_copied beside.entry) name.now }
{
    match beside {
        Some(header) => header == name,
        None => false,
    }
}

// ---- definitions of macros without parameters (6.10.3)

fn define_line<'a>(hash: Place, tokens: &'a [Token]) -> Line<'a>
    ensures { (end : Option ℕ) → shown result ≡ unjoined (mean.define_line hash (seen_behind end tokens.now)) }
{
    let [first, body @ ..] = tokens else {
        return bad_directive(hash);
    };
    match &first.kind {
        TokenKind::Word(name) => define_named(hash, first.place.end, name.bytes(), body),
        _ => bad_directive(hash),
    }
}

/// The body stands behind the name, which ends there.
fn define_named<'a>(hash: Place, end: u32, name: &'a [u8], body: &'a [Token]) -> Line<'a>
    ensures { shown result ≡ unjoined (mean.define_named hash (Some name.now) (seen_behind (Some end) body.now)) }
{
    if has_parameters(end, body) {
        bad_directive(hash)
    } else if has_word(body) {
        refused(hash, CKind::MacroBody)
    } else {
        Line::Define { hash, name, body }
    }
}

/// Whether an opening bracket stands directly behind the name that ends there.
fn has_parameters(end: u32, body: &[Token]) -> bool
    ensures { result ≡ mean.has_parameters (seen_behind (Some end) body.now) }
{
    match body {
        [first, ..] => is_mark(&first.kind, b"(") && first.place.start == end,
        [] => false,
    }
}

fn has_word(body: &[Token]) -> bool
    ensures { result ≡ list_any (λ t. is_some (mean.word_of t.kind)) body.now }
{
    body.iter()
        .any(|token| matches!(token.kind, TokenKind::Word(_)))
}

// ---- conditionals (6.10.1)

/// A name and no more.
fn conditional_line<'a>(hash: Place, wanted: bool, tokens: &'a [Token]) -> Line<'a>
    ensures { (end : Option ℕ) → shown result ≡ mean.conditional_line hash wanted (seen_behind end tokens.now) }
{
    match tokens {
        [token] => conditional_named(hash, wanted, &token.kind),
        [] => bad_directive(hash),
        [_, _, ..] => bad_directive(hash),
    }
}

fn conditional_named<'a>(hash: Place, wanted: bool, kind: &'a TokenKind) -> Line<'a>
    ensures { shown result ≡ mean.conditional_named hash wanted (mean.word_of kind.now) }
{
    match kind {
        TokenKind::Word(name) => Line::Conditional {
            hash,
            wanted,
            name: name.bytes(),
        },
        _ => bad_directive(hash),
    }
}

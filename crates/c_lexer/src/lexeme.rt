//! What stands in front of a text: the longest lexical element (ISO/IEC 9899:1999, 6.4).
ghost use Rattle.std.specs.Prelude.{◌≡◌, ℕ, ◌+◌, ◌-◌, ◌≤◌, ◌∷◌, ◌==◌, ◌&&◌, length, take, drop, take_while, IfOk, IfSome};
ghost use Rattle.c_text.specs.Characters as characters;
ghost use Rattle.c_text.specs.IntegerConstant as constants;
ghost use Rattle.c_text.specs.Punctuator as punctuators;
ghost use Rattle.c_text.specs.Piece as pieces;
ghost use Rattle.c_lexer.specs.Lexemes.{piece_of};

use crate::character::{
    behind, first_is, goes_on, is_blank, is_digit, is_letter, is_line_end, line_length, name_length,
};
use crate::constant::constant_of;
use crate::punctuator::mark_length;
use c_text::{CKind, TokenKind};
use cg_out::{Memory, Text};
use std::alloc::Global;

/// A lexical element (6.4).
#[derive(Drop)]
pub enum Lexeme {
    /// A token of the subset.
    Token(TokenKind),
    /// A line end outside comments.
    LineEnd,
    /// White space or a comment.
    Space,
    /// What is none of these, and why.
    Bad(CKind),
}

/// A lexical element in front of a text.
#[derive(Drop)]
pub struct Piece {
    pub lexeme: Lexeme,
    /// How many bytes of it follow its first.
    pub more: usize,
}

impl Piece {
    /// A token, with so many bytes behind its first.
    fn token(kind: TokenKind, more: usize) -> Piece
        ensures value { piece_of result ≡ (pieces.token kind, more) }
        ensures more { result.more ≡ more }
    {
        Piece {
            lexeme: Lexeme::Token(kind),
            more,
        }
    }

    /// White space or a comment.
    fn space(more: usize) -> Piece
        ensures value { piece_of result ≡ (pieces.space, more) }
        ensures more { result.more ≡ more }
    {
        Piece {
            lexeme: Lexeme::Space,
            more,
        }
    }

    /// A byte that begins no token of the subset.
    fn bad_token() -> Piece
        ensures value { piece_of result ≡ (pieces.bad CKind.BadToken, 0) }
        ensures more { result.more ≡ 0 }
    {
        Piece {
            lexeme: Lexeme::Bad(CKind::BadToken),
            more: 0,
        }
    }
}

/// The name or keyword (6.4.2) that begins the text, whose first byte stands before the rest.
fn read_word(alloc: Global, text: &[u8], rest: &[u8]) -> Result<Piece, Memory>
    requires { length text.now ≡ length rest.now + 1 }
    ensures value { IfOk result (λ p. piece_of p ≡ (
      pieces.token (TokenKind.Word (take (length (take_while characters.goes_on rest.now) + 1) text.now)),
      length (take_while characters.goes_on rest.now),
    )) }
    ensures within { IfOk result (λ p. p.more ≤ length rest.now) }
{
    let more = name_length(rest);
    let spelling = Text::copy_of(alloc, &text[..more + 1])?;
    Ok(Piece::token(TokenKind::Word(spelling), more))
}

/// Whether a sign behind the byte belongs to a preprocessing number (6.4.8).
fn is_exponent(byte: u8) -> bool
    ensures { result ≡ pieces.is_exponent byte }
{
    matches!(byte, b'e' | b'E' | b'p' | b'P')
}

/// Whether the byte is `+` or `-`.
fn is_sign(byte: u8) -> bool
    ensures { result ≡ pieces.is_sign byte }
{
    byte == b'+' || byte == b'-'
}

/// Whether a preprocessing number (6.4.8) goes on with the byte behind another.
fn number_goes_on(before: u8, byte: u8) -> bool
    ensures { result ≡ pieces.number_goes_on before byte }
{
    goes_on(byte) || byte == b'.' || is_exponent(before) && is_sign(byte)
}

/// How many bytes of a preprocessing number stand behind its first.
fn number_length(first: u8, rest: &[u8]) -> usize
    ensures value { result ≡ length (pieces.number_rest first rest.now) }
    ensures within { result ≤ length rest.now }
{
    let mut before = first;
    for (i, byte) in rest.iter().enumerate() {
        if !number_goes_on(before, *byte) {
            return i;
        }
        before = *byte;
    }
    rest.len()
}

/// The preprocessing number (6.4.8) that begins the text, a token only as an integer constant.
fn read_number(text: &[u8], first: u8, rest: &[u8]) -> Piece
    requires { text.now ≡ first ∷ rest.now }
    ensures value { piece_of result ≡ pieces.number_piece
        (constants.constant_of (first ∷ pieces.number_rest first rest.now))
        (length (pieces.number_rest first rest.now)) }
    ensures within { result.more ≤ length rest.now }
{
    let more = number_length(first, rest);
    match constant_of(&text[..more + 1]) {
        None => Piece::bad_token(),
        Some(constant) => Piece::token(TokenKind::Constant(constant), more),
    }
}

/// Whether a string may hold the byte (6.4.5): strings have no escapes here.
fn is_in_string(byte: u8) -> bool
    ensures { result ≡ pieces.in_string byte }
{
    matches!(byte, 32..=126) && byte != b'"'
}

/// How many bytes of a string's content stand at the front.
fn content_length(bytes: &[u8]) -> usize
    ensures value { result ≡ length (take_while pieces.in_string bytes.now) }
    ensures within { result ≤ length bytes.now }
{
    bytes.iter().take_while(|b| is_in_string(**b)).count()
}

/// The string (6.4.5) whose first quote stands before the bytes.
fn read_string(alloc: Global, rest: &[u8]) -> Result<Piece, Memory>
    ensures value { IfOk result (λ p. piece_of p ≡ pieces.string_piece
        (take_while pieces.in_string rest.now)
        (drop (length (take_while pieces.in_string rest.now)) rest.now)) }
    ensures within { IfOk result (λ p. p.more ≤ length rest.now) }
{
    let length = content_length(rest);
    if !first_is(b'"', behind(rest, length)) {
        return Ok(Piece::bad_token());
    }
    let content = Text::copy_of(alloc, &rest[..length])?;
    Ok(Piece::token(TokenKind::Quoted(content), length + 1))
}

/// Whether the byte and those behind it begin with `*/`.
fn closes_comment(byte: u8, rest: &[u8]) -> bool
    ensures { result ≡ (byte == 42 && characters.first_is 47 rest.now) }
{
    byte == b'*' && first_is(b'/', rest)
}

/// How many bytes there are up to and with the next `*/`.
fn close_at(bytes: &[u8]) -> Option<usize>
    ensures value { result ≡ pieces.close_at bytes.now }
    ensures within { IfSome result (λ n. n ≤ length bytes.now) }
{
    for (i, byte) in bytes.iter().enumerate() {
        if closes_comment(*byte, behind(bytes, i + 1)) {
            return Some(i + 2);
        }
    }
    None
}

/// The comment (6.4.9) whose `/` stands before the bytes and its `*` first in them.
fn read_comment(rest: &[u8]) -> Piece
    requires { 1 ≤ length rest.now }
    ensures value { piece_of result ≡ pieces.comment_piece (pieces.close_at (drop 1 rest.now)) }
    ensures within { result.more ≤ length rest.now }
{
    match close_at(behind(rest, 1)) {
        None => Piece {
            lexeme: Lexeme::Bad(CKind::OpenComment),
            more: 1,
        },
        Some(length) => Piece::space(length + 1),
    }
}

/// The longest punctuator (6.4.6) in front.
fn read_mark(alloc: Global, text: &[u8]) -> Result<Piece, Memory>
    ensures value { IfOk result (λ p. piece_of p
        ≡ pieces.mark_piece (punctuators.mark_at text.now)) }
    ensures within { IfOk result (λ p. p.more ≤ length text.now - 1) }
{
    match mark_length(text) {
        None => Ok(Piece::bad_token()),
        Some(length) => {
            let spelling = Text::copy_of(alloc, &text[..length])?;
            Ok(Piece::token(TokenKind::Mark(spelling), length - 1))
        }
    }
}

/// What the first byte of the text begins.
pub fn read_piece(alloc: Global, text: &[u8], first: u8, rest: &[u8]) -> Result<Piece, Memory>
    requires { text.now ≡ first ∷ rest.now }
    ensures value { IfOk result (λ p. piece_of p ≡ pieces.piece first rest.now) }
    ensures within { IfOk result (λ p. p.more ≤ length rest.now) }
{
    if is_letter(first) {
        read_word(alloc, text, rest)
    } else if is_digit(first) {
        Ok(read_number(text, first, rest))
    } else if is_line_end(first) {
        Ok(Piece {
            lexeme: Lexeme::LineEnd,
            more: 0,
        })
    } else if is_blank(first) {
        Ok(Piece::space(0))
    } else if first == b'"' {
        read_string(alloc, rest)
    } else if first == b'/' && first_is(b'*', rest) {
        Ok(read_comment(rest))
    } else if first == b'/' && first_is(b'/', rest) {
        Ok(Piece::space(line_length(rest)))
    } else {
        read_mark(alloc, text)
    }
}

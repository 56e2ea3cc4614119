//! Tokens that are taken one by one; `end` is the line of the text's end.
ghost use Rattle.std.specs.Prelude.{◌≡◌, ◌≤◌, IfOk};
ghost use Rattle.can_model.specs.Refusal.{Gives};
ghost use Rattle.dbc_reader.specs.Template.{word, string, mark, sign, whole_number, decimal, is_mux_word, passes};
ghost use Rattle.dbc_reader.specs.Parts.{is_the};
ghost use Rattle.dbc_reader.specs.Reading.{one_at, unless_at, past, next_passes};
ghost use Rattle.dbc_reader.specs.Checks.{test_of};
ghost use Rattle.dbc_reader.specs.Shown.{shown};

use crate::keyword::is_keyword;
use crate::mux::is_mux;
use crate::number::whole_of;
use crate::token::{Token, Tokens};
use can_model::{TextFault, TextKind};
use limit_fraction::Decimal;

/// A test of a token.
#[derive(Clone, Copy, Debug)]
pub enum Check {
    String,
    Number,
    Word,
    /// A word that is no keyword.
    Name,
    Mark(u8),
    /// A number, `:` or `,`.
    Speed,
    /// A number or a sign.
    Value,
    /// All but the words that end an `NS_`.
    Section,
    /// All but this mark.
    UnlessMark(u8),
    /// A word of a multiplexed signal.
    MuxWord,
}

pub fn fault(kind: TextKind, line: u32) -> TextFault
    ensures { result ≡ TextFault.Fault kind line }
{
    TextFault::Fault { kind, line }
}

/// A whole number up to the limit.
pub fn take_whole_64(
    tokens: Tokens<'_>,
    limit: u64,
    end: u32,
) -> Result<(u64, Tokens<'_>), TextFault>
    ensures value { Gives (λ x. (x.0, x.1.now)) result (one_at end (whole_number limit) tokens.now) }
    ensures within { IfOk result (λ x. x.0 ≤ limit) }
{
    let [first, rest @ ..] = tokens else {
        return Err(fault(TextKind::Unexpected, end));
    };
    match first.token() {
        Token::Number(digits) => match whole_of(digits, limit) {
            Some(value) => Ok((value, rest)),
            None => Err(fault(TextKind::BadNumber, first.line())),
        },
        Token::Bad(kind) => Err(fault(kind, first.line())),
        _ => Err(fault(TextKind::Unexpected, first.line())),
    }
}

/// A whole number up to the limit.
pub fn take_whole(tokens: Tokens<'_>, limit: u32, end: u32) -> Result<(u32, Tokens<'_>), TextFault>
    ensures { Gives (λ x. (x.0, x.1.now)) result (one_at end (whole_number limit) tokens.now) }
{
    let (value, rest) = take_whole_64(tokens, u64::from(limit), end)?;
    Ok((value as u32, rest))
}

/// A number that can be kept.
pub fn take_decimal(tokens: Tokens<'_>, end: u32) -> Result<(Decimal, Tokens<'_>), TextFault>
    ensures { Gives (λ x. (x.0, x.1.now)) result (one_at end decimal tokens.now) }
{
    let [first, rest @ ..] = tokens else {
        return Err(fault(TextKind::Unexpected, end));
    };
    match first.token() {
        Token::Number(digits) => match Decimal::read(digits) {
            Ok(value) => Ok((value, rest)),
            Err(_) => Err(fault(TextKind::BadNumber, first.line())),
        },
        Token::Bad(kind) => Err(fault(kind, first.line())),
        _ => Err(fault(TextKind::Unexpected, first.line())),
    }
}

/// Any word.
pub fn take_word(tokens: Tokens<'_>, end: u32) -> Result<(&[u8], Tokens<'_>), TextFault>
    ensures { Gives (λ x. (x.0.now, x.1.now)) result (one_at end word tokens.now) }
{
    let [first, rest @ ..] = tokens else {
        return Err(fault(TextKind::Unexpected, end));
    };
    match first.token() {
        Token::Word(word) => Ok((word, rest)),
        Token::Bad(kind) => Err(fault(kind, first.line())),
        _ => Err(fault(TextKind::Unexpected, first.line())),
    }
}

/// A string.
pub fn take_string(tokens: Tokens<'_>, end: u32) -> Result<(&[u8], Tokens<'_>), TextFault>
    ensures { Gives (λ x. (x.0.now, x.1.now)) result (one_at end string tokens.now) }
{
    let [first, rest @ ..] = tokens else {
        return Err(fault(TextKind::Unexpected, end));
    };
    match first.token() {
        Token::String(text) => Ok((text, rest)),
        Token::Bad(kind) => Err(fault(kind, first.line())),
        _ => Err(fault(TextKind::Unexpected, first.line())),
    }
}

/// This mark.
pub fn take_mark(tokens: Tokens<'_>, byte: u8, end: u32) -> Result<Tokens<'_>, TextFault>
    ensures { Gives (λ x. (tt, x.now)) result (one_at end (mark byte) tokens.now) }
{
    let [first, rest @ ..] = tokens else {
        return Err(fault(TextKind::Unexpected, end));
    };
    match first.token() {
        Token::Mark(found) => {
            if found == byte {
                Ok(rest)
            } else {
                Err(fault(TextKind::Unexpected, first.line()))
            }
        }
        Token::Bad(kind) => Err(fault(kind, first.line())),
        _ => Err(fault(TextKind::Unexpected, first.line())),
    }
}

/// `+` or `-`: whether it is the minus.
pub fn take_sign(tokens: Tokens<'_>, end: u32) -> Result<(bool, Tokens<'_>), TextFault>
    ensures { Gives (λ x. (x.0, x.1.now)) result (one_at end sign tokens.now) }
{
    let [first, rest @ ..] = tokens else {
        return Err(fault(TextKind::Unexpected, end));
    };
    match first.token() {
        Token::Mark(b'-') => Ok((true, rest)),
        Token::Mark(b'+') => Ok((false, rest)),
        Token::Bad(kind) => Err(fault(kind, first.line())),
        _ => Err(fault(TextKind::Unexpected, first.line())),
    }
}

/// A word of a multiplexed signal is not read yet.
pub fn refuse_mux_word(tokens: Tokens<'_>) -> Result<(), TextFault>
    ensures { Gives (λ x. (x, tokens.now)) result (unless_at is_mux_word TextKind.NotYet tokens.now) }
{
    let [first, ..] = tokens else {
        return Ok(());
    };
    if is_passing(Check::MuxWord, first.token()) {
        return Err(fault(TextKind::NotYet, first.line()));
    }
    Ok(())
}

/// Whether a token passes a test.
pub fn is_passing(check: Check, token: Token<'_>) -> bool
    ensures { result ≡ passes (test_of check) (shown token.entry) }
{
    match (check, token) {
        (Check::String, Token::String(_)) => true,
        (Check::Number | Check::Speed | Check::Value, Token::Number(_)) => true,
        (Check::Word, Token::Word(_)) => true,
        (Check::Name, Token::Word(word)) => !is_keyword(word),
        (Check::MuxWord, Token::Word(word)) => is_mux(word),
        (Check::Mark(wanted), Token::Mark(found)) => found == wanted,
        (Check::Speed, Token::Mark(found)) => found == b':' || found == b',',
        (Check::Value, Token::Mark(found)) => found == b'+' || found == b'-',
        (Check::Section, Token::Word(word)) => {
            !(word == b"BS_".as_slice() || word == b"BU_".as_slice() || word == b"BO_".as_slice())
        }
        (Check::Section, Token::Bad(_)) => false,
        (Check::Section, _) => true,
        (Check::UnlessMark(byte), Token::Mark(found)) => found != byte,
        (Check::UnlessMark(_), Token::Bad(_)) => false,
        (Check::UnlessMark(_), _) => true,
        _ => false,
    }
}

/// Whether there is a next token and it passes.
pub fn is_next(check: Check, tokens: Tokens<'_>) -> bool
    ensures { result ≡ next_passes (test_of check) tokens.now }
{
    match tokens {
        [] => false,
        [first, ..] => is_passing(check, first.token()),
    }
}

/// Whether the next token is this word.
pub fn is_next_word(word: &[u8], tokens: Tokens<'_>) -> bool
    ensures { result ≡ next_passes (is_the word.now) tokens.now }
{
    let [first, ..] = tokens else {
        return false;
    };
    match first.token() {
        Token::Word(found) => found == word,
        _ => false,
    }
}

/// What follows the longest run of tokens that pass.
pub fn past_run(check: Check, tokens: Tokens<'_>) -> Tokens<'_>
    ensures { result.now ≡ past (test_of check) tokens.now }
{
    let mut left = tokens;
    while let [first, rest @ ..] = left {
        if !is_passing(check, first.token()) {
            return left;
        }
        left = rest;
    }
    left
}

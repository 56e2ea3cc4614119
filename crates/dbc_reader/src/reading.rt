//! From tokens to statements; `end` is the line of the text's end.
ghost use Rattle.std.specs.Prelude.{◌≡◌, ℕ, ◌^◌, ◌<◌, List, [], length, Ok, Err, IfOk};
ghost use Rattle.std.specs.Bool.{OnFalse};
ghost use Rattle.can_model.specs.Refusal.{Refusal, Gives};
ghost use Rattle.dbc_reader.specs.Rows.{rows, rows_of_facts};
ghost use Rattle.dbc_reader.specs.Document as document;
ghost use Rattle.dbc_reader.specs.Flat.{row_at};
ghost use Rattle.dbc_reader.specs.Reading.{all_of, too_large, statements_of};
ghost use Rattle.dbc_reader.specs.Statements.{IsStatementList};
ghost use Rattle.dbc_reader.specs.Bounds.{AreBounded};
ghost use Rattle.dbc_reader.specs.FirstFault.{IsFirstFault};

use crate::lexing::{end_line, tokens_of};
use crate::rows::{
    read_attribute, read_choices, read_comment, read_default, read_message, read_nodes, read_other,
    read_ranges_row, read_signal, read_speeds, read_value_type, read_version,
};
use crate::statement::{Body, Statement};
use crate::taking::{Check, fault, past_run};
use crate::token::{Lexed, Token, Tokens};
use can_model::{TEXT_LIMIT, TextFault, TextKind};
use std::alloc::Global;
use std::convert::identity;

/// The statements of a DBC text, in their order.
///
/// # Errors
///
/// The first fault of the text and its line: the first token that no statements go on with, or
/// the end inside a statement. A text longer than `TEXT_LIMIT` is TooLarge at line 0, whatever
/// else is wrong with it. Words of multiplexed signals are NotYet. Or memory ran out.
pub fn statements(alloc: Global, text: &[u8]) -> Result<Vec<Statement>, TextFault>
    ensures exact { Gives (λ v. v.items) result (statements_of text.now) }

    // The statements' tokens, joined in order, are the text's tokens; such a list is answered.
    ensures found { IfOk result (λ v. IsStatementList v.items text.now) }
    ensures only { (ss : List Statement) → IsStatementList ss text.now
        → Gives (λ v. v.items) result (Ok ss) }

    // No list of statements goes on with the token at the fault; such a fault is answered.
    ensures fault { (kind : TextKind) (line : ℕ) → result ≡ Err (TextFault.Fault kind line)
        → IsFirstFault text.now (record { kind = kind; line = line }) }
    ensures refused { (r : Refusal) → IsFirstFault text.now r → Gives (λ v. v.items) result (Err r) }

    // The ids of messages have 32 bits; their lengths, and signals' starts and lengths, have 16.
    ensures bounded { IfOk result (λ v. AreBounded v.items) }
{
    if is_too_large(text) {
        return Err(fault(TextKind::TooLarge, 0));
    }
    let tokens = tokens_of(alloc, text)?;
    read_all(alloc, &tokens, end_line(text))
}

#[tactic(auto, unfolding(crate::specs::Reading::too_large))]
fn is_too_large(text: &[u8]) -> bool
    ensures value { result ≡ too_large text.now }
    ensures within { OnFalse result (length text.now < 2 ^ 30) }
{
    text.len() > TEXT_LIMIT
}

fn read_all(alloc: Global, tokens: Tokens<'_>, end: u32) -> Result<Vec<Statement>, TextFault>
    ensures { Gives (λ v. v.items) result (all_of end tokens.now) }
{
    let mut list = Vec::new(alloc);
    let mut left = tokens;
    while let [first, rest @ ..] = left {
        let (statement, after) = read_statement(alloc, first, rest, end)?;
        list.push(statement)?;
        // The check brings `after` to the lifetime of `left` in a call, not in an assignment.
        left = identity(after);
    }
    Ok(list)
}

/// The statement whose first token is this one, and what follows.
fn read_statement<'a>(
    alloc: Global,
    first: &Lexed<'_>,
    rest: Tokens<'a>,
    end: u32,
) -> Result<(Statement, Tokens<'a>), TextFault>
    ensures { Gives (λ s. (s.0, s.1.now)) result (row_at rows end first.now rest.now) }
{
    let line = first.line();
    let Token::Word(word) = first.token() else {
        return read_fact(alloc, first, rest, end);
    };
    if word == b"VERSION".as_slice() {
        Ok((skipped(line), read_version(rest)))
    } else if word == b"NS_".as_slice() {
        Ok((skipped(line), past_run(Check::Section, rest)))
    } else if word == b"BS_".as_slice() {
        Ok((skipped(line), read_speeds(rest, end)?))
    } else if word == b"BU_".as_slice() {
        Ok((skipped(line), read_nodes(rest, end)?))
    } else if word == b"BO_".as_slice() {
        let (body, rest) = read_message(alloc, rest, end)?;
        Ok((Statement { line, body }, rest))
    } else if word == b"SG_".as_slice() {
        let (body, rest) = read_signal(alloc, rest, end)?;
        Ok((Statement { line, body }, rest))
    } else {
        read_fact(alloc, first, rest, end)
    }
}

/// A statement that says more of what is sent, or one of which nothing is kept.
fn read_fact<'a>(
    alloc: Global,
    first: &Lexed<'_>,
    rest: Tokens<'a>,
    end: u32,
) -> Result<(Statement, Tokens<'a>), TextFault>
    ensures { Gives (λ s. (s.0, s.1.now)) result (row_at rows_of_facts end first.now rest.now) }
{
    let line = first.line();
    let Token::Word(word) = first.token() else {
        return read_other_statement(first, rest, end);
    };
    let (body, rest) = if word == b"CM_".as_slice() {
        read_comment(alloc, rest, end)?
    } else if word == b"BA_DEF_DEF_".as_slice() {
        read_default(alloc, rest, end)?
    } else if word == b"BA_".as_slice() {
        read_attribute(alloc, rest, end)?
    } else if word == b"VAL_".as_slice() {
        read_choices(alloc, rest, end)?
    } else if word == b"SIG_VALTYPE_".as_slice() {
        read_value_type(alloc, rest, end)?
    } else if word == b"SG_MUL_VAL_".as_slice() {
        read_ranges_row(alloc, rest, end)?
    } else {
        return read_other_statement(first, rest, end);
    };
    Ok((Statement { line, body }, rest))
}

/// A statement of which nothing is kept, to its `;`; or a lone `;`.
fn read_other_statement<'a>(
    first: &Lexed<'_>,
    rest: Tokens<'a>,
    end: u32,
) -> Result<(Statement, Tokens<'a>), TextFault>
    ensures { Gives (λ s. (s.0, s.1.now)) result (row_at [] end first.now rest.now) }
{
    let line = first.line();
    match first.token() {
        Token::Word(_) => Ok((skipped(line), read_other(rest, end)?)),
        Token::Mark(b';') => Ok((skipped(line), rest)),
        Token::Bad(kind) => Err(fault(kind, line)),
        _ => Err(fault(TextKind::Unexpected, line)),
    }
}

fn skipped(line: u32) -> Statement
    ensures { result ≡ document.skipped line }
{
    Statement {
        line,
        body: Body::Skipped,
    }
}

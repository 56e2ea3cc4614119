//! From statements to messages.
ghost use Rattle.std.specs.Prelude.{◌≡◌, filter, IfOk};
ghost use Rattle.can_model.specs.Formed.{IsFormed, HasNoParents};
ghost use Rattle.can_model.specs.Refusal.{Gives};
ghost use Rattle.dbc_build.specs.DatabaseOfStatements.{messages_in, is_placeholder, is_kept, late_signal, database_of};
ghost use Rattle.dbc_build.specs.Parts.{message_from};

use crate::facts::Facts;
use crate::signals::signals;
use can_model::{Database, Message, TextFault, TextKind};
use cg_out::{List, Memory, Text};
use dbc_reader::{Body, Statement};
use std::alloc::Global;

/// The bit of a `BO_` statement's id that marks an extended frame.
const EXTENDED: u32 = 1 << 31;

/// The name of the message that lists the signals of no message.
const PLACEHOLDER: &str = "VECTOR__INDEPENDENT_SIG_MSG";

/// The messages of the `BO_` statements, in their order, each with the signals of the `SG_`
/// statements up to the next `BO_`; without the one that lists the signals of no message.
///
/// Names are the long ones where attributes give them. Where statements say something of one
/// message or signal more than once, the last one counts; what they say of others is ignored. A
/// start value and choices that are no raw values of their signal are left out.
///
/// # Errors
///
/// `LateSignal` at the line of the first `SG_`, where no `BO_` stands before it, or memory ran
/// out.
pub fn database(alloc: Global, list: &[Statement]) -> Result<Database, TextFault>
    ensures exact { Gives (λ d. d) result (database_of list.now) }

    // What the databases of all readers keep; and no signal is multiplexed yet.
    ensures formed { IfOk result (λ d. IsFormed d) }
    ensures no_parents { IfOk result (λ d. HasNoParents d) }
{
    built(alloc, list)
}

fn built(alloc: Global, list: &[Statement]) -> Result<Database, TextFault>
    ensures { Gives (λ d. d) result (database_of list.now) }
{
    if let Some(line) = late_signal(list) {
        let kind = TextKind::LateSignal;
        return Err(TextFault::Fault { kind, line });
    }
    let facts = Facts::of(alloc, list)?;
    let messages = messages(alloc, &facts)?;
    Ok(Database { messages })
}

/// The line of the first `SG_`, where no `BO_` stands before it.
fn late_signal(list: &[Statement]) -> Option<u32>
    ensures { result ≡ late_signal list.now }
{
    for statement in list {
        match &statement.body {
            Body::Signal { .. } => return Some(statement.line),
            Body::Message { .. } => return None,
            _ => {}
        }
    }
    None
}

/// The messages of the `BO_` statements, in their order, without the placeholder.
fn messages(alloc: Global, facts: &Facts) -> Result<List<Message>, Memory>
    ensures { IfOk result (λ m. m ≡ filter is_kept (messages_in facts.now facts.now)) }
{
    let mut messages = List::new(alloc);
    let mut left = facts.list();
    while let [statement, rest @ ..] = left {
        if let Some(message) = message(alloc, facts, statement, rest)? {
            if is_kept(&message) {
                messages.push(message)?;
            }
        }
        left = rest;
    }
    Ok(messages)
}

fn is_kept(message: &Message) -> bool
    ensures { result ≡ is_kept message.now }
{
    !is_placeholder(message.name.bytes())
}

#[tactic(auto, unfolding(crate::specs::DatabaseOfStatements::is_placeholder))]
fn is_placeholder(name: &[u8]) -> bool
    ensures { result ≡ is_placeholder name.now }
{
    name == PLACEHOLDER.as_bytes()
}

/// The message of a `BO_` statement, with the signals behind it.
fn message(
    alloc: Global,
    facts: &Facts,
    statement: &Statement,
    rest: &[Statement],
) -> Result<Option<Message>, Memory>
    ensures { IfOk result (λ m. m ≡ message_from facts.now statement.now.line statement.now.body rest.now) }
{
    let Body::Message { id, name, length } = &statement.body else {
        return Ok(None);
    };
    Ok(Some(Message {
        id: *id % EXTENDED,
        extended: *id >= EXTENDED,
        name: Text::copy_of(alloc, facts.message_name(*id, name.bytes()))?,
        length: *length,
        cycle: facts.cycle(*id),
        comment: Text::copy_of(alloc, facts.comment((*id, None)))?,
        signals: signals(alloc, facts, *id, rest)?,
        line: statement.line,
    }))
}

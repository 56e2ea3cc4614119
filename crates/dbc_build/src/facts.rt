//! What a list of statements says of its messages and signals.
ghost use Rattle.std.specs.Prelude.{◌≡◌, [], unwrap_or, IfOk};
ghost use Rattle.std.specs.Option.{option_copied};
ghost use Rattle.dbc_build.specs.Facts.{is_message, is_signal, comment_of, attribute_of, choices_of, value_type_of};
ghost use Rattle.dbc_build.specs.Reading.{message_name_attribute, cycle_attribute, signal_name_attribute, start_attribute, long_name, whole_in, cycle_from, initial_from, choices_from, is_float_type};
ghost use Rattle.dbc_build.specs.Tables.{is_about, Holds};

use crate::reading;
use crate::subject::Subject;
use crate::tables::Tables;
use can_model::Choice;
use cg_out::{List, Memory, Text};
use dbc_reader::{ChoicePair, Statement, Value};
use std::alloc::Global;
use std::marker::Model;

/// The attribute that is a message's long name.
const MESSAGE_NAME: &[u8] = b"SystemMessageLongSymbol";

/// The attribute that is a message's cycle.
const CYCLE: &[u8] = b"GenMsgCycleTime";

/// The attribute that is a signal's long name.
const SIGNAL_NAME: &[u8] = b"SystemSignalLongSymbol";

/// The attribute that is a signal's start value.
const START: &[u8] = b"GenSigStartValue";

/// What statements say of messages and signals, found by their names and not by walking the list;
/// contracts see the list.
#[derive(Drop)]
pub struct Facts<'a> {
    list: &'a [Statement],
    tables: Tables<'a>,
}

impl<'a> Model for Facts<'a> {
    ghost use Rattle.std.specs.Prelude.{List as Items};
    ghost use Rattle.dbc_reader.specs.declared.statement.Statement.{Statement};
    ghost use Rattle.dbc_build.specs.Tables.{Holds};

    ghost Value = { Items Statement };

    ghost view = { λ f. f.list.now };

    ghost invariant = { λ f. Holds f.tables f.list.now };
}

impl<'a> Facts<'a> {
    /// What these statements say.
    pub fn of(alloc: Global, list: &'a [Statement]) -> Result<Facts<'a>, Memory>
        ensures { IfOk result (λ f. f ≡ list.now) }
    {
        let tables = noted(alloc, list)?;
        Ok(Facts { list, tables })
    }

    /// The statements.
    pub fn list(&self) -> &'a [Statement]
        ensures { result.now ≡ self.now }
    {
        self.list
    }

    /// The name of a message that is written like this in its `BO_`.
    pub fn message_name<'b>(&'b self, id: u32, written: &'b [u8]) -> &'b [u8]
        ensures { result.now ≡ long_name written.now (attribute_of message_name_attribute (is_message id) self.now) }
    {
        let value = self.attribute(MESSAGE_NAME, (id, None));
        reading::long_name(written, value)
    }

    /// The cycle of a message, in milliseconds.
    pub fn cycle(&self, id: u32) -> Option<u32>
        ensures { result ≡ cycle_from (whole_in (attribute_of cycle_attribute (is_message id) self.now)) }
    {
        reading::cycle(self.attribute(CYCLE, (id, None)))
    }

    /// The comment on a message or a signal; empty where there is none.
    pub fn comment(&self, subject: Subject) -> &[u8]
        ensures { result.now ≡ unwrap_or (comment_of (is_about subject.entry) self.now) [] }
    {
        match self.comment_text(subject) {
            Some(text) => text.bytes(),
            None => b"",
        }
    }

    /// The name of a signal that is written like this in its `SG_`.
    pub fn signal_name<'b>(&'b self, id: u32, written: &'b [u8]) -> &'b [u8]
        ensures { result.now ≡ long_name written.now (attribute_of signal_name_attribute (is_signal id written.now) self.now) }
    {
        let value = self.attribute(SIGNAL_NAME, (id, Some(written)));
        reading::long_name(written, value)
    }

    /// The raw value at the start of a signal of this length and sign.
    pub fn initial(&self, id: u32, name: &[u8], length: u32, signed: bool) -> Option<i128>
        ensures { result ≡ initial_from length signed (whole_in (attribute_of start_attribute (is_signal id name.now) self.now)) }
    {
        let value = self.attribute(START, (id, Some(name)));
        reading::initial(length, signed, value)
    }

    /// The choices of a signal of this length and sign.
    pub fn choices(
        &self,
        alloc: Global,
        id: u32,
        name: &[u8],
        length: u32,
        signed: bool,
    ) -> Result<List<Choice>, Memory>
        ensures { IfOk result (λ c. c ≡ choices_from length signed (choices_of id name.now self.now)) }
    {
        reading::choices(alloc, length, signed, self.pairs(id, name))
    }

    /// Whether a signal is an IEEE 754 number.
    pub fn is_float(&self, id: u32, name: &[u8]) -> bool
        ensures { result ≡ is_float_type (value_type_of id name.now self.now) }
    {
        reading::is_float(self.value_type(id, name))
    }

    /// The value of an attribute of a message or a signal.
    fn attribute(&self, name: &[u8], subject: Subject) -> Option<&Value>
        ensures { option_copied result ≡ attribute_of name.now (is_about subject.entry) self.now }
    {
        let given = self.tables.attributes.get(&(name, subject)).copied();
        given.or(self.tables.defaults.get(name).copied())
    }

    fn comment_text(&self, subject: Subject) -> Option<&Text>
        ensures { option_copied result ≡ comment_of (is_about subject.entry) self.now }
    {
        self.tables.comments.get(&subject).copied()
    }

    /// The names of a signal's values.
    fn pairs(&self, id: u32, name: &[u8]) -> Option<&List<ChoicePair>>
        ensures { option_copied result ≡ choices_of id name.now self.now }
    {
        self.tables.choices.get(&(id, Some(name))).copied()
    }

    /// The number of a signal's type.
    fn value_type(&self, id: u32, name: &[u8]) -> Option<&u32>
        ensures { option_copied result ≡ value_type_of id name.now self.now }
    {
        self.tables.value_types.get(&(id, Some(name))).copied()
    }
}

/// The tables of what these statements say.
fn noted<'a>(alloc: Global, list: &'a [Statement]) -> Result<Tables<'a>, Memory>
    ensures { IfOk result (λ t. Holds t list.now) }
{
    let mut tables = Tables::new(alloc);
    for statement in list {
        tables.note(&statement.body)?;
    }
    Ok(tables)
}

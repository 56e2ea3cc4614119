//! Statements.
use can_model::MuxRange;
use cg_out::{List, Text};
use limit_fraction::Decimal;

/// A statement of a DBC text.
#[derive(Debug, Drop)]
pub struct Statement {
    /// The line of its first token, counted from 1.
    pub line: u32,
    pub body: Body,
}

/// What a statement says.
///
/// An `id` is the number of a `BO_`, with the bit that marks an extended frame; names are as
/// written in `BO_` and `SG_`.
#[derive(Debug, Drop)]
pub enum Body {
    /// A `BO_`: a message, and its length in bytes.
    Message {
        id: u32,
        name: Text,
        length: u32,
    },
    /// An `SG_`: a signal of the last `BO_` before it, its start and length in bits.
    Signal {
        name: Text,
        start: u32,
        length: u32,
        motorola: bool,
        signed: bool,
        factor: Decimal,
        offset: Decimal,
        min: Decimal,
        max: Decimal,
        unit: Text,
        receivers: List<Text>,
    },
    /// A `CM_`.
    Comment {
        target: Owner,
        text: Text,
    },
    /// A `BA_DEF_DEF_`: the value of an attribute where no `BA_` gives one.
    Default {
        name: Text,
        value: Value,
    },
    /// A `BA_`: the value of an attribute of the target.
    Attribute {
        name: Text,
        target: Owner,
        value: Value,
    },
    /// A `VAL_`: names of values of a signal, or of a variable where there is no id.
    Choices {
        id: Option<u32>,
        name: Text,
        pairs: List<ChoicePair>,
    },
    /// A `SIG_VALTYPE_`: 1 and 2 say that the signal is an IEEE 754 number.
    ValueType {
        id: u32,
        name: Text,
        number: u32,
    },
    /// An `SG_MUL_VAL_`: the values of a selector at which a multiplexed signal is there.
    Ranges {
        id: u32,
        child: Text,
        selector: Text,
        ranges: List<MuxRange>,
    },
    /// A statement of which nothing is kept.
    Skipped,
}

/// A value and its name.
#[derive(Debug, Drop)]
pub struct ChoicePair {
    pub value: Decimal,
    pub text: Text,
}

/// The value of an attribute.
#[derive(Debug, Drop)]
pub enum Value {
    Number(Decimal),
    String(Text),
    /// A word without quotes.
    Word(Text),
}

/// What a comment or an attribute is of.
#[derive(Debug, Drop)]
pub enum Owner {
    /// The whole file.
    None,
    Node(Text),
    /// The message with this id.
    Message(u32),
    /// The signal of this name in the message with this id.
    Signal(u32, Text),
    Variable(Text),
}

//! Messages and signals.
use cg_out::{List, Text};
use limit_fraction::Decimal;

/// The messages of a file, in its order.
#[derive(Debug, Drop)]
pub struct Database {
    pub messages: List<Message>,
}

/// A CAN message.
#[derive(Debug, Drop)]
pub struct Message {
    /// The frame id, without the bit that marks an extended frame.
    pub id: u32,
    /// Whether the frame is an extended one, of 29 bits, rather than a standard one of 11.
    pub extended: bool,
    pub name: Text,
    /// In bytes.
    pub length: u32,
    /// In milliseconds, where one is given.
    pub cycle: Option<u32>,
    pub comment: Text,
    pub signals: List<Signal>,
    /// The line of the text that begins it, counted from 1.
    pub line: u32,
}

/// A number that a message carries.
///
/// A raw value v stands for the physical value `v * factor + offset`.
#[derive(Debug, Drop)]
pub struct Signal {
    pub name: Text,
    /// The place of its least significant bit, for Motorola of its most significant one. Place n
    /// is bit `n % 8` of byte `n / 8`, where bit 0 is the least significant.
    pub start: u32,
    /// In bits.
    pub length: u32,
    /// Whether its bytes go from the most significant on (Motorola), or from the least (Intel).
    pub motorola: bool,
    pub signed: bool,
    /// Whether its bits are an IEEE 754 number.
    pub is_float: bool,
    pub factor: Decimal,
    pub offset: Decimal,
    /// The least physical value, where one is given.
    pub min: Option<Decimal>,
    /// The greatest physical value, where one is given.
    pub max: Option<Decimal>,
    /// The raw value at the start, where one is given.
    pub initial: Option<i128>,
    pub choices: List<Choice>,
    pub unit: Text,
    pub comment: Text,
    /// What it depends on, where it is not always there.
    pub parent: Option<Parent>,
    /// The line of the text that begins it, counted from 1.
    pub line: u32,
}

/// A raw value with a name.
#[derive(Debug, Drop)]
pub struct Choice {
    pub value: i128,
    pub name: Text,
}

/// When a multiplexed signal is there.
#[derive(Debug, Drop)]
pub struct Parent {
    /// The signal that tells, by its index in the message; none where no signal has its name.
    pub selector: Option<u32>,
    /// The values of the selector at which the signal is there.
    pub ranges: List<MuxRange>,
}

/// The values of a selector from `first` to `last`.
#[derive(Clone, Copy, Debug, PartialEq, Eq)]
pub struct MuxRange {
    pub first: u64,
    pub last: u64,
}

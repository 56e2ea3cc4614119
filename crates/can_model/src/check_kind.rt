//! What is wrong with a database.
ghost use Rattle.std.specs.Prelude.{◌≡◌};
ghost use Rattle.can_model.specs.CheckRefusal.{check_number, check_name};

/// What is wrong with a database that a text spells.
#[derive(Clone, Copy, Debug, PartialEq, Eq)]
pub enum CheckKind {
    /// An earlier message has the name.
    DuplicateMessageName,
    /// An earlier message has the frame id, in frames of the same kind.
    DuplicateMessageId,
    /// An earlier signal of the message has the name.
    DuplicateSignalName,
    /// A frame id above 2047 in a standard frame, or above 536870911 in an extended one.
    FrameIdRange,
    /// A message of more than 2048 bytes.
    MessageTooLong,
    /// A signal of no bits, or of more than 64.
    SignalLength,
    /// A bit of the signal is behind the message's last byte.
    SignalOutside,
    /// The signal shares a place with an earlier one, and both can be active.
    Overlap,
    /// The selector of a multiplexed signal is no signal of the message.
    MuxParentUnknown,
    /// A range of selector values that ends before it begins, or that the selector cannot have.
    MuxIdRange,
    /// A signal whose bits are an IEEE 754 number.
    FloatSignal,
    /// The factor or the offset is too large in the unit of the signal.
    ScaleTooWide,
    /// More messages or signals than are read.
    TooMany,
    /// A selector that is multiplexed itself, or more than one value of it.
    ExtendedMultiplexing,
    /// The signal's selectors lead back to it.
    MuxCycle,
}

impl CheckKind {
    /// The number under which reports name it.
    pub fn number(self) -> u8
        ensures { result ≡ check_number self }
    {
        match self {
            CheckKind::DuplicateMessageName => 10,
            CheckKind::DuplicateMessageId => 11,
            CheckKind::DuplicateSignalName => 12,
            CheckKind::FrameIdRange => 13,
            CheckKind::MessageTooLong => 14,
            CheckKind::SignalLength => 15,
            CheckKind::SignalOutside => 16,
            CheckKind::Overlap => 17,
            CheckKind::MuxParentUnknown => 18,
            CheckKind::MuxIdRange => 19,
            CheckKind::FloatSignal => 20,
            CheckKind::ScaleTooWide => 21,
            CheckKind::TooMany => 22,
            CheckKind::ExtendedMultiplexing => 23,
            CheckKind::MuxCycle => 24,
        }
    }

    /// The name that stands behind the number in reports.
    pub fn name(self) -> &'static str
        ensures { result.now ≡ check_name self }
    {
        match self {
            CheckKind::DuplicateMessageName => "DuplicateMessageName",
            CheckKind::DuplicateMessageId => "DuplicateMessageId",
            CheckKind::DuplicateSignalName => "DuplicateSignalName",
            CheckKind::FrameIdRange => "FrameIdRange",
            CheckKind::MessageTooLong => "MessageTooLong",
            CheckKind::SignalLength => "SignalLength",
            CheckKind::SignalOutside => "SignalOutside",
            CheckKind::Overlap => "Overlap",
            CheckKind::MuxParentUnknown => "MuxParentUnknown",
            CheckKind::MuxIdRange => "MuxIdRange",
            CheckKind::FloatSignal => "FloatSignal",
            CheckKind::ScaleTooWide => "ScaleTooWide",
            CheckKind::TooMany => "TooMany",
            CheckKind::ExtendedMultiplexing => "ExtendedMultiplexing",
            CheckKind::MuxCycle => "MuxCycle",
        }
    }

    /// What a person is told of it, in one sentence.
    pub fn message(self) -> &'static str {
        match self {
            CheckKind::DuplicateMessageName => "an earlier message has this name",
            CheckKind::DuplicateMessageId => {
                "an earlier message has this frame id in frames of the same kind"
            }
            CheckKind::DuplicateSignalName => "an earlier signal of the message has this name",
            CheckKind::FrameIdRange => {
                "a standard frame has an id up to 2047 and an extended one up to 536870911"
            }
            CheckKind::MessageTooLong => "a message has at most 2048 bytes",
            CheckKind::SignalLength => "a signal has from 1 to 64 bits",
            CheckKind::SignalOutside => "a bit of this signal is behind the message's last byte",
            CheckKind::Overlap => "this signal shares a place with an earlier one",
            CheckKind::MuxParentUnknown => "the selector of this signal is not in its message",
            CheckKind::MuxIdRange => "this signal's selector cannot have these values",
            CheckKind::FloatSignal => "signals that are IEEE 754 numbers are not read",
            CheckKind::ScaleTooWide => "the factor or the offset of this signal is too large",
            CheckKind::TooMany => {
                "a file has at most 16384 messages and 32768 signals, a message at most 4096"
            }
            CheckKind::ExtendedMultiplexing => "this form of multiplexing is not read",
            CheckKind::MuxCycle => "the selectors of this signal lead back to it",
        }
    }
}

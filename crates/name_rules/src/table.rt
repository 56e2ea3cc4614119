//! The names of a database's C text.
use cg_out::{List, Text};

/// The names that the C text of a database has. Those of one place are all different, and none
/// is reserved: the places are the file, each struct, and each function's local variables.
#[derive(Debug, Drop)]
pub struct SymbolTable {
    /// The macro that guards the header, as `CAN_H`.
    pub guard: Text,
    /// In the order of the database.
    pub messages: List<MessageNames>,
}

/// The names of a message.
#[derive(Debug, Drop)]
pub struct MessageNames {
    /// The macro of its frame id, as `CAN_PING_FRAME_ID`.
    pub frame_id: Text,
    /// The macro of its length in bytes.
    pub length: Text,
    /// The macro that says whether its frame is an extended one.
    pub extended: Text,
    /// The macro of its cycle, where it has one.
    pub cycle: Option<Text>,
    /// The tag of its struct, as `can_ping_t`.
    pub tag: Text,
    /// The function that packs the struct into a frame.
    pub pack: Text,
    /// The function that unpacks a frame into the struct.
    pub unpack: Text,
    /// The function that sets the struct to its start values.
    pub init: Text,
    /// In the order of the message.
    pub signals: List<SignalNames>,
}

/// The names of a signal.
#[derive(Debug, Drop)]
pub struct SignalNames {
    /// The field of its message's struct.
    pub field: Text,
    /// The local variable of pack and unpack that holds it, where it is signed.
    pub local: Option<Text>,
    /// The function that checks its range.
    pub range: Text,
    /// The macros of its choices, in their order.
    pub choices: List<Text>,
}

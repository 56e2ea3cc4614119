//! A sink in memory, some of whose calls fail.
ghost use Rattle.std.specs.Prelude.{◌≡◌, ◌+◌, ◌≤◌, [], ◌++◌, length, is_ok, IfOk, OnOk, OnErr, vec_len, vec_capacity};

use crate::failing::{CallLog, Failing, front};
use crate::fault::{Failed, Memory};
use crate::outside::Sink;
use std::alloc::Global;

/// A sink in memory. A write takes its bytes of the room that was reserved at the beginning, and
/// at most 64 writes are kept; one that does not fit, or whose number is in `failing`, is a fault.
#[derive(Drop)]
pub struct MemorySink {
    bytes: Vec<u8>,
    room: usize,
    places: u32,
    log: CallLog,
    ghost reserved: { vec_len bytes + room ≤ vec_capacity bytes },
}

impl MemorySink {
    ghost use Rattle.cg_out.specs.MemorySink.{sink_bytes, sink_space, sink_history};

    /// An empty sink with room for so many bytes.
    pub fn new(alloc: Global, room: usize, failing: &[Failing]) -> Result<MemorySink, Memory>
        ensures bytes { IfOk result (λ s. sink_bytes s ≡ []) }
        ensures history { IfOk result (λ s. sink_history s ≡ record { failing = failing.now; calls = 0; faults = 0 }) }
        ensures space { IfOk result (λ s. sink_space s ≡ record { bytes = room; writes = 64 }) }
    {
        Ok(MemorySink {
            bytes: Vec::with_capacity(alloc, room)?,
            room,
            places: 64,
            log: CallLog::new(alloc, failing)?,
        })
    }

    /// Lends what was written; takes no memory.
    pub fn bytes(&self) -> &[u8]
        ensures { result.now ≡ sink_bytes self.now }
    {
        self.bytes.as_slice()
    }
}

impl Sink for MemorySink {
    ghost use Rattle.std.specs.Prelude.{List, ℕ};
    ghost use Rattle.cg_out.specs.Outside.{HasCause, CountsCall, IsFront, IfTold};
    ghost use Rattle.cg_out.specs.InMemory.{after_call, after_write, succeeds};
    ghost use Rattle.cg_out.specs.MemorySink.{sink_bytes, sink_space, sink_history, sink_seen, bytes_after};

    ghost seen = { sink_seen };

    fn write(&mut self, bytes: &[u8]) -> Result<(), Failed>
        ensures ok { OnOk result (IfTold (sink_seen self.old).written (sink_seen self.new).written (λ a b. b ≡ a ++ bytes.now)) }
        ensures err { OnErr result (IfTold (sink_seen self.old).written (sink_seen self.new).written (λ a b. (front : List ℕ) × IsFront front bytes.now × (b ≡ a ++ front))) }
        ensures cause { HasCause (sink_seen self.old).faults (sink_seen self.new).faults result }
        ensures calls { CountsCall (sink_seen self.old).calls (sink_seen self.new).calls }

        // A write that fits takes its room, whether its call fails or not, and no other one changes anything.
        ensures success { is_ok result ≡ succeeds (sink_space self.old) (length bytes.now) (sink_history self.old) }
        ensures left { sink_bytes self.new ≡ bytes_after (sink_bytes self.old) (sink_space self.old) (sink_history self.old) bytes.now }
        ensures space { sink_space self.new ≡ after_write (sink_space self.old) (length bytes.now) }
        ensures history { sink_history self.new ≡ after_call (sink_history self.old) (is_ok result) }
    {
        let keep = self.log.begin();
        if self.places == 0 || bytes.len() > self.room {
            self.log.fail();
            return Err(Failed);
        }
        self.places -= 1;
        self.room -= bytes.len();
        match keep {
            None => {
                self.bytes.extend_from_slice(bytes).unwrap();
                Ok(())
            }
            Some(keep) => {
                self.bytes.extend_from_slice(front(bytes, keep)).unwrap();
                self.log.fail();
                Err(Failed)
            }
        }
    }
    /// Does nothing, since there is no person.
    fn explain(&mut self, _file: &[u8], _line: u32, _column: Option<u32>, _message: &str)
        ensures told { sink_seen self.new ≡ sink_seen self.old }
        ensures same { self.new ≡ self.old }
    {}
}

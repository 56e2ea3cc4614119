//! Which calls of an object in memory are to fail.
ghost use Rattle.std.specs.Prelude.{◌≡◌, ◌≤◌, IfOk, length, take};

use crate::fault::Memory;
use std::alloc::Global;

/// The call of this number, counted from 1, is to fail; where it writes, it keeps the first
/// `keep` bytes. Of equal numbers the first counts.
#[derive(Clone, Copy, Debug, PartialEq, Eq)]
pub struct Failing {
    pub call: u64,
    pub keep: usize,
}

/// The calls that are to fail, how many there were, and how many failed.
#[derive(Drop)]
pub struct CallLog {
    failing: Vec<Failing>,
    calls: u64,
    faults: u64,
}

impl CallLog {
    ghost use Rattle.cg_out.specs.InMemory.{keep_of, history_of, one_more};
    ghost use Rattle.cg_out.specs.Outside.{Rose};

    pub fn new(alloc: Global, failing: &[Failing]) -> Result<CallLog, Memory>
        ensures { IfOk result (λ log. history_of log ≡ record { failing = failing.now; calls = 0; faults = 0 }) }
    {
        Ok(CallLog {
            failing: Vec::from_slice(alloc, failing)?,
            calls: 0,
            faults: 0,
        })
    }

    /// Counts a call, and says what it keeps where it is to fail.
    pub fn begin(&mut self) -> Option<usize>
        ensures keep { result ≡ keep_of self.old.failing.items self.new.calls }
        ensures counted { self.new ≡ record self.old { calls = one_more self.old.calls } }
    {
        self.calls = self.calls.saturating_add(1);
        let call = self.calls;
        self.failing.iter().find(|f| f.call == call).map(|f| f.keep)
    }

    /// Counts a fault.
    #[tactic(auto, using(crate::proofs::Counts::rose_one_more))]
    pub fn fail(&mut self)
        ensures counted { self.new ≡ record self.old { faults = one_more self.old.faults } }
        ensures later { self.old.faults ≤ self.new.faults }
        ensures rose { Rose self.old.faults self.new.faults }
    {
        self.faults = self.faults.saturating_add(1);
    }
}

/// The first so many bytes, or all of fewer.
pub fn front(bytes: &[u8], count: usize) -> &[u8]
    ensures value { result.now ≡ take count bytes.now }
    ensures within { length result.now ≤ length bytes.now }
{
    if bytes.len() > count {
        &bytes[..count]
    } else {
        bytes
    }
}

//! Why execution does not go on.
use c_effect::Stop;
use cg_out::Memory;
use std::alloc::{AllocError, AllocFailed};

/// Undefined behaviour, or want of memory.
#[derive(Clone, Copy, Debug, PartialEq, Eq)]
pub enum Halt {
    Stopped(Stop),
    Memory,
}

impl From<Stop> for Halt {
    ghost use Rattle.std.specs.Prelude.{◌≡◌};
    ghost use Rattle.c_exec.specs.declared.halt.Halt.TheVariants as halt;

    ghost from_gives = { λ s h. h ≡ halt.Stopped s };

    fn from(stop: Stop) -> Halt {
        Halt::Stopped(stop)
    }
}

impl From<Memory> for Halt {
    ghost use Rattle.std.specs.Prelude.{◌≡◌};
    ghost use Rattle.c_exec.specs.declared.halt.Halt.TheVariants as halt;

    ghost from_gives = { λ _ h. h ≡ halt.Memory };

    fn from(_e: Memory) -> Halt {
        Halt::Memory
    }
}

impl From<AllocError> for Halt {
    ghost use Rattle.std.specs.Prelude.{◌≡◌};
    ghost use Rattle.c_exec.specs.declared.halt.Halt.TheVariants as halt;

    ghost from_gives = { λ _ h. h ≡ halt.Memory };

    fn from(_e: AllocError) -> Halt {
        Halt::Memory
    }
}

impl<T: Drop> From<AllocFailed<T>> for Halt {
    ghost use Rattle.std.specs.Prelude.{◌≡◌};
    ghost use Rattle.c_exec.specs.declared.halt.Halt.TheVariants as halt;

    ghost from_gives = { λ _ h. h ≡ halt.Memory };

    fn from(_e: AllocFailed<T>) -> Halt {
        Halt::Memory
    }
}

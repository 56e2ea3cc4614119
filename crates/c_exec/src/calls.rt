//! What calls of functions give.
ghost use Rattle.c_effect.specs.World.{no_calls};
ghost use Rattle.c_exec.specs.Answers.{Gives};

use crate::halt::Halt;
use c_effect::{Stop, TypedValue, Undefined};
use c_mean::Place;
use std::alloc::Global;

/// A meaning of calls, and code that gives it.
pub trait Calls {
    ghost use Rattle.c_effect.specs.World as spec;

    ghost meaning: { Self → spec.Calls };

    /// Calls a function, at a place of the caller.
    fn call(
        &self,
        alloc: Global,
        place: Place,
        function: &[u8],
        args: &[TypedValue],
    ) -> Result<Option<TypedValue>, Halt>
        ensures { Gives result (meaning self.now place function.now args.now) };
}

/// There are no functions.
#[derive(Clone, Copy, Debug)]
pub struct NoCalls;

impl Calls for NoCalls {
    ghost meaning = { λ _. no_calls };

    fn call(
        &self,
        _alloc: Global,
        place: Place,
        _function: &[u8],
        _args: &[TypedValue],
    ) -> Result<Option<TypedValue>, Halt> {
        Err(Halt::Stopped(Stop {
            kind: Undefined::Indeterminate,
            place,
        }))
    }
}

//! Why a call failed.
use std::alloc::{AllocError, AllocFailed};
use thiserror::Error;

/// Memory ran out; no call ties this answer to how much there was.
#[derive(Clone, Copy, Debug, PartialEq, Eq, Error)]
#[error("memory ran out")]
pub struct Memory;

/// The outside failed; the count of faults of the object that answers it rose.
#[derive(Clone, Copy, Debug, PartialEq, Eq, Error)]
#[error("the outside failed")]
pub struct Failed;

/// Why a file was not read.
#[derive(Clone, Copy, Debug, PartialEq, Eq, Error)]
pub enum ReadFault {
    /// The files are told, and none has the name.
    #[error("there is no such file")]
    Absent,
    /// The outside failed; the count of faults rose.
    #[error("the outside failed")]
    Failed,
    /// Memory ran out.
    #[error("memory ran out")]
    Memory,
}

impl From<AllocError> for Memory {
    fn from(_e: AllocError) -> Memory {
        Memory
    }
}

impl<T: Drop> From<AllocFailed<T>> for Memory {
    fn from(_e: AllocFailed<T>) -> Memory {
        Memory
    }
}

use std::alloc::{AllocError, AllocFailed};
use std::fmt;
use thiserror::Error;

/// Memory ran out: an allocation that the call needed was refused.
#[derive(Clone, Copy, Debug, PartialEq, Eq, Error)]
pub struct Memory;

impl fmt::Display for Memory {
    fn fmt<W: fmt::Write>(&self, f: &mut fmt::Formatter<W>) -> fmt::Result {
        fmt::Debug::fmt(self, f)
    }
}

impl From<AllocError> for Memory {
    fn from(_refused: AllocError) -> Memory {
        Memory
    }
}

impl<T: Drop> From<AllocFailed<T>> for Memory {
    fn from(_refused: AllocFailed<T>) -> Memory {
        Memory
    }
}

use std::fmt;
use thiserror::Error;

/// Why a book was not answered to its end.
#[derive(Clone, Copy, Debug, PartialEq, Eq, Error)]
pub enum BookFault {
    /// The first line begins no book, or the input ends before it does. This was answered.
    Line,
    /// The reader failed.
    Read,
    /// The writer failed.
    Write,
}

impl fmt::Display for BookFault {
    fn fmt<W: fmt::Write>(&self, f: &mut fmt::Formatter<W>) -> fmt::Result {
        fmt::Debug::fmt(self, f)
    }
}

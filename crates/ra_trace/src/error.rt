use ra_world::RunError;
use std::fmt;
use thiserror::Error;

/// Why a text was not checked.
#[derive(Clone, Copy, Debug, PartialEq, Eq, Error)]
pub enum TraceError {
    /// The reader failed.
    Read,
    /// The text has more bytes than it may have: 16,777,216 for `check`.
    Limit,
    /// Memory ran out.
    Memory,
}

impl fmt::Display for TraceError {
    fn fmt<W: fmt::Write>(&self, f: &mut fmt::Formatter<W>) -> fmt::Result {
        fmt::Debug::fmt(self, f)
    }
}

/// Why a trace was not written.
#[derive(Clone, Copy, Debug, PartialEq, Eq, Error)]
pub enum WriteTraceError {
    /// The steps are not a run: the number of nodes is not 1 to 64, or a step is refused. Never that memory ran out.
    Run(RunError),
    /// Memory ran out.
    Memory,
    /// The writer failed or took nothing, with bytes left to write.
    Write,
}

// By hand, since a derived one takes twice as long to prove.
impl fmt::Display for WriteTraceError {
    /// Prints one word: the word of the inner refusal, or the name of the variant.
    fn fmt<W: fmt::Write>(&self, f: &mut fmt::Formatter<W>) -> fmt::Result {
        match self {
            WriteTraceError::Run(refusal) => fmt::Display::fmt(refusal, f),
            _ => fmt::Debug::fmt(self, f),
        }
    }
}

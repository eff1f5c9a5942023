use std::fmt;
use thiserror::Error;

/// Why a client may not ask.
#[derive(Clone, Copy, Debug, PartialEq, Eq, Error)]
pub enum AskError {
    /// The client waits, is queued or holds on that name at this node.
    Busy,
    /// No number is left for the name.
    Exhausted,
    /// Memory ran out.
    Memory,
}

impl fmt::Display for AskError {
    fn fmt<W: fmt::Write>(&self, f: &mut fmt::Formatter<W>) -> fmt::Result {
        fmt::Debug::fmt(self, f)
    }
}

/// Why a client did not leave.
#[derive(Clone, Copy, Debug, PartialEq, Eq, Error)]
pub enum LeaveError {
    /// The client does not hold the name at this node.
    NotHeld,
    /// Memory ran out.
    Memory,
}

impl fmt::Display for LeaveError {
    fn fmt<W: fmt::Write>(&self, f: &mut fmt::Formatter<W>) -> fmt::Result {
        fmt::Debug::fmt(self, f)
    }
}

/// Why a client did not give up.
#[derive(Clone, Copy, Debug, PartialEq, Eq, Error)]
pub enum CancelError {
    /// The client neither waits nor is queued for the name at this node.
    NotWaiting,
    /// Memory ran out.
    Memory,
}

impl fmt::Display for CancelError {
    fn fmt<W: fmt::Write>(&self, f: &mut fmt::Formatter<W>) -> fmt::Result {
        fmt::Debug::fmt(self, f)
    }
}

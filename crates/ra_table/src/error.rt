use std::fmt;
use thiserror::Error;

/// Why a request was refused.
#[derive(Clone, Copy, Debug, PartialEq, Eq, Error)]
pub enum RequestError {
    /// The entry's node waits or holds on its name.
    NodeBusy,
    /// The entry's number is not above the number of each entry granted so far on its name.
    NotAbove,
    /// Memory ran out.
    Memory,
}

impl fmt::Display for RequestError {
    fn fmt<W: fmt::Write>(&self, f: &mut fmt::Formatter<W>) -> fmt::Result {
        fmt::Debug::fmt(self, f)
    }
}

/// Why an entry was not granted.
#[derive(Clone, Copy, Debug, PartialEq, Eq, Error)]
pub enum EnterError {
    /// The entry does not wait.
    NotWaiting,
    /// A conflicting entry on the name holds.
    Held,
    /// A conflicting entry on the name with an earlier stamp waits.
    Earlier,
    /// Memory ran out.
    Memory,
}

impl fmt::Display for EnterError {
    fn fmt<W: fmt::Write>(&self, f: &mut fmt::Formatter<W>) -> fmt::Result {
        fmt::Debug::fmt(self, f)
    }
}

/// Why an entry was not given back.
#[derive(Clone, Copy, Debug, PartialEq, Eq, Error)]
pub enum LeaveError {
    /// The entry does not hold.
    NotHeld,
}

impl fmt::Display for LeaveError {
    fn fmt<W: fmt::Write>(&self, f: &mut fmt::Formatter<W>) -> fmt::Result {
        fmt::Debug::fmt(self, f)
    }
}

/// Why an entry was not withdrawn.
#[derive(Clone, Copy, Debug, PartialEq, Eq, Error)]
pub enum WithdrawError {
    /// The entry does not wait.
    NotWaiting,
}

impl fmt::Display for WithdrawError {
    fn fmt<W: fmt::Write>(&self, f: &mut fmt::Formatter<W>) -> fmt::Result {
        fmt::Debug::fmt(self, f)
    }
}

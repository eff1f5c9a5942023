use std::fmt;
use thiserror::Error;

/// Why a line of a mark log is wrong. All but the first are the lock table's own.
#[derive(Clone, Copy, Debug, PartialEq, Eq, Error)]
pub enum MarkCause {
    /// It is the line of no mark, or has no line feed.
    Line,
    /// A request, and its node waits or holds on its name.
    NodeBusy,
    /// A request whose number is not above that of each entry granted so far on its name.
    NotAbove,
    /// A grant or a withdrawal of an entry that does not wait.
    NotWaiting,
    /// A grant, and a conflicting entry on its name holds.
    Held,
    /// A grant, and a conflicting entry on its name with an earlier stamp waits.
    Earlier,
    /// A release of an entry that does not hold.
    NotHeld,
}

// By hand, since a derived one takes ten times as long to prove.
impl fmt::Display for MarkCause {
    /// Prints the name of the variant.
    fn fmt<W: fmt::Write>(&self, f: &mut fmt::Formatter<W>) -> fmt::Result {
        fmt::Debug::fmt(self, f)
    }
}

/// What is said of a mark log.
#[derive(Clone, Copy, Debug, PartialEq, Eq)]
pub enum MarksVerdict {
    /// The marks are a run of the lock table.
    Valid {
        /// How many requests were made.
        requests: u64,
        /// How many of them were granted.
        grants: u64,
    },
    /// A line is wrong, the first one that is.
    Invalid {
        /// Which, counted from 1.
        line: u64,
        /// Why.
        cause: MarkCause,
    },
}

use std::fmt;
use thiserror::Error;

/// Why a line of a trace is wrong.
#[derive(Clone, Copy, Debug, PartialEq, Eq, Error)]
pub enum Cause {
    /// It has none of the forms of a line of the trace's version, each field in its range, or no line feed, or is where
    /// it may not be: the first line is another one or comes again, or something is left after the last one.
    Line,
    /// The world refuses an ask or a release.
    Refused,
    /// A message that is delivered, lost or repeated is not under way.
    NotUnderWay,
    /// It is not the message that the step before sends next, or one that this step sends has not been told.
    Sends,
    /// It is not the mark that comes next, or a mark of the step before has not come.
    Marks,
    /// The lock table refuses the mark.
    Table,
}

// By hand, since a derived one takes ten times as long to prove.
impl fmt::Display for Cause {
    /// Prints the name of the variant.
    fn fmt<W: fmt::Write>(&self, f: &mut fmt::Formatter<W>) -> fmt::Result {
        fmt::Debug::fmt(self, f)
    }
}

/// What a checker says of a text.
#[derive(Clone, Copy, Debug, PartialEq, Eq)]
pub enum Verdict {
    /// It is the trace of a run.
    Valid {
        /// How many requests were made.
        requests: u128,
        /// How many messages were sent, copies not counted.
        messages: u128,
    },
    /// A line is wrong, the first one that is.
    Invalid {
        /// Which, counted from 1.
        line: u64,
        /// Why.
        cause: Cause,
    },
}

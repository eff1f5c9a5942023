use ra_book::BookError;
use std::fmt;
use thiserror::Error;

/// The cluster has no such other host.
#[derive(Clone, Copy, Debug, PartialEq, Eq, Error)]
pub struct NoHost;

impl fmt::Display for NoHost {
    fn fmt<W: fmt::Write>(&self, f: &mut fmt::Formatter<W>) -> fmt::Result {
        fmt::Debug::fmt(self, f)
    }
}

/// 2^64-1 frames of a host came, and no more can be counted.
#[derive(Clone, Copy, Debug, PartialEq, Eq, Error)]
pub struct TooMany;

impl fmt::Display for TooMany {
    fn fmt<W: fmt::Write>(&self, f: &mut fmt::Formatter<W>) -> fmt::Result {
        fmt::Debug::fmt(self, f)
    }
}

/// Why a count of another host was not taken. The causes are looked for in this order.
#[derive(Clone, Copy, Debug, PartialEq, Eq, Error)]
pub enum CountError {
    /// The cluster has no such other host.
    NoHost,
    /// The count shows that this host's book is old: the host has to end.
    OldBook,
}

impl fmt::Display for CountError {
    fn fmt<W: fmt::Write>(&self, f: &mut fmt::Formatter<W>) -> fmt::Result {
        fmt::Debug::fmt(self, f)
    }
}

/// Why an event did not happen. The causes are looked for in this order.
#[derive(Clone, Copy, Debug, PartialEq, Eq, Error)]
pub enum EventError {
    /// The frame is not the next one of that host, or the cluster has no such other host.
    NotNext,
    /// For some host fewer than 128 numbers of frames are left.
    Full,
    /// The node refuses it, no clock is left for it, or memory ran out.
    Refused(BookError),
}

impl fmt::Display for EventError {
    /// Prints one word: that of the refusal, or the name of the variant.
    fn fmt<W: fmt::Write>(&self, f: &mut fmt::Formatter<W>) -> fmt::Result {
        match self {
            EventError::Refused(why) => fmt::Display::fmt(why, f),
            _ => fmt::Debug::fmt(self, f),
        }
    }
}

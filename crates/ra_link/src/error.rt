use std::fmt;
use thiserror::Error;

/// The book of this host is old: a count of the other host shows that it lacks frames that were on its disk. The host
/// has to end.
#[derive(Clone, Copy, Debug, PartialEq, Eq, Error)]
pub struct OldBook;

impl fmt::Display for OldBook {
    fn fmt<W: fmt::Write>(&self, f: &mut fmt::Formatter<W>) -> fmt::Result {
        fmt::Debug::fmt(self, f)
    }
}

/// Why no frame was made.
#[derive(Clone, Copy, Debug, PartialEq, Eq, Error)]
pub enum MakeError {
    /// The host is not ready.
    NotReady,
    /// No number is left: 2^64-1 frames were made for the other host.
    Full,
}

impl fmt::Display for MakeError {
    fn fmt<W: fmt::Write>(&self, f: &mut fmt::Formatter<W>) -> fmt::Result {
        fmt::Debug::fmt(self, f)
    }
}

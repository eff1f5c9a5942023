use std::fmt;
use thiserror::Error;

/// Why a node is stopped. It prints as its name.
#[derive(Clone, Copy, Debug, PartialEq, Eq, Error)]
pub enum Stop {
    /// Memory ran out.
    Memory,
    /// A frame could not be sent.
    Send,
    /// An event's clock would pass 2^62.
    Clock,
    /// No number is left for a name.
    Exhausted,
    /// Bytes that came are no frame.
    Frame,
    /// A node refused what it was asked or handed.
    Refused,
    /// The gate, which watches the steps of the cluster, stopped it.
    Gate,
    /// A thread could not be started.
    Spawn,
}

impl fmt::Display for Stop {
    /// Prints the name of the variant.
    fn fmt<W: fmt::Write>(&self, f: &mut fmt::Formatter<W>) -> fmt::Result {
        fmt::Debug::fmt(self, f)
    }
}

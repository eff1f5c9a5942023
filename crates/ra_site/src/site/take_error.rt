ghost use Rattle.std.specs.Prelude.{◌≡◌};
ghost use Rattle.ra_site.specs.declared.site.take_error.TakeError.TheVariants as take;

use ra_stamp::Memory;
use std::fmt;
use thiserror::Error;

/// Why an auditor did not take events of a node.
#[derive(Clone, Copy, Debug, PartialEq, Eq, Error)]
pub enum TakeError {
    /// The cluster has no such node.
    NoNode,
    /// The last event of the node that was taken is another one.
    OutOfTurn,
    /// The events can't be the next ones of the node: a clock does not follow the one before, or a frame is for
    /// another node.
    NotNext,
    /// Memory ran out.
    Memory,
}

impl fmt::Display for TakeError {
    fn fmt<W: fmt::Write>(&self, f: &mut fmt::Formatter<W>) -> fmt::Result {
        fmt::Debug::fmt(self, f)
    }
}

impl From<Memory> for TakeError {
    ghost from_gives = { λ _ e. e ≡ take.Memory };

    fn from(_refused: Memory) -> TakeError {
        TakeError::Memory
    }
}

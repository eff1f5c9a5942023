ghost use Rattle.std.specs.Prelude.{◌≡◌};

use ra_frame::FrameError;
use ra_node::{AskError, CancelError, LeaveError, ReceiveError};
use ra_stamp::Memory;
use std::fmt;
use thiserror::Error;

/// Why an event was refused. The causes are looked for in this order.
#[derive(Clone, Copy, Debug, PartialEq, Eq, Error)]
pub enum BookError {
    /// The book has a fault.
    Failed,
    /// The bytes are no frame.
    Frame(FrameError),
    /// The client that asks waits, is queued or holds on that name here.
    Busy,
    /// No number is left for the name.
    Exhausted,
    /// The client that leaves does not hold the name here.
    NotHeld,
    /// The client that gives up neither waits nor is queued for the name here.
    NotWaiting,
    /// The frame is for another node.
    WrongNode,
    /// The frame's sender is this node or above the number of nodes.
    Stranger,
    /// The event's clock would pass 2^62.
    ClockFull,
    /// Memory ran out.
    Memory,
}

impl fmt::Display for BookError {
    /// Prints one word: the word of the frame's fault, or the name of the variant.
    fn fmt<W: fmt::Write>(&self, f: &mut fmt::Formatter<W>) -> fmt::Result {
        match self {
            BookError::Frame(fault) => fmt::Display::fmt(fault, f),
            _ => fmt::Debug::fmt(self, f),
        }
    }
}

impl From<AskError> for BookError {
    ghost use Rattle.ra_book.specs.Refused.{refusal_of_ask};

    ghost from_gives = { λ refused fault. fault ≡ refusal_of_ask refused };

    fn from(refused: AskError) -> BookError {
        match refused {
            AskError::Busy => BookError::Busy,
            AskError::Exhausted => BookError::Exhausted,
            AskError::Memory => BookError::Memory,
        }
    }
}

impl From<LeaveError> for BookError {
    ghost use Rattle.ra_book.specs.Refused.{refusal_of_leave};

    ghost from_gives = { λ refused fault. fault ≡ refusal_of_leave refused };

    fn from(refused: LeaveError) -> BookError {
        match refused {
            LeaveError::NotHeld => BookError::NotHeld,
            LeaveError::Memory => BookError::Memory,
        }
    }
}

impl From<CancelError> for BookError {
    ghost use Rattle.ra_book.specs.Refused.{refusal_of_cancel};

    ghost from_gives = { λ refused fault. fault ≡ refusal_of_cancel refused };

    fn from(refused: CancelError) -> BookError {
        match refused {
            CancelError::NotWaiting => BookError::NotWaiting,
            CancelError::Memory => BookError::Memory,
        }
    }
}

impl From<ReceiveError> for BookError {
    ghost use Rattle.ra_book.specs.Refused.{refusal_of_receive};

    ghost from_gives = { λ refused fault. fault ≡ refusal_of_receive refused };

    fn from(refused: ReceiveError) -> BookError {
        match refused {
            ReceiveError::WrongNode => BookError::WrongNode,
            ReceiveError::Stranger => BookError::Stranger,
            ReceiveError::Memory => BookError::Memory,
        }
    }
}

/// Why a frame was not flagged as lost.
#[derive(Clone, Copy, Debug, PartialEq, Eq, Error)]
pub enum MarkLostError {
    /// It is not among the sent frames.
    NotSent,
    /// It was flagged before.
    AlreadyLost,
}

impl fmt::Display for MarkLostError {
    fn fmt<W: fmt::Write>(&self, f: &mut fmt::Formatter<W>) -> fmt::Result {
        fmt::Debug::fmt(self, f)
    }
}

/// Why books did not settle. The causes are looked for in this order.
#[derive(Clone, Copy, Debug, PartialEq, Eq, Error)]
pub enum SettleError {
    /// A frame came that is not among the frames that its sender sent and that were not lost.
    NotSent,
    /// A message came twice.
    Twice,
    /// A grant's entry was never granted at its node.
    GrantMissing,
    /// Two grants are equal.
    GrantTwice,
    /// Memory ran out.
    Memory,
}

impl fmt::Display for SettleError {
    /// Prints the name of the variant.
    fn fmt<W: fmt::Write>(&self, f: &mut fmt::Formatter<W>) -> fmt::Result {
        fmt::Debug::fmt(self, f)
    }
}

impl From<Memory> for SettleError {
    ghost use Rattle.ra_book.specs.declared.error.SettleError.TheVariants.{Memory};

    ghost from_gives = { λ _ fault. fault ≡ Memory };

    fn from(_refused: Memory) -> SettleError {
        SettleError::Memory
    }
}

ghost use Rattle.std.specs.Prelude.{◌≡◌, ◌≢◌};
ghost use Rattle.ra_world.specs.declared.error.NewError.TheVariants as new;
ghost use Rattle.ra_world.specs.declared.error.StepError.TheVariants as step;

use ra_node::{AskError, CancelError, LeaveError};
use ra_stamp::Memory;
use std::fmt;
use thiserror::Error;

/// Why there is no world.
#[derive(Clone, Copy, Debug, PartialEq, Eq, Error)]
pub enum NewError {
    /// The number of nodes is not 1 to 64.
    BadCount,
    /// Memory ran out.
    Memory,
}

impl fmt::Display for NewError {
    fn fmt<W: fmt::Write>(&self, f: &mut fmt::Formatter<W>) -> fmt::Result {
        fmt::Debug::fmt(self, f)
    }
}

/// Why a node refuses what its client wants.
#[derive(Clone, Copy, Debug, PartialEq, Eq, Error)]
pub enum NodeRefusal {
    /// The client that asks waits, is queued or holds on that name at this node.
    Busy,
    /// No number is left for the name.
    Exhausted,
    /// The client that leaves does not hold the name at this node.
    NotHeld,
    /// The client that gives up neither waits nor is queued for the name at this node.
    NotWaiting,
}

impl fmt::Display for NodeRefusal {
    fn fmt<W: fmt::Write>(&self, f: &mut fmt::Formatter<W>) -> fmt::Result {
        fmt::Debug::fmt(self, f)
    }
}

/// Why a step was not made. The causes are looked for in this order.
#[derive(Clone, Copy, Debug, PartialEq, Eq, Error)]
pub enum StepError {
    /// An ask, a leave, a cancel or a forget names a node above the number of nodes.
    NoNode,
    /// A message that is to be delivered, lost or repeated is not under way.
    NotUnderWay,
    /// The node refuses it.
    Node(NodeRefusal),
    /// Memory ran out.
    Memory,
}

impl fmt::Display for StepError {
    fn fmt<W: fmt::Write>(&self, f: &mut fmt::Formatter<W>) -> fmt::Result {
        match self {
            StepError::Node(refusal) => fmt::Display::fmt(refusal, f),
            cause => fmt::Debug::fmt(cause, f),
        }
    }
}

/// Why a list of steps gave no report.
#[derive(Clone, Copy, Debug, PartialEq, Eq, Error)]
pub enum RunError {
    /// The number of nodes is not 1 to 64.
    BadCount,
    /// A step was refused, the first one that is: its place in the list, counted from 1, and the cause.
    Refused {
        /// The place, 1 or more.
        place: u64,
        /// Why, never that memory ran out.
        cause: StepError,
    },
    /// Memory ran out.
    Memory,
}

impl fmt::Display for RunError {
    fn fmt<W: fmt::Write>(&self, f: &mut fmt::Formatter<W>) -> fmt::Result {
        match self {
            RunError::Refused { cause, .. } => fmt::Display::fmt(cause, f),
            end => fmt::Debug::fmt(end, f),
        }
    }
}

impl From<Memory> for NewError {
    ghost from_gives = { λ _ e. e ≡ new.Memory };

    fn from(_refused: Memory) -> NewError {
        NewError::Memory
    }
}

impl RunError {
    /// Returns why a run ends at the step of this place, counted from 1, which is refused for this cause.
    pub fn at(place: u64, cause: StepError) -> RunError
        ensures memory { cause ≡ StepError.Memory → result ≡ RunError.Memory }
        ensures refused { cause ≢ StepError.Memory → result ≡ RunError.Refused place cause }
    {
        match cause {
            StepError::Memory => RunError::Memory,
            cause => RunError::Refused { place, cause },
        }
    }
}

impl From<NewError> for RunError {
    ghost use Rattle.ra_world.specs.Refused.{refusal_of_new};

    ghost from_gives = { λ a e. e ≡ refusal_of_new a };

    fn from(refused: NewError) -> RunError {
        match refused {
            NewError::BadCount => RunError::BadCount,
            NewError::Memory => RunError::Memory,
        }
    }
}

impl From<Memory> for StepError {
    ghost from_gives = { λ _ e. e ≡ step.Memory };

    fn from(_refused: Memory) -> StepError {
        StepError::Memory
    }
}

impl From<AskError> for StepError {
    ghost use Rattle.ra_world.specs.Refused.{refusal_of_ask};

    ghost from_gives = { λ a e. e ≡ refusal_of_ask a };

    fn from(refused: AskError) -> StepError {
        match refused {
            AskError::Busy => StepError::Node(NodeRefusal::Busy),
            AskError::Exhausted => StepError::Node(NodeRefusal::Exhausted),
            AskError::Memory => StepError::Memory,
        }
    }
}

impl From<LeaveError> for StepError {
    ghost use Rattle.ra_world.specs.Refused.{refusal_of_leave};

    ghost from_gives = { λ a e. e ≡ refusal_of_leave a };

    fn from(refused: LeaveError) -> StepError {
        match refused {
            LeaveError::NotHeld => StepError::Node(NodeRefusal::NotHeld),
            LeaveError::Memory => StepError::Memory,
        }
    }
}

impl From<CancelError> for StepError {
    ghost use Rattle.ra_world.specs.Refused.{refusal_of_cancel};

    ghost from_gives = { λ a e. e ≡ refusal_of_cancel a };

    fn from(refused: CancelError) -> StepError {
        match refused {
            CancelError::NotWaiting => StepError::Node(NodeRefusal::NotWaiting),
            CancelError::Memory => StepError::Memory,
        }
    }
}

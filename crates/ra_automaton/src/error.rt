ghost use Rattle.std.specs.Prelude.{◌≡◌};

use ra_stamp::MemberError;
use std::fmt;
use thiserror::Error;

/// Why no automaton was made, and no node that keeps some.
#[derive(Clone, Copy, Debug, PartialEq, Eq, Error)]
pub enum NewError {
    /// The number of nodes is not 1 to 64.
    BadCount,
    /// The node's number is above the number of nodes.
    BadNode,
    /// Memory ran out. No call answers this yet, since what is made takes no memory before it grows.
    Memory,
}

impl fmt::Display for NewError {
    fn fmt<W: fmt::Write>(&self, f: &mut fmt::Formatter<W>) -> fmt::Result {
        fmt::Debug::fmt(self, f)
    }
}

/// It says the same of a node that is no member.
impl From<MemberError> for NewError {
    ghost use Rattle.ra_automaton.specs.Members.{new_error_of};

    ghost from_gives = { λ refused error. error ≡ new_error_of refused };

    fn from(refused: MemberError) -> NewError {
        match refused {
            MemberError::BadCount => NewError::BadCount,
            MemberError::BadNode => NewError::BadNode,
        }
    }
}

/// Why no request was made.
#[derive(Clone, Copy, Debug, PartialEq, Eq, Error)]
pub enum RequestError {
    /// The node waits or is inside already.
    NotIdle,
    /// No number is left.
    Exhausted,
    /// Memory ran out.
    Memory,
}

impl fmt::Display for RequestError {
    fn fmt<W: fmt::Write>(&self, f: &mut fmt::Formatter<W>) -> fmt::Result {
        fmt::Debug::fmt(self, f)
    }
}

/// Why a message was not taken.
#[derive(Clone, Copy, Debug, PartialEq, Eq, Error)]
pub enum ReceiveError {
    /// It is for another node.
    WrongNode,
    /// Its sender is this node, or there is no such node.
    Stranger,
    /// Memory ran out.
    Memory,
}

impl fmt::Display for ReceiveError {
    fn fmt<W: fmt::Write>(&self, f: &mut fmt::Formatter<W>) -> fmt::Result {
        fmt::Debug::fmt(self, f)
    }
}

/// Why the node did not leave.
#[derive(Clone, Copy, Debug, PartialEq, Eq, Error)]
pub enum LeaveError {
    /// It is not inside.
    NotHeld,
    /// Memory ran out.
    Memory,
}

impl fmt::Display for LeaveError {
    fn fmt<W: fmt::Write>(&self, f: &mut fmt::Formatter<W>) -> fmt::Result {
        fmt::Debug::fmt(self, f)
    }
}

/// Why no request was withdrawn.
#[derive(Clone, Copy, Debug, PartialEq, Eq, Error)]
pub enum WithdrawError {
    /// The node does not wait.
    NotWaiting,
    /// Memory ran out.
    Memory,
}

impl fmt::Display for WithdrawError {
    fn fmt<W: fmt::Write>(&self, f: &mut fmt::Formatter<W>) -> fmt::Result {
        fmt::Debug::fmt(self, f)
    }
}

ghost use Rattle.std.specs.Prelude.{◌≡◌};
ghost use Rattle.ra_schedule.specs.declared.error.AddClientError.TheVariants as add_client;
ghost use Rattle.ra_schedule.specs.declared.error.AddOpError.TheVariants as add_op;
ghost use Rattle.ra_schedule.specs.declared.error.ChoicesError.TheVariants as choices;
ghost use Rattle.ra_schedule.specs.declared.error.DriveError.TheVariants as drive;

use ra_stamp::Memory;
use std::alloc::AllocFailed;
use std::fmt;
use thiserror::Error;

/// Why there is no script.
#[derive(Clone, Copy, Debug, PartialEq, Eq, Error)]
pub enum NewScriptError {
    /// The number of nodes is not 1 to 64.
    Nodes,
    /// Memory ran out.
    Memory,
}

impl fmt::Display for NewScriptError {
    fn fmt<W: fmt::Write>(&self, f: &mut fmt::Formatter<W>) -> fmt::Result {
        fmt::Debug::fmt(self, f)
    }
}

/// Why a client was not added. The causes are looked for in this order.
#[derive(Clone, Copy, Debug, PartialEq, Eq, Error)]
pub enum AddClientError {
    /// There are 64 clients already, or the node is not 1 to the number of nodes.
    Clients,
    /// Memory ran out.
    Memory,
}

impl fmt::Display for AddClientError {
    fn fmt<W: fmt::Write>(&self, f: &mut fmt::Formatter<W>) -> fmt::Result {
        fmt::Debug::fmt(self, f)
    }
}

/// Why an operation was not added. The causes are looked for in this order.
#[derive(Clone, Copy, Debug, PartialEq, Eq, Error)]
pub enum AddOpError {
    /// There is no client.
    Clients,
    /// The last client has 1,024 operations already.
    Limit,
    /// It unlocks a name that the client has not locked.
    NotHeld,
    /// It locks a name that the client has locked.
    AlreadyHeld,
    /// Memory ran out.
    Memory,
}

impl fmt::Display for AddOpError {
    /// Prints the name of the variant.
    fn fmt<W: fmt::Write>(&self, f: &mut fmt::Formatter<W>) -> fmt::Result {
        fmt::Debug::fmt(self, f)
    }
}

/// Why a script was not driven to an end. The causes are looked for in this order at each turn.
#[derive(Clone, Copy, Debug, PartialEq, Eq, Error)]
pub enum DriveError {
    /// A choice is left after as many turns as there may be.
    TurnLimit,
    /// There is no such client or message.
    BadPlace,
    /// The client has nothing left to do, waits, or would be refused.
    NotEnabled,
    /// Memory ran out.
    Memory,
}

impl fmt::Display for DriveError {
    fn fmt<W: fmt::Write>(&self, f: &mut fmt::Formatter<W>) -> fmt::Result {
        fmt::Debug::fmt(self, f)
    }
}

/// Why a text is not a list of choices.
#[derive(Clone, Copy, Debug, PartialEq, Eq, Error)]
pub enum ChoicesError {
    /// A word is no choice, or there is not one space between two.
    Choice,
    /// Memory ran out.
    Memory,
}

impl fmt::Display for ChoicesError {
    fn fmt<W: fmt::Write>(&self, f: &mut fmt::Formatter<W>) -> fmt::Result {
        fmt::Debug::fmt(self, f)
    }
}

impl From<Memory> for ChoicesError {
    ghost from_gives = { λ _ e. e ≡ choices.Memory };

    fn from(_refused: Memory) -> ChoicesError {
        ChoicesError::Memory
    }
}

impl From<Memory> for DriveError {
    ghost from_gives = { λ _ e. e ≡ drive.Memory };

    fn from(_refused: Memory) -> DriveError {
        DriveError::Memory
    }
}

impl<T: Drop> From<AllocFailed<T>> for AddClientError {
    ghost from_gives = { λ _ e. e ≡ add_client.Memory };

    fn from(_refused: AllocFailed<T>) -> AddClientError {
        AddClientError::Memory
    }
}

impl<T: Drop> From<AllocFailed<T>> for AddOpError {
    ghost from_gives = { λ _ e. e ≡ add_op.Memory };

    fn from(_refused: AllocFailed<T>) -> AddOpError {
        AddOpError::Memory
    }
}

ghost use Rattle.std.specs.Prelude.{◌≡◌};
ghost use Rattle.ra_script.specs.Faults.{of_new, of_client, of_op};
ghost use Rattle.ra_script.specs.declared.error.ScriptError.TheVariants as script;
ghost use Rattle.ra_script.specs.declared.error.PerformError.TheVariants as perform;
ghost use Rattle.ra_script.specs.Faults.{of_read, of_script, of_drive, of_choices};

use ra_schedule::{AddClientError, AddOpError, ChoicesError, DriveError, NewScriptError};
use ra_stamp::Memory;
use ra_text::{ReadFault, WriteFault};
use std::alloc::AllocFailed;
use std::fmt;
use thiserror::Error;

/// Why a text is not a script.
#[derive(Clone, Copy, Debug, PartialEq, Eq, Error)]
pub enum ScriptError {
    /// It is not UTF-8, or no TOML document.
    Toml,
    /// A key is missing, unknown or of another type.
    Shape,
    /// The number of nodes is not 1 to 64.
    Nodes,
    /// There are not 1 to 64 clients, or one is at a node that does not exist.
    Clients,
    /// A string is no operation.
    Op,
    /// A client unlocks a name that it does not have then.
    NotHeld,
    /// A client locks a name that it has.
    AlreadyHeld,
    /// The text has more than 65,536 bytes, or a client more than 1,024 operations.
    Limit,
    /// Memory ran out.
    Memory,
}

// By hand, since a derived one takes ten times as long to prove.
impl fmt::Display for ScriptError {
    /// Prints the name of the variant.
    fn fmt<W: fmt::Write>(&self, f: &mut fmt::Formatter<W>) -> fmt::Result {
        fmt::Debug::fmt(self, f)
    }
}

/// Why a script was not performed. The causes are looked for in this order.
#[derive(Clone, Copy, PartialEq, Eq, Error)]
pub enum PerformError {
    /// The reader failed.
    Read,
    /// What was read is not a script. It is never that memory ran out.
    Script(ScriptError),
    /// The policy could not go on. It is never that memory ran out.
    Drive(DriveError),
    /// The choices of the run are to be written, and a message is repeated, which no word can say.
    Choice,
    /// Memory ran out.
    Memory,
    /// The writer failed.
    Write,
}

// By hand, since derived ones take several times as long to prove.
impl fmt::Display for PerformError {
    /// Prints one word: the word of the inner refusal, or the name of the variant.
    fn fmt<W: fmt::Write>(&self, f: &mut fmt::Formatter<W>) -> fmt::Result {
        let word = match self {
            PerformError::Script(refusal) => return fmt::Display::fmt(refusal, f),
            PerformError::Drive(refusal) => return fmt::Display::fmt(refusal, f),
            PerformError::Read => "Read",
            PerformError::Choice => "Choice",
            PerformError::Memory => "Memory",
            PerformError::Write => "Write",
        };
        f.write_str(word)
    }
}

impl fmt::Debug for PerformError {
    /// Prints that word, too.
    fn fmt<W: fmt::Write>(&self, f: &mut fmt::Formatter<W>) -> fmt::Result {
        fmt::Display::fmt(self, f)
    }
}

impl From<NewScriptError> for ScriptError {
    ghost from_gives = { λ fault e. e ≡ of_new fault };

    fn from(fault: NewScriptError) -> ScriptError {
        match fault {
            NewScriptError::Nodes => ScriptError::Nodes,
            NewScriptError::Memory => ScriptError::Memory,
        }
    }
}

impl From<AddClientError> for ScriptError {
    ghost from_gives = { λ fault e. e ≡ of_client fault };

    fn from(fault: AddClientError) -> ScriptError {
        match fault {
            AddClientError::Clients => ScriptError::Clients,
            AddClientError::Memory => ScriptError::Memory,
        }
    }
}

impl From<AddOpError> for ScriptError {
    ghost from_gives = { λ fault e. e ≡ of_op fault };

    fn from(fault: AddOpError) -> ScriptError {
        match fault {
            AddOpError::Clients => ScriptError::Clients,
            AddOpError::Limit => ScriptError::Limit,
            AddOpError::NotHeld => ScriptError::NotHeld,
            AddOpError::AlreadyHeld => ScriptError::AlreadyHeld,
            AddOpError::Memory => ScriptError::Memory,
        }
    }
}

impl<T: Drop> From<AllocFailed<T>> for ScriptError {
    ghost from_gives = { λ _ e. e ≡ script.Memory };

    fn from(_refused: AllocFailed<T>) -> ScriptError {
        ScriptError::Memory
    }
}

impl From<ReadFault> for PerformError {
    ghost from_gives = { λ fault e. e ≡ of_read fault };

    fn from(fault: ReadFault) -> PerformError {
        match fault {
            ReadFault::Read => PerformError::Read,
            ReadFault::Memory => PerformError::Memory,
        }
    }
}

impl From<ScriptError> for PerformError {
    ghost from_gives = { λ fault e. e ≡ of_script fault };

    fn from(fault: ScriptError) -> PerformError {
        match fault {
            ScriptError::Memory => PerformError::Memory,
            fault => PerformError::Script(fault),
        }
    }
}

impl From<DriveError> for PerformError {
    ghost from_gives = { λ fault e. e ≡ of_drive fault };

    fn from(fault: DriveError) -> PerformError {
        match fault {
            DriveError::Memory => PerformError::Memory,
            fault => PerformError::Drive(fault),
        }
    }
}

impl From<ChoicesError> for PerformError {
    ghost from_gives = { λ fault e. e ≡ of_choices fault };

    fn from(fault: ChoicesError) -> PerformError {
        match fault {
            ChoicesError::Choice => PerformError::Choice,
            ChoicesError::Memory => PerformError::Memory,
        }
    }
}

impl From<Memory> for PerformError {
    ghost from_gives = { λ _ e. e ≡ perform.Memory };

    fn from(_refused: Memory) -> PerformError {
        PerformError::Memory
    }
}

impl From<WriteFault> for PerformError {
    ghost from_gives = { λ _ e. e ≡ perform.Write };

    fn from(_fault: WriteFault) -> PerformError {
        PerformError::Write
    }
}

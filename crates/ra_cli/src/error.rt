ghost use Rattle.std.specs.Prelude.{◌≡◌};
ghost use Rattle.ra_cli.specs.declared.error.AnswerError.TheVariants.{Read, Memory};
ghost use Rattle.ra_cli.specs.ClusterRun.{of_read, of_script, of_choices, of_cluster};
ghost use Rattle.ra_cli.specs.SettleRun.{of_unread};
ghost use Rattle.ra_text.specs.declared.error.ReadFault.{ReadFault};

use ra_cluster::ClusterError;
use ra_frame::FrameError;
use ra_schedule::ChoicesError;
use ra_script::ScriptError;
use ra_text::ReadFault;

/// Why `answer` gave no answer. The causes are looked for in this order.
#[derive(Clone, Copy)]
pub enum AnswerError {
    /// The number of nodes is not 1 to 64.
    BadCount,
    /// The node is not 1 to the number of nodes.
    BadNode,
    /// The reader failed.
    Read,
    /// There are more than [`ra_book_text::MAX_LINE`] bytes before a line feed, or bytes after it.
    Line,
    /// The line is no even number of hexadecimal digits.
    Hex,
    /// The bytes are no frame.
    Frame(FrameError),
    /// The message is for another node.
    WrongNode,
    /// The sender is the node itself, or there is no such node.
    Stranger,
    /// The node's clock would pass 2^62.
    ClockFull,
    /// Memory ran out.
    Memory,
    /// The writer failed.
    Write,
}

/// Why a script was not run by threads to its end, or not under many seeds. The causes are looked for in this order.
#[derive(Clone, Copy)]
pub enum RunScriptError {
    /// The reader failed.
    Read,
    /// What was read is not a script. It is never that memory ran out.
    Script(ScriptError),
    /// Threads may not run it, or did not bring it to its end. It is never that memory ran out.
    Cluster(ClusterError),
    /// The choices of the run that was found are to be printed, and a message is repeated, which no word can say.
    Choice,
    /// Memory ran out.
    Memory,
}

/// Why the books of a text were not settled, besides that they do not settle.
#[derive(Clone, Copy)]
pub enum SettleFault {
    /// The reader failed.
    Read,
    /// The text has more than 1,073,741,824 bytes.
    Limit,
    /// Memory ran out.
    Memory,
}

impl From<ReadFault> for AnswerError {
    ghost from_gives = { λ fault e. (fault ≡ ReadFault.Read → e ≡ Read) × (fault ≡ ReadFault.Memory → e ≡ Memory) };

    /// Returns the refusal of the same word.
    fn from(fault: ReadFault) -> AnswerError {
        match fault {
            ReadFault::Read => AnswerError::Read,
            ReadFault::Memory => AnswerError::Memory,
        }
    }
}

impl From<ReadFault> for SettleFault {
    ghost from_gives = { λ fault e. e ≡ of_unread fault };

    /// Returns the refusal of the same word.
    fn from(fault: ReadFault) -> SettleFault {
        match fault {
            ReadFault::Read => SettleFault::Read,
            ReadFault::Memory => SettleFault::Memory,
        }
    }
}

impl From<ReadFault> for RunScriptError {
    ghost from_gives = { λ fault e. e ≡ of_read fault };

    /// Returns the refusal of the same word.
    fn from(fault: ReadFault) -> RunScriptError {
        match fault {
            ReadFault::Read => RunScriptError::Read,
            ReadFault::Memory => RunScriptError::Memory,
        }
    }
}

impl From<ScriptError> for RunScriptError {
    ghost from_gives = { λ fault e. e ≡ of_script fault };

    /// Names why the text is no script.
    fn from(fault: ScriptError) -> RunScriptError {
        match fault {
            ScriptError::Memory => RunScriptError::Memory,
            fault => RunScriptError::Script(fault),
        }
    }
}

impl From<ChoicesError> for RunScriptError {
    ghost from_gives = { λ fault e. e ≡ of_choices fault };

    /// Names why the choices are not printed.
    fn from(fault: ChoicesError) -> RunScriptError {
        match fault {
            ChoicesError::Choice => RunScriptError::Choice,
            ChoicesError::Memory => RunScriptError::Memory,
        }
    }
}

impl From<ClusterError> for RunScriptError {
    ghost from_gives = { λ fault e. e ≡ of_cluster fault };

    /// Names why the threads did not bring the script to its end.
    fn from(fault: ClusterError) -> RunScriptError {
        match fault {
            ClusterError::Memory => RunScriptError::Memory,
            fault => RunScriptError::Cluster(fault),
        }
    }
}

//! What a note tells a person about the outcome of a command.
use crate::refusal_lines::CommandRefusal;
use ra_book_text::TextCause;
use ra_trace::{Cause, Line, MarkCause};

/// What a note tells a person about the outcome of a command. The note is made when everything else is done, so that it
/// does not affect what is printed.
#[derive(Clone, Copy)]
pub enum Remark {
    /// It was refused.
    Refused(CommandRefusal),
    /// The run ended with something left to do.
    Unfinished,
    /// The run of some seed ended so.
    SomeUnfinished,
    /// The run of each seed ended so, and a finished one was looked for.
    NoneFinished,
    /// The text is not a trace: its first wrong line, and why. If it is wrong for its sends or its marks, the line that
    /// is due there, if one is; of a text to be drawn that is not told.
    NoTrace {
        line: u64,
        cause: Cause,
        due: Option<Line>,
    },
    /// The books of a text do not settle: the line that is wrong, and why.
    Unsettled {
        line: u64,
        cause: TextCause,
    },
    /// The log is not a run of the lock table: its first wrong line, and why.
    NoLog {
        line: u64,
        cause: MarkCause,
    },
    /// Some lines of the log are wrong and were left out.
    LeftOut,
    /// The text is a trace in which this many messages were sent, or a run of the lock table, which sends none. It may
    /// have had to be complete, and is not.
    Ends {
        sent: u128,
        is_incomplete: bool,
    },
}

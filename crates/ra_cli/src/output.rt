//! What a command comes to: its exit status, and the text or the line of a refusal that it writes.
ghost use Rattle.std.specs.Prelude.{◌↔◌, IsTrue, ◌≡◌};
ghost use Rattle.ra_cli.specs.Refusals.{IsOfReader, IsOfWriter, command_word, refused_line};
ghost use Rattle.ra_cli.specs.Statuses.{PrintsRefusal, Writes};

use crate::AnswerError;
use crate::error::{RunScriptError, SettleFault};
use crate::refusal_lines::{CommandRefusal, line_of};
use crate::remark::Remark;
use ra_arguments::CommandFault;
use ra_book_text::BookFault;
use ra_draw::DrawError;
use ra_script::PerformError;
use ra_text::write_out;
use ra_trace::TraceError;
use std::io::Write;

/// The command did what it was asked.
pub const DONE: u8 = 0;

/// The input or the output failed.
const BROKEN: u8 = 1;

/// The arguments or the input were refused, memory ran out, or threads did not bring a script to its end.
pub const REFUSED: u8 = 2;

/// The run ended with something left to do, the text is not a trace or not a mark log, or the books do not settle.
pub const UNFINISHED: u8 = 3;

/// The outcome of a command: its exit status, and what a note tells a person about it, if anything.
#[derive(Clone, Copy)]
pub struct CommandOutcome {
    pub status: u8,
    pub remark: Option<Remark>,
}

/// The command did what it was asked, and there is nothing to say of it.
pub const ALL_DONE: CommandOutcome = CommandOutcome {
    status: DONE,
    remark: None,
};

/// A run ended with something left to do.
pub const LEFT_UNFINISHED: CommandOutcome = CommandOutcome {
    status: UNFINISHED,
    remark: Some(Remark::Unfinished),
};

impl CommandOutcome {
    /// Returns whether nothing was refused, and neither the input nor the output failed.
    pub fn ran_to_end(&self) -> bool {
        matches!(self.status, DONE | UNFINISHED)
    }
}

/// Writes a text and returns the status, or `BROKEN` if the writer fails. It does not allocate.
fn written<W: Write>(writer: &mut W, text: &[u8], status: u8) -> u8
    ensures { Writes text.now status (W.contents writer.old) (W.contents writer.new) result }
{
    match write_out(writer, text) {
        Ok(()) => status,
        Err(_) => BROKEN,
    }
}

/// Prints a text and returns the outcome. If the writer fails, it returns the status for that without a remark. It does
/// not allocate.
pub fn print_text<W: Write>(writer: &mut W, text: &[u8], outcome: CommandOutcome) -> CommandOutcome
    ensures { Writes text.now outcome.status (W.contents writer.old) (W.contents writer.new) result.status }
{
    match write_out(writer, text) {
        Ok(()) => outcome,
        Err(_) => CommandOutcome {
            status: BROKEN,
            remark: None,
        },
    }
}

/// Returns whether the writer failed, so that nothing more is to be written. It does not allocate.
fn is_of_the_writer(refusal: CommandRefusal) -> bool
    ensures { IsTrue result ↔ IsOfWriter refusal }
{
    matches!(
        refusal,
        CommandRefusal::Answer(AnswerError::Write)
            | CommandRefusal::Perform(PerformError::Write)
            | CommandRefusal::Draw(DrawError::Write)
            | CommandRefusal::Node(BookFault::Write)
    )
}

/// Returns whether the reader failed. It does not allocate.
fn is_of_the_reader(refusal: CommandRefusal) -> bool
    ensures { IsTrue result ↔ IsOfReader refusal }
{
    matches!(
        refusal,
        CommandRefusal::Answer(AnswerError::Read)
            | CommandRefusal::Perform(PerformError::Read)
            | CommandRefusal::Check(TraceError::Read)
            | CommandRefusal::Draw(DrawError::Read)
            | CommandRefusal::Cluster(RunScriptError::Read)
            | CommandRefusal::Survey(RunScriptError::Read)
            | CommandRefusal::Settle(SettleFault::Read)
            | CommandRefusal::Node(BookFault::Read)
    )
}

/// Prints the line of a refusal and returns the outcome, with status 1 if the reader or the writer failed, and
/// otherwise 2. After a fault of the writer it prints nothing. It does not allocate.
pub fn refuse<W: Write>(writer: &mut W, refusal: CommandRefusal) -> CommandOutcome
    ensures { PrintsRefusal refusal (W.contents writer.old) (W.contents writer.new)
        (writer.new ≡ writer.old) result.status }
{
    let remark = Some(Remark::Refused(refusal));
    if is_of_the_writer(refusal) {
        return CommandOutcome {
            status: BROKEN,
            remark,
        };
    }
    let status = if is_of_the_reader(refusal) {
        BROKEN
    } else {
        REFUSED
    };
    let status = written(writer, line_of(refusal).as_bytes(), status);
    CommandOutcome { status, remark }
}

/// Prints why there are no arguments of a command line, and returns the status, 2, or 1 if the writer fails. It does
/// not allocate.
pub fn refuse_arguments<W: Write>(writer: &mut W, fault: CommandFault) -> u8
    ensures { Writes (refused_line (command_word fault)) 2 (W.contents writer.old) (W.contents writer.new) result }
{
    let line = line_of(CommandRefusal::Command(fault)).as_bytes();
    written(writer, line, REFUSED)
}

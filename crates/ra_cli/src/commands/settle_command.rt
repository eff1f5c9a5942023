//! The command `settle`.
ghost use Rattle.std.specs.Prelude.{◌≡◌, List, ℕ, string_bytes, IfOk};
ghost use Rattle.ra_book_text.specs.Verdicts.{IsSettledText, IsUnsettled};
ghost use Rattle.ra_arguments.specs.declared.settle_arguments.SettleTask.{SettleTask};
ghost use Rattle.ra_cli.specs.SettleRun as spec;
ghost use Rattle.ra_cli.specs.SettleRun.{Prints, ServesSettle, TellsSettled};

use crate::commands::run_trace::trace_of_steps;
use crate::commands::verdict_lines::invalid_text;
use crate::error::SettleFault;
use crate::output::{ALL_DONE, CommandOutcome, UNFINISHED, print_text, refuse};
use crate::refusal_lines::CommandRefusal;
use crate::remark::Remark;
use ra_arguments::{SettleOutput, SettleTask};
use ra_book_text::{SettleTextError, SettledText, TextCause, settle_text};
use ra_json::{invalid_line, report_lines};
use ra_stamp::Memory;
use ra_text::read_up_to;
use ra_world::report_text;
use std::alloc::Global;
use std::io::{Read, Write};

/// The most bytes that a text of books may have.
const MAX_TEXT: usize = 1 << 30;

/// Returns the word for why a text does not settle. It does not allocate.
fn text_cause_word(cause: TextCause) -> &'static str
    ensures { result.now ≡ spec.text_cause_word cause }
{
    match cause {
        TextCause::Line => "Line",
        TextCause::Books => "Books",
        TextCause::Refused => "Refused",
        TextCause::NotSent => "NotSent",
        TextCause::Twice => "Twice",
    }
}

/// Returns the lines of the report of a settled run, its trace, or the objects of its marks and totals.
///
/// # Errors
///
/// `Memory`: memory ran out.
fn run_text(alloc: Global, printed: SettleOutput, text: &SettledText) -> Result<String, Memory>
    ensures { IfOk result (λ output. Prints printed text.now (string_bytes output)) }
{
    match printed {
        SettleOutput::Lines => report_text(alloc, &text.settled.report),
        SettleOutput::Trace => trace_of_steps(alloc, text.nodes, text.start, &text.settled.steps),
        SettleOutput::Objects => report_lines(alloc, &text.settled.report),
    }
}

/// Returns what is printed of a text that does not settle: its line, or the line of its object.
///
/// # Errors
///
/// `Memory`: memory ran out.
fn unsettled_text(
    alloc: Global,
    printed: SettleOutput,
    line: u64,
    cause: TextCause,
) -> Result<String, Memory>
    ensures { IfOk result (λ text. string_bytes text ≡ spec.unsettled_in printed line cause) }
{
    let word = text_cause_word(cause);
    match printed {
        SettleOutput::Lines | SettleOutput::Trace => invalid_text(alloc, line, word),
        SettleOutput::Objects => invalid_line(alloc, line, word),
    }
}

/// Prints that memory ran out.
fn refuse_memory<W: Write>(writer: &mut W) -> CommandOutcome
    ensures { (asked : SettleTask) (input : List ℕ)
        → TellsSettled asked input (W.contents writer.old) (W.contents writer.new) result.status }
{
    refuse(writer, CommandRefusal::Settle(SettleFault::Memory))
}

/// Prints the settled run of a text.
fn show<W: Write>(
    alloc: Global,
    asked: SettleTask,
    text: &SettledText,
    writer: &mut W,
) -> CommandOutcome
    ensures { (input : List ℕ) → IsSettledText asked.repeats input text.now
        → TellsSettled asked input (W.contents writer.old) (W.contents writer.new) result.status }
{
    match run_text(alloc, asked.printed, text) {
        Ok(output) => print_text(writer, output.as_bytes(), ALL_DONE),
        Err(_) => refuse_memory(writer),
    }
}

/// Prints the line of a text that does not settle, or that memory ran out.
fn contradict<W: Write>(
    alloc: Global,
    asked: SettleTask,
    refused: SettleTextError,
    writer: &mut W,
) -> CommandOutcome
    ensures { (input : List ℕ) → IsUnsettled asked.repeats input refused
        → TellsSettled asked input (W.contents writer.old) (W.contents writer.new) result.status }
{
    let SettleTextError::Invalid { line, cause } = refused else {
        return refuse_memory(writer);
    };
    match unsettled_text(alloc, asked.printed, line, cause) {
        Ok(text) => print_text(
            writer,
            text.as_bytes(),
            CommandOutcome {
                status: UNFINISHED,
                remark: Some(Remark::Unsettled { line, cause }),
            },
        ),
        Err(_) => refuse_memory(writer),
    }
}

/// Settles the books of a text, and prints the run, or why they do not settle.
fn settle_input<W: Write>(
    alloc: Global,
    asked: SettleTask,
    input: &[u8],
    writer: &mut W,
) -> CommandOutcome
    ensures { TellsSettled asked input.now (W.contents writer.old) (W.contents writer.new) result.status }
{
    match settle_text(alloc, input, asked.repeats) {
        Ok(text) => show(alloc, asked, &text, writer),
        Err(refused) => contradict(alloc, asked, refused, writer),
    }
}

/// Reads the books of all nodes, one after the other in one text, and prints the report of the run that they settle
/// into as asked, its trace, or its objects, with status 0. If they do not settle, it prints the line that is wrong, and the cause,
/// with status 3. The status is 2 if the text has more than 1,073,741,824 bytes or memory ran out, and 1 if the reader
/// or the writer failed. A text of at most the allowed length is left in `text`.
pub fn settle_books<R: Read, W: Write>(
    alloc: Global,
    asked: SettleTask,
    reader: &mut R,
    writer: &mut W,
    text: &mut Vec<u8>,
) -> CommandOutcome
    ensures { ServesSettle asked (R.remaining reader.old) (R.remaining reader.new)
        (W.contents writer.old) (W.contents writer.new) result.status }
{
    let input = match read_up_to(alloc, reader, MAX_TEXT + 1) {
        Ok(input) => input,
        Err(fault) => return refuse(writer, CommandRefusal::Settle(SettleFault::from(fault))),
    };
    if input.len() > MAX_TEXT {
        return refuse(writer, CommandRefusal::Settle(SettleFault::Limit));
    }
    let outcome = settle_input(alloc, asked, &input, writer);
    *text = input;
    outcome
}

//! The command `check --follow`, for traces and for mark logs of any length.
ghost use Rattle.ra_arguments.specs.declared.command_line.Task.{Task};
ghost use Rattle.ra_arguments.specs.declared.command_line.input_kind.InputKind.{InputKind};
ghost use Rattle.ra_cli.specs.Checks.{TellsOfKind, TellsOfMarks, TellsOfTrace};
ghost use Rattle.ra_cli.specs.Tasks.{Does};

use crate::commands::check_command::{if_demanded, marks_outcome_of, outcome_of};
use crate::commands::marks_verdict_lines::marks_verdict_as;
use crate::commands::verdict_lines::verdict_as;
use crate::output::{CommandOutcome, print_text, refuse};
use crate::refusal_lines::CommandRefusal;
use ra_arguments::{Form, InputKind};
use ra_trace::{
    MarksWatcher, TraceError, TraceWatcher, follow_marks_with_end, follow_trace_with_end,
};
use std::alloc::Global;
use std::io::{BufRead, Write};

/// Follows the trace of the reader, which may have to be complete, tells the watcher after each `every` lines what they
/// come to, and writes the verdict in this form.
fn follow_trace<R: BufRead, W: Write, O: TraceWatcher>(
    alloc: Global,
    every: u64,
    complete: bool,
    form: Form,
    reader: &mut R,
    writer: &mut W,
    watcher: &mut O,
) -> CommandOutcome
    ensures does { Does (Task.Follow InputKind.Trace every complete form) (R.remaining reader.old) (R.remaining reader.new)
        (W.contents writer.old) (W.contents writer.new) result.status }
    ensures told { TellsOfTrace every (R.remaining reader.old) (O.told watcher.old) (O.told watcher.new)
        result.status }
{
    let mut due = None;
    let mut passes = false;
    let verdict = match follow_trace_with_end(
        alloc,
        reader,
        every,
        watcher,
        complete,
        &mut due,
        &mut passes,
    ) {
        Ok(verdict) => verdict,
        Err(fault) => return refuse(writer, CommandRefusal::Check(fault)),
    };
    match verdict_as(alloc, form, if_demanded(complete, passes), &verdict) {
        Ok(text) => print_text(writer, text.as_bytes(), outcome_of(&verdict, due, passes)),
        Err(_) => refuse(writer, CommandRefusal::Check(TraceError::Memory)),
    }
}

/// Follows the mark log of the reader, which may have to be complete, tells the watcher after each `every` lines what
/// they come to, and writes the verdict in this form.
fn follow_log<R: BufRead, W: Write, O: MarksWatcher>(
    alloc: Global,
    every: u64,
    complete: bool,
    form: Form,
    reader: &mut R,
    writer: &mut W,
    watcher: &mut O,
) -> CommandOutcome
    ensures does { Does (Task.Follow InputKind.Marks every complete form) (R.remaining reader.old) (R.remaining reader.new)
        (W.contents writer.old) (W.contents writer.new) result.status }
    ensures told { TellsOfMarks every (R.remaining reader.old) (O.told watcher.old) (O.told watcher.new)
        result.status }
{
    let mut passes = false;
    let verdict = match follow_marks_with_end(
        alloc,
        reader,
        every,
        watcher,
        complete,
        &mut passes,
    ) {
        Ok(verdict) => verdict,
        Err(fault) => return refuse(writer, CommandRefusal::Check(fault)),
    };
    match marks_verdict_as(alloc, form, if_demanded(complete, passes), &verdict) {
        Ok(text) => print_text(writer, text.as_bytes(), marks_outcome_of(&verdict, passes)),
        Err(_) => refuse(writer, CommandRefusal::Check(TraceError::Memory)),
    }
}

/// Follows the text of the reader, of this kind, which may be of any length and may have to be complete. The observer is
/// told after each `every` lines what they come to. Writes the verdict in this form as soon as a line is wrong or the
/// text is at its end.
pub fn follow_text<R: BufRead, W: Write, O: TraceWatcher + MarksWatcher>(
    alloc: Global,
    kind: InputKind,
    every: u64,
    complete: bool,
    form: Form,
    reader: &mut R,
    writer: &mut W,
    observer: &mut O,
) -> CommandOutcome
    ensures does { Does (Task.Follow kind every complete form) (R.remaining reader.old) (R.remaining reader.new)
        (W.contents writer.old) (W.contents writer.new) result.status }
    ensures told { TellsOfKind kind every (R.remaining reader.old)
        (O.TraceWatcher.told observer.old) (O.TraceWatcher.told observer.new)
        (O.MarksWatcher.told observer.old) (O.MarksWatcher.told observer.new) result.status }
{
    match kind {
        InputKind::Trace => follow_trace(alloc, every, complete, form, reader, writer, observer),
        InputKind::Marks => follow_log(alloc, every, complete, form, reader, writer, observer),
    }
}

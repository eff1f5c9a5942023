//! The command `check`, for traces and for mark logs.
ghost use Rattle.std.specs.Prelude.{◌≡◌, ◌⊎◌, true, false};
ghost use Rattle.ra_arguments.specs.declared.command_line.Task.{Task};
ghost use Rattle.ra_cli.specs.Checks as spec;
ghost use Rattle.ra_cli.specs.Tasks.{Does};

use crate::commands::marks_verdict_lines::marks_verdict_as;
use crate::commands::verdict_lines::verdict_as;
use crate::output::{CommandOutcome, DONE, UNFINISHED, print_text, refuse};
use crate::refusal_lines::CommandRefusal;
use crate::remark::Remark;
use ra_arguments::Form;
use ra_trace::{
    Line, MarksVerdict, TraceError, Verdict, check_buffered_with_end, check_marks_buffered_with_end,
};
use std::alloc::Global;
use std::io::{BufRead, Write};

/// Returns the status of a text that passes the check or not.
pub fn status_of(passes: bool) -> u8
    ensures { ((result ≡ 0) × (passes ≡ true)) ⊎ ((result ≡ 3) × (passes ≡ false)) }
{
    if passes { DONE } else { UNFINISHED }
}

/// Returns whether a text is complete by whether it passes, if that is demanded.
pub fn if_demanded(demanded: bool, passes: bool) -> Option<bool>
    ensures { result ≡ spec.if_demanded demanded passes }
{
    if demanded { Some(passes) } else { None }
}

/// Returns the outcome of a verdict that is printed, by which the text passes or not. If it is that a line is wrong for
/// its sends or its marks, `due` is the line that is due.
pub fn outcome_of(verdict: &Verdict, due: Option<Line>, passes: bool) -> CommandOutcome
    ensures { ((result.status ≡ 0) × (passes ≡ true)) ⊎ ((result.status ≡ 3) × (passes ≡ false)) }
{
    let remark = match *verdict {
        Verdict::Valid { messages, .. } => Remark::Ends {
            sent: messages,
            is_incomplete: !passes,
        },
        Verdict::Invalid { line, cause } => Remark::NoTrace { line, cause, due },
    };
    CommandOutcome {
        status: status_of(passes),
        remark: Some(remark),
    }
}

/// Returns the outcome of a verdict on a mark log that is printed, by which the log passes or not.
pub fn marks_outcome_of(verdict: &MarksVerdict, passes: bool) -> CommandOutcome
    ensures { ((result.status ≡ 0) × (passes ≡ true)) ⊎ ((result.status ≡ 3) × (passes ≡ false)) }
{
    let remark = match *verdict {
        MarksVerdict::Valid { .. } => Remark::Ends {
            sent: 0,
            is_incomplete: !passes,
        },
        MarksVerdict::Invalid { line, cause } => Remark::NoLog { line, cause },
    };
    CommandOutcome {
        status: status_of(passes),
        remark: Some(remark),
    }
}

/// Checks the text of the reader, which may have to be complete, and writes its verdict in this form.
pub fn judge<R: BufRead, W: Write>(
    alloc: Global,
    complete: bool,
    form: Form,
    reader: &mut R,
    writer: &mut W,
) -> CommandOutcome
    ensures { Does (Task.Check complete form) (R.remaining reader.old) (R.remaining reader.new)
        (W.contents writer.old) (W.contents writer.new) result.status }
{
    let mut due = None;
    let mut passes = false;
    let verdict = match check_buffered_with_end(alloc, reader, complete, &mut due, &mut passes) {
        Ok(verdict) => verdict,
        Err(fault) => return refuse(writer, CommandRefusal::Check(fault)),
    };
    match verdict_as(alloc, form, if_demanded(complete, passes), &verdict) {
        Ok(text) => print_text(writer, text.as_bytes(), outcome_of(&verdict, due, passes)),
        Err(_) => refuse(writer, CommandRefusal::Check(TraceError::Memory)),
    }
}

/// Checks the mark log of the reader, which may have to be complete, and writes its verdict in this form.
pub fn judge_marks<R: BufRead, W: Write>(
    alloc: Global,
    complete: bool,
    form: Form,
    reader: &mut R,
    writer: &mut W,
) -> CommandOutcome
    ensures { Does (Task.CheckMarks complete form) (R.remaining reader.old) (R.remaining reader.new)
        (W.contents writer.old) (W.contents writer.new) result.status }
{
    let mut passes = false;
    let verdict = match check_marks_buffered_with_end(alloc, reader, complete, &mut passes) {
        Ok(verdict) => verdict,
        Err(fault) => return refuse(writer, CommandRefusal::Check(fault)),
    };
    match marks_verdict_as(alloc, form, if_demanded(complete, passes), &verdict) {
        Ok(text) => print_text(writer, text.as_bytes(), marks_outcome_of(&verdict, passes)),
        Err(_) => refuse(writer, CommandRefusal::Check(TraceError::Memory)),
    }
}

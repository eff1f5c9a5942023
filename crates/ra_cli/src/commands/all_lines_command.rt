//! The command `check --marks --all`, which tells each wrong line of a mark log.
ghost use Rattle.std.specs.Prelude.{◌≡◌, ◌⊎◌, true, false};
ghost use Rattle.ra_arguments.specs.declared.command_line.Task.{Task};
ghost use Rattle.ra_cli.specs.Tasks.{Does};

use crate::commands::check_command::status_of;
use crate::commands::wrong_lines_text::wrong_lines_text;
use crate::output::{CommandOutcome, print_text, refuse};
use crate::refusal_lines::CommandRefusal;
use crate::remark::Remark;
use ra_trace::{MarksWatcher, TraceError, WrongLines, check_all_marks};
use std::alloc::Global;
use std::io::{BufRead, Write};

/// Returns the outcome of a log that passes or not, with these wrong lines.
fn outcome_of(wrong: &WrongLines, passes: bool) -> CommandOutcome
    ensures { ((result.status ≡ 0) × (passes ≡ true)) ⊎ ((result.status ≡ 3) × (passes ≡ false)) }
{
    let remark = if wrong.firsts().is_empty() {
        Remark::Ends {
            sent: 0,
            is_incomplete: !passes,
        }
    } else {
        Remark::LeftOut
    };
    CommandOutcome {
        status: status_of(passes),
        remark: Some(remark),
    }
}

/// Checks the mark log of the reader, which may have to be complete and may be of any length. Each wrong line is left
/// out, and the log goes on. The watcher is shown each other line, and the first wrong line on each name. Writes what
/// there is to tell at its end.
pub fn judge_all_lines<R: BufRead, W: Write, O: MarksWatcher>(
    alloc: Global,
    complete: bool,
    reader: &mut R,
    writer: &mut W,
    watcher: &mut O,
) -> CommandOutcome
    ensures does { Does (Task.CheckAll complete) (R.remaining reader.old) (R.remaining reader.new)
        (W.contents writer.old) (W.contents writer.new) result.status }
    ensures told { O.told watcher.new ≡ O.told watcher.old }
{
    let mut wrong = WrongLines::new(alloc);
    let mut passes = false;
    let counts = match check_all_marks(alloc, reader, &mut wrong, watcher, complete, &mut passes) {
        Ok(counts) => counts,
        Err(fault) => return refuse(writer, CommandRefusal::Check(fault)),
    };
    let text = match wrong_lines_text(alloc, &wrong, counts) {
        Ok(text) => text,
        Err(_) => return refuse(writer, CommandRefusal::Check(TraceError::Memory)),
    };
    print_text(writer, text.as_bytes(), outcome_of(&wrong, passes))
}

//! The tasks of the commands that judge a text, `check` and `draw`.
ghost use Rattle.std.specs.Prelude.{◌≡◌, Ok};
ghost use Rattle.clap.specs.Words.{found_of, rows_of};
ghost use Rattle.ra_arguments.specs.Asked.{IsTaken, IsTaskFor};
ghost use Rattle.ra_arguments.specs.Meanings.{check_in, draw_in, every_in, form_in, kind_in, part_in};

use crate::command_line::Task;
use crate::command_line::input_kind::InputKind;
use crate::command_line::option_values::{has_flag, long_number};
use crate::form::Form;
use crate::usage_fault::UsageCause;
use clap::ArgMatches;
use ra_text::Part;

/// Returns what the commands `check` and `draw` read. It does not allocate.
fn kind_of(given: &ArgMatches) -> InputKind
    ensures { result ≡ kind_in (rows_of (found_of given.now)) }
{
    if has_flag(given, "marks") {
        InputKind::Marks
    } else {
        InputKind::Trace
    }
}

/// Returns the part that is drawn, or `None` if no line is in it, whatever the input. It does not allocate.
fn part_of(given: &ArgMatches) -> Option<Part>
    ensures { result ≡ part_in (rows_of (found_of given.now)) }
{
    let from = long_number(given, "from")?;
    let to = long_number(given, "to")?;
    if from == 0 || from > to {
        return None;
    }
    Some(Part { from, to })
}

/// Returns the task of the command `draw`.
///
/// # Errors
///
/// `Part`: no line is in its part, whatever the input.
pub fn draw_task<'a>(given: &ArgMatches<'a>) -> Result<Task<'a>, UsageCause>
    ensures { IsTaken (draw_in (rows_of (found_of given.now))) result }
{
    let Some(part) = part_of(given) else {
        return Err(UsageCause::Part);
    };
    let kind = kind_of(given);
    Ok(Task::Draw { kind, part })
}

/// Returns after how many lines each time the command `check` tells what they come to, or 0 for never. It does not
/// allocate.
fn every_of(given: &ArgMatches) -> u64
    ensures { result ≡ every_in (rows_of (found_of given.now)) }
{
    // It has a default, so the parser gives it a number.
    long_number(given, "every").unwrap_or(0)
}

/// Returns in which form results are printed. It does not allocate.
pub fn form_of(given: &ArgMatches) -> Form
    ensures { result ≡ form_in (rows_of (found_of given.now)) }
{
    if has_flag(given, "json") {
        Form::Json
    } else {
        Form::Words
    }
}

/// Returns the task of the command `check`.
pub fn check_task<'a>(given: &ArgMatches<'a>) -> Task<'a>
    ensures { IsTaskFor (Ok (check_in (rows_of (found_of given.now)))) result }
{
    let complete = has_flag(given, "complete");
    if has_flag(given, "marks") && has_flag(given, "all") {
        return Task::CheckAll { complete };
    }
    let form = form_of(given);
    let kind = kind_of(given);
    if has_flag(given, "follow") {
        let every = every_of(given);
        return Task::Follow {
            kind,
            every,
            complete,
            form,
        };
    }
    match kind {
        InputKind::Trace => Task::Check { complete, form },
        InputKind::Marks => Task::CheckMarks { complete, form },
    }
}

//! The arguments that ask to settle books. The parser isn't asked for them, so that memory can't run out, but its rows
//! say which options there are.
ghost use Rattle.std.specs.Prelude.{◌≡◌, map, string_bytes};
ghost use Rattle.ra_arguments.specs.OptionTable.{rule_of_row};
ghost use Rattle.ra_arguments.specs.SettleArguments as spec;

use crate::command_line::command_rows::CommandKind;
use crate::command_line::option_rows::{OptionRow, is_flag_among, options_of};

/// What `ra settle` prints of the run that books settle into.
#[derive(Clone, Copy)]
pub enum SettleOutput {
    /// The lines of its report.
    Lines,
    /// Its trace.
    Trace,
    /// The objects of its marks and totals.
    Objects,
}

/// How books are settled.
#[derive(Clone, Copy)]
pub struct SettleTask {
    /// Whether messages may come more than once.
    pub repeats: bool,
    /// What is printed of the run.
    pub printed: SettleOutput,
}

/// Returns whether one of the arguments is this text. It does not allocate.
fn has_text(arguments: &[String], text: &str) -> bool
    ensures { result ≡ spec.has_text text.now (map string_bytes arguments.now) }
{
    for argument in arguments {
        if argument.as_str() == text {
            return true;
        }
    }
    false
}

/// Returns whether each argument is one of these options that takes nothing, and none comes twice. It does not
/// allocate.
fn are_flags(rows: &[OptionRow<'_>], arguments: &[String]) -> bool
    ensures { result ≡ spec.are_flags (map rule_of_row rows.now) (map string_bytes arguments.now) }
{
    for place in 0..arguments.len() {
        let argument = arguments[place].as_str();
        if !is_flag_among(rows, argument) || has_text(&arguments[place + 1..], argument) {
            return false;
        }
    }
    true
}

/// Returns what is printed, or `None` if two things are to be. It does not allocate.
fn output_by(traces: bool, tells_objects: bool) -> Option<SettleOutput>
    ensures { result ≡ spec.output_by traces tells_objects }
{
    match (traces, tells_objects) {
        (false, false) => Some(SettleOutput::Lines),
        (true, false) => Some(SettleOutput::Trace),
        (false, true) => Some(SettleOutput::Objects),
        (true, true) => None,
    }
}

/// Returns how books are settled if these arguments follow `settle`, or `None` if they are not its options, each at
/// most once, and not both `--trace` and `--json`. It does not allocate.
fn settling_by(options: &[String]) -> Option<SettleTask>
    ensures { result ≡ spec.settling_by (map string_bytes options.now) }
{
    if !are_flags(options_of(CommandKind::Settle), options) {
        return None;
    }
    let printed = output_by(has_text(options, "--trace"), has_text(options, "--json"))?;
    Some(SettleTask {
        repeats: has_text(options, "--repeats"),
        printed,
    })
}

/// Returns how the arguments ask to settle books, or `None` if they do not: they are the program's name, `settle` and
/// its options, in any order. It does not allocate.
pub fn settle_arguments(arguments: &[String]) -> Option<SettleTask>
    ensures { result ≡ spec.settling_of (map string_bytes arguments.now) }
{
    match arguments {
        [_, argument, options @ ..] => match argument.as_str() {
            "settle" => settling_by(options),
            _ => None,
        },
        _ => None,
    }
}

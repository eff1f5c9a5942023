//! The command `sim`, under one policy.
ghost use Rattle.std.specs.Prelude.{◌≡◌, None};
ghost use Rattle.ra_schedule.specs.ChoicesText.{choices_of};
ghost use Rattle.ra_arguments.specs.declared.command_line.Task.{Task};
ghost use Rattle.ra_cli.specs.Tasks.{Does};

use crate::output::{ALL_DONE, CommandOutcome, LEFT_UNFINISHED, refuse};
use crate::refusal_lines::CommandRefusal;
use ra_arguments::{PolicyName, policy_of};
use ra_script::{OutputKind, perform_as};
use std::alloc::Global;
use std::io::{Read, Write};

/// Reads the choices, and drives a cluster through the reader's script under the policy of this name.
pub fn simulate<R: Read, W: Write>(
    alloc: Global,
    name: PolicyName,
    choices: &str,
    format: OutputKind,
    reader: &mut R,
    writer: &mut W,
) -> CommandOutcome
    ensures does { Does (Task.Sim name choices.entry format) (R.remaining reader.old) (R.remaining reader.new)
        (W.contents writer.old) (W.contents writer.new) result.status }
    // A text that is not a list of choices is refused before anything is read.
    ensures unread { choices_of choices.now ≡ None → reader.new ≡ reader.old }
{
    let policy = match policy_of(alloc, name, choices) {
        Ok(policy) => policy,
        Err(fault) => return refuse(writer, CommandRefusal::Choices(fault)),
    };
    match perform_as(alloc, reader, writer, format, &policy) {
        Ok(true) => ALL_DONE,
        Ok(false) => LEFT_UNFINISHED,
        Err(fault) => refuse(writer, CommandRefusal::Perform(fault)),
    }
}

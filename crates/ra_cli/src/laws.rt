//! What is true of the statuses of commands. Each function does nothing, and its contract is the law.
ghost use Rattle.std.specs.Prelude.{◌≡◌, ◌≢◌, ◌≤◌, ℕ, List, Option, Some, codes};
ghost use Rattle.std.specs.Io.KnownBytes.{Appends};
ghost use Rattle.ra_schedule.specs.declared.error.DriveError.{DriveError};
ghost use Rattle.ra_script.specs.declared.error.PerformError.{PerformError};
ghost use Rattle.ra_script.specs.Performed.{IsOrderly};
ghost use Rattle.ra_arguments.specs.declared.command.Command.{Command};
ghost use Rattle.ra_arguments.specs.declared.command_line.Task.{Task};
ghost use Rattle.ra_cli.specs.declared.refusal_lines.CommandRefusal.{CommandRefusal};
ghost use Rattle.ra_arguments.specs.Finishing.{HasNoChoices, RunsFaithfully};
ghost use Rattle.ra_cli.specs.Commands.{DoesCommand};
ghost use Rattle.ra_cli.specs.Refusals.{refused_line};
ghost use Rattle.ra_cli.specs.Statuses.{IsRefused};
ghost use Rattle.ra_cli.specs.Tasks.{Does, IsCauseFor};

use ra_schedule::{scripts_come_to_rest, seeds_finish_ordered_scripts};
use ra_script::{choices_have_words_unless_messages_are_repeated, read_scripts_come_to_rest};

/// Let the clients of a script take names in ascending order and give them all back, let no message be lost or
/// repeated, and let the choices not be listed. Then `ra sim` finishes the script: status 3 can't come, by one policy
/// or under each of many seeds. If no choices are given either, the script is refused for lack of memory only, unless
/// the reader or the writer fails. And whatever the script, no turn is refused.
pub fn orderly_scripts_are_finished()
    ensures finished { (asked : Task) (input : List ℕ) (new before after : Option (List ℕ)) (status : ℕ)
        → RunsFaithfully asked → IsOrderly input
        → Does asked (Some input) new before after status → status ≢ 3 }
    ensures only_memory { (asked : Task) (input : List ℕ) (new before after : Option (List ℕ)) (status : ℕ)
        → RunsFaithfully asked → HasNoChoices asked
        → IsOrderly input → Does asked (Some input) new before after status → status ≡ 2
        → Appends before after (refused_line (codes "Memory")) }
    ensures driven { (asked : Task) (old new : Option (List ℕ)) (cause : DriveError) → RunsFaithfully asked
        → ¬ IsCauseFor asked old new (CommandRefusal.Perform (PerformError.Drive cause)) }
{
    scripts_come_to_rest();
    seeds_finish_ordered_scripts();
    read_scripts_come_to_rest();
    choices_have_words_unless_messages_are_repeated();
}

/// Whatever the command, its status is 0 to 3. Status 2 comes only with one line: `refused` and the word of a refusal,
/// which is not that the reader or the writer failed.
pub fn statuses_are_known()
    ensures range { (asked : Command) (old new before after : Option (List ℕ)) (status : ℕ)
        → DoesCommand asked old new before after status
        → status ≤ 3 }
    ensures refused { (asked : Command) (old new before after : Option (List ℕ)) (status : ℕ)
        → DoesCommand asked old new before after status
        → status ≡ 2 → IsRefused before after }
{}

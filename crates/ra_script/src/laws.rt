//! What is true of every script that is read. Each function does nothing, and its contract is the law.
ghost use Rattle.std.specs.Prelude.{◌≡◌, ℕ, List, [], All, Ok};
ghost use Rattle.ra_world.specs.Traffic.{Move, repeated_by};
ghost use Rattle.ra_schedule.specs.declared.choice.Choice.{Choice};
ghost use Rattle.ra_schedule.specs.declared.choice.Policy.{Policy};
ghost use Rattle.ra_schedule.specs.declared.error.DriveError.{DriveError};
ghost use Rattle.ra_schedule.specs.Listing.{AreChoicesBy};
ghost use Rattle.ra_schedule.specs.Performing.{ChoosesItself};
ghost use Rattle.ra_schedule.specs.Schedule.{Follows, RepeatsNothing};
ghost use Rattle.ra_schedule.specs.Script.{ScriptState, IsScript};
ghost use Rattle.ra_schedule.specs.ChoicesText.{HasText};
ghost use Rattle.ra_script.specs.declared.error.PerformError.{PerformError};
ghost use Rattle.ra_script.specs.declared.output_kind.OutputKind.{OutputKind};
ghost use Rattle.ra_script.specs.Performed.{RefusesAs};
ghost use Rattle.ra_script.specs.ScriptText.{script_of};

use ra_schedule::{
    policies_bring_scripts_to_rest, policies_repeat_no_message, scripts_come_to_rest,
};

/// What is read as a script is one. So under a policy that repeats no message, no script that is read comes to the
/// limit of turns, which is above the most that any script takes. If the policy also chooses by itself, it is never
/// refused.
pub fn read_scripts_come_to_rest()
    ensures scripts { (input : List ℕ) (script : ScriptState) → script_of input ≡ Ok script → IsScript script }
    ensures below_limit { (format : OutputKind) (policy : Policy) (input : List ℕ) → RepeatsNothing policy
        → ¬ RefusesAs format policy input (PerformError.Drive DriveError.TurnLimit) }
    ensures never_refused { (format : OutputKind) (policy : Policy) (input : List ℕ) (cause : DriveError)
        → RepeatsNothing policy → ChoosesItself policy → ¬ RefusesAs format policy input (PerformError.Drive cause) }
{
    scripts_come_to_rest();
    policies_bring_scripts_to_rest();
}

/// The choices of a script's run have words, unless a message is repeated. A client's number is at most 64, and places
/// are below 8,323,072, since each message that is put under way can be taken in a turn of its own. So under a policy
/// that repeats no message, no script is refused for lack of a word.
pub fn choices_have_words_unless_messages_are_repeated()
    ensures have_text { (script : ScriptState) (policy : Policy) (choices : List Choice) (moves : List Move)
        → IsScript script
        → Follows script policy moves → AreChoicesBy script policy choices moves → repeated_by moves ≡ []
        → All HasText choices }
    ensures never_refused { (format : OutputKind) (policy : Policy) (input : List ℕ) → RepeatsNothing policy
        → ¬ RefusesAs format policy input PerformError.Choice }
{
    scripts_come_to_rest();
    policies_repeat_no_message();
}

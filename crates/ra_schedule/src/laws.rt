//! What is true of every schedule. Each function does nothing, and its contract is the law.
pub mod finishing;

ghost use Rattle.std.specs.Prelude.{◌≡◌, [], List};
ghost use Rattle.ra_stamp.specs.NodeId.{IsNodeNumber};
ghost use Rattle.ra_world.specs.Traffic.{Move, repeated_by};
ghost use Rattle.ra_schedule.specs.declared.choice.Policy.{Policy};
ghost use Rattle.ra_schedule.specs.Script.{ScriptState};
ghost use Rattle.ra_schedule.specs.Schedule.{Follows, Ends, RepeatsNothing};

/// A policy leads through a script in one way: two lists of moves that follow it to its end are equal.
pub fn policies_lead_to_one_run()
    ensures { (script : ScriptState) (policy : Policy) (a b : List Move) → IsNodeNumber script.nodes
        → Follows script policy a → Ends script policy a → Follows script policy b → Ends script policy b
        → a ≡ b }
{}

/// A policy repeats a message only if it has faults with some repeats, or lists one. So what a report says of runs
/// without repeats is true of each run that `drive` and `summarize` return under any other policy.
pub fn policies_repeat_no_message()
    ensures { (script : ScriptState) (policy : Policy) (moves : List Move) → RepeatsNothing policy
        → Follows script policy moves
        → repeated_by moves ≡ [] }
{}

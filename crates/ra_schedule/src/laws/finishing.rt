//! How scripts end. Each function does nothing, and its contract is the law.
ghost use Rattle.std.specs.Prelude.{◌≡◌, ◌≤◌, ◌<◌, ◌+◌, ◌*◌, ◌++◌, [], ℕ, List, Option, length, true};
ghost use Rattle.ra_stamp.specs.NodeId.{IsNodeNumber};
ghost use Rattle.ra_automaton.specs.Steps.{greatest_number};
ghost use Rattle.ra_node.specs.Node.{NodeState};
ghost use Rattle.ra_table.specs.Table.{LockTable, TableRun};
ghost use Rattle.ra_world.specs.Quiet.{IsQuiet, requests_in};
ghost use Rattle.ra_world.specs.Run.{IsRun, EndsWith, marks_of};
ghost use Rattle.ra_world.specs.declared.text.report.Report.{Report};
ghost use Rattle.ra_world.specs.Traffic.{Move, lost_by, repeated_by};
ghost use Rattle.ra_world.specs.World.{Reports};
ghost use Rattle.ra_schedule.specs.declared.choice.Policy.{Policy};
ghost use Rattle.ra_schedule.specs.declared.error.DriveError.{DriveError};
ghost use Rattle.ra_schedule.specs.declared.surveys.seed_outcomes.SeedOutcome.{SeedOutcome};
ghost use Rattle.ra_schedule.specs.Faults.{FaultRates};
ghost use Rattle.ra_schedule.specs.declared.surveys.seed_outcomes.Survey.{Survey};
ghost use Rattle.ra_schedule.specs.Survey.{chance, is_finished, IsOutcome, IsSurvey, SeedsFinish};
ghost use Rattle.ra_schedule.specs.LockOrder.{IsOutOfOrder, IsUnreleased};
ghost use Rattle.ra_schedule.specs.Orderly.{TakeNamesInOrder, WaitsForName, SomeoneCanGoOn, IsHeldInOrder};
ghost use Rattle.ra_schedule.specs.Performing.{Performs, IsAtRest, ChoosesItself, LosesNothing, most_turns};
ghost use Rattle.ra_schedule.specs.Plan.{MeetsPlan};
ghost use Rattle.ra_schedule.specs.Schedule.{steps_of, Follows, Ends, Stops, IsFinished, RepeatsNothing};
ghost use Rattle.ra_schedule.specs.Script.{ScriptState, IsScript};

/// Clients that take names in ascending order and give them all back never deadlock, and no wake-up is lost: if nothing
/// was lost and nothing more can happen, every operation is done, and nothing waits or is queued. This holds in
/// whatever order the clients take their turns and the messages come, also if messages are repeated.
pub fn ordered_scripts_finish()
    ensures { (script : ScriptState) (moves : List Move) (report : Report) → IsScript script
        → ¬ IsOutOfOrder script → ¬ IsUnreleased script
        → Performs script moves → lost_by moves ≡ [] → IsAtRest script moves
        → Reports script.nodes 0 moves report → IsFinished script (steps_of moves) report }
{}

/// A finished run did what its script says. The marks that name a client are the marks of its operations, in order, at
/// its node: Requested and Entered for each lock, and Left for each unlock. So each lock was granted, and no mark names
/// any other client. If each client gives back all that it takes, nothing is held.
pub fn finished_scripts_granted_each_lock()
    ensures plan { (script : ScriptState) (moves : List Move) (report : Report) → IsScript script
        → Performs script moves
        → Reports script.nodes 0 moves report → IsFinished script (steps_of moves) report
        → MeetsPlan script report.marks.items }
    ensures none_holds { (script : ScriptState) (moves : List Move) (report : Report) → IsScript script
        → Performs script moves
        → Reports script.nodes 0 moves report → IsFinished script (steps_of moves) report → ¬ IsUnreleased script
        → (table : LockTable) → TableRun report.marks.items table → table.holding ≡ [] }
{}

/// A script takes few turns, in whatever order: one for each operation, two for each lock and other node, and at most
/// three more for each message that is repeated. No script takes more than 8,323,072 without repeats. And each run can
/// be carried on, without a loss or a repeat, until nothing more can happen.
pub fn scripts_come_to_rest()
    ensures turns { (script : ScriptState) (moves : List Move) → IsScript script → Performs script moves
        → length moves ≤ most_turns script + 3 * length (repeated_by moves) }
    ensures most { (script : ScriptState) → IsScript script → most_turns script ≤ 8323072 }
    ensures carried_on { (script : ScriptState) (moves : List Move) → IsScript script → Performs script moves
        → (rest : List Move) × Performs script (moves ++ rest) × IsAtRest script (moves ++ rest)
        × (lost_by rest ≡ []) × (repeated_by rest ≡ []) }
{}

/// What a policy makes of a script. Its moves are what the script says. If it chooses by itself and loses no message, a
/// script of clients that take names in ascending order and give them all back is finished. If it repeats no message,
/// it makes at most `most_turns` moves, and one that chooses by itself is refused nothing if the limit is at least
/// that.
pub fn policies_bring_scripts_to_rest()
    ensures performs { (script : ScriptState) (policy : Policy) (moves : List Move) → Follows script policy moves
        → Performs script moves }
    ensures finished { (script : ScriptState) (policy : Policy) (moves : List Move) (report : Report) → IsScript script
        → ¬ IsOutOfOrder script → ¬ IsUnreleased script → ChoosesItself policy → LosesNothing policy
        → Follows script policy moves → Ends script policy moves → Reports script.nodes 0 moves report
        → IsFinished script (steps_of moves) report }
    ensures turns { (script : ScriptState) (policy : Policy) (moves : List Move) → IsScript script
        → RepeatsNothing policy
        → Follows script policy moves → length moves ≤ most_turns script }
    ensures in_time { (script : ScriptState) (policy : Policy) (limit : ℕ) (moves : List Move) (cause : DriveError)
        → IsScript script → ChoosesItself policy → RepeatsNothing policy → most_turns script ≤ limit
        → Follows script policy moves → ¬ Stops script policy limit moves cause }
{}

/// If chance chooses, without losses and repeats, each seed brings a script to its end within the limit, if that is at
/// least `most_turns` and each client takes names in ascending order and gives them all back. So a survey counts each
/// seed as finished.
pub fn seeds_finish_ordered_scripts()
    ensures outcomes { (script : ScriptState) (faults : Option FaultRates) (limit seed : ℕ) (outcome : SeedOutcome)
        → IsScript script → ¬ IsOutOfOrder script → ¬ IsUnreleased script
        → LosesNothing (chance faults seed) → RepeatsNothing (chance faults seed) → most_turns script ≤ limit
        → IsOutcome script (chance faults seed) limit outcome → is_finished outcome ≡ true }
    ensures surveys { (script : ScriptState) (faults : Option FaultRates) (limit first last : ℕ) (survey : Survey)
        → IsScript script → IsSurvey script faults limit first last survey
        → SeedsFinish script faults limit first last survey }
{}

/// In any run, not only of a script: suppose that nothing was lost, nothing is under way, and each client takes names
/// in ascending order, one at a time. Then each name that is waited for is held, and a client that holds it waits for
/// nothing or for greater names. So a client that waits for a name waits in the end for a client that can go on: that
/// one waits for nothing, and holds the name or one above it. These clients never deadlock. Numbers end at 2^64-1, and
/// some must be left for queued clients.
pub fn clients_in_order_never_deadlock()
    ensures held { (n start : ℕ) (moves : List Move) (nodes : ℕ → NodeState)
        → IsNodeNumber n → IsRun n start moves → EndsWith n start moves nodes → IsQuiet moves
        → TakeNamesInOrder n start moves
        → start + requests_in (marks_of moves) < greatest_number
        → (node client : ℕ) (name : List ℕ) → (1 ≤ node) × (node ≤ n) → WaitsForName (nodes node) client name
        → IsHeldInOrder n nodes name }
    ensures goes_on { (n start : ℕ) (moves : List Move) (nodes : ℕ → NodeState)
        → IsNodeNumber n → IsRun n start moves → EndsWith n start moves nodes → IsQuiet moves
        → TakeNamesInOrder n start moves
        → start + requests_in (marks_of moves) < greatest_number
        → (node client : ℕ) (name : List ℕ) → (1 ≤ node) × (node ≤ n) → WaitsForName (nodes node) client name
        → SomeoneCanGoOn n nodes name }
{}

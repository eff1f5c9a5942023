//! Which lists of steps are runs, in terms of each node's own history and of the step that sent each message. Each
//! function does nothing, and its contract is the law.
ghost use Rattle.std.specs.Prelude.{◌≡◌, ◌≤◌, ℕ, List, map};
ghost use Rattle.ra_stamp.specs.NodeId.{IsNodeNumber};
ghost use Rattle.ra_node.specs.Events.{Happening};
ghost use Rattle.ra_world.specs.declared.step.Step.{Step};
ghost use Rattle.ra_world.specs.Traffic.{Move};
ghost use Rattle.ra_world.specs.Run.{IsRun, WorldRun, happened_at};
ghost use Rattle.ra_world.specs.Fitting.{FitTogether, FitWithCopies};

/// Steps that fit together are a run. They fit together if
///
/// - each client's step names an existing node,
/// - the steps that name a node are the events of a history of that node,
/// - each message that a step takes was sent by an earlier step, and
/// - no message is taken twice or repeated.
///
/// Then a run has these steps, and what happens at each node in it is that history.
pub fn steps_that_fit_together_are_runs()
    ensures run { (n start : ℕ) (steps : List Step) (happened : ℕ → List Happening)
        → IsNodeNumber n → FitTogether n start steps happened → WorldRun n start steps }
    ensures moves { (n start : ℕ) (steps : List Step) (happened : ℕ → List Happening)
        → IsNodeNumber n → FitTogether n start steps happened
        → (moves : List Move) × (map (λ move. move.step) moves ≡ steps) × IsRun n start moves
        × ((i : ℕ) → 1 ≤ i → i ≤ n → happened_at i moves ≡ happened i) }
{}

/// Steps that repeat messages are a run, too, if they fit together. They do if
///
/// - each client's step names an existing node,
/// - the steps that name a node are the events of a history of that node, and
/// - each message that a step takes or repeats was sent and repeated by earlier steps more often than they took it.
///
/// Then a run has these steps, and what happens at each node in it is that history.
pub fn steps_that_fit_with_copies_are_runs()
    ensures { (n start : ℕ) (steps : List Step) (happened : ℕ → List Happening)
        → IsNodeNumber n → FitWithCopies n start steps happened
        → (moves : List Move) × (map (λ move. move.step) moves ≡ steps) × IsRun n start moves
        × ((i : ℕ) → 1 ≤ i → i ≤ n → happened_at i moves ≡ happened i) }
{}

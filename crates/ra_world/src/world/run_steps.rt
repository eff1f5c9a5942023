ghost use Rattle.std.specs.Prelude.{◌≡◌, ◌↔◌, ℕ, List, [], map, IsErrOf, IsOkUnless, OnOk, IfOk};
ghost use Rattle.ra_stamp.specs.NodeId.{IsNodeNumber};
ghost use Rattle.ra_world.specs.Traffic.{Move};
ghost use Rattle.ra_world.specs.Run.{IsRun, WorldRun};
ghost use Rattle.ra_world.specs.World.{HasMade, Reports};
ghost use Rattle.ra_world.specs.MainTheorem.{MainTheorem};
ghost use Rattle.ra_world.specs.Refused.{IsRefusedAt, StopsBefore};

use crate::{Report, RunError, Step, StepError, Steps, World};
use std::alloc::Global;

/// Makes a world of this many nodes, with all numbers at `start`, and steps it through a list of steps. The
/// cost is that of the steps, each as `World::step` says, and linear in the number of nodes.
///
/// # Errors
///
/// The first that holds:
///
/// 1. `BadCount`: the number of nodes is not 1 to 64.
/// 2. `Refused`: a step is refused; its place is the first such one, counted from 1, with the cause.
/// 3. `Memory`: there is no room for the world before its first step, or for a step, as `World::step` says. It may come
///    before a later step is refused, and tells nothing of later steps.
pub fn run(alloc: Global, nodes: u16, start: u64, steps: &Steps) -> Result<Report, RunError>
    ensures ok { IfOk result (λ report. (moves : List Move)
        × (map (λ move. move.step) moves ≡ steps.now.items)
        × IsRun nodes start moves × Reports nodes start moves report) }
    ensures count { OnOk result (IsNodeNumber nodes) }
    ensures main_theorem { IfOk result (MainTheorem nodes) }
    ensures bad_count { IsErrOf result RunError.BadCount ↔ (IsNodeNumber nodes → ⊥) }
    ensures refused { (place : ℕ) (cause : StepError) → IsErrOf result (RunError.Refused place cause)
        → IsNodeNumber nodes × IsRefusedAt nodes start steps.now.items place cause }
    // `Memory` may come before a later step is refused. No clause of this call says after which steps: it may come
    // before the first, so the empty prefix would meet such a clause. `step_through`, which sees the world, says it in
    // full.
    ensures allowed { IsNodeNumber nodes → WorldRun nodes start steps.now.items
        → IsOkUnless result RunError.Memory }
{
    let mut world = World::new(alloc, nodes, start)?;
    let stepped = step_through(alloc, &mut world, steps.as_slice());
    // A world in which a step was refused ends in its report, too, which owns less that has to be given back.
    let report = world.into_report();
    stepped.and(Ok(report))
}

/// Steps a world through a list of steps. Nothing has happened yet in it.
///
/// # Errors
///
/// `Refused`, `Memory`, whichever comes first.
fn step_through(alloc: Global, world: &mut World, steps: &[Step]) -> Result<(), RunError>
    requires opening { HasMade world.old.count world.old.start [] world.old }
    ensures ok { OnOk result (HasMade world.old.count world.old.start steps.now world.new) }
    ensures counted { IsErrOf result RunError.BadCount → ⊥ }
    ensures refused { (place : ℕ) (cause : StepError) → IsErrOf result (RunError.Refused place cause)
        → IsRefusedAt world.old.count world.old.start steps.now place cause }
    ensures allowed { WorldRun world.old.count world.old.start steps.now → IsOkUnless result RunError.Memory }
    // Memory ran out at a step that can be made. So no refusal was passed over.
    ensures memory { IsErrOf result RunError.Memory → StopsBefore world.old.count world.old.start steps.now world.new }
{
    for (place, step) in steps.iter().enumerate() {
        if let Err(cause) = world.step(alloc, step) {
            return Err(RunError::at(place as u64 + 1, cause));
        }
    }
    Ok(())
}

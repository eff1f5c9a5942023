//! The state at the end of what a policy makes of a script.
ghost use Rattle.std.specs.Prelude.{◌≡◌, string_bytes, IfOk};
ghost use Rattle.ra_schedule.specs.Drive.{Drives};
ghost use Rattle.ra_schedule.specs.Performing.{Performs};
ghost use Rattle.ra_schedule.specs.Progress.{Tracks};
ghost use Rattle.ra_schedule.specs.Schedule.{steps_of};
ghost use Rattle.ra_schedule.specs.Script.{IsScript};
ghost use Rattle.ra_schedule.specs.StateText.{IsShown, ShowsState};

use crate::driver::client_state::client_lines;
use crate::driver::drive_script::{DrivenCluster, ended, opened};
use crate::script::script_names::names_of;
use crate::{DriveError, Policy, Script};
use ra_stamp::Memory;
use std::alloc::Global;

/// The state at the end of what a policy made of a script.
#[derive(Drop)]
pub struct Shown {
    /// The lines of the state.
    pub text: String,
    /// Whether every operation is done, and nothing waits, is queued or under way.
    pub finished: bool,
}

/// Drives a cluster through a script, as [`drive`](crate::drive) does, and returns the lines of the state at the end.
/// They tell of each name of the script, so that the requests that wait and hold in them are the whole lock table.
/// Beyond that it costs what `World::state_text` does for the names of the script, and for each client that waits a
/// look at the steps since its ask.
///
/// # Errors
///
/// Those of `drive`.
pub fn show(
    alloc: Global,
    script: &Script,
    policy: &Policy,
    limit: u64,
) -> Result<Shown, DriveError>
    ensures { Drives script.now policy.now limit (IsShown script.now policy.now limit) result }
{
    let mut cluster = opened(alloc, script, policy, true)?;
    let world = &mut cluster.world;
    cluster.driver.finish(alloc, script, policy, world, limit)?;
    let text = text_of(alloc, script, &cluster)?;
    let driven = ended(script, cluster);
    Ok(Shown {
        text,
        finished: driven.summary.finished,
    })
}

/// Returns the lines of the present state of a driver that recorded its steps.
///
/// # Errors
///
/// `Memory`: there is none for the lines.
fn text_of(alloc: Global, script: &Script, cluster: &DrivenCluster) -> Result<String, Memory>
    requires fit { IsScript script.now }
    requires performs { Performs script.now cluster.now.world.moves }
    requires tracked { Tracks script.now cluster.now.world cluster.now.driver.clients.items }
    requires steps { cluster.now.driver.steps.items ≡ steps_of cluster.now.world.moves }
    ensures { IfOk result (λ text. ShowsState script.now cluster.now.world.moves (string_bytes text)) }
{
    let DrivenCluster { world, driver } = cluster;
    let names = names_of(alloc, script)?;
    let steps = driver.steps.as_slice();
    let clients = client_lines(alloc, script, world, steps, &driver.clients)?;
    world.state_text(alloc, &names, clients.as_str())
}

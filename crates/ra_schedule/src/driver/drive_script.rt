ghost use Rattle.std.specs.Prelude.{◌≡◌, ◌↔◌, ℕ, Bool, length, IsTrue, IfOk};
ghost use Rattle.ra_schedule.specs.declared.choice.Policy.{Policy};
ghost use Rattle.ra_schedule.specs.Progress.{Tracks, AreDone};
ghost use Rattle.ra_schedule.specs.Drive.{Drives, IsWholeRun, IsRecording, IsSummary};
ghost use Rattle.ra_schedule.specs.Driving.{IsOpened, IsThrough, Records};

use crate::driver::Driver;
use crate::driver::begun::is_stuck;
use crate::driver::client_progress::Progress;
use crate::{Choices, DriveError, Policy, Script};
use ra_stamp::Memory;
use ra_world::{Report, Steps, World};
use std::alloc::Global;

/// What a policy made of a script.
#[derive(Drop)]
pub struct Recording {
    /// All steps, in order.
    pub steps: Steps,
    /// The choices that the policy made, one for each step. As [`Policy::Listed`] they make the same run again.
    pub choices: Choices,
    /// The outcome of the steps.
    pub report: Report,
    /// Whether every operation is done, and nothing waits, is queued or under way.
    pub finished: bool,
}

/// What a policy made of a script, except for its steps and choices.
#[derive(Drop)]
pub struct Summary {
    /// How many steps there were, one at each turn.
    pub turns: u64,
    /// The outcome of the steps.
    pub report: Report,
    /// Whether every operation is done, and nothing waits, is queued or under way.
    pub finished: bool,
}

/// A cluster that a policy drives through a script, and what is kept of it from turn to turn.
#[derive(Drop)]
pub struct DrivenCluster {
    pub world: World,
    pub driver: Driver,
}

/// What a driver made of a script, with the steps and choices if they were to be recorded.
#[derive(Drop)]
pub struct Driven {
    pub steps: Steps,
    pub choices: Choices,
    pub summary: Summary,
    /// Whether the run is stuck.
    pub stuck: bool,
}

/// Drives a cluster through a script, from numbers that begin at 0. At each turn the policy makes a choice, and the
/// choice's step is made, until no choice is left. A turn costs time linear in the number of clients, on average, plus
/// that of `World::step_near`. Whether a client may ask takes time linear in the queue of the name that it asks for, if
/// there was no memory to know the clients of a long one. The steps and choices take memory linear in the number of
/// turns.
///
/// # Errors
///
/// The first that holds, at each turn:
///
/// 1. `TurnLimit`: a choice is left after `limit` turns, also one that can't be made.
/// 2. `BadPlace`: the choice names a client or a message that does not exist.
/// 3. `NotEnabled`: it names a client that has nothing left to do, waits, or would be refused.
/// 4. `Memory`: memory ran out.
pub fn drive(
    alloc: Global,
    script: &Script,
    policy: &Policy,
    limit: u64,
) -> Result<Recording, DriveError>
    ensures { Drives script.now policy.now limit (IsRecording script.now policy.now limit) result }
{
    let Driven {
        steps,
        choices,
        summary: Summary {
            report,
            finished,
            ..
        },
        ..
    } = drive_through(alloc, script, policy, limit, true)?;
    Ok(Recording {
        steps,
        choices,
        report,
        finished,
    })
}

/// Does as [`drive`], and keeps no steps and no choices. So it takes less time, and memory only for the world and for
/// what it reports.
///
/// # Errors
///
/// Those of `drive`.
pub fn summarize(
    alloc: Global,
    script: &Script,
    policy: &Policy,
    limit: u64,
) -> Result<Summary, DriveError>
    ensures { Drives script.now policy.now limit (IsSummary script.now policy.now limit) result }
{
    let Driven { summary, .. } = drive_through(alloc, script, policy, limit, false)?;
    Ok(summary)
}

/// Does as [`drive`], and records the steps and choices, or none.
///
/// # Errors
///
/// Those of `drive`.
pub fn drive_through(
    alloc: Global,
    script: &Script,
    policy: &Policy,
    limit: u64,
    records: bool,
) -> Result<Driven, DriveError>
    ensures { Drives script.now policy.now limit (Records script.now policy.now limit records) result }
{
    let mut cluster = opened(alloc, script, policy, records)?;
    let world = &mut cluster.world;
    cluster.driver.finish(alloc, script, policy, world, limit)?;
    Ok(ended(script, cluster))
}

/// Makes the cluster of a script, before its first step, and what drives it, which records the steps and choices, or
/// none.
///
/// # Errors
///
/// `Memory`: memory ran out.
pub fn opened(
    alloc: Global,
    script: &Script,
    policy: &Policy,
    records: bool,
) -> Result<DrivenCluster, Memory>
    ensures { IfOk result (IsOpened script.now policy.now records) }
{
    let Ok(world) = World::new(alloc, script.nodes(), 0) else {
        return Err(Memory);
    };
    let driver = Driver::open(alloc, script, policy, &world, records)?;
    Ok(DrivenCluster { world, driver })
}

/// Returns what a policy made of a script when it came to its end. It takes no memory.
pub fn ended(script: &Script, cluster: DrivenCluster) -> Driven
    requires { Tracks script.now cluster.world cluster.driver.clients.items }
    ensures made { (policy : Policy) (limit : ℕ) (records : Bool)
        → IsThrough script.now policy limit records cluster → Records script.now policy limit records result }
    ensures run { (policy : Policy) (limit : ℕ) (records : Bool) → IsThrough script.now policy limit records cluster
        → IsWholeRun script.now policy limit cluster.world.moves result.summary.report result.summary.finished }
{
    let DrivenCluster { world, driver } = cluster;
    let Driver {
        clients,
        steps,
        choices,
        ..
    } = driver;
    let stuck = is_stuck(script, &world, &clients);
    let turns = world.steps();
    let report = world.into_report();
    let finished = is_finished(script, &clients, &report);
    Driven {
        steps,
        choices,
        summary: Summary {
            turns,
            report,
            finished,
        },
        stuck,
    }
}

/// Returns whether each client has done all that it has to do, and nothing waits, is queued or under way.
fn is_finished(script: &Script, clients: &[Progress], report: &Report) -> bool
    requires { length clients.now ≡ length script.now.clients }
    ensures { IsTrue result ↔ ((report.now.waiting ≡ 0) × (report.now.queued ≡ 0) × (report.now.under_way ≡ 0)
        × AreDone script.now clients.now) }
{
    if report.waiting != 0 || report.queued != 0 || report.under_way != 0 {
        return false;
    }
    for place in 0..script.clients() {
        if script.ops_of(place + 1) != Some(clients[place as usize].done) {
            return false;
        }
    }
    true
}

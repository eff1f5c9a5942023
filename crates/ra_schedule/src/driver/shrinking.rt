//! A run that is stuck, made shorter step by step.
ghost use Rattle.std.specs.Prelude.{◌≡◌, ◌<◌, ◌≤◌, List, length, IfOk, OnOk, MatchOption};
ghost use Rattle.ra_world.specs.Traffic.{Move};
ghost use Rattle.ra_schedule.specs.Drive.{Drives};
ghost use Rattle.ra_schedule.specs.Shrinking.{IsShrunk, IsInVain, IsLeast, IsLeastOf, cut};
ghost use Rattle.ra_schedule.specs.Shrinking as spec;
ghost use Rattle.ra_schedule.specs.Replaying.{IsStuckList, IsShorter, AreInVain, IsShorterRunOf};

use crate::driver::Driver;
use crate::driver::drive_script::{Driven, DrivenCluster, Summary, drive_through, opened};
use crate::driver::replaying::replay;
use crate::{Choices, DriveError, Policy, Script};
use ra_stamp::Memory;
use ra_world::{Step, Steps};
use std::alloc::Global;

/// What a run is shrunk to.
#[derive(Drop)]
pub struct Shrunk {
    /// The least list of choices that was found, or `None` if the run is not stuck.
    pub choices: Option<Choices>,
    /// Whether the run that is shrunk is finished: every operation is done, and nothing waits, is queued or under way.
    pub finished: bool,
}

/// The steps of a run, and the choices that make them.
#[derive(Drop)]
struct Listed {
    steps: Steps,
    choices: Choices,
}

/// A shorter run that is stuck, and the place of the step that was left out.
#[derive(Drop)]
struct ShorterRun {
    list: Listed,
    place: usize,
}

/// Returns the client of a step, if it is one of a client.
fn client_of(step: &Step) -> Option<u32>
    ensures { result ≡ spec.client_of step.now }
{
    match step {
        Step::Ask { client, .. } | Step::Leave { client, .. } | Step::Cancel { client, .. } => {
            Some(*client)
        }
        Step::Deliver(_) | Step::Lose(_) | Step::Repeat(_) | Step::Forget { .. } => None,
    }
}

/// Returns whether both are steps of one client.
fn are_of_one_client(one: &Step, other: &Step) -> bool
    ensures { result ≡ spec.are_of_one_client one.now other.now }
{
    let Some(client) = client_of(one) else {
        return false;
    };
    match client_of(other) {
        Some(another) => client == another,
        None => false,
    }
}

/// Returns the steps without the one at a place and, if that is of a client, without the later ones of this client.
///
/// # Errors
///
/// `Memory`: memory ran out.
fn cut_of(alloc: Global, steps: &[Step], place: usize) -> Result<Steps, Memory>
    requires { place < length steps.now }
    ensures { IfOk result (λ left. left.items ≡ cut steps.now place) }
{
    let mut left = Steps::new(alloc);
    for earlier in 0..place {
        left.push(steps[earlier])?;
    }
    for later in place + 1..steps.len() {
        if !are_of_one_client(&steps[place], &steps[later]) {
            left.push(steps[later])?;
        }
    }
    Ok(left)
}

/// Replays steps without the one at a place, and returns the run if it is stuck and has fewer steps than there were.
///
/// # Errors
///
/// `Memory`: memory ran out.
fn try_without(
    alloc: Global,
    script: &Script,
    steps: &[Step],
    place: usize,
) -> Result<Option<Listed>, Memory>
    requires { place < length steps.now }
    ensures { IfOk result (λ found. MatchOption found (IsInVain script.now (cut steps.now place) (length steps.now))
        (IsShorter script.now (cut steps.now place) (length steps.now))) }
{
    let left = cut_of(alloc, steps, place)?;
    let DrivenCluster {
        mut world,
        mut driver,
    } = opened(alloc, script, &Policy::Oldest, true)?;
    let is_shorter = replay(
        alloc,
        script,
        &mut world,
        &mut driver,
        left.as_slice(),
        steps.len() as u64,
    )?;
    if !is_shorter {
        return Ok(None);
    }
    let Driver { steps, choices, .. } = driver;
    Ok(Some(Listed { steps, choices }))
}

/// Returns a shorter run that is stuck, the first one that is found if one step after the other is left out, from one
/// place up to another, or `None`.
///
/// # Errors
///
/// `Memory`: memory ran out.
fn shorter_between(
    alloc: Global,
    script: &Script,
    steps: &[Step],
    from: usize,
    to: usize,
) -> Result<Option<ShorterRun>, Memory>
    requires { to ≤ length steps.now }
    ensures { IfOk result
        (λ found. MatchOption found (AreInVain script.now steps.now from to) (IsShorterRunOf script.now steps.now)) }
{
    for place in from..to {
        if let Some(list) = try_without(alloc, script, steps, place)? {
            return Ok(Some(ShorterRun { list, place }));
        }
    }
    Ok(None)
}

/// Returns a shorter run that is stuck, the first one that is found if one step after the other is left out, those from
/// a place on and then those before it, or `None`.
///
/// # Errors
///
/// `Memory`: memory ran out.
fn shorter(
    alloc: Global,
    script: &Script,
    steps: &[Step],
    first: usize,
) -> Result<Option<ShorterRun>, Memory>
    ensures { IfOk result
        (λ found. MatchOption found (IsLeast script.now steps.now) (IsShorterRunOf script.now steps.now)) }
{
    let start = first.min(steps.len());
    match shorter_between(alloc, script, steps, start, steps.len())? {
        Some(found) => Ok(Some(found)),
        None => shorter_between(alloc, script, steps, 0, start),
    }
}

/// Makes a run that is stuck shorter as long as a step can be left out. After a step that was left out, those that
/// follow it are next: what could not be left out before it is likely to be needed still. The list is lent, so that it
/// need not be given back at each exit.
///
/// # Errors
///
/// `Memory`: memory ran out.
fn shorten(alloc: Global, script: &Script, list: &mut Listed) -> Result<(), Memory>
    ensures { (moves : List Move) → IsStuckList script.now moves list.old
        → OnOk result (IsLeastOf script.now moves list.new.choices) }
{
    let mut first = 0;
    while let Some(found) = shorter(alloc, script, list.steps.as_slice(), first)? {
        first = found.place;
        *list = found.list;
    }
    Ok(())
}

/// Drives a cluster through a script by a policy, as `drive` does, and shrinks the run if it is stuck. It is if no
/// client that has begun is enabled and nothing is under way, but some client waits. Clients that have not begun do not
/// count.
///
/// One step after the other is left out, from the first one on. If it is of a client, the later steps of this client
/// are left out, too. The others are done again in their order, each if it can be then, and after them the oldest
/// choices of clients that have begun. If this run is stuck and has fewer steps, it takes the place of the one before,
/// and the step that is at the same place now is the next to be left out. After the last step comes the first one
/// again, until each step of one run was left out in vain. This does not mean that there is no shorter list.
///
/// For a run of n steps, at most n(n + 1) / 2 runs are made, each of at most n steps. It takes memory linear in n.
///
/// # Errors
///
/// Those of `drive`. `Memory` may also come later.
pub fn shrink(
    alloc: Global,
    script: &Script,
    policy: &Policy,
    limit: u64,
) -> Result<Shrunk, DriveError>
    ensures { Drives script.now policy.now limit (IsShrunk script.now policy.now limit) result }
{
    let Driven {
        steps,
        choices,
        summary: Summary { finished, .. },
        stuck,
    } = drive_through(alloc, script, policy, limit, true)?;
    if !stuck {
        return Ok(Shrunk {
            choices: None,
            finished,
        });
    }
    let mut list = Listed { steps, choices };
    shorten(alloc, script, &mut list)?;
    Ok(Shrunk {
        choices: Some(list.choices),
        finished,
    })
}

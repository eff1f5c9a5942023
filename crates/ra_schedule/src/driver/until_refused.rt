//! How far a policy drives a cluster through a script.
ghost use Rattle.std.specs.Prelude.{IfOk};
ghost use Rattle.ra_schedule.specs.Drive.{IsDrivenPart};

use crate::driver::drive_script::{DrivenCluster, opened};
use crate::{DriveError, Policy, Script};
use ra_stamp::Memory;
use ra_world::Report;
use std::alloc::Global;

/// What a policy made of a script before it was refused, or of all of it.
#[derive(Drop)]
pub struct DrivenPart {
    /// How many turns were made. If the next one was refused, this is the place of its choice, counted from 0.
    pub turns: u64,
    /// What these turns led to.
    pub report: Report,
    /// Why the next turn was not made, never `Memory`, or `None` if no choice was left.
    pub refusal: Option<DriveError>,
}

/// Drives a cluster through a script, as [`drive`](crate::drive) does, until no choice is left or one is refused.
/// Returns how many turns were made, what they led to, and why there was no further one. It costs what
/// [`summarize`](crate::summarize) does.
///
/// # Errors
///
/// `Memory`: memory ran out.
pub fn drive_until_refused(
    alloc: Global,
    script: &Script,
    policy: &Policy,
    limit: u64,
) -> Result<DrivenPart, Memory>
    ensures { IfOk result (IsDrivenPart script.now policy.now limit) }
{
    let mut cluster = opened(alloc, script, policy, false)?;
    let world = &mut cluster.world;
    let refusal = match cluster.driver.finish(alloc, script, policy, world, limit) {
        Ok(()) => None,
        Err(cause) => {
            if let DriveError::Memory = cause {
                return Err(Memory);
            }
            Some(cause)
        }
    };
    let DrivenCluster { world, driver: _ } = cluster;
    Ok(DrivenPart {
        turns: world.steps(),
        report: world.into_report(),
        refusal,
    })
}

//! A script under many seeds.
pub mod chances;
pub mod first_seed;
pub mod observer;
pub mod seed_outcomes;
pub mod seed_range;

ghost use Rattle.std.specs.Prelude.{◌≡◌, ◌+◌, ◌-◌, IfOk, OnOk, OnErr};
ghost use Rattle.ra_schedule.specs.Survey.{IsOutcome, IsSurvey, SeedsFinish};
ghost use Rattle.ra_schedule.specs.Telling.{TellsSeeds, TellsSomeSeeds};
ghost use Rattle.ra_schedule.specs.Survey as spec;

use crate::surveys::observer::Observer;
use crate::surveys::seed_outcomes::{RunCost, SeedOutcome, Survey, no_survey, with_outcome};
use crate::{Chances, DriveError, Faults, Policy, Script, SeedRange, summarize};
use ra_stamp::Memory;
use std::alloc::Global;

/// Returns chance by a seed, with faults or without. It does not allocate.
pub fn chance(faults: Option<Faults>, seed: u64) -> Policy
    ensures { result ≡ spec.chance faults seed }
{
    match faults {
        None => Policy::Seeded(seed),
        Some(faults) => Policy::Faulty { seed, faults },
    }
}

/// Returns the outcome of a script by chance under a seed, with faults or without, within `limit` turns.
///
/// # Errors
///
/// `Memory`: memory ran out.
pub fn outcome_of(
    alloc: Global,
    script: &Script,
    faults: &Option<Faults>,
    seed: u64,
    limit: u64,
) -> Result<SeedOutcome, Memory>
    ensures { IfOk result (IsOutcome script.now (spec.chance faults.now seed) limit) }
{
    match summarize(alloc, script, &chance(*faults, seed), limit) {
        Ok(summary) => {
            let figures = RunCost {
                turns: summary.turns,
                messages: summary.report.sent,
            };
            Ok(if summary.finished {
                SeedOutcome::Finished(figures)
            } else {
                SeedOutcome::Stuck(figures)
            })
        }
        Err(DriveError::TurnLimit) => Ok(SeedOutcome::Limit),
        // Chance takes only choices that can be made.
        Err(_) => Err(Memory),
    }
}

/// Drives a cluster through a script by chance under each seed, each within `limit` turns, and counts their outcomes.
/// The observer learns of each seed. It costs what [`summarize`] costs, for each seed, and keeps nothing of a run but
/// its figures.
///
/// # Errors
///
/// `Memory`: memory ran out at some seed. The observer has learned of those before it.
pub fn survey<O: Observer>(
    alloc: Global,
    script: &Script,
    chances: &Chances,
    limit: u64,
    observer: &mut O,
) -> Result<Survey, Memory>
    ensures ok { IfOk result
        (IsSurvey script.now chances.now.faults limit chances.now.seeds.first chances.now.seeds.last) }
    ensures waiting_ends { IfOk result
        (SeedsFinish script.now chances.now.faults limit chances.now.seeds.first chances.now.seeds.last) }
    ensures told { OnOk result (TellsSeeds script.now chances.now.faults limit chances.now.seeds.first
        (chances.now.seeds.last + 1 - chances.now.seeds.first) (O.told observer.old) (O.told observer.new)) }
    ensures err { OnErr result (TellsSomeSeeds script.now chances.now.faults limit chances.now.seeds.first
        chances.now.seeds.last (O.told observer.old) (O.told observer.new)) }
{
    // For the proof: the script is within its limits.
    script.limits_hold();
    let SeedRange { first, last } = chances.seeds;
    let mut survey = no_survey();
    for seed in first..=last {
        let outcome = outcome_of(alloc, script, &chances.faults, seed, limit)?;
        observer.ended(seed, outcome);
        survey = with_outcome(survey, seed, outcome);
    }
    Ok(survey)
}

//! The first seed with which a script comes to an end that is looked for.
ghost use Rattle.std.specs.Prelude.{◌≡◌, IfOk, OnErr};
ghost use Rattle.ra_schedule.specs.Finding.{IsFirstSeed};
ghost use Rattle.ra_schedule.specs.Finding as spec;
ghost use Rattle.ra_schedule.specs.Telling.{TellsSeeds, TellsSomeSeeds, tried};

use crate::surveys::observer::Observer;
use crate::surveys::outcome_of;
use crate::surveys::seed_outcomes::SeedOutcome;
use crate::{Chances, Script, SeedRange};
use ra_stamp::Memory;
use std::alloc::Global;

/// An end of a run that may be looked for.
#[derive(Clone, Copy)]
pub enum Ending {
    /// Every operation is done, and nothing waits, is queued or under way.
    Finished,
    /// No choice was left before that.
    Stuck,
}

/// Returns whether a run with this outcome comes to such an end. It does not allocate.
fn is_end(ending: Ending, outcome: SeedOutcome) -> bool
    ensures { result ≡ spec.is_end ending outcome }
{
    match ending {
        Ending::Finished => matches!(outcome, SeedOutcome::Finished(_)),
        Ending::Stuck => matches!(outcome, SeedOutcome::Stuck(_)),
    }
}

/// Looks for the least seed with which a script comes to this end by chance, within `limit` turns. The observer learns
/// of each seed up to that one. It costs what [`summarize`](crate::summarize) costs, for each of them.
///
/// # Errors
///
/// `Memory`: memory ran out at some seed. The observer learned of those before it.
pub fn first_seed<O: Observer>(
    alloc: Global,
    script: &Script,
    chances: &Chances,
    ending: Ending,
    limit: u64,
    observer: &mut O,
) -> Result<Option<u64>, Memory>
    ensures ok { IfOk result
        (IsFirstSeed script.now chances.now.faults limit ending chances.now.seeds.first chances.now.seeds.last) }
    ensures told { IfOk result
        (λ found. TellsSeeds script.now chances.now.faults limit chances.now.seeds.first
        (tried chances.now.seeds.first chances.now.seeds.last found) (O.told observer.old) (O.told observer.new)) }
    ensures err { OnErr result (TellsSomeSeeds script.now chances.now.faults limit chances.now.seeds.first
        chances.now.seeds.last (O.told observer.old) (O.told observer.new)) }
{
    let SeedRange { first, last } = chances.seeds;
    for seed in first..=last {
        let outcome = outcome_of(alloc, script, &chances.faults, seed, limit)?;
        observer.ended(seed, outcome);
        if is_end(ending, outcome) {
            return Ok(Some(seed));
        }
    }
    Ok(None)
}

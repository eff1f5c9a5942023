//! The first run of a script that comes to an end that is looked for.
ghost use Rattle.std.specs.Prelude.{◌≡◌, ◌⊎◌, ℕ, List, Option, Some, Ok, IfOk, IsErrOf, OnOk, MatchOption, string_bytes};
ghost use Rattle.ra_schedule.specs.Telling.{TellsSomeSeeds};
ghost use Rattle.ra_script.specs.Finding.{IsFirstRun, IsFirstUnwritten, NoneEndsSo, TellsUpTo};
ghost use Rattle.ra_script.specs.Performed.{turn_limit};
ghost use Rattle.ra_script.specs.ScriptText.{script_of};

use crate::performing::printed::Printed;
use crate::performing::{MAX_TURNS, print_run};
use crate::{OutputKind, PerformError};
use ra_schedule::{Chances, ChoicesError, Ending, Observer, Script, chance, first_seed};
use std::alloc::Global;

/// Returns what is written, in a format, of the run of a script with the least seed that brings it to an end by chance,
/// in at most 16,777,216 turns. It is `None` if no seed brings the script to that end. The observer learns of each seed
/// that is tried; the last of them made the run. The cost is that of the runs up to that one, plus what
/// [`perform_as`](crate::perform_as) says of the format for it.
///
/// # Errors
///
/// The first that holds, except that `Memory` may come before the other:
///
/// 1. `Choice`: choices are to be written, and one of them repeats a message, which no word can say. The observer
///    learned of each seed up to that of the run.
/// 2. `Memory`: memory ran out at some seed, and the observer learned of those before it; or for the text, and the
///    observer learned of each seed up to the run's.
pub fn find_run<O: Observer>(
    alloc: Global,
    script: &Script,
    chances: &Chances,
    ending: Ending,
    format: OutputKind,
    observer: &mut O,
) -> Result<Option<Printed>, ChoicesError>
    ensures run { (input : List ℕ) → script_of input ≡ Ok script.now → IfOk result (λ found. MatchOption found
        (NoneEndsSo chances.now.faults ending chances.now.seeds.first chances.now.seeds.last input)
        (λ printed. IsFirstRun format chances.now.faults ending chances.now.seeds.first chances.now.seeds.last input
        (string_bytes printed.text) printed.finished)) }
    ensures unwritten { (input : List ℕ) → script_of input ≡ Ok script.now → IsErrOf result ChoicesError.Choice
        → IsFirstUnwritten format chances.now.faults ending chances.now.seeds.first chances.now.seeds.last input }
    ensures told { OnOk result ((found : Option ℕ)
        × TellsUpTo script.now chances.now ending found (O.told observer.old) (O.told observer.new)) }
    ensures choice { IsErrOf result ChoicesError.Choice → (seed : ℕ)
        × TellsUpTo script.now chances.now ending (Some seed) (O.told observer.old) (O.told observer.new) }
    ensures memory { IsErrOf result ChoicesError.Memory
        → TellsSomeSeeds script.now chances.now.faults turn_limit chances.now.seeds.first chances.now.seeds.last
        (O.told observer.old) (O.told observer.new)
        ⊎ ((seed : ℕ)
        × TellsUpTo script.now chances.now ending (Some seed) (O.told observer.old) (O.told observer.new)) }
{
    let found = first_seed(alloc, script, chances, ending, MAX_TURNS, observer)?;
    let Some(seed) = found else {
        return Ok(None);
    };
    match print_run(alloc, format, &chance(chances.faults, seed), script) {
        Ok(printed) => Ok(Some(printed)),
        Err(PerformError::Choice) => Err(ChoicesError::Choice),
        // With that seed it comes to an end, so only `Memory` can come.
        Err(_) => Err(ChoicesError::Memory),
    }
}

//! The trace of a run whose steps are known.
ghost use Rattle.std.specs.Prelude.{◌≡◌, List, map, IfOk, string_bytes};
ghost use Rattle.ra_world.specs.Traffic.{Move};
ghost use Rattle.ra_trace.specs.TraceText.{IsTrace};

use ra_stamp::Memory;
use ra_trace::trace_text;
use ra_world::Steps;
use std::alloc::Global;

/// Returns the trace of a run of this many nodes, with all numbers beginning at `start`, from its steps. They are made
/// again for it.
///
/// # Errors
///
/// `Memory`: memory ran out.
pub fn trace_of_steps(
    alloc: Global,
    nodes: u16,
    start: u64,
    steps: &Steps,
) -> Result<String, Memory>
    ensures { IfOk result (λ text. (moves : List Move) × (map (λ move. move.step) moves ≡ steps.now.items)
        × IsTrace nodes start moves (string_bytes text)) }
{
    // The steps are a run, so only `Memory` can come.
    match trace_text(alloc, nodes, start, steps) {
        Ok(text) => Ok(text),
        Err(_) => Err(Memory),
    }
}

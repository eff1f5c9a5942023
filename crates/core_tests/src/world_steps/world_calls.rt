//! The calls of a world, and steps given by lines of a trace.
use ra_trace::Line;
use ra_world::{Report, Step, StepError, World};
use std::alloc::Global;
use std::process::Abort;

/// Client 1 of node 1 asks for `r`.
pub const ASKS: &str = "ask 1 1 r X";

/// It leaves `r`.
pub const LEAVES: &str = "release 1 1 r";

/// Returns the step that a line tells, or `None` if it tells none.
pub fn step_of(line: &str) -> Option<Step> {
    match Line::parse(line.as_bytes()) {
        Some(Line::Stepped(step)) => Some(step),
        _ => None,
    }
}

/// Returns the step that a line tells.
pub fn step(rt: &impl Abort, line: &str) -> Step {
    match step_of(line) {
        Some(step) => step,
        None => panic!(rt; "{line:?} tells no step"),
    }
}

/// Makes a world of this many nodes, whose numbers begin at `start`.
pub fn new_world(alloc: Global, nodes: u16, start: u64) -> Option<World> {
    World::new(alloc, nodes, start).ok()
}

/// Returns why a world does not make a step, or `None` if it makes it.
pub fn fault_of(alloc: Global, world: &mut World, step: &Step) -> Option<StepError> {
    world.step(alloc, step).err()
}

/// Returns a world's report.
pub fn report_of(alloc: Global, world: &World) -> Option<Report> {
    world.report(alloc).ok()
}

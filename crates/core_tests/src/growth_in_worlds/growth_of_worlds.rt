//! Each growth is refused in turn: the call returns `Memory`, leaves everything as it was, and succeeds when made
//! again. `cases/` has what scripts do then.
use crate::run_tests::reported_runs::run_of;
use crate::world_steps::alike_worlds::assert_alike;
use crate::world_steps::report_totals::totals;
use crate::world_steps::world_asserting::{assert_grown, assert_same, fail_at};
use crate::world_steps::world_calls::{ASKS, LEAVES, fault_of, new_world, report_of, step};
use ra_stamp::{Memory, Mode, Name};
use ra_world::{RunError, Step, StepError, Steps, World, report_text};
use std::process::Abort;
use test_support::{At, Tried, again, assert_memory, both, id, part, row};

/// Node 1 enters first, then node 2, and then the REQUEST of node 1 is repeated and lost. Its copy is repeated so often
/// that no room is left for another. The client gives up, and the node forgets names.
const LINES: [&str; 20] = [
    "ask 1 1 r X",
    "ask 2 1 r X",
    "deliver request 1 2 r X 1",
    "deliver request 2 1 r X 1",
    "deliver reply 2 1 r 1",
    "release 1 1 r",
    "deliver reply 1 2 r 1",
    "release 2 1 r",
    "ask 1 1 r X",
    "repeat request 1 2 r X 2",
    "lose request 1 2 r X 2",
    "repeat request 1 2 r X 2",
    "repeat request 1 2 r X 2",
    "repeat request 1 2 r X 2",
    "repeat request 1 2 r X 2",
    "repeat request 1 2 r X 2",
    "repeat request 1 2 r X 2",
    "repeat request 1 2 r X 2",
    "cancel 1 1 r",
    "forget 1",
];

/// Makes a step. If it is refused, memory ran out.
fn make(
    rt: &(impl Abort + AllocGlobal),
    at: At<'_>,
    world: &mut World,
    step: &Step,
) -> Result<(), Memory> {
    match fault_of(rt.alloc(), world, step) {
        None => Ok(()),
        Some(fault) => Err(assert_memory!(rt, at, fault, StepError::Memory)),
    }
}

/// Asserts that a world is like another one that made exactly these steps. If memory to see that is lacking, says so.
fn compare(
    rt: &(impl Abort + AllocGlobal),
    at: At<'_>,
    world: &World,
    lines: &[&str],
) -> Result<Tried, Memory> {
    let Some(mut other) = new_world(rt.alloc(), 2, 0) else {
        return Err(Memory);
    };
    for line in lines {
        make(rt, part(at.0, line), &mut other, &step(rt, line))?;
    }
    assert_alike(rt, at, world, &other)?;
    Ok(Tried::NoFailure)
}

/// Returns what a world shows without memory: how many steps it has made, how many messages are under way, and the
/// first one.
fn shown(world: &World) -> (u64, (u64, Option<ra_stamp::Message>)) {
    (world.steps(), (world.under_way(), world.message_at(0)))
}

/// Makes a step, and makes it again if memory ran out and what the world shows is unchanged.
fn try_step(rt: &(impl Abort + AllocGlobal), at: At<'_>, world: &mut World, step: &Step) -> Tried {
    let before = shown(world);
    if make(rt, at, world, step).is_ok() {
        return Tried::NoFailure;
    }
    assert_same(rt, at, &shown(world), &before);
    assert_same(rt, at, &make(rt, at, world, step), &Ok(()));
    Tried::RetrySucceeded
}

/// Makes the step of a line after those made, and again if memory ran out and the world is unchanged.
fn try_line(
    rt: &(impl Abort + AllocGlobal),
    world: &mut World,
    made: &[&str],
    line: &str,
) -> Tried {
    let (at, step) = (At(line, "after steps:", made.len()), step(rt, line));
    if make(rt, at, world, &step).is_ok() {
        return Tried::NoFailure;
    }
    let compared = compare(rt, at, world, made);
    assert_same(rt, at, &compared, &Ok(Tried::NoFailure));
    assert_same(rt, at, &make(rt, at, world, &step), &Ok(()));
    Tried::RetrySucceeded
}

/// Makes the report of a world in which all steps were made. If no report is made, memory ran out.
fn try_report(rt: &(impl Abort + AllocGlobal), world: &World) -> Result<Tried, Memory> {
    match report_of(rt.alloc(), world) {
        Some(report) => {
            let (marks, at) = (report.marks.len(), row("the report of all steps"));
            assert_same(rt, at, &marks, &8);
            assert_same(rt, at, &totals(&report), &[3, 5, 8, 1, 8, 0, 0]);
            assert_same(rt, at, &report.withdrawn, &1);
            Ok(Tried::NoFailure)
        }
        None => Err(Memory),
    }
}

/// Makes all steps, and the report.
fn try_steps(rt: &(impl Abort + AllocGlobal), world: &mut World) -> Tried {
    let mut tried = Tried::NoFailure;
    for place in 0..LINES.len() {
        let line = try_line(rt, world, &LINES[..place], LINES[place]);
        tried = both(tried, line);
    }
    // The comparison takes memory itself, and at most one growth is refused.
    let at = row("after all steps");
    let compared = again(
        compare(rt, at, world, &LINES),
        compare(rt, at, world, &LINES),
    );
    let reported = again(try_report(rt, world), try_report(rt, world));
    both(tried, both(compared, reported))
}

/// What is tried in a new world of two nodes.
#[derive(Clone, Copy)]
enum Trial {
    /// All steps are made.
    Steps,
    /// A client asks for many names, and a message in the middle is delivered.
    ManyAsks,
    /// The lines of the report are made, as nothing has happened.
    Lines,
}

/// Tries this in a new world. If it is refused, memory ran out.
fn try_in(
    rt: &(impl Abort + AllocGlobal),
    world: &mut World,
    trial: Trial,
) -> Result<Tried, Memory> {
    match trial {
        Trial::Steps => Ok(try_steps(rt, world)),
        Trial::ManyAsks => Ok(both(try_asks(rt, world), try_middle(rt, world))),
        Trial::Lines => try_lines(rt, world),
    }
}

/// Makes a world and tries this in it. If there is no world, memory ran out.
fn try_in_new(rt: &(impl Abort + AllocGlobal), trial: Trial) -> Result<Tried, Memory> {
    match new_world(rt.alloc(), 2, 0) {
        Some(mut world) => try_in(rt, &mut world, trial),
        None => Err(Memory),
    }
}

/// Makes a world and tries this in it, twice.
fn grow_world(rt: &(impl Abort + AllocGlobal), trial: Trial) {
    assert_grown(rt, again(try_in_new(rt, trial), try_in_new(rt, trial)));
}

#[test]
fn growth_of_a_world(rt: HostRuntime) {
    grow_world(&rt, Trial::Steps);
}

/// 32 letters, which make 1,024 names of two letters.
const LETTERS: &[u8] = b"abcdefghijklmnopqrstuvwxyzABCDEF";

/// Has client 1 of node 1 ask for the name of two letters.
fn try_ask(
    rt: &(impl Abort + AllocGlobal),
    at: At<'_>,
    world: &mut World,
    letters: [u8; 2],
) -> Tried {
    let name = match Name::new(&letters) {
        Ok(name) => name,
        Err(fault) => panic!(rt; "{at}: there is no such name: {fault}"),
    };
    let step = Step::Ask {
        node: id(1),
        client: 1,
        name,
        mode: Mode::Exclusive,
    };
    try_step(rt, at, world, &step)
}

/// Has it ask for more than a thousand names, one after the other, so that as many messages are under way.
fn try_asks(rt: &(impl Abort + AllocGlobal), world: &mut World) -> Tried {
    let mut tried = Tried::NoFailure;
    for first in LETTERS {
        for second in LETTERS {
            let at = At("many asks", "after messages:", world.under_way() as usize);
            tried = both(tried, try_ask(rt, at, world, [*first, *second]));
        }
    }
    tried
}

/// Delivers the message in the middle. A world learns the place of each message for that, and may lack the memory.
fn try_middle(rt: &(impl Abort + AllocGlobal), world: &mut World) -> Tried {
    let at = row("the message in the middle");
    match world.message_at(500) {
        Some(message) => try_step(rt, at, world, &Step::Deliver(message)),
        None => fail_at(rt, at, "it is not under way"),
    }
}

#[test]
fn large_growth_of_a_world(rt: HostRuntime) {
    grow_world(&rt, Trial::ManyAsks);
}

/// Adds a step to a list, and again if memory ran out.
fn try_push(rt: &impl Abort, at: At<'_>, steps: &mut Steps, step: &Step) -> Tried {
    let before = steps.len();
    if steps.push(*step).is_ok() {
        return Tried::NoFailure;
    }
    assert_same(rt, at, &steps.len(), &before);
    assert_same(rt, at, &steps.push(*step), &Ok(()));
    Tried::RetrySucceeded
}

/// Makes a list of the two steps of a lock.
fn try_pushes(rt: &impl Abort, steps: &mut Steps) -> Tried {
    let label = "a list of steps";
    let (asks, leaves) = (step(rt, ASKS), step(rt, LEAVES));
    both(
        try_push(rt, part(label, ASKS), steps, &asks),
        try_push(rt, part(label, LEAVES), steps, &leaves),
    )
}

/// Runs steps at one node. If that is refused, memory ran out.
fn try_run(rt: &(impl Abort + AllocGlobal), steps: &Steps) -> Result<Tried, Memory> {
    let at = row("a run");
    match run_of(rt.alloc(), 1, 0, steps) {
        Ok(report) => {
            assert_same(rt, at, &(report.marks.len(), report.sent), &(3, 0));
            Ok(Tried::NoFailure)
        }
        Err(fault) => Err(assert_memory!(rt, at, fault, RunError::Memory)),
    }
}

#[test]
fn growth_of_a_run(rt: HostRuntime) {
    let mut steps = Steps::new(rt.alloc());
    let pushed = try_pushes(&rt, &mut steps);
    let run = again(try_run(&rt, &steps), try_run(&rt, &steps));
    assert_grown(&rt, both(pushed, run));
}

/// Compares a text with the expected one. If there is no text, memory ran out.
fn try_text(
    rt: &impl Abort,
    label: &str,
    came: Result<String, Memory>,
    expected: &str,
) -> Result<Tried, Memory> {
    let text = came?;
    assert_same(rt, row(label), &text.as_str(), &expected);
    Ok(Tried::NoFailure)
}

/// The lines of the report of a world before its first step.
const NOTHING: &str = "requests 0\nmessages 0\nunder-way 0\nlost 0\nwaiting 0\nqueued 0\n";

/// Makes the lines of the report of a world before its first step. If no lines are made, memory ran out.
fn try_lines(rt: &(impl Abort + AllocGlobal), world: &World) -> Result<Tried, Memory> {
    match report_of(rt.alloc(), world) {
        Some(report) => {
            let text = report_text(rt.alloc(), &report);
            try_text(rt, "the report of a new world", text, NOTHING)
        }
        None => Err(Memory),
    }
}

#[test]
fn growth_of_the_lines_of_a_report(rt: HostRuntime) {
    grow_world(&rt, Trial::Lines);
}

//! What no command shows of a world: which steps it accepts, which of equal messages it takes if it looks at one of
//! them first, and that it makes more steps than any trace has. What happens in runs is in `cases/traces.toml`.
use crate::world_steps::report_totals::totals;
use crate::world_steps::world_asserting::{assert_same, fail_at};
use crate::world_steps::world_calls::{ASKS, LEAVES, fault_of, new_world, report_of, step};
use ra_world::{Step, World};
use std::process::Abort;
use test_support::{At, part, row};

/// Returns a world of this many nodes.
fn world_of(rt: &(impl Abort + AllocGlobal), nodes: u16) -> World {
    match new_world(rt.alloc(), nodes, 0) {
        Some(world) => world,
        None => panic!(rt; "there is no world of {nodes} nodes"),
    }
}

/// Makes a step.
fn makes(rt: &(impl Abort + AllocGlobal), at: At<'_>, world: &mut World, step: &Step) {
    assert_same(rt, at, &fault_of(rt.alloc(), world, step), &None);
}

/// After client 1 of node 1 of 2 has asked for `r`: the line of a step, and whether it is accepted.
const ACCEPTED: &[(&str, bool)] = &[
    ("deliver request 1 2 r X 1", true),
    ("lose request 1 2 r X 1", true),
    ("repeat request 1 2 r X 1", true),
    ("ask 2 2 r X", true),
    ("ask 1 2 r X", true),
    ("ask 1 1 r X", false),
    ("deliver request 1 3 r X 1", false),
    ("repeat request 1 3 r X 1", false),
    ("lose reply 2 1 r 1", false),
    ("repeat reply 2 1 r 1", false),
    ("release 1 1 r", false),
    ("ask 3 1 r X", false),
];

#[test]
fn only_what_may_come_next_is_accepted(rt: HostRuntime) {
    let mut world = world_of(&rt, 2);
    makes(&rt, row(ASKS), &mut world, &step(&rt, ASKS));
    for (line, expected) in ACCEPTED {
        let accepted = world.accepts(&step(&rt, line));
        assert_same(
            &rt,
            part("a step after the first", line),
            &accepted,
            expected,
        );
    }
}

/// The line of a step, the place at which its message is looked for first, and the deliveries of the messages that are
/// then under way.
struct Near {
    line: &'static str,
    place: u64,
    under_way: &'static [&'static str],
}

/// The REQUEST to node 2 of 3 is repeated after that to node 3. If the copy is looked at, the message that is before it
/// is the one that goes.
const NEAR: &[Near] = &[
    Near {
        line: ASKS,
        place: 0,
        under_way: &["deliver request 1 2 r X 1", "deliver request 1 3 r X 1"],
    },
    Near {
        line: "repeat request 1 2 r X 1",
        place: 1,
        under_way: &[
            "deliver request 1 2 r X 1",
            "deliver request 1 3 r X 1",
            "deliver request 1 2 r X 1",
        ],
    },
    Near {
        line: "deliver request 1 2 r X 1",
        place: 2,
        under_way: &[
            "deliver request 1 3 r X 1",
            "deliver request 1 2 r X 1",
            "deliver reply 2 1 r 1",
        ],
    },
    Near {
        line: "repeat request 1 3 r X 1",
        place: 0,
        under_way: &[
            "deliver request 1 3 r X 1",
            "deliver request 1 2 r X 1",
            "deliver reply 2 1 r 1",
            "deliver request 1 3 r X 1",
        ],
    },
    Near {
        line: "lose request 1 3 r X 1",
        place: 3,
        under_way: &[
            "deliver request 1 2 r X 1",
            "deliver reply 2 1 r 1",
            "deliver request 1 3 r X 1",
        ],
    },
    Near {
        line: "deliver request 1 2 r X 1",
        place: 0,
        under_way: &[
            "deliver reply 2 1 r 1",
            "deliver request 1 3 r X 1",
            "deliver reply 2 1 r 1",
        ],
    },
    Near {
        line: "deliver reply 2 1 r 1",
        place: 2,
        under_way: &["deliver request 1 3 r X 1", "deliver reply 2 1 r 1"],
    },
];

/// Returns the step that delivers the message at this place, or `None` if no message is there.
fn delivery_at(world: &World, place: u64) -> Option<Step> {
    match world.message_at(place) {
        Some(message) => Some(Step::Deliver(message)),
        None => None,
    }
}

/// Asserts that the messages of these deliveries are under way, and no others, in this order.
fn are_under_way(rt: &impl Abort, at: At<'_>, world: &World, lines: &[&str]) {
    for place in 0..lines.len() {
        let expected = Some(step(rt, lines[place]));
        assert_same(rt, at, &delivery_at(world, place as u64), &expected);
    }
    let count = lines.len() as u64;
    assert_same(rt, at, &world.under_way(), &count);
    assert_same(rt, at, &world.message_at(count), &None);
}

#[test]
fn of_equal_messages_the_first_goes(rt: HostRuntime) {
    let mut world = world_of(&rt, 3);
    for place in 0..NEAR.len() {
        let (near, at) = (&NEAR[place], At(NEAR[place].line, "step", place + 1));
        let fault = world
            .step_near(rt.alloc(), &step(&rt, near.line), near.place)
            .err();
        assert_same(&rt, at, &fault, &None);
        are_under_way(&rt, at, &world, near.under_way);
    }
}

/// A client of node 1 locks and unlocks `r`, over and over. Whenever it waits, the message that was sent first is
/// delivered.
struct Locks {
    nodes: u16,
    locks: u32,
    /// How many messages are delivered for each lock: a REQUEST to each other node, and a REPLY from each.
    messages: u32,
}

const LOCKS: &[Locks] = &[
    // A hundred thousand steps.
    Locks {
        nodes: 1,
        locks: 50_000,
        messages: 0,
    },
    Locks {
        nodes: 2,
        locks: 25_000,
        messages: 2,
    },
    // More than two to the 24th steps.
    Locks {
        nodes: 16,
        locks: 524_300,
        messages: 30,
    },
];

/// Delivers the message that was sent first of those under way, this many times.
fn delivers(rt: &(impl Abort + AllocGlobal), at: At<'_>, world: &mut World, times: u32) {
    for _ in 0..times {
        match delivery_at(world, 0) {
            Some(step) => makes(rt, at, world, &step),
            None => fail_at(rt, at, "no message is under way"),
        }
    }
}

/// Locks and unlocks as a row says.
fn locks_often(rt: &(impl Abort + AllocGlobal), at: At<'_>, world: &mut World, row: &Locks) {
    let (asks, leaves) = (step(rt, ASKS), step(rt, LEAVES));
    for _ in 0..row.locks {
        makes(rt, at, world, &asks);
        delivers(rt, at, world, row.messages);
        makes(rt, at, world, &leaves);
    }
}

/// Asserts that a world has made all steps of a row, and that nothing is left.
fn assert_quiet(rt: &(impl Abort + AllocGlobal), at: At<'_>, world: &World, row: &Locks) {
    let (locks, messages) = (u64::from(row.locks), u64::from(row.messages));
    assert_same(
        rt,
        at,
        &world.steps(),
        &locks.wrapping_mul(messages.wrapping_add(2)),
    );
    match report_of(rt.alloc(), world) {
        Some(report) => {
            let sent = locks.wrapping_mul(messages);
            let expected = [u128::from(locks), u128::from(sent), 0, 0, 0, 0, 0];
            assert_same(rt, at, &report.marks.len(), &locks.wrapping_mul(3));
            assert_same(rt, at, &totals(&report), &expected);
        }
        None => fail_at(rt, at, "there is no memory for the report"),
    }
}

#[test]
fn a_world_makes_more_than_two_to_the_24th_steps(rt: HostRuntime) {
    for row in LOCKS {
        let at = At("many locks", "of this many nodes:", usize::from(row.nodes));
        let mut world = world_of(&rt, row.nodes);
        locks_often(&rt, at, &mut world, row);
        assert_quiet(&rt, at, &world, row);
    }
}

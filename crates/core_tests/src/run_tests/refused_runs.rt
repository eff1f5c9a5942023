//! Which step of a list `run` refuses, and why: the first step, and one after many others.
use crate::run_tests::reported_runs::{adds, run_of, steps_of};
use crate::world_steps::report_totals::totals;
use crate::world_steps::world_asserting::{assert_same, assert_text, fail_at};
use crate::world_steps::world_calls::{ASKS, LEAVES, step_of};
use ra_world::{NodeRefusal, RunError, Step, StepError, Steps, report_text};
use std::alloc::Global;
use std::process::Abort;
use test_support::{part, reply, request, row};

/// Adds the steps in which client 1 of node 1 asks for `r` and its REQUEST, with this number, is delivered. Returns
/// whether they found room.
fn adds_request(steps: &mut Steps, seq: u64) -> bool {
    adds(steps, step_of(ASKS)) && adds(steps, Some(Step::Deliver(request(1, 2, seq))))
}

/// Adds the four steps of a lock with this number. Returns whether there was room.
fn adds_lock(steps: &mut Steps, seq: u64) -> bool {
    adds_request(steps, seq)
        && adds(steps, Some(Step::Deliver(reply(2, 1, seq))))
        && adds(steps, step_of(LEAVES))
}

/// Adds 39 steps, with numbers that begin at `start`: client 1 locks `r` nine times and asks for it a tenth time. The
/// tenth REQUEST is delivered, and the REPLY to it repeated. Returns whether there was room.
fn adds_39_steps(steps: &mut Steps, start: u64) -> bool {
    for lock in 1..=9u64 {
        if !adds_lock(steps, start.saturating_add(lock)) {
            return false;
        }
    }
    let last = start.saturating_add(10);
    adds_request(steps, last) && adds(steps, Some(Step::Repeat(reply(2, 1, last))))
}

/// The line of a step, the number that each name begins with, and why the step is refused.
struct Case {
    line: &'static str,
    start: u64,
    cause: StepError,
}

/// The greatest start that leaves numbers for ten requests.
const TEN_LEFT: u64 = u64::MAX - 10;

const BUSY: StepError = StepError::Node(NodeRefusal::Busy);

const EXHAUSTED: StepError = StepError::Node(NodeRefusal::Exhausted);

const NOT_HELD: StepError = StepError::Node(NodeRefusal::NotHeld);

/// Returns why two nodes refuse steps whose numbers begin at `start`, or `None` if they take them.
fn fault_of(alloc: Global, start: u64, steps: &Steps) -> Option<RunError> {
    run_of(alloc, 2, start, steps).err()
}

/// Adds the step of a case, first or after the 39 others, and then another step. Returns whether they found room.
fn adds_case(steps: &mut Steps, case: &Case, is_late: bool) -> bool {
    (!is_late || adds_39_steps(steps, case.start))
        && adds(steps, step_of(case.line))
        && adds(steps, step_of("ask 2 3 r X"))
}

/// Asserts that two nodes refuse the step of each case at this place, for its cause.
fn assert_refused(rt: &(impl Abort + AllocGlobal), cases: &[Case], place: u64) {
    for case in cases {
        let (at, cause) = (part("a run with this step", case.line), case.cause);
        let mut steps = Steps::new(rt.alloc());
        if !adds_case(&mut steps, case, place == 40) {
            fail_at(
                rt,
                at,
                "this is no step, or there is no memory for the list",
            );
        }
        let fault = fault_of(rt.alloc(), case.start, &steps);
        assert_same(rt, at, &fault, &Some(RunError::Refused { place, cause }));
    }
}

#[test]
fn the_first_step_of_a_run_is_refused_for_each_cause(rt: HostRuntime) {
    const CASES: &[Case] = &[
        Case {
            line: "ask 3 1 r X",
            start: 0,
            cause: StepError::NoNode,
        },
        Case {
            line: "deliver request 1 2 r X 1",
            start: 0,
            cause: StepError::NotUnderWay,
        },
        Case {
            line: "lose request 1 2 r X 1",
            start: 0,
            cause: StepError::NotUnderWay,
        },
        Case {
            line: "repeat reply 2 1 r 1",
            start: 0,
            cause: StepError::NotUnderWay,
        },
        Case {
            line: LEAVES,
            start: 0,
            cause: NOT_HELD,
        },
        Case {
            line: ASKS,
            start: u64::MAX,
            cause: EXHAUSTED,
        },
    ];
    assert_refused(&rt, CASES, 1);
}

/// The fortieth step of a run, and why it is refused.
const FORTIETH_STEPS: &[Case] = &[
    Case {
        line: "ask 3 1 r X",
        start: 0,
        cause: StepError::NoNode,
    },
    Case {
        line: "deliver request 1 2 r X 1",
        start: 0,
        cause: StepError::NotUnderWay,
    },
    Case {
        line: "lose reply 2 1 r 9",
        start: 0,
        cause: StepError::NotUnderWay,
    },
    Case {
        line: "repeat request 1 2 r X 1",
        start: 0,
        cause: StepError::NotUnderWay,
    },
    Case {
        line: ASKS,
        start: 0,
        cause: BUSY,
    },
    Case {
        line: ASKS,
        start: TEN_LEFT,
        cause: BUSY,
    },
    Case {
        line: LEAVES,
        start: 0,
        cause: NOT_HELD,
    },
    Case {
        line: "ask 1 2 r X",
        start: TEN_LEFT,
        cause: EXHAUSTED,
    },
    Case {
        line: "ask 2 2 r X",
        start: TEN_LEFT,
        cause: EXHAUSTED,
    },
];

/// Client 1 waits, and two REPLYs to its tenth request are under way.
#[test]
fn the_fortieth_step_of_a_run_is_refused_for_each_cause(rt: HostRuntime) {
    assert_refused(&rt, FORTIETH_STEPS, 40);
}

/// Asserts that the 39 steps are made.
fn assert_made(rt: &(impl Abort + AllocGlobal), label: &str, start: u64) {
    let mut steps = Steps::new(rt.alloc());
    if !adds_39_steps(&mut steps, start) {
        panic!(rt; "{label}: there is no memory for the list");
    }
    match run_of(rt.alloc(), 2, start, &steps) {
        Ok(report) => {
            let expected = [10, 20, 2, 0, 1, 1, 0];
            assert_same(rt, row(label), &report.marks.len(), &28);
            assert_same(rt, row(label), &totals(&report), &expected);
        }
        Err(fault) => assert_same(rt, row(label), &Some(fault), &None),
    }
}

/// The steps before the refused one are made, also if ten requests are left.
#[test]
fn the_steps_before_the_fortieth_are_made(rt: HostRuntime) {
    assert_made(&rt, "39 steps from 0", 0);
    assert_made(&rt, "39 steps when ten numbers are left", TEN_LEFT);
}

/// The report of a run of two nodes, in which the REQUEST of a client that locks and unlocks `r` comes twice.
const ANSWERED_TWICE: &str = "request 1 1 r X 1
enter 1 1 r X 1
leave 1 1 r X 1
requests 1
messages 3
under-way 0
lost 0
waiting 0
queued 0
";

/// The REQUEST is delivered twice and answered twice; the second REPLY is a stray.
#[test]
fn a_run_repeats_a_message(rt: HostRuntime) {
    const STEPS: &[&str] = &[
        "ask 1 1 r X",
        "repeat request 1 2 r X 1",
        "deliver request 1 2 r X 1",
        "deliver request 1 2 r X 1",
        "deliver reply 2 1 r 1",
        "deliver reply 2 1 r 1",
        "release 1 1 r",
    ];
    let at = row("a run with a repeat");
    match run_of(rt.alloc(), 2, 0, &steps_of(&rt, STEPS)) {
        Ok(report) => {
            assert_same(&rt, at, &report.repeated, &1);
            let came = report_text(rt.alloc(), &report);
            assert_text(&rt, at, came, ANSWERED_TWICE);
        }
        Err(fault) => assert_same(&rt, at, &Some(fault), &None),
    }
}

/// Both copies were lost, or delivered, before the fifth step.
#[test]
fn a_run_repeats_only_what_is_under_way(rt: HostRuntime) {
    const BOTH_LOST: &[&str] = &[
        "ask 1 1 r X",
        "repeat request 1 2 r X 1",
        "lose request 1 2 r X 1",
        "lose request 1 2 r X 1",
        "repeat request 1 2 r X 1",
    ];
    const ONE_TOO_MANY: &[&str] = &[
        "ask 1 1 r X",
        "repeat request 1 2 r X 1",
        "deliver request 1 2 r X 1",
        "deliver request 1 2 r X 1",
        "deliver request 1 2 r X 1",
    ];
    let (place, cause) = (5, StepError::NotUnderWay);
    let expected = Some(RunError::Refused { place, cause });
    let fault = fault_of(rt.alloc(), 0, &steps_of(&rt, BOTH_LOST));
    assert_same(&rt, row("both are lost"), &fault, &expected);
    let fault = fault_of(rt.alloc(), 0, &steps_of(&rt, ONE_TOO_MANY));
    assert_same(&rt, row("one is delivered too often"), &fault, &expected);
}

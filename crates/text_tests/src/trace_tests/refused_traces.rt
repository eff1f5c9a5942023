//! Lists of steps that have no trace because one step is refused: the first, or one after many others.
use crate::shared_texts::failing;
use crate::text_asserting::{assert_same, fail_at};
use crate::trace_tests::traced_steps::{adds, adds_line, fault_of_steps, text_of_steps};
use ra_trace::WriteTraceError;
use ra_world::{NodeRefusal, RunError, Step, StepError, Steps};
use std::process::Abort;
use test_support::{At, part, reply, request, row};

/// Client 1 of node 1 leaves `r`.
const LEAVES: &str = "release 1 1 r";

/// Adds the steps of a request with this number: client 1 of node 1 asks, and the REQUEST and the REPLY are delivered.
/// Returns whether there was room.
fn adds_entry(steps: &mut Steps, seq: u64) -> bool {
    adds_line(steps, "ask 1 1 r X")
        && adds(steps, Some(Step::Deliver(request(1, 2, seq))))
        && adds(steps, Some(Step::Deliver(reply(2, 1, seq))))
}

/// Adds 39 steps, with numbers that begin at `start`: client 1 locks `r` nine times and enters a tenth time. Returns
/// whether there was room.
fn adds_39_steps(steps: &mut Steps, start: u64) -> bool {
    for lock in 1..=9u64 {
        if !adds_entry(steps, start.saturating_add(lock)) || !adds_line(steps, LEAVES) {
            return false;
        }
    }
    adds_entry(steps, start.saturating_add(10))
}

/// A step that is refused.
struct Case {
    /// Its line.
    line: &'static str,
    /// The number that each name begins with.
    start: u64,
    cause: StepError,
}

/// The greatest start that leaves numbers for ten requests.
const TEN_LEFT: u64 = u64::MAX - 10;

const BUSY: StepError = StepError::Node(NodeRefusal::Busy);

const EXHAUSTED: StepError = StepError::Node(NodeRefusal::Exhausted);

const NOT_HELD: StepError = StepError::Node(NodeRefusal::NotHeld);

/// Asserts that two nodes refuse the step at this place for the cause of a case, so that there is no trace and nothing
/// is written.
fn assert_no_trace(
    rt: &(impl Abort + AllocGlobal),
    at: At<'_>,
    case: &Case,
    steps: &Steps,
    place: u64,
) {
    let (alloc, start, cause) = (rt.alloc(), case.start, case.cause);
    let refused = Some(WriteTraceError::Run(RunError::Refused { place, cause }));
    let mut writer = failing("", 0, None);
    let fault = fault_of_steps(alloc, 2, start, steps, &mut writer);
    assert_same(rt, at, &fault, &refused);
    let came = (writer.other, writer.before_fault);
    assert_same(rt, at, &came, &(None, Some(0)));
    let fault = text_of_steps(alloc, 2, start, steps).err();
    assert_same(rt, at, &fault, &refused);
}

/// Adds the step of a case, as the first step or after 39 others, and then another step. Returns whether there was
/// room.
fn adds_case(steps: &mut Steps, case: &Case, place: u64) -> bool {
    (place < 40 || adds_39_steps(steps, case.start))
        && adds_line(steps, case.line)
        && adds_line(steps, "ask 2 3 r X")
}

/// Asserts that the step of each case is refused at this place.
fn assert_refused(rt: &(impl Abort + AllocGlobal), cases: &[Case], place: u64) {
    for case in cases {
        let (at, mut steps) = (
            part("a run with this step", case.line),
            Steps::new(rt.alloc()),
        );
        if !adds_case(&mut steps, case, place) {
            fail_at(
                rt,
                at,
                "this is no step, or there is no memory for the list",
            );
        }
        assert_no_trace(rt, at, case, &steps, place);
    }
}

#[test]
fn the_first_step_of_a_trace_is_refused_for_each_cause(rt: HostRuntime) {
    const CASES: &[Case] = &[
        Case {
            line: "ask 3 1 r X",
            start: 0,
            cause: StepError::NoNode,
        },
        Case {
            line: "deliver request 1 2 r X 1",
            start: 0,
            cause: StepError::NotUnderWay,
        },
        Case {
            line: "lose request 1 2 r X 1",
            start: 0,
            cause: StepError::NotUnderWay,
        },
        Case {
            line: "repeat request 1 2 r X 1",
            start: 0,
            cause: StepError::NotUnderWay,
        },
        Case {
            line: LEAVES,
            start: 0,
            cause: NOT_HELD,
        },
        Case {
            line: "ask 1 1 r X",
            start: u64::MAX,
            cause: EXHAUSTED,
        },
    ];
    assert_refused(&rt, CASES, 1);
}

/// Client 1 holds `r` by its tenth request.
#[test]
fn the_fortieth_step_of_a_trace_is_refused_for_each_cause(rt: HostRuntime) {
    const CASES: &[Case] = &[
        Case {
            line: "ask 3 1 r X",
            start: 0,
            cause: StepError::NoNode,
        },
        Case {
            line: "deliver request 1 2 r X 1",
            start: 0,
            cause: StepError::NotUnderWay,
        },
        Case {
            line: "lose request 1 2 r X 1",
            start: 0,
            cause: StepError::NotUnderWay,
        },
        Case {
            line: "repeat request 1 2 r X 1",
            start: 0,
            cause: StepError::NotUnderWay,
        },
        Case {
            line: "release 1 2 r",
            start: 0,
            cause: NOT_HELD,
        },
        Case {
            line: "ask 1 1 r X",
            start: 0,
            cause: BUSY,
        },
        Case {
            line: "ask 1 1 r X",
            start: TEN_LEFT,
            cause: BUSY,
        },
        Case {
            line: "ask 1 2 r X",
            start: TEN_LEFT,
            cause: EXHAUSTED,
        },
    ];
    assert_refused(&rt, CASES, 40);
}

/// Returns how many lines a text has, which ends with a line feed.
fn lines_in(text: &str) -> u64 {
    let mut lines = 0u64;
    for byte in text.as_bytes() {
        if *byte == b'\n' {
            lines = lines.saturating_add(1);
        }
    }
    lines
}

/// Asserts that the 39 steps, with client 1's leave as the fortieth, have a trace of this many lines.
fn assert_lines(rt: &(impl Abort + AllocGlobal), label: &str, start: u64, lines: u64) {
    let mut steps = Steps::new(rt.alloc());
    if !adds_39_steps(&mut steps, start) || !adds_line(&mut steps, LEAVES) {
        fail_at(rt, row(label), "there is no memory for the list");
    }
    match text_of_steps(rt.alloc(), 2, start, &steps) {
        Ok(text) => assert_same(rt, row(label), &lines_in(text.as_str()), &lines),
        Err(fault) => assert_same(rt, row(label), &Some(fault), &None),
    }
}

/// A line for each of 40 steps and 30 marks, and the first and the last line.
#[test]
fn the_steps_before_have_their_lines(rt: HostRuntime) {
    assert_lines(&rt, "40 steps from 0", 0, 72);
    assert_lines(&rt, "40 steps when ten numbers are left", TEN_LEFT, 72);
}

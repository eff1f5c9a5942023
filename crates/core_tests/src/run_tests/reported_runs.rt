//! Runs of a list of steps: what is reported about them, and which step is refused.
use crate::world_steps::world_asserting::{assert_same, assert_text};
use crate::world_steps::world_calls::step_of;
use Answer::{BadCount, Refused, Reported};
use ra_world::{
    NewError, NodeRefusal, Report, RunError, Step, StepError, Steps, World, report_text, run,
};
use std::alloc::Global;
use std::process::Abort;
use test_support::{At, row};

/// What `run` answers.
#[derive(Clone, Copy)]
enum Answer {
    /// The steps are made, and their report has this text.
    Reported(&'static str),
    /// The step at this place is refused for this cause.
    Refused(u64, StepError),
    /// There are not 1 to 64 nodes.
    BadCount,
}

/// A run from the number 0, and what `run` answers.
struct Case {
    shows: &'static str,
    nodes: u16,
    /// Its steps, as lines of a trace.
    lines: &'static [&'static str],
    answer: Answer,
}

/// Adds a step, if there is one. Returns whether there was a step and room for it.
pub fn adds(steps: &mut Steps, step: Option<Step>) -> bool {
    match step {
        Some(step) => steps.push(step).is_ok(),
        None => false,
    }
}

/// Returns the list of the steps that these lines tell.
pub fn steps_of(rt: &(impl Abort + AllocGlobal), lines: &[&str]) -> Steps {
    let mut steps = Steps::new(rt.alloc());
    for line in lines {
        if !adds(&mut steps, step_of(line)) {
            panic!(rt; "{line:?} tells no step, or there is no memory for it");
        }
    }
    steps
}

/// Returns what `run` answers for steps whose numbers begin at `start`.
pub fn run_of(alloc: Global, nodes: u16, start: u64, steps: &Steps) -> Result<Report, RunError> {
    run(alloc, nodes, start, steps)
}

/// Returns the refusal that is the answer, or `None` if the steps are made.
fn fault_in(answer: Answer) -> Option<RunError> {
    match answer {
        Reported(_) => None,
        Refused(place, cause) => Some(RunError::Refused { place, cause }),
        BadCount => Some(RunError::BadCount),
    }
}

/// Asserts that each case has the expected answer.
fn assert_cases(rt: &(impl Abort + AllocGlobal), cases: &[Case]) {
    for case in cases {
        let at = row(case.shows);
        match run_of(rt.alloc(), case.nodes, 0, &steps_of(rt, case.lines)) {
            Ok(report) => assert_reported(rt, at, &report, case.answer),
            Err(fault) => assert_same(rt, at, &Some(fault), &fault_in(case.answer)),
        }
    }
}

/// Asserts that a report is the answer.
fn assert_reported(rt: &(impl Abort + AllocGlobal), at: At<'_>, report: &Report, expected: Answer) {
    match expected {
        Reported(text) => assert_text(rt, at, report_text(rt.alloc(), report), text),
        _ => assert_same(rt, at, &None, &fault_in(expected)),
    }
}

/// A client asks while it waits, or holds the name.
const BUSY: StepError = StepError::Node(NodeRefusal::Busy);

/// A client leaves what it does not hold.
const NOT_HELD: StepError = StepError::Node(NodeRefusal::NotHeld);

#[test]
fn a_run_ends_at_the_first_step_that_is_refused(rt: HostRuntime) {
    const CASES: &[Case] = &[
        Case {
            shows: "a client asks twice",
            nodes: 2,
            lines: &["ask 1 1 r X", "ask 1 1 r X"],
            answer: Refused(2, BUSY),
        },
        Case {
            shows: "a client leaves what it does not hold",
            nodes: 2,
            lines: &["release 1 1 r"],
            answer: Refused(1, NOT_HELD),
        },
        Case {
            shows: "there is no such node",
            nodes: 2,
            lines: &["ask 3 1 r X"],
            answer: Refused(1, StepError::NoNode),
        },
        Case {
            shows: "it leaves twice what it does not hold",
            nodes: 2,
            lines: &["release 1 1 r", "release 1 1 r"],
            answer: Refused(1, NOT_HELD),
        },
        Case {
            shows: "twice there is no such node",
            nodes: 2,
            lines: &["ask 3 1 r X", "ask 3 1 r X"],
            answer: Refused(1, StepError::NoNode),
        },
    ];
    assert_cases(&rt, CASES);
}

/// The report of a run of no steps.
const NOTHING: &str = "requests 0
messages 0
under-way 0
lost 0
waiting 0
queued 0
";

#[test]
fn a_cluster_has_one_to_sixty_four_nodes(rt: HostRuntime) {
    const CASES: &[Case] = &[
        Case {
            shows: "no node",
            nodes: 0,
            lines: &[],
            answer: BadCount,
        },
        Case {
            shows: "65 nodes",
            nodes: 65,
            lines: &[],
            answer: BadCount,
        },
        Case {
            shows: "one node",
            nodes: 1,
            lines: &[],
            answer: Reported(NOTHING),
        },
        Case {
            shows: "64 nodes",
            nodes: 64,
            lines: &[],
            answer: Reported(NOTHING),
        },
    ];
    assert_cases(&rt, CASES);
    for nodes in [0, 65] {
        let fault = World::new(rt.alloc(), nodes, 0).err();
        let at = At("a world", "with this many nodes:", usize::from(nodes));
        assert_same(&rt, at, &fault, &Some(NewError::BadCount));
    }
}

#[test]
fn the_client_of_a_lost_request_waits(rt: HostRuntime) {
    const CASES: &[Case] = &[Case {
        shows: "a lost request",
        nodes: 2,
        lines: &["ask 1 1 r X", "lose request 1 2 r X 1"],
        answer: Reported(
            "request 1 1 r X 1
requests 1
messages 1
under-way 0
lost 1
waiting 1
queued 0
",
        ),
    }];
    assert_cases(&rt, CASES);
}

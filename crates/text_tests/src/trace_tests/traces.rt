//! Traces as they are written, and writers that fail.
use crate::shared_texts::{ONE_LOCK, ONE_LOCK_LENGTH, TWO_LOCKS, failing};
use crate::text_asserting::assert_same;
use crate::trace_tests::traced_steps::{
    LOST_REPLY, Written, assert_left, assert_written, fault_of,
};
use ra_trace::WriteTraceError;
use ra_world::{NodeRefusal, RunError, StepError};
use std::io;
use std::process::Abort;
use test_support::{At, row};

/// Lines of steps, and why they are no run.
struct Refused {
    shows: &'static str,
    nodes: u16,
    lines: &'static str,
    cause: RunError,
}

/// Asserts that nothing is written of steps that are no run.
fn assert_no_runs(rt: &(impl Abort + AllocGlobal), rows: &[Refused]) {
    for Refused {
        shows: label,
        nodes,
        lines,
        cause,
    } in rows {
        let mut writer = failing("", 0, None);
        let fault = fault_of(rt.alloc(), *nodes, lines, &mut writer);
        assert_same(rt, row(label), &fault, &Some(WriteTraceError::Run(*cause)));
        assert_left(rt, row(label), &writer, 0);
    }
}

/// A loss and a step without marks have their lines, too.
#[test]
fn runs_have_their_traces(rt: HostRuntime) {
    const WRITTEN: &[Written] = &[
        Written {
            shows: "one lock",
            nodes: 2,
            trace: ONE_LOCK,
        },
        Written {
            shows: "two locks",
            nodes: 3,
            trace: TWO_LOCKS,
        },
        Written {
            shows: "a lost REPLY",
            nodes: 2,
            trace: LOST_REPLY,
        },
    ];
    assert_written(&rt, WRITTEN);
    let at = row("the bytes of ONE_LOCK");
    assert_same(&rt, at, &ONE_LOCK.len(), &ONE_LOCK_LENGTH);
}

/// What can't happen.
const NO_RUNS: &[Refused] = &[
    Refused {
        shows: "there is no such node",
        nodes: 2,
        lines: "ask 3 1 r X\n",
        cause: RunError::Refused {
            place: 1,
            cause: StepError::NoNode,
        },
    },
    Refused {
        shows: "65 nodes",
        nodes: 65,
        lines: "ask 3 1 r X\n",
        cause: RunError::BadCount,
    },
    Refused {
        shows: "no node",
        nodes: 0,
        lines: "",
        cause: RunError::BadCount,
    },
    Refused {
        shows: "a message is delivered twice",
        nodes: 2,
        lines: "ask 1 1 r X\ndeliver request 1 2 r X 1\ndeliver request 1 2 r X 1\n",
        cause: RunError::Refused {
            place: 3,
            cause: StepError::NotUnderWay,
        },
    },
    Refused {
        shows: "a message is repeated when it and its copy are lost",
        nodes: 2,
        lines: "ask 1 1 r X
repeat request 1 2 r X 1
lose request 1 2 r X 1
lose request 1 2 r X 1
repeat request 1 2 r X 1
",
        cause: RunError::Refused {
            place: 5,
            cause: StepError::NotUnderWay,
        },
    },
    Refused {
        shows: "a client asks twice",
        nodes: 2,
        lines: "ask 1 1 r X\nask 1 1 r X\n",
        cause: RunError::Refused {
            place: 2,
            cause: StepError::Node(NodeRefusal::Busy),
        },
    },
];

#[test]
fn nothing_is_written_if_the_steps_are_no_run(rt: HostRuntime) {
    assert_no_runs(&rt, NO_RUNS);
}

/// Asserts that just the first `before_fault` bytes are written to a writer that fails so after them.
fn assert_prefix(
    rt: &(impl Abort + AllocGlobal),
    before_fault: usize,
    fault: Option<io::ErrorKind>,
) {
    let mut writer = failing(ONE_LOCK, before_fault, fault);
    let came = fault_of(rt.alloc(), 2, ONE_LOCK, &mut writer);
    let expected = (fault, Some(WriteTraceError::Write));
    let at = At("a writer that fails", "after bytes:", before_fault);
    assert_same(rt, at, &(fault, came), &expected);
    let left = ONE_LOCK.len().saturating_sub(before_fault);
    assert_left(rt, at, &writer, left);
}

/// Asserts that a writer that fails so after some bytes is not tried again, and that one that would fail after all gets
/// them.
fn assert_not_tried_again(rt: &(impl Abort + AllocGlobal), fault: Option<io::ErrorKind>) {
    for before_fault in [0, 1, 12, 139] {
        assert_prefix(rt, before_fault, fault);
    }
    let mut writer = failing(ONE_LOCK, ONE_LOCK_LENGTH, fault);
    let came = fault_of(rt.alloc(), 2, ONE_LOCK, &mut writer);
    let at = row("a writer that would fail after all bytes");
    assert_same(rt, at, &came, &None);
    assert_left(rt, at, &writer, 0);
}

#[test]
fn a_writer_that_failed_is_not_tried_again(rt: HostRuntime) {
    assert_not_tried_again(&rt, Some(io::ErrorKind::Interrupted));
    assert_not_tried_again(&rt, None);
}

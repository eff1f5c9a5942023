//! The steps of a run, as they are read of its trace, and the trace that is written of them.
use crate::shared_texts::failing;
use crate::text_asserting::assert_same;
use ra_trace::{Line, WriteTraceError, trace_text, write_trace};
use ra_world::{Step, Steps};
use std::alloc::Global;
use std::process::Abort;
use test_support::{At, FailingWriter, row};

/// The reply to the first of two clients at one node is lost, and the second waits.
pub const LOST_REPLY: &str = "trace 2 2 0
ask 1 1 r X
request 1 1 r X 1
ask 1 2 r X
deliver request 1 2 r X 1
lose reply 2 1 r 1
end
";

/// Adds a step. Returns whether there is one, and room for it.
pub fn adds(steps: &mut Steps, step: Option<Step>) -> bool {
    match step {
        Some(step) => steps.push(step).is_ok(),
        None => false,
    }
}

/// Adds the step that a line of a trace tells. Returns whether it tells one, and there was room for it.
pub fn adds_line(steps: &mut Steps, line: &str) -> bool {
    match Line::parse(line.as_bytes()) {
        Some(Line::Stepped(step)) => adds(steps, Some(step)),
        _ => false,
    }
}

/// Adds the step of a line, if the line tells one. Returns whether there was room.
fn adds_told(steps: &mut Steps, line: &[u8]) -> bool {
    match Line::parse(line) {
        Some(Line::Stepped(step)) => adds(steps, Some(step)),
        _ => true,
    }
}

/// Adds the steps that the lines of a trace tell, one after the other. Returns whether there was room.
fn adds_all(steps: &mut Steps, lines: &[u8]) -> bool {
    let mut start = 0usize;
    for place in 0..lines.len() {
        if lines[place] == b'\n' {
            if !adds_told(steps, lines.get(start..place).unwrap_or(b"")) {
                return false;
            }
            start = place.wrapping_add(1);
        }
    }
    true
}

/// Returns the steps that the lines of a trace tell.
fn steps_of(alloc: Global, lines: &str) -> Option<Steps> {
    let mut steps = Steps::new(alloc);
    if adds_all(&mut steps, lines.as_bytes()) {
        Some(steps)
    } else {
        None
    }
}

/// Writes the trace of steps, and returns the fault, or `None` if there is no fault.
pub fn fault_of_steps(
    alloc: Global,
    nodes: u16,
    start: u64,
    steps: &Steps,
    writer: &mut FailingWriter<'_>,
) -> Option<WriteTraceError> {
    write_trace(alloc, nodes, start, steps, writer).err()
}

/// Returns the text of the trace of steps.
pub fn text_of_steps(
    alloc: Global,
    nodes: u16,
    start: u64,
    steps: &Steps,
) -> Result<String, WriteTraceError> {
    trace_text(alloc, nodes, start, steps)
}

/// Writes the trace of the steps that lines tell, and returns the fault, or `None` if there is no fault.
pub fn fault_of(
    alloc: Global,
    nodes: u16,
    lines: &str,
    writer: &mut FailingWriter<'_>,
) -> Option<WriteTraceError> {
    match steps_of(alloc, lines) {
        Some(steps) => fault_of_steps(alloc, nodes, 0, &steps, writer),
        None => Some(WriteTraceError::Memory),
    }
}

/// Asserts that a writer took this many bytes less than all, and no other one.
pub fn assert_left(rt: &impl Abort, at: At<'_>, writer: &FailingWriter<'_>, left: usize) {
    let came = (writer.left.len(), writer.other);
    assert_same(rt, at, &came, &(left, None));
}

/// A trace, and how many nodes there are.
pub struct Written {
    pub shows: &'static str,
    pub nodes: u16,
    pub trace: &'static str,
}

/// Asserts that the steps of each trace are written as exactly this trace.
pub fn assert_written(rt: &(impl Abort + AllocGlobal), rows: &[Written]) {
    for Written {
        shows: label,
        nodes,
        trace,
    } in rows {
        let mut writer = failing(trace, 1000, None);
        let fault = fault_of(rt.alloc(), *nodes, trace, &mut writer);
        assert_same(rt, row(label), &fault, &None);
        assert_left(rt, row(label), &writer, 0);
    }
}

//! What `ra_explain` and `ra_notes` tell a person: what is asked of them, and what is to be said.
use crate::text_asserting::assert_same;
use Asked::{Choice, Digits, Field, Order, Unfinished};
use ra_explain::{LineCause, digits_note, line_note};
use ra_notes::{choices_note, order_note, unfinished_note};
use ra_schedule::Policy;
use ra_stamp::Memory;
use ra_trace::{Cause, Line, MarkCause, TraceError, Verdict, check_buffered_with_due};
use std::alloc::Global;
use std::process::Abort;
use test_support::row;

/// Why a line is wrong.
#[derive(Clone, Copy)]
pub enum Wrong {
    Trace(Cause),
    Marks(MarkCause),
}

/// What is asked about.
#[derive(Clone, Copy)]
pub enum Asked {
    /// The wrong line with this number, the last one of this text.
    Field(&'static str, u64, Wrong),
    /// A run of a script that does not finish, by the oldest choices.
    Unfinished(&'static str),
    /// Choices for a script that cannot be made.
    Choice(&'static str, &'static str),
    /// A script that threads may not run.
    Order(&'static str),
    /// An input that is no line of digits.
    Digits(&'static str),
}

/// What is said: nothing, or a text. Or memory ran out.
pub type Told = Result<Option<String>, Memory>;

/// Returns whether a line of a trace is the first wrong one, and is wrong for its marks. If so, `due` becomes the line
/// that is due.
fn is_first_wrong(
    alloc: Global,
    number: u64,
    text: &[u8],
    due: &mut Option<Line>,
) -> Result<bool, Memory> {
    let mut rest = text;
    match check_buffered_with_due(alloc, &mut rest, due) {
        Ok(Verdict::Invalid { line, cause }) => Ok(line == number && cause == Cause::Marks),
        Ok(Verdict::Valid { .. }) => Ok(false),
        Err(TraceError::Memory) => Err(Memory),
        Err(_) => Ok(false),
    }
}

/// Returns what is said of a line that is wrong for this cause.
fn said_of_cause(alloc: Global, number: u64, text: &[u8], cause: LineCause) -> Told {
    line_note(alloc, text, number, cause, "said of all")
}

/// Returns what is said of a line of a trace that is wrong for its marks: with the line that is due if it is the first
/// wrong line.
fn said_of_marks(alloc: Global, number: u64, text: &[u8]) -> Told {
    let mut due: Option<Line> = None;
    match is_first_wrong(alloc, number, text, &mut due) {
        Ok(true) => said_of_cause(alloc, number, text, LineCause::Due(due)),
        Ok(false) => said_of_cause(alloc, number, text, LineCause::Trace(Cause::Marks)),
        Err(Memory) => Err(Memory),
    }
}

/// Returns what is said of a wrong line.
fn said_of_line(alloc: Global, number: u64, text: &[u8], wrong: Wrong) -> Told {
    match wrong {
        Wrong::Trace(Cause::Marks) => said_of_marks(alloc, number, text),
        Wrong::Trace(cause) => said_of_cause(alloc, number, text, LineCause::Trace(cause)),
        Wrong::Marks(cause) => said_of_cause(alloc, number, text, LineCause::Marks(cause)),
    }
}

/// Returns what is said of a run by a policy that does not finish.
pub fn said_of_run(alloc: Global, script: &str, policy: &Policy) -> Told {
    unfinished_note(alloc, script.as_bytes(), policy)
}

/// Returns what is said.
fn said(alloc: Global, asked: Asked) -> Told {
    match asked {
        Field(text, number, wrong) => said_of_line(alloc, number, text.as_bytes(), wrong),
        Unfinished(script) => said_of_run(alloc, script, &Policy::Oldest),
        Choice(script, choices) => choices_note(alloc, script.as_bytes(), choices),
        Order(script) => order_note(alloc, script.as_bytes()),
        Digits(input) => digits_note(alloc, input.as_bytes()),
    }
}

/// Asserts that this text is said, or nothing if the text is empty.
pub fn assert_told(rt: &impl Abort, label: &str, said: Told, text: &str) {
    let came = match &said {
        Ok(Some(note)) => note.as_str(),
        Ok(None) => "",
        Err(Memory) => "no memory",
    };
    assert_same(rt, row(label), &came, &text);
}

/// What is asked about, and what is to be said, or nothing if the text is empty.
pub struct Note(pub Asked, pub &'static str);

/// Asserts that the right text is said about each row. The text tells which row it is.
pub fn assert_said(rt: &(impl Abort + AllocGlobal), label: &str, notes: &[Note]) {
    for Note(asked, text) in notes {
        assert_told(rt, label, said(rt.alloc(), *asked), text);
    }
}

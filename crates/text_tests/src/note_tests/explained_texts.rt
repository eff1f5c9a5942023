//! What `ra_explain` tells a person, as far as no command shows it: of a line after others that are wrong, of a run
//! that no list of choices makes, and when there is nothing to say. Tables of `cases/` have the rest.
use crate::note_tests::asked_notes::Asked::{Choice, Digits, Field, Order, Unfinished};
use crate::note_tests::asked_notes::{Note, Wrong, assert_said, assert_told, said_of_run};
use crate::shared_texts::ONE_LOCK_SCRIPT;
use crate::text_asserting::fail;
use ra_schedule::{Choices, Policy};
use ra_trace::{Cause, MarkCause};
use std::alloc::Global;
use std::process::Abort;

/// The cause of a line of a trace that has none of the forms.
const NO_LINE: Wrong = Wrong::Trace(Cause::Line);

/// The same for a mark log.
const NO_MARK: Wrong = Wrong::Marks(MarkCause::Line);

/// Wrong lines after others that are wrong, too, which those that are checked never come after. If a line has no
/// explanation of its own, its note has the text for all lines, `said of all`.
const AFTER_OTHERS: &[Note] = &[
    // What is wrong before a line does not matter: a number that is too low.
    Note(
        Field(
            "request 3 9 r S 1\nenter 3 9 r S 1\nrequest 1 7 r X 1\nrequest 2 8 r S 1\nenter 2 8 r S 1\n",
            5,
            Wrong::Marks(MarkCause::Earlier),
        ),
        "line 5, 'enter 2 8 r S 1': said of all: client 7 at node 1 asked for 'r' (X) in line 3 and goes first, since both have number 1 and node 1 is below 2",
    ),
    // The longest mark is due.
    Note(
        Field(
            "trace 2 64 4294967295\nask 64 4294967295 abcdefghijklmnopqrstuvwxyzABCDEF SIX\nend\n",
            3,
            Wrong::Trace(Cause::Marks),
        ),
        "line 3, 'end': expected the mark 'request 64 4294967295 abcdefghijklmnopqrstuvwxyzABCDEF SIX 4294967296' here",
    ),
    Note(
        Field(
            "request 1 1 r X 1\nenter 2 2 r X 1\n",
            2,
            Wrong::Trace(Cause::Table),
        ),
        "line 2, 'enter 2 2 r X 1': the lock table does not allow this mark: no such request waits for the name: it was never requested",
    ),
    Note(
        Field("ask 1 1 r X\nrequest 1 1 r X\n", 2, NO_LINE),
        "line 2, 'request 1 1 r X': SEQ is missing: expected request NODE CLIENT NAME MODE SEQ",
    ),
    Note(
        Field("leave 1 1 r X 1\nend\nx", 3, NO_LINE),
        "line 3, 'x': nothing may follow end, the last line of a trace",
    ),
    Note(
        Field("end\n\n", 2, NO_LINE),
        "line 2, '': nothing may follow end, the last line of a trace",
    ),
    Note(
        Field("leave 2 2 r X 2\nrequests 2\n", 2, NO_MARK),
        "line 2, 'requests 2': this looks like the six totals of a report, which a mark log does not have",
    ),
    // No mark is due if an earlier line is wrong.
    Note(
        Field("ask 1 1 r X\nask 2 2 r X\n", 2, Wrong::Trace(Cause::Marks)),
        "line 2, 'ask 2 2 r X': said of all",
    ),
    // A line that is no mark does not matter before one that is.
    Note(
        Field(
            "request 1 7 r X 1\nenter 1 7 r X 1\nrequests 1\nrequest 2 8 r S 2\n\nenter 2 8 r S 2\n",
            6,
            Wrong::Marks(MarkCause::Held),
        ),
        "line 6, 'enter 2 8 r S 2': said of all: client 7 at node 1 has held 'r' (X) since line 2",
    ),
    // If the first line names no version, none is known.
    Note(
        Field("trace\nask 99 1 r X\n", 2, NO_LINE),
        "line 2, 'ask 99 1 r X': NODE is '99': must be 1 to 16 in version 1, otherwise 1 to 64, without leading zeros",
    ),
    Note(
        Field("trace\nask 1 1 r Y\n", 2, NO_LINE),
        "line 2, 'ask 1 1 r Y': MODE is 'Y': must be S or X in version 1, otherwise S, X, IS, IX or SIX",
    ),
    Note(
        Field("trace\nask 17 1 r X\n", 2, NO_LINE),
        "line 2, 'ask 17 1 r X': said of all",
    ),
    // No number is named if none was granted.
    Note(
        Field("request 2 2 r X 4\n", 1, Wrong::Marks(MarkCause::NotAbove)),
        "line 1, 'request 2 2 r X 4': said of all",
    ),
    // The mode and the line of a client that is queued are said, also if it releases.
    Note(
        Field(
            "trace 2 1 0\nask 1 1 r X\nrequest 1 1 r X 1\nask 1 2 r S\nask 1 2 r X\n",
            5,
            Wrong::Trace(Cause::Refused),
        ),
        "line 5, 'ask 1 2 r X': client 2 has been queued for 'r' (S) at node 1 since line 4 and may not ask for it again",
    ),
    Note(
        Field(
            "trace 2 1 0\nask 1 1 r X\nrequest 1 1 r X 1\nask 1 2 r S\nrelease 1 2 r\n",
            5,
            Wrong::Trace(Cause::Refused),
        ),
        "line 5, 'release 1 2 r': client 2 has been queued for 'r' (S) at node 1 since line 4 and does not hold it",
    ),
    // If an entry that leaves was never requested, it is said who holds its name: the first one that does, and not one
    // that waits.
    Note(
        Field(
            "request 1 7 r S 1\nrequest 2 8 r S 2\nrequest 3 9 r S 3\nenter 3 9 r S 3\nenter 2 8 r S 2\nleave 4 6 r S 1\n",
            6,
            Wrong::Marks(MarkCause::NotHeld),
        ),
        "line 6, 'leave 4 6 r S 1': said of all: it was never requested; client 9 at node 3 has held 'r' (S) since line 4, with number 3, and 1 more",
    ),
    Note(
        Field(
            "request 1 7 r X 1\nrequest 2 8 s X 1\nenter 2 8 s X 1\nleave 4 6 r X 1\n",
            4,
            Wrong::Marks(MarkCause::NotHeld),
        ),
        "line 4, 'leave 4 6 r X 1': said of all: it was never requested",
    ),
    // If the first line does not say how many nodes there are, it is not known whether there is this one.
    Note(
        Field("trace\nrelease 1 1 r\n", 2, Wrong::Trace(Cause::Refused)),
        "line 2, 'release 1 1 r': said of all",
    ),
    Note(
        Field(
            "trace\ndeliver reply 2 1 r 1\n",
            2,
            Wrong::Trace(Cause::NotUnderWay),
        ),
        "line 2, 'deliver reply 2 1 r 1': this message is not under way: it was never sent",
    ),
];

#[test]
fn what_is_said_of_a_line_after_others(rt: HostRuntime) {
    assert_said(&rt, "a line after others", AFTER_OTHERS);
}

/// What there is nothing to say of: a line of digits, runs that finish or have no script, choices that can be made or
/// are no list, and a script that threads may run.
const UNSAID: &[Note] = &[
    Note(Digits("01aF\n"), ""),
    Note(Unfinished(ONE_LOCK_SCRIPT), ""),
    Note(Unfinished("nodes = 2"), ""),
    Note(Choice(ONE_LOCK_SCRIPT, "c1 m0 m0 c1"), ""),
    Note(Choice(ONE_LOCK_SCRIPT, "c1  m0"), ""),
    Note(Order(ONE_LOCK_SCRIPT), ""),
];

#[test]
fn nothing_is_said_if_nothing_is_wrong(rt: HostRuntime) {
    assert_said(&rt, "nothing is wrong", UNSAID);
}

/// Returns choices that repeat a REQUEST, so that its copy is still under way when the client has finished.
fn copied(alloc: Global) -> Option<Policy> {
    let mut choices = Choices::new(alloc);
    for choice in [
        ra_schedule::Choice::Client(1),
        ra_schedule::Choice::Repeated(0),
        ra_schedule::Choice::Message(0),
        ra_schedule::Choice::Message(1),
        ra_schedule::Choice::Client(1),
    ] {
        choices.push(choice).ok()?;
    }
    Some(Policy::Listed(choices))
}

#[test]
fn messages_that_are_left_are_said(rt: HostRuntime) {
    let text = "the run did not finish: all operations are done, but messages are under way";
    match copied(rt.alloc()) {
        Some(policy) => {
            let said = said_of_run(rt.alloc(), ONE_LOCK_SCRIPT, &policy);
            assert_told(&rt, "a message is left", said, text)
        }
        None => fail(&rt, "there is no memory for the choices"),
    }
}

//! The run that books settle into.
use crate::kept_books::book_steps::Call::{Ask, Leave, Receive};
use crate::kept_books::book_steps::Step::{Loses, Takes};
use crate::kept_books::book_steps::{ASK, ASKS, LEAVE};
use crate::kept_books::histories::Done::{AtNode, Passes};
use crate::kept_books::histories::{
    Done, Granted, Made, ONE, TWO, books_after, grants_of, new_books,
};
use crate::kept_books::history_asserting::{assert_same, fail_at};
use crate::kept_books::history_values::{settled, step_of};
use Mode::{Exclusive, Shared};
use Outcome::{Refused, Settles};
use ra_book::{Book, Grant, SettleError, Settled, is_cluster};
use ra_stamp::Mode;
use ra_world::{Report, Step, report_text};
use std::alloc::Global;
use std::process::Abort;
use test_support::{At, assert_words, part, row};

/// The outcome of settling books.
#[derive(Clone, Copy)]
enum Outcome {
    /// They are refused for this reason.
    Refused(SettleError),
    /// They settle into the steps of these lines of a trace, with a report that prints as this text.
    Settles(&'static [&'static str], &'static str),
}

/// Asserts that these lines tell the steps of a run.
fn assert_steps(rt: &impl Abort, words: &str, came: &[Step], lines: &[&str]) {
    assert_same(rt, part(words, "how many steps"), &came.len(), &lines.len());
    for place in 0..lines.len() {
        let at = part(words, lines[place]);
        assert_same(rt, at, &came.get(place).copied(), &step_of(lines[place]));
    }
}

/// Asserts that a report prints as this text.
fn assert_report(rt: &impl Abort, alloc: Global, at: At<'_>, report: &Report, text: &str) {
    match report_text(alloc, report) {
        Ok(printed) => assert_same(rt, at, &printed.as_str(), &text),
        Err(_) => fail_at(rt, at, "there is no memory for the report"),
    }
}

/// Asserts that books that settle have this outcome.
fn assert_settled(
    rt: &impl Abort,
    alloc: Global,
    words: &str,
    settled: &Settled,
    outcome: Outcome,
) {
    let at = row(words);
    match outcome {
        Settles(steps, text) => {
            assert_steps(rt, words, settled.steps.as_slice(), steps);
            assert_report(rt, alloc, at, &settled.report, text);
        }
        Refused(fault) => assert_same(rt, at, &None, &Some(fault)),
    }
}

/// Asserts that books that do not settle for this reason, or that are no cluster, have this outcome.
fn assert_refused(rt: &impl Abort, words: &str, found: Option<SettleError>, outcome: Outcome) {
    let due = match outcome {
        Settles(..) => None,
        Refused(fault) => Some(fault),
    };
    if found.is_none() {
        fail_at(rt, row(words), "the books are no cluster");
    }
    assert_same(rt, row(words), &found, &due);
}

/// Asserts that books are a cluster and settle with grants into this outcome.
fn assert_comes(
    rt: &impl Abort,
    alloc: Global,
    words: &str,
    books: &[Book],
    grants: &[Grant],
    outcome: Outcome,
) {
    match settled(alloc, books, grants) {
        Ok(settled) => assert_settled(rt, alloc, words, &settled, outcome),
        Err(found) => assert_refused(rt, words, found, outcome),
    }
}

/// What is done to the books of two nodes, in a few words, and the outcome with some grants.
struct Row {
    words: &'static str,
    done: &'static [Done],
    granted: &'static [Granted],
    outcome: Outcome,
}

/// Does all of each row, and asserts that it has its outcome.
fn assert_outcomes<R: Abort + AllocGlobal>(rt: &R, rows: &[Row]) {
    let alloc = rt.alloc();
    for row in rows {
        let books = books_after(rt, alloc, row.words, &[ONE, TWO], row.done);
        let grants = grants_of(rt, alloc, row.granted);
        let at = part(row.words, "how many grants");
        assert_same(rt, at, &grants.len(), &row.granted.len());
        assert_comes(rt, alloc, row.words, &books, &grants, row.outcome);
    }
}

/// Asserts that there are such books, and that they are a cluster or are not.
fn assert_cluster<R: Abort + AllocGlobal>(rt: &R, label: &str, made: &[Made], expected: bool) {
    let books = new_books(rt.alloc(), made);
    let came = (books.len(), is_cluster(&books));
    assert_same(rt, row(label), &came, &(made.len(), expected));
}

/// Books that are not a cluster.
const NO_CLUSTERS: &[(&str, &[Made])] = &[
    ("node 2 first", &[TWO, ONE]),
    ("node 1 twice", &[ONE, ONE]),
    ("a book of three nodes", &[ONE, Made { nodes: 3, ..TWO }]),
    ("another start", &[ONE, Made { start: 7, ..TWO }]),
    ("no book", &[]),
];

#[test]
fn books_of_all_nodes_in_order_are_a_cluster(rt: HostRuntime) {
    assert_cluster(&rt, "both nodes", &[ONE, TWO], true);
    for (label, made) in NO_CLUSTERS {
        assert_cluster(&rt, label, made, false);
    }
}

/// The client of node 1 locks `r` exclusively, node 2 replies, and the client unlocks it.
const LOCKS_ONCE: &[Done] = &[
    AtNode(1, Takes(ASK)),
    Passes(1, 0),
    Passes(2, 0),
    AtNode(1, Takes(LEAVE)),
];

/// The exclusive grant of node 1.
const FIRST: Granted = Granted {
    node: 1,
    client: 1,
    mode: Exclusive,
    seq: 1,
};

/// The run that this settles into.
const LOCKED_ONCE: &[&str] = &[
    "ask 1 1 r X",
    "deliver request 1 2 r X 1",
    "deliver reply 2 1 r 1",
    "release 1 1 r",
];

/// The run in which client 1 of node 1 asks, and the REQUEST to node 2 is lost.
const LOST_ONCE: Outcome = Settles(
    &["ask 1 1 r X", "lose request 1 2 r X 1"],
    "request 1 1 r X 1\nrequests 1\nmessages 1\nunder-way 0\nlost 1\nwaiting 1\nqueued 0\n",
);

/// The clients of two nodes ask for `r` shared, each at clock 1. The REQUESTs and the REPLYs arrive, and both clients
/// leave. Each event of one node has the clock of an event of the other. Each book sends the REQUEST first, and then
/// the REPLY.
const READ_AT_ONCE: &[Done] = &[
    AtNode(1, Takes(Ask(1, Shared))),
    AtNode(2, Takes(Ask(2, Shared))),
    Passes(2, 0),
    Passes(1, 0),
    Passes(2, 1),
    Passes(1, 1),
    AtNode(1, Takes(Leave(1))),
    AtNode(2, Takes(Leave(2))),
];

/// The run that this settles into.
const READS_AT_ONCE: &[&str] = &[
    "ask 1 1 r S",
    "ask 2 2 r S",
    "deliver request 2 1 r S 1",
    "deliver request 1 2 r S 1",
    "deliver reply 2 1 r 1",
    "deliver reply 1 2 r 1",
    "release 1 1 r",
    "release 2 2 r",
];

/// What settles.
const SETTLED: &[Row] = &[
    Row {
        words: "one lock",
        done: LOCKS_ONCE,
        granted: &[FIRST],
        outcome: Settles(
            LOCKED_ONCE,
            "request 1 1 r X 1\nenter 1 1 r X 1\nleave 1 1 r X 1\n\
            requests 1\nmessages 2\nunder-way 0\nlost 0\nwaiting 0\nqueued 0\n",
        ),
    },
    Row {
        words: "a lost frame is lost at the end",
        done: &[AtNode(1, Takes(ASK)), AtNode(1, Loses(1))],
        granted: &[],
        outcome: LOST_ONCE,
    },
    Row {
        words: "events of one clock are settled by node",
        done: READ_AT_ONCE,
        granted: &[
            Granted {
                node: 1,
                client: 1,
                mode: Shared,
                seq: 1,
            },
            Granted {
                node: 2,
                client: 2,
                mode: Shared,
                seq: 1,
            },
        ],
        outcome: Settles(
            READS_AT_ONCE,
            "request 1 1 r S 1\nrequest 2 2 r S 1\nenter 1 1 r S 1\nenter 2 2 r S 1\n\
            leave 1 1 r S 1\nleave 2 2 r S 1\n\
            requests 2\nmessages 4\nunder-way 0\nlost 0\nwaiting 0\nqueued 0\n",
        ),
    },
];

#[test]
fn books_settle_into_the_run_of_what_happened(rt: HostRuntime) {
    assert_outcomes(&rt, SETTLED);
}

/// The REQUEST of [`ASKS`] arrives at node 2.
const HEARS: Done = AtNode(2, Takes(Receive(&ASKS)));

/// The REQUEST of [`ASKS`] at clock 2.
const ASKS_AT_2: [u8; 25] = [
    2, 1, 0, 1, 0, 2, 1, 0, 0, 0, 0, 0, 0, 0, 1, 0, 0, 0, 0, 0, 0, 0, 2, 1, b'r',
];

/// What does not settle.
const NOT_SETTLED: &[Row] = &[
    Row {
        words: "a frame that was not sent",
        done: &[HEARS],
        granted: &[],
        outcome: Refused(SettleError::NotSent),
    },
    Row {
        words: "a frame that was not sent takes precedence over a missing grant",
        done: &[HEARS],
        granted: &[FIRST],
        outcome: Refused(SettleError::NotSent),
    },
    Row {
        words: "a frame with another clock was not sent: it was sent at clock 1",
        done: &[AtNode(1, Takes(ASK)), AtNode(2, Takes(Receive(&ASKS_AT_2)))],
        granted: &[],
        outcome: Refused(SettleError::NotSent),
    },
    Row {
        words: "a message that came twice",
        done: &[AtNode(1, Takes(ASK)), Passes(1, 0), Passes(1, 0)],
        granted: &[],
        outcome: Refused(SettleError::Twice),
    },
    Row {
        words: "a request that waits is no grant",
        done: &[AtNode(1, Takes(ASK))],
        granted: &[FIRST],
        outcome: Refused(SettleError::GrantMissing),
    },
    Row {
        words: "a grant twice",
        done: LOCKS_ONCE,
        granted: &[FIRST, FIRST],
        outcome: Refused(SettleError::GrantTwice),
    },
    Row {
        words: "a missing grant takes precedence over a grant twice",
        done: LOCKS_ONCE,
        granted: &[
            FIRST,
            FIRST,
            Granted {
                node: 1,
                client: 1,
                mode: Shared,
                seq: 1,
            },
        ],
        outcome: Refused(SettleError::GrantMissing),
    },
    Row {
        words: "a lost frame did not come",
        done: &[
            AtNode(1, Takes(ASK)),
            Passes(1, 0),
            Passes(2, 0),
            AtNode(1, Takes(LEAVE)),
            AtNode(1, Loses(1)),
        ],
        granted: &[FIRST],
        outcome: Refused(SettleError::NotSent),
    },
];

#[test]
fn what_did_not_happen_does_not_settle(rt: HostRuntime) {
    assert_outcomes(&rt, NOT_SETTLED);
}

#[test]
fn clients_that_read_at_once_have_the_same_clocks(rt: HostRuntime) {
    let words = "both nodes read at once";
    let books = books_after(&rt, rt.alloc(), words, &[ONE, TWO], READ_AT_ONCE);
    for book in &books {
        assert_four_clocks(&rt, words, book);
    }
    assert_same(&rt, part(words, "how many books"), &books.len(), &2);
}

/// Asserts that a book has four events, and the clock of each is its place plus one.
fn assert_four_clocks(rt: &impl Abort, words: &str, book: &Book) {
    let events = book.events().as_slice();
    assert_same(rt, part(words, "how many events"), &events.len(), &4);
    for place in 0..events.len() {
        let at = At(words, "the clock of event", place + 1);
        assert_same(rt, at, &events[place].clock, &(place as u64 + 1));
    }
}

#[test]
fn refusals_are_printed_as_their_words(rt: HostRuntime) {
    assert_words!(&rt; SettleError: NotSent Twice GrantMissing GrantTwice Memory);
}

//! What `KeptMarks` tells of a mark log that is followed, without its text.
use crate::text_asserting::assert_same;
use crate::trace_tests::log_readers::{BOTH_INSIDE, TWO_WRITERS};
use ra_explain::KeptMarks;
use ra_stamp::{Mark, Memory};
use ra_trace::{Line, MarkCause, MarksSoFar, MarksVerdict, MarksWatcher, TraceError, follow_marks};
use std::alloc::Global;
use test_support::row;

/// Keeps the marks of a log that is followed, and its wrong line.
#[derive(Drop)]
struct Keeper {
    kept: KeptMarks,
    wrong: Option<Line>,
}

impl MarksWatcher for Keeper {
    fn took(&mut self, line: u64, mark: &Mark) {
        self.kept.take(line, mark);
    }

    fn refused(&mut self, _line: u64, read: &Option<Line>, _cause: MarkCause) {
        self.wrong = *read;
    }

    fn tell(&mut self, _so_far: MarksSoFar) {}
}

/// Returns what is said of a log: of its first wrong line, or of its end.
fn said_of(alloc: Global, log: &str) -> Result<Option<String>, Memory> {
    let mut rest = log.as_bytes();
    let mut keeper = Keeper {
        kept: KeptMarks::new(alloc),
        wrong: None,
    };
    match follow_marks(alloc, &mut rest, 0, &mut keeper) {
        Ok(MarksVerdict::Valid { .. }) => keeper.kept.end_note(),
        Ok(MarksVerdict::Invalid { line, cause }) => {
            keeper
                .kept
                .line_note(line, &keeper.wrong, cause, "said of all")
        }
        Err(TraceError::Memory) => Err(Memory),
        Err(_) => Ok(None),
    }
}

/// Logs, and what is said of each, if anything is.
const LOGS: &[(&str, Option<&str>)] = &[
    (
        BOTH_INSIDE,
        Some(
            "line 4, 'enter 2 2 r X 2': said of all: client 1 at node 1 has held 'r' (X) since line 3",
        ),
    ),
    (
        "request 1 7 r X 1\nenter 1 7 r X 1\nleave 1 7 r X 1\nleave 1 7 r X 1\n",
        Some("line 4, 'leave 1 7 r X 1': said of all: it was released in line 3"),
    ),
    (
        "request 1 7 r X 5\nenter 1 7 r X 5\nleave 1 7 r X 5\nrequest 2 8 r X 5\n",
        Some("line 4, 'request 2 8 r X 5': said of all: 5 was granted in line 2"),
    ),
    (
        "request 1 7 r X 1\nwithdraw 1 7 r X 1\nenter 1 7 r X 1\n",
        Some("line 3, 'enter 1 7 r X 1': said of all: it was withdrawn in line 2"),
    ),
    (
        "request 1 7 r X 1\nenter 1 7 r X 1\nleave 1 7 r X 1\nenter 1 7 r X 2\n",
        Some(
            "line 4, 'enter 1 7 r X 2': said of all: client 7 at node 1 last released 'r' (X) in line 3, with number 1",
        ),
    ),
    // What happens on other names does not matter.
    (
        "request 3 9 r S 3\nrequest 1 7 s X 1\nenter 3 9 r S 3\nenter 1 7 s X 1\nleave 4 6 r S 1\n",
        Some(
            "line 5, 'leave 4 6 r S 1': said of all: it was never requested; client 9 at node 3 has held 'r' (S) since line 3, with number 3",
        ),
    ),
    ("request 1 7 r X 1\nnonsense\n", Some("line 2: said of all")),
    (
        "request 1 7 r X 1\nrequest 2 8 r S 2\n",
        Some(
            "the log ends with 2 requests waiting\nra: client 7 at node 1 has waited for 'r' (X) since line 1: no client blocks it\nra: client 8 at node 2 has waited for 'r' (S) since line 2: client 7 at node 1 asked for 'r' (X) in line 1",
        ),
    ),
    (TWO_WRITERS, None),
    ("", Some("the log has no mark, so nothing was judged")),
];

#[test]
fn a_log_that_is_followed_is_explained_without_its_text(rt: HostRuntime) {
    for (log, wanted) in LOGS {
        match &said_of(rt.alloc(), log) {
            Ok(Some(said)) => assert_same(&rt, row(log), &Some(said.as_str()), wanted),
            Ok(None) => assert_same(&rt, row(log), &None, wanted),
            Err(Memory) => panic!(rt; "{log}: memory ran out"),
        }
    }
}

//! What a watcher is shown and told of a text that is followed.
use crate::shared_texts::ONE_LOCK;
use crate::text_asserting::assert_same;
use crate::trace_tests::log_readers::{BOTH_INSIDE, TWO_WRITERS};
use ra_stamp::Mark;
use ra_trace::{
    Line, MarkCause, MarksSoFar, MarksVerdict, MarksWatcher, TraceError, TraceSoFar, TraceWatcher,
    Verdict, follow_marks, follow_trace,
};
use std::process::Abort;
use test_support::row;

/// What a watcher was shown, and what it was told last.
#[derive(Clone, Copy, Debug, PartialEq, Eq)]
struct Seen<T> {
    /// How many lines were shown to it as right.
    right: u64,
    /// The number of the line that was shown to it as wrong.
    wrong: Option<u64>,
    /// How often it was told something.
    told: u64,
    last: Option<T>,
}

impl<T> Seen<T> {
    /// Makes a watcher that was shown and told nothing.
    fn nothing() -> Seen<T> {
        Seen {
            right: 0,
            wrong: None,
            told: 0,
            last: None,
        }
    }

    /// Takes that a line was right.
    fn see(&mut self) {
        self.right = self.right.saturating_add(1);
    }
}

impl MarksWatcher for Seen<MarksSoFar> {
    fn took(&mut self, _line: u64, _mark: &Mark) {
        self.see();
    }

    fn refused(&mut self, line: u64, _read: &Option<Line>, _cause: MarkCause) {
        self.wrong = Some(line);
    }

    fn tell(&mut self, so_far: MarksSoFar) {
        self.told = self.told.saturating_add(1);
        self.last = Some(so_far);
    }
}

impl TraceWatcher for Seen<TraceSoFar> {
    fn took(&mut self, _number: u64, _line: &Line) {
        self.see();
    }

    fn refused(&mut self, number: u64, _read: &Option<Line>) {
        self.wrong = Some(number);
    }

    fn tell(&mut self, so_far: TraceSoFar) {
        self.told = self.told.saturating_add(1);
        self.last = Some(so_far);
    }
}

/// Asserts what a log comes to that is followed, and what is seen of it by a watcher that is told of each `every` lines.
fn assert_followed(
    rt: &(impl Abort + AllocGlobal),
    log: &str,
    every: u64,
    wanted: &Result<MarksVerdict, TraceError>,
    seen: &Seen<MarksSoFar>,
) {
    let (mut rest, mut watcher) = (log.as_bytes(), Seen::nothing());
    let came = follow_marks(rt.alloc(), &mut rest, every, &mut watcher);
    assert_same(rt, row(log), &came, wanted);
    assert_same(rt, row(log), &watcher, seen);
}

#[test]
fn a_log_that_is_followed_is_told_line_by_line(rt: HostRuntime) {
    let two = Ok(MarksVerdict::Valid {
        requests: 2,
        grants: 2,
    });
    let after_four = MarksSoFar {
        lines: 4,
        requests: 2,
        grants: 1,
    };
    let of_four = Seen {
        right: 6,
        wrong: None,
        told: 1,
        last: Some(after_four),
    };
    assert_followed(&rt, TWO_WRITERS, 4, &two, &of_four);
    let of_none = Seen {
        right: 6,
        ..Seen::nothing()
    };
    assert_followed(&rt, TWO_WRITERS, 0, &two, &of_none);
    assert_followed(&rt, TWO_WRITERS, 7, &two, &of_none);
}

#[test]
fn a_log_that_is_followed_ends_at_its_first_wrong_line(rt: HostRuntime) {
    let held = Ok(MarksVerdict::Invalid {
        line: 4,
        cause: MarkCause::Held,
    });
    let after_three = MarksSoFar {
        lines: 3,
        requests: 2,
        grants: 1,
    };
    let seen = Seen {
        right: 3,
        wrong: Some(4),
        told: 3,
        last: Some(after_three),
    };
    assert_followed(&rt, BOTH_INSIDE, 1, &held, &seen);
}

#[test]
fn a_trace_that_is_followed_is_told_line_by_line(rt: HostRuntime) {
    let (mut rest, mut watcher, mut due) = (ONE_LOCK.as_bytes(), Seen::nothing(), None);
    let came = follow_trace(rt.alloc(), &mut rest, 3, &mut watcher, &mut due);
    let valid: Result<Verdict, TraceError> = Ok(Verdict::Valid {
        requests: 1,
        messages: 2,
    });
    assert_same(&rt, row("the verdict"), &came, &valid);
    let after_nine = TraceSoFar {
        lines: 9,
        requests: 1,
        messages: 2,
    };
    let seen = Seen {
        right: 8,
        wrong: None,
        told: 3,
        last: Some(after_nine),
    };
    assert_same(&rt, row("what was seen"), &watcher, &seen);
}

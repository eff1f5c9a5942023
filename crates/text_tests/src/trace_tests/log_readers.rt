//! How far `check_marks` and `check_marks_buffered` read, and how they treat readers that fail or give a log in pieces.
use crate::shared_texts::Part;
use crate::text_asserting::assert_same;
use crate::trace_tests::trace_readers::{Case, Way, assert_cases, assert_not_tried_again};
use ErrorKind::WouldBlock;
use Part::{Text, Times};
use Way::{Failing, InPieces, Within};
use ra_trace::{MarkCause, MarksVerdict, TraceError};
use std::io::ErrorKind;
use test_support::row;

/// One writer after the other.
pub const TWO_WRITERS: &str = "request 1 1 r X 1
request 2 2 r X 2
enter 1 1 r X 1
leave 1 1 r X 1
enter 2 2 r X 2
leave 2 2 r X 2
";

/// How many bytes that log has.
const TWO_WRITERS_LENGTH: usize = 100;

/// The same with both inside at once. Its fourth line ends with byte 68.
pub const BOTH_INSIDE: &str = "request 1 1 r X 1
request 2 2 r X 2
enter 1 1 r X 1
enter 2 2 r X 2
leave 1 1 r X 1
leave 2 2 r X 2
";

/// The result of checking a log.
type Checked = Result<MarksVerdict, TraceError>;

/// The result for two writers, one after the other.
const TWO: Checked = Ok(MarksVerdict::Valid {
    requests: 2,
    grants: 2,
});

#[test]
fn the_pieces_of_a_log_do_not_matter(rt: HostRuntime) {
    const LOG: &[Part] = &[Text(TWO_WRITERS)];
    const CASES: &[Case<MarksVerdict>] = &[
        ("one byte", LOG, InPieces(1), TWO, TWO_WRITERS_LENGTH),
        ("seven bytes", LOG, InPieces(7), TWO, TWO_WRITERS_LENGTH),
        ("64 bytes", LOG, InPieces(64), TWO, TWO_WRITERS_LENGTH),
    ];
    assert_cases(&rt, CASES);
}

#[test]
fn a_reader_of_a_log_that_failed_is_not_tried_again(rt: HostRuntime) {
    let at = row("the bytes of TWO_WRITERS");
    assert_same(&rt, at, &TWO_WRITERS.len(), &TWO_WRITERS_LENGTH);
    assert_not_tried_again::<MarksVerdict>(&rt, TWO_WRITERS);
}

#[test]
fn nothing_after_the_first_wrong_mark_is_read(rt: HostRuntime) {
    const LOG: &[Part] = &[Text(BOTH_INSIDE)];
    const HELD: Checked = Ok(MarksVerdict::Invalid {
        line: 4,
        cause: MarkCause::Held,
    });
    const CASES: &[Case<MarksVerdict>] = &[
        (
            "a fault after the line",
            LOG,
            Failing(68, WouldBlock),
            HELD,
            68,
        ),
        (
            "a fault at its end",
            LOG,
            Failing(67, WouldBlock),
            Err(TraceError::Read),
            67,
        ),
        ("no fault", LOG, InPieces(64), HELD, 68),
    ];
    assert_cases(&rt, CASES);
}

/// 64 letters.
const LETTERS: &[u8] = b"aaaaaaaaaaaaaaaaaaaaaaaaaaaaaaaaaaaaaaaaaaaaaaaaaaaaaaaaaaaaaaaa";

#[test]
fn at_most_128_bytes_of_a_line_of_a_log_are_read(rt: HostRuntime) {
    const NONE: Checked = Ok(MarksVerdict::Invalid {
        line: 1,
        cause: MarkCause::Line,
    });
    const CASES: &[Case<MarksVerdict>] = &[
        (
            "128 letters in a line",
            &[Times(LETTERS, 2), Text("\nx")],
            InPieces(64),
            NONE,
            128,
        ),
        (
            "64 letters in a line",
            &[Times(LETTERS, 1), Text("\nx")],
            InPieces(64),
            NONE,
            65,
        ),
        ("64 letters", &[Times(LETTERS, 1)], InPieces(64), NONE, 64),
    ];
    assert_cases(&rt, CASES);
}

#[test]
fn a_log_has_at_most_as_many_bytes_as_the_limit_says(rt: HostRuntime) {
    const LOG: &[Part] = &[Text(TWO_WRITERS)];
    const EMPTY: Checked = Ok(MarksVerdict::Valid {
        requests: 0,
        grants: 0,
    });
    const CASES: &[Case<MarksVerdict>] = &[
        ("the limit 100", LOG, Within(100), TWO, 100),
        ("the limit 99", LOG, Within(99), Err(TraceError::Limit), 100),
        ("the limit 0", LOG, Within(0), Err(TraceError::Limit), 1),
        ("nothing within the limit 0", &[], Within(0), EMPTY, 0),
    ];
    assert_cases(&rt, CASES);
}

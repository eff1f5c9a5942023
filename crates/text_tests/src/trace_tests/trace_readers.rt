//! How texts are read that are checked; and how far `check` and `check_buffered` read, and how they treat readers that
//! fail or give a text in pieces.
use crate::shared_texts::{ONE_LOCK, ONE_LOCK_LENGTH, Part, TWO_LOCKS, text_of};
use crate::text_asserting::{assert_same, fail_at};
use ErrorKind::{BrokenPipe, Interrupted, WouldBlock};
use Part::{Text, Times};
use Way::{Failing, InPieces, Within};
use ra_trace::{
    Cause, MarksVerdict, TraceError, Verdict, check, check_buffered, check_marks,
    check_marks_buffered, check_marks_within, check_within,
};
use std::alloc::Global;
use std::fmt::Debug;
use std::io::ErrorKind;
use std::process::Abort;
use test_support::{At, FailingReader, row};

/// The result of checking a trace.
type Checked = Result<Verdict, TraceError>;

/// How a text is read.
#[derive(Clone, Copy)]
pub enum Way {
    /// In pieces of this many bytes.
    InPieces(usize),
    /// Byte by byte, from a reader that fails with this error after this many bytes.
    Failing(usize, ErrorKind),
    /// Within this limit.
    Within(u8),
}

/// A verdict on a text, which is read as a trace or as a mark log.
pub trait Judged: Debug + PartialEq + Copy {
    /// Returns the verdict on what a reader gives, or shows in its buffer.
    fn read(
        alloc: Global,
        reader: &mut FailingReader<'_>,
        way: Way,
        is_shown: bool,
    ) -> Result<Self, TraceError>;
}

impl Judged for Verdict {
    fn read(
        alloc: Global,
        reader: &mut FailingReader<'_>,
        way: Way,
        is_shown: bool,
    ) -> Result<Verdict, TraceError> {
        match way {
            Within(limit) => check_within(alloc, reader, u64::from(limit)),
            _ if is_shown => check_buffered(alloc, reader),
            _ => check(alloc, reader),
        }
    }
}

impl Judged for MarksVerdict {
    fn read(
        alloc: Global,
        reader: &mut FailingReader<'_>,
        way: Way,
        is_shown: bool,
    ) -> Result<MarksVerdict, TraceError> {
        match way {
            Within(limit) => check_marks_within(alloc, reader, u64::from(limit)),
            _ if is_shown => check_marks_buffered(alloc, reader),
            _ => check_marks(alloc, reader),
        }
    }
}

/// A label, the parts of a text, how it is read, the result, and how many of its bytes are taken.
pub type Case<V> = (
    &'static str,
    &'static [Part<'static>],
    Way,
    Result<V, TraceError>,
    usize,
);

/// Returns a reader of a text.
pub fn reader(text: &[u8], way: Way) -> FailingReader<'_> {
    match way {
        InPieces(size) => FailingReader::new(text, size, None, Interrupted),
        Failing(before_fault, fault) => FailingReader::new(text, 1, Some(before_fault), fault),
        Within(_) => FailingReader::new(text, 64, None, Interrupted),
    }
}

/// Asserts that a text has this verdict, and that this many of its bytes are taken, both by reads and from a buffer.
fn assert_comes<V: Judged>(
    rt: &(impl Abort + AllocGlobal),
    at: At<'_>,
    text: &[u8],
    way: Way,
    wanted: &Result<V, TraceError>,
    taken: usize,
) {
    let (mut given, mut shown) = (reader(text, way), reader(text, way));
    assert_same(rt, at, &V::read(rt.alloc(), &mut given, way, false), wanted);
    assert_same(rt, at, &V::read(rt.alloc(), &mut shown, way, true), wanted);
    let left = text.len().checked_sub(taken);
    assert_same(rt, at, &Some(given.bytes.len()), &left);
    assert_same(rt, at, &Some(shown.bytes.len()), &left);
}

/// Asserts that each case holds.
pub fn assert_cases<V: Judged>(rt: &(impl Abort + AllocGlobal), cases: &[Case<V>]) {
    for (label, parts, way, wanted, taken) in cases {
        match text_of(rt.alloc(), parts) {
            Some(text) => assert_comes(rt, row(label), &text, *way, wanted, *taken),
            None => fail_at(rt, row(label), "there is no memory for the text"),
        }
    }
}

/// Asserts that a reader's fault is reported at each byte of a text, from 0 up, and that the reader is not tried again.
fn assert_fault<V: Judged>(rt: &(impl Abort + AllocGlobal), text: &str, fault: ErrorKind) {
    let read: Result<V, TraceError> = Err(TraceError::Read);
    for taken in 0..=text.len() {
        let way = Failing(taken, fault);
        let at = At("a reader that fails", "after bytes:", taken);
        assert_comes(rt, at, text.as_bytes(), way, &read, taken);
    }
}

/// Asserts it for faults that make other readers try again, and for one that does not.
pub fn assert_not_tried_again<V: Judged>(rt: &(impl Abort + AllocGlobal), text: &str) {
    assert_fault::<V>(rt, text, Interrupted);
    assert_fault::<V>(rt, text, WouldBlock);
    assert_fault::<V>(rt, text, BrokenPipe);
}

#[test]
fn the_pieces_of_a_text_do_not_matter(rt: HostRuntime) {
    const TEXT: &[Part] = &[Text(TWO_LOCKS)];
    const VALID: Checked = Ok(Verdict::Valid {
        requests: 2,
        messages: 8,
    });
    const CASES: &[Case<Verdict>] = &[
        ("one byte", TEXT, InPieces(1), VALID, TWO_LOCKS.len()),
        ("two bytes", TEXT, InPieces(2), VALID, TWO_LOCKS.len()),
        ("seven bytes", TEXT, InPieces(7), VALID, TWO_LOCKS.len()),
        ("64 bytes", TEXT, InPieces(64), VALID, TWO_LOCKS.len()),
    ];
    assert_cases(&rt, CASES);
}

#[test]
fn a_reader_that_failed_is_not_tried_again(rt: HostRuntime) {
    let at = row("the bytes of ONE_LOCK");
    assert_same(&rt, at, &ONE_LOCK.len(), &ONE_LOCK_LENGTH);
    assert_not_tried_again::<Verdict>(&rt, ONE_LOCK);
}

/// `ONE_LOCK` with its fifth and sixth lines exchanged. The fifth ends with byte 84.
const EXCHANGED: &str = "trace 1 2 0
ask 1 1 r X
request 1 1 r X 1
deliver request 1 2 r X 1
enter 1 1 r X 1
deliver reply 2 1 r 1
release 1 1 r
leave 1 1 r X 1
end
";

#[test]
fn nothing_after_the_first_wrong_line_is_read(rt: HostRuntime) {
    const TEXT: &[Part] = &[Text(EXCHANGED)];
    const MARKS: Checked = Ok(Verdict::Invalid {
        line: 5,
        cause: Cause::Marks,
    });
    const CASES: &[Case<Verdict>] = &[
        ("a fault later", TEXT, Failing(90, WouldBlock), MARKS, 84),
        (
            "a fault after the line",
            TEXT,
            Failing(84, WouldBlock),
            MARKS,
            84,
        ),
        (
            "a fault at its end",
            TEXT,
            Failing(83, WouldBlock),
            Err(TraceError::Read),
            83,
        ),
        (
            "a fault before it",
            TEXT,
            Failing(70, WouldBlock),
            Err(TraceError::Read),
            70,
        ),
        ("no fault", TEXT, InPieces(64), MARKS, 84),
    ];
    assert_cases(&rt, CASES);
}

/// 64 letters.
const LETTERS: &[u8] = b"aaaaaaaaaaaaaaaaaaaaaaaaaaaaaaaaaaaaaaaaaaaaaaaaaaaaaaaaaaaaaaaa";

#[test]
fn at_most_128_bytes_of_a_line_are_read(rt: HostRuntime) {
    const NONE: Checked = Ok(Verdict::Invalid {
        line: 1,
        cause: Cause::Line,
    });
    const CASES: &[Case<Verdict>] = &[
        ("128 letters", &[Times(LETTERS, 2)], InPieces(64), NONE, 128),
        (
            "128 letters in a line",
            &[Times(LETTERS, 2), Text("\nx")],
            InPieces(64),
            NONE,
            128,
        ),
        ("192 letters", &[Times(LETTERS, 3)], InPieces(64), NONE, 128),
        (
            "64 letters in a line",
            &[Times(LETTERS, 1), Text("\nx")],
            InPieces(64),
            NONE,
            65,
        ),
    ];
    assert_cases(&rt, CASES);
}

#[test]
fn one_byte_after_the_last_line_is_read(rt: HostRuntime) {
    const TEXT: &[Part] = &[Text(ONE_LOCK), Text("xy")];
    const TENTH: Checked = Ok(Verdict::Invalid {
        line: 10,
        cause: Cause::Line,
    });
    const CASES: &[Case<Verdict>] = &[(
        "two more bytes",
        TEXT,
        InPieces(64),
        TENTH,
        ONE_LOCK_LENGTH + 1,
    )];
    assert_cases(&rt, CASES);
}

#[test]
fn a_text_has_at_most_as_many_bytes_as_the_limit_says(rt: HostRuntime) {
    const TEXT: &[Part] = &[Text(ONE_LOCK)];
    const VALID: Checked = Ok(Verdict::Valid {
        requests: 1,
        messages: 2,
    });
    const CASES: &[Case<Verdict>] = &[
        ("the limit 140", TEXT, Within(140), VALID, 140),
        (
            "the limit 139",
            TEXT,
            Within(139),
            Err(TraceError::Limit),
            140,
        ),
        ("the limit 0", TEXT, Within(0), Err(TraceError::Limit), 1),
    ];
    assert_cases(&rt, CASES);
}

//! Each growth of a book is refused: the call answers that memory ran out, leaves everything as it was, and does what
//! it should when it is made again.
use crate::kept_books::book_steps::Call::{Ask, Cancel, Forget, Receive};
use crate::kept_books::book_steps::{ASK, ASKS, Call, LEAVE, REPLIES, counts_of, refusal};
use crate::kept_books::history_asserting::assert_same;
use crate::kept_books::history_values::new_book;
use ra_book::{Book, BookError};
use ra_stamp::Mode;
use std::alloc::Global;
use std::process::Abort;
use test_support::{At, Tried, assert_grown, both};

/// Makes a call of a book, and makes it again if memory ran out, when the book has to have these events, sent frames
/// and clock, as before. A leave and a cancel need no memory: they may not be refused, whichever growth is.
fn try_call(
    rt: &impl Abort,
    alloc: Global,
    at: At<'_>,
    book: &mut Book,
    call: Call<'_>,
    kept: (u64, u64, u64),
) -> Tried {
    let due = match call {
        Call::Leave(_) | Call::Cancel(_) => None,
        _ => Some(BookError::Memory),
    };
    let came = refusal(alloc, book, call);
    if came.is_none() {
        return Tried::NoFailure;
    }
    assert_same(rt, at, &came, &due);
    assert_same(rt, at, &counts_of(book), &kept);
    assert_same(rt, at, &refusal(alloc, book, call), &None);
    Tried::RetrySucceeded
}

/// A call of a book.
struct Row {
    call: Call<'static>,
    /// How many events and sent frames the book has before it, and its clock.
    kept: (u64, u64, u64),
}

/// Client 1 of node 1 asks for `r`, enters and leaves.
const LOCKS: &[Row] = &[
    Row {
        call: ASK,
        kept: (0, 0, 0),
    },
    Row {
        call: Receive(&REPLIES),
        kept: (1, 1, 1),
    },
    Row {
        call: LEAVE,
        kept: (2, 1, 3),
    },
];

/// The REQUEST of node 1 to node 2 for `r`, exclusively, with number 3 and at clock 5.
const ASKS_AFTER: [u8; 25] = [
    2, 1, 0, 1, 0, 2, 1, 0, 0, 0, 0, 0, 0, 0, 3, 0, 0, 0, 0, 0, 0, 0, 5, 1, b'r',
];

/// The REPLY of node 1 to the request of node 2 with number 2, at clock 7.
const REPLIES_TO_SECOND: [u8; 25] = [
    2, 2, 0, 1, 0, 2, 0, 0, 0, 0, 0, 0, 0, 0, 2, 0, 0, 0, 0, 0, 0, 0, 7, 1, b'r',
];

/// Node 2 answers a REQUEST, asks, defers the next REQUEST and is let in; then a second client queues. When the first
/// client leaves, the deferred REPLY and the REQUEST of the second client are sent.
const ANSWERS: &[Row] = &[
    Row {
        call: Receive(&ASKS),
        kept: (0, 0, 0),
    },
    Row {
        call: ASK,
        kept: (1, 1, 2),
    },
    Row {
        call: Receive(&ASKS_AFTER),
        kept: (2, 2, 3),
    },
    Row {
        call: Receive(&REPLIES_TO_SECOND),
        kept: (3, 2, 6),
    },
    Row {
        call: Ask(2, Mode::Exclusive),
        kept: (4, 2, 8),
    },
    Row {
        call: LEAVE,
        kept: (5, 2, 9),
    },
];

/// Node 2 asks, defers a REQUEST, and a second client queues. The first client gives up: the deferred REPLY and the
/// REQUEST of the second client are sent. A third one gives up in the queue, the second one while it waits, and the
/// node forgets names.
const GIVES_UP: &[Row] = &[
    Row {
        call: ASK,
        kept: (0, 0, 0),
    },
    Row {
        call: Receive(&ASKS_AFTER),
        kept: (1, 1, 1),
    },
    Row {
        call: Ask(2, Mode::Exclusive),
        kept: (2, 1, 6),
    },
    Row {
        call: Cancel(1),
        kept: (3, 1, 7),
    },
    Row {
        call: Ask(3, Mode::Exclusive),
        kept: (4, 3, 8),
    },
    Row {
        call: Cancel(3),
        kept: (5, 3, 9),
    },
    Row {
        call: Cancel(2),
        kept: (6, 3, 10),
    },
    Row {
        call: Forget,
        kept: (7, 3, 11),
    },
];

/// Makes all calls of a book, which has this at the end.
fn try_rows(
    rt: &impl Abort,
    alloc: Global,
    book: &mut Book,
    rows: &[Row],
    end: (u64, u64, u64),
) -> Tried {
    let (mut tried, words) = (Tried::NoFailure, "events, sent frames and clock");
    for place in 0..rows.len() {
        let Row { call, kept } = rows[place];
        let at = At(words, "before call", place + 1);
        assert_same(rt, at, &counts_of(book), &kept);
        let at = At("a book", "call", place + 1);
        tried = both(tried, try_call(rt, alloc, at, book, call, kept));
    }
    let at = At(words, "after call", rows.len());
    assert_same(rt, at, &counts_of(book), &end);
    tried
}

/// How often a client asks for `r` and leaves it in the large book. Each time takes two events.
const MANY: u64 = 5_000;

/// A client of a cluster of one node asks for `r` and leaves it, many times.
fn try_many_calls(rt: &impl Abort, alloc: Global, book: &mut Book) -> Tried {
    let (mut tried, mut events) = (Tried::NoFailure, 0u64);
    for _ in 0..MANY {
        for call in [ASK, LEAVE] {
            let at = At("a large book", "after events:", events as usize);
            let kept = (events, 0, events);
            tried = both(tried, try_call(rt, alloc, at, book, call, kept));
            events = events.wrapping_add(1);
        }
    }
    tried
}

/// Makes the book of a node of this many, which takes no memory.
fn book_of(rt: &(impl Abort + AllocGlobal), me: u16, nodes: u16) -> Book {
    match new_book(rt.alloc(), me, nodes, 0) {
        Ok(book) => book,
        Err(fault) => panic!(rt; "there is no book of node {me} of {nodes}: {fault}"),
    }
}

#[test]
fn growth_of_a_book(rt: HostRuntime) {
    let mut book = book_of(&rt, 1, 2);
    let tried = try_rows(&rt, rt.alloc(), &mut book, LOCKS, (3, 1, 4));
    assert_grown!(&rt, tried);
}

#[test]
fn growth_of_a_book_that_answers_and_defers(rt: HostRuntime) {
    let mut book = book_of(&rt, 2, 2);
    let tried = try_rows(&rt, rt.alloc(), &mut book, ANSWERS, (6, 4, 10));
    assert_grown!(&rt, tried);
}

#[test]
fn growth_of_a_book_in_which_clients_give_up(rt: HostRuntime) {
    let mut book = book_of(&rt, 2, 2);
    let tried = try_rows(&rt, rt.alloc(), &mut book, GIVES_UP, (8, 3, 12));
    assert_grown!(&rt, tried);
}

#[test]
fn large_growth_of_a_book(rt: HostRuntime) {
    let mut book = book_of(&rt, 1, 1);
    assert_grown!(&rt, try_many_calls(&rt, rt.alloc(), &mut book));
}

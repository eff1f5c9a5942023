//! Each growth of a settling is refused: it answers that memory ran out, and does what it should when it is done again.
use crate::kept_books::book_steps::Call::{Cancel, Forget};
use crate::kept_books::book_steps::Step::Takes;
use crate::kept_books::book_steps::{ASK, LEAVE, refusal};
use crate::kept_books::histories::Done::{AtNode, Loses, Passes};
use crate::kept_books::histories::{
    Done, Granted, Made, ONE, TWO, books_after, grants_of, new_books,
};
use crate::kept_books::history_asserting::assert_same;
use crate::kept_books::history_values::settled;
use ra_book::{Book, BookError, Grant, SettleError, Settled};
use ra_stamp::{Memory, Mode};
use std::alloc::Global;
use std::process::Abort;
use test_support::{Tried, again, assert_grown, assert_memory, row};

/// What is done to two books: the client of node 1 asks, enters and leaves.
pub const ONE_LOCK: &[Done] = &[
    AtNode(1, Takes(ASK)),
    Passes(1, 0),
    Passes(2, 0),
    AtNode(1, Takes(LEAVE)),
];

/// How many steps the run has that books settle into, and how many requests, messages, losses and waiting requests its
/// report tells.
type Due = (u64, (u128, u128), (u128, u128));

/// Asserts that books settled into such a run, with no message under way.
fn assert_run(rt: &impl Abort, settled: &Settled, due: Due) {
    let (at, report) = (row("books settle"), &settled.report);
    let (made, left) = (
        (report.requests, report.sent),
        (report.lost, report.waiting),
    );
    assert_same(rt, at, &(settled.steps.len(), made, left), &due);
    assert_same(rt, at, &report.under_way, &0);
}

/// Settles books. If that is refused, memory ran out.
fn try_to_settle(
    rt: &impl Abort,
    alloc: Global,
    books: &[Book],
    grants: &[Grant],
    due: Due,
) -> Result<Tried, Memory> {
    match settled(alloc, books, grants) {
        Ok(settled) => {
            assert_run(rt, &settled, due);
            Ok(Tried::NoFailure)
        }
        Err(fault) => {
            let at = row("books settle");
            Err(assert_memory!(rt, at, fault, Some(SettleError::Memory)))
        }
    }
}

/// The same, after which the client asks again, its REQUEST is lost, it gives up, and its node forgets names.
const ASKS_AGAIN: &[Done] = &[
    AtNode(1, Takes(ASK)),
    Passes(1, 0),
    Passes(2, 0),
    AtNode(1, Takes(LEAVE)),
    AtNode(1, Takes(ASK)),
    Loses(1, 1),
    AtNode(1, Takes(Cancel(1))),
    AtNode(1, Takes(Forget)),
];

/// The run of the client, with the loss at its end.
const LOSING_RUN: Due = (8, (2, 3), (1, 0));

/// Settles two books with a grant, and with the last REQUEST lost. If that is refused, memory ran out.
fn try_settling_a_loss(rt: &impl Abort, alloc: Global) -> Result<Tried, Memory> {
    let books = books_after(rt, alloc, "a loss", &[ONE, TWO], ASKS_AGAIN);
    let grants = grants_of(
        rt,
        alloc,
        &[Granted {
            node: 1,
            client: 1,
            mode: Mode::Exclusive,
            seq: 1,
        }],
    );
    if grants.len() == 1 && books.len() == 2 {
        try_to_settle(rt, alloc, &books, &grants, LOSING_RUN)
    } else {
        Err(Memory)
    }
}

#[test]
fn growth_of_settling_with_a_grant_a_loss_and_a_withdrawal(rt: HostRuntime) {
    let alloc = rt.alloc();
    let first = try_settling_a_loss(&rt, alloc);
    let second = try_settling_a_loss(&rt, alloc);
    assert_grown!(&rt, again(first, second));
}

/// How often a client asks for `r` and leaves it in the book that is settled. Each time takes two events.
const VERY_MANY: u64 = 50_000;

/// Has a client ask for a name and leave it. If that is refused, memory ran out.
fn ask_and_leave(rt: &impl Abort, alloc: Global, book: &mut Book) -> Result<(), Memory> {
    for call in [ASK, LEAVE] {
        if let Some(fault) = refusal(alloc, book, call) {
            let at = row("a book becomes large");
            return Err(assert_memory!(rt, at, fault, BookError::Memory));
        }
    }
    Ok(())
}

/// Has a client of the first book do so very often. If there is no book, or that is refused, memory ran out.
fn become_large(rt: &impl Abort, alloc: Global, books: &mut [Book]) -> Result<(), Memory> {
    let Some(book) = books.get_mut(0) else {
        return Err(Memory);
    };
    for _ in 0..VERY_MANY {
        ask_and_leave(rt, alloc, book)?;
    }
    Ok(())
}

/// The book of a single node.
const ALONE: Made = Made {
    me: 1,
    nodes: 1,
    start: 0,
};

/// The run of that client.
const LARGE_RUN: Due = (2 * VERY_MANY, (VERY_MANY as u128, 0), (0, 0));

/// Settles books with very many events. If that is refused, memory ran out.
fn try_large_settling(rt: &impl Abort, alloc: Global) -> Result<Tried, Memory> {
    let mut books = new_books(alloc, &[ALONE]);
    become_large(rt, alloc, books.as_mut_slice())?;
    try_to_settle(rt, alloc, &books, &[], LARGE_RUN)
}

#[test]
fn large_growth_of_settling(rt: HostRuntime) {
    let alloc = rt.alloc();
    let first = try_large_settling(&rt, alloc);
    let second = try_large_settling(&rt, alloc);
    assert_grown!(&rt, again(first, second));
}

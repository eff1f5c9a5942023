//! Books to which something was done, and grants that clients got. The scenes are not traces, since most are no run: a
//! book alone goes on, shows what it has, or takes what no book sent.
use crate::kept_books::book_steps::Call::Receive;
use crate::kept_books::book_steps::{Step, does, takes};
use crate::kept_books::history_asserting::{assert_same, fail_at};
use crate::kept_books::history_values::{bytes_of, entry, new_book};
use Done::{AtNode, Loses, Passes};
use ra_book::{Book, Grant, MarkLostError};
use ra_frame::Frame;
use ra_stamp::Mode;
use std::alloc::Global;
use std::process::Abort;
use test_support::{At, row};

/// The book of node `me` of `nodes` before its first event. Each name begins with the number `start` in it.
#[derive(Clone, Copy)]
pub struct Made {
    /// Its node.
    pub me: u16,
    /// How many nodes there are.
    pub nodes: u16,
    /// The number that each name begins with.
    pub start: u64,
}

/// The book of node 1 of two, from number 0.
pub const ONE: Made = Made {
    me: 1,
    nodes: 2,
    start: 0,
};

/// The book of node 2 of two, from number 0.
pub const TWO: Made = Made {
    me: 2,
    nodes: 2,
    start: 0,
};

/// The book of node 2 of three, from number 0.
pub const TWO_OF_THREE: Made = Made {
    me: 2,
    nodes: 3,
    start: 0,
};

/// What is done to books, each at the place of its node. All of it is about `r`.
#[derive(Clone, Copy)]
pub enum Done {
    /// The book of this node does or shows this.
    AtNode(u16, Step<'static>),
    /// The frame that this node's book sent at this place reaches its destination node.
    Passes(u16, u64),
    /// That frame is flagged as lost, which takes no memory.
    Loses(u16, u64),
}

/// The grant of a request.
#[derive(Clone, Copy)]
pub struct Granted {
    pub node: u16,
    pub client: u32,
    pub mode: Mode,
    pub seq: u64,
}

/// Adds a book to the others. Returns whether that succeeds.
fn adds_book(alloc: Global, books: &mut Vec<Book>, made: Made) -> bool {
    match new_book(alloc, made.me, made.nodes, made.start) {
        Ok(book) => books.push(book).is_ok(),
        Err(_) => false,
    }
}

/// Makes these books, up to the first that cannot be made.
///
/// A book that a function owns is expensive to prove, so tests make books here, and lend them.
pub fn new_books(alloc: Global, all: &[Made]) -> Vec<Book> {
    let mut books = Vec::new(alloc);
    for made in all {
        if !adds_book(alloc, &mut books, *made) {
            break;
        }
    }
    books
}

/// Returns the frame that the book of a node sent at this place.
fn sent(books: &[Book], number: u16, place: u64) -> Option<Frame> {
    let Some(book) = books.get(usize::from(number).wrapping_sub(1)) else {
        return None;
    };
    match book.sent(place) {
        Some(sent) => Some(sent.frame),
        None => None,
    }
}

/// Delivers a frame to its destination node, whose book takes it. Returns whether there was memory for it.
fn arrives(rt: &impl Abort, alloc: Global, at: At<'_>, books: &mut [Book], frame: &Frame) -> bool {
    let place = usize::from(frame.message.to().get()).wrapping_sub(1);
    match (books.get_mut(place), bytes_of(alloc, frame)) {
        (Some(book), Some(bytes)) => takes(rt, alloc, at, book, Receive(bytes.as_slice()), None),
        _ => false,
    }
}

/// Flags the frame that the book of a node sent at this place as lost. Returns what the book answers, or `None` if
/// there is no such frame.
fn mark_lost(books: &mut [Book], number: u16, place: u64) -> Option<Result<(), MarkLostError>> {
    let sent = sent(books, number, place);
    match (books.get_mut(usize::from(number).wrapping_sub(1)), sent) {
        (Some(book), Some(frame)) => Some(book.mark_lost(&frame)),
        _ => None,
    }
}

/// Does this to the books. Returns whether there was memory for it.
fn is_done(rt: &impl Abort, alloc: Global, at: At<'_>, books: &mut [Book], done: Done) -> bool {
    match done {
        AtNode(number, step) => match books.get_mut(usize::from(number).wrapping_sub(1)) {
            Some(book) => does(rt, alloc, at, book, step),
            None => fail_at(rt, at, "there is no such book"),
        },
        Passes(number, place) => match sent(books, number, place) {
            Some(frame) => arrives(rt, alloc, at, books, &frame),
            None => fail_at(rt, at, "there is no such frame"),
        },
        Loses(number, place) => {
            assert_same(rt, at, &mark_lost(books, number, place), &Some(Ok(())));
            true
        }
    }
}

/// Does all of this to the books, in order. Returns whether there was memory for it.
fn are_done(rt: &impl Abort, alloc: Global, words: &str, books: &mut [Book], all: &[Done]) -> bool {
    for place in 0..all.len() {
        let at = At(words, "act", place + 1);
        if !is_done(rt, alloc, at, books, all[place]) {
            return false;
        }
    }
    true
}

/// Makes these books, and does all of this to them, in order. Ends the test if anything else happens, and returns fewer
/// books if memory ran out.
pub fn books_after(
    rt: &impl Abort,
    alloc: Global,
    words: &str,
    made: &[Made],
    all: &[Done],
) -> Vec<Book> {
    let mut books = new_books(alloc, made);
    if books.len() == made.len() && !are_done(rt, alloc, words, books.as_mut_slice(), all) {
        books.clear();
    }
    books
}

/// Asserts that a book does and shows these steps, in order.
fn follow(rt: &impl Abort, alloc: Global, words: &str, book: &mut Book, steps: &[Step<'_>]) {
    for place in 0..steps.len() {
        let at = At(words, "step", place + 1);
        if !does(rt, alloc, at, book, steps[place]) {
            fail_at(rt, at, "there is no memory for it");
        }
    }
}

/// Asserts that this book does and shows these steps, in order.
pub fn assert_follows(rt: &impl Abort, alloc: Global, words: &str, made: Made, steps: &[Step<'_>]) {
    let mut books = new_books(alloc, &[made]);
    match books.get_mut(0) {
        Some(book) => follow(rt, alloc, words, book, steps),
        None => fail_at(rt, row(words), "there is no such book"),
    }
}

/// Returns these grants for `r`, up to the first that finds no memory.
pub fn grants_of(rt: &impl Abort, alloc: Global, all: &[Granted]) -> Vec<Grant> {
    let mut grants = Vec::new(alloc);
    for granted in all {
        let Granted {
            node,
            client,
            mode,
            seq,
        } = *granted;
        let entry = entry(rt, node, client, mode, seq);
        if grants.push(Grant { entry }).is_err() {
            break;
        }
    }
    grants
}

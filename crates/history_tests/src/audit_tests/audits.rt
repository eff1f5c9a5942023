//! An auditor, which takes what has happened at books and puts it into one run, round after round. A trace cannot tell
//! in which parts it takes the events, or which of them do not fit.
use crate::kept_books::book_steps::{Wire, frame};
use crate::kept_books::histories::{Done, ONE, TWO, books_after};
use crate::kept_books::history_asserting::{assert_same, fail_at};
use crate::kept_books::history_values::{entry, node};
use Act::{Advances, AdvancesInParts, Finds, FindsNotLost, Gets, Has, HasLosses, Leaves, Loses};
use ra_audit::{AuditError, AuditFault, Auditor, MarkObserver, TakeError, Told};
use ra_book::{Book, BookEvent, BookKind};
use ra_frame::Frame;
use ra_stamp::{Entry, Mark, Memory, Mode, NodeId};
use std::alloc::Global;
use std::process::Abort;
use test_support::{At, Tried, both};

/// Events of a node's book.
#[derive(Clone, Copy)]
pub struct Part {
    pub node: u16,
    /// From this place on, up to the other one.
    pub first: usize,
    pub until: usize,
    /// The clock of the event before them.
    pub after: u64,
}

/// The event that a message came to a node.
#[derive(Clone, Copy)]
pub struct Came {
    pub node: u16,
    /// The clock of the event.
    pub clock: u64,
    /// The clock of the frame.
    pub sent_at: u64,
    pub message: Wire,
}

/// How much the run has of each.
#[derive(Clone, Copy)]
pub struct Shown {
    pub steps: u64,
    pub requests: u128,
    /// The messages that were sent, and those that are under way.
    pub sent: u128,
    pub under_way: u64,
    /// How many marks were told.
    pub marks: usize,
}

/// What an auditor does or shows. A call that finds no memory has to leave all as it was, and is made again.
#[derive(Clone, Copy)]
pub enum Act {
    /// It takes these events.
    Gets(Part),
    /// It puts all that it can into the run, which is at most one event.
    Advances,
    /// It puts all that it can into the run. If it finds no memory, what it put before stays.
    AdvancesInParts,
    /// It finds that this event does not fit.
    Finds(Came),
    /// It puts all that it can into the run, and this event is left, or none.
    Leaves(Option<Came>),
    /// It has this run, and was told the marks of the lock.
    Has(Shown),
    /// It notes as lost that this message was sent in a frame with this clock.
    Loses(u64, Wire),
    /// It finds that this frame was not lost.
    FindsNotLost(u64, Wire),
    /// How many losses are in the run, and how many wait.
    HasLosses(u64, usize),
}

/// An observer that compares each mark that it is told with the mark of one lock that is due.
#[derive(Drop)]
struct Compares {
    told: Told,
    /// The request of the lock.
    entry: Entry,
    place: usize,
    are_equal: bool,
}

impl MarkObserver for Compares {
    ghost told = { λ c. c.told };

    fn tell(&mut self, mark: &Mark) {
        self.told.tell(mark);
        let is_equal = match *mark {
            Mark::Requested(entry) => self.place == 0 && entry == self.entry,
            Mark::Entered(entry) => self.place == 1 && entry == self.entry,
            Mark::Left(entry) => self.place == 2 && entry == self.entry,
            Mark::Withdrawn(_) => false,
        };
        self.are_equal = self.are_equal && is_equal;
        self.place = self.place.saturating_add(1);
    }
}

/// What [`Shown`] has, and whether each mark that was told is the one that was due.
type Figures = ((u64, u128, u128), (u64, usize, bool));

/// Returns what an auditor and its observer show.
fn figures(auditor: &Auditor, observer: &Compares) -> Figures {
    (
        (auditor.steps(), auditor.requests(), auditor.sent()),
        (auditor.under_way(), observer.place, observer.are_equal),
    )
}

/// Takes events of a node. Callers know its answer alone, so that their proofs are short.
fn take(
    auditor: &mut Auditor,
    node: NodeId,
    after: u64,
    events: &[BookEvent],
) -> Result<(), TakeError> {
    auditor.take(node, after, events)
}

/// Takes events of a node, and takes them again if memory ran out, when all has to be as before.
fn gets(
    rt: &impl Abort,
    at: At<'_>,
    auditor: &mut Auditor,
    observer: &Compares,
    node: NodeId,
    after: u64,
    events: &[BookEvent],
) -> Tried {
    let (mut tried, before) = (Tried::NoFailure, figures(auditor, observer));
    let mut came = take(auditor, node, after, events);
    if came == Err(TakeError::Memory) {
        assert_same(rt, at, &figures(auditor, observer), &before);
        tried = Tried::RetrySucceeded;
        came = take(auditor, node, after, events);
    }
    assert_same(rt, at, &came, &Ok(()));
    tried
}

/// Takes a part of the book of its node.
fn gets_part(
    rt: &impl Abort,
    at: At<'_>,
    auditor: &mut Auditor,
    observer: &Compares,
    books: &[Book],
    part: Part,
) -> Tried {
    let Part {
        node: number,
        first,
        until,
        after,
    } = part;
    let Some(book) = books.get(usize::from(number).wrapping_sub(1)) else {
        fail_at(rt, at, "there is no such book");
    };
    let Some(events) = book.events().as_slice().get(first..until) else {
        fail_at(rt, at, "there are no such events");
    };
    gets(rt, at, auditor, observer, node(rt, number), after, events)
}

/// Puts all that can be put into the run. Callers know its answer alone, so that their proofs are short.
fn advance(
    alloc: Global,
    auditor: &mut Auditor,
    observer: &mut Compares,
) -> Result<(), AuditError> {
    auditor.advance(alloc, observer)
}

/// Puts all that can be put into the run, and does it again if memory ran out, when all has to be as before, unless it
/// may change in parts.
fn advances(
    rt: &impl Abort,
    alloc: Global,
    at: At<'_>,
    auditor: &mut Auditor,
    observer: &mut Compares,
    in_parts: bool,
) -> Tried {
    let (mut tried, before) = (Tried::NoFailure, figures(auditor, observer));
    let mut came = advance(alloc, auditor, observer);
    if came == Err(AuditError::Memory) {
        if !in_parts {
            assert_same(rt, at, &figures(auditor, observer), &before);
        }
        tried = Tried::RetrySucceeded;
        came = advance(alloc, auditor, observer);
    }
    assert_same(rt, at, &came, &Ok(()));
    tried
}

/// Returns the event with its node.
pub fn fault_of(rt: &impl Abort, came: Came) -> AuditFault {
    let Came {
        node: number,
        clock,
        sent_at: sent,
        message: wire,
    } = came;
    let kind = BookKind::Receive(frame(sent, wire));
    AuditFault {
        node: node(rt, number),
        event: BookEvent { clock, kind },
    }
}

/// Asserts that all that can be is put into the run, and that this event is left, or none.
fn assert_left(
    rt: &impl Abort,
    alloc: Global,
    at: At<'_>,
    auditor: &mut Auditor,
    observer: &mut Compares,
    came: Option<Came>,
) {
    let due = match came {
        Some(came) => Some(fault_of(rt, came)),
        None => None,
    };
    // What is left is asked only once the auditor says that it can put no more.
    match auditor.advance(alloc, observer) {
        Ok(()) => assert_same(rt, at, &auditor.unsettled(), &due),
        refused => assert_same(rt, at, &refused, &Ok(())),
    }
}

/// Asserts how many losses are in the run, and how many wait.
pub fn assert_losses(rt: &impl Abort, at: At<'_>, auditor: &Auditor, due: (u64, usize)) {
    assert_same(rt, at, &(auditor.lost(), auditor.losing()), &due);
}

/// Notes a frame as lost. Callers know its answer alone, so that their proofs are short.
fn lose(auditor: &mut Auditor, frame: &Frame) -> Result<(), Memory> {
    auditor.lose(&[*frame])
}

/// Notes a frame as lost, and notes it again if memory ran out, when all has to be as before.
pub fn loses(rt: &impl Abort, at: At<'_>, auditor: &mut Auditor, frame: &Frame) -> Tried {
    let before = (auditor.lost(), auditor.losing());
    if lose(auditor, frame).is_ok() {
        return Tried::NoFailure;
    }
    assert_losses(rt, at, auditor, before);
    assert_same(rt, at, &lose(auditor, frame), &Ok(()));
    Tried::RetrySucceeded
}

/// Asserts that an auditor and its observer show this.
fn assert_shown(rt: &impl Abort, at: At<'_>, auditor: &Auditor, observer: &Compares, shown: Shown) {
    let Shown {
        steps,
        requests,
        sent,
        under_way,
        marks,
    } = shown;
    let due = ((steps, requests, sent), (under_way, marks, true));
    assert_same(rt, at, &figures(auditor, observer), &due);
}

/// Does this, or asserts that it is shown.
fn acts(
    rt: &impl Abort,
    alloc: Global,
    at: At<'_>,
    auditor: &mut Auditor,
    observer: &mut Compares,
    books: &[Book],
    act: Act,
) -> Tried {
    match act {
        Gets(part) => return gets_part(rt, at, auditor, observer, books, part),
        Advances => return advances(rt, alloc, at, auditor, observer, false),
        AdvancesInParts => return advances(rt, alloc, at, auditor, observer, true),
        Loses(clock, wire) => return loses(rt, at, auditor, &frame(clock, wire)),
        Finds(came) => {
            let due = Err(AuditError::Fault(fault_of(rt, came)));
            assert_same(rt, at, &advance(alloc, auditor, observer), &due);
        }
        FindsNotLost(clock, wire) => {
            let due = Err(AuditError::NotLost(frame(clock, wire)));
            assert_same(rt, at, &advance(alloc, auditor, observer), &due);
        }
        Leaves(came) => assert_left(rt, alloc, at, auditor, observer, came),
        Has(shown) => assert_shown(rt, at, auditor, observer, shown),
        HasLosses(lost, losing) => assert_losses(rt, at, auditor, (lost, losing)),
    }
    Tried::NoFailure
}

/// Does all of this, in order.
fn all_acts(
    rt: &impl Abort,
    alloc: Global,
    words: &str,
    auditor: &mut Auditor,
    observer: &mut Compares,
    books: &[Book],
    all: &[Act],
) -> Tried {
    let mut tried = Tried::NoFailure;
    for place in 0..all.len() {
        let at = At(words, "act", place + 1);
        let came = acts(rt, alloc, at, auditor, observer, books, all[place]);
        tried = both(tried, came);
    }
    tried
}

/// Has this auditor do all of this with the books of two nodes. The observer is lent, so that it is dropped at one
/// exit.
fn audited_by(
    rt: &impl Abort,
    alloc: Global,
    words: &str,
    auditor: &mut Auditor,
    books: &[Book],
    all: &[Act],
) -> Tried {
    let mut observer = Compares {
        told: Told::new(),
        entry: entry(rt, 1, 1, Mode::Exclusive, 1),
        place: 0,
        are_equal: true,
    };
    all_acts(rt, alloc, words, auditor, &mut observer, books, all)
}

/// Has an auditor of two nodes do all of this with their books. Returns `None` if memory ran out before.
pub fn audited(
    rt: &impl Abort,
    alloc: Global,
    words: &str,
    books: &[Book],
    all: &[Act],
) -> Option<Tried> {
    match Auditor::new(alloc, 2, 0) {
        Ok(mut auditor) => Some(audited_by(rt, alloc, words, &mut auditor, books, all)),
        Err(_) => None,
    }
}

/// What an auditor makes of the books of two nodes.
pub struct Row {
    pub shows: &'static str,
    /// What is done to the books.
    pub done: &'static [Done],
    /// What the auditor does and shows then.
    pub acts: &'static [Act],
}

/// Does all of each row, and asserts that an auditor does and shows all of it.
pub fn assert_audited<R: Abort + AllocGlobal>(rt: &R, rows: &[Row]) {
    for row in rows {
        let Row {
            shows: words,
            done,
            acts,
        } = *row;
        let books = books_after(rt, rt.alloc(), words, &[ONE, TWO], done);
        let tried = audited(rt, rt.alloc(), words, &books, acts);
        let at = At(words, "after act", acts.len());
        assert_same(rt, at, &tried, &Some(Tried::NoFailure));
    }
}

//! The events of all books in one list, by clock and then by node.
ghost use Rattle.std.specs.Prelude.{◌≡◌, ◌+◌, ◌<◌, ◌^◌, List, length, map, slice_get, IfOk, IfSome, IsSome};
ghost use Rattle.ra_book.specs.declared.book.event.BookEvent.{BookEvent};
ghost use Rattle.ra_book.specs.Book.{BookState, HasHistory};
ghost use Rattle.ra_book.specs.Settled.{IsCluster, IsSettledOrder, Placed, steps_of, step_at};
ghost use Rattle.ra_book.specs.EventMerge.{IsEarliest, IsHeadOfEarliest, AreNext, taken_of, with_one_more, next_of_book, all_placed_at};
ghost use Rattle.ra_book.specs.EventMerge as spec;

use crate::{Book, BookEvent, BookKind};
use ra_stamp::{Memory, NodeId, Sequence};
use ra_world::{Step, Steps};
use std::alloc::Global;

/// An event and its node.
#[derive(Clone, Copy)]
pub struct PlacedEvent {
    pub node: NodeId,
    pub event: BookEvent,
}

/// The next event of the book at a place.
#[derive(Clone, Copy)]
struct Turn {
    place: usize,
    event: BookEvent,
}

/// How many events of a book are taken, and the clock of the one after them, or `None` if all are taken.
#[derive(Clone, Copy)]
struct Next {
    taken: u64,
    clock: Option<u64>,
}

/// The place of a book, and the clock of its next event.
#[derive(Clone, Copy)]
struct Head {
    place: usize,
    clock: u64,
}

/// Returns the steps that the events of all books are, by clock and then by node. Each turn looks through the clocks of
/// the next events of the books, which are in a list of their own, and takes one event.
pub fn steps_in_order(alloc: Global, books: &[Book]) -> Result<Steps, Memory>
    requires { IsCluster books.now }
    ensures { IfOk result (λ steps. (placed : List Placed) × IsSettledOrder books.now placed
        × (steps.items ≡ steps_of placed)) }
{
    let mut nexts = first_events(alloc, books)?;
    let mut steps = Steps::new(alloc);
    while let Some(turn) = take_earliest(books, &mut nexts) {
        steps.push(step_of(books[turn.place].me(), &turn.event.kind))?;
    }
    Ok(steps)
}

/// Returns the events of all books, by clock and then by node, with their nodes. It costs what [`steps_in_order`]
/// costs.
pub fn events_in_order(alloc: Global, books: &[Book]) -> Result<Sequence<PlacedEvent>, Memory>
    requires { IsCluster books.now }
    ensures { IfOk result (λ events. IsSettledOrder books.now (all_placed_at events.items)) }
{
    let mut nexts = first_events(alloc, books)?;
    let mut events = Sequence::new(alloc);
    while let Some(turn) = take_earliest(books, &mut nexts) {
        events.push(PlacedEvent {
            node: books[turn.place].me(),
            event: turn.event,
        })?;
    }
    Ok(events)
}

/// Returns what comes next of each book when nothing is taken yet.
fn first_events(alloc: Global, books: &[Book]) -> Result<Vec<Next>, Memory>
    ensures { IfOk result (λ nexts. nexts.items ≡ map (λ book. next_of_book book 0) books.now) }
{
    let mut nexts = Vec::new(alloc);
    for book in books {
        nexts.push(next_after(book, 0))?;
    }
    Ok(nexts)
}

/// Takes the next event of all books: the one with the least clock, and of those the one at the least node. Returns
/// `None` if all are taken. It looks through the clocks, and reads two events of the one book.
fn take_earliest(books: &[Book], nexts: &mut [Next]) -> Option<Turn>
    requires { AreNext books.now nexts.old }
    ensures earliest { IsEarliest books.now (taken_of nexts.old) (length books.now) result }
    ensures taken { IfSome result (λ turn. taken_of nexts.new ≡ with_one_more (taken_of nexts.old) turn.place) }
    ensures next { AreNext books.now nexts.new }
{
    let head = first_head(nexts)?;
    let book = &books[head.place];
    let taken = nexts[head.place].taken;
    let event = next_of(book, taken)?;
    nexts[head.place] = next_after(book, taken + 1);
    Some(Turn {
        place: head.place,
        event,
    })
}

/// Returns the place of the book that has the next event of all books, and the clock of that event, or `None` if all
/// are taken.
fn first_head(nexts: &[Next]) -> Option<Head>
    ensures { (books : List BookState) → AreNext books nexts.now
        → IsHeadOfEarliest books (taken_of nexts.now) (length books) result }
{
    let mut first = None;
    for (place, next) in nexts.iter().enumerate() {
        if let Some(clock) = next.clock {
            first = Some(lesser_of(first, Head { place, clock }));
        }
    }
    first
}

/// Returns the first one, unless it is missing or the other one has a lesser clock.
fn lesser_of(first: Option<Head>, other: Head) -> Head
    ensures { result ≡ spec.lesser_of first other }
{
    match first {
        Some(head) => {
            if head.clock <= other.clock {
                head
            } else {
                other
            }
        }
        None => other,
    }
}

/// Returns what comes next of a book after as many events as are taken.
fn next_after(book: &Book, taken: u64) -> Next
    ensures { result ≡ next_of_book book.now taken }
{
    let clock = match book.events().as_slice().get(taken as usize) {
        Some(event) => Some(event.clock),
        None => None,
    };
    Next { taken, clock }
}

/// Returns the event of a book after as many as are taken, or `None` if all are.
fn next_of(book: &Book, taken: u64) -> Option<BookEvent>
    ensures value { result ≡ slice_get book.now.events taken }
    ensures fits { IsSome result → taken + 1 < 2 ^ 64 }
    ensures history { HasHistory book.now }
{
    let events = book.events();
    if taken < events.len() {
        events.at(taken)
    } else {
        None
    }
}

/// Returns the step of the cluster that an event of a node is. It takes constant time and does not allocate.
pub fn step_of(node: NodeId, kind: &BookKind) -> Step
    ensures { result ≡ step_at node kind.now }
{
    match *kind {
        BookKind::Ask { client, name, mode } => Step::Ask {
            node,
            client,
            name,
            mode,
        },
        BookKind::Leave { client, name } => Step::Leave { node, client, name },
        BookKind::Cancel { client, name } => Step::Cancel { node, client, name },
        BookKind::Receive(frame) => Step::Deliver(frame.message),
        BookKind::Forget => Step::Forget { node },
    }
}

//! Books, and values that are in them, as several files of tests use them.
use ra_book::{Book, Grant, NewError, SettleError, Settled, is_cluster, settle};
use ra_frame::{Frame, encode};
use ra_stamp::{Entry, Message, Mode, NodeId};
use ra_trace::Line;
use ra_world::Step;
use std::alloc::Global;
use std::process::Abort;
use test_support::{entry_of, r};

/// Makes the book of a node of this many. Each name begins with the number `start` in it.
///
/// # Errors
///
/// Why no book is made, or `BadNode` if no node has such a number.
pub fn new_book(alloc: Global, number: u16, nodes: u16, start: u64) -> Result<Book, NewError> {
    match NodeId::new(number) {
        Some(me) => Book::new(alloc, me, nodes, start),
        None => Err(NewError::BadNode),
    }
}

/// Settles books with grants. The contract of `settle` is long, so its callers call it by this function, which has
/// none.
///
/// # Errors
///
/// Why they do not settle, or `None` if they are not a cluster.
pub fn settled(
    alloc: Global,
    books: &[Book],
    grants: &[Grant],
) -> Result<Settled, Option<SettleError>> {
    if !is_cluster(books) {
        return Err(None);
    }
    match settle(alloc, books, grants) {
        Ok(settled) => Ok(settled),
        Err(refused) => Err(Some(refused)),
    }
}

/// Returns the bytes of a frame, or `None` if it does not fit or memory runs out.
pub fn bytes_of(alloc: Global, frame: &Frame) -> Option<Vec<u8>> {
    if frame.fits() {
        encode(alloc, frame).ok()
    } else {
        None
    }
}

/// Returns the node with this number.
pub fn node(rt: &impl Abort, number: u16) -> NodeId {
    match NodeId::new(number) {
        Some(node) => node,
        None => panic!(rt; "there is no node with this number"),
    }
}

/// Returns the step that a line of a trace tells, or `None` if it tells none.
pub fn step_of(line: &str) -> Option<Step> {
    match Line::parse(line.as_bytes()) {
        Some(Line::Stepped(step)) => Some(step),
        _ => None,
    }
}

/// Returns the message that a line of a trace delivers, or `None` if it delivers none.
pub fn message_of(line: &str) -> Option<Message> {
    match step_of(line) {
        Some(Step::Deliver(message)) => Some(message),
        _ => None,
    }
}

/// Returns the request of a client on the name `r` at a node, with this number.
pub fn entry(rt: &impl Abort, number: u16, client: u32, mode: Mode, seq: u64) -> Entry {
    entry_of(node(rt, number), client, r(), mode, seq)
}

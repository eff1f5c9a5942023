//! Whether each frame that came was sent, and came once.
ghost use Rattle.std.specs.Prelude.{◌≢◌, ◌↔◌, All, AllPairs, map, IfOk, IsTrue, MatchBool, MatchResult};
ghost use Rattle.ra_book.specs.Settled.{IsCluster, BooksFit, HasTwice, HasUnsent, WasSent, all_received};
ghost use Rattle.ra_book.specs.SettlingParts.{RefusesReceived};

use crate::settle_books::order_keys::message_key;
use crate::{Book, BookKind, SettleError};
use ra_frame::Frame;
use ra_stamp::Memory;
use std::alloc::Global;
use std::collections::BTreeSet;

/// Checks that each frame that came was sent and not lost, and that no message came twice. To find a frame takes
/// logarithmic time, since the frames of a book ascend by clock and a node sends the frames of one event in order. To
/// find a message does, too, since the messages are in a set.
///
/// # Errors
///
/// The first that holds, of all books:
///
/// 1. `NotSent`: a frame came that is not among the frames that its sender sent and that were not lost.
/// 2. `Twice`: a message came twice.
/// 3. `Memory`, which may come before `Twice`.
pub fn check_received(alloc: Global, books: &[Book]) -> Result<(), SettleError>
    requires { IsCluster books.now }
    ensures { MatchResult result (λ _. BooksFit books.now) (RefusesReceived books.now) }
{
    if !were_sent(books) {
        return Err(SettleError::NotSent);
    }
    if !has_no_duplicates(alloc, books)? {
        return Err(SettleError::Twice);
    }
    Ok(())
}

/// Returns whether each frame that came was sent and not lost. It does not allocate.
pub fn were_sent(books: &[Book]) -> bool
    requires { IsCluster books.now }
    ensures { MatchBool result (All (λ f. WasSent books.now f) (all_received books.now)) (HasUnsent books.now) }
{
    for book in books {
        let events = book.events().as_slice();
        for event in events {
            if let BookKind::Receive(frame) = &event.kind {
                if !was_sent(books, frame) {
                    return false;
                }
            }
        }
    }
    true
}

/// Returns whether the books of a cluster have a frame as one that its sender sent: with this clock and message, and
/// not flagged lost. It does not allocate. It costs what [`Book::mark_lost`] costs.
pub fn was_sent(books: &[Book], frame: &Frame) -> bool
    requires { IsCluster books.now }
    ensures { IsTrue result ↔ WasSent books.now frame.now }
{
    match books.get(frame.message.from().place()) {
        Some(book) => book.has_kept(frame),
        None => false,
    }
}

/// Returns whether no message came twice. The set takes memory, and without one it would take time quadratic in the
/// messages.
fn has_no_duplicates(alloc: Global, books: &[Book]) -> Result<bool, Memory>
    ensures { IfOk result (λ once. MatchBool once
        (AllPairs (λ a b. a ≢ b) (map (λ f. f.message) (all_received books.now))) (HasTwice books.now)) }
{
    let mut came = BTreeSet::new(alloc);
    for book in books {
        let events = book.events().as_slice();
        for event in events {
            if let BookKind::Receive(frame) = &event.kind {
                if !came.insert(message_key(&frame.message))? {
                    return Ok(false);
                }
            }
        }
    }
    Ok(true)
}

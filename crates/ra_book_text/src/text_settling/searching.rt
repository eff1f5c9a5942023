//! The first line that does not fit the others.
ghost use Rattle.std.specs.Prelude.{◌≡◌, ◌≢◌, ◌∷◌, ◌++◌, [], All, AllPairs, IfOk, MatchOption, OnOk};
ghost use Rattle.ra_book.specs.Settled.{IsCluster, WasSent};
ghost use Rattle.ra_book_text.specs.Verdicts.{IsFirstAgain, IsFirstUnsent, messages_of};

use crate::text_settling::came_frames::Came;
use ra_bag::Bag;
use ra_book::{Book, was_sent};
use ra_stamp::{Memory, Message, Messages};
use std::alloc::Global;

/// Returns the number of the first line that brings a frame that was not sent, or is flagged lost, or `None`.
/// The cost of each frame is logarithmic.
pub fn first_unsent(books: &[Book], came: &[Came]) -> Option<u64>
    requires { IsCluster books.now }
    ensures { MatchOption result (All (λ one. WasSent books.now one.frame) came.now)
        (IsFirstUnsent books.now came.now) }
{
    for one in came {
        if !was_sent(books, &one.frame) {
            return Some(one.line);
        }
    }
    None
}

/// Puts a message after those that came.
fn put(alloc: Global, bag: &mut Bag, message: Message) -> Result<(), Memory>
    ensures { OnOk result (bag.new.items ≡ bag.old.items ++ message ∷ []) }
{
    let mut messages = Messages::new(alloc);
    messages.push(message)?;
    bag.put_all(&messages)
}

/// Looks for a message that came again, with a bag that is empty so far, and puts all before it into the bag.
fn again_among(alloc: Global, bag: &mut Bag, came: &[Came]) -> Result<Option<u64>, Memory>
    requires { bag.old.items ≡ [] }
    ensures { IfOk result
        (λ found. MatchOption found (AllPairs (λ a b. a ≢ b) (messages_of came.now)) (IsFirstAgain came.now)) }
{
    for one in came {
        if bag.find(&one.frame.message, 0).is_some() {
            return Ok(Some(one.line));
        }
        put(alloc, bag, one.frame.message)?;
    }
    Ok(None)
}

/// Returns the number of the first line that brings a message again, or `None`. The cost of each frame is constant
/// on average. If there is no memory to index the messages of the bag, all before it are looked through.
///
/// # Errors
///
/// `Memory`: memory ran out.
pub fn first_again(alloc: Global, came: &[Came]) -> Result<Option<u64>, Memory>
    ensures { IfOk result
        (λ found. MatchOption found (AllPairs (λ a b. a ≢ b) (messages_of came.now)) (IsFirstAgain came.now)) }
{
    // The bag is lent, so that it is dropped at one exit.
    let mut bag = Bag::new(alloc)?;
    again_among(alloc, &mut bag, came)
}

//! Books with frames that came more than once, in one run.
ghost use Rattle.std.specs.Prelude.{◌≡◌, ◌↔◌, ◌∷◌, [], List, MatchResult, OnOk, IfOk, IsErrOf, IsOkUnless, map, length, reverse};
ghost use Rattle.ra_world.specs.Traffic.{Move};
ghost use Rattle.ra_world.specs.World.{Reports};
ghost use Rattle.ra_world.specs.MainTheorem.{MainTheorem};
ghost use Rattle.ra_book.specs.EventMerge.{placed_at};
ghost use Rattle.ra_book.specs.Settled.{IsCluster, IsSettledOrder, HasUnsent, Placed, all_lost, start_of};
ghost use Rattle.ra_book.specs.Repeats.{AreWithCopies, IsSettledRunWithCopies};
ghost use Rattle.ra_book.specs.SettlingParts.{HasCome, SettlesWithCopies};

use crate::settle_books::event_merge::{PlacedEvent, events_in_order, step_of};
use crate::settle_books::flagged_losses::push_losses;
use crate::settle_books::order_keys::{FrameKey, message_key};
use crate::settle_books::receipts::were_sent;
use crate::settle_books::run_steps;
use crate::{Book, BookKind, SettleError, Settled};
use ra_stamp::Memory;
use ra_world::{Step, Steps};
use std::alloc::Global;
use std::collections::BTreeSet;

/// Puts the step of an event after these steps, and then a repeat if the event gets a frame that a later event gets
/// again. The steps are in reverse order. The set has the frames that come by the later events.
fn push_back(
    back: &mut Vec<Step>,
    later: &mut BTreeSet<FrameKey>,
    one: &PlacedEvent,
) -> Result<(), Memory>
    ensures { (placed : List Placed) → HasCome later.old placed → AreWithCopies placed (reverse back.old.items)
        → OnOk result (HasCome later.new (placed_at one.now ∷ placed)
        × AreWithCopies (placed_at one.now ∷ placed) (reverse back.new.items)) }
{
    // Room for both comes first, so that no step is put whose repeat can't be.
    back.reserve(2)?;
    back.push_reserved(step_of(one.node, &one.event.kind));
    let BookKind::Receive(frame) = one.event.kind else {
        return Ok(());
    };
    if later.insert((frame.clock, message_key(&frame.message)))? {
        return Ok(());
    }
    back.push_reserved(Step::Repeat(frame.message));
    Ok(())
}

/// Returns the steps of the events of all books in the settled order, with copies, in reverse order. The cost is n log
/// n, and k n for k books.
fn steps_back(alloc: Global, books: &[Book]) -> Result<Vec<Step>, Memory>
    requires { IsCluster books.now }
    ensures { IfOk result (λ back. (placed : List Placed) × IsSettledOrder books.now placed
        × AreWithCopies placed (reverse back.items)) }
{
    let placed = events_in_order(alloc, books)?;
    let events = placed.as_slice();
    let mut back = Vec::new(alloc);
    let mut later = BTreeSet::new(alloc);
    for turn in 0..events.len() {
        // From the last event back.
        push_back(&mut back, &mut later, &events[events.len() - 1 - turn])?;
    }
    Ok(back)
}

/// Returns the steps of the events of all books in the settled order, with copies: if an event brings a frame that a
/// later event brings again, a repeat of its message is directly before it. The cost is n log n, and k n for k books.
fn steps_with_copies(alloc: Global, books: &[Book]) -> Result<Steps, Memory>
    requires { IsCluster books.now }
    ensures { IfOk result
        (λ steps. (placed : List Placed) × IsSettledOrder books.now placed × AreWithCopies placed steps.items) }
{
    let mut back = steps_back(alloc, books)?;
    back.reverse();
    let mut steps = Steps::new(alloc);
    for step in back.iter() {
        steps.push(*step)?;
    }
    Ok(steps)
}

/// Settles books if only frames came that were sent.
///
/// # Errors
///
/// `Memory`: memory ran out.
fn run_with_copies(alloc: Global, books: &[Book]) -> Result<Settled, SettleError>
    requires cluster { IsCluster books.now }
    requires lossless { all_lost books.now ≡ [] }
    requires sent { HasUnsent books.now → ⊥ }
    ensures { MatchResult result (SettlesWithCopies books.now) (λ e. e ≡ SettleError.Memory) }
{
    let mut steps = steps_with_copies(alloc, books)?;
    // For the proof: each book has a history. No frame is flagged lost, so that this adds nothing.
    push_losses(&mut steps, books)?;
    run_steps(alloc, books, steps)
}

/// Settles the books of a cluster into one run of it, even if frames came more than once. No frame may be flagged lost.
/// The run has the events of all books by clock, and then by node. If an event gets a frame that comes again later, a
/// repeat of the frame's message is directly before that event. So a frame that comes n times is repeated n - 1 times.
/// Frames with two clocks are two frames, even if they carry the same message. Unless memory runs out, books settle
/// exactly if each frame that came was sent. With n events and frames sent and k books, the cost is that of the run,
/// plus n log n and k n; memory is linear in n.
///
/// # Errors
///
/// 1. `NotSent`: a frame came, with this clock and message, that is not among the frames that its sender sent.
/// 2. `Memory`, which never comes before it.
pub fn settle_with_copies(alloc: Global, books: &[Book]) -> Result<Settled, SettleError>
    requires cluster { IsCluster books.now }
    requires lossless { all_lost books.now ≡ [] }
    // The steps are a settled run with copies, and the report is of this run.
    ensures settled_run { IfOk result (λ settled. (moves : List Move)
        × (map (λ move. move.step) moves ≡ settled.steps.items)
        × IsSettledRunWithCopies books.now moves
        × Reports (length books.now) (start_of books.now) moves settled.report) }
    ensures main_theorem { IfOk result (λ settled. MainTheorem (length books.now) settled.report) }
    ensures not_sent { HasUnsent books.now ↔ IsErrOf result SettleError.NotSent }
    ensures settles { (HasUnsent books.now → ⊥) → IsOkUnless result SettleError.Memory }
{
    if were_sent(books) {
        run_with_copies(alloc, books)
    } else {
        Err(SettleError::NotSent)
    }
}

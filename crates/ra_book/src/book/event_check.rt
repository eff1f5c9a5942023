//! Which events a node takes, and why it does not take the others.
ghost use Rattle.std.specs.Prelude.{◌≢◌, IfErr, MatchResult};
ghost use Rattle.ra_book.specs.EventChecks.{MayTake, NodeRefuses, CanHappen, IsRefusedAfter, IsRefusedWithClock};
ghost use Rattle.ra_book.specs.declared.book.event.BookKind as kind;
ghost use Rattle.ra_book.specs.declared.error.BookError.{BookError};

use crate::book::kept_events::clock_after;
use crate::{BookError, BookKind};
use ra_frame::Frame;
use ra_node::Node;

/// Checks that a node takes an event, whatever its clock.
///
/// # Errors
///
/// `Busy`, `Exhausted`, `NotHeld`, `NotWaiting`, `WrongNode`, `Stranger`: it does not, as its call says.
fn check_node(node: &Node, kind: &BookKind) -> Result<(), BookError>
    ensures { MatchResult result (λ _. MayTake node.now kind.now) (NodeRefuses node.now kind.now) }
{
    match kind {
        BookKind::Ask { client, name, .. } => Ok(node.may_ask(*client, name)?),
        BookKind::Leave { client, name } => {
            if node.is_held_by(*client, name) {
                Ok(())
            } else {
                Err(BookError::NotHeld)
            }
        }
        BookKind::Cancel { client, name } => {
            if node.is_kept_waiting(*client, name) {
                Ok(())
            } else {
                Err(BookError::NotWaiting)
            }
        }
        BookKind::Receive(frame) => Ok(node.check_address(&frame.message)?),
        BookKind::Forget => Ok(()),
    }
}

/// Returns the clock that an event of this kind has at a node, if this is the clock before it.
///
/// # Errors
///
/// The first that holds:
///
/// 1. `Busy`, `Exhausted`, `NotHeld`, `NotWaiting`, `WrongNode`, `Stranger`: the node does not take it.
/// 2. `ClockFull`: the clock would pass 2^62.
pub fn check_event(node: &Node, clock: u64, kind: &BookKind) -> Result<u64, BookError>
    ensures checked { MatchResult result (CanHappen node.now clock kind.now) (IsRefusedAfter node.now clock kind.now) }
    ensures no_memory { IfErr result (λ why. why ≢ BookError.Memory) }
{
    check_node(node, kind)?;
    clock_after(clock, kind)
}

/// Returns why a frame is refused at a node if there is no memory for it, and a clock is left. It does not allocate.
///
/// 1. `WrongNode`, `Stranger`: the node does not take it.
/// 2. `Memory`: otherwise.
pub fn room_refusal(node: &Node, frame: &Frame) -> BookError
    ensures { IsRefusedWithClock node.now (kind.BookKind.Receive frame.now) result }
{
    if let Err(why) = check_node(node, &BookKind::Receive(*frame)) {
        return why;
    }
    BookError::Memory
}

/// Returns why an event of this kind is refused at a node if there is no memory for it, and this is the clock before
/// it. Each other cause comes before `Memory`. It does not allocate.
///
/// 1. `Busy`, `Exhausted`, `NotHeld`, `NotWaiting`, `WrongNode`, `Stranger`: the node does not take it.
/// 2. `ClockFull`: the clock would pass 2^62.
/// 3. `Memory`: otherwise.
pub fn event_refusal(node: &Node, clock: u64, kind: &BookKind) -> BookError
    ensures { IsRefusedAfter node.now clock kind.now result }
{
    match check_event(node, clock, kind) {
        Ok(_) => BookError::Memory,
        Err(why) => why,
    }
}

//! The room in a book's lists for what comes next: one event, and the leaves or cancels of the clients that wait, are
//! queued or hold.
ghost use Rattle.std.specs.Prelude.{◌≡◌, ◌+◌, ◌*◌, ◌≤◌, ◌^◌, [], length, vec_len, vec_capacity, IfOk};
ghost use Rattle.ra_book.specs.Departures.{HasGrown, HasRoomMade, IsDeparture};
ghost use Rattle.ra_book.specs.Keeping as spec;

use crate::book::departure::Departure;
use crate::{Events, Frames, Sent};
use ra_stamp::{Memory, Message, Sequence};
use std::alloc::Global;

/// Makes room for an ask at one of this many nodes, and for the leaves after it, also by the client that asks. Returns
/// a list for the frames that the ask posts, and what the client's leave will need.
///
/// # Errors
///
/// `Memory`: memory ran out.
pub fn room_to_ask(
    alloc: Global,
    nodes: u16,
    events: &mut Events,
    sent: &mut Vec<Sent>,
    departures: &mut Vec<Departure>,
) -> Result<(Frames, Departure), Memory>
    ensures events { events.new.items ≡ events.old.items }
    ensures sent { sent.new.items ≡ sent.old.items }
    ensures departures { departures.new.items ≡ departures.old.items }
    ensures grown { HasGrown events.old.spare events.new.spare (vec_len sent.old) (vec_len sent.new)
        (vec_capacity sent.old) (vec_capacity sent.new) }
    ensures room { IfOk result (λ made. HasRoomMade nodes nodes (length departures.old.items + 1) events.new.spare
        (vec_len sent.new) (vec_capacity sent.new) made.0) }
    ensures departure { IfOk result (λ made. IsDeparture nodes made.1) }
    ensures place { IfOk result (λ _. vec_len departures.new + 1 ≤ vec_capacity departures.new) }
{
    departures.reserve(1)?;
    let leaves = departures.len() + 1;
    let frames = make_room(alloc, nodes, events, sent, u64::from(nodes), leaves)?;
    let departure = Departure::new(alloc, nodes)?;
    Ok((frames, departure))
}

/// Makes room for an event that sends at most this many messages, and after it for this many leaves at one of this many
/// nodes. Returns a list for the frames that the event posts.
///
/// # Errors
///
/// `Memory`: memory ran out.
pub fn make_room(
    alloc: Global,
    nodes: u16,
    events: &mut Events,
    sent: &mut Vec<Sent>,
    sends: u64,
    leaves: usize,
) -> Result<Frames, Memory>
    requires leaves { leaves ≤ 2 ^ 63 }
    ensures events { events.new.items ≡ events.old.items }
    ensures sent { sent.new.items ≡ sent.old.items }
    ensures grown { HasGrown events.old.spare events.new.spare (vec_len sent.old) (vec_len sent.new)
        (vec_capacity sent.old) (vec_capacity sent.new) }
    ensures room { IfOk result (λ frames. HasRoomMade nodes sends leaves events.new.spare (vec_len sent.new)
        (vec_capacity sent.new) frames) }
{
    events.reserve(leaves as u64 + 1)?;
    sent.reserve(most_sent(nodes, sends, leaves)?)?;
    with_room(alloc, sends)
}

/// Returns how many messages a node sends at most when this one comes.
pub fn answers_to(message: &Message) -> u64
    ensures { result ≡ spec.answers_to message.now }
{
    match message {
        Message::Request { .. } => 1,
        // A REPLY can only let a client enter.
        Message::Reply { .. } => 0,
    }
}

/// Makes an empty list with room for this many items.
///
/// # Errors
///
/// `Memory`: memory ran out.
pub fn with_room<T: Copy>(alloc: Global, count: u64) -> Result<Sequence<T>, Memory>
    ensures { IfOk result (λ list. (list.items ≡ []) × (count ≤ list.spare)) }
{
    let mut list = Sequence::new(alloc);
    list.reserve(count)?;
    Ok(list)
}

/// Returns how many frames are sent by an event that sends this many, and this many leaves after it, at most.
///
/// # Errors
///
/// `Memory`: no memory has room for this many.
pub fn most_sent(nodes: u16, sends: u64, leaves: usize) -> Result<usize, Memory>
    ensures { IfOk result (λ count. count ≡ sends + leaves * (2 * nodes)) }
{
    let later = leaves.checked_mul(2 * usize::from(nodes)).ok_or(Memory)?;
    later.checked_add(sends as usize).ok_or(Memory)
}

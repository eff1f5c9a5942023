//! What a book keeps at each event.
ghost use Rattle.std.specs.Prelude.{◌≡◌, ◌+◌, ◌<◌, ◌≤◌, ◌^◌, ◌++◌, length, vec_len, vec_capacity, MatchResult};
ghost use Rattle.ra_node.specs.Node.{NodeState};
ghost use Rattle.ra_node.specs.Events.{NodeEvent};
ghost use Rattle.ra_book.specs.History as history;
ghost use Rattle.ra_book.specs.History.{node_event, frames_at};
ghost use Rattle.ra_book.specs.Book.{as_sent};
ghost use Rattle.ra_book.specs.Departures.{HasEventRoom, UsesRoom};
ghost use Rattle.ra_book.specs.Keeping.{Happens, IsFlagged, Ascends};

use crate::book::frame_search::place_of;
use crate::{BookError, BookEvent, BookKind, Events, Frames, MarkLostError, Posted, Sent};
use ra_frame::Frame;
use ra_node::Outcome;
use ra_stamp::Message;

/// Returns the clock of an event that comes after this clock.
///
/// # Errors
///
/// `ClockFull`: it would pass 2^62.
pub fn clock_after(clock: u64, kind: &BookKind) -> Result<u64, BookError>
    ensures { MatchResult result (λ next. (next ≡ history.clock_after clock kind.now) × (next ≤ 2 ^ 62))
        (λ e. (e ≡ BookError.ClockFull) × (2 ^ 62 < history.clock_after clock kind.now)) }
{
    let latest = match kind {
        BookKind::Receive(frame) => clock.max(frame.clock),
        BookKind::Ask { .. }
        | BookKind::Leave { .. }
        | BookKind::Cancel { .. }
        | BookKind::Forget => clock,
    };
    if latest < Frame::MAX_CLOCK {
        Ok(latest + 1)
    } else {
        Err(BookError::ClockFull)
    }
}

/// Keeps an event and the frames that carry its messages, and returns what it posts. There must be room for them.
pub fn keep(
    events: &mut Events,
    sent: &mut Vec<Sent>,
    mut frames: Frames,
    event: BookEvent,
    outcome: Outcome,
) -> Posted
    requires { HasEventRoom (length outcome.sends.items) events.old.spare (vec_len sent.old)
        (vec_capacity sent.old) frames }
    ensures kept { (old new : NodeState)
        → NodeEvent old (node_event event.kind) outcome.sends.items outcome.marks.items new
        → Happens old new events.old.items events.new.items sent.old.items sent.new.items event result }
    ensures used { UsesRoom (length outcome.sends.items) events.old.spare events.new.spare (vec_len sent.old)
        (vec_len sent.new)
        (vec_capacity sent.old) (vec_capacity sent.new) }
{
    let clock = event.clock;
    events.push(event).unwrap();
    put_frames(&mut frames, sent, clock, outcome.sends.as_slice());
    let marks = outcome.marks;
    Posted { frames, marks }
}

/// Puts the frames that carry messages at this clock into both lists, which have room for them. None of them is lost
/// yet.
fn put_frames(frames: &mut Frames, sent: &mut Vec<Sent>, clock: u64, sends: &[Message])
    requires frames { length sends.now ≤ frames.old.spare }
    requires sent { vec_len sent.old + length sends.now ≤ vec_capacity sent.old }
    ensures frames { frames.new.items ≡ frames.old.items ++ frames_at clock sends.now }
    ensures sent { sent.new.items ≡ sent.old.items ++ as_sent (frames_at clock sends.now) }
    ensures len { vec_len sent.new ≡ vec_len sent.old + length sends.now }
    ensures capacity { vec_capacity sent.new ≡ vec_capacity sent.old }
{
    for message in sends {
        let message = *message;
        // The frame is copied through a borrow, since the proof of a copy of the variable is not told of the type of
        // its message.
        let frame = &Frame { clock, message };
        frames.push(*frame).unwrap();
        let frame = *frame;
        sent.push_reserved(Sent { frame, lost: false });
    }
}

/// Flags the sent frame that is equal to this one as lost, or the first such frame if there were several.
///
/// # Errors
///
/// The first that holds, and the frames are as before:
///
/// 1. `NotSent`: it is not among them.
/// 2. `AlreadyLost`: it was flagged before.
pub fn flag_lost(sent: &mut [Sent], frame: &Frame) -> Result<(), MarkLostError>
    requires { Ascends sent.old }
    ensures { IsFlagged sent.old frame.now sent.new result }
{
    let Some(place) = place_of(sent, frame) else {
        return Err(MarkLostError::NotSent);
    };
    if sent[place].lost {
        return Err(MarkLostError::AlreadyLost);
    }
    sent[place].lost = true;
    Ok(())
}

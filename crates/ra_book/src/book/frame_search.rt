//! Frames that are sought among those that a node sent, which ascend by clock.
ghost use Rattle.std.specs.Prelude.{◌≡◌, ◌≢◌, ◌<◌, ◌↔◌, ℕ, ltb, false, All, Contains, slice_index_or, IsTrue, MatchOption};
ghost use Rattle.ra_book.specs.declared.book.sent.Sent.{Sent};
ghost use Rattle.ra_book.specs.Keeping.{Ascends, IsFirstAt};

use crate::Sent;
use ra_frame::Frame;
use ra_stamp::{Message, NodeId};

/// Returns the place of the first sent frame that is equal to this one, or `None`. The cost is logarithmic in the
/// number of the sent frames, and linear in how many of them have its clock. One event sent all of these.
pub fn place_of(sent: &[Sent], frame: &Frame) -> Option<usize>
    requires { Ascends sent.now }
    ensures { MatchOption result (All (λ s. s.frame ≢ frame.now) sent.now) (IsFirstAt sent.now frame.now) }
{
    for place in place_before(sent, frame.clock, 0)..sent.len() {
        let other = &sent[place];
        if is_of(other, frame) {
            return Some(place);
        }
        if frame.clock < other.frame.clock {
            return None;
        }
    }
    None
}

/// Returns whether this frame is among those that were sent, and not flagged lost. A node sends the frames of one clock
/// in the order of [`rank_of`]. If all frames are in that order and this one is among them, the cost is logarithmic in
/// the number of the sent frames. Otherwise it is the cost of [`place_of`].
pub fn is_kept(sent: &[Sent], frame: &Frame) -> bool
    requires { Ascends sent.now }
    ensures { IsTrue result ↔ Contains sent.now (record { frame = frame.now; lost = false }) }
{
    let rank = rank_of(&frame.message);
    if let Some(likely) = sent.get(place_before(sent, frame.clock, rank)) {
        if is_kept_of(likely, frame) {
            return true;
        }
    }
    for place in place_before(sent, frame.clock, 0)..sent.len() {
        let other = &sent[place];
        if is_kept_of(other, frame) {
            return true;
        }
        if frame.clock < other.frame.clock {
            return false;
        }
    }
    false
}

/// Returns a place. Each frame before it has a lesser clock than this one, or this clock and a rank below this one.
/// If the rank is not 0, and the frames of one clock are not in the order of [`rank_of`], it may be any place.
fn place_before(sent: &[Sent], clock: u64, rank: u16) -> usize
    ensures { Ascends sent.now → rank ≡ 0 → (k : ℕ) (d : Sent) → k < result
        → (slice_index_or sent.now k d).frame.clock < clock }
{
    sent.partition_point(
        |other| -> bool
            ensures { rank ≡ 0 → result ≡ ltb other.now.frame.clock clock }
        {
            let other = &other.frame;
            other.clock < clock || (other.clock == clock && rank_of(&other.message) < rank)
        },
    )
}

/// Returns a message's rank among the messages of its event: each REPLY comes before each REQUEST, and messages of one
/// kind ascend by the node that they are for.
fn rank_of(message: &Message) -> u16 {
    match *message {
        Message::Reply { to, .. } => to.get(),
        Message::Request { to, .. } => NodeId::MAX + to.get(),
    }
}

/// Returns whether it is this frame that was sent, and it is not flagged lost.
fn is_kept_of(sent: &Sent, frame: &Frame) -> bool
    ensures { IsTrue result ↔ (sent.now ≡ record { frame = frame.now; lost = false }) }
{
    *sent
        == Sent {
            frame: *frame,
            lost: false,
        }
}

/// Returns whether it is this frame that was sent.
fn is_of(sent: &Sent, frame: &Frame) -> bool
    ensures { IsTrue result ↔ (sent.now.frame ≡ frame.now) }
{
    sent.frame == *frame
}

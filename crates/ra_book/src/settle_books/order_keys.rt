//! Requests, messages and frames as keys, which sets order and look up: their own types have no order that
//! means anything.
ghost use Rattle.std.specs.Prelude.{◌≡◌};
ghost use Rattle.ra_book.specs.Keys as spec;

use ra_stamp::{Entry, Message, Mode, Name, NodeId};

/// All of a request or of a message, in this order: its number; the node that asks, or that the message is from; the
/// client that asks, or the node that the message is for; the number of the mode, which is 0 for a REPLY; and the name.
pub type OrderKey = (u64, NodeId, u32, u8, Name);

/// All of a frame: its clock, and the key of its message.
pub type FrameKey = (u64, OrderKey);

/// Returns the key of a request.
pub fn entry_key(entry: &Entry) -> OrderKey
    ensures { result ≡ spec.entry_key entry.now }
{
    (
        entry.stamp.seq,
        entry.stamp.node,
        entry.client,
        mode_number(entry.mode),
        entry.name,
    )
}

/// Returns the key of a message.
pub fn message_key(message: &Message) -> OrderKey
    ensures { result ≡ spec.message_key message.now }
{
    let mode = match *message {
        Message::Request { mode, .. } => mode_number(mode),
        Message::Reply { .. } => 0,
    };
    (
        message.seq(),
        message.from(),
        u32::from(message.to().get()),
        mode,
        message.name(),
    )
}

/// Returns a number of its own for each mode, 1 or more.
fn mode_number(mode: Mode) -> u8
    ensures { result ≡ spec.mode_number mode }
{
    match mode {
        Mode::Shared => 1,
        Mode::Exclusive => 2,
        Mode::IntentShared => 3,
        Mode::IntentExclusive => 4,
        Mode::SharedIntentExclusive => 5,
    }
}

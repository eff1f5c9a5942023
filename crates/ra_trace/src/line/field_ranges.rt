//! What the types of fields say of their ranges. Each function does nothing, and its contract says it.
ghost use Rattle.std.specs.Prelude.{◌<◌, ◌^◌};
ghost use Rattle.ra_trace.specs.TraceText.{IsClientNumber};
ghost use Rattle.ra_trace.specs.Ranges.{MarkFits, MessageFits, StepFits};

use ra_stamp::{Mark, Message};
use ra_world::Step;

/// A client has 32 bits.
fn client_fits(client: u32)
    ensures { IsClientNumber client }
{
    // For the proof: a client has 32 bits.
    let _ = client;
}

/// A number has 64 bits.
fn seq_fits(seq: u64)
    ensures { seq < 2 ^ 64 }
{
    // For the proof: a number has 64 bits.
    let _ = seq;
}

/// So the fields of a mark are in their ranges, if its entry has a number.
pub fn mark_fits(mark: &Mark)
    ensures { MarkFits mark.now }
{
    let entry = mark.entry();
    // For the proof: each field of an entry is in its range.
    let _ = entry.stamp.node.get();
    let _ = entry.name.bytes();
    client_fits(entry.client);
    seq_fits(entry.stamp.seq);
}

/// So the fields of a message are in their ranges, if it has a number.
pub fn message_fits(message: &Message)
    ensures { MessageFits message.now }
{
    // For the proof: each field of a message is in its range.
    let _ = message.from().get();
    let _ = message.to().get();
    let _ = message.name().bytes();
    let _ = message.seq();
}

/// So the fields of a step are in their ranges, if it has no message or its message has a number.
pub fn step_fits(step: &Step)
    ensures { StepFits step.now }
{
    match step {
        Step::Ask {
            node,
            client,
            name,
            ..
        }
        | Step::Leave { node, client, name }
        | Step::Cancel { node, client, name } => {
            // For the proof: each field of a client's step is in its range.
            let _ = node.get();
            let _ = name.bytes();
            client_fits(*client);
        }
        Step::Deliver(message) | Step::Lose(message) | Step::Repeat(message) => {
            // For the proof: each field of a message is in its range.
            message_fits(message);
        }
        Step::Forget { node } => {
            // For the proof: so is the node.
            let _ = node.get();
        }
    }
}

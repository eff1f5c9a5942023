//! The fields of messages.
ghost use Rattle.std.specs.Prelude.{◌≡◌, ◌++◌, Some, None, MatchOption, codes};
ghost use Rattle.ra_host_text.specs.Fields as spec;
ghost use Rattle.ra_host_text.specs.HostText.{IsMessage};
ghost use Rattle.ra_host_text.specs.declared.host_message.HostMessage.{HostMessage};

use crate::host_message::HostMessage;
use crate::host_message::frame_text::frame_of;
use crate::nonce_of;
use ra_stamp::NodeId;
use ra_trace::{node_of, split_once, start_of};

/// Reads a question: a start and a number, with a dot between them. It does not allocate.
fn question_of(text: &[u8]) -> Option<(u128, u64)>
    ensures { result ≡ spec.question_of text.now }
{
    let (start, question) = split_once(text, b'.')?;
    let start = nonce_of(start)?;
    let question = start_of(question)?;
    Some((start, question))
}

/// Reads the number with which each resource begins, and the first nonce of a book. It does not allocate.
fn first_and_identity_of(text: &[u8]) -> Option<(u64, u128)>
    ensures { result ≡ spec.first_and_identity_of text.now }
{
    let (first, identity) = split_once(text, b' ')?;
    let first = start_of(first)?;
    let identity = nonce_of(identity)?;
    Some((first, identity))
}

/// Reads the settings of a host: how many nodes there are, the number with which each resource begins, and the first
/// nonce of its book. It does not allocate.
fn settings_of(text: &[u8]) -> Option<(NodeId, (u64, u128))>
    ensures { result ≡ spec.settings_of text.now }
{
    let (nodes, rest) = split_once(text, b' ')?;
    let nodes = node_of(nodes)?;
    let rest = first_and_identity_of(rest)?;
    Some((nodes, rest))
}

/// Reads the fields of a question. It does not allocate.
fn hello_of(text: &[u8]) -> Option<HostMessage>
    ensures { result ≡ spec.hello_of text.now }
{
    let (question, rest) = split_once(text, b' ')?;
    let (start, question) = question_of(question)?;
    let (nodes, (first, identity)) = settings_of(rest)?;
    Some(HostMessage::Hello {
        start,
        question,
        nodes,
        first,
        identity,
    })
}

/// Reads a start and a count. It does not allocate.
fn start_and_kept_of(text: &[u8]) -> Option<(u128, u64)>
    ensures { result ≡ spec.start_and_kept_of text.now }
{
    let (start, kept) = split_once(text, b' ')?;
    let start = nonce_of(start)?;
    let kept = start_of(kept)?;
    Some((start, kept))
}

/// Reads the fields of an answer. It does not allocate.
fn welcome_of(text: &[u8]) -> Option<HostMessage>
    ensures { result ≡ spec.welcome_of text.now }
{
    let (question, rest) = split_once(text, b' ')?;
    let (asker, question) = question_of(question)?;
    let (start, kept) = start_and_kept_of(rest)?;
    Some(HostMessage::Welcome {
        asker,
        question,
        start,
        kept,
    })
}

/// Reads the fields of an ack. It does not allocate.
fn ack_of(text: &[u8]) -> Option<HostMessage>
    ensures { result ≡ spec.ack_of text.now }
{
    let (start, rest) = split_once(text, b' ')?;
    let start = nonce_of(start)?;
    let (other, kept) = start_and_kept_of(rest)?;
    Some(HostMessage::Ack { start, other, kept })
}

/// Reads the field of the message that a book is old. It does not allocate.
fn old_of(text: &[u8]) -> Option<HostMessage>
    ensures { result ≡ spec.old_of text.now }
{
    let count = start_of(text)?;
    Some(HostMessage::Old { count })
}

/// Reads a message without a frame, by its first word and what is after it. It does not allocate.
pub fn plain_message_of(word: &[u8], rest: &[u8]) -> Option<HostMessage>
    ensures { result ≡ spec.plain_message_of word.now rest.now }
{
    if word == b"ack".as_slice() {
        ack_of(rest)
    } else if word == b"welcome".as_slice() {
        welcome_of(rest)
    } else if word == b"hello".as_slice() {
        hello_of(rest)
    } else if word == b"old".as_slice() {
        old_of(rest)
    } else {
        None
    }
}

/// Reads a start and a number, and returns the digits after them. It does not allocate.
fn frame_fields_of(text: &[u8]) -> Option<(u128, (u64, &[u8]))>
    ensures { MatchOption result (spec.frame_fields_of text.now ≡ None)
        (λ fields. spec.frame_fields_of text.now ≡ Some (fields.0, (fields.1.0, fields.1.1.now))) }
{
    let (start, rest) = split_once(text, b' ')?;
    let start = nonce_of(start)?;
    let (number, digits) = split_once(rest, b' ')?;
    let number = start_of(number)?;
    Some((start, (number, digits)))
}

/// Reads the fields of a message with a frame. It does not allocate.
pub fn frame_message_of(text: &[u8]) -> Option<HostMessage>
    ensures { MatchOption result ((message : HostMessage) → IsMessage (codes "frame " ++ text.now) message → ⊥)
        (IsMessage (codes "frame " ++ text.now)) }
{
    let (start, (number, digits)) = frame_fields_of(text)?;
    let frame = frame_of(digits)?;
    Some(HostMessage::Frame {
        start,
        number,
        frame,
    })
}

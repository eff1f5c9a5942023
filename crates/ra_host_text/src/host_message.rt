//! The messages between hosts.
mod frame_text;
mod message_fields;

ghost use Rattle.std.specs.Prelude.{◌≡◌, ◌++◌, ℕ, List, decimal, MatchBool, MatchOption};
ghost use Rattle.ra_text.specs.Drafting.{Adds};
ghost use Rattle.ra_text.specs.Lines.{field};
ghost use Rattle.ra_host_text.specs.HostText.{IsCount, IsMessage, IsNonce, IsUnfit, link_of, nonce_text, question_text};
ghost use Rattle.ra_host_text.specs.declared.host_message.HostMessage.{HostMessage};

use crate::host_message::frame_text::push_frame;
use crate::host_message::message_fields::{frame_message_of, plain_message_of};
use crate::push_nonce;
use itoa::Buffer;
use ra_frame::Frame;
use ra_link::Message;
use ra_stamp::NodeId;
use ra_text::Draft;
use ra_trace::split_once;
use std::fmt;
use thiserror::Error;

/// A message has a frame that does not fit, so that it has no text.
#[derive(Clone, Copy, Debug, PartialEq, Eq, Error)]
pub struct Unfit;

impl fmt::Display for Unfit {
    fn fmt<W: fmt::Write>(&self, f: &mut fmt::Formatter<W>) -> fmt::Result {
        fmt::Debug::fmt(self, f)
    }
}

/// What one host says to another one: what their link hears of it, with the settings of a host in a question, and the
/// frame itself. A start is named by its nonce.
#[derive(Clone, Copy)]
pub enum HostMessage {
    /// `hello S.I NODES START ID`: a question.
    Hello {
        /// The start that asks.
        start: u128,
        /// Which of its questions it is, 1 or more.
        question: u64,
        /// How many nodes there are.
        nodes: NodeId,
        /// The number with which each resource begins.
        first: u64,
        /// The first nonce of the host's book, by which two books of one node are told apart.
        identity: u128,
    },
    /// `welcome S.I T K`: the answer.
    Welcome {
        /// The start that asked.
        asker: u128,
        /// Its question.
        question: u64,
        /// The start that answers.
        start: u128,
        /// How many frames of the asker are on the disk of the host that answers.
        kept: u64,
    },
    /// `frame S K HEX`: a frame.
    Frame {
        /// The start that says it.
        start: u128,
        /// The number of the frame, 1 or more.
        number: u64,
        /// The frame.
        frame: Frame,
    },
    /// `ack S T K`: all frames that were taken from the receiver are on the disk.
    Ack {
        /// The start that says it.
        start: u128,
        /// The receiver's start, of which it takes frames.
        other: u128,
        /// How many frames they are.
        kept: u64,
    },
    /// `old K`: the receiver's book is old.
    Old {
        /// How many frames the receiver has acknowledged.
        count: u64,
    },
}

/// Adds a word and a question.
fn push_question(text: &mut Draft, word: &str, start: u128, question: u64)
    ensures text { Adds text.old (word.now ++ field (question_text start question)) text.new }
    // A nonce has 128 bits, and a number 64.
    ensures fits { IsNonce start × IsCount question }
{
    text.push(word);
    push_nonce(text, start);
    text.push(".");
    text.push(Buffer::new().format(question));
}

/// Adds a number, with the space before it.
fn push_count(text: &mut Draft, count: u64)
    ensures text { Adds text.old (field (decimal count)) text.new }
    // A number has 64 bits.
    ensures fits { IsCount count }
{
    text.push_number(count);
}

impl HostMessage {
    /// Returns what a link hears of it. It does not allocate.
    pub fn link_message(&self) -> Message
        ensures { result ≡ link_of self.now }
    {
        match *self {
            HostMessage::Hello {
                start,
                question,
                ..
            } => Message::Hello { start, question },
            HostMessage::Welcome {
                asker,
                question,
                start,
                kept,
            } => Message::Welcome {
                asker,
                question,
                start,
                kept,
            },
            HostMessage::Frame { start, number, .. } => Message::Frame { start, number },
            HostMessage::Ack { start, other, kept } => Message::Ack { start, other, kept },
            HostMessage::Old { count } => Message::Old { count },
        }
    }

    /// Returns whether it has a text: its frame, if it has one, fits. It does not allocate.
    pub fn fits(&self) -> bool
        ensures { MatchBool result (IsUnfit self.now → ⊥) (IsUnfit self.now) }
    {
        match self {
            HostMessage::Frame { frame, .. } => frame.fits(),
            _ => true,
        }
    }

    /// Returns the message that a text is, or `None` if it is none. It does not allocate, and the cost is linear in the
    /// text.
    pub fn parse(text: &[u8]) -> Option<HostMessage>
        ensures { MatchOption result ((message : HostMessage) → IsMessage text.now message → ⊥) (IsMessage text.now) }
    {
        let (word, rest) = split_once(text, b' ')?;
        if word == b"frame".as_slice() {
            frame_message_of(rest)
        } else {
            plain_message_of(word, rest)
        }
    }

    /// Adds its text. Its frame fits.
    pub fn push(&self, text: &mut Draft)
        requires { IsUnfit self.now → ⊥ }
        ensures { (said : List ℕ) × IsMessage said self.now × Adds text.old said text.new }
    {
        match self {
            HostMessage::Hello {
                start,
                question,
                nodes,
                first,
                identity,
            } => {
                push_question(text, "hello", *start, *question);
                text.push_number(nodes.get());
                push_count(text, *first);
                push_nonce(text, *identity);
            }
            HostMessage::Welcome {
                asker,
                question,
                start,
                kept,
            } => {
                push_question(text, "welcome", *asker, *question);
                push_nonce(text, *start);
                push_count(text, *kept);
            }
            HostMessage::Frame {
                start,
                number,
                frame,
            } => {
                text.push("frame");
                push_nonce(text, *start);
                push_count(text, *number);
                push_frame(text, frame);
            }
            HostMessage::Ack { start, other, kept } => {
                text.push("ack");
                push_nonce(text, *start);
                push_nonce(text, *other);
                push_count(text, *kept);
            }
            HostMessage::Old { count } => {
                text.push("old");
                push_count(text, *count);
            }
        }
    }
}

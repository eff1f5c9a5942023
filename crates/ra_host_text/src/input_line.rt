//! The lines that a host reads.
ghost use Rattle.std.specs.Prelude.{◌≡◌, ℕ, List, MatchOption, Some, None};
ghost use Rattle.ra_host_text.specs.LineFields as spec;
ghost use Rattle.ra_host_text.specs.LineText.{Input, IsInput, input_of};

use crate::nonce_of;
use ra_stamp::NodeId;
use ra_trace::{node_of, split_once, start_of};

/// A line that a host reads. Its text is that of the line.
#[derive(Clone, Copy)]
pub enum InputLine<'a> {
    /// `nonce S`: the nonce of this start.
    Nonce {
        /// 128 random bits.
        nonce: u128,
    },
    /// `peer J TEXT`: a host said a text.
    Peer {
        /// The host.
        host: NodeId,
        /// The text, which may be anything.
        text: &'a [u8],
    },
    /// `up J`: there is a new connection to a host.
    Up {
        /// The host.
        host: NodeId,
    },
    /// `client C TEXT`: a client said a text.
    Client {
        /// The number of its connection.
        client: u64,
        /// The text, which may be anything.
        text: &'a [u8],
    },
    /// `gone C`: a client's connection has ended.
    Gone {
        /// The number of the connection.
        client: u64,
    },
    /// `time MS`: the time.
    Time {
        /// Milliseconds since the start.
        milliseconds: u64,
    },
    /// `release`: what clients held or waited for before the comeback is given back.
    Release,
}

/// Reads a nonce. It does not allocate.
fn nonce_line_of(text: &[u8]) -> Option<InputLine<'_>>
    ensures { MatchOption result (spec.nonce_line_of text.now ≡ None)
        (λ line. spec.nonce_line_of text.now ≡ Some (input_of line)) }
{
    let nonce = nonce_of(text)?;
    Some(InputLine::Nonce { nonce })
}

/// Reads a host and what it said. It does not allocate.
fn peer_of(text: &[u8]) -> Option<InputLine<'_>>
    ensures { MatchOption result (spec.peer_of text.now ≡ None)
        (λ line. spec.peer_of text.now ≡ Some (input_of line)) }
{
    let (host, text) = split_once(text, b' ')?;
    let host = node_of(host)?;
    Some(InputLine::Peer { host, text })
}

/// Reads a host. It does not allocate.
fn up_of(text: &[u8]) -> Option<InputLine<'_>>
    ensures { MatchOption result (spec.up_of text.now ≡ None) (λ line. spec.up_of text.now ≡ Some (input_of line)) }
{
    let host = node_of(text)?;
    Some(InputLine::Up { host })
}

/// Reads a client and what it said. It does not allocate.
fn client_of(text: &[u8]) -> Option<InputLine<'_>>
    ensures { MatchOption result (spec.client_of text.now ≡ None)
        (λ line. spec.client_of text.now ≡ Some (input_of line)) }
{
    let (client, text) = split_once(text, b' ')?;
    let client = start_of(client)?;
    Some(InputLine::Client { client, text })
}

/// Reads a client. It does not allocate.
fn gone_of(text: &[u8]) -> Option<InputLine<'_>>
    ensures { MatchOption result (spec.gone_of text.now ≡ None)
        (λ line. spec.gone_of text.now ≡ Some (input_of line)) }
{
    let client = start_of(text)?;
    Some(InputLine::Gone { client })
}

/// Reads the time. It does not allocate.
fn time_of(text: &[u8]) -> Option<InputLine<'_>>
    ensures { MatchOption result (spec.time_of text.now ≡ None)
        (λ line. spec.time_of text.now ≡ Some (input_of line)) }
{
    let milliseconds = start_of(text)?;
    Some(InputLine::Time { milliseconds })
}

/// Reads a line by its first word and what is after it. It does not allocate.
fn worded_input_of<'a>(word: &[u8], rest: &'a [u8]) -> Option<InputLine<'a>>
    ensures { MatchOption result (spec.worded_input_of word.now rest.now ≡ None)
        (λ line. spec.worded_input_of word.now rest.now ≡ Some (input_of line)) }
{
    if word == b"peer".as_slice() {
        peer_of(rest)
    } else if word == b"client".as_slice() {
        client_of(rest)
    } else if word == b"time".as_slice() {
        time_of(rest)
    } else if word == b"gone".as_slice() {
        gone_of(rest)
    } else if word == b"up".as_slice() {
        up_of(rest)
    } else if word == b"nonce".as_slice() {
        nonce_line_of(rest)
    } else {
        None
    }
}

impl<'a> InputLine<'a> {
    /// Returns what a line says to a host, without its line feed, or `None` if it is none of these. A host that is not
    /// of the cluster and a client that is not there are read, too. It does not allocate, and the cost is linear in the
    /// first words of the line.
    pub fn parse(line: &'a [u8]) -> Option<InputLine<'a>>
        ensures { MatchOption result ((said : Input) → IsInput line.now said → ⊥)
            (λ read. IsInput line.now (input_of read)) }
    {
        if line == b"release".as_slice() {
            return Some(InputLine::Release);
        }
        let (word, rest) = split_once(line, b' ')?;
        worded_input_of(word, rest)
    }
}

//! What a host answers to its clients.
ghost use Rattle.std.specs.Prelude.{◌≡◌, ◌++◌, ℕ, List, MatchOption, Some, None};
ghost use Rattle.ra_stamp.specs.Name.{IsName};
ghost use Rattle.ra_text.specs.Drafting.{Adds};
ghost use Rattle.ra_text.specs.Lines.{field};
ghost use Rattle.ra_host_text.specs.ClientFields as spec;
ghost use Rattle.ra_host_text.specs.ClientText.{IsAnswer, answer_text, refusal_word};
ghost use Rattle.ra_host_text.specs.declared.answer.Answer.{Answer};

use ra_stamp::{Name, NodeId};
use ra_text::Draft;
use ra_trace::{name_of, node_of, split_once, start_of};

/// Why a host refuses what a client asks.
#[derive(Clone, Copy, Debug, PartialEq, Eq)]
pub enum Refusal {
    /// The client holds the name already, or waits for it.
    Busy,
    /// No number is left for a request of the name.
    Exhausted,
    /// A limit of the host is reached.
    Limit,
    /// The client neither holds the name nor waits for it.
    NotHeld,
}

/// What a host answers to a client about a name.
#[derive(Clone, Copy)]
pub enum Answer {
    /// `granted NAME SEQ NODE`: the client holds the name. The number and the node are its fencing token.
    Granted {
        /// The name.
        name: Name,
        /// The number of the request.
        seq: u64,
        /// The host's node.
        node: NodeId,
    },
    /// `timeout NAME`: the time has passed, and the client has given up.
    Timeout {
        /// The name.
        name: Name,
    },
    /// `unlocked NAME`: the client neither holds the name nor waits for it any more.
    Unlocked {
        /// The name.
        name: Name,
    },
    /// `refused NAME WORD`: nothing has changed.
    Refused {
        /// The name.
        name: Name,
        /// Why.
        why: Refusal,
    },
}

impl Refusal {
    /// Returns its word, which is its name. It does not allocate.
    pub fn word(self) -> &'static str
        ensures { result.now ≡ refusal_word self }
    {
        match self {
            Refusal::Busy => "Busy",
            Refusal::Exhausted => "Exhausted",
            Refusal::Limit => "Limit",
            Refusal::NotHeld => "NotHeld",
        }
    }
}

/// Reads the word of a refusal. It does not allocate.
fn refusal_of(word: &[u8]) -> Option<Refusal>
    ensures { result ≡ spec.refusal_of word.now }
{
    if word == b"Busy".as_slice() {
        Some(Refusal::Busy)
    } else if word == b"Exhausted".as_slice() {
        Some(Refusal::Exhausted)
    } else if word == b"Limit".as_slice() {
        Some(Refusal::Limit)
    } else if word == b"NotHeld".as_slice() {
        Some(Refusal::NotHeld)
    } else {
        None
    }
}

/// Reads a number and a node. It does not allocate.
fn seq_and_node_of(text: &[u8]) -> Option<(u64, NodeId)>
    ensures { result ≡ spec.seq_and_node_of text.now }
{
    let (seq, node) = split_once(text, b' ')?;
    let seq = start_of(seq)?;
    let node = node_of(node)?;
    Some((seq, node))
}

/// Reads the fields of a grant. It does not allocate.
fn granted_of(text: &[u8]) -> Option<Answer>
    ensures { result ≡ spec.granted_of text.now }
{
    let (name, rest) = split_once(text, b' ')?;
    let name = name_of(name)?;
    let (seq, node) = seq_and_node_of(rest)?;
    Some(Answer::Granted { name, seq, node })
}

/// Reads the name for which a client has given up. It does not allocate.
fn timeout_of(text: &[u8]) -> Option<Answer>
    ensures { result ≡ spec.timeout_of text.now }
{
    let name = name_of(text)?;
    Some(Answer::Timeout { name })
}

/// Reads the name that a client has given back. It does not allocate.
fn unlocked_of(text: &[u8]) -> Option<Answer>
    ensures { result ≡ spec.unlocked_of text.now }
{
    let name = name_of(text)?;
    Some(Answer::Unlocked { name })
}

/// Reads the fields of a refusal. It does not allocate.
fn refused_of(text: &[u8]) -> Option<Answer>
    ensures { result ≡ spec.refused_of text.now }
{
    let (name, why) = split_once(text, b' ')?;
    let name = name_of(name)?;
    let why = refusal_of(why)?;
    Some(Answer::Refused { name, why })
}

/// Reads an answer, by its first word and what is after it. It does not allocate.
fn answer_of(word: &[u8], rest: &[u8]) -> Option<Answer>
    ensures { result ≡ spec.answer_of word.now rest.now }
{
    if word == b"granted".as_slice() {
        granted_of(rest)
    } else if word == b"unlocked".as_slice() {
        unlocked_of(rest)
    } else if word == b"timeout".as_slice() {
        timeout_of(rest)
    } else if word == b"refused".as_slice() {
        refused_of(rest)
    } else {
        None
    }
}

/// Adds a word and a name.
fn push_named(text: &mut Draft, word: &str, name: &Name)
    ensures text { Adds text.old (word.now ++ field name.now) text.new }
    ensures fits { IsName name.now }
{
    // For the proof: the bytes of a name are one.
    let _ = name.bytes();
    text.push(word);
    text.push_field(name.as_str());
}

impl Answer {
    /// Returns the answer that a line is, without its line feed, or `None` if it is none. It does not allocate, and the
    /// cost is linear in the line.
    pub fn parse(line: &[u8]) -> Option<Answer>
        ensures { MatchOption result ((answer : Answer) → IsAnswer line.now answer → ⊥) (IsAnswer line.now) }
    {
        let (word, rest) = split_once(line, b' ')?;
        answer_of(word, rest)
    }

    /// Adds it as text, without a line feed.
    pub fn push(&self, text: &mut Draft)
        ensures text { Adds text.old (answer_text self.now) text.new }
        ensures line { IsAnswer (answer_text self.now) self.now }
    {
        match self {
            Answer::Granted { name, seq, node } => {
                push_named(text, "granted", name);
                text.push_number(*seq);
                text.push_number(node.get());
            }
            Answer::Timeout { name } => push_named(text, "timeout", name),
            Answer::Unlocked { name } => push_named(text, "unlocked", name),
            Answer::Refused { name, why } => {
                push_named(text, "refused", name);
                text.push_field(why.word());
            }
        }
    }
}

//! What clients say to their host.
ghost use Rattle.std.specs.Prelude.{◌≡◌, ◌++◌, ℕ, List, MatchOption, Some, None};
ghost use Rattle.ra_stamp.specs.Name.{IsName};
ghost use Rattle.ra_text.specs.Drafting.{Adds};
ghost use Rattle.ra_text.specs.Lines.{field};
ghost use Rattle.ra_host_text.specs.ClientFields as spec;
ghost use Rattle.ra_host_text.specs.ClientText.{IsClientLine, IsWaitIn, client_text, within_text};
ghost use Rattle.ra_host_text.specs.declared.client_line.ClientLine.{ClientLine};

use crate::Wait;
use ra_stamp::{Mode, Name};
use ra_text::Draft;
use ra_trace::{mode_of, name_of, rest_after, split_once, start_of};

/// What a client says to its host, on a line.
#[derive(Clone, Copy)]
pub enum ClientLine {
    /// `lock NAME MODE`, or `lock NAME MODE within MS`: it asks for a name.
    Lock {
        /// The name.
        name: Name,
        /// The mode in which it is to be held.
        mode: Mode,
        /// After which time the client gives up, if it does.
        within: Option<Wait>,
    },
    /// `unlock NAME`: it holds the name no longer, or gives up.
    Unlock {
        /// The name.
        name: Name,
    },
    /// `status`: it asks what the host knows.
    Status,
}

/// Reads a time that a client may wait. It does not allocate.
fn wait_of(digits: &[u8]) -> Option<Wait>
    ensures { result ≡ spec.wait_of digits.now }
{
    let number = start_of(digits)?;
    Wait::new(number)
}

/// Reads for how long a client waits. It does not allocate.
fn within_of(text: &[u8]) -> Option<Wait>
    ensures { result ≡ spec.within_of text.now }
{
    let digits = rest_after(b"within ", text)?;
    wait_of(digits)
}

/// Reads a mode, alone or with the time that the client waits. It does not allocate.
fn mode_and_within_of(text: &[u8]) -> Option<(Mode, Option<Wait>)>
    ensures { result ≡ spec.mode_and_within_of text.now }
{
    match split_once(text, b' ') {
        None => {
            let mode = mode_of(text)?;
            Some((mode, None))
        }
        Some((mode, rest)) => {
            let mode = mode_of(mode)?;
            let within = within_of(rest)?;
            Some((mode, Some(within)))
        }
    }
}

/// Reads the fields with which a client asks for a name. It does not allocate.
fn lock_of(text: &[u8]) -> Option<ClientLine>
    ensures { result ≡ spec.lock_of text.now }
{
    let (name, rest) = split_once(text, b' ')?;
    let name = name_of(name)?;
    let (mode, within) = mode_and_within_of(rest)?;
    Some(ClientLine::Lock { name, mode, within })
}

/// Reads the name that a client holds no longer. It does not allocate.
fn unlock_of(text: &[u8]) -> Option<ClientLine>
    ensures { result ≡ spec.unlock_of text.now }
{
    let name = name_of(text)?;
    Some(ClientLine::Unlock { name })
}

/// Reads a line with a name, by its first word and what is after it. It does not allocate.
fn named_line_of(word: &[u8], rest: &[u8]) -> Option<ClientLine>
    ensures { result ≡ spec.named_line_of word.now rest.now }
{
    if word == b"lock".as_slice() {
        lock_of(rest)
    } else if word == b"unlock".as_slice() {
        unlock_of(rest)
    } else {
        None
    }
}

/// Adds for how long a client waits, if it says so.
fn push_within(text: &mut Draft, within: Option<Wait>)
    ensures text { Adds text.old (within_text within) text.new }
    // A time that clients wait is in its range.
    ensures fits { IsWaitIn within }
{
    if let Some(wait) = within {
        text.push(" within");
        text.push_number(wait.get());
    }
}

impl ClientLine {
    /// Returns what a client says by a line, without its line feed, or `None` if it is none of these. It does not
    /// allocate, and the cost is linear in the line.
    pub fn parse(line: &[u8]) -> Option<ClientLine>
        ensures { MatchOption result ((said : ClientLine) → IsClientLine line.now said → ⊥) (IsClientLine line.now) }
    {
        if line == b"status".as_slice() {
            return Some(ClientLine::Status);
        }
        let (word, rest) = split_once(line, b' ')?;
        named_line_of(word, rest)
    }

    /// Adds it as text, without a line feed.
    pub fn push(&self, text: &mut Draft)
        ensures text { Adds text.old (client_text self.now) text.new }
        ensures line { IsClientLine (client_text self.now) self.now }
    {
        match self {
            ClientLine::Lock { name, mode, within } => {
                // For the proof: the bytes of a name are one.
                let _ = name.bytes();
                text.push("lock");
                text.push_field(name.as_str());
                text.push_field(mode.word());
                push_within(text, *within);
            }
            ClientLine::Unlock { name } => {
                let _ = name.bytes();
                text.push("unlock");
                text.push_field(name.as_str());
            }
            ClientLine::Status => text.push("status"),
        }
    }
}

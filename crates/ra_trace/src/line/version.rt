//! The versions of traces, and what each allows.
ghost use Rattle.std.specs.Prelude.{◌≡◌};
ghost use Rattle.ra_trace.specs.Version as spec;
ghost use Rattle.ra_trace.specs.Forms.{allows_entry, allows_mark, allows_message, allows_sent, allows_step, has_node};

use ra_stamp::{Entry, Mark, Message, Mode, NodeId};
use ra_world::Step;

/// A version of the form of traces. Each is read, and a run is written in the first from `Two` on that has all of its
/// lines.
#[derive(Clone, Copy)]
pub enum Version {
    /// Nodes 1 to 16, the modes `S` and `X`, and no repeats.
    One,
    /// Nodes 1 to 64, all modes, and repeats, which came to it later: each text that was a trace before is one still.
    Two,
    /// As `Two`, and cancels, withdrawals and forgetting.
    Three,
    /// As `Three`, and after each step a line for each message that it sends, before its marks.
    ThreeWithSends,
}

impl Version {
    /// Returns whether a node has a number of this version. It does not allocate.
    pub fn has_node(self, node: NodeId) -> bool
        ensures { result ≡ has_node self node }
    {
        match self {
            Version::One => node.get() <= 16,
            Version::Two | Version::Three | Version::ThreeWithSends => node.get() <= 64,
        }
    }

    /// Returns whether a name may be locked in a mode. It does not allocate.
    pub fn has_mode(self, mode: Mode) -> bool
        ensures { result ≡ spec.has_mode self mode }
    {
        match self {
            Version::One => matches!(mode, Mode::Shared | Mode::Exclusive),
            Version::Two | Version::Three | Version::ThreeWithSends => true,
        }
    }

    /// Returns whether clients may cancel and nodes forget. It does not allocate.
    pub fn has_cancels(self) -> bool
        ensures { result ≡ spec.has_cancels self }
    {
        matches!(self, Version::Three | Version::ThreeWithSends)
    }

    /// Returns whether the trace has the messages that a step sends. It does not allocate.
    pub fn has_sends(self) -> bool
        ensures { result ≡ spec.has_sends self }
    {
        matches!(self, Version::ThreeWithSends)
    }

    /// Returns whether this version has such a mark, with its fields in their ranges. It does not allocate.
    pub fn allows_mark(self, mark: &Mark) -> bool
        ensures { result ≡ allows_mark self mark.now }
    {
        match mark {
            Mark::Requested(entry) | Mark::Entered(entry) | Mark::Left(entry) => self.allows_entry(
                entry,
            ),
            Mark::Withdrawn(entry) => self.has_cancels() && self.allows_entry(entry),
        }
    }

    /// Returns whether the fields of a request are in the ranges of this version.
    fn allows_entry(self, entry: &Entry) -> bool
        ensures { result ≡ allows_entry self entry.now }
    {
        self.has_node(entry.stamp.node) && self.has_mode(entry.mode)
    }

    /// Returns whether this version tells sends, and has such a message, with its fields in their ranges. It does not
    /// allocate.
    pub fn allows_sent(self, message: &Message) -> bool
        ensures { result ≡ allows_sent self message.now }
    {
        self.has_sends() && self.allows_message(message)
    }

    /// Returns whether the fields of a message are in the ranges of this version.
    fn allows_message(self, message: &Message) -> bool
        ensures { result ≡ allows_message self message.now }
    {
        match message {
            Message::Request { from, to, mode, .. } => {
                self.has_node(*from) && self.has_node(*to) && self.has_mode(*mode)
            }
            Message::Reply { from, to, .. } => self.has_node(*from) && self.has_node(*to),
        }
    }

    /// Returns whether this version has such a step, with its fields in their ranges. It does not allocate.
    pub fn allows_step(self, step: &Step) -> bool
        ensures { result ≡ allows_step self step.now }
    {
        match step {
            Step::Ask { node, mode, .. } => self.has_node(*node) && self.has_mode(*mode),
            Step::Leave { node, .. } => self.has_node(*node),
            Step::Cancel { node, .. } => self.has_cancels() && self.has_node(*node),
            Step::Deliver(message) => self.allows_message(message),
            Step::Lose(message) => self.allows_message(message),
            Step::Repeat(message) => match self {
                Version::One => false,
                Version::Two | Version::Three | Version::ThreeWithSends => self.allows_message(
                    message,
                ),
            },
            Step::Forget { node } => self.has_cancels() && self.has_node(*node),
        }
    }
}

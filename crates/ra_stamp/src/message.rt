ghost use Rattle.std.specs.Prelude.{◌≡◌, ◌+◌, ◌*◌, ◌++◌, ◌∷◌, []};
ghost use Rattle.std.specs.Cmp.Rules.{hashing};
ghost use Rattle.std.specs.Hash as fed;
ghost use Rattle.std.proofs.Common.{rules};
ghost use Rattle.ra_stamp.specs.Message.{from_of, to_of, name_of, seq_of};

use crate::{Mode, Name, NodeId, Sequence};
use std::hash::{Hash, Hasher};

/// A message between two nodes, about one resource (G. Ricart and A. K. Agrawala, CACM 24(1), 1981). The name, the mode
/// and the number in a REPLY are this project's own.
#[derive(Clone, Copy, Debug, PartialEq, Eq)]
pub enum Message {
    /// `from` asks `to` to let it lock the resource, with its sequence number, 1 or more.
    Request {
        from: NodeId,
        to: NodeId,
        name: Name,
        mode: Mode,
        seq: u64,
    },
    /// `from` lets `to` lock the resource. `seq` is the number of the request that it answers.
    Reply {
        from: NodeId,
        to: NodeId,
        name: Name,
        seq: u64,
    },
}

impl Message {
    ghost use Rattle.ra_stamp.specs.Message.{from_of, to_of, name_of, seq_of};

    /// Returns the node that sends it. It does not allocate.
    pub fn from(&self) -> NodeId
        ensures { result ≡ from_of self.now }
    {
        match *self {
            Message::Request { from, .. } | Message::Reply { from, .. } => from,
        }
    }

    /// Returns the node that it is for. It does not allocate.
    pub fn to(&self) -> NodeId
        ensures { result ≡ to_of self.now }
    {
        match *self {
            Message::Request { to, .. } | Message::Reply { to, .. } => to,
        }
    }

    /// Returns the resource that it is about. It does not allocate.
    pub fn name(&self) -> Name
        ensures { result ≡ name_of self.now }
    {
        match *self {
            Message::Request { name, .. } | Message::Reply { name, .. } => name,
        }
    }

    /// Returns the number of the request that it is, or that it answers. It does not allocate.
    pub fn seq(&self) -> u64
        ensures { result ≡ seq_of self.now }
    {
        match *self {
            Message::Request { seq, .. } | Message::Reply { seq, .. } => seq,
        }
    }
}

impl Hash for Message {
    ghost hash_input = { λ m. fed.u32 (65536 * from_of m + to_of m) ++ fed.u64 (seq_of m) ++ name_of m ∷ [] };

    ghost respects_eq = { Prim.search (hashing, rules) };

    // Three writes tell nearly all messages apart, and cost less than a write for each field.
    fn hash<H: Hasher>(&self, state: &mut H) {
        state.write_u32(65536 * u32::from(self.from().get()) + u32::from(self.to().get()));
        state.write_u64(self.seq());
        state.write(self.name().bytes());
    }
}

/// A list of messages.
pub type Messages = Sequence<Message>;

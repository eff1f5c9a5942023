use ra_stamp::{Message, Mode, Name, NodeId, Sequence};

/// A step of a cluster.
#[derive(Clone, Copy, Debug, PartialEq, Eq)]
pub enum Step {
    /// A client of a node asks for a name.
    Ask {
        node: NodeId,
        client: u32,
        name: Name,
        mode: Mode,
    },
    /// A client of a node leaves a name.
    Leave {
        node: NodeId,
        client: u32,
        name: Name,
    },
    /// A client of a node gives up a name for which it waits or is queued.
    Cancel {
        node: NodeId,
        client: u32,
        name: Name,
    },
    /// A message under way reaches its node.
    Deliver(Message),
    /// A message under way is lost.
    Lose(Message),
    /// A message under way comes under way once more: a copy is put after all others. It touches no node.
    Repeat(Message),
    /// A node forgets names.
    Forget {
        node: NodeId,
    },
}

/// A list of steps.
pub type Steps = Sequence<Step>;

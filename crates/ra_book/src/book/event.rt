use ra_frame::Frame;
use ra_stamp::{Mode, Name, Sequence};

/// What happens at a node.
#[derive(Clone, Copy, Debug, PartialEq, Eq)]
pub enum BookKind {
    /// A client of the node asks for a name.
    Ask { client: u32, name: Name, mode: Mode },
    /// A client of the node leaves a name.
    Leave { client: u32, name: Name },
    /// A client of the node gives up a name for which it waits or is queued.
    Cancel { client: u32, name: Name },
    /// A frame comes.
    Receive(Frame),
    /// The node forgets names.
    Forget,
}

/// An event of a node, and its clock (L. Lamport, CACM 21(7), 1978).
#[derive(Clone, Copy, Debug, PartialEq, Eq)]
pub struct BookEvent {
    /// 1 to 2^62, and above the clock of each earlier event of the node.
    pub clock: u64,
    /// What happened.
    pub kind: BookKind,
}

/// A list of events.
pub type Events = Sequence<BookEvent>;

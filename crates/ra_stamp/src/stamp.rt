use crate::NodeId;

/// When a request was made: its sequence number, 1 or more, and its node. Stamps compare by number, and equal
/// numbers by node (L. Lamport, CACM 21(7), 1978).
#[derive(Clone, Copy, Debug, PartialEq, Eq, PartialOrd, Ord)]
pub struct Stamp {
    /// The sequence number.
    pub seq: u64,
    /// The node that made the request.
    pub node: NodeId,
}

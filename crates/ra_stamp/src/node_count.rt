ghost use Rattle.std.specs.Prelude.{◌≡◌, ◌≤◌, ◌↔◌, IsSome, IfSome};
ghost use Rattle.ra_stamp.specs.NodeId.{IsNodeNumber};

use crate::NodeId;
use std::marker::Model;

/// How many nodes a cluster has, 1 to 64. Contracts see the number.
#[derive(Clone, Copy)]
pub struct NodeCount {
    /// The nodes are numbered from 1, so that the number of the last one is the count.
    last: NodeId,
}

impl Model for NodeCount {
    ghost use Rattle.std.specs.Prelude.{ℕ};

    ghost Value = { ℕ };

    ghost view = { λ nodes. nodes.last };

    ghost inverse = { λ count. record { last = count } };
}

impl NodeCount {
    /// Returns this count, or `None` if it is not 1 to 64. It does not allocate.
    pub fn new(count: u16) -> Option<NodeCount>
        ensures valid { IsSome result ↔ IsNodeNumber count }
        ensures value { IfSome result (λ nodes. nodes ≡ count) }
    {
        let last = NodeId::new(count)?;
        Some(NodeCount { last })
    }

    /// Returns the number, 1 to 64. It does not allocate.
    #[inline(always)]
    pub fn get(self) -> u16
        ensures value { result ≡ self }
        ensures valid { IsNodeNumber result }
    {
        self.last.get()
    }

    /// Returns the node with this number, or `None` if there is no such node among this many. It does not allocate.
    pub fn node(self, number: u16) -> Option<NodeId>
        ensures there { IsSome result ↔ ((1 ≤ number) × (number ≤ self)) }
        ensures value { IfSome result (λ node. node ≡ number) }
    {
        if number <= self.get() {
            NodeId::new(number)
        } else {
            None
        }
    }
}

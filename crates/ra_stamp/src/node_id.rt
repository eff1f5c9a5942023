ghost use Rattle.std.specs.Prelude.{◌≡◌, ℕ, ◌+◌, ◌-◌, ◌<◌, ◌↔◌, IsSome, IfSome};
ghost use Rattle.ra_stamp.specs.NodeId.{IsNodeNumber};

use std::fmt;
use std::marker::Model;

/// The number of a node, 1 to 64. Contracts see the number, and it prints as that.
#[derive(Clone, Copy, Debug, PartialEq, Eq, PartialOrd, Ord, Hash)]
pub struct NodeId {
    number: u16,
}

impl Model for NodeId {
    ghost Value = { ℕ };

    ghost view = { λ node. node.number };

    ghost invariant = { λ node. IsNodeNumber node.number };

    ghost inverse = { λ number. record { number = number } };
}

impl NodeId {
    /// The greatest number that a node may have.
    pub const MAX: u16 = 64;

    /// Returns the node with this number, or `None` if it is not 1 to 64. It does not allocate.
    pub fn new(number: u16) -> Option<NodeId>
        ensures valid { IsSome result ↔ IsNodeNumber number }
        ensures value { IfSome result (λ node. node ≡ number) }
    {
        if 1 <= number && number <= NodeId::MAX {
            Some(NodeId { number })
        } else {
            None
        }
    }

    /// Returns the number, 1 to 64. It does not allocate.
    pub fn get(self) -> u16
        ensures value { result ≡ self }
        ensures valid { IsNodeNumber result }
    {
        self.number
    }

    /// Returns its place among the nodes, counted from 0: node 1 has place 0. It does not allocate.
    #[inline(always)]
    pub fn place(self) -> usize
        ensures value { result ≡ self - 1 }
        ensures valid { IsNodeNumber self }
    {
        usize::from(self.number) - 1
    }

    /// Returns the node at a place among the nodes, counted from 0, so that `place` gives the place again. It does not
    /// allocate.
    #[inline(always)]
    pub fn at(place: usize) -> NodeId
        requires { place < 64 }
        ensures { result ≡ place + 1 }
    {
        NodeId {
            number: place as u16 + 1,
        }
    }
}

impl fmt::Display for NodeId {
    fn fmt<W: fmt::Write>(&self, f: &mut fmt::Formatter<W>) -> fmt::Result {
        fmt::Display::fmt(&self.number, f)
    }
}

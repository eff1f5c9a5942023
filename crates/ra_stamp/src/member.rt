ghost use Rattle.std.specs.Prelude.{◌≡◌, ◌+◌, ◌<◌, ◌↔◌, IsErrOf, IfOk};
ghost use Rattle.ra_stamp.specs.NodeId.{IsNodeNumber};
ghost use Rattle.ra_stamp.specs.Member.{IsMember};

use crate::{NodeCount, NodeId};
use std::fmt;
use std::marker::Model;
use thiserror::Error;

/// Why a node is no member of a cluster.
#[derive(Clone, Copy, Debug, Error)]
pub enum MemberError {
    /// The number of nodes is not 1 to 64.
    BadCount,
    /// The node's number is above the number of nodes.
    BadNode,
}

impl fmt::Display for MemberError {
    fn fmt<W: fmt::Write>(&self, f: &mut fmt::Formatter<W>) -> fmt::Result {
        fmt::Debug::fmt(self, f)
    }
}

/// A node of a cluster, and how many nodes the cluster has: 1 to 64, and the node is one of them. A caller that has it
/// need not check this again.
#[derive(Clone, Copy)]
pub struct Member {
    node: NodeId,
    nodes: NodeCount,
}

impl Model for Member {
    ghost use Rattle.ra_stamp.specs.Member.{Membership, member_code};

    ghost Value = { Membership };

    ghost coded = { member_code };

    ghost view = { λ m. record { node = m.node; nodes = m.nodes } };

    ghost use Rattle.ra_stamp.specs.Member.{IsMember};

    ghost invariant = { λ m. IsMember m.node m.nodes };

    ghost inverse = { λ m. record { node = m.node; nodes = m.nodes } };
}

impl Member {
    /// Returns node `node` of `nodes`. It does not allocate.
    ///
    /// # Errors
    ///
    /// The first that holds:
    ///
    /// 1. `BadCount`: `nodes` is not 1 to 64.
    /// 2. `BadNode`: `node` is above `nodes`.
    pub fn new(node: NodeId, nodes: u16) -> Result<Member, MemberError>
        ensures ok { IfOk result (λ member. member ≡ record { node = node; nodes = nodes }) }
        ensures valid { IfOk result (λ member. IsMember member.node member.nodes) }
        ensures bad_count { IsErrOf result MemberError.BadCount ↔ (IsNodeNumber nodes → ⊥) }
        ensures bad_node { IsErrOf result MemberError.BadNode ↔ (IsNodeNumber nodes × (nodes < node)) }
    {
        let Some(nodes) = NodeCount::new(nodes) else {
            return Err(MemberError::BadCount);
        };
        if node.get() > nodes.get() {
            return Err(MemberError::BadNode);
        }
        Ok(Member { node, nodes })
    }

    /// Returns the node at a place among this many nodes, counted from 0. It does not allocate.
    pub fn at(place: u16, nodes: NodeCount) -> Member
        requires { place < nodes }
        ensures { result ≡ record { node = place + 1; nodes = nodes } }
    {
        // For the proof: there are at most 64 nodes.
        let _ = nodes.get();
        let node = NodeId::at(usize::from(place));
        Member { node, nodes }
    }

    /// Returns the node. It does not allocate.
    #[inline(always)]
    pub fn node(self) -> NodeId
        ensures value { result ≡ self.node }
        ensures valid { IsMember self.node self.nodes }
    {
        self.node
    }

    /// Returns how many nodes the cluster has. It does not allocate.
    #[inline(always)]
    pub fn nodes(self) -> u16
        ensures value { result ≡ self.nodes }
        ensures valid { IsMember self.node self.nodes }
    {
        self.nodes.get()
    }

    /// Returns how many nodes the cluster has, as a count that is known to be 1 to 64. It does not allocate.
    pub fn count(self) -> NodeCount
        ensures value { result ≡ self.nodes }
        ensures valid { IsMember self.node self.nodes }
    {
        self.nodes
    }
}

//! Sets of nodes.
ghost use Rattle.std.specs.Prelude.{◌≡◌, ◌-◌, ◌^◌, ◌<◌, ◌↔◌, IsTrue};
ghost use Rattle.std.specs.FinSet as set;
ghost use Rattle.ra_automaton.specs.NodeSet.{set_of};
ghost use Rattle.ra_automaton.specs.Steps.{others_of};

use ra_stamp::{Member, NodeId};
use std::marker::Model;

/// A set of nodes in one word. Contracts see it as the set of their numbers.
#[derive(Drop)]
pub struct NodeSet {
    /// Bit i - 1 is set if node i is in.
    bits: u64,
}

impl Model for NodeSet {
    ghost use Rattle.std.specs.Coded.{coded_ℕ};
    ghost use Rattle.std.specs.Ordering.{nat_cmp};
    ghost use Rattle.std.specs.FinSet as set;
    ghost use Rattle.ra_automaton.specs.NodeSet.{set_of};

    ghost Value = { set.FinSet nat_cmp };

    ghost coded = { set.code coded_ℕ };

    ghost view = { λ s. set_of s.bits };
}

/// Returns the bits with a node's bit cleared.
#[inline(always)]
fn without_bit(bits: u64, node: NodeId) -> u64
    ensures { set_of result ≡ set.remove (set_of bits) node }
{
    bits & !(1 << node.place())
}

impl NodeSet {
    /// Makes the set of no nodes.
    #[inline(always)]
    pub fn empty() -> NodeSet
        ensures { result ≡ set.empty }
    {
        NodeSet { bits: 0 }
    }

    /// Makes the set of all nodes of a member's cluster but the member.
    #[inline(always)]
    pub fn others(member: Member) -> NodeSet
        ensures { result ≡ set.from_list (others_of member.node member.nodes) }
    {
        // All bits are set at first, and none above the nodes is left: if there are 64 nodes, 1 could not be shifted up
        // so far.
        let all = u64::MAX >> (64 - member.nodes());
        NodeSet {
            bits: without_bit(all, member.node()),
        }
    }

    /// Returns whether a node is in.
    #[inline(always)]
    pub fn contains(&self, node: NodeId) -> bool
        ensures { result ≡ set.contains self.now node }
    {
        (self.bits >> node.place()) & 1 == 1
    }

    /// Returns whether no node but this one is in.
    #[inline(always)]
    pub fn is_only(&self, node: NodeId) -> bool
        ensures { IsTrue result ↔ (set.remove self.now node ≡ set.empty) }
    {
        without_bit(self.bits, node) == 0
    }

    /// Puts a node in.
    #[inline(always)]
    pub fn insert(&mut self, node: NodeId)
        ensures { self.new ≡ set.insert self.old node }
    {
        self.bits |= 1 << node.place();
    }

    /// Takes a node out.
    #[inline(always)]
    pub fn remove(&mut self, node: NodeId)
        ensures { self.new ≡ set.remove self.old node }
    {
        self.bits = without_bit(self.bits, node);
    }
}

//! The REPLYs that a node has deferred.
ghost use Rattle.std.specs.Prelude.{◌≡◌, ℕ, ◌+◌, ◌≤◌, ◌++◌, map, IsOk, IfOk, OnOk};
ghost use Rattle.std.specs.FinMap as finmap;
ghost use Rattle.ra_automaton.specs.NodeSet.{Deferred, nobody_of};

use crate::node_set::NodeSet;
use ra_stamp::{Member, Memory, Message, Messages, Name, NodeId};
use std::alloc::Global;
use std::marker::Model;

/// The nodes whose REPLYs are deferred, each with the number of its request. Contracts see them as a map, with how many
/// nodes there is room for: all, or none. Nearly all resources that a node has met are idle, and an idle node defers
/// nothing, so it has no room.
#[derive(Drop)]
pub struct Deferrals {
    nodes: NodeSet,
    /// The number with which node i is deferred, at place i - 1. It means nothing if the node is not deferred.
    numbers: Vec<u64>,
}

impl Model for Deferrals {
    ghost use Rattle.ra_automaton.specs.NodeSet.{Deferred, deferred_code};

    ghost Value = { Deferred };

    ghost coded = { deferred_code };

    ghost use Rattle.ra_automaton.specs.Deferrals.{deferred_of, IsKeptDeferred};

    ghost view = { deferred_of };

    ghost invariant = { IsKeptDeferred };
}

impl Deferrals {
    /// Makes the deferrals of a node that defers no REPLY and has no room. It does not allocate.
    #[inline(always)]
    pub fn none(alloc: Global) -> Deferrals
        ensures { result ≡ nobody_of 0 }
    {
        Deferrals {
            nodes: NodeSet::empty(),
            numbers: Vec::new(alloc),
        }
    }

    /// Makes the deferrals of a member that defers no REPLY, with room for each node of its cluster.
    ///
    /// # Errors
    ///
    /// `Memory`: memory ran out.
    pub fn with_room(alloc: Global, member: Member) -> Result<Deferrals, Memory>
        ensures { IfOk result (λ made. made ≡ nobody_of member.nodes) }
    {
        let numbers = vec![in alloc; 0; usize::from(member.nodes())]?;
        Ok(Deferrals {
            nodes: NodeSet::empty(),
            numbers,
        })
    }

    /// Returns the number with which a node is deferred, or `None` if it is not.
    #[inline(always)]
    pub fn get(&self, node: NodeId) -> Option<u64>
        ensures { result ≡ finmap.get self.now.numbers node }
    {
        if self.nodes.contains(node) {
            Some(self.numbers[node.place()])
        } else {
            None
        }
    }

    /// Defers a node with a number.
    #[inline(always)]
    pub fn insert(&mut self, node: NodeId, number: u64)
        requires { node ≤ self.old.room }
        ensures { self.new ≡ record self.old { numbers = finmap.insert self.old.numbers node number } }
    {
        self.nodes.insert(node);
        self.numbers[node.place()] = number;
    }

    /// Forgets who is deferred, and keeps the room.
    #[inline(always)]
    pub fn clear(&mut self)
        ensures { self.new ≡ nobody_of self.old.room }
    {
        self.nodes = NodeSet::empty();
    }

    /// Adds a REPLY to each deferred node, in ascending order. It does not allocate if the list has as much room as
    /// this.
    ///
    /// # Errors
    ///
    /// `Memory`: memory ran out. Some REPLYs may have been added.
    pub fn push_replies(&self, sends: &mut Messages, me: NodeId, name: Name) -> Result<(), Memory>
        ensures ok { OnOk result (sends.new.items ≡ sends.old.items
            ++ map (λ entry. Message.Reply me entry.0 name entry.1) (finmap.entries self.now.numbers)) }
        ensures succeeds { self.now.room ≤ sends.old.spare → IsOk result }
        ensures spare { self.now.room ≤ sends.old.spare → sends.old.spare ≤ sends.new.spare + self.now.room }
    {
        for place in 0..self.numbers.len() {
            let to = NodeId::at(place);
            if self.nodes.contains(to) {
                sends.push(Message::Reply {
                    from: me,
                    to,
                    name,
                    seq: self.numbers[place],
                })?;
            }
        }
        Ok(())
    }
}

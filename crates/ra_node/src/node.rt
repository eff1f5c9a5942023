mod ending;

ghost use Rattle.std.specs.Prelude.{◌≡◌, ◌↔◌, None, length, slice_get, IsErrOf, IsOk, IsOkUnless, IfOk, OnOk, OnErr, MatchResult, IsNone, IfSome, IsTrue};
ghost use Rattle.ra_node.specs.Resource.{unmet};

use crate::listing::{held_of, names_of};
use crate::numbers::common_number;
use crate::outcome::nothing;
use crate::slot::Slot;
use crate::{AskError, NewError, Outcome, Queued, ReceiveError};
use ra_automaton::check_address;
use ra_stamp::{Entry, Member, Memory, Message, Mode, Name, NodeCount, NodeId};
use std::alloc::Global;
use std::collections::HashMap;
use std::marker::Model;

/// A node: many resources by their names, and the node's clients. Contracts see the map from names to resources.
///
/// A client is any number, which means nothing to another node. A node has met a name if a client asked for it or a
/// REQUEST was about it. It keeps every such name until it forgets, since the highest number that it has met on a
/// name must never fall.
///
/// Each call finds its name by a hash, in expected constant time however many names the node has met. The comment of a
/// call gives its other costs. The first call about a name may move all names into a larger table, which is constant on
/// average. The hash is fixed: if somebody picks names that collide, each look-up is linear in their number. A client
/// in a long queue is also found by such a hash; in a short queue each client is looked at.
///
/// [`events_keep_a_node_consistent`](crate::events_keep_a_node_consistent) says more of what `ask`, `leave`, `cancel`
/// and `receive` send and mark: to which nodes, with which numbers, how much at most, and that a node has at most one
/// request on a name.
pub struct Node {
    member: Member,
    start: u64,
    /// One for each name that the node keeps.
    slots: HashMap<Name, Slot>,
    /// How many requests wait for their REPLYs, over all names. It fits in a `u64`, since a node has at most one
    /// waiting request on a name, and memory for fewer than 2^64 names.
    waiting: u64,
    /// How many clients are queued, over all names. Each of fewer than 2^64 names can have a queue of nearly as many
    /// clients, so only a `u128` is sure to hold their sum.
    queued: u128,
}

impl Model for Node {
    ghost use Rattle.ra_node.specs.contracts.slot.Slot as resources;
    ghost use Rattle.ra_node.specs.Node.{NodeState, node_code};

    ghost Value = { NodeState };

    ghost coded = { node_code resources.the_row.coded };

    ghost use Rattle.ra_node.specs.View.{node_of, IsKept};

    ghost view = { node_of };

    ghost invariant = { IsKept };
}

// What a node owns is freed here, so that no other crate proves how each of its parts is dropped.
impl Drop for Node {
    fn drop(self) {
        let Node {
            member: _,
            start: _,
            slots: _,
            waiting: _,
            queued: _,
        } = self;
    }
}

/// Drops a slot, if there is one. The functions that give one up call this, so that how its parts are freed is proved
/// once for them.
fn drop_slot(_slot: Option<Slot>) {}

impl Node {
    ghost use Rattle.ra_automaton.specs.State.{IsForNode};
    ghost use Rattle.std.specs.FinMap as map;
    ghost use Rattle.std.specs.FinSet as set;
    ghost use Rattle.ra_stamp.specs.Message.{name_of};
    ghost use Rattle.ra_automaton.specs.Calls.{ChecksAddress};
    ghost use Rattle.ra_automaton.specs.Members.{ChecksMember};
    ghost use Rattle.ra_node.specs.Resource.{Holds, holder_of, waiter_of, IsKeptWaiting, IsConsistentResource};
    ghost use Rattle.ra_node.specs.Turns.{MayAsk};
    ghost use Rattle.ra_node.specs.Node.{opening_node, resource_at, with_resource, waiting_count, queued_count, IsConsistentNode};
    ghost use Rattle.std.specs.Prelude.{[]};
    ghost use Rattle.ra_node.specs.Events.{AskEvent, ReceiveEvent, ForgetEvent};
    ghost use Rattle.ra_node.specs.Calls.{AnswersMayAsk};
    ghost use Rattle.ra_node.specs.Faults.{IsAskRefusal};
    ghost use Rattle.ra_node.specs.Memory.{BringsNothing};
    ghost use Rattle.ra_node.specs.Overview.{AreNames, AreHeld};

    /// Makes node `me` of `nodes`, which has met nothing yet. The highest number of each resource begins at `start`, 0
    /// to 2^64-1, which must be the same at all nodes. It does not allocate until the first name comes.
    ///
    /// # Errors
    ///
    /// The first that holds:
    ///
    /// 1. `BadCount`: `nodes` is not 1 to 64.
    /// 2. `BadNode`: `me` is above `nodes`.
    pub fn new(alloc: Global, me: NodeId, nodes: u16, start: u64) -> Result<Node, NewError>
        ensures ok { IfOk result (λ node. node ≡ opening_node me nodes start) }
        ensures consistent { IfOk result IsConsistentNode }
        ensures member { ChecksMember me nodes result }
    {
        let member = Member::new(me, nodes)?;
        Ok(Node::of(alloc, member, start))
    }

    /// Makes the node of a member, as `new` does. It does not allocate until the first name comes.
    pub fn of(alloc: Global, member: Member, start: u64) -> Node
        ensures value { result ≡ opening_node member.node member.nodes start }
        ensures consistent { IsConsistentNode result }
    {
        // For the proof: a member is one of its nodes.
        let _ = member.node();
        Node {
            member,
            start,
            slots: HashMap::new(alloc),
            waiting: 0,
            queued: 0,
        }
    }

    /// Asks for a name for a client. If no client of this node uses the name, the request is made: a REQUEST to each
    /// other node, and the mark Requested, followed by the mark Entered if there is no other node. Otherwise the client
    /// queues, and nothing is sent or marked. The cost is linear in the number of nodes, and for a client that queues
    /// amortized constant on average. If there was no memory to index the clients of a long queue, it is also linear in
    /// the length of the name's queue.
    ///
    /// # Errors
    ///
    /// The first that holds, and the node is as before:
    ///
    /// 1. `Busy`: the client waits, is queued or holds on that name here.
    /// 2. `Exhausted`: the highest number of the name is 2^64-1.
    /// 3. `Memory`: nothing has changed, and the call can be made again.
    pub fn ask(
        &mut self,
        alloc: Global,
        client: u32,
        name: Name,
        mode: Mode,
    ) -> Result<Outcome, AskError>
        ensures ok { IfOk result (λ outcome.
            AskEvent self.old client name mode outcome.sends.items outcome.marks.items self.new) }
        ensures consistent { IsConsistentNode self.new }
        ensures busy { IsErrOf result AskError.Busy ↔ IsAskRefusal (resource_at self.old name) client AskError.Busy }
        ensures exhausted { IsErrOf result AskError.Exhausted
            ↔ IsAskRefusal (resource_at self.old name) client AskError.Exhausted }
        // Memory is the only other error.
        ensures allowed { IsOkUnless result AskError.Memory ↔ MayAsk (resource_at self.old name) client }
        ensures err { OnErr result (self.new ≡ self.old) }
    {
        // The totals have room, since there are fewer than 2^64 names.
        prove!(self.slots.len() < usize::MAX);
        match self.slots.get_mut(&name) {
            Some(slot) => {
                let waiting = self.waiting - slot.waiting();
                let queued = self.queued - slot.queued() as u128;
                let outcome = slot.ask(alloc, client, mode);
                self.waiting = waiting + slot.waiting();
                self.queued = queued + slot.queued() as u128;
                outcome
            }
            None => self.ask_first(alloc, client, name, mode),
        }
    }

    /// Forgets each name for which only the highest number need be kept: no request waits or is granted, no
    /// client is queued, and a number is left. The node's start and its highest numbers rise to the greatest of them,
    /// without those at 2^64-1, which stay. So a name that is forgotten goes on with a number that is high enough.
    /// Nothing is sent or marked. It does not allocate, and the table of names keeps its room. The cost is linear in
    /// that room.
    pub fn forget(&mut self)
        ensures forgotten { ForgetEvent self.old [] [] self.new }
        ensures consistent { IsConsistentNode self.new }
    {
        let number = common_number(self.start, &self.slots);
        self.start = self.start.max(number);
        self.slots.retain(|_, slot| slot.raise(number));
    }

    /// Takes a message from another node. With the last REPLY that it awaits, the node's request enters, with the mark
    /// Entered. A REPLY that is not awaited is a stray, and leaves the node exactly as it was. The cost is constant.
    ///
    /// # Errors
    ///
    /// The first that holds, and the node is as before:
    ///
    /// 1. `WrongNode`: the message is for another node.
    /// 2. `Stranger`: its sender is this node or above the number of nodes.
    /// 3. `Memory`: nothing has changed, and the call can be made again. It comes only if the message makes the node
    ///    send or mark something.
    #[inline(always)]
    pub fn receive(&mut self, alloc: Global, message: &Message) -> Result<Outcome, ReceiveError>
        ensures ok { IfOk result (λ outcome.
            ReceiveEvent self.old message.now outcome.sends.items outcome.marks.items self.new) }
        ensures consistent { IsConsistentNode self.new }
        ensures address { ChecksAddress self.old.me self.old.nodes message.now result }
        // Memory is the only other error.
        ensures allowed { IsOkUnless result ReceiveError.Memory
            ↔ IsForNode self.old.me self.old.nodes message.now }
        ensures err { OnErr result (self.new ≡ self.old) }
        // A message that brings nothing takes no memory.
        ensures memory_only_to_bring { IsErrOf result ReceiveError.Memory → BringsNothing self.old message.now → ⊥ }
    {
        check_address(self.member, message)?;
        // The total has room, since there are fewer than 2^64 names.
        prove!(self.slots.len() < usize::MAX);
        match self.slots.get_mut(&message.name()) {
            Some(slot) => {
                // The queue stays as it is.
                let waiting = self.waiting - slot.waiting();
                let outcome = slot.receive(alloc, message);
                self.waiting = waiting + slot.waiting();
                outcome
            }
            None => self.receive_first(alloc, message),
        }
    }

    /// Checks that a message is for this node, and from another one of its cluster, as `receive` does first. It does
    /// not allocate.
    ///
    /// # Errors
    ///
    /// The first that holds:
    ///
    /// 1. `WrongNode`: the message is for another node.
    /// 2. `Stranger`: its sender is this node or above the number of nodes.
    pub fn check_address(&self, message: &Message) -> Result<(), ReceiveError>
        ensures addressed { IsOk result ↔ IsForNode self.now.me self.now.nodes message.now }
        ensures address { ChecksAddress self.now.me self.now.nodes message.now result }
        ensures no_memory { IsErrOf result ReceiveError.Memory → ⊥ }
        ensures consistent { IsConsistentNode self.now }
    {
        check_address(self.member, message)
    }

    /// Returns whether a message for this node from another one makes it send nothing and mark nothing. Examples are a
    /// REQUEST whose REPLY is deferred, and a REPLY that is not the last one awaited. A caller that keeps what a node
    /// sends and marks can ask this before anything changes. It does not allocate. The cost is constant.
    pub fn brings_nothing(&self, message: &Message) -> bool
        ensures value { IsTrue result ↔ BringsNothing self.now message.now }
        ensures consistent { IsConsistentNode self.now }
    {
        match self.slot_of(&message.name()) {
            Some(slot) => slot.brings_nothing(message),
            None => match message {
                Message::Request { .. } => false,
                Message::Reply { .. } => true,
            },
        }
    }

    /// Returns whether a client may ask for a name now, as `ask` would answer, unless memory runs out. It does not
    /// allocate. The cost is constant on average, and linear in the length of the name's queue if there was no memory
    /// to index the clients of a long one.
    ///
    /// # Errors
    ///
    /// The first that holds:
    ///
    /// 1. `Busy`: the client waits, is queued or holds on that name here.
    /// 2. `Exhausted`: the highest number of the name is 2^64-1.
    pub fn may_ask(&self, client: u32, name: &Name) -> Result<(), AskError>
        ensures told { AnswersMayAsk (resource_at self.now name.now) client result }
        ensures consistent { IsConsistentNode self.now }
    {
        match self.slot_of(name) {
            Some(slot) => slot.may_ask(client),
            None if self.start == u64::MAX => Err(AskError::Exhausted),
            None => Ok(()),
        }
    }

    /// Returns the request that is granted at this node on a name, or `None`. It does not allocate.
    pub fn holder(&self, name: &Name) -> Option<Entry>
        ensures value { result ≡ holder_of (resource_at self.now name.now) }
        ensures consistent { IsConsistentNode self.now }
    {
        match self.slot_of(name) {
            Some(slot) => slot.holder(),
            None => None,
        }
    }

    /// Returns whether a client holds a name at this node, so that it may leave. It does not allocate.
    pub fn is_held_by(&self, client: u32, name: &Name) -> bool
        ensures held { IsTrue result ↔ ((entry : Entry) × Holds (resource_at self.now name.now) client entry) }
        ensures consistent { IsConsistentNode self.now }
    {
        match self.slot_of(name) {
            Some(slot) => slot.held_by(client).is_some(),
            None => false,
        }
    }

    /// Returns whether a client waits or is queued for a name at this node, so that it may give up. It does not
    /// allocate. The cost is that of `may_ask`.
    pub fn is_kept_waiting(&self, client: u32, name: &Name) -> bool
        ensures kept { IsTrue result ↔ IsKeptWaiting (resource_at self.now name.now) client }
        ensures consistent { IsConsistentNode self.now }
    {
        match self.slot_of(name) {
            Some(slot) => slot.is_kept_waiting(client),
            None => false,
        }
    }

    /// Returns the request of this node that waits on a name for its REPLYs, or `None`. It does not allocate.
    pub fn waiter(&self, name: &Name) -> Option<Entry>
        ensures value { result ≡ waiter_of (resource_at self.now name.now) }
        ensures consistent { IsConsistentNode self.now }
    {
        match self.slot_of(name) {
            Some(slot) => slot.waiter(),
            None => None,
        }
    }

    /// Returns whether this node awaits the REPLY of another node on a name. It does not allocate.
    pub fn waits_for(&self, name: &Name, other: NodeId) -> bool
        ensures value { result ≡ set.contains (resource_at self.now name.now).state.awaited other }
        ensures consistent { IsConsistentNode self.now }
    {
        match self.slot_of(name) {
            Some(slot) => slot.waits_for(other),
            None => false,
        }
    }

    /// Returns the number of the request of another node on a name whose REPLY is deferred, or `None` if it is not.
    /// It does not allocate.
    pub fn deferred(&self, name: &Name, other: NodeId) -> Option<u64>
        ensures value { result ≡ map.get (resource_at self.now name.now).state.deferred other }
        ensures consistent { IsConsistentNode self.now }
    {
        match self.slot_of(name) {
            Some(slot) => slot.deferred(other),
            None => None,
        }
    }

    /// Returns how many clients are queued on a name. It does not allocate.
    pub fn queued_on(&self, name: &Name) -> usize
        ensures value { result ≡ length (resource_at self.now name.now).queue }
        ensures consistent { IsConsistentNode self.now }
    {
        match self.slot_of(name) {
            Some(slot) => slot.queued(),
            None => 0,
        }
    }

    /// Returns the client at this place in the queue of a name, counted from 0 from the next one on, or `None` past
    /// the end. It does not allocate.
    pub fn queued_at(&self, name: &Name, place: usize) -> Option<Queued>
        ensures value { result ≡ slice_get (resource_at self.now name.now).queue place }
        ensures consistent { IsConsistentNode self.now }
    {
        match self.slot_of(name) {
            Some(slot) => slot.queued_at(place),
            None => None,
        }
    }

    /// Returns the highest number that this node has met on a name, or to which the number rose when the node forgot, 0
    /// to 2^64-1. It does not allocate.
    pub fn highest(&self, name: &Name) -> u64
        ensures value { result ≡ (resource_at self.now name.now).state.highest }
        ensures consistent { IsConsistentNode self.now }
    {
        match self.slot_of(name) {
            Some(slot) => slot.highest(),
            None => self.start,
        }
    }

    /// Returns how many requests of this node wait for their REPLYs, over all names. It does not allocate. The cost is
    /// constant.
    pub fn waiting(&self) -> u64
        ensures value { result ≡ waiting_count self.now }
        ensures consistent { IsConsistentNode self.now }
    {
        self.waiting
    }

    /// Returns how many clients are queued, over all names. It does not allocate. The cost is constant.
    pub fn queued(&self) -> u128
        ensures value { result ≡ queued_count self.now }
        ensures consistent { IsConsistentNode self.now }
    {
        self.queued
    }

    /// Returns the node's own number. It does not allocate.
    pub fn me(&self) -> NodeId
        ensures value { result ≡ self.now.me }
        ensures consistent { IsConsistentNode self.now }
    {
        self.member.node()
    }

    /// Returns how many nodes there are. It does not allocate.
    pub fn nodes(&self) -> NodeCount
        ensures value { result ≡ self.now.nodes }
        ensures consistent { IsConsistentNode self.now }
    {
        self.member.count()
    }

    /// Returns the highest number of a name that the node has not met yet, or has forgotten, 0 to 2^64-1. It does not
    /// allocate.
    pub fn start(&self) -> u64
        ensures value { result ≡ self.now.start }
        ensures consistent { IsConsistentNode self.now }
    {
        self.start
    }

    /// Returns how many names the node keeps: those that it has met and not forgotten. It does not allocate.
    pub fn names_len(&self) -> usize
        ensures value { result ≡ map.len self.now.resources }
        ensures consistent { IsConsistentNode self.now }
    {
        self.slots.len()
    }

    /// Returns the names that the node keeps, in ascending order of their bytes. The cost is that of sorting them.
    ///
    /// # Errors
    ///
    /// `Memory`: memory ran out.
    pub fn names(&self, alloc: Global) -> Result<Vec<Name>, Memory>
        ensures names { IfOk result (λ names. AreNames self.now names.items) }
        ensures consistent { IsConsistentNode self.now }
    {
        names_of(alloc, &self.slots)
    }

    /// Returns the requests that are granted at this node, in ascending order of the bytes of their names. The cost is
    /// linear in the number of names that the node keeps, plus that of sorting the held ones.
    ///
    /// # Errors
    ///
    /// `Memory`: memory ran out.
    pub fn held(&self, alloc: Global) -> Result<Vec<Entry>, Memory>
        ensures held { IfOk result (λ held. AreHeld self.now held.items) }
        ensures consistent { IsConsistentNode self.now }
    {
        held_of(alloc, &self.slots)
    }

    /// Returns the slot of a name, or `None` if the node does not keep it.
    fn slot_of(&self, name: &Name) -> Option<&Slot>
        ensures found { IfSome result (λ slot. slot.now ≡ resource_at self.now name.now) }
        ensures absent { IsNone result
            → resource_at self.now name.now ≡ unmet self.now.me self.now.nodes name.now self.now.start }
        ensures consistent { IsConsistentNode self.now }
    {
        self.slots.get(name)
    }

    /// Asks for a name that the node has not met yet.
    ///
    /// # Errors
    ///
    /// The first that holds, and the node is as before:
    ///
    /// 1. `Exhausted`: no number is left.
    /// 2. `Memory`: memory ran out.
    fn ask_first(
        &mut self,
        alloc: Global,
        client: u32,
        name: Name,
        mode: Mode,
    ) -> Result<Outcome, AskError>
        requires { map.get self.old.resources name ≡ None }
        ensures asked { MatchResult result
            (λ outcome. AskEvent self.old client name mode outcome.sends.items outcome.marks.items self.new)
            (λ fault. IsAskRefusal (resource_at self.old name) client fault × (self.new ≡ self.old)) }
        ensures consistent { IsConsistentNode self.new }
    {
        let mut slot = self.unmet_slot(alloc, name);
        let outcome = match slot.ask(alloc, client, mode) {
            Ok(outcome) => outcome,
            Err(fault) => {
                drop_slot(Some(slot));
                return Err(fault);
            }
        };
        let Ok(()) = self.insert_slot(name, slot) else {
            return Err(AskError::Memory);
        };
        Ok(outcome)
    }

    /// Takes a message for this node about a name that the node has not met yet. A REQUEST is answered, and the node
    /// has met its name then.
    ///
    /// # Errors
    ///
    /// `Memory`: the node is as before.
    fn receive_first(&mut self, alloc: Global, message: &Message) -> Result<Outcome, ReceiveError>
        requires first { map.get self.old.resources (name_of message.now) ≡ None }
        requires addressed { IsForNode self.old.me self.old.nodes message.now }
        requires consistent { IsConsistentNode self.old }
        ensures received { MatchResult result
            (λ outcome. ReceiveEvent self.old message.now outcome.sends.items outcome.marks.items self.new)
            (λ fault. (fault ≡ ReceiveError.Memory) × (self.new ≡ self.old)) }
        ensures brings { OnErr result (BringsNothing self.old message.now → ⊥) }
        ensures consistent { IsConsistentNode self.new }
    {
        let Message::Request { name, .. } = *message else {
            // A REPLY is a stray, since the node has asked nobody.
            return Ok(nothing(alloc));
        };
        let mut slot = self.unmet_slot(alloc, name);
        let outcome = match slot.receive(alloc, message) {
            Ok(outcome) => outcome,
            Err(fault) => {
                drop_slot(Some(slot));
                return Err(fault);
            }
        };
        let Ok(()) = self.insert_slot(name, slot) else {
            return Err(ReceiveError::Memory);
        };
        Ok(outcome)
    }

    /// Makes the slot of a name that the node has not met yet. It does not allocate.
    fn unmet_slot(&self, alloc: Global, name: Name) -> Slot
        ensures value { result ≡ unmet self.now.me self.now.nodes name self.now.start }
        ensures consistent { IsConsistentNode self.now }
    {
        Slot::new(alloc, self.member, name, self.start)
    }

    /// Inserts the slot of a name that the node had not met.
    ///
    /// # Errors
    ///
    /// `Memory`: the node is as before.
    fn insert_slot(&mut self, name: Name, slot: Slot) -> Result<(), Memory>
        requires first { map.get self.old.resources name ≡ None }
        requires consistent { IsConsistentResource self.old.me self.old.nodes name self.old.start slot }
        ensures inserted { OnOk result (self.new ≡ with_resource self.old name slot) }
        ensures err { OnErr result (self.new ≡ self.old) }
        ensures consistent { IsConsistentNode self.new }
    {
        // The totals have room, since there are fewer than 2^64 names.
        prove!(self.slots.len() < usize::MAX);
        let waiting = self.waiting + slot.waiting();
        let queued = self.queued + slot.queued() as u128;
        drop_slot(self.slots.insert(name, slot)?);
        self.waiting = waiting;
        self.queued = queued;
        Ok(())
    }
}

ghost use Rattle.std.specs.Prelude.{◌≡◌, ◌≢◌, ◌*◌, ◌<◌, ◌≤◌, ◌⊎◌, ◌↔◌, ◌∷◌, [], length, slice_get, take, not, IsTrue, IsErrOf, IsOk, IfOk, MatchResult, AllPairs, IsNone, IfSome, OnErr};
ghost use Rattle.ra_stamp.specs.declared.entry.Entry.{Entry};
ghost use Rattle.ra_stamp.specs.declared.entry.Mark.TheVariants.{Left, Withdrawn};
ghost use Rattle.ra_node.specs.Resource.{entry_of};
ghost use Rattle.ra_node.specs.Room.{IsNothing, HasRoomToLeave, answer_with};

use crate::marks::{marks_for, push_request, push_reserved};
use crate::outcome::nothing;
use crate::queue::Queue;
use crate::queued_client::Queued;
use crate::{AskError, CancelError, LeaveError, Outcome};
use ra_automaton::{Automaton, Phase, ReceiveError};
use ra_stamp::{Entry, Mark, Marks, Member, Message, Messages, Mode, Name, NodeId, Stamp};
use std::alloc::Global;
use std::marker::Model;
use std::mem;

/// One resource at this node, with the clients of the node that use it. Contracts see the resource.
#[derive(Drop)]
pub struct Slot {
    automaton: Automaton,
    /// The client whose request waits or is granted.
    client: Option<u32>,
    /// The clients after it, the first one next.
    queue: Queue,
}

impl Model for Slot {
    ghost use Rattle.ra_automaton.specs.contracts.automaton.Automaton as automata;
    ghost use Rattle.ra_node.specs.contracts.queued_client.Queued as clients;
    ghost use Rattle.ra_node.specs.Resource.{Resource, resource_code};

    ghost Value = { Resource };

    ghost coded = { resource_code automata.the_row.coded clients.the_row.coded };

    ghost view = { λ s. record { state = s.automaton; client = s.client; queue = s.queue } };
}

impl Slot {
    ghost use Rattle.std.specs.FinSet as set;
    ghost use Rattle.std.specs.FinMap as finmap;
    ghost use Rattle.ra_stamp.specs.Message.{name_of};
    ghost use Rattle.ra_automaton.specs.State.{IsAddressed, IsConsistent, IsInside, IsWaitingPhase};
    ghost use Rattle.ra_automaton.specs.Steps.{greatest_number, LetsEnter, LeaveStep, WithdrawStep};
    ghost use Rattle.ra_node.specs.Resource.{unmet, holder_of, waiter_of, Holds, Waits, IsKeptWaiting, IsBusy, waiting_at, ClientFits, clients_of};
    ghost use Rattle.ra_node.specs.Calls.{AnswersMayAsk};
    ghost use Rattle.ra_node.specs.Turns.{AskTurn, AsksAtOnce, QueuesUp, LeaveTurn, CancelTurn, ReceiveTurn, next_entry};
    ghost use Rattle.ra_node.specs.Faults.{IsAskRefusal, IsLeaveRefusal, IsCancelRefusal};
    ghost use Rattle.ra_node.specs.HandedOver.{IsHandedOver};
    ghost use Rattle.ra_node.specs.Memory.{BringsNothingTo};
    ghost use Rattle.ra_node.specs.Forgetting.{raised};
    ghost use Rattle.ra_node.specs.View.{is_forgettable};

    /// Makes the slot of a resource that no client and no message was about yet. It does not allocate.
    pub fn new(alloc: Global, member: Member, name: Name, start: u64) -> Slot
        ensures { result ≡ unmet member.node member.nodes name start }
    {
        Slot {
            automaton: Automaton::of(alloc, member, name, start),
            client: None,
            queue: Queue::new(alloc),
        }
    }

    /// Returns the highest number that this node has met for the resource.
    pub fn highest(&self) -> u64
        ensures { result ≡ self.now.state.highest }
    {
        self.automaton.highest()
    }

    /// Returns the request that is granted here, or `None`.
    pub fn holder(&self) -> Option<Entry>
        ensures { result ≡ holder_of self.now }
    {
        match (self.automaton.phase(), self.client) {
            (Phase::Inside { seq, mode }, Some(client)) => Some(self.entry(seq, client, mode)),
            _ => None,
        }
    }

    /// Returns the request that waits here for its replies, or `None`.
    pub fn waiter(&self) -> Option<Entry>
        ensures { result ≡ waiter_of self.now }
    {
        match (self.automaton.phase(), self.client) {
            (Phase::Waiting { seq, mode }, Some(client)) => Some(self.entry(seq, client, mode)),
            _ => None,
        }
    }

    /// Returns whether the reply of a node is awaited.
    pub fn waits_for(&self, node: NodeId) -> bool
        ensures { result ≡ set.contains self.now.state.awaited node }
    {
        self.automaton.waits_for(node)
    }

    /// Returns the number of the request of a node whose reply is deferred, or `None` if it is not.
    pub fn deferred(&self, node: NodeId) -> Option<u64>
        ensures { result ≡ finmap.get self.now.state.deferred node }
    {
        self.automaton.deferred(node)
    }

    /// Returns how many requests of this node wait here for their replies: one at most.
    pub fn waiting(&self) -> u64
        ensures { result ≡ waiting_at self.now }
    {
        match self.automaton.phase() {
            Phase::Waiting { .. } => 1,
            Phase::Idle | Phase::Inside { .. } => 0,
        }
    }

    /// Returns how many clients are queued.
    pub fn queued(&self) -> usize
        ensures { result ≡ length self.now.queue }
    {
        self.queue.len()
    }

    /// Returns the queued client at this place, counted from 0 from the next one on, or `None` past the end.
    pub fn queued_at(&self, place: usize) -> Option<Queued>
        ensures { result ≡ slice_get self.now.queue place }
    {
        self.queue.at(place)
    }

    /// Returns whether the client waits, is queued or holds here.
    fn is_busy(&self, client: u32) -> bool
        ensures { IsTrue result ↔ IsBusy self.now client }
    {
        self.client == Some(client) || self.queue.has(client)
    }

    /// Returns whether the client may ask here, unless memory runs out, in expected constant time, or in time linear
    /// in the length of the queue if there was no memory to know its clients.
    ///
    /// # Errors
    ///
    /// The first that holds:
    ///
    /// 1. `Busy`: the client waits, is queued or holds here.
    /// 2. `Exhausted`: no number is left.
    pub fn may_ask(&self, client: u32) -> Result<(), AskError>
        ensures { AnswersMayAsk self.now client result }
    {
        if self.is_busy(client) {
            return Err(AskError::Busy);
        }
        if self.automaton.highest() == u64::MAX {
            return Err(AskError::Exhausted);
        }
        Ok(())
    }

    /// Asks for a client: its request is made if nobody uses the resource, and otherwise the client queues. The cost
    /// of a client that queues is constant, amortized and on average. It is linear in the length of the queue if
    /// there was no memory to index its clients.
    ///
    /// # Errors
    ///
    /// The first that holds; the resource is then as before:
    ///
    /// 1. `Busy`: the client waits, is queued or holds here.
    /// 2. `Exhausted`: no number is left.
    /// 3. `Memory`: memory ran out.
    pub fn ask(&mut self, alloc: Global, client: u32, mode: Mode) -> Result<Outcome, AskError>
        ensures { MatchResult result
            (λ outcome. AskTurn self.old client mode outcome.sends.items outcome.marks.items self.new
            × IsConsistent self.new.state)
            (λ fault. IsAskRefusal self.old client fault × (self.new ≡ self.old)) }
    {
        self.may_ask(client)?;
        if self.automaton.phase() != Phase::Idle {
            return self.queue_up(alloc, client, mode);
        }
        let Ok(mut marks) = marks_for(alloc, 2) else {
            return Err(AskError::Memory);
        };
        let requested = self.next_entry(client, mode);
        let Ok(reaction) = self.automaton.request_when_idle(alloc, mode) else {
            return Err(AskError::Memory);
        };
        self.client = Some(client);
        push_request(&mut marks, &requested, reaction.entered);
        Ok(Outcome {
            sends: reaction.sends,
            marks,
        })
    }

    /// Queues a client after all others, while the resource is in use.
    ///
    /// # Errors
    ///
    /// `Memory`: the resource is as before.
    fn queue_up(&mut self, alloc: Global, client: u32, mode: Mode) -> Result<Outcome, AskError>
        requires { self.old.state.phase ≢ Phase.Idle }
        ensures { MatchResult result
            (λ outcome. QueuesUp self.old client mode outcome.sends.items outcome.marks.items self.new)
            (λ fault. (fault ≡ AskError.Memory) × (self.new ≡ self.old)) }
    {
        let Ok(()) = self.queue.push_back(alloc, Queued { client, mode }) else {
            return Err(AskError::Memory);
        };
        Ok(nothing(alloc))
    }

    /// Leaves for the client that holds, and the next one asks in the same event. No client may be here twice. What is
    /// sent and marked is put into an empty outcome, which is lent. It does not allocate if that has room to leave.
    ///
    /// # Errors
    ///
    /// The first that holds; the resource is then as before:
    ///
    /// 1. `NotHeld`: the client does not hold. The outcome is as before, with its room.
    /// 2. `Memory`: memory ran out, and there was not room to leave. The outcome is empty.
    pub fn leave(
        &mut self,
        alloc: Global,
        client: u32,
        outcome: &mut Outcome,
    ) -> Result<(), LeaveError>
        requires once { AllPairs (λ a b. a ≢ b) (clients_of self.old) }
        requires nothing { IsNothing outcome.old }
        ensures left { MatchResult (answer_with result outcome.new)
            (λ done. LeaveTurn self.old client done.sends.items done.marks.items self.new
            × IsConsistent self.new.state)
            (λ fault. IsLeaveRefusal self.old client fault × (self.new ≡ self.old)) }
        ensures room { HasRoomToLeave self.old.state.nodes outcome.old → IsErrOf result LeaveError.Memory → ⊥ }
        ensures kept { IsErrOf result LeaveError.NotHeld → outcome.new ≡ outcome.old }
        ensures nothing { OnErr result (IsNothing outcome.new) }
    {
        let Some(held) = self.held_by(client) else {
            return Err(LeaveError::NotHeld);
        };
        // Those of the request that the next client makes, and that may be granted at once, have room, too.
        let Ok(()) = outcome.marks.reserve(3) else {
            return Err(LeaveError::Memory);
        };
        let sends = mem::replace(&mut outcome.sends, Messages::new(alloc));
        if let Some(next) = self.next() {
            return self.hand_over(alloc, &held, next, sends, outcome);
        }
        let Ok(reaction) = self.automaton.leave_into(alloc, sends) else {
            // Only `Memory` can come if a client holds.
            return Err(LeaveError::Memory);
        };
        self.client = None;
        outcome.sends = reaction.sends;
        push_reserved(&mut outcome.marks, Mark::Left(held));
        Ok(())
    }

    /// Leaves for the client that holds, by this request, and asks for `next`, the first of the queue, in one
    /// reaction: the deferred REPLYs come first. A number must be left, and no client may be here twice. The messages
    /// are put into an empty list, which the outcome gets, and the marks into the outcome.
    ///
    /// # Errors
    ///
    /// `Memory`, if the list has not room for two messages to each node: the resource and the outcome are as before.
    fn hand_over(
        &mut self,
        alloc: Global,
        held: &Entry,
        next: Queued,
        sends: Messages,
        outcome: &mut Outcome,
    ) -> Result<(), LeaveError>
        requires inside { IsInside self.old.state.phase }
        requires first { take 1 self.old.queue ≡ next ∷ [] }
        requires number_left { self.old.state.highest < greatest_number }
        requires once { AllPairs (λ a b. a ≢ b) (clients_of self.old) }
        requires none { sends.items ≡ [] }
        requires nothing { IsNothing outcome.old }
        requires marks { 3 ≤ outcome.old.marks.spare }
        ensures handed { MatchResult (answer_with result outcome.new)
            (λ done. IsHandedOver (LeaveStep self.old.state) self.old next done.sends.items (Left held.now ∷ [])
            done.marks.items self.new
            × IsConsistent self.new.state)
            (λ fault. (fault ≡ LeaveError.Memory) × (self.new ≡ self.old)) }
        ensures room { 2 * self.old.state.nodes ≤ sends.spare → IsOk result }
        ensures kept { OnErr result (outcome.new ≡ outcome.old) }
    {
        let requested = self.next_entry(next.client, next.mode);
        let left = self
            .automaton
            .leave_and_request_into(alloc, next.mode, sends);
        let Ok(handed) = left else {
            // Only `Memory` can come if a client holds.
            return Err(LeaveError::Memory);
        };
        self.queue.pop_front();
        self.client = Some(next.client);
        outcome.sends = handed.sends;
        push_reserved(&mut outcome.marks, Mark::Left(*held));
        push_request(&mut outcome.marks, &requested, handed.entered);
        Ok(())
    }

    /// Gives up for a client that waits or is queued. If it waits, the next client asks in the same event. No client
    /// may be here twice. What is sent and marked is put into an empty outcome, which is lent. It does not allocate
    /// if that has room to leave.
    ///
    /// # Errors
    ///
    /// The first that holds; the resource is then as before:
    ///
    /// 1. `NotWaiting`: the client neither waits nor is queued. The outcome is as before, with its room.
    /// 2. `Memory`: memory ran out, and there was not room to leave. The outcome is empty.
    pub fn cancel(
        &mut self,
        alloc: Global,
        client: u32,
        outcome: &mut Outcome,
    ) -> Result<(), CancelError>
        requires once { AllPairs (λ a b. a ≢ b) (clients_of self.old) }
        requires nothing { IsNothing outcome.old }
        requires consistent { IsConsistent self.old.state }
        ensures cancelled { MatchResult (answer_with result outcome.new)
            (λ done. CancelTurn self.old client done.sends.items done.marks.items self.new
            × IsConsistent self.new.state)
            (λ fault. IsCancelRefusal self.old client fault × (self.new ≡ self.old)) }
        ensures room { HasRoomToLeave self.old.state.nodes outcome.old → IsErrOf result CancelError.Memory → ⊥ }
        ensures kept { IsErrOf result CancelError.NotWaiting → outcome.new ≡ outcome.old }
        ensures nothing { OnErr result (IsNothing outcome.new) }
    {
        let Some(waiting) = self.waited_by(client) else {
            if self.queue.remove(client) {
                return Ok(());
            }
            return Err(CancelError::NotWaiting);
        };
        // There are two marks at most. The room is the same as for a leave, since one list serves both.
        let Ok(()) = outcome.marks.reserve(3) else {
            return Err(CancelError::Memory);
        };
        let sends = mem::replace(&mut outcome.sends, Messages::new(alloc));
        if let Some(next) = self.next() {
            return self.pass_on(alloc, &waiting, next, sends, outcome);
        }
        let Ok(reaction) = self.automaton.withdraw_into(alloc, sends) else {
            // Only `Memory` can come if a client waits.
            return Err(CancelError::Memory);
        };
        self.client = None;
        outcome.sends = reaction.sends;
        push_reserved(&mut outcome.marks, Mark::Withdrawn(waiting));
        Ok(())
    }

    /// Withdraws the request of the client that waits, this one, and asks for `next`, the first of the queue, in one
    /// reaction: the deferred REPLYs come first. A number must be left, and no client may be here twice. The messages
    /// are put into an empty list, which the outcome gets, and the marks into the outcome.
    ///
    /// # Errors
    ///
    /// `Memory`, if the list has not room for two messages to each node: the resource and the outcome are as before.
    fn pass_on(
        &mut self,
        alloc: Global,
        waiting: &Entry,
        next: Queued,
        sends: Messages,
        outcome: &mut Outcome,
    ) -> Result<(), CancelError>
        requires waits { IsWaitingPhase self.old.state.phase }
        requires first { take 1 self.old.queue ≡ next ∷ [] }
        requires number_left { self.old.state.highest < greatest_number }
        requires once { AllPairs (λ a b. a ≢ b) (clients_of self.old) }
        requires none { sends.items ≡ [] }
        requires nothing { IsNothing outcome.old }
        requires marks { 3 ≤ outcome.old.marks.spare }
        ensures passed { MatchResult (answer_with result outcome.new)
            (λ done. IsHandedOver (WithdrawStep self.old.state) self.old next done.sends.items
            (Withdrawn waiting.now ∷ []) done.marks.items self.new
            × IsConsistent self.new.state)
            (λ fault. (fault ≡ CancelError.Memory) × (self.new ≡ self.old)) }
        ensures room { 2 * self.old.state.nodes ≤ sends.spare → IsOk result }
        ensures kept { OnErr result (outcome.new ≡ outcome.old) }
    {
        let requested = self.next_entry(next.client, next.mode);
        let left = self
            .automaton
            .withdraw_and_request_into(alloc, next.mode, sends);
        let Ok(passed) = left else {
            // Only `Memory` can come if a client waits.
            return Err(CancelError::Memory);
        };
        self.queue.pop_front();
        self.client = Some(next.client);
        outcome.sends = passed.sends;
        push_reserved(&mut outcome.marks, Mark::Withdrawn(*waiting));
        push_request(&mut outcome.marks, &requested, passed.entered);
        Ok(())
    }

    /// Raises the highest number to this one, if it is lower. Returns whether anything else has to be kept.
    pub fn raise(&mut self, number: u64) -> bool
        ensures raised { self.new ≡ raised number self.old }
        ensures kept { result ≡ not (is_forgettable self.old) }
    {
        let forgettable = self.automaton.phase() == Phase::Idle
            && self.client.is_none()
            && self.queue.len() == 0
            && self.automaton.highest() < u64::MAX;
        self.automaton.raise(number);
        !forgettable
    }

    /// Takes a message for this node about this resource, which comes from another node.
    ///
    /// # Errors
    ///
    /// `Memory`, for a message that brings something: the resource is as before.
    pub fn receive(&mut self, alloc: Global, message: &Message) -> Result<Outcome, ReceiveError>
        requires name { name_of message.now ≡ self.old.state.name }
        requires addressed { IsAddressed self.old.state message.now }
        requires client { ClientFits self.old.state.phase self.old.client }
        ensures received { MatchResult result
            (λ outcome. ReceiveTurn self.old message.now outcome.sends.items outcome.marks.items self.new
            × IsConsistent self.new.state)
            (λ fault. (fault ≡ ReceiveError.Memory) × (self.new ≡ self.old)) }
        ensures brings { OnErr result (BringsNothingTo self.old message.now → ⊥) }
    {
        let mut marks = Marks::new(alloc);
        // Most messages let nobody enter, and have no mark.
        let count = u64::from(self.automaton.lets_enter(message));
        let Ok(()) = marks.reserve(count) else {
            return Err(ReceiveError::Memory);
        };
        let Ok(reaction) = self.automaton.receive_addressed(alloc, message) else {
            return Err(ReceiveError::Memory);
        };
        if reaction.entered {
            if let Some(entry) = self.holder() {
                push_reserved(&mut marks, Mark::Entered(entry));
            }
        }
        Ok(Outcome {
            sends: reaction.sends,
            marks,
        })
    }

    /// Returns whether nothing is sent and nothing is marked by a message that comes for this node about this resource.
    pub fn brings_nothing(&self, message: &Message) -> bool
        ensures { IsTrue result ↔ BringsNothingTo self.now message.now }
    {
        !self.automaton.replies_at_once(message) && !self.automaton.lets_enter(message)
    }

    /// Returns the request that a client makes next here.
    fn next_entry(&self, client: u32, mode: Mode) -> Entry
        requires { self.now.state.highest < greatest_number }
        ensures { result ≡ next_entry self.now client mode }
    {
        self.entry(self.automaton.highest() + 1, client, mode)
    }

    /// Returns a client's request here, with its number.
    fn entry(&self, seq: u64, client: u32, mode: Mode) -> Entry
        ensures { result ≡ entry_of self.now.state.me self.now.state.name seq client mode }
    {
        let node = self.automaton.me();
        Entry {
            name: self.automaton.name(),
            stamp: Stamp { seq, node },
            client,
            mode,
        }
    }

    /// Returns the request by which a client holds the resource, or `None`.
    pub fn held_by(&self, client: u32) -> Option<Entry>
        ensures held { IfSome result (Holds self.now client) }
        ensures not_held { IsNone result ↔ ((entry : Entry) → Holds self.now client entry → ⊥) }
    {
        match self.holder() {
            Some(entry) if entry.client == client => Some(entry),
            _ => None,
        }
    }

    /// Returns whether a client waits or is queued here, in expected constant time, or in time linear in the length
    /// of the queue if there was no memory to know its clients.
    pub fn is_kept_waiting(&self, client: u32) -> bool
        ensures { IsTrue result ↔ IsKeptWaiting self.now client }
    {
        self.waited_by(client).is_some() || self.queue.has(client)
    }

    /// Returns the request by which a client waits for the resource, or `None`.
    fn waited_by(&self, client: u32) -> Option<Entry>
        ensures waits { IfSome result (Waits self.now client) }
        ensures waits_not { IsNone result ↔ ((entry : Entry) → Waits self.now client entry → ⊥) }
    {
        match self.waiter() {
            Some(entry) if entry.client == client => Some(entry),
            _ => None,
        }
    }

    /// Returns the client that asks when the one that holds leaves, or the one that waits gives up, or `None`.
    fn next(&self) -> Option<Queued>
        ensures some { IfSome result (λ next.
            (take 1 self.now.queue ≡ next ∷ []) × (self.now.state.highest < greatest_number)) }
        ensures none { IsNone result → (self.now.queue ≡ []) ⊎ (greatest_number ≤ self.now.state.highest) }
    {
        if self.automaton.highest() == u64::MAX {
            return None;
        }
        self.queue.front()
    }
}

mod ending;

ghost use Rattle.std.specs.Prelude.{◌≡◌, ◌≢◌, ◌<◌, ◌≤◌, ◌⊎◌, ◌↔◌, max};
ghost use Rattle.std.specs.Prelude.{IsTrue, IsErrOf, IfOk, OnOk, OnErr};

use crate::address::check_address;
use crate::cases::{
    Answer, Effect, PhaseKind, answer_when_idle, answer_when_inside, answer_when_waiting, compare,
    effect_of_reply,
};
use crate::deferrals::Deferrals;
use crate::node_set::NodeSet;
use crate::sends::push_requests;
use crate::{NewError, Phase, Reaction, ReceiveError, RequestError};
use ra_stamp::{Member, Memory, Message, Messages, Mode, Name, NodeId, Stamp};
use std::alloc::Global;
use std::marker::Model;

/// One resource at one node: a call for each event, and a reader for each part. Contracts see its state.
#[derive(Drop)]
pub struct Automaton {
    member: Member,
    name: Name,
    highest: u64,
    phase: Phase,
    /// The nodes whose REPLYs are awaited.
    awaited: NodeSet,
    deferrals: Deferrals,
}

impl Model for Automaton {
    ghost use Rattle.ra_automaton.specs.State.{State, state_code};
    ghost use Rattle.ra_automaton.specs.contracts.phase.Phase as phases;

    ghost Value = { State };

    ghost coded = { state_code phases.the_row.coded };

    ghost use Rattle.ra_automaton.specs.View.{state_of, IsKept};

    ghost view = { state_of };

    ghost invariant = { IsKept };
}

impl Automaton {
    ghost use Rattle.std.specs.Ordering.{nat_cmp};
    ghost use Rattle.std.specs.FinSet as set;
    ghost use Rattle.std.specs.FinMap as finmap;
    ghost use Rattle.ra_stamp.specs.Message.{name_of};
    ghost use Rattle.ra_automaton.specs.State.{opening, entered_phase};
    ghost use Rattle.ra_automaton.specs.State.{IsOther, IsAddressed, IsConsistent, IsWaitingPhase};
    ghost use Rattle.ra_automaton.specs.Steps.{greatest_number, later_of, OwnGoesFirst, Awaits};
    ghost use Rattle.ra_automaton.specs.Steps.{Begins, Defers, RepliesAtOnce, TakesReply, LetsEnter};
    ghost use Rattle.ra_automaton.specs.Calls.{AnswersRequest, ChecksAddress, AnswersReceive};
    ghost use Rattle.ra_automaton.specs.Members.{ChecksMember};
    ghost use Rattle.ra_automaton.specs.Memory.{IsRepliedAtOnce};
    ghost use Rattle.ra_automaton.specs.NodeSet.{nobody_of};

    /// Makes the automaton of node `me` of `nodes` for a resource. The highest number that it has met is `start`, 0
    /// to 2^64-1. It does not allocate.
    ///
    /// # Errors
    ///
    /// The first that holds:
    ///
    /// 1. `BadCount`: `nodes` is not 1 to 64.
    /// 2. `BadNode`: `me` is above `nodes`.
    pub fn new(
        alloc: Global,
        me: NodeId,
        nodes: u16,
        name: Name,
        start: u64,
    ) -> Result<Automaton, NewError>
        ensures ok { IfOk result (λ automaton. automaton ≡ opening me nodes name start) }
        ensures consistent { IfOk result IsConsistent }
        ensures member { ChecksMember me nodes result }
    {
        let member = Member::new(me, nodes)?;
        Ok(Automaton::of(alloc, member, name, start))
    }

    /// Makes the automaton of a member for a resource, as `new` does. It does not allocate.
    pub fn of(alloc: Global, member: Member, name: Name, start: u64) -> Automaton
        ensures value { result ≡ opening member.node member.nodes name start }
        ensures consistent { IsConsistent result }
    {
        // For the proof: a member is one of its nodes.
        let _ = member.node();
        Automaton {
            member,
            name,
            highest: start,
            phase: Phase::Idle,
            awaited: NodeSet::empty(),
            deferrals: Deferrals::none(alloc),
        }
    }

    /// Makes a request, which takes the next number. The cost is linear in the number of nodes.
    ///
    /// # Errors
    ///
    /// The automaton is then as before. The first that holds:
    ///
    /// 1. `NotIdle`: the node waits or is inside.
    /// 2. `Exhausted`: the highest number is 2^64-1.
    /// 3. `Memory`: memory ran out.
    pub fn request(&mut self, alloc: Global, mode: Mode) -> Result<Reaction, RequestError>
        ensures requested { AnswersRequest self.old mode result self.new }
        ensures consistent { IsConsistent self.new }
        ensures not_idle { IsErrOf result RequestError.NotIdle ↔ (self.old.phase ≢ Phase.Idle) }
        ensures exhausted { IsErrOf result RequestError.Exhausted
            ↔ ((self.old.phase ≡ Phase.Idle) × (self.old.highest ≡ greatest_number)) }
    {
        if self.phase != Phase::Idle {
            return Err(RequestError::NotIdle);
        }
        if self.highest == u64::MAX {
            return Err(RequestError::Exhausted);
        }
        match self.request_when_idle(alloc, mode) {
            Ok(reaction) => Ok(reaction),
            Err(Memory) => Err(RequestError::Memory),
        }
    }

    /// Makes a request as `request` does, if it is already known that the node is idle and a number is left.
    ///
    /// # Errors
    ///
    /// `Memory`: memory ran out. The automaton is then as before.
    pub fn request_when_idle(&mut self, alloc: Global, mode: Mode) -> Result<Reaction, Memory>
        requires idle { self.old.phase ≡ Phase.Idle }
        requires number_left { self.old.highest < greatest_number }
        ensures requested { AnswersRequest self.old mode result self.new }
        ensures consistent { IsConsistent self.new }
    {
        let seq = self.highest + 1;
        let mut sends = Messages::new(alloc);
        push_requests(&mut sends, self.member, self.name, mode, seq)?;
        let room = Deferrals::with_room(alloc, self.member)?;
        let entered = self.begin(mode, room);
        Ok(Reaction { sends, entered })
    }

    /// Takes a message from another node, which must be about this resource. A REPLY that is not awaited is a stray:
    /// it is taken, and changes nothing. The cost is constant. It allocates only for a REPLY that goes out at once.
    ///
    /// # Errors
    ///
    /// The automaton is then as before. The first that holds:
    ///
    /// 1. `WrongNode`: the message is for another node.
    /// 2. `Stranger`: its sender is this node, or is above the number of nodes.
    /// 3. `Memory`: memory ran out, for a REPLY that was to go out at once.
    #[inline(always)]
    pub fn receive(&mut self, alloc: Global, message: &Message) -> Result<Reaction, ReceiveError>
        requires { name_of message.now ≡ self.old.name }
        ensures received { AnswersReceive self.old message.now result self.new }
        ensures addressed { OnOk result (IsAddressed self.old message.now) }
        ensures address { ChecksAddress self.old.me self.old.nodes message.now result }
        ensures consistent { IsConsistent self.new }
        ensures memory_only_for_reply { IsErrOf result ReceiveError.Memory → IsRepliedAtOnce self.old message.now }
    {
        check_address(self.member, message)?;
        match self.receive_addressed(alloc, message) {
            Ok(reaction) => Ok(reaction),
            Err(Memory) => Err(ReceiveError::Memory),
        }
    }

    /// Takes a message as `receive` does, if it is already known to be for this node, from another one, and about this
    /// resource.
    ///
    /// # Errors
    ///
    /// `Memory`: memory ran out, for a REPLY that was to go out at once. The automaton is then as before.
    #[inline(always)]
    pub fn receive_addressed(
        &mut self,
        alloc: Global,
        message: &Message,
    ) -> Result<Reaction, Memory>
        requires name { name_of message.now ≡ self.old.name }
        requires addressed { IsAddressed self.old message.now }
        ensures received { AnswersReceive self.old message.now result self.new }
        ensures consistent { IsConsistent self.new }
        ensures memory_only_for_reply { OnErr result (IsRepliedAtOnce self.old message.now) }
    {
        // For the proof: before the message, the state is consistent.
        let _ = &self.member;
        match *message {
            Message::Request {
                from,
                mode,
                seq,
                ..
            } => {
                let sends = self.take_request(alloc, from, mode, seq)?;
                let entered = false;
                Ok(Reaction { sends, entered })
            }
            Message::Reply { from, seq, .. } => {
                let sends = Messages::new(alloc);
                let entered = self.take_reply(from, seq);
                Ok(Reaction { sends, entered })
            }
        }
    }

    /// Raises the highest number that the node has met to this one, 0 to 2^64-1, if it is lower. It does not allocate.
    pub fn raise(&mut self, number: u64)
        ensures raised { self.new ≡ record self.old { highest = max self.old.highest number } }
        ensures consistent { IsConsistent self.new }
    {
        self.highest = self.highest.max(number);
    }

    /// Returns the node's number. It does not allocate.
    pub fn me(&self) -> NodeId
        ensures value { result ≡ self.now.me }
        ensures consistent { IsConsistent self.now }
    {
        self.member.node()
    }

    /// Returns what the node is doing with the resource. It does not allocate.
    pub fn phase(&self) -> Phase
        ensures value { result ≡ self.now.phase }
        ensures consistent { IsConsistent self.now }
    {
        self.phase
    }

    /// Returns the highest number that the node has met, 0 to 2^64-1. It does not allocate.
    pub fn highest(&self) -> u64
        ensures value { result ≡ self.now.highest }
        ensures consistent { IsConsistent self.now }
    {
        self.highest
    }

    /// Returns the resource's name. It does not allocate.
    pub fn name(&self) -> Name
        ensures value { result ≡ self.now.name }
        ensures consistent { IsConsistent self.now }
    {
        self.name
    }

    /// Returns whether the node awaits the REPLY of a node. It does not allocate.
    pub fn waits_for(&self, node: NodeId) -> bool
        ensures value { result ≡ set.contains self.now.awaited node }
        ensures consistent { IsConsistent self.now }
    {
        self.awaited.contains(node)
    }

    /// Returns the number of the request of a node whose REPLY is deferred, or `None` if it is not. It does not
    /// allocate.
    pub fn deferred(&self, node: NodeId) -> Option<u64>
        ensures value { result ≡ finmap.get self.now.deferred node }
        ensures consistent { IsConsistent self.now }
    {
        self.deferrals.get(node)
    }

    /// Returns whether a message is the last REPLY that the node awaits: received as a message for it about this
    /// resource, it lets the node enter. It does not allocate. The cost is constant. It is asked before anything
    /// changes: few messages let a node enter, and only for those it needs room for a mark.
    pub fn lets_enter(&self, message: &Message) -> bool
        ensures { IsTrue result ↔ LetsEnter self.now message.now }
    {
        match *message {
            Message::Request { .. } => false,
            Message::Reply { from, seq, .. } => match self.effect(from, seq) {
                Effect::Enter => true,
                Effect::WaitOn => false,
                Effect::Stray => false,
            },
        }
    }

    /// Returns whether a message is a REQUEST whose REPLY is not deferred: received as a message for the node about
    /// this resource, it is answered at once. It does not allocate. The cost is constant.
    pub fn replies_at_once(&self, message: &Message) -> bool
        ensures { IsTrue result ↔ IsRepliedAtOnce self.now message.now }
    {
        match *message {
            Message::Request {
                from,
                mode,
                seq,
                ..
            } => match self.answer(from, mode, seq) {
                Answer::Reply => true,
                Answer::Defer => false,
            },
            Message::Reply { .. } => false,
        }
    }

    /// Begins a request, once its messages are made, with room for the nodes that will be deferred. Returns whether it
    /// is granted at once.
    fn begin(&mut self, mode: Mode, room: Deferrals) -> bool
        requires idle { self.old.phase ≡ Phase.Idle }
        requires number_left { self.old.highest < greatest_number }
        requires room { room ≡ nobody_of self.old.nodes }
        ensures { Begins self.old mode result self.new }
    {
        let seq = self.highest + 1;
        self.highest = seq;
        self.deferrals = room;
        if self.member.nodes() == 1 {
            self.phase = Phase::Inside { seq, mode };
            return true;
        }
        self.phase = Phase::Waiting { seq, mode };
        self.awaited = NodeSet::others(self.member);
        false
    }

    /// Returns what a REQUEST of another node leads to.
    fn answer(&self, other: NodeId, wanted: Mode, seq: u64) -> Answer
        ensures defer { result ≡ Answer.Defer → OwnGoesFirst self.now.phase self.now.me other seq wanted }
        ensures reply { result ≡ Answer.Reply → OwnGoesFirst self.now.phase self.now.me other seq wanted → ⊥ }
    {
        let theirs = Stamp { seq, node: other };
        match self.phase {
            Phase::Idle => answer_when_idle(wanted),
            Phase::Waiting { seq, mode } => {
                let node = self.member.node();
                let own = Stamp { seq, node };
                answer_when_waiting(mode, wanted, compare(theirs, own))
            }
            Phase::Inside { seq, mode } => {
                let node = self.member.node();
                let own = Stamp { seq, node };
                answer_when_inside(mode, wanted, compare(theirs, own))
            }
        }
    }

    /// Takes a REQUEST of another node. Returns the messages that go out.
    ///
    /// # Errors
    ///
    /// `Memory`: memory ran out, for a REPLY that was to go out at once. The automaton is then as before.
    fn take_request(
        &mut self,
        alloc: Global,
        other: NodeId,
        wanted: Mode,
        seq: u64,
    ) -> Result<Messages, Memory>
        requires { IsOther self.old other }
        ensures ok { IfOk result (λ sends. Defers self.old other seq wanted sends.items self.new
            ⊎ RepliesAtOnce self.old other seq wanted sends.items self.new) }
        ensures err { OnErr result (self.new ≡ self.old) }
        ensures memory { OnErr result (OwnGoesFirst self.old.phase self.old.me other seq wanted → ⊥) }
    {
        let mut sends = Messages::new(alloc);
        match self.answer(other, wanted, seq) {
            Answer::Reply => {
                let reply = Message::Reply {
                    from: self.member.node(),
                    to: other,
                    name: self.name,
                    seq,
                };
                sends.push(reply)?;
                self.highest = self.highest.max(seq);
            }
            Answer::Defer => self.defer(other, seq),
        }
        Ok(sends)
    }

    /// Defers the REPLY to another node. If two requests of that node are deferred, the greater number counts.
    fn defer(&mut self, other: NodeId, seq: u64)
        requires other { IsOther self.old other }
        requires busy { self.old.phase ≢ Phase.Idle }
        requires numbered { 1 ≤ seq }
        ensures { self.new ≡ record self.old {
          highest = max self.old.highest seq;
          deferred = finmap.insert self.old.deferred other (later_of
              (finmap.get self.old.deferred other) seq);
        } }
    {
        let later = match self.deferrals.get(other) {
            None => seq,
            Some(before) => before.max(seq),
        };
        self.deferrals.insert(other, later);
        self.highest = self.highest.max(seq);
    }

    /// Returns what a REPLY of another node leads to.
    fn effect(&self, other: NodeId, number: u64) -> Effect
        ensures enter { result ≡ Effect.Enter → (mode : Mode) × Awaits self.now other number mode
            × (set.remove self.now.awaited other ≡ set.empty) }
        ensures wait { result ≡ Effect.WaitOn → (mode : Mode) × Awaits self.now other number mode
            × (set.remove self.now.awaited other ≡ set.empty → ⊥) }
        ensures stray { result ≡ Effect.Stray → (mode : Mode) → Awaits self.now other number mode → ⊥ }
    {
        let awaited = self.awaited.contains(other);
        let others = !self.awaited.is_only(other);
        match self.phase {
            Phase::Idle => effect_of_reply(PhaseKind::Idle, false, awaited, others),
            Phase::Waiting { seq, .. } => effect_of_reply(
                PhaseKind::Waiting,
                seq == number,
                awaited,
                others,
            ),
            Phase::Inside { seq, .. } => effect_of_reply(
                PhaseKind::Inside,
                seq == number,
                awaited,
                others,
            ),
        }
    }

    /// Takes a REPLY of another node. Returns whether the request is granted by it.
    fn take_reply(&mut self, other: NodeId, number: u64) -> bool
        ensures { TakesReply self.old other number result self.new }
    {
        match self.effect(other, number) {
            Effect::Stray => false,
            Effect::WaitOn => {
                self.awaited.remove(other);
                false
            }
            Effect::Enter => {
                self.enter();
                true
            }
        }
    }

    /// Takes the last REPLY that is awaited, and enters.
    fn enter(&mut self)
        requires { IsWaitingPhase self.old.phase }
        ensures { self.new ≡ record self.old { phase = entered_phase self.old.phase; awaited = set.empty } }
    {
        self.awaited = NodeSet::empty();
        if let Phase::Waiting { seq, mode } = self.phase {
            self.phase = Phase::Inside { seq, mode };
        }
    }
}

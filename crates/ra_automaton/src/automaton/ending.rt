//! The end of a request: its client leaves, or gives it up while it waits, and the next one may ask in the same event.
ghost use Rattle.std.specs.Prelude.{◌≡◌, ◌≢◌, ◌+◌, ◌*◌, ◌<◌, ◌≤◌, ◌↔◌, ◌++◌, [], map};
ghost use Rattle.std.specs.Prelude.{IsTrue, IsErrOf, IsOk, OnOk};

use crate::automaton::Automaton;
use crate::deferrals::Deferrals;
use crate::node_set::NodeSet;
use crate::sends::push_requests;
use crate::{LeaveError, Phase, Reaction, WithdrawError};
use ra_stamp::{Memory, Message, Messages, Mode};
use std::alloc::Global;
use std::mem;

impl Automaton {
    ghost use Rattle.std.specs.Ordering.{nat_cmp};
    ghost use Rattle.std.specs.FinSet as set;
    ghost use Rattle.std.specs.FinMap as finmap;
    ghost use Rattle.ra_automaton.specs.State.{IsConsistent, IsInside, IsWaitingPhase};
    ghost use Rattle.ra_automaton.specs.Steps.{greatest_number, others_of};
    ghost use Rattle.ra_automaton.specs.Calls.{AnswersLeave, AnswersLeaveAndRequest};
    ghost use Rattle.ra_automaton.specs.Calls.{AnswersWithdraw, AnswersWithdrawAndRequest};
    ghost use Rattle.ra_automaton.specs.NodeSet.{nobody_of};

    /// Leaves the resource, and sends each REPLY that is deferred. The cost is linear in the number of nodes.
    ///
    /// # Errors
    ///
    /// The automaton is then as before. The first that holds:
    ///
    /// 1. `NotHeld`: the node is not inside.
    /// 2. `Memory`: memory ran out.
    pub fn leave(&mut self, alloc: Global) -> Result<Reaction, LeaveError>
        ensures left { AnswersLeave self.old result self.new }
        ensures consistent { IsConsistent self.new }
    {
        self.leave_into(alloc, Messages::new(alloc))
    }

    /// Leaves as `leave` does, and puts the messages into an empty list. It does not allocate if the list has room for
    /// a message to each node.
    ///
    /// # Errors
    ///
    /// Those of `leave`. `Memory` comes only if the list has less room.
    pub fn leave_into(&mut self, alloc: Global, mut sends: Messages) -> Result<Reaction, LeaveError>
        requires { sends.items ≡ [] }
        ensures left { AnswersLeave self.old result self.new }
        ensures consistent { IsConsistent self.new }
        ensures room { self.old.nodes ≤ sends.spare → IsErrOf result LeaveError.Memory → ⊥ }
    {
        if !self.is_inside() {
            return Err(LeaveError::NotHeld);
        }
        if self.push_replies(&mut sends).is_err() {
            return Err(LeaveError::Memory);
        }
        self.end(alloc);
        Ok(Reaction {
            sends,
            entered: false,
        })
    }

    /// Leaves the resource and makes a request, in one event: the REPLYs come first. A number must be left. The cost
    /// is linear in the number of nodes.
    ///
    /// # Errors
    ///
    /// The automaton is then as before. The first that holds:
    ///
    /// 1. `NotHeld`: the node is not inside.
    /// 2. `Memory`: memory ran out.
    pub fn leave_and_request(&mut self, alloc: Global, mode: Mode) -> Result<Reaction, LeaveError>
        requires { self.old.highest < greatest_number }
        ensures left { AnswersLeaveAndRequest self.old mode result self.new }
        ensures consistent { IsConsistent self.new }
    {
        self.leave_and_request_into(alloc, mode, Messages::new(alloc))
    }

    /// Does what `leave_and_request` does, and puts the messages into an empty list. It does not allocate if the list
    /// has room for two messages to each node.
    ///
    /// # Errors
    ///
    /// Those of `leave_and_request`. `Memory` comes only if the list has less room.
    pub fn leave_and_request_into(
        &mut self,
        alloc: Global,
        mode: Mode,
        mut sends: Messages,
    ) -> Result<Reaction, LeaveError>
        requires number_left { self.old.highest < greatest_number }
        requires none { sends.items ≡ [] }
        ensures left { AnswersLeaveAndRequest self.old mode result self.new }
        ensures consistent { IsConsistent self.new }
        ensures room { 2 * self.old.nodes ≤ sends.spare → IsErrOf result LeaveError.Memory → ⊥ }
    {
        if !self.is_inside() {
            return Err(LeaveError::NotHeld);
        }
        if self.push_turn(&mut sends, mode).is_err() {
            return Err(LeaveError::Memory);
        }
        let room = self.end(alloc);
        let entered = self.begin(mode, room);
        Ok(Reaction { sends, entered })
    }

    /// Withdraws the request that waits, and sends each REPLY that is deferred. The other nodes are not told: a REPLY
    /// that comes later is a stray. The highest number stays. The cost is linear in the number of nodes.
    ///
    /// # Errors
    ///
    /// The automaton is then as before. The first that holds:
    ///
    /// 1. `NotWaiting`: the node does not wait.
    /// 2. `Memory`: memory ran out.
    pub fn withdraw(&mut self, alloc: Global) -> Result<Reaction, WithdrawError>
        ensures withdrawn { AnswersWithdraw self.old result self.new }
        ensures consistent { IsConsistent self.new }
    {
        self.withdraw_into(alloc, Messages::new(alloc))
    }

    /// Withdraws the request as `withdraw` does, and puts the messages into an empty list. It does not allocate if the
    /// list has room for a message to each node.
    ///
    /// # Errors
    ///
    /// Those of `withdraw`. `Memory` comes only if the list has less room.
    pub fn withdraw_into(
        &mut self,
        alloc: Global,
        mut sends: Messages,
    ) -> Result<Reaction, WithdrawError>
        requires { sends.items ≡ [] }
        ensures withdrawn { AnswersWithdraw self.old result self.new }
        ensures consistent { IsConsistent self.new }
        ensures room { self.old.nodes ≤ sends.spare → IsErrOf result WithdrawError.Memory → ⊥ }
    {
        if !self.is_waiting() {
            return Err(WithdrawError::NotWaiting);
        }
        let Ok(()) = self.push_replies(&mut sends) else {
            return Err(WithdrawError::Memory);
        };
        // The node is idle now, so the room for deferred nodes goes.
        let _room = self.end(alloc);
        let entered = false;
        Ok(Reaction { sends, entered })
    }

    /// Withdraws the request that waits and makes another one, in one event: the REPLYs come first. A number must be
    /// left. The cost is linear in the number of nodes.
    ///
    /// # Errors
    ///
    /// The automaton is then as before. The first that holds:
    ///
    /// 1. `NotWaiting`: the node does not wait.
    /// 2. `Memory`: memory ran out.
    pub fn withdraw_and_request(
        &mut self,
        alloc: Global,
        mode: Mode,
    ) -> Result<Reaction, WithdrawError>
        requires { self.old.highest < greatest_number }
        ensures withdrawn { AnswersWithdrawAndRequest self.old mode result self.new }
        ensures consistent { IsConsistent self.new }
    {
        self.withdraw_and_request_into(alloc, mode, Messages::new(alloc))
    }

    /// Does what `withdraw_and_request` does, and puts the messages into an empty list. It does not allocate if the
    /// list has room for two messages to each node.
    ///
    /// # Errors
    ///
    /// Those of `withdraw_and_request`. `Memory` comes only if the list has less room.
    pub fn withdraw_and_request_into(
        &mut self,
        alloc: Global,
        mode: Mode,
        mut sends: Messages,
    ) -> Result<Reaction, WithdrawError>
        requires number_left { self.old.highest < greatest_number }
        requires none { sends.items ≡ [] }
        ensures withdrawn { AnswersWithdrawAndRequest self.old mode result self.new }
        ensures consistent { IsConsistent self.new }
        ensures room { 2 * self.old.nodes ≤ sends.spare → IsErrOf result WithdrawError.Memory → ⊥ }
    {
        if !self.is_waiting() {
            return Err(WithdrawError::NotWaiting);
        }
        let Ok(()) = self.push_turn(&mut sends, mode) else {
            return Err(WithdrawError::Memory);
        };
        let room = self.end(alloc);
        let entered = self.begin(mode, room);
        Ok(Reaction { sends, entered })
    }

    /// Returns whether the node is inside.
    fn is_inside(&self) -> bool
        ensures value { IsTrue result ↔ IsInside self.now.phase }
        ensures consistent { IsConsistent self.now }
    {
        matches!(self.phase, Phase::Inside { .. })
    }

    /// Returns whether the node waits.
    fn is_waiting(&self) -> bool
        ensures value { IsTrue result ↔ IsWaitingPhase self.now.phase }
        ensures consistent { IsConsistent self.now }
    {
        matches!(self.phase, Phase::Waiting { .. })
    }

    /// Adds the REPLYs that are deferred. It does not allocate if there is room for one to each node.
    ///
    /// # Errors
    ///
    /// `Memory`: memory ran out. Some REPLYs may have been added.
    fn push_replies(&self, sends: &mut Messages) -> Result<(), Memory>
        ensures ok { OnOk result (sends.new.items ≡ sends.old.items ++ map (λ deferred.
            Message.Reply self.now.me deferred.0 self.now.name deferred.1) (finmap.entries self.now.deferred)) }
        ensures succeeds { self.now.nodes ≤ sends.old.spare → IsOk result }
        ensures spare { self.now.nodes ≤ sends.old.spare → sends.old.spare ≤ sends.new.spare + self.now.nodes }
    {
        let me = self.member.node();
        self.deferrals.push_replies(sends, me, self.name)
    }

    /// Adds the REPLYs that are deferred and then the REQUESTs that a client makes next, in this mode. It does not
    /// allocate if there is room for two messages to each node.
    ///
    /// # Errors
    ///
    /// `Memory`: memory ran out. Some of these messages may have been added.
    fn push_turn(&self, sends: &mut Messages, mode: Mode) -> Result<(), Memory>
        requires { self.now.highest < greatest_number }
        ensures ok { OnOk result (sends.new.items ≡ (sends.old.items ++ map (λ deferred.
            Message.Reply self.now.me deferred.0 self.now.name deferred.1) (finmap.entries self.now.deferred))
            ++ map (λ other. Message.Request self.now.me other self.now.name mode (self.now.highest + 1))
            (others_of self.now.me self.now.nodes)) }
        ensures succeeds { 2 * self.now.nodes ≤ sends.old.spare → IsOk result }
    {
        self.push_replies(sends)?;
        push_requests(sends, self.member, self.name, mode, self.highest + 1)
    }

    /// Ends a request, once the REPLYs are made. Returns the room for deferred nodes, for the next request. It does not
    /// allocate.
    fn end(&mut self, alloc: Global) -> Deferrals
        requires { self.old.phase ≢ Phase.Idle }
        ensures ended { self.new ≡ record self.old {
          phase = Phase.Idle;
          awaited = set.empty;
          deferred = finmap.empty;
        } }
        // A node inside awaited nobody.
        ensures inside { IsInside self.old.phase
            → self.new ≡ record self.old { phase = Phase.Idle; deferred = finmap.empty } }
        ensures room { result ≡ nobody_of self.old.nodes }
    {
        self.phase = Phase::Idle;
        self.awaited = NodeSet::empty();
        let mut room = mem::replace(&mut self.deferrals, Deferrals::none(alloc));
        room.clear();
        room
    }
}

//! The end of a request or of a wait: a client leaves a name, or gives it up.
ghost use Rattle.std.specs.Prelude.{◌≡◌, IsErrOf, OnErr};
ghost use Rattle.ra_node.specs.Room.{IsNothing, HasRoomToLeave, answer_with};

use crate::node::Node;
use crate::outcome::nothing;
use crate::{CancelError, LeaveError, Outcome};
use ra_stamp::Name;
use std::alloc::Global;

impl Node {
    ghost use Rattle.ra_node.specs.Node.{IsConsistentNode};
    ghost use Rattle.ra_node.specs.Calls.{AnswersLeave, AnswersCancel};

    /// Leaves a name for the client that holds it. Then, in the same event, it asks for the first client in the name's
    /// queue, unless the highest number of the name is 2^64-1. The deferred REPLYs come before its REQUESTs. The marks
    /// are Left, then Requested if a client asks, then Entered if there is no other node. The cost is linear in the
    /// number of nodes.
    ///
    /// # Errors
    ///
    /// The first that holds, and the node is as before:
    ///
    /// 1. `NotHeld`: the client does not hold the name here.
    /// 2. `Memory`: nothing has changed, and the call can be made again.
    pub fn leave(&mut self, alloc: Global, client: u32, name: Name) -> Result<Outcome, LeaveError>
        ensures left { AnswersLeave self.old client name result self.new }
        ensures consistent { IsConsistentNode self.new }
    {
        let mut outcome = nothing(alloc);
        // No `?`, which is dearer to prove.
        match self.leave_into(alloc, client, name, &mut outcome) {
            Ok(()) => Ok(outcome),
            Err(fault) => Err(fault),
        }
    }

    /// Leaves a name as `leave` does, and puts what is sent and marked into an empty outcome, which is lent. It does
    /// not allocate if that is of [`Outcome::for_leave`], made for this many nodes.
    ///
    /// # Errors
    ///
    /// Those of `leave`. After `NotHeld` the outcome is as before, with its room, so that it serves the next leave.
    /// `Memory` comes only if the outcome has less room, and leaves it empty.
    pub fn leave_into(
        &mut self,
        alloc: Global,
        client: u32,
        name: Name,
        outcome: &mut Outcome,
    ) -> Result<(), LeaveError>
        requires { IsNothing outcome.old }
        ensures left { AnswersLeave self.old client name (answer_with result outcome.new) self.new }
        ensures consistent { IsConsistentNode self.new }
        ensures room { HasRoomToLeave self.old.nodes outcome.old → IsErrOf result LeaveError.Memory → ⊥ }
        ensures kept { IsErrOf result LeaveError.NotHeld → outcome.new ≡ outcome.old }
        ensures nothing { OnErr result (IsNothing outcome.new) }
    {
        // The totals have room, since there are fewer than 2^64 names.
        prove!(self.slots.len() < usize::MAX);
        let Some(slot) = self.slots.get_mut(&name) else {
            return Err(LeaveError::NotHeld);
        };
        let waiting = self.waiting - slot.waiting();
        let queued = self.queued - slot.queued() as u128;
        let left = slot.leave(alloc, client, outcome);
        self.waiting = waiting + slot.waiting();
        self.queued = queued + slot.queued() as u128;
        left
    }

    /// Gives up for a client that waits or is queued for a name. A client that is queued leaves the queue, and
    /// nothing is sent or marked. The request of one that waits is withdrawn: each deferred REPLY goes out, and in
    /// the same event the first client in the name's queue asks, unless the highest number of the name is 2^64-1. The
    /// marks are then Withdrawn, and Requested if a client asks. The other nodes are not told, and a REPLY to the
    /// withdrawn request is a stray. The cost is linear in the number of nodes and in the length of the name's queue.
    ///
    /// # Errors
    ///
    /// The first that holds, and the node is as before:
    ///
    /// 1. `NotWaiting`: the client neither waits nor is queued for the name here. A client that was let in holds it.
    /// 2. `Memory`: nothing has changed, and the call can be made again.
    pub fn cancel(&mut self, alloc: Global, client: u32, name: Name) -> Result<Outcome, CancelError>
        ensures cancelled { AnswersCancel self.old client name result self.new }
        ensures consistent { IsConsistentNode self.new }
    {
        let mut outcome = nothing(alloc);
        // No `?`, which is dearer to prove.
        match self.cancel_into(alloc, client, name, &mut outcome) {
            Ok(()) => Ok(outcome),
            Err(fault) => Err(fault),
        }
    }

    /// Gives up as `cancel` does, and puts what is sent and marked into an empty outcome, which is lent. It does not
    /// allocate if that is of [`Outcome::for_leave`], made for this many nodes.
    ///
    /// # Errors
    ///
    /// Those of `cancel`. After `NotWaiting` the outcome is as before, with its room. `Memory` comes only if the
    /// outcome has less room, and leaves it empty.
    pub fn cancel_into(
        &mut self,
        alloc: Global,
        client: u32,
        name: Name,
        outcome: &mut Outcome,
    ) -> Result<(), CancelError>
        requires { IsNothing outcome.old }
        ensures cancelled { AnswersCancel self.old client name (answer_with result outcome.new) self.new }
        ensures consistent { IsConsistentNode self.new }
        ensures room { HasRoomToLeave self.old.nodes outcome.old → IsErrOf result CancelError.Memory → ⊥ }
        ensures kept { IsErrOf result CancelError.NotWaiting → outcome.new ≡ outcome.old }
        ensures nothing { OnErr result (IsNothing outcome.new) }
    {
        // The totals have room, since there are fewer than 2^64 names.
        prove!(self.slots.len() < usize::MAX);
        let Some(slot) = self.slots.get_mut(&name) else {
            return Err(CancelError::NotWaiting);
        };
        let waiting = self.waiting - slot.waiting();
        let queued = self.queued - slot.queued() as u128;
        let given_up = slot.cancel(alloc, client, outcome);
        self.waiting = waiting + slot.waiting();
        self.queued = queued + slot.queued() as u128;
        given_up
    }
}

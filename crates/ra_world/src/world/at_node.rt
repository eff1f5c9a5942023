//! What a step does at its node. Room for what the node sends and marks is made first, so that the step can be
//! kept.
ghost use Rattle.std.specs.Prelude.{◌*◌, ◌≤◌, Contains};
ghost use Rattle.ra_automaton.specs.State.{IsForNode};
ghost use Rattle.ra_node.specs.Node.{IsConsistentNode};
ghost use Rattle.ra_node.specs.Events.{Event as event};
ghost use Rattle.ra_world.specs.Trying.{TriesAt};

use crate::world::kept_steps::KeptSteps;
use crate::{NodeRefusal, Step, StepError};
use ra_bag::Found;
use ra_node::{Node, Outcome};
use ra_stamp::{Message, Mode, Name};
use std::alloc::Global;

/// Has a client ask for a name at its node, which sends at most this many messages, and keeps that as the step.
///
/// # Errors
///
/// The first that holds, and nothing has changed:
///
/// 1. `Node`: the node refuses (`Busy`, `Exhausted`).
/// 2. `Memory`: there is no room for what the step makes, or for one more step.
pub fn ask_at<const KEEPS_MARKS: u8>(
    node: &mut Node,
    kept: &mut KeptSteps<KEEPS_MARKS>,
    alloc: Global,
    sends: u64,
    step: &Step,
    client: u32,
    name: &Name,
    mode: Mode,
) -> Result<Outcome, StepError>
    requires consistent { IsConsistentNode node.old }
    requires sends { node.old.nodes ≤ sends }
    ensures { TriesAt step.now (event.Ask client name.now mode) node.old kept.old result node.new kept.new }
{
    // The request may enter at once.
    let Ok(()) = kept.make_room(sends, 2) else {
        // A refusal of the node comes before `Memory`.
        node.may_ask(client, name)?;
        return Err(StepError::Memory);
    };
    let outcome = node.ask(alloc, client, *name, mode)?;
    kept.keep(step, &outcome);
    Ok(outcome)
}

/// Has a client leave a name at its node, which sends at most this many messages, and keeps that as the step.
///
/// # Errors
///
/// The first that holds, and nothing has changed:
///
/// 1. `Node`: the node refuses (`NotHeld`).
/// 2. `Memory`: there is no room for what the step makes, or for one more step.
pub fn leave_at<const KEEPS_MARKS: u8>(
    node: &mut Node,
    kept: &mut KeptSteps<KEEPS_MARKS>,
    alloc: Global,
    sends: u64,
    step: &Step,
    client: u32,
    name: &Name,
) -> Result<Outcome, StepError>
    requires consistent { IsConsistentNode node.old }
    requires sends { 2 * node.old.nodes ≤ sends }
    ensures { TriesAt step.now (event.Leave client name.now) node.old kept.old result node.new kept.new }
{
    // The marks are Left, Requested and Entered.
    let Ok(()) = kept.make_room(sends, 3) else {
        // A refusal of the node comes before `Memory`.
        if !node.is_held_by(client, name) {
            return Err(StepError::Node(NodeRefusal::NotHeld));
        }
        return Err(StepError::Memory);
    };
    let outcome = node.leave(alloc, client, *name)?;
    kept.keep(step, &outcome);
    Ok(outcome)
}

/// Has a client give up a name at its node, which sends at most this many messages, and keeps that as the step.
///
/// # Errors
///
/// The first that holds, and nothing has changed:
///
/// 1. `Node`: the node refuses (`NotWaiting`).
/// 2. `Memory`: there is no room for what the step makes, or for one more step.
pub fn cancel_at<const KEEPS_MARKS: u8>(
    node: &mut Node,
    kept: &mut KeptSteps<KEEPS_MARKS>,
    alloc: Global,
    sends: u64,
    step: &Step,
    client: u32,
    name: &Name,
) -> Result<Outcome, StepError>
    requires consistent { IsConsistentNode node.old }
    requires sends { 2 * node.old.nodes ≤ sends }
    ensures { TriesAt step.now (event.Cancel client name.now) node.old kept.old result node.new kept.new }
{
    // The marks are Withdrawn and Requested; the room is the same as for a leave.
    let Ok(()) = kept.make_room(sends, 3) else {
        // A refusal of the node comes before `Memory`.
        if !node.is_kept_waiting(client, name) {
            return Err(StepError::Node(NodeRefusal::NotWaiting));
        }
        return Err(StepError::Memory);
    };
    let outcome = node.cancel(alloc, client, *name)?;
    kept.keep(step, &outcome);
    Ok(outcome)
}

/// Has a node forget names, and keeps that as the step.
///
/// # Errors
///
/// `Memory`, and nothing has changed: no further step can be counted.
pub fn forget_at<const KEEPS_MARKS: u8>(
    node: &mut Node,
    kept: &mut KeptSteps<KEEPS_MARKS>,
    alloc: Global,
    step: &Step,
) -> Result<Outcome, StepError>
    requires consistent { IsConsistentNode node.old }
    ensures { TriesAt step.now event.Forget node.old kept.old result node.new kept.new }
{
    kept.make_room(0, 0)?;
    node.forget();
    let outcome = Outcome::nothing(alloc);
    kept.keep(step, &outcome);
    Ok(outcome)
}

/// Takes a message from those under way to its node, and keeps that as the step. It is taken as it was found.
///
/// # Errors
///
/// `Memory`, and nothing has changed: there is no room for what the message brings, or for one more step.
#[inline(always)]
pub fn receive_at<const KEEPS_MARKS: u8>(
    receiver: &mut Node,
    kept: &mut KeptSteps<KEEPS_MARKS>,
    alloc: Global,
    step: &Step,
    found: Found,
    message: &Message,
) -> Result<Outcome, StepError>
    requires there { Contains kept.old.under_way.items message.now }
    requires addressed { IsForNode receiver.old.me receiver.old.nodes message.now }
    ensures { TriesAt step.now (event.Receive message.now) receiver.old kept.old result receiver.new kept.new }
{
    kept.make_room_for(receiver, message)?;
    // The message is for this node and from another one, so its node refuses it only if memory runs out.
    let Ok(outcome) = receiver.receive(alloc, message) else {
        return Err(StepError::Memory);
    };
    kept.take(found, message);
    kept.keep(step, &outcome);
    Ok(outcome)
}

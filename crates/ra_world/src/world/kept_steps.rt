//! What a world keeps of its steps: the messages that they left under way, and the log of what they sent and marked.
ghost use Rattle.std.specs.Prelude.{◌≡◌, ◌+◌, ◌≤◌, ◌<◌, ◌⊎◌, ◌∷◌, ◌++◌, [], List, Contains, length, OnOk, OnErr};
ghost use Rattle.ra_stamp.specs.declared.message.Message.{Message};
ghost use Rattle.ra_stamp.specs.declared.entry.Mark.{Mark};

use crate::Step;
use crate::world::step_log::StepLog;
use ra_bag::{Bag, Found};
use ra_node::{Node, Outcome};
use ra_stamp::{Marks, Memory, Message, Messages};
use std::alloc::Global;

/// What a world keeps of its steps.
#[derive(Drop)]
pub struct KeptSteps<const KEEPS_MARKS: u8> {
    /// The messages under way.
    pub under_way: Bag,
    /// The outcome of the steps.
    pub log: StepLog<KEEPS_MARKS>,
}

impl<const KEEPS_MARKS: u8> KeptSteps<KEEPS_MARKS> {
    ghost use Rattle.ra_node.specs.Node.{NodeState};
    ghost use Rattle.ra_node.specs.Events.{ReceiveEvent};
    ghost use Rattle.ra_node.specs.Memory.{BringsNothing};
    ghost use Rattle.ra_world.specs.World.{IsFull};
    ghost use Rattle.ra_world.specs.StepLog.{HasRoom};
    ghost use Rattle.ra_world.specs.Trying.{TakesEqual};

    /// Makes room for a step with at most this many messages and marks.
    ///
    /// # Errors
    ///
    /// `Memory`. Room for no message and no mark is refused only if 2^64-1 steps were made.
    pub fn make_room(&mut self, sends: u64, marks: u64) -> Result<(), Memory>
        ensures messages { self.new.under_way.items ≡ self.old.under_way.items }
        ensures moves { self.new.log.moves ≡ self.old.log.moves }
        ensures bag_room { OnOk result (sends ≤ self.new.under_way.spare) }
        ensures log_room { OnOk result (HasRoom self.new.log marks) }
        ensures err { OnErr result ((1 ≤ sends) ⊎ (1 ≤ marks) ⊎ IsFull self.old.log.moves) }
    {
        if sends > 0 {
            self.under_way.reserve(sends)?;
        }
        self.log.reserve(marks)
    }

    /// Makes room for what a message brings at its node: one message for a REQUEST, and one mark for a REPLY. The node
    /// is asked whether the message brings anything only if there is no such room, since that costs another look at its
    /// resource.
    ///
    /// # Errors
    ///
    /// `Memory`. It is returned only if the message brings something or 2^64-1 steps were made.
    pub fn make_room_for(&mut self, receiver: &Node, message: &Message) -> Result<(), Memory>
        ensures messages { self.new.under_way.items ≡ self.old.under_way.items }
        ensures moves { self.new.log.moves ≡ self.old.log.moves }
        ensures room { OnOk result ((sends : List Message) (marks : List Mark) (new : NodeState)
            → ReceiveEvent receiver.now message.now sends marks new
            → (length sends ≤ self.new.under_way.spare) × HasRoom self.new.log (length marks)) }
        ensures err { OnErr result ((BringsNothing receiver.now message.now → ⊥) ⊎ IsFull self.old.log.moves) }
    {
        // A REQUEST brings at most one REPLY, and a REPLY lets at most one request enter.
        let (replies, entries) = match message {
            Message::Request { .. } => (1, 0),
            Message::Reply { .. } => (0, 1),
        };
        if let Ok(()) = self.make_room(replies, entries) {
            return Ok(());
        }
        if !receiver.brings_nothing(message) {
            return Err(Memory);
        }
        self.make_room(0, 0)
    }

    /// Puts what a step sent under way and logs the step, for which there is room.
    #[inline(always)]
    pub fn keep(&mut self, step: &Step, outcome: &Outcome)
        requires bag_room { length outcome.now.sends.items ≤ self.old.under_way.spare }
        requires log_room { HasRoom self.old.log (length outcome.now.marks.items) }
        ensures messages { self.new.under_way.items ≡ self.old.under_way.items ++ outcome.now.sends.items }
        ensures moves { self.new.log.moves ≡ self.old.log.moves
            ++ record { step = step.now; sends = outcome.now.sends.items; marks = outcome.now.marks.items } ∷ [] }
    {
        self.under_way.put_all(&outcome.sends).unwrap();
        self.log.push(step, outcome);
    }

    /// Logs a step that touches no node, for which there is room, and returns its empty outcome.
    pub fn keep_nothing(&mut self, alloc: Global, step: &Step) -> Outcome
        requires { HasRoom self.old.log 0 }
        ensures nothing { (result.sends.items ≡ []) × (result.marks.items ≡ []) }
        ensures messages { self.new.under_way ≡ self.old.under_way }
        ensures moves { self.new.log.moves ≡ self.old.log.moves
            ++ record { step = step.now; sends = []; marks = [] } ∷ [] }
    {
        let outcome = Outcome {
            sends: Messages::new(alloc),
            marks: Marks::new(alloc),
        };
        self.log.push(step, &outcome);
        outcome
    }

    /// Takes the first message that is equal to this one from those under way. If nothing was repeated it is the only
    /// one, and it is where it was found.
    #[inline(always)]
    pub fn take(&mut self, found: Found, message: &Message)
        requires { Contains self.old.under_way.items message.now }
        ensures taken { TakesEqual self.old.log.moves self.old.under_way.items message.now self.new.under_way.items }
        ensures spare { self.old.under_way.spare ≤ self.new.under_way.spare }
        ensures log { self.new.log ≡ self.old.log }
    {
        if self.log.counts().repeated == 0 {
            self.under_way.take_from(found, message);
        } else {
            self.under_way.take(message);
        }
    }
}

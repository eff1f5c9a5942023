pub mod at_node;
pub mod kept_steps;
pub mod node_places;
pub mod run_steps;
pub mod step_log;

ghost use Rattle.std.specs.Prelude.{◌≡◌, ◌↔◌, [], List, length, slice_get, option_copied, string_bytes, IsTrue, IsErrOf, IfOk, OnOk};
ghost use Rattle.ra_stamp.specs.declared.message.Message.{Message};

use crate::text::report::Figures;
use crate::text::state_lines::state_text;
use crate::world::at_node::{ask_at, cancel_at, forget_at, leave_at, receive_at};
use crate::world::kept_steps::KeptSteps;
use crate::world::node_places::{opening_nodes, place_of, queued_at, waiting_at};
use crate::world::step_log::{StepLog, append};
use crate::{NewError, Report, Step, StepError};
use ra_bag::Bag;
use ra_node::{Node, Outcome};
use ra_stamp::{Marks, Memory, Message, Mode, Name, NodeCount, NodeId};
use std::alloc::Global;
use std::marker::Model;

/// A world that keeps the marks of its steps, and can report them.
pub type World = WorldOf<1>;

/// A world that keeps no marks, for a caller that looks at the marks of each step as it is made. Its memory does not
/// grow with the marks.
pub type MarklessWorld = WorldOf<0>;

/// A cluster of nodes in one thread, with the messages under way between them. Contracts see the number of nodes, the
/// start value, and the steps so far with what they sent and marked, which are a run.
///
/// If `KEEPS_MARKS` is 1 the world keeps the marks of its steps. (It is a number because the invariant of a type cannot
/// be stated over a bool.) It keeps the messages under way, but only counts the steps and all messages sent.
pub struct WorldOf<const KEEPS_MARKS: u8> {
    start: u64,
    /// The nodes by their numbers, from 1.
    nodes: Vec<Node>,
    /// What is kept of the steps.
    kept: KeptSteps<KEEPS_MARKS>,
}

// What it owns is freed here, so that no other crate proves how each of its parts is dropped.
impl<const KEEPS_MARKS: u8> Drop for WorldOf<KEEPS_MARKS> {
    fn drop(self) {
        let WorldOf {
            start: _,
            nodes: _,
            kept: _,
        } = self;
    }
}

impl<const KEEPS_MARKS: u8> Model for WorldOf<KEEPS_MARKS> {
    ghost use Rattle.ra_world.specs.World.{WorldState};
    ghost use Rattle.ra_world.specs.Keeping.{world_of, IsKept};

    ghost Value = { WorldState };

    ghost view = { world_of };

    ghost invariant = { IsKept };
}

impl<const KEEPS_MARKS: u8> WorldOf<KEEPS_MARKS> {
    ghost use Rattle.ra_stamp.specs.NodeId.{IsNodeNumber};
    ghost use Rattle.ra_world.specs.Traffic.{LeavesUnderWay, sent_by};
    ghost use Rattle.ra_world.specs.Quiet.{requests_in};
    ghost use Rattle.ra_world.specs.Run.{IsRun, GoesOn, marks_of};
    ghost use Rattle.ra_world.specs.World.{AnswersStep, AreWaiting, AreQueued, IsNodeAfter};
    ghost use Rattle.ra_world.specs.StateLines.{IsStateText};
    ghost use Rattle.ra_world.specs.Keeping.{Tries};

    /// Makes a world of this many nodes. Nothing has happened yet in it. The highest number of each resource begins
    /// at `start`, 0 to 2^64-1. The cost is linear in the number of nodes.
    ///
    /// # Errors
    ///
    /// The first that holds:
    ///
    /// 1. `BadCount`: the number of nodes is not 1 to 64.
    /// 2. `Memory`: there is no room for the nodes.
    pub fn new(alloc: Global, nodes: u16, start: u64) -> Result<WorldOf<KEEPS_MARKS>, NewError>
        ensures ok { IfOk result (λ world. world ≡ record { count = nodes; start = start; moves = [] }) }
        ensures run { IfOk result (λ world. IsRun world.count world.start world.moves) }
        ensures count { OnOk result (IsNodeNumber nodes) }
        ensures bad_count { IsErrOf result NewError.BadCount ↔ (IsNodeNumber nodes → ⊥) }
    {
        let Some(count) = NodeCount::new(nodes) else {
            return Err(NewError::BadCount);
        };
        let opened = opening_nodes(alloc, count, start)?;
        let under_way = Bag::new(alloc)?;
        Ok(WorldOf {
            start,
            nodes: opened,
            kept: KeptSteps {
                under_way,
                log: StepLog::new(alloc),
            },
        })
    }

    /// Returns how many nodes there are, 1 to 64. It does not allocate.
    pub fn count(&self) -> u16
        ensures value { result ≡ self.now.count }
        ensures run { IsRun self.now.count self.now.start self.now.moves }
        ensures count { IsNodeNumber self.now.count }
    {
        self.nodes.len() as u16
    }

    /// Returns the highest number with which each resource began, 0 to 2^64-1. It does not allocate.
    pub fn start(&self) -> u64
        ensures value { result ≡ self.now.start }
        ensures run { IsRun self.now.count self.now.start self.now.moves }
        ensures count { IsNodeNumber self.now.count }
    {
        self.start
    }

    /// Returns the node with this number as it is after the steps so far, or `None` if there is no such node. It does
    /// not allocate.
    pub fn node(&self, node: NodeId) -> Option<&Node>
        ensures value { IsNodeAfter self.now.count self.now.start self.now.moves node (option_copied result) }
        ensures run { IsRun self.now.count self.now.start self.now.moves }
        ensures count { IsNodeNumber self.now.count }
    {
        let nodes = &self.nodes;
        nodes.get(node.place())
    }

    /// Makes a step, and returns the messages that it sent, which are now under way, and its marks. A loss, a repeat
    /// and a forget send and mark nothing. The cost is that of the node's event, plus an amortized constant for finding
    /// and taking a message; it does not depend on the steps so far. If the message is not under way, or there was no
    /// memory to index the messages, the cost is linear in the number of messages under way.
    ///
    /// # Errors
    ///
    /// The first that holds, and the world is as before:
    ///
    /// 1. `NoNode`: an ask, a leave, a cancel or a forget names a node above the number of nodes.
    /// 2. `NotUnderWay`: a message that is to be delivered, lost or repeated is not under way.
    /// 3. `Node`: the node refuses an ask (`Busy`, `Exhausted`), a leave (`NotHeld`) or a cancel (`NotWaiting`).
    /// 4. `Memory`: there is no room for what the step makes, or 2^64-1 steps were made, since no more are counted. A
    ///    loss, a forget, and a message that makes its node send and mark nothing, are never refused for lack of room.
    pub fn step(&mut self, alloc: Global, step: &Step) -> Result<Outcome, StepError>
        ensures { AnswersStep self.old step.now result self.new }
    {
        self.step_near(alloc, step, 0)
    }

    /// Makes a step as `step` does, but first looks for the message that is to be delivered, lost or repeated at the
    /// place `near`, counted from 0 in the order of sending. There it is found without a search. As long as all
    /// messages were found this way, at most 512 were under way, and none was repeated, taking one is linear in its
    /// distance from the nearer end, and `message_at` takes constant time. Among more, taking one takes amortized
    /// constant time, and `message_at` goes through counts of thousands of messages. After a repeat, the first of equal
    /// messages is taken, wherever it is.
    ///
    /// # Errors
    ///
    /// Those of `step`.
    #[inline(always)]
    pub fn step_near(&mut self, alloc: Global, step: &Step, near: u64) -> Result<Outcome, StepError>
        ensures { AnswersStep self.old step.now result self.new }
    {
        // For the proof: before the step, the steps so far are a run.
        let _ = &self.start;
        match step {
            Step::Ask {
                node,
                client,
                name,
                mode,
            } => self.ask(alloc, step, *node, *client, name, *mode),
            Step::Leave { node, client, name } => self.leave(alloc, step, *node, *client, name),
            Step::Cancel { node, client, name } => self.cancel(alloc, step, *node, *client, name),
            Step::Forget { node } => self.forget(alloc, step, *node),
            Step::Deliver(message) => self.deliver(alloc, step, message, near),
            Step::Lose(message) => self.lose(alloc, step, message, near),
            Step::Repeat(message) => self.repeat(alloc, step, message, near),
        }
    }

    /// Returns whether `step` would make this step, unless memory runs out. It does not allocate. The cost is that of a
    /// look at the node's resource, or linear in the number of messages under way.
    pub fn accepts(&self, step: &Step) -> bool
        ensures value { IsTrue result ↔ GoesOn self.now.count self.now.start self.now.moves step.now }
        ensures run { IsRun self.now.count self.now.start self.now.moves }
        ensures count { IsNodeNumber self.now.count }
    {
        match *step {
            Step::Ask {
                node,
                client,
                name,
                ..
            } => match place_of(&self.nodes, node) {
                Some(place) => self.nodes[place].may_ask(client, &name).is_ok(),
                None => false,
            },
            Step::Leave { node, client, name } => match place_of(&self.nodes, node) {
                Some(place) => self.nodes[place].is_held_by(client, &name),
                None => false,
            },
            Step::Cancel { node, client, name } => match place_of(&self.nodes, node) {
                Some(place) => self.nodes[place].is_kept_waiting(client, &name),
                None => false,
            },
            Step::Forget { node } => place_of(&self.nodes, node).is_some(),
            Step::Deliver(message) | Step::Lose(message) | Step::Repeat(message) => {
                self.kept.under_way.contains(&message)
            }
        }
    }

    /// Returns the message under way at this place, counted from 0 in the order of sending, or `None` past the end. It
    /// does not allocate. The cost is constant if `step_near` found the messages taken so far at their places and at
    /// most 512 were under way, and otherwise at most linear in the number of messages under way.
    pub fn message_at(&self, place: u64) -> Option<Message>
        ensures value { (left : List Message) × LeavesUnderWay self.now.moves left
            × (result ≡ slice_get left place) }
        ensures run { IsRun self.now.count self.now.start self.now.moves }
        ensures count { IsNodeNumber self.now.count }
    {
        self.kept.under_way.at(place)
    }

    /// Returns how many messages are under way. It does not allocate.
    pub fn under_way(&self) -> u64
        ensures value { (left : List Message) × LeavesUnderWay self.now.moves left × (result ≡ length left) }
        ensures run { IsRun self.now.count self.now.start self.now.moves }
        ensures count { IsNodeNumber self.now.count }
    {
        self.kept.under_way.len()
    }

    /// Returns how many requests wait. It does not allocate. The cost is linear in the number of nodes.
    pub fn waiting(&self) -> u128
        ensures value { AreWaiting self.now.count self.now.start self.now.moves result }
        ensures run { IsRun self.now.count self.now.start self.now.moves }
        ensures count { IsNodeNumber self.now.count }
    {
        waiting_at(&self.nodes)
    }

    /// Returns how many clients are queued. It does not allocate. The cost is linear in the number of nodes.
    pub fn queued(&self) -> u128
        ensures value { AreQueued self.now.count self.now.start self.now.moves result }
        ensures run { IsRun self.now.count self.now.start self.now.moves }
        ensures count { IsNodeNumber self.now.count }
    {
        // For the proof: there are at most as many queued clients as steps, so their count fits.
        let _ = self.kept.log.len();
        queued_at(&self.nodes)
    }

    /// Returns how many steps were made. It does not allocate.
    pub fn steps(&self) -> u64
        ensures value { result ≡ length self.now.moves }
        ensures run { IsRun self.now.count self.now.start self.now.moves }
        ensures count { IsNodeNumber self.now.count }
    {
        self.kept.log.len()
    }

    /// Returns how many requests were made. It does not allocate. (`report` does, since it copies all marks.)
    pub fn requests(&self) -> u128
        ensures value { result ≡ requests_in (marks_of self.now.moves) }
        ensures run { IsRun self.now.count self.now.start self.now.moves }
        ensures count { IsNodeNumber self.now.count }
    {
        self.kept.log.counts().requests
    }

    /// Returns how many messages were sent. It does not allocate.
    pub fn sent(&self) -> u128
        ensures value { result ≡ length (sent_by self.now.moves) }
        ensures run { IsRun self.now.count self.now.start self.now.moves }
        ensures count { IsNodeNumber self.now.count }
    {
        self.kept.log.counts().sent
    }

    /// Returns the lines of the state after the steps so far: how many they were, what each node knows of each of these
    /// names, the messages under way, these lines about clients, and the requests on these names that wait and hold. So
    /// these are the whole lock table only if `names` has each name on which a request waits or holds. The cost is
    /// linear in the text and in the product of the numbers of nodes and names, and for a name on which a node has a
    /// request linear in the number of nodes. Finding the messages takes what `message_at` takes for each.
    ///
    /// # Errors
    ///
    /// `Memory`: memory ran out.
    pub fn state_text(&self, alloc: Global, names: &[Name], clients: &str) -> Result<String, Memory>
        ensures ok { IfOk result (λ text. IsStateText self.now.count self.now.start self.now.moves names.now clients.now
            (string_bytes text)) }
        ensures run { IsRun self.now.count self.now.start self.now.moves }
        ensures count { IsNodeNumber self.now.count }
    {
        let steps = self.kept.log.len();
        state_text(
            alloc,
            steps,
            &self.nodes,
            &self.kept.under_way,
            names,
            clients,
        )
    }

    /// Makes the step in which a client asks for a name at a node.
    fn ask(
        &mut self,
        alloc: Global,
        step: &Step,
        node: NodeId,
        client: u32,
        name: &Name,
        mode: Mode,
    ) -> Result<Outcome, StepError>
        requires { step.now ≡ Step.Ask node client name.now mode }
        ensures tried { Tries self.old (Step.Ask node client name.now mode) result self.new }
        ensures run { IsRun self.new.count self.new.start self.new.moves }
        ensures count { IsNodeNumber self.new.count }
    {
        let Some(place) = place_of(&self.nodes, node) else {
            return Err(StepError::NoNode);
        };
        // A REQUEST is sent to each other node.
        let sends = self.nodes.len() as u64;
        let node = &mut self.nodes[place];
        ask_at(node, &mut self.kept, alloc, sends, step, client, name, mode)
    }

    /// Makes the step in which a client leaves a name at a node.
    fn leave(
        &mut self,
        alloc: Global,
        step: &Step,
        node: NodeId,
        client: u32,
        name: &Name,
    ) -> Result<Outcome, StepError>
        requires { step.now ≡ Step.Leave node client name.now }
        ensures tried { Tries self.old (Step.Leave node client name.now) result self.new }
        ensures run { IsRun self.new.count self.new.start self.new.moves }
        ensures count { IsNodeNumber self.new.count }
    {
        let Some(place) = place_of(&self.nodes, node) else {
            return Err(StepError::NoNode);
        };
        // The deferred REPLYs and the next request are sent.
        let sends = 2 * self.nodes.len() as u64;
        let node = &mut self.nodes[place];
        leave_at(node, &mut self.kept, alloc, sends, step, client, name)
    }

    /// Makes the step in which a client gives up a name at a node.
    fn cancel(
        &mut self,
        alloc: Global,
        step: &Step,
        node: NodeId,
        client: u32,
        name: &Name,
    ) -> Result<Outcome, StepError>
        requires { step.now ≡ Step.Cancel node client name.now }
        ensures tried { Tries self.old (Step.Cancel node client name.now) result self.new }
        ensures run { IsRun self.new.count self.new.start self.new.moves }
        ensures count { IsNodeNumber self.new.count }
    {
        let Some(place) = place_of(&self.nodes, node) else {
            return Err(StepError::NoNode);
        };
        // The deferred REPLYs and the next request are sent.
        let sends = 2 * self.nodes.len() as u64;
        let node = &mut self.nodes[place];
        cancel_at(node, &mut self.kept, alloc, sends, step, client, name)
    }

    /// Makes the step in which a node forgets names.
    fn forget(&mut self, alloc: Global, step: &Step, node: NodeId) -> Result<Outcome, StepError>
        requires { step.now ≡ Step.Forget node }
        ensures tried { Tries self.old (Step.Forget node) result self.new }
        ensures run { IsRun self.new.count self.new.start self.new.moves }
        ensures count { IsNodeNumber self.new.count }
    {
        let Some(place) = place_of(&self.nodes, node) else {
            return Err(StepError::NoNode);
        };
        let node = &mut self.nodes[place];
        forget_at(node, &mut self.kept, alloc, step)
    }

    /// Makes the step in which a message under way reaches its node.
    fn deliver(
        &mut self,
        alloc: Global,
        step: &Step,
        message: &Message,
        near: u64,
    ) -> Result<Outcome, StepError>
        requires { step.now ≡ Step.Deliver message.now }
        ensures tried { Tries self.old (Step.Deliver message.now) result self.new }
        ensures run { IsRun self.new.count self.new.start self.new.moves }
        ensures count { IsNodeNumber self.new.count }
    {
        let Some(found) = self.kept.under_way.find(message, near) else {
            return Err(StepError::NotUnderWay);
        };
        // A message under way is for one of the nodes.
        let Some(place) = place_of(&self.nodes, message.to()) else {
            unreachable!()
        };
        let receiver = &mut self.nodes[place];
        receive_at(receiver, &mut self.kept, alloc, step, found, message)
    }

    /// Makes the step in which a message under way is lost.
    fn lose(
        &mut self,
        alloc: Global,
        step: &Step,
        message: &Message,
        near: u64,
    ) -> Result<Outcome, StepError>
        requires { step.now ≡ Step.Lose message.now }
        ensures tried { Tries self.old (Step.Lose message.now) result self.new }
        ensures run { IsRun self.new.count self.new.start self.new.moves }
        ensures count { IsNodeNumber self.new.count }
    {
        let Some(found) = self.kept.under_way.find(message, near) else {
            return Err(StepError::NotUnderWay);
        };
        self.kept.make_room(0, 0)?;
        self.kept.take(found, message);
        Ok(self.kept.keep_nothing(alloc, step))
    }

    /// Makes the step in which a copy of a message under way is put under way, after all others.
    fn repeat(
        &mut self,
        alloc: Global,
        step: &Step,
        message: &Message,
        near: u64,
    ) -> Result<Outcome, StepError>
        requires { step.now ≡ Step.Repeat message.now }
        ensures tried { Tries self.old (Step.Repeat message.now) result self.new }
        ensures run { IsRun self.new.count self.new.start self.new.moves }
        ensures count { IsNodeNumber self.new.count }
    {
        let Some(_) = self.kept.under_way.find(message, near) else {
            return Err(StepError::NotUnderWay);
        };
        self.kept.make_room(1, 0)?;
        // There is room for the copy.
        self.kept.under_way.put(&[*message]).unwrap();
        Ok(self.kept.keep_nothing(alloc, step))
    }
}

impl WorldOf<1> {
    ghost use Rattle.ra_stamp.specs.NodeId.{IsNodeNumber};
    ghost use Rattle.ra_stamp.specs.Sequence.{Listed};
    ghost use Rattle.ra_stamp.specs.declared.entry.Mark.{Mark};
    ghost use Rattle.ra_world.specs.Run.{IsRun, marks_of};
    ghost use Rattle.ra_world.specs.Keeping.{report_with};
    ghost use Rattle.ra_world.specs.World.{Reports};
    ghost use Rattle.ra_world.specs.MainTheorem.{MainTheorem};

    /// Reports on the steps so far. The cost is linear in the number of marks and of nodes.
    ///
    /// # Errors
    ///
    /// `Memory`: there is no room for a copy of the marks.
    pub fn report(&self, alloc: Global) -> Result<Report, Memory>
        ensures ok { IfOk result (Reports self.now.count self.now.start self.now.moves) }
        ensures run { IsRun self.now.count self.now.start self.now.moves }
        ensures count { IsNodeNumber self.now.count }
        ensures main_theorem { IfOk result (MainTheorem self.now.count) }
    {
        let figures = self.figures();
        let kept = self.kept.log.marks();
        let mut marks = Marks::new(alloc);
        marks.reserve(kept.len())?;
        append(&mut marks, kept.as_slice());
        Ok(figures.with_marks(marks))
    }

    /// Ends the world, and reports on its steps, as `report` does. The marks are moved and not copied, so it
    /// takes no memory. The cost is linear in the number of nodes, beside what it takes to give the world's memory
    /// back.
    pub fn into_report(self) -> Report
        ensures report { Reports self.count self.start self.moves result }
        ensures run { IsRun self.count self.start self.moves }
        ensures count { IsNodeNumber self.count }
        ensures main_theorem { MainTheorem self.count result }
    {
        let figures = self.figures();
        let WorldOf {
            start: _,
            nodes: _,
            kept,
        } = self;
        let marks = kept.log.into_marks();
        figures.with_marks(marks)
    }

    /// Returns the figures of a report. It does not allocate. The cost is linear in the number of nodes.
    fn figures(&self) -> Figures
        ensures figures { (marks : Listed Mark) → marks.items ≡ marks_of self.now.moves
            → Reports self.now.count self.now.start self.now.moves (report_with result marks) }
        ensures run { IsRun self.now.count self.now.start self.now.moves }
        ensures count { IsNodeNumber self.now.count }
    {
        // For the proof: there are at most as many queued clients as steps, so their count fits.
        let _ = self.kept.log.len();
        let counts = self.kept.log.counts();
        Figures {
            sent: counts.sent,
            requests: counts.requests,
            under_way: u128::from(self.kept.under_way.len()),
            lost: u128::from(counts.lost),
            repeated: u128::from(counts.repeated),
            withdrawn: counts.withdrawn,
            waiting: waiting_at(&self.nodes),
            queued: queued_at(&self.nodes),
        }
    }
}

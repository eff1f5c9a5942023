//! What the steps of a world so far sent and marked.
ghost use Rattle.std.specs.Prelude.{◌≡◌, ◌+◌, ◌≤◌, ◌⊎◌, [], ◌∷◌, ◌++◌, length, OnOk, OnErr};
ghost use Rattle.ra_stamp.specs.declared.entry.Mark.{Mark};
ghost use Rattle.ra_world.specs.Traffic.{lost_in, repeated_in};
ghost use Rattle.ra_world.specs.Quiet.{requests_in, withdrawn_in};

use crate::Step;
use ra_node::Outcome;
use ra_stamp::{GhostList, Mark, Marks, Memory, Sequence};
use std::alloc::Global;
use std::marker::Model;

/// What the steps so far sent and marked. The steps themselves are counted and not kept, and their marks are kept if
/// `KEEPS_MARKS` is 1. Contracts see the moves, and the room for more marks.
#[derive(Drop)]
pub struct StepLog<const KEEPS_MARKS: u8> {
    /// How many steps there were.
    steps: u64,
    /// All marks of the steps, in order, if they are kept, and otherwise none.
    marks: Marks,
    /// How many messages the steps sent.
    sent: u128,
    /// How many of the marks of the steps are Requested.
    requests: u128,
    /// How many of the steps are losses.
    lost: u64,
    /// How many of the steps are repeats.
    repeated: u64,
    /// How many of the marks of the steps are Withdrawn.
    withdrawn: u128,
    /// Each step with what it sent and marked, for proofs alone.
    made: GhostList<(Step, Outcome)>,
}

/// What a log counts of its steps.
#[derive(Clone, Copy)]
pub struct Counts {
    /// How many messages the steps sent.
    pub sent: u128,
    /// How many requests they made.
    pub requests: u128,
    /// How many messages were lost.
    pub lost: u64,
    /// How many copies of messages were put under way.
    pub repeated: u64,
    /// How many requests were withdrawn.
    pub withdrawn: u128,
}

impl<const KEEPS_MARKS: u8> Model for StepLog<KEEPS_MARKS> {
    ghost use Rattle.ra_world.specs.StepLog.{LogState, moves_of, room_of, AreCounted};

    ghost Value = { LogState };

    ghost view = { λ l. record {
      moves = moves_of l.made.items;
      marks_room = room_of KEEPS_MARKS l.marks.spare;
    } };

    ghost invariant = { λ l.
        AreCounted KEEPS_MARKS (moves_of l.made.items) l.steps l.marks.items l.sent l.requests l.lost l.repeated
        l.withdrawn };
}

impl<const KEEPS_MARKS: u8> StepLog<KEEPS_MARKS> {
    ghost use Rattle.ra_world.specs.StepLog.{HasRoom};
    ghost use Rattle.ra_world.specs.Traffic.{sent_by, lost_by, repeated_by};
    ghost use Rattle.ra_world.specs.Run.{marks_of};
    ghost use Rattle.ra_world.specs.World.{IsFull};

    /// Makes the log of no step.
    pub fn new(alloc: Global) -> StepLog<KEEPS_MARKS>
        ensures { result.moves ≡ [] }
    {
        StepLog {
            steps: 0,
            marks: Marks::new(alloc),
            sent: 0,
            requests: 0,
            lost: 0,
            repeated: 0,
            withdrawn: 0,
            made: GhostList::new(),
        }
    }

    /// Returns how many steps there were.
    pub fn len(&self) -> u64
        ensures { result ≡ length self.now.moves }
    {
        self.steps
    }

    /// Returns what is counted of the steps beside how many there were.
    #[inline(always)]
    pub fn counts(&self) -> Counts
        ensures sent { result.sent ≡ length (sent_by self.now.moves) }
        ensures requests { result.requests ≡ requests_in (marks_of self.now.moves) }
        ensures lost { result.lost ≡ length (lost_by self.now.moves) }
        ensures repeated { result.repeated ≡ length (repeated_by self.now.moves) }
        ensures withdrawn { result.withdrawn ≡ withdrawn_in (marks_of self.now.moves) }
    {
        Counts {
            sent: self.sent,
            requests: self.requests,
            lost: self.lost,
            repeated: self.repeated,
            withdrawn: self.withdrawn,
        }
    }

    /// Returns the marks of the steps, in order, if they are kept.
    pub fn marks(&self) -> &Marks
        ensures { KEEPS_MARKS ≡ 1 → result.now.items ≡ marks_of self.now.moves }
    {
        &self.marks
    }

    /// Takes the marks of the steps, in order, out of the log if they are kept.
    pub fn into_marks(self) -> Marks
        ensures { KEEPS_MARKS ≡ 1 → result.items ≡ marks_of self.entry.moves }
    {
        self.marks
    }

    /// Makes room for one step with this many marks. If the room has to grow, the cost is linear in the marks that are
    /// kept. As the room doubles, that is amortized constant for each mark added.
    ///
    /// # Errors
    ///
    /// `Memory`, also if there were 2^64-1 steps: the steps are as before. For no mark it is answered only then.
    pub fn reserve(&mut self, marks: u64) -> Result<(), Memory>
        ensures same { self.new.moves ≡ self.old.moves }
        ensures ok { OnOk result (HasRoom self.new marks) }
        ensures err { OnErr result ((1 ≤ marks) ⊎ IsFull self.old.moves) }
    {
        if self.steps == u64::MAX {
            return Err(Memory);
        }
        if KEEPS_MARKS != 1 || marks == 0 {
            return Ok(());
        }
        self.marks.reserve(marks)
    }

    /// Adds a step with what it sent and marked, for which there is room.
    pub fn push(&mut self, step: &Step, outcome: &Outcome)
        requires { HasRoom self.old (length outcome.now.marks.items) }
        ensures { self.new.moves ≡ self.old.moves
            ++ record { step = step.now; sends = outcome.now.sends.items; marks = outcome.now.marks.items } ∷ [] }
    {
        self.steps += 1;
        keep_marks::<KEEPS_MARKS>(&mut self.marks, outcome.marks.as_slice());
        // The counts fit: no list has 2^64 items, and there are no more losses, nor repeats, than steps.
        self.sent += u128::from(outcome.sends.len());
        let (requests, withdrawn) = changes_of(outcome.marks.as_slice());
        self.requests += u128::from(requests);
        self.withdrawn += u128::from(withdrawn);
        let (lost, repeated) = fates_of(step);
        self.lost += lost;
        self.repeated += repeated;
        self.made = self.made.and_pair(step, outcome);
    }
}

/// Returns how many messages the step loses, and how many copies it puts under way: none or one of each.
fn fates_of(step: &Step) -> (u64, u64)
    ensures lost { result.0 ≡ length (lost_in step.now) }
    ensures repeated { result.1 ≡ length (repeated_in step.now) }
{
    match step {
        Step::Lose(_) => (1, 0),
        Step::Repeat(_) => (0, 1),
        Step::Ask { .. }
        | Step::Leave { .. }
        | Step::Cancel { .. }
        | Step::Deliver(_)
        | Step::Forget { .. } => (0, 0),
    }
}

/// Adds the marks of a step to those that are kept, if any are. There is room for them.
fn keep_marks<const KEEPS_MARKS: u8>(kept: &mut Marks, marks: &[Mark])
    requires { KEEPS_MARKS ≡ 1 → length marks.now ≤ kept.old.spare }
    ensures { KEEPS_MARKS ≡ 1 → kept.new.items ≡ kept.old.items ++ marks.now }
{
    if KEEPS_MARKS == 1 {
        append(kept, marks);
    }
}

/// Adds items to a list that has room for them.
pub fn append<T: Copy>(list: &mut Sequence<T>, items: &[T])
    requires { length items.now ≤ list.old.spare }
    ensures { list.new.items ≡ list.old.items ++ items.now }
{
    for item in items {
        list.push(*item).unwrap();
    }
}

/// Returns how many of the marks are Requested, and how many are Withdrawn.
fn changes_of(marks: &[Mark]) -> (u64, u64)
    ensures requests { result.0 ≡ requests_in marks.now }
    ensures withdrawn { result.1 ≡ withdrawn_in marks.now }
{
    let mut requests = 0;
    let mut withdrawn = 0;
    for mark in marks {
        match mark {
            Mark::Requested(_) => requests += 1,
            Mark::Withdrawn(_) => withdrawn += 1,
            _ => {}
        }
    }
    (requests, withdrawn)
}

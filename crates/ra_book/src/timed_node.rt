//! A node and its clock.
ghost use Rattle.std.specs.Prelude.{◌≡◌, MatchResult, IfOk};

use crate::book::event_check::event_refusal;
use crate::book::kept_events::clock_after;
use crate::{BookError, BookKind};
use ra_node::{Node, Outcome};
use ra_stamp::{Marks, Member, Messages};
use std::alloc::Global;
use std::marker::Model;

/// A node and its clock, and no history: what it takes does not grow with the number of events, but with the names
/// that it meets.
#[derive(Drop)]
pub struct TimedNode {
    node: Node,
    clock: u64,
}

impl Model for TimedNode {
    ghost use Rattle.ra_node.specs.contracts.node.Node as kept_nodes;
    ghost use Rattle.ra_book.specs.Timed.{Timed, timed_code, timed_of, IsTimed};

    ghost Value = { Timed };

    ghost coded = { timed_code kept_nodes.the_row.coded };

    ghost view = { timed_of };

    ghost invariant = { IsTimed };
}

impl TimedNode {
    ghost use Rattle.ra_book.specs.Timed.{CanCome, FitAt, Takes, Refuses, opening};

    /// Makes the node of a member, which has met nothing. The highest number of each resource begins at `start`. It
    /// does not allocate.
    pub fn new(alloc: Global, member: Member, start: u64) -> TimedNode
        ensures { result ≡ opening member.node member.nodes start }
    {
        TimedNode {
            node: Node::of(alloc, member, start),
            clock: 0,
        }
    }

    /// Returns the clock of the last event, or 0 if there was none. It does not allocate.
    pub fn clock(&self) -> u64
        ensures { result ≡ self.now.clock }
    {
        self.clock
    }

    /// Makes an event happen: the node takes it, and its clock goes on. Returns what the event sends and marks. It
    /// costs what the node's call costs.
    ///
    /// # Errors
    ///
    /// The first that holds, and the node is as before:
    ///
    /// 1. `Busy`, `Exhausted`, `NotHeld`, `NotWaiting`, `WrongNode`, `Stranger`: the node's call refuses it.
    /// 2. `ClockFull`: the clock would pass 2^62.
    /// 3. `Memory`: the call can be made again.
    pub fn take(&mut self, alloc: Global, kind: &BookKind) -> Result<Outcome, BookError>
        requires { CanCome kind.now }
        ensures taken { MatchResult result
            (λ outcome. Takes self.old kind.now outcome.sends.items outcome.marks.items self.new)
            (λ why. (self.new ≡ self.old) × Refuses self.old kind.now why) }
        ensures fits { IfOk result (λ outcome. FitAt self.new.clock outcome.sends.items) }
    {
        let Ok(next) = clock_after(self.clock, kind) else {
            return Err(event_refusal(&self.node, self.clock, kind));
        };
        let outcome = match kind {
            BookKind::Ask { client, name, mode } => self.node.ask(alloc, *client, *name, *mode)?,
            BookKind::Leave { client, name } => self.node.leave(alloc, *client, *name)?,
            BookKind::Cancel { client, name } => self.node.cancel(alloc, *client, *name)?,
            BookKind::Receive(frame) => self.node.receive(alloc, &frame.message)?,
            BookKind::Forget => {
                self.node.forget();
                Outcome {
                    sends: Messages::new(alloc),
                    marks: Marks::new(alloc),
                }
            }
        };
        self.clock = next;
        Ok(outcome)
    }
}

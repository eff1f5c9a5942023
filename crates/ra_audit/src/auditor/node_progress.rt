//! How far the events of a node are in the run of an auditor.
ghost use Rattle.std.specs.Prelude.{◌≡◌, ◌≢◌, ◌↔◌, ◌<◌, ◌∷◌, ◌++◌, true, [], List, Some, length, slice_get, IsTrue, IsErrOf, IfSome, OnOk, OnErr, MatchOption};
ghost use Rattle.ra_book.specs.History.{clock_of, clock_from};
ghost use Rattle.ra_book.specs.declared.book.event.BookEvent.{BookEvent};
ghost use Rattle.ra_frame.specs.declared.frame.Frame.{Frame};
ghost use Rattle.ra_site.specs.Handing.{IsLeftOfBook};
ghost use Rattle.ra_site.specs.Sites.{site_at};
ghost use Rattle.ra_audit.specs.Audit.{AreNextAt, IsNextAt, IsForNumber, KeptAreNext, TakesOver, fresh_progress, handed_over, taken_of};

use crate::auditor::noted_losses::Losses;
use ra_site::{BookEvent, BookKind, Events, Handed, Site, TakeError, clock_after};
use ra_stamp::{GhostList, Memory, NodeId};
use std::alloc::Global;
use std::collections::VecDeque;
use std::marker::Model;
use std::mem;
use std::sync::Wait;

/// The events of a node, in three parts, one after the other: those that are in the run, which only proofs know;
/// those that can't be put into the run yet; and those that its book handed over and that were not taken yet.
#[derive(Drop)]
pub struct NodeProgress {
    node: NodeId,
    /// The clock of the last event that was taken, 0 before the first.
    latest: u64,
    /// The clock of the last event that is in the run, 0 before the first.
    clock: u64,
    waiting: VecDeque<BookEvent>,
    /// None, unless memory ran out when they were to be taken.
    kept: Events,
    /// The events that are in the run, for proofs alone.
    settled: GhostList<BookEvent>,
}

impl Model for NodeProgress {
    ghost use Rattle.ra_audit.specs.Audit.{ProgressState};
    ghost use Rattle.ra_audit.specs.AuditKeeping.{progress_of, IsKeptProgress};

    ghost Value = { ProgressState };

    ghost view = { progress_of };

    ghost invariant = { IsKeptProgress };
}

impl NodeProgress {
    /// Makes the progress of a node from which nothing was taken. It does not allocate.
    pub fn new(alloc: Global, node: NodeId) -> NodeProgress
        ensures { result ≡ fresh_progress node }
    {
        NodeProgress {
            node,
            latest: 0,
            clock: 0,
            waiting: VecDeque::new(alloc),
            kept: Events::new(alloc),
            settled: GhostList::new(),
        }
    }

    /// Returns the node's number.
    pub fn node(&self) -> NodeId
        ensures { result ≡ self.now.node }
    {
        self.node
    }

    /// Returns the clock of the last event that was taken, 0 before the first.
    pub fn latest(&self) -> u64
        ensures { result ≡ clock_of (taken_of self.now) }
    {
        self.latest
    }

    /// Returns the clock of the last event that is in the run, 0 before the first.
    pub fn clock(&self) -> u64
        ensures { result ≡ clock_of self.now.settled }
    {
        self.clock
    }

    /// Returns how many events are not in the run yet.
    pub fn waiting(&self) -> usize
        ensures { result ≡ length self.now.waiting }
    {
        self.waiting.len()
    }

    /// Returns the first event that is not in the run yet, or `None` if all are.
    pub fn next(&self) -> Option<BookEvent>
        ensures value { result ≡ slice_get self.now.waiting 0 }
        ensures for_node { IfSome result (λ event. IsForNumber self.now.node event.kind) }
        ensures taken { AreNextAt self.now.node 0 (taken_of self.now) }
    {
        first_of(&self.waiting)
    }

    /// Puts the first event that is not in the run yet into it.
    pub fn put(&mut self)
        requires { 0 < length self.old.waiting }
        ensures taken { taken_of self.new ≡ taken_of self.old }
        ensures node { self.new.node ≡ self.old.node }
        ensures kept { self.new.kept ≡ self.old.kept }
        ensures one_more { (event : BookEvent) → slice_get self.old.waiting 0 ≡ Some event
            → self.new.settled ≡ self.old.settled ++ event ∷ [] }
        ensures fewer { length self.new.waiting < length self.old.waiting }
    {
        let Some(event) = self.waiting.pop_front() else {
            return;
        };
        self.clock = event.clock;
        self.settled = self.settled.and(&event);
    }

    /// Takes the node's next events, which come after an event with the clock `after`, or are its first ones if `after`
    /// is 0.
    ///
    /// # Errors
    ///
    /// The first that holds, and nothing was taken:
    ///
    /// 1. `OutOfTurn`: `after` is not the clock of the last event that was taken.
    /// 2. `NotNext`: a clock does not follow the one before, or a frame is for another node.
    /// 3. `Memory`.
    pub fn take(&mut self, after: u64, events: &[BookEvent]) -> Result<(), TakeError>
        ensures ok { OnOk result (self.new ≡ record self.old { waiting = self.old.waiting ++ events.now }) }
        ensures out_of_turn { IsErrOf result TakeError.OutOfTurn ↔ (after ≢ clock_of (taken_of self.old)) }
        ensures not_next { IsErrOf result TakeError.NotNext
            ↔ ((after ≡ clock_of (taken_of self.old))
            × (AreNextAt self.old.node (clock_of (taken_of self.old)) events.now → ⊥)) }
        ensures no_node { IsErrOf result TakeError.NoNode → ⊥ }
        ensures memory { IsErrOf result TakeError.Memory
            → AreNextAt self.old.node (clock_of (taken_of self.old)) events.now }
        ensures err { OnErr result (self.new ≡ self.old) }
    {
        if after != self.latest {
            return Err(TakeError::OutOfTurn);
        }
        let Some(latest) = latest_of(self.node, self.latest, events) else {
            return Err(TakeError::NotNext);
        };
        append(&mut self.waiting, events)?;
        self.latest = latest;
        Ok(())
    }
}

impl NodeProgress {
    /// Has the site of the node hand over what has happened since the last time, and takes it. What it handed over
    /// before and was not taken for lack of memory comes first. The frames that it hands over as lost are noted.
    ///
    /// # Errors
    ///
    /// The first that holds. What was handed over is noted, and kept if it was not taken, and the site still has what
    /// was not:
    ///
    /// 1. `NotNext`: of the events that are kept, a clock does not follow the one before, or a frame is for another
    ///    node.
    /// 2. `Memory`: there is no room for these, or for the frames that were noted last.
    /// 3. `OutOfTurn`: the site has handed over its last events elsewhere.
    /// 4. `Memory`: the site has none to hand them over.
    /// 5. `NotNext` or `Memory` for the events that were handed over.
    pub fn take_handed<R: Wait>(
        &mut self,
        rt: &R,
        alloc: Global,
        site: &Site,
        losses: &mut Losses,
    ) -> Result<(), TakeError>
        requires { site.now ≡ site_at true self.old.node }
        ensures takes { (handed : List Frame) × TakesOver self.old self.new handed result
            × (losses.new.losing ≡ losses.old.losing ++ handed) }
        ensures lost { losses.new.lost ≡ losses.old.lost }
    {
        self.take_kept(alloc)?;
        losses.take_noted()?;
        let handed = site.hand_over(rt, alloc, self.latest())?;
        self.accept(alloc, handed, losses)
    }

    /// Takes what the book of the node handed over, and notes the frames that were lost.
    ///
    /// # Errors
    ///
    /// Those of `take_kept`. The frames are noted all the same.
    fn accept(
        &mut self,
        alloc: Global,
        handed: Handed,
        losses: &mut Losses,
    ) -> Result<(), TakeError>
        requires kept { self.old.kept ≡ [] }
        requires handing { IsLeftOfBook self.old.node (clock_of (handed_over self.old)) handed.events.items
            handed.lost.items }
        requires noted { losses.old.noted ≡ [] }
        ensures takes { TakesOver self.old self.new handed.lost.items result }
        ensures handed { handed_over self.new ≡ handed_over self.old ++ handed.events.items }
        ensures losing { losses.new.losing ≡ losses.old.losing ++ handed.lost.items }
        ensures lost { losses.new.lost ≡ losses.old.lost }
    {
        let Handed {
            after: _,
            events,
            lost,
        } = handed;
        losses.note_list(lost);
        self.keep(events);
        self.take_kept(alloc)
    }

    /// Keeps what the book of the node handed over.
    fn keep(&mut self, events: Events)
        ensures { self.new ≡ record self.old { kept = events.items } }
    {
        self.kept = events;
    }

    /// Takes the events that are kept.
    ///
    /// # Errors
    ///
    /// `NotNext` or `Memory`, as `take` does, and they are still kept.
    fn take_kept(&mut self, alloc: Global) -> Result<(), TakeError>
        ensures ok { OnOk result (self.new ≡ record self.old {
          waiting = self.old.waiting ++ self.old.kept;
          kept = [];
        }) }
        ensures not_next { IsErrOf result TakeError.NotNext ↔ (KeptAreNext self.new → ⊥) }
        ensures memory { IsErrOf result TakeError.Memory → KeptAreNext self.new }
        ensures others { (IsErrOf result TakeError.NoNode → ⊥) × (IsErrOf result TakeError.OutOfTurn → ⊥) }
        ensures err { OnErr result (self.new ≡ self.old) }
    {
        let latest = self.latest();
        let kept = mem::replace(&mut self.kept, Events::new(alloc));
        match self.take(latest, kept.as_slice()) {
            Ok(()) => Ok(()),
            Err(cause) => {
                self.keep(kept);
                Err(cause)
            }
        }
    }
}

/// Returns the first event, or `None` if there is none.
fn first_of(waiting: &VecDeque<BookEvent>) -> Option<BookEvent>
    ensures { result ≡ slice_get waiting.now.items 0 }
{
    waiting.front().copied()
}

/// Puts events at the end of those that wait, or, if there is no memory, none.
fn append(waiting: &mut VecDeque<BookEvent>, events: &[BookEvent]) -> Result<(), Memory>
    ensures ok { OnOk result (waiting.new.items ≡ waiting.old.items ++ events.now) }
    ensures err { OnErr result (waiting.new.items ≡ waiting.old.items) }
{
    waiting.reserve(events.len())?;
    for event in events {
        waiting.push_back_reserved(*event);
    }
    Ok(())
}

/// Returns the clock of the last of these events, if they can be the next ones of a node after this clock, or this
/// clock if there are none.
fn latest_of(node: NodeId, clock: u64, events: &[BookEvent]) -> Option<u64>
    ensures { MatchOption result (AreNextAt node clock events.now → ⊥)
        (λ latest. AreNextAt node clock events.now × (latest ≡ clock_from clock events.now)) }
{
    let mut latest = clock;
    for event in events {
        if !is_next_at(node, latest, event) {
            return None;
        }
        latest = event.clock;
    }
    Some(latest)
}

/// Returns whether this can be the next event of a node after an event with this clock.
fn is_next_at(node: NodeId, clock: u64, event: &BookEvent) -> bool
    ensures { IsTrue result ↔ IsNextAt node clock event.now }
{
    match clock_after(clock, &event.kind) {
        Ok(next) => next == event.clock && is_for(node, &event.kind),
        Err(_) => false,
    }
}

/// Returns whether a frame that came is for this node; other events are.
fn is_for(node: NodeId, kind: &BookKind) -> bool
    ensures { IsTrue result ↔ IsForNumber node kind.now }
{
    match kind {
        BookKind::Receive(frame) => frame.message.to() == node,
        BookKind::Ask { .. }
        | BookKind::Leave { .. }
        | BookKind::Cancel { .. }
        | BookKind::Forget => true,
    }
}

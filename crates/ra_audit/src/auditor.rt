pub mod audit_round;
pub mod closing;
pub mod ending;
pub mod flights;
pub mod never_sent;
pub mod node_progress;
pub mod noted_losses;
pub mod put_events;
pub mod put_losses;
pub mod unsettled;

ghost use Rattle.std.specs.Prelude.{◌≡◌, ◌≢◌, ◌↔◌, ◌⊎◌, ◌++◌, true, [], ℕ, List, Some, None, All, length, map, sum_by, IsErrOf, IfOk, IfSome, IsNone, IsTrue, OnOk, OnErr, MatchOption};
ghost use Rattle.std.specs.List.{range_with_len};
ghost use Rattle.ra_stamp.specs.NodeId.{IsNodeNumber};
ghost use Rattle.ra_world.specs.Traffic.{LeavesUnderWay, sent_by};
ghost use Rattle.ra_world.specs.Quiet.{requests_in};
ghost use Rattle.ra_world.specs.Run.{marks_of};
ghost use Rattle.ra_world.specs.World.{AreWaiting, AreQueued};
ghost use Rattle.ra_audit.specs.declared.audit_error.AuditFault as audit_fault;
ghost use Rattle.ra_stamp.specs.declared.message.Message.{Message};
ghost use Rattle.ra_frame.specs.declared.frame.Frame.{Frame};
ghost use Rattle.ra_audit.specs.Audit.{Takes, AreAllIn, IsFirstNotAllIn, TakesHanded, NoneWaits, IsNeverSent, IsAhead, MayBePut, IsUnsent, IsLeastLeft, clocks_taken, fresh_progress};

use crate::auditor::closing::check_all;
use crate::auditor::flights::Flights;
use crate::auditor::never_sent::{clocks_of, first_unsent};
use crate::auditor::node_progress::NodeProgress;
use crate::auditor::noted_losses::Losses;
use crate::auditor::put_losses::put_events_and_losses;
use crate::auditor::unsettled::{least_waiting, waiting_at};
use crate::{AuditError, AuditFault, BehindError, MarkObserver};
use ra_frame::Frame;
use ra_site::{Book, BookEvent, Site, TakeError};
use ra_stamp::{Memory, NodeId};
use ra_world::{MarklessWorld, NewError};
use std::alloc::Global;
use std::marker::Model;
use std::sync::Wait;

/// Puts what happens at the nodes of a cluster together into one run while the nodes go on. From time to time each
/// node's book hands over the events since the last time, which [`take`](Auditor::take) takes, and then
/// [`advance`](Auditor::advance) puts all that it can into the run. So a cluster can run for long: an auditor keeps the
/// nodes at the end of the run, the messages under way, and the events and losses that can't be put yet, but nothing of
/// the others.
///
/// Contracts see the run so far, and of each node the events that were taken from it: first those that are in the run,
/// then those that are not yet. They also see the frames that were noted as lost: those whose loss is still to be put
/// into the run, and those whose loss is in it.
pub struct Auditor {
    world: MarklessWorld,
    /// How many nodes the run has, and the start that the numbers of requests begin after.
    count: u16,
    start: u64,
    /// By the nodes' numbers, from 1.
    nodes: Vec<NodeProgress>,
    /// The messages under way with the clocks of the events that sent them.
    flights: Flights,
    losses: Losses,
    fault: Option<AuditFault>,
}

// What an auditor owns is freed here, so that no other crate proves how each of its parts is dropped.
impl Drop for Auditor {
    fn drop(self) {
        let Auditor {
            world: _,
            count: _,
            start: _,
            nodes: _,
            flights: _,
            losses: _,
            fault: _,
        } = self;
    }
}

impl Model for Auditor {
    ghost use Rattle.std.specs.Prelude.{◌≡◌, All};
    ghost use Rattle.ra_audit.specs.Audit.{AuditState, IsAudited, HasLost, WasSentIn};
    ghost use Rattle.ra_audit.specs.AuditKeeping.{IsTracked};

    ghost Value = { AuditState };

    ghost view = { λ a. record {
      world = a.world;
      nodes = a.nodes.items;
      losing = a.losses.losing;
      lost = a.losses.lost;
      fault = a.fault;
    } };

    ghost invariant = { λ a. IsAudited a.world a.nodes.items × (a.count ≡ a.world.count) × (a.start ≡ a.world.start)
        × HasLost a.world.moves a.losses.lost
        × IsTracked a.nodes.items a.world.moves a.flights × All (WasSentIn a.nodes.items a.world.moves) a.losses.lost };
}

impl Auditor {
    ghost use Rattle.ra_audit.specs.Audit.{IsAudited, HasLost, AllWereSent, NoneIsReady, NoneIsReached, CanBePut, IsMisfit, IsNotLost, Advances, PutsLosses, RunTheorem};

    /// Makes the auditor of a cluster of this many nodes. Nothing has happened in it yet. The highest number of each
    /// resource begins at `start`, 0 to 2^64-1. The cost is linear in the number of pairs of nodes.
    ///
    /// # Errors
    ///
    /// The first that holds:
    ///
    /// 1. `BadCount`: the number of nodes is not 1 to 64.
    /// 2. `Memory`: there is no room for the nodes and their pairs.
    pub fn new(alloc: Global, nodes: u16, start: u64) -> Result<Auditor, NewError>
        ensures world { IfOk result (λ auditor.
            auditor.world ≡ record { count = nodes; start = start; moves = [] }) }
        ensures nodes { IfOk result (λ auditor. auditor.nodes ≡ map fresh_progress (range_with_len 1 nodes)) }
        ensures losses { IfOk result (λ auditor. (auditor.losing ≡ []) × (auditor.lost ≡ [])) }
        ensures fault { IfOk result (λ auditor. auditor.fault ≡ None) }
        ensures audited { IfOk result (λ auditor. IsAudited auditor.world auditor.nodes) }
        ensures sent { IfOk result (λ auditor. AllWereSent auditor.nodes auditor.world.moves auditor.lost) }
        ensures bad_count { IsErrOf result NewError.BadCount ↔ (IsNodeNumber nodes → ⊥) }
    {
        let world = MarklessWorld::new(alloc, nodes, start)?;
        let progress = none_taken(alloc, nodes)?;
        let flights = Flights::new(alloc, nodes)?;
        let losses = Losses::new(alloc);
        Ok(Auditor {
            world,
            count: nodes,
            start,
            nodes: progress,
            flights,
            losses,
            fault: None,
        })
    }

    /// Takes the next events of a node, which come after an event with the clock `after`, or are its first ones if
    /// `after` is 0. `advance` puts them into the run. The cost is linear in their number.
    ///
    /// # Errors
    ///
    /// The first that holds, and the auditor is as before:
    ///
    /// 1. `NoNode`: the cluster has no such node.
    /// 2. `OutOfTurn`: `after` is not the clock of the last event of the node that was taken, or 0 before the first.
    /// 3. `NotNext`: the clock of an event is not the one that follows, or a frame is for another node.
    /// 4. `Memory`: memory ran out.
    pub fn take(&mut self, node: NodeId, after: u64, events: &[BookEvent]) -> Result<(), TakeError>
        ensures taken { Takes self.old.nodes node after events.now result self.new.nodes }
        ensures rest { self.new ≡ record self.old { nodes = self.new.nodes } }
        ensures audited { IsAudited self.new.world self.new.nodes }
        ensures sent { AllWereSent self.new.nodes self.new.world.moves self.new.lost }
    {
        take_into(self.nodes.as_mut_slice(), node, after, events)
    }

    /// Notes that these frames are lost, such as those that could not be sent. `advance` puts their losses into the
    /// run, each once all events of the frame's sender up to the frame's clock are in it. Note each frame once, and of
    /// each node only frames that it sent. One whose sender is no node of the cluster has no such events, so the next
    /// `advance` says `NotLost` of it. A round notes the frames that the nodes hand over as lost by itself. The cost is
    /// linear in their number.
    ///
    /// # Errors
    ///
    /// `Memory`: there is no room for them. The auditor is as before.
    pub fn lose(&mut self, frames: &[Frame]) -> Result<(), Memory>
        ensures ok { OnOk result (self.new ≡ record self.old { losing = self.old.losing ++ frames.now }) }
        ensures err { OnErr result (self.new ≡ self.old) }
        ensures audited { IsAudited self.new.world self.new.nodes }
        ensures lost { HasLost self.new.world.moves self.new.lost }
        ensures sent { AllWereSent self.new.nodes self.new.world.moves self.new.lost }
    {
        self.losses.note(frames)
    }

    /// Returns whether the auditor was made for this many nodes and this start.
    pub(crate) fn is_for(&self, nodes: u16, start: u64) -> bool
        ensures value { IsTrue result ↔ ((self.now.world.count ≡ nodes) × (self.now.world.start ≡ start)) }
        ensures audited { IsAudited self.now.world self.now.nodes }
    {
        self.count == nodes && self.start == start
    }

    /// Has an audited site hand over what has happened since the last time, and takes it and notes the lost frames, as
    /// [`NodeProgress::take_handed`] does.
    ///
    /// # Errors
    ///
    /// `NoNode` exactly if the auditor has no such node, or those of [`NodeProgress::take_handed`].
    pub(crate) fn take_handed<R: Wait>(
        &mut self,
        rt: &R,
        alloc: Global,
        site: &Site,
    ) -> Result<(), TakeError>
        requires { site.now.audited ≡ true }
        ensures handed { TakesHanded self.old.nodes self.old.losing site.now.node result self.new.nodes
            self.new.losing }
        ensures rest { self.new ≡ record self.old { nodes = self.new.nodes; losing = self.new.losing } }
        ensures audited { IsAudited self.new.world self.new.nodes }
        ensures sent { AllWereSent self.new.nodes self.new.world.moves self.new.lost }
    {
        take_handed_into(rt, alloc, self.nodes.as_mut_slice(), &mut self.losses, site)
    }

    /// Returns, of each node, the clock of the last event that was taken from it, or 0 before the first.
    pub(crate) fn clocks(&self, alloc: Global) -> Result<Vec<u64>, Memory>
        ensures { IfOk result (λ clocks. clocks.items ≡ clocks_taken self.now.nodes) }
    {
        clocks_of(alloc, &self.nodes)
    }

    /// Looks for a frame that is the next event of its node and was never sent, and notes it as the fault. The nodes
    /// had these clocks before their last events were taken. Returns `None` if each frame that waits as the next event
    /// of its node may still be put.
    pub(crate) fn find_unsent(&mut self, clocks: &[u64]) -> Option<AuditFault>
        requires { NoneIsReady self.old.nodes }
        ensures none { IsNone result → (self.new ≡ self.old) × All (MayBePut clocks.now self.old.nodes) self.old.nodes }
        ensures found { IfSome result (λ fault. (self.new ≡ record self.old { fault = Some fault })
            × IsUnsent clocks.now self.old.nodes fault) }
    {
        let unsent = first_unsent(&self.nodes, clocks);
        note_unsent(&unsent, &mut self.fault);
        unsent
    }

    /// Puts each event that can be put into the run, and tells the observer its marks: an ask or a leave at once after
    /// the node's earlier events, and a frame that came once all events of its sender up to the frame's clock are in
    /// the run. Then it puts the loss of each frame that was noted as lost, once all events of its sender up to its
    /// clock are in the run.
    ///
    /// The cost of each event and of each loss is that of a step of a [`MarklessWorld`]. In a round each event is
    /// looked at once, and each node is looked at once each time a node can't go on. Each loss that can't be put yet is
    /// looked at once.
    ///
    /// # Errors
    ///
    /// 1. `Fault`: an event does not fit, which was found by this call or an earlier one. The node would have refused
    ///    it; or it is a frame, and all that its sender sent up to the frame's clock is in the run, but its message is
    ///    not under way, or was sent by an event with another clock. Or a round found a frame that was never sent. From
    ///    then on nothing is put.
    /// 2. `NotLost`: a frame was noted as lost, and all that its sender sent up to the frame's clock is in the run, but
    ///    its message is not under way, or was sent by an event with another clock: it came or was lost before, or the
    ///    frame was never sent. All events that can be put are in the run, and some other losses may not be. The loss
    ///    of this frame is still to be put, so that each later call tries it.
    /// 3. `Memory`: memory ran out, and an event is due that fits, or no event can be put and some loss is still to be
    ///    put. So it may come before the others, and does not come in place of a `Fault` if no event that is due fits.
    ///    The events and losses before are in the run, and the call can be made again.
    pub fn advance<O: MarkObserver>(
        &mut self,
        alloc: Global,
        observer: &mut O,
    ) -> Result<(), AuditError>
        ensures advances { Advances self.old.world self.old.nodes (O.told observer.old)
            self.new.world self.new.nodes (O.told observer.new) }
        ensures granted { O.granted observer.new ≡ O.granted observer.old }
        ensures losses { PutsLosses self.new.nodes self.old.losing self.old.lost self.new.losing self.new.lost }
        ensures lost { HasLost self.new.world.moves self.new.lost }
        ensures sent { AllWereSent self.new.nodes self.new.world.moves self.new.lost }
        ensures theorem { RunTheorem self.new.world.count self.new.world.moves }
        ensures ok { OnOk result (NoneIsReady self.new.nodes) }
        ensures none_reached { OnOk result (NoneIsReached self.new.nodes self.new.losing) }
        ensures found { (fault : audit_fault.AuditFault) → self.old.fault ≡ None
            → IsErrOf result (AuditError.Fault fault)
            → IsMisfit self.new.world self.new.nodes fault }
        ensures kept { (fault : audit_fault.AuditFault) → self.old.fault ≡ Some fault
            → IsErrOf result (AuditError.Fault fault) × (self.new ≡ self.old) }
        ensures fault { (fault : audit_fault.AuditFault) → IsErrOf result (AuditError.Fault fault)
            ↔ (self.new.fault ≡ Some fault) }
        ensures not_lost { (frame : Frame) → IsErrOf result (AuditError.NotLost frame)
            → NoneIsReady self.new.nodes × IsNotLost self.new.world self.new.nodes self.new.losing frame }
        ensures memory { IsErrOf result AuditError.Memory → CanBePut self.new }
    {
        if let Some(fault) = self.fault {
            return Err(AuditError::Fault(fault));
        }
        let answer = put_events_and_losses(
            alloc,
            &mut self.world,
            self.nodes.as_mut_slice(),
            &mut self.flights,
            &mut self.losses,
            observer,
        );
        note_fault(&answer, &mut self.fault);
        answer
    }

    /// Returns the event with the least clock of those that were taken and are not in the run, or `None` if all are in
    /// it. Call it once the last events of all nodes were taken, and `advance` has answered `Ok`. Then the event is a
    /// frame that came and was never sent. It does not allocate. The cost is linear in the number of nodes.
    pub fn unsettled(&self) -> Option<AuditFault>
        requires { NoneIsReady self.now.nodes }
        ensures left { MatchOption result (NoneWaits self.now.nodes) (IsNeverSent self.now.nodes) }
        ensures least { IfSome result (IsLeastLeft self.now.nodes) }
        ensures audited { IsAudited self.now.world self.now.nodes }
    {
        least_waiting(&self.nodes)
    }

    /// Returns a frame that was noted as lost and whose loss is not in the run, or `None` if all losses are in it. Call
    /// it once the last events of all nodes were taken, and `advance` has answered `Ok`. Then the frame was never sent,
    /// as far as these events say: the clock of each event of its sender in the run is less than the frame's. It does
    /// not allocate.
    pub fn unsettled_loss(&self) -> Option<Frame>
        requires { NoneIsReached self.now.nodes self.now.losing }
        ensures left { MatchOption result (self.now.losing ≡ []) (IsAhead self.now.nodes self.now.losing) }
        ensures audited { IsAudited self.now.world self.now.nodes }
    {
        self.losses.first()
    }

    /// Tells whether the run has come to the end of each node's book, by the clock: the last event of the book has the
    /// clock of the node's last event in the run. Give it the books of the nodes from 1 up, in their order, once all
    /// threads have ended; what was taken from a book still counts in its clock. It compares neither the events one by
    /// one, nor the frames that a book still has as lost. It does not allocate. The cost is linear in the number of
    /// nodes.
    ///
    /// # Errors
    ///
    /// The first that holds:
    ///
    /// 1. `OtherCount`: there are more or fewer books than nodes.
    /// 2. `Behind`: the first node whose book ends with another clock, or belongs to another node.
    pub fn check_books(&self, books: &[Book]) -> Result<(), BehindError>
        ensures ok { OnOk result (AreAllIn self.now.nodes books.now) }
        ensures other_count { IsErrOf result BehindError.OtherCount ↔ (length books.now ≢ length self.now.nodes) }
        ensures behind { (node : ℕ) → IsErrOf result (BehindError.Behind node)
            → IsFirstNotAllIn self.now.nodes books.now node }
    {
        check_all(&self.nodes, books)
    }

    /// Returns the event that did not fit, if one was found.
    pub fn fault(&self) -> Option<AuditFault>
        ensures value { result ≡ self.now.fault }
        ensures audited { IsAudited self.now.world self.now.nodes }
        ensures lost { HasLost self.now.world.moves self.now.lost }
        ensures sent { AllWereSent self.now.nodes self.now.world.moves self.now.lost }
    {
        self.fault
    }

    /// Returns how many events were taken and are not in the run yet. After a round that is Ok, these are frames whose
    /// senders were looked at too early in the round, or that were never sent and are not found yet, and the events
    /// after them.
    pub fn waiting(&self) -> u128
        ensures value { result ≡ sum_by (λ p. length p.waiting) self.now.nodes }
        ensures audited { IsAudited self.now.world self.now.nodes }
    {
        waiting_at(&self.nodes)
    }

    /// Returns how many losses are in the run.
    pub fn lost(&self) -> u64
        ensures value { result ≡ length self.now.lost }
        ensures audited { IsAudited self.now.world self.now.nodes }
        ensures lost { HasLost self.now.world.moves self.now.lost }
    {
        self.losses.lost()
    }

    /// Returns how many frames were noted as lost whose losses are not in the run yet. After an `advance` that is Ok,
    /// these are frames whose senders' events are not all in the run up to the frame's clock.
    pub fn losing(&self) -> usize
        ensures value { result ≡ length self.now.losing }
        ensures audited { IsAudited self.now.world self.now.nodes }
    {
        self.losses.losing()
    }

    /// Returns how many steps the run has.
    pub fn steps(&self) -> u64
        ensures value { result ≡ length self.now.world.moves }
        ensures audited { IsAudited self.now.world self.now.nodes }
    {
        self.world.steps()
    }

    /// Returns how many requests were made in the run.
    pub fn requests(&self) -> u128
        ensures value { result ≡ requests_in (marks_of self.now.world.moves) }
        ensures audited { IsAudited self.now.world self.now.nodes }
    {
        self.world.requests()
    }

    /// Returns how many messages were sent in the run.
    pub fn sent(&self) -> u128
        ensures value { result ≡ length (sent_by self.now.world.moves) }
        ensures audited { IsAudited self.now.world self.now.nodes }
    {
        self.world.sent()
    }

    /// Returns how many messages are under way after the run.
    pub fn under_way(&self) -> u64
        ensures value { (left : List Message) × LeavesUnderWay self.now.world.moves left × (result ≡ length left) }
        ensures audited { IsAudited self.now.world self.now.nodes }
    {
        self.world.under_way()
    }

    /// Returns how many requests wait at the end of the run. The cost is linear in the number of nodes.
    pub fn requests_waiting(&self) -> u128
        ensures value { AreWaiting self.now.world.count self.now.world.start self.now.world.moves result }
        ensures audited { IsAudited self.now.world self.now.nodes }
    {
        self.world.waiting()
    }

    /// Returns how many clients are queued at the end of the run. The cost is linear in the number of nodes.
    pub fn clients_queued(&self) -> u128
        ensures value { AreQueued self.now.world.count self.now.world.start self.now.world.moves result }
        ensures audited { IsAudited self.now.world self.now.nodes }
    {
        self.world.queued()
    }
}

/// Notes the event that did not fit, if this answer says so.
fn note_fault(answer: &Result<(), AuditError>, fault: &mut Option<AuditFault>)
    requires { fault.old ≡ None }
    ensures { (found : audit_fault.AuditFault) → IsErrOf answer.now (AuditError.Fault found)
        ↔ (fault.new ≡ Some found) }
{
    if let Err(AuditError::Fault(found)) = answer {
        *fault = Some(*found);
    }
}

/// Notes a frame that was never sent, if this is one.
fn note_unsent(unsent: &Option<AuditFault>, fault: &mut Option<AuditFault>)
    ensures none { IsNone unsent.now → fault.new ≡ fault.old }
    ensures found { IfSome unsent.now (λ found. fault.new ≡ Some found) }
{
    if let Some(found) = unsent {
        *fault = Some(*found);
    }
}

/// Takes the next events of a node, one of these, as `take` does.
fn take_into(
    nodes: &mut [NodeProgress],
    node: NodeId,
    after: u64,
    events: &[BookEvent],
) -> Result<(), TakeError>
    ensures { Takes nodes.old node after events.now result nodes.new }
{
    let place = node.place();
    if place >= nodes.len() {
        return Err(TakeError::NoNode);
    }
    let progress = &mut nodes[place];
    progress.take(after, events)
}

/// Has an audited site hand over what has happened since the last time, and one of these takes it, as `take_handed`
/// does.
fn take_handed_into<R: Wait>(
    rt: &R,
    alloc: Global,
    nodes: &mut [NodeProgress],
    losses: &mut Losses,
    site: &Site,
) -> Result<(), TakeError>
    requires numbers { (count : ℕ) × (map (λ p. p.node) nodes.old ≡ range_with_len 1 count) }
    requires audited { site.now.audited ≡ true }
    ensures handed { TakesHanded nodes.old losses.old.losing site.now.node result nodes.new losses.new.losing }
    ensures lost { losses.new.lost ≡ losses.old.lost }
{
    let place = site.node().place();
    if place >= nodes.len() {
        return Err(TakeError::NoNode);
    }
    let progress = &mut nodes[place];
    progress.take_handed(rt, alloc, site, losses)
}

/// Returns, for each of this many nodes, that nothing was taken from it.
///
/// # Errors
///
/// `Memory`: there is no room for them.
fn none_taken(alloc: Global, nodes: u16) -> Result<Vec<NodeProgress>, Memory>
    requires { IsNodeNumber nodes }
    ensures { IfOk result (λ progress. progress.items ≡ map fresh_progress (range_with_len 1 nodes)) }
{
    let mut progress = Vec::new(alloc);
    for place in 0..nodes {
        let node = NodeId::at(usize::from(place));
        progress.push(NodeProgress::new(alloc, node))?;
    }
    Ok(progress)
}

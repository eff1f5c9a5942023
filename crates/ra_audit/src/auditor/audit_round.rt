//! A round of the audit of a cluster whose threads go on.
ghost use Rattle.std.specs.Prelude.{◌≡◌, ◌↔◌, ◌⊎◌, ◌≤◌, true, false, [], ℕ, length, All, None, Some, IsOk, IsErrOf, OnOk, MatchResult};
ghost use Rattle.ra_audit.specs.declared.audit_error.AuditFault as audit_fault;
ghost use Rattle.ra_site.specs.declared.site.take_error.TakeError.{TakeError};
ghost use Rattle.ra_frame.specs.declared.frame.Frame.{Frame};
ghost use Rattle.ra_audit.specs.Audit.{NoneIsReady, NoneIsReached, HasAllIn, RefusesFinish, IsMisfit, IsNotLost, IsUnsent, MayBePut, IsAudited, HasLost, AllWereSent, IsAuditorOf, AuditsByAnswer, TakesByAnswer, TakesMoreAt, TakesAllAt, NotTakenAt, IsNotTaken, NoneIsKept, AnswersRound, CanBePut, clocks_taken, last_round};
ghost use Rattle.ra_stamp.specs.NodeId.{IsNodeNumber};

use crate::{AuditError, Auditor, FinishError, MarkObserver, RoundError};
use ra_site::{Cluster, Gate, TakeError};
use ra_stamp::NodeId;
use std::alloc::Global;
use std::sync::Wait;

impl Auditor {
    /// Takes what has happened at each node since the round before, from node 1 up, and notes the frames that it hands
    /// over as lost. Then it puts all that it can into the run of the auditor, events first and then losses, and tells
    /// the observer its marks, as [`Auditor::advance`] does. The cluster goes on meanwhile: a round has one node's lock
    /// at a time, for a time that does not grow with the history unless a frame was lost, and puts with no lock held. A
    /// frame whose sender was looked at too early in the round is put in the next one.
    ///
    /// A frame that waits was never sent if an earlier round took it and its sender's events don't come to its clock
    /// yet, or if they go past it and none has it. So a frame can't hold up the audit with a clock that is ahead of its
    /// sender's: the second round after the one that took it finds it at the latest, if no other frame is at fault and
    /// no round is refused.
    ///
    /// Each round is to have the auditor of the one before. Once the threads of the cluster have ended, a round takes
    /// all that is left, and [`Auditor::unsettled`] says whether all of it is in the run.
    ///
    /// The cost is that of [`Auditor::take`] and [`Auditor::advance`] for the events since the round before. A list of
    /// a clock for each node is allocated.
    ///
    /// # Errors
    ///
    /// 1 and 2 come first, and then a `Fault` of an earlier round. `Memory` may come before any of the rest.
    ///
    /// 1. `NotAudited`: the cluster was made by [`Cluster::new`], and is settled at its end. Nothing has changed.
    /// 2. `OtherCluster`: the auditor was made for another number of nodes, or with another start. Nothing has changed.
    /// 3. `Fault`: an event does not fit, as [`Auditor::advance`] says. If it was found by an earlier round, nothing
    ///    has changed.
    /// 4. `NotLost`: a frame that was handed over or noted as lost came or was lost before, or was never sent, as
    ///    [`Auditor::advance`] says. All events that were taken and can be put are in the run. The loss of the frame
    ///    still waits, so that each later round tries it.
    /// 5. `Memory`: memory ran out before events were taken, and nothing has changed; or while events or losses were
    ///    put, and an event is due that fits, or no event can be put and some loss is still to be put. The next round
    ///    goes on.
    /// 6. `NotTaken`: the events of a node and of the nodes after it were not taken. What was taken or noted as lost is
    ///    in the run, as far as it can be. If the cause is `Memory`, the next round takes them. `OutOfTurn` comes if
    ///    another auditor made the round before, which no clause says; nothing of the node is kept. If it is `NotNext`,
    ///    what the node handed over is kept and can't be its next events, so no later round takes events from it.
    ///    `NoNode` never comes.
    /// 7. `Fault`: a frame that waits as the next event of its node was never sent.
    pub fn audit<R: Wait, G: Gate + Drop, O: MarkObserver>(
        &mut self,
        rt: &R,
        alloc: Global,
        cluster: &Cluster<G>,
        observer: &mut O,
    ) -> Result<(), RoundError>
        ensures round { AnswersRound cluster.now self.old (O.told observer.old) self.new (O.told observer.new) result }
        ensures granted { O.granted observer.new ≡ O.granted observer.old }
    {
        check_round(cluster, self)?;
        go_round(rt, alloc, cluster, self, observer)
    }

    /// Ends the audit of a cluster that its caller alone has, so that all threads have ended: takes what is left at the
    /// nodes, as a round does. If it is Ok, all that was taken is in the run, and the losses of all frames that were
    /// handed over or noted as lost. After `NotTaken` for `Memory`, and after `Memory`, it can be called again.
    ///
    /// The cost is that of a round, plus time linear in the number of nodes.
    ///
    /// # Errors
    ///
    /// The first that comes:
    ///
    /// 1. `Round`: the round failed, as [`Auditor::audit`] says.
    /// 2. `NeverSent`: a frame that came was never sent.
    /// 3. `LostUnsent`: a frame that was noted as lost was never sent.
    pub fn finish<R: Wait, G: Gate + Drop, O: MarkObserver>(
        &mut self,
        rt: &R,
        alloc: Global,
        cluster: &mut Cluster<G>,
        observer: &mut O,
    ) -> Result<(), FinishError>
        ensures round { AnswersRound cluster.old self.old (O.told observer.old) self.new (O.told observer.new)
            (last_round result) }
        ensures granted { O.granted observer.new ≡ O.granted observer.old }
        ensures ended { MatchResult result (λ _. HasAllIn self.new) (RefusesFinish self.new) }
    {
        self.end(rt, alloc, cluster, observer)
    }

    /// Ends the audit of a cluster whose threads have ended, as [`Auditor::finish`] does, and tells the same.
    pub(crate) fn end<R: Wait, G: Gate + Drop, O: MarkObserver>(
        &mut self,
        rt: &R,
        alloc: Global,
        cluster: &Cluster<G>,
        observer: &mut O,
    ) -> Result<(), FinishError>
        ensures round { AnswersRound cluster.now self.old (O.told observer.old) self.new (O.told observer.new)
            (last_round result) }
        ensures granted { O.granted observer.new ≡ O.granted observer.old }
        ensures ended { MatchResult result (λ _. HasAllIn self.new) (RefusesFinish self.new) }
    {
        match self.audit(rt, alloc, cluster, observer) {
            Ok(()) => all_settled(self),
            Err(refused) => Err(FinishError::Round(refused)),
        }
    }
}

/// Tells whether all that was taken is in the run, and all losses.
///
/// # Errors
///
/// The first that holds:
///
/// 1. `NeverSent`: a frame that came was never sent.
/// 2. `LostUnsent`: a frame that was noted as lost was never sent.
fn all_settled(auditor: &Auditor) -> Result<(), FinishError>
    requires ready { NoneIsReady auditor.now.nodes }
    requires reached { NoneIsReached auditor.now.nodes auditor.now.losing }
    ensures ended { MatchResult result (λ _. HasAllIn auditor.now) (RefusesFinish auditor.now) }
    ensures round { last_round result ≡ Ok tt }
{
    if let Some(fault) = auditor.unsettled() {
        return Err(FinishError::NeverSent(fault));
    }
    match auditor.unsettled_loss() {
        None => Ok(()),
        Some(frame) => Err(FinishError::LostUnsent(frame)),
    }
}

/// Tells whether a round of this cluster can have this auditor.
///
/// # Errors
///
/// The first that holds:
///
/// 1. `NotAudited`: the cluster is settled at its end.
/// 2. `OtherCluster`: the auditor was made for another number of nodes, or with another start.
/// 3. `Fault`: the auditor has a fault.
fn check_round<G: Gate + Drop>(cluster: &Cluster<G>, auditor: &Auditor) -> Result<(), RoundError>
    ensures ok { OnOk result (IsAuditorOf cluster.now auditor.now × (auditor.now.fault ≡ None)) }
    ensures not_audited { IsErrOf result RoundError.NotAudited ↔ (cluster.now.audited ≡ false) }
    ensures other_cluster { IsErrOf result RoundError.OtherCluster
        ↔ ((cluster.now.audited ≡ true) × (IsAuditorOf cluster.now auditor.now → ⊥)) }
    ensures fault { (fault : audit_fault.AuditFault) → IsErrOf result (RoundError.Fault fault)
        ↔ (IsAuditorOf cluster.now auditor.now × (auditor.now.fault ≡ Some fault)) }
    ensures not_lost { (frame : Frame) → IsErrOf result (RoundError.NotLost frame) → ⊥ }
    ensures memory { IsErrOf result RoundError.Memory → ⊥ }
    ensures taken { (node : ℕ) (cause : TakeError) → IsErrOf result (RoundError.NotTaken node cause) → ⊥ }
    ensures audited { IsAudited auditor.now.world auditor.now.nodes }
    ensures lost { HasLost auditor.now.world.moves auditor.now.lost }
    ensures sent { AllWereSent auditor.now.nodes auditor.now.world.moves auditor.now.lost }
{
    let known = auditor.fault();
    if !cluster.is_audited() {
        return Err(RoundError::NotAudited);
    }
    if !auditor.is_for(cluster.nodes(), cluster.start()) {
        return Err(RoundError::OtherCluster);
    }
    match known {
        Some(fault) => Err(RoundError::Fault(fault)),
        None => Ok(()),
    }
}

/// Has a round of a cluster, whose auditor this is and has no fault.
///
/// # Errors
///
/// Those of [`Auditor::audit`] from `Memory` on, and `Fault`.
fn go_round<R: Wait, G: Gate + Drop, O: MarkObserver>(
    rt: &R,
    alloc: Global,
    cluster: &Cluster<G>,
    auditor: &mut Auditor,
    observer: &mut O,
) -> Result<(), RoundError>
    requires audited { IsAudited auditor.old.world auditor.old.nodes }
    requires lost { HasLost auditor.old.world.moves auditor.old.lost }
    requires sent { AllWereSent auditor.old.nodes auditor.old.world.moves auditor.old.lost }
    requires count { auditor.old.world.count ≡ cluster.now.nodes }
    requires audited_cluster { cluster.now.audited ≡ true }
    requires unfaulted { auditor.old.fault ≡ None }
    ensures audits { AuditsByAnswer auditor.old (O.told observer.old) auditor.new (O.told observer.new) result }
    ensures granted { O.granted observer.new ≡ O.granted observer.old }
    ensures ok { OnOk result (NoneIsReady auditor.new.nodes) }
    ensures none_reached { OnOk result (NoneIsReached auditor.new.nodes auditor.new.losing) }
    ensures kept { OnOk result (NoneIsKept auditor.new.nodes) }
    ensures may_be_put { OnOk result
        (All (MayBePut (clocks_taken auditor.old.nodes) auditor.new.nodes) auditor.new.nodes) }
    ensures not_audited { IsErrOf result RoundError.NotAudited → ⊥ }
    ensures other_cluster { IsErrOf result RoundError.OtherCluster → ⊥ }
    ensures found { (fault : audit_fault.AuditFault) → IsErrOf result (RoundError.Fault fault)
        → IsMisfit auditor.new.world auditor.new.nodes fault
        ⊎ IsUnsent (clocks_taken auditor.old.nodes) auditor.new.nodes fault }
    ensures fault { (fault : audit_fault.AuditFault) → IsErrOf result (RoundError.Fault fault)
        ↔ (auditor.new.fault ≡ Some fault) }
    ensures not_lost { (frame : Frame) → IsErrOf result (RoundError.NotLost frame)
        → NoneIsReady auditor.new.nodes × IsNotLost auditor.new.world auditor.new.nodes auditor.new.losing frame }
    ensures memory { IsErrOf result RoundError.Memory
        → ((auditor.new ≡ auditor.old) × (O.told observer.new ≡ O.told observer.old)) ⊎ CanBePut auditor.new }
    ensures not_taken { (node : ℕ) (cause : TakeError) → IsErrOf result (RoundError.NotTaken node cause)
        → NoneIsReady auditor.new.nodes × NoneIsReached auditor.new.nodes auditor.new.losing
        × IsNotTaken auditor.new.nodes node cause }
{
    // A frame that was taken by now came before this round takes its sender's events.
    let Ok(clocks) = auditor.clocks(alloc) else {
        return Err(RoundError::Memory);
    };
    let taken = take_all(rt, alloc, cluster, auditor);
    let advanced = auditor.advance(alloc, observer);
    // No `?`, which is dearer to prove: each clause would be carried over to the answer that it makes.
    match answer_of(taken, advanced) {
        Ok(()) => match auditor.find_unsent(&clocks) {
            Some(fault) => Err(RoundError::Fault(fault)),
            None => Ok(()),
        },
        Err(refused) => Err(refused),
    }
}

/// Returns what a round answers after it took events and put them into the run.
fn answer_of(
    taken: Result<(), (NodeId, TakeError)>,
    advanced: Result<(), AuditError>,
) -> Result<(), RoundError>
    ensures ok { OnOk result (IsOk advanced × IsOk taken) }
    ensures not_audited { IsErrOf result RoundError.NotAudited → ⊥ }
    ensures other_cluster { IsErrOf result RoundError.OtherCluster → ⊥ }
    ensures fault { (fault : audit_fault.AuditFault) → IsErrOf result (RoundError.Fault fault)
        ↔ IsErrOf advanced (AuditError.Fault fault) }
    ensures not_lost { (frame : Frame) → IsErrOf result (RoundError.NotLost frame)
        → IsErrOf advanced (AuditError.NotLost frame) }
    ensures memory { IsErrOf result RoundError.Memory ↔ IsErrOf advanced AuditError.Memory }
    ensures not_taken { (node : ℕ) (cause : TakeError) → IsErrOf result (RoundError.NotTaken node cause)
        → IsOk advanced × IsErrOf taken (node, cause) }
{
    match (advanced, taken) {
        (Err(AuditError::Fault(fault)), _) => Err(RoundError::Fault(fault)),
        (Err(AuditError::NotLost(frame)), _) => Err(RoundError::NotLost(frame)),
        (Err(AuditError::Memory), _) => Err(RoundError::Memory),
        (Ok(()), Err((node, cause))) => Err(RoundError::NotTaken { node, cause }),
        (Ok(()), Ok(())) => Ok(()),
    }
}

/// Takes what has happened at each node since the round before.
///
/// # Errors
///
/// The first node whose events were not taken, and why. Those of the nodes after it were not taken either.
fn take_all<R: Wait, G: Gate + Drop>(
    rt: &R,
    alloc: Global,
    cluster: &Cluster<G>,
    auditor: &mut Auditor,
) -> Result<(), (NodeId, TakeError)>
    requires audited { IsAudited auditor.old.world auditor.old.nodes }
    requires count { auditor.old.world.count ≡ cluster.now.nodes }
    requires audited_cluster { cluster.now.audited ≡ true }
    ensures more { TakesByAnswer auditor.old auditor.new result }
    ensures kept { OnOk result (NoneIsKept auditor.new.nodes) }
    ensures not_taken { (node : ℕ) (cause : TakeError) → IsErrOf result (node, cause)
        → IsNotTaken auditor.new.nodes node cause }
{
    for place in 0..cluster.nodes() {
        // Nodes are counted from 1.
        take_from(rt, alloc, cluster, place + 1, auditor)?;
    }
    Ok(())
}

/// Takes what has happened at the node with this number since the round before.
///
/// # Errors
///
/// The node, and why its events were not taken.
fn take_from<R: Wait, G: Gate + Drop>(
    rt: &R,
    alloc: Global,
    cluster: &Cluster<G>,
    number: u16,
    auditor: &mut Auditor,
) -> Result<(), (NodeId, TakeError)>
    requires number { IsNodeNumber number }
    requires member { number ≤ cluster.now.nodes }
    requires audited { cluster.now.audited ≡ true }
    ensures more { TakesMoreAt auditor.old number auditor.new }
    ensures all { OnOk result
        (TakesAllAt auditor.old.nodes auditor.old.losing number auditor.new.nodes auditor.new.losing) }
    ensures not_taken { (node : ℕ) (cause : TakeError) → IsErrOf result (node, cause)
        → number ≤ length auditor.old.nodes
        → (node ≡ number) × NotTakenAt auditor.old.nodes number cause auditor.new.nodes }
{
    let Some(node) = NodeId::new(number) else {
        unreachable!()
    };
    let Some(site) = cluster.site(node) else {
        unreachable!()
    };
    match auditor.take_handed(rt, alloc, site) {
        Ok(()) => Ok(()),
        Err(cause) => Err((node, cause)),
    }
}

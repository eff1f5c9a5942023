//! Events of running nodes that are put into one run of the cluster.
ghost use Rattle.std.specs.Prelude.{◌≡◌, ◌≢◌, ◌↔◌, ◌++◌, ◌<◌, ℕ, length, map, slice_index_or, sum_by, IsTrue, IsErrOf, OnOk, MatchOption};
ghost use Rattle.std.specs.List.{AllWithin, range_with_len};
ghost use Rattle.ra_frame.specs.declared.frame.Frame.{Frame};
ghost use Rattle.ra_world.specs.Traffic.{lost_by};
ghost use Rattle.ra_audit.specs.Audit.{ProgressState, IsAudited, IsReached, IsDue, IsReady, NoneIsReady, CanGoOn, IsMisfit, Advances};
ghost use Rattle.ra_audit.specs.AuditKeeping.{IsTracked, StaySent};

use crate::auditor::flights::Flights;
use crate::auditor::node_progress::NodeProgress;
use crate::{AuditError, AuditFault, MarkObserver};
use ra_book::step_of;
use ra_frame::Frame;
use ra_site::BookKind;
use ra_stamp::Mark;
use ra_world::{MarklessWorld, StepError};
use std::alloc::Global;

/// Puts each event that can be put into the run, and tells the observer the marks. Each turn looks at the nodes from
/// the one of the turn before on, so that it mostly looks at that one alone. If none from there on can go on, it looks
/// at all.
///
/// # Errors
///
/// Whichever comes first; what was put before stays.
///
/// 1. `Fault`: an event that is due does not fit the run.
/// 2. `Memory`: an event is due that fits.
pub fn put_all<O: MarkObserver>(
    alloc: Global,
    world: &mut MarklessWorld,
    nodes: &mut [NodeProgress],
    flights: &mut Flights,
    observer: &mut O,
) -> Result<(), AuditError>
    requires audited { IsAudited world.old nodes.old }
    requires tracked { IsTracked nodes.old world.old.moves flights.old }
    ensures tracked { IsTracked nodes.new world.new.moves flights.new }
    ensures stay { StaySent nodes.old world.old.moves nodes.new world.new.moves }
    ensures advances { Advances world.old nodes.old (O.told observer.old) world.new nodes.new (O.told observer.new) }
    ensures granted { O.granted observer.new ≡ O.granted observer.old }
    ensures unlost { lost_by world.new.moves ≡ lost_by world.old.moves }
    ensures ok { OnOk result (NoneIsReady nodes.new) }
    ensures fault { (fault : AuditFault) → IsErrOf result (AuditError.Fault fault)
        → IsMisfit world.new nodes.new fault }
    ensures memory { IsErrOf result AuditError.Memory → CanGoOn world.new nodes.new }
    ensures not_lost { (frame : Frame) → IsErrOf result (AuditError.NotLost frame) → ⊥ }
{
    let mut near = 0;
    while let Some(place) = ready_near(nodes, near) {
        put_next(alloc, world, nodes, flights, place, observer)?;
        near = place;
    }
    Ok(())
}

/// Puts the next event of the node at this place into the run, and tells the observer its marks.
///
/// # Errors
///
/// Nothing has changed in the run:
///
/// 1. `Fault`: it does not fit the run.
/// 2. `Memory`: it fits.
fn put_next<O: MarkObserver>(
    alloc: Global,
    world: &mut MarklessWorld,
    nodes: &mut [NodeProgress],
    flights: &mut Flights,
    place: usize,
    observer: &mut O,
) -> Result<(), AuditError>
    requires audited { IsAudited world.old nodes.old }
    requires tracked { IsTracked nodes.old world.old.moves flights.old }
    requires within { place < length nodes.old }
    requires ready { (d : ProgressState) → IsReady nodes.old (slice_index_or nodes.old place d) }
    ensures advances { Advances world.old nodes.old (O.told observer.old) world.new nodes.new (O.told observer.new) }
    ensures granted { O.granted observer.new ≡ O.granted observer.old }
    ensures unlost { lost_by world.new.moves ≡ lost_by world.old.moves }
    ensures tracked { IsTracked nodes.new world.new.moves flights.new }
    ensures stay { StaySent nodes.old world.old.moves nodes.new world.new.moves }
    ensures fewer { OnOk result (sum_by (λ p. length p.waiting) nodes.new < sum_by (λ p. length p.waiting) nodes.old) }
    ensures fault { (fault : AuditFault) → IsErrOf result (AuditError.Fault fault)
        → IsMisfit world.new nodes.new fault }
    ensures memory { IsErrOf result AuditError.Memory → CanGoOn world.new nodes.new }
    ensures not_lost { (frame : Frame) → IsErrOf result (AuditError.NotLost frame) → ⊥ }
{
    if flights.note_last(alloc).is_err() {
        return Err(refusal_without_room(world, nodes, flights, place));
    }
    let progress = &mut nodes[place];
    let Some(event) = progress.next() else {
        unreachable!()
    };
    let node = progress.node();
    // A frame was never sent if its clock is not that of the event that sent its message.
    if !flights.has_frame_of(&event.kind) {
        return Err(AuditError::Fault(AuditFault { node, event }));
    }
    let step = step_of(node, &event.kind);
    match world.step(alloc, &step) {
        Ok(outcome) => {
            progress.put();
            tell_all(observer, outcome.marks.as_slice());
            flights.go_on(&event, outcome.sends);
            Ok(())
        }
        Err(refused) => Err(error_of(refused, AuditFault { node, event })),
    }
}

/// Returns why the next event of the node at this place is not put if there is no room to note what the last event
/// sent: memory ran out, unless the event does not fit the run. It does not allocate.
fn refusal_without_room(
    world: &MarklessWorld,
    nodes: &[NodeProgress],
    flights: &Flights,
    place: usize,
) -> AuditError
    requires audited { IsAudited world.now nodes.now }
    requires tracked { IsTracked nodes.now world.now.moves flights.now }
    requires within { place < length nodes.now }
    requires ready { (d : ProgressState) → IsReady nodes.now (slice_index_or nodes.now place d) }
    ensures memory { result ≡ AuditError.Memory → CanGoOn world.now nodes.now }
    ensures fault { (fault : AuditFault) → result ≡ AuditError.Fault fault → IsMisfit world.now nodes.now fault }
    ensures not_lost { (frame : Frame) → result ≡ AuditError.NotLost frame → ⊥ }
{
    let progress = &nodes[place];
    let Some(event) = progress.next() else {
        unreachable!()
    };
    let node = progress.node();
    let step = step_of(node, &event.kind);
    if !flights.flies_of(&event.kind) {
        return AuditError::Fault(AuditFault { node, event });
    }
    if !world.accepts(&step) {
        return AuditError::Fault(AuditFault { node, event });
    }
    AuditError::Memory
}

/// Returns why an event is not put, if its step is refused: memory ran out, or it does not fit.
fn error_of(refused: StepError, fault: AuditFault) -> AuditError
    ensures memory { refused ≡ StepError.Memory ↔ result ≡ AuditError.Memory }
    ensures fault { refused ≢ StepError.Memory → result ≡ AuditError.Fault fault }
    ensures not_lost { (frame : Frame) → result ≡ AuditError.NotLost frame → ⊥ }
{
    match refused {
        StepError::Memory => AuditError::Memory,
        StepError::NoNode | StepError::NotUnderWay | StepError::Node(_) => AuditError::Fault(fault),
    }
}

/// Tells an observer marks in their order.
fn tell_all<O: MarkObserver>(observer: &mut O, marks: &[Mark])
    ensures told { O.told observer.new ≡ O.told observer.old ++ marks.now }
    ensures granted { O.granted observer.new ≡ O.granted observer.old }
{
    for mark in marks {
        observer.tell(mark);
    }
}

/// Returns the place of the first node whose next event can be put, from this place on and then from the first node on.
/// Returns `None` if there is none.
fn ready_near(nodes: &[NodeProgress], near: usize) -> Option<usize>
    requires { (count : ℕ) × (map (λ p. p.node) nodes.now ≡ range_with_len 1 count) }
    ensures { MatchOption result (NoneIsReady nodes.now) (λ place. (place < length nodes.now)
        × ((d : ProgressState) → IsReady nodes.now (slice_index_or nodes.now place d))) }
{
    if let Some(place) = ready_from(nodes, near) {
        return Some(place);
    }
    ready_from(nodes, 0)
}

/// Returns the first place from this one on of a node whose next event can be put.
fn ready_from(nodes: &[NodeProgress], start: usize) -> Option<usize>
    requires { (count : ℕ) × (map (λ p. p.node) nodes.now ≡ range_with_len 1 count) }
    ensures { MatchOption result (AllWithin (λ p. IsReady nodes.now p → ⊥) nodes.now start (length nodes.now))
        (λ place. (place < length nodes.now)
        × ((d : ProgressState) → IsReady nodes.now (slice_index_or nodes.now place d))) }
{
    for place in start..nodes.len() {
        if is_ready(nodes, &nodes[place]) {
            return Some(place);
        }
    }
    None
}

/// Returns whether the next event of a node can be put.
fn is_ready(nodes: &[NodeProgress], progress: &NodeProgress) -> bool
    requires { (count : ℕ) × (map (λ p. p.node) nodes.now ≡ range_with_len 1 count) }
    ensures { IsTrue result ↔ IsReady nodes.now progress.now }
{
    match progress.next() {
        Some(event) => is_due(nodes, &event.kind),
        None => false,
    }
}

/// Returns whether an event can be put: whether the run has come to the frame, if it is one that came.
fn is_due(nodes: &[NodeProgress], kind: &BookKind) -> bool
    requires { (count : ℕ) × (map (λ p. p.node) nodes.now ≡ range_with_len 1 count) }
    ensures { IsTrue result ↔ IsDue nodes.now kind.now }
{
    match kind {
        BookKind::Receive(frame) => is_reached(nodes, frame),
        BookKind::Ask { .. }
        | BookKind::Leave { .. }
        | BookKind::Cancel { .. }
        | BookKind::Forget => true,
    }
}

/// Returns whether the run has come to a frame: whether all events of its sender up to its clock are in the run.
pub fn is_reached(nodes: &[NodeProgress], frame: &Frame) -> bool
    requires { (count : ℕ) × (map (λ p. p.node) nodes.now ≡ range_with_len 1 count) }
    ensures { IsTrue result ↔ IsReached nodes.now frame.now }
{
    match nodes.get(frame.message.from().place()) {
        Some(progress) => frame.clock <= progress.clock(),
        None => true,
    }
}

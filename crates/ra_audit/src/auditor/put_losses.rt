//! Losses that are put into the run of an auditor.
ghost use Rattle.std.specs.Prelude.{◌≡◌, ◌≢◌, ◌⊎◌, ◌++◌, ◌∷◌, ◌<◌, ◌^◌, [], List, All, length, IsErrOf, OnOk, OnErr};
ghost use Rattle.ra_stamp.specs.declared.entry.Mark.{Mark};
ghost use Rattle.ra_frame.specs.declared.frame.Frame.{Frame};
ghost use Rattle.ra_world.specs.Traffic.{IsUnderWay, lost_by};
ghost use Rattle.ra_audit.specs.Audit.{IsAudited, Advances, PutsLosses, CanGoOn, IsMisfit, IsNotLost, NoneIsReady, NoneIsReached, WasSentIn};
ghost use Rattle.ra_audit.specs.AuditKeeping.{HasInRun, LooksAtFirst, IsTracked, StaySent};

use crate::auditor::flights::Flights;
use crate::auditor::node_progress::NodeProgress;
use crate::auditor::noted_losses::Losses;
use crate::auditor::put_events::{is_reached, put_all};
use crate::{AuditError, AuditFault, MarkObserver};
use ra_frame::Frame;
use ra_world::{MarklessWorld, Step, StepError};
use std::alloc::Global;

/// Puts each event that can be put into the run, and tells the observer the marks. Then it puts the loss of each frame
/// that the run has reached.
///
/// # Errors
///
/// Whichever comes first; what was put before stays.
///
/// 1. `Fault`: an event that is due does not fit the run.
/// 2. `NotLost`: all events that can be put are in the run, and it has come to a frame whose loss is still to be put,
///    but the message is not under way, or was not sent with the frame's clock.
/// 3. `Memory`: an event is due that fits, or all events that can be put are in the run, and some loss is still to be
///    put.
pub fn put_events_and_losses<O: MarkObserver>(
    alloc: Global,
    world: &mut MarklessWorld,
    nodes: &mut [NodeProgress],
    flights: &mut Flights,
    losses: &mut Losses,
    observer: &mut O,
) -> Result<(), AuditError>
    requires { HasInRun world.old nodes.old flights.old losses.old }
    ensures run { HasInRun world.new nodes.new flights.new losses.new }
    ensures advances { Advances world.old nodes.old (O.told observer.old) world.new nodes.new (O.told observer.new) }
    ensures granted { O.granted observer.new ≡ O.granted observer.old }
    ensures losses { PutsLosses nodes.new losses.old.losing losses.old.lost losses.new.losing losses.new.lost }
    ensures ok { OnOk result (NoneIsReady nodes.new × NoneIsReached nodes.new losses.new.losing) }
    ensures fault { (fault : AuditFault) → IsErrOf result (AuditError.Fault fault)
        → IsMisfit world.new nodes.new fault }
    ensures memory { IsErrOf result AuditError.Memory
        → CanGoOn world.new nodes.new ⊎ (NoneIsReady nodes.new × (0 < length losses.new.losing)) }
    ensures not_lost { (frame : Frame) → IsErrOf result (AuditError.NotLost frame)
        → NoneIsReady nodes.new × IsNotLost world.new nodes.new losses.new.losing frame }
{
    put_all(alloc, world, nodes, flights, observer)?;
    losses.take_noted()?;
    put_losses(alloc, world, nodes, flights, losses)
}

/// Puts the loss of each frame that the run has reached into the run, in order. The cost is that of a step of a
/// [`MarklessWorld`] for each of these, and constant for each other one.
///
/// # Errors
///
/// Whichever comes first; what was put before stays.
///
/// 1. `NotLost`: the run has come to a frame, but its message is not under way, or was not sent with the frame's clock.
///    Its loss is still to be put.
/// 2. `Memory`.
fn put_losses(
    alloc: Global,
    world: &mut MarklessWorld,
    nodes: &[NodeProgress],
    flights: &mut Flights,
    losses: &mut Losses,
) -> Result<(), AuditError>
    requires run { HasInRun world.old nodes.now flights.old losses.old }
    requires taken { losses.old.noted ≡ [] }
    ensures advances { (told : List Mark) → Advances world.old nodes.now told world.new nodes.now told }
    ensures losses { PutsLosses nodes.now losses.old.losing losses.old.lost losses.new.losing losses.new.lost }
    ensures run { HasInRun world.new nodes.now flights.new losses.new }
    ensures ok { OnOk result (NoneIsReached nodes.now losses.new.losing) }
    ensures some { OnErr result (0 < length losses.new.losing) }
    ensures not_lost { (frame : Frame) → IsErrOf result (AuditError.NotLost frame)
        → IsNotLost world.new nodes.now losses.new.losing frame }
    ensures no_fault { (fault : AuditFault) → IsErrOf result (AuditError.Fault fault) → ⊥ }
{
    let mut left = losses.losing();
    while left > 0 {
        // No `?`: the prover takes none on this error in a function without a type parameter.
        match put_first(alloc, world, nodes, flights, losses) {
            Ok(()) => left -= 1,
            Err(refused) => return Err(refused),
        }
    }
    Ok(())
}

/// Puts the first loss into the run if the run has come to its frame, and otherwise leaves it for later, after the
/// others.
///
/// # Errors
///
/// Nothing has changed in the run:
///
/// 1. `Memory`, which may also come in place of `NotLost`.
/// 2. `NotLost`: the run has come to the frame, but its message is not under way, or was not sent with this clock.
fn put_first(
    alloc: Global,
    world: &mut MarklessWorld,
    nodes: &[NodeProgress],
    flights: &mut Flights,
    losses: &mut Losses,
) -> Result<(), AuditError>
    requires run { HasInRun world.old nodes.now flights.old losses.old }
    requires taken { losses.old.noted ≡ [] }
    requires some { 0 < length losses.old.losing }
    ensures advances { (told : List Mark) → Advances world.old nodes.now told world.new nodes.now told }
    ensures run { HasInRun world.new nodes.now flights.new losses.new }
    ensures ok { OnOk result (LooksAtFirst nodes.now losses.old losses.new) }
    ensures err { OnErr result (losses.new ≡ losses.old) }
    ensures not_lost { (frame : Frame) → IsErrOf result (AuditError.NotLost frame)
        → IsNotLost world.new nodes.now losses.new.losing frame }
    ensures no_fault { (fault : AuditFault) → IsErrOf result (AuditError.Fault fault) → ⊥ }
{
    let Some(frame) = losses.first() else {
        unreachable!()
    };
    if !is_reached(nodes, &frame) {
        losses.defer();
        return Ok(());
    }
    // No `?`, as in `put_losses`.
    match put_loss(alloc, world, nodes, flights, &frame) {
        Ok(()) => {
            losses.put();
            Ok(())
        }
        Err(refused) => Err(refused),
    }
}

/// Puts the loss of a frame into the run.
///
/// # Errors
///
/// Nothing has changed in the run:
///
/// 1. `Memory`, which may also come in place of `NotLost`.
/// 2. `NotLost`: the message of the frame is not under way, or was not sent with this clock.
fn put_loss(
    alloc: Global,
    world: &mut MarklessWorld,
    nodes: &[NodeProgress],
    flights: &mut Flights,
    frame: &Frame,
) -> Result<(), AuditError>
    requires audited { IsAudited world.old nodes.now }
    requires tracked { IsTracked nodes.now world.old.moves flights.old }
    ensures advances { (told : List Mark) → Advances world.old nodes.now told world.new nodes.now told }
    ensures tracked { IsTracked nodes.now world.new.moves flights.new }
    ensures stay { StaySent nodes.now world.old.moves nodes.now world.new.moves }
    ensures sent { OnOk result (WasSentIn nodes.now world.new.moves frame.now) }
    ensures lost { OnOk result (lost_by world.new.moves ≡ lost_by world.old.moves ++ frame.now.message ∷ []) }
    ensures few { OnOk result (length (lost_by world.new.moves) < 2 ^ 64) }
    ensures err { OnErr result (world.new ≡ world.old) }
    ensures not_lost { (found : Frame) → IsErrOf result (AuditError.NotLost found)
        → (found ≡ frame.now)
        × (IsUnderWay world.new.moves frame.now.message → WasSentIn nodes.now world.new.moves frame.now → ⊥) }
    ensures no_fault { (fault : AuditFault) → IsErrOf result (AuditError.Fault fault) → ⊥ }
{
    if flights.note_last(alloc).is_err() {
        return Err(AuditError::Memory);
    }
    if !flights.has(frame) {
        return Err(AuditError::NotLost(*frame));
    }
    let step = Step::Lose(frame.message);
    match world.step(alloc, &step) {
        Ok(_outcome) => {
            // For the proof: no more messages were lost than steps were made, and there are at most 2^64-1 steps.
            let _ = world.steps();
            flights.take(&frame.message);
            Ok(())
        }
        Err(refused) => Err(error_of(refused, *frame)),
    }
}

/// Returns why the loss of a frame is not put, if its step is refused: memory ran out, or its message is not under way.
fn error_of(refused: StepError, frame: Frame) -> AuditError
    ensures memory { refused ≡ StepError.Memory → result ≡ AuditError.Memory }
    ensures not_lost { refused ≢ StepError.Memory → result ≡ AuditError.NotLost frame }
    ensures no_fault { (fault : AuditFault) → result ≡ AuditError.Fault fault → ⊥ }
{
    match refused {
        StepError::Memory => AuditError::Memory,
        StepError::NoNode | StepError::NotUnderWay | StepError::Node(_) => AuditError::NotLost(
            frame,
        ),
    }
}

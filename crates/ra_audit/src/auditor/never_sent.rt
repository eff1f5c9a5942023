//! Frames that came and were never sent, found while the nodes go on.
ghost use Rattle.std.specs.Prelude.{◌≡◌, ◌<◌, ◌≤◌, ℕ, false, map, All, Some, IfOk, IfSome, IsNone, IsTrue, MatchOption, slice_get, slice_index_or};
ghost use Rattle.std.specs.List.{range_with_len};
ghost use Rattle.ra_book.specs.History.{clock_of};
ghost use Rattle.ra_frame.specs.declared.frame.Frame.{Frame};
ghost use Rattle.ra_book.specs.declared.book.event.BookEvent.{BookEvent};
ghost use Rattle.ra_book.specs.declared.book.event.BookKind.{BookKind};
ghost use Rattle.ra_audit.specs.Audit.{NoneIsReady, IsReady, IsDue, MayCome, MayComeFrom, MayBePut, IsUnsent, clocks_taken};
ghost use Rattle.ra_audit.specs.AuditKeeping.{HasNone, IsOfNone};

use crate::AuditFault;
use crate::auditor::node_progress::NodeProgress;
use ra_site::BookKind;
use ra_stamp::Memory;
use std::alloc::Global;

/// Returns, of each node, the clock of the last event that was taken from it, or 0 before the first.
pub fn clocks_of(alloc: Global, nodes: &[NodeProgress]) -> Result<Vec<u64>, Memory>
    ensures { IfOk result (λ clocks. clocks.items ≡ clocks_taken nodes.now) }
{
    let mut clocks = Vec::new(alloc);
    for progress in nodes {
        clocks.push(progress.latest())?;
    }
    Ok(clocks)
}

/// Returns a frame that is the next event of its node and was never sent, or `None` if each frame that waits as the
/// next event of its node may still be put. The nodes had these clocks before their last events were taken. The cost is
/// linear in the number of nodes.
pub fn first_unsent(nodes: &[NodeProgress], clocks: &[u64]) -> Option<AuditFault>
    requires numbers { (count : ℕ) × (map (λ p. p.node) nodes.now ≡ range_with_len 1 count) }
    requires none_ready { NoneIsReady nodes.now }
    ensures { MatchOption result (All (MayBePut clocks.now nodes.now) nodes.now) (IsUnsent clocks.now nodes.now) }
{
    for place in 0..nodes.len() {
        if let Some(fault) = unsent_of(nodes, &nodes[place], clock_at(clocks, place)) {
            return Some(fault);
        }
    }
    None
}

/// Returns the clock at this place, or 0 if it has none.
fn clock_at(clocks: &[u64], place: usize) -> u64
    ensures { result ≡ slice_index_or clocks.now place 0 }
{
    match clocks.get(place) {
        Some(clock) => *clock,
        None => 0,
    }
}

/// Returns the next event of a node if it is a frame that was never sent. The node had the clock `known` before the
/// last events of all nodes were taken.
fn unsent_of(nodes: &[NodeProgress], progress: &NodeProgress, known: u64) -> Option<AuditFault>
    requires numbers { (count : ℕ) × (map (λ p. p.node) nodes.now ≡ range_with_len 1 count) }
    requires not_ready { IsReady nodes.now progress.now → ⊥ }
    ensures may { IsNone result → (event : BookEvent) → slice_get progress.now.waiting 0 ≡ Some event
        → MayCome nodes.now (known < event.clock) event.kind }
    ensures unsent { IfSome result
        (λ fault. (fault.node ≡ progress.now.node) × (slice_get progress.now.waiting 0 ≡ Some fault.event)
        × IsOfNone nodes.now (fault.event.clock ≤ known) fault.event.kind) }
{
    let event = progress.next()?;
    if may_come(nodes, &event.kind, event.clock, known) {
        return None;
    }
    let node = progress.node();
    Some(AuditFault { node, event })
}

/// Returns whether a frame that came at this clock of its node may have been sent by an event that is still to be put
/// into the run. Other events are not frames.
fn may_come(nodes: &[NodeProgress], kind: &BookKind, came: u64, known: u64) -> bool
    requires { (count : ℕ) × (map (λ p. p.node) nodes.now ≡ range_with_len 1 count) }
    ensures may { IsTrue result → MayCome nodes.now (known < came) kind.now }
    ensures none { result ≡ false → (IsDue nodes.now kind.now → ⊥) → IsOfNone nodes.now (came ≤ known) kind.now }
    // The answer for all other events is yes, although each of them can be put into the run at once.
    ensures frames { result ≡ false → (frame : Frame) × (kind.now ≡ BookKind.Receive frame) }
{
    match kind {
        BookKind::Receive(frame) => match nodes.get(frame.message.from().place()) {
            Some(progress) => may_come_from(progress, frame.clock, came, known),
            None => true,
        },
        BookKind::Ask { .. }
        | BookKind::Leave { .. }
        | BookKind::Cancel { .. }
        | BookKind::Forget => true,
    }
}

/// Returns whether the event of the sender that has this clock may still be put into the run. The frame came at the
/// clock `came` of its node, and is new if that is above `known`.
fn may_come_from(sender: &NodeProgress, clock: u64, came: u64, known: u64) -> bool
    ensures may { IsTrue result → MayComeFrom clock (known < came) sender.now }
    ensures none { result ≡ false → clock_of sender.now.settled < clock → HasNone clock (came ≤ known) sender.now }
{
    let next = sender.next();
    if sender.latest() < clock {
        return known < came;
    }
    match next {
        Some(first) => first.clock <= clock,
        None => false,
    }
}

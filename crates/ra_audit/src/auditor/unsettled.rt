//! Events that were taken and are not in the run.
ghost use Rattle.std.specs.Prelude.{◌≡◌, ◌≤◌, ◌∷◌, ◌++◌, [], List, length, sum_by};
ghost use Rattle.ra_audit.specs.Audit.{ProgressState, AreNextAt, taken_of};
ghost use Rattle.ra_audit.specs.AuditKeeping.{AreTaken, IsLeastOf, IsLeastWaiting};

use crate::AuditFault;
use crate::auditor::node_progress::NodeProgress;

/// Returns how many events were taken and are not in the run.
pub fn waiting_at(nodes: &[NodeProgress]) -> u128
    requires { length nodes.now ≤ 64 }
    ensures { result ≡ sum_by (λ p. length p.waiting) nodes.now }
{
    let mut waiting = 0;
    for progress in nodes {
        waiting += progress.waiting() as u128;
    }
    waiting
}

/// Returns the event with the least clock of those that wait first at their nodes, or `None` if none waits.
pub fn least_waiting(nodes: &[NodeProgress]) -> Option<AuditFault>
    ensures least { IsLeastOf nodes.now result }
    ensures taken { AreTaken nodes.now }
{
    let mut least = None;
    for progress in nodes {
        least = lesser_of(least, first_of(progress));
    }
    least
}

/// Returns the event that waits first at a node, or `None` if none waits.
fn first_of(progress: &NodeProgress) -> Option<AuditFault>
    ensures first { IsLeastOf (progress.now ∷ []) result }
    ensures taken { AreNextAt progress.now.node 0 (taken_of progress.now) }
{
    let node = progress.node();
    let event = progress.next()?;
    Some(AuditFault { node, event })
}

/// Returns the one with the lesser clock, and the first of two with one clock.
fn lesser_of(first: Option<AuditFault>, second: Option<AuditFault>) -> Option<AuditFault>
    ensures { (a b : List ProgressState) → IsLeastOf a first → IsLeastOf b second → IsLeastOf (a ++ b) result }
{
    match second {
        Some(other) => Some(lesser(first, other)),
        None => first,
    }
}

/// Returns the first one, unless it is missing or the other one has a lesser clock.
fn lesser(first: Option<AuditFault>, other: AuditFault) -> AuditFault
    ensures { (a b : List ProgressState) → IsLeastOf a first → IsLeastWaiting b other → IsLeastWaiting (a ++ b) result }
{
    match first {
        Some(one) => {
            if one.event.clock <= other.event.clock {
                one
            } else {
                other
            }
        }
        None => other,
    }
}

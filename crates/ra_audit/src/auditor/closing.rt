//! Whether all that the books of a closed cluster say is in the run of an auditor.
ghost use Rattle.std.specs.Prelude.{◌≡◌, ◌≢◌, ◌↔◌, ℕ, length, IsErrOf, IfSome, IsNone, OnOk};
ghost use Rattle.ra_audit.specs.Audit.{IsAllIn, AreAllIn, IsFirstNotAllIn};

use crate::BehindError;
use crate::auditor::node_progress::NodeProgress;
use ra_site::Book;
use ra_stamp::NodeId;

/// Tells whether all of the history of each of these books is in the run. The cost is linear in the number of nodes.
///
/// # Errors
///
/// The first that holds:
///
/// 1. `OtherCount`: there are more or fewer books than nodes.
/// 2. `Behind`: the first node whose book is not all in the run.
pub fn check_all(nodes: &[NodeProgress], books: &[Book]) -> Result<(), BehindError>
    ensures ok { OnOk result (AreAllIn nodes.now books.now) }
    ensures other_count { IsErrOf result BehindError.OtherCount ↔ (length books.now ≢ length nodes.now) }
    ensures behind { (node : ℕ) → IsErrOf result (BehindError.Behind node) → IsFirstNotAllIn nodes.now books.now node }
{
    if books.len() != nodes.len() {
        return Err(BehindError::OtherCount);
    }
    match first_not_all_in(nodes, books) {
        Some(node) => Err(BehindError::Behind(node)),
        None => Ok(()),
    }
}

/// Returns the first node whose book is not all in the run, or `None` if all books are.
pub fn first_not_all_in(nodes: &[NodeProgress], books: &[Book]) -> Option<NodeId>
    requires { length books.now ≡ length nodes.now }
    ensures all { IsNone result → AreAllIn nodes.now books.now }
    ensures found { IfSome result (IsFirstNotAllIn nodes.now books.now) }
{
    for place in 0..nodes.len() {
        if let Some(node) = node_not_all_in(&nodes[place], &books[place]) {
            return Some(node);
        }
    }
    None
}

/// Returns the node if not all of the history of this book is in the run, by the clock of the last event.
fn node_not_all_in(progress: &NodeProgress, book: &Book) -> Option<NodeId>
    ensures all { IsNone result → IsAllIn progress.now book.now }
    ensures found { IfSome result (λ node. (node ≡ progress.now.node) × (IsAllIn progress.now book.now → ⊥)) }
{
    let node = progress.node();
    if book.me() != node {
        return Some(node);
    }
    if book.clock() != progress.clock() {
        return Some(node);
    }
    None
}

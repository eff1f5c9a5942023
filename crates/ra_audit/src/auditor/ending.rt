//! The end of an audit and of its cluster, in one call.
ghost use Rattle.std.specs.Prelude.{◌≡◌, ℕ, [], Some, IsErrOf, MatchResult, Ok, OnOk, length, slice_get};
ghost use Rattle.ra_site.specs.Losses.{lost_frames};
ghost use Rattle.ra_frame.specs.declared.frame.Frame.{Frame};
ghost use Rattle.ra_audit.specs.declared.audit_error.FinishError.{FinishError};
ghost use Rattle.ra_audit.specs.Audit.{AnswersRound, AreAllIn, ClosesAudit, IsFirstNotAllIn, RefusesClose, round_of, still_lost};

use crate::auditor::closing::first_not_all_in;
use crate::auditor::node_progress::NodeProgress;
use crate::{Auditor, CloseError, MarkObserver};
use ra_frame::Frame;
use ra_site::{Book, Cluster, Gate};
use std::alloc::Global;
use std::sync::Wait;

/// A cluster that was not closed with all that happened in the run of its auditor.
#[derive(Drop)]
pub struct NotClosed<G> {
    /// Why.
    pub cause: CloseError,
    /// The cluster, if its audit did not end. Otherwise it is closed.
    pub cluster: Option<Cluster<G>>,
    /// The books of the closed cluster.
    pub books: Vec<Book>,
}

impl Auditor {
    /// Ends the audit of a cluster as [`Auditor::finish`] does, closes the cluster as [`Cluster::close_audited`] does,
    /// and checks the books as [`Auditor::check_books`] does. If it is Ok, all that the books say is in the run, by the
    /// clock, and none of the frames that they still have is flagged lost. It returns the books of the nodes, in their
    /// order.
    ///
    /// The cost is that of these calls, plus time linear in the number of frames that the books still have, which is 0
    /// after a round.
    ///
    /// # Errors
    ///
    /// The first that holds:
    ///
    /// 1. `NotFinished`: the audit did not end, as [`Auditor::finish`] says. The cluster is returned, so that the call
    ///    can be made again after `NotTaken` for `Memory`, and after `Memory`.
    /// 2. `Behind`: the first node with a book that is not all in the run, as [`Auditor::check_books`] says.
    /// 3. `StillLost`: the first frame, by node and in order of sending, that a book still has flagged lost, so that
    ///    its loss is not in the run.
    pub fn close<R: Wait, G: Gate + Drop, O: MarkObserver>(
        &mut self,
        rt: &R,
        alloc: Global,
        cluster: Cluster<G>,
        observer: &mut O,
    ) -> Result<Vec<Book>, NotClosed<G>>
        ensures closed { MatchResult result (λ books. ClosesAudit self.new books.items)
            (λ e. RefusesClose cluster self.new e.cause e.cluster e.books.items) }
        ensures round { MatchResult result
            (λ _. AnswersRound cluster self.old (O.told observer.old) self.new (O.told observer.new) (Ok tt))
            (λ e. AnswersRound cluster self.old (O.told observer.old) self.new (O.told observer.new)
            (round_of e.cause)) }
        ensures granted { O.granted observer.new ≡ O.granted observer.old }
    {
        if let Err(cause) = self.end(rt, alloc, &cluster, observer) {
            return Err(NotClosed {
                cause: CloseError::NotFinished(cause),
                cluster: Some(cluster),
                books: Vec::new(alloc),
            });
        }
        let books = cluster.close_audited();
        match check_closed(&self.nodes, &books) {
            Ok(()) => Ok(books),
            Err(cause) => Err(NotClosed {
                cause,
                cluster: None,
                books,
            }),
        }
    }
}

/// Tells whether all that the books of a closed cluster say is in the run, and none of their frames is flagged lost.
///
/// # Errors
///
/// The first that holds:
///
/// 1. `Behind`: the first node whose book is not all in the run.
/// 2. `StillLost`: the first frame that is flagged lost.
fn check_closed(nodes: &[NodeProgress], books: &[Book]) -> Result<(), CloseError>
    requires { length books.now ≡ length nodes.now }
    ensures ok { OnOk result (AreAllIn nodes.now books.now × (still_lost books.now ≡ [])) }
    ensures not_finished { (cause : FinishError) → IsErrOf result (CloseError.NotFinished cause) → ⊥ }
    ensures behind { (node : ℕ) → IsErrOf result (CloseError.Behind node) → IsFirstNotAllIn nodes.now books.now node }
    ensures still_lost { (frame : Frame) → IsErrOf result (CloseError.StillLost frame)
        → AreAllIn nodes.now books.now × (slice_get (still_lost books.now) 0 ≡ Some frame) }
{
    if let Some(node) = first_not_all_in(nodes, books) {
        return Err(CloseError::Behind(node));
    }
    match first_still_lost(books) {
        Some(frame) => Err(CloseError::StillLost(frame)),
        None => Ok(()),
    }
}

/// Returns the first frame, by node and in order of sending, that a book has flagged lost, or `None`.
fn first_still_lost(books: &[Book]) -> Option<Frame>
    ensures { result ≡ slice_get (still_lost books.now) 0 }
{
    for book in books {
        if let Some(frame) = first_lost(book) {
            return Some(frame);
        }
    }
    None
}

/// Returns the first frame that the book has flagged lost, or `None` if there is none.
fn first_lost(book: &Book) -> Option<Frame>
    ensures { result ≡ slice_get (lost_frames book.now.sent) 0 }
{
    for place in 0..book.sent_len() {
        let Some(sent) = book.sent(place) else {
            unreachable!()
        };
        if sent.lost {
            return Some(sent.frame);
        }
    }
    None
}

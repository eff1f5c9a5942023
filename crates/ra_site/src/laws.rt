//! What is true of the grants of a site, and of requests that ended in a book. Each function does nothing, and its
//! contract is the law.
ghost use Rattle.std.specs.Prelude.{◌≡◌, ℕ, List};
ghost use Rattle.ra_stamp.specs.declared.entry.Mark.TheVariants.{Entered};
ghost use Rattle.ra_book.specs.declared.book.grant.Grant.{Grant};
ghost use Rattle.ra_book.specs.declared.book.event.BookKind.TheVariants.{Leave, Cancel};
ghost use Rattle.ra_book.specs.Book.{LeadsTo};
ghost use Rattle.ra_book.specs.Settled.{HasMark};
ghost use Rattle.ra_node.specs.Resource.{IsBusy};
ghost use Rattle.ra_node.specs.Node.{NodeState, resource_at};
ghost use Rattle.ra_site.specs.ClientGrant.{Giver};
ghost use Rattle.ra_site.specs.Recorded.{Recorder};

use ra_book::histories_are_determined;
use ra_node::{
    events_are_determined, events_go_on, events_keep_a_node_consistent,
    histories_keep_a_node_consistent,
};

/// A grant that a book gave is in that book: it is the book of the grant's node, and has the `Entered` mark of the
/// request, as [`settle`](crate::settle) requires of each grant.
pub fn given_grants_are_in_books()
    ensures { (grant : Grant) → (giver : Giver grant)
        → (giver.book.me ≡ grant.entry.stamp.node) × HasMark giver.book (Entered grant.entry) }
{
    // For the proof: the events of a node determine the node after them, and what they mark is of this node.
    histories_are_determined();
    histories_keep_a_node_consistent();
    events_keep_a_node_consistent();
    events_are_determined();
    events_go_on();
}

/// A request that ended in the last event of a given book is gone from the node to which that book leads: after a
/// cancel or a leave, the client neither waits there for the name, nor is queued, nor holds it.
pub fn ended_requests_are_gone()
    ensures given_up { (node client : ℕ) (name : List ℕ) (after : NodeState)
        → (recorder : Recorder node (Cancel client name)) → LeadsTo recorder.book after
        → IsBusy (resource_at after name) client → ⊥ }
    ensures given_back { (node client : ℕ) (name : List ℕ) (after : NodeState)
        → (recorder : Recorder node (Leave client name)) → LeadsTo recorder.book after
        → IsBusy (resource_at after name) client → ⊥ }
{
    // For the proof: the events of a node determine the node after them, which has no client twice.
    histories_are_determined();
    histories_keep_a_node_consistent();
    events_keep_a_node_consistent();
    events_are_determined();
    events_go_on();
}

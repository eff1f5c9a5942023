//! What is true of the clients of a cluster, by the books of its nodes. The function does nothing, and its contract is
//! the law.
ghost use Rattle.std.specs.Prelude.{◌+◌, ◌<◌, ℕ, List, All, Contains, length};
ghost use Rattle.ra_automaton.specs.Steps.{greatest_number};
ghost use Rattle.ra_node.specs.Node.{NodeState};
ghost use Rattle.ra_world.specs.declared.text.report.Report.{Report};
ghost use Rattle.ra_world.specs.MainTheorem.{IsQuietReport};
ghost use Rattle.ra_world.specs.Traffic.{Move};
ghost use Rattle.ra_world.specs.World.{Reports};
ghost use Rattle.ra_schedule.specs.Orderly.{WaitsForName};
ghost use Rattle.ra_book.specs.Book.{BookState, HasHistory, LeadsTo};
ghost use Rattle.ra_book.specs.Settled.{IsCluster, IsSettledRun, start_of};
ghost use Rattle.ra_cluster.specs.Progress.{TakesNamesInOrder, SomeoneCanGoOn, IsHeldInOrder};

use ra_book::histories_are_determined;
use ra_schedule::clients_in_order_never_deadlock;

/// Clients of threads never deadlock if each takes names in ascending order, one at a time. Suppose that the report of
/// a settled run says that nothing was lost and nothing is under way. Then, by the books, each name that is waited for
/// is held, and a client that holds it waits for nothing or for greater names. So a client that waits for a name waits
/// in the end for a client that can go on: that one waits for nothing, and holds the name or one above it. Numbers end
/// at 2^64-1, and some must be left for queued clients.
pub fn clients_of_settled_books_never_deadlock()
    ensures held { (books : List BookState) (moves : List Move) (report : Report) → IsCluster books
        → All HasHistory books
        → IsSettledRun books moves → Reports (length books) (start_of books) moves report → IsQuietReport report
        → All TakesNamesInOrder books → start_of books + report.requests < greatest_number
        → (book : BookState) (node : NodeState) (client : ℕ) (name : List ℕ)
        → Contains books book → LeadsTo book node → WaitsForName node client name → IsHeldInOrder books name }
    ensures goes_on { (books : List BookState) (moves : List Move) (report : Report) → IsCluster books
        → All HasHistory books
        → IsSettledRun books moves → Reports (length books) (start_of books) moves report → IsQuietReport report
        → All TakesNamesInOrder books → start_of books + report.requests < greatest_number
        → (book : BookState) (node : NodeState) (client : ℕ) (name : List ℕ)
        → Contains books book → LeadsTo book node → WaitsForName node client name → SomeoneCanGoOn books name }
{
    // For the proof: the events of a node determine the node after them.
    histories_are_determined();
    // For the proof: in any run, clients that take names in ascending order never deadlock.
    clients_in_order_never_deadlock();
}

//! What joins nodes with clocks and histories. The function does nothing, and its contract is the law.
ghost use Rattle.std.specs.Prelude.{◌≡◌, ℕ, List, map};
ghost use Rattle.ra_node.specs.Node.{NodeState};
ghost use Rattle.ra_book.specs.declared.book.event.BookEvent.{BookEvent};
ghost use Rattle.ra_book.specs.declared.book.sent.Sent.{Sent};
ghost use Rattle.ra_book.specs.History.{IsHistory, Posting, clock_of, frames_of};
ghost use Rattle.ra_book.specs.Book.{as_sent};
ghost use Rattle.ra_book.specs.Timed.{Timed, TakesEach, opening};

/// What a node with a clock took is a history, and each history is what such a node took. So a book is a node with a
/// clock and the lists of what it took.
pub fn timed_nodes_have_histories()
    // The events lead to the node as it is then, and the clock of the last one is the node's.
    ensures history { (me n start : ℕ) (postings : List Posting) (new : Timed)
        → TakesEach (opening me n start) postings new
        → (history : IsHistory me n start (map (λ p. p.event) postings) (as_sent (frames_of postings)) new.node)
        × (history.postings ≡ postings) × (clock_of (map (λ p. p.event) postings) ≡ new.clock) }
    ensures taken { (me n start : ℕ) (events : List BookEvent) (sent : List Sent) (node : NodeState)
        → (history : IsHistory me n start events sent node)
        → TakesEach (opening me n start) history.postings (record { node = node; clock = clock_of events }) }
{}

//! What is true of histories, for the crates above. Each function does nothing, and its contract is the law.
pub mod cut_books;
pub mod holders;
pub mod paired_books;
pub mod settled_fairness;
pub mod settling_with_copies;
pub mod timed_histories;

ghost use Rattle.std.specs.Prelude.{◌≡◌, ◌≤◌, ◌^◌, ◌++◌, ◌∷◌, [], ℕ, List, map};
ghost use Rattle.ra_stamp.specs.declared.entry.Mark.{Mark};
ghost use Rattle.ra_stamp.specs.declared.message.Message.{Message};
ghost use Rattle.ra_node.specs.Node.{NodeState, opening_node};
ghost use Rattle.ra_node.specs.Events.{NodeEvent, IsForThisNode};
ghost use Rattle.ra_book.specs.declared.book.event.BookEvent.{BookEvent};
ghost use Rattle.ra_book.specs.declared.book.event.BookKind.{BookKind};
ghost use Rattle.ra_book.specs.declared.book.sent.Sent.{Sent};
ghost use Rattle.ra_book.specs.History.{IsHistory, node_event, clock_after, clock_of, frames_at};
ghost use Rattle.ra_book.specs.Book.{as_sent};

/// A node that has met nothing has the empty history. A history goes on with each event of its node, as long as a clock
/// is left; what the event sends comes after the frames so far.
pub fn histories_go_on()
    ensures opening { (me n start : ℕ) → IsHistory me n start [] [] (opening_node me n start) }
    ensures event { (me n start : ℕ) (events : List BookEvent) (sent : List Sent) (old new : NodeState)
        (kind : BookKind) (sends : List Message) (marks : List Mark)
        → IsHistory me n start events sent old
        → IsForThisNode (opening_node me n start) (node_event kind)
        → NodeEvent old (node_event kind) sends marks new
        → clock_after (clock_of events) kind ≤ 2 ^ 62
        → IsHistory me n start
        (events ++ record { clock = clock_after (clock_of events) kind; kind = kind } ∷ [])
        (sent ++ as_sent (frames_at (clock_after (clock_of events) kind) sends)) new }
    // What is known to be lost does not matter to the history.
    ensures flags { (me n start : ℕ) (events : List BookEvent) (sent sent' : List Sent) (node : NodeState)
        → IsHistory me n start events sent node → map (λ s. s.frame) sent' ≡ map (λ s. s.frame) sent
        → IsHistory me n start events sent' node }
{}

/// The events of a node determine what each of them sent and marked, the node after them, and so the frames.
pub fn histories_are_determined()
    ensures postings { (me n start : ℕ) (events : List BookEvent) (sent sent' : List Sent) (a b : NodeState)
        → (left : IsHistory me n start events sent a) → (right : IsHistory me n start events sent' b)
        → left.postings ≡ right.postings }
    ensures node { (me n start : ℕ) (events : List BookEvent) (sent sent' : List Sent) (a b : NodeState)
        → IsHistory me n start events sent a → IsHistory me n start events sent' b → a ≡ b }
    ensures frames { (me n start : ℕ) (events : List BookEvent) (sent sent' : List Sent) (a b : NodeState)
        → IsHistory me n start events sent a → IsHistory me n start events sent' b
        → map (λ s. s.frame) sent ≡ map (λ s. s.frame) sent' }
{}

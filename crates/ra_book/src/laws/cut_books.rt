//! Histories and books that end after some of their events. Each function does nothing, and its contract is the law.
ghost use Rattle.std.specs.Prelude.{◌≡◌, ◌<◌, ◌≤◌, ◌++◌, ℕ, List, All, length};
ghost use Rattle.ra_node.specs.Node.{NodeState};
ghost use Rattle.ra_book.specs.declared.book.event.BookEvent.{BookEvent};
ghost use Rattle.ra_book.specs.declared.book.sent.Sent.{Sent};
ghost use Rattle.ra_book.specs.Book.{BookState, IsWhole, HasHistory};
ghost use Rattle.ra_book.specs.Cut.{first_of, cut_books, NoMoreCame};
ghost use Rattle.ra_book.specs.History.{IsHistory, clock_of};
ghost use Rattle.ra_book.specs.Pairs.{AreFirstOf, PairsFit, come_from, sent_to};
ghost use Rattle.ra_book.specs.Settled.{IsCluster};

/// A history that is cut after some events is a history of the node, too, with the first of the frames: those whose
/// clocks are at most the clock of the last of these events. The other frames have greater clocks.
pub fn histories_can_be_cut()
    ensures { (me n start : ℕ) (events later : List BookEvent) (sent : List Sent) (node : NodeState)
        → IsHistory me n start (events ++ later) sent node
        → (first : List Sent) × (rest : List Sent) × (middle : NodeState) × (sent ≡ first ++ rest)
        × IsHistory me n start events first middle
        × All (λ s. s.frame.clock ≤ clock_of events) first × All (λ s. clock_of events < s.frame.clock) rest }
{}

/// What a book was after its first events is the book of its node, and nothing was taken from it. What came from a node
/// is the first of what comes from it in the whole book, and so is what was sent to one.
pub fn books_can_be_cut()
    ensures history { (count : ℕ) (book : BookState) → IsWhole book → HasHistory book
        → HasHistory (first_of count book) }
    ensures whole { (count : ℕ) (book : BookState) → IsWhole book → IsWhole (first_of count book) }
    ensures come { (count node : ℕ) (book : BookState)
        → AreFirstOf (come_from node (first_of count book)) (come_from node book) }
    ensures sent { (count node : ℕ) (book : BookState) → IsWhole book → HasHistory book
        → AreFirstOf (sent_to node (first_of count book)) (sent_to node book) }
    // A book that is cut again is as if it had been cut once, and one that keeps all its events is as it was.
    ensures again { (first count : ℕ) (book : BookState) → IsWhole book → HasHistory book → first ≤ count
        → first_of first (first_of count book) ≡ first_of first book }
    ensures all { (count : ℕ) (book : BookState) → IsWhole book → HasHistory book → length book.events ≤ count
        → first_of count book ≡ book }
{}

/// The books of a cluster, each after its first events, are the books of that cluster. If the pairs of the whole books
/// fit, and no more frames came by the books that are cut than were sent by them, their pairs fit, too. So do the books
/// on the disks of hosts, if a frame leaves a host only once it is on its disk.
pub fn clusters_can_be_cut()
    ensures cluster { (counts : ℕ → ℕ) (books : List BookState) → IsCluster books
        → IsCluster (cut_books counts books) }
    ensures histories { (counts : ℕ → ℕ) (books : List BookState) → IsCluster books → All HasHistory books
        → All HasHistory (cut_books counts books) }
    ensures pairs { (counts : ℕ → ℕ) (books : List BookState) → IsCluster books → All HasHistory books
        → PairsFit books → NoMoreCame (cut_books counts books) → PairsFit (cut_books counts books) }
{}

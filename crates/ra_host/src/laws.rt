//! What is true of hosts. Each function does nothing, and its contract is the law.
pub mod grants;
pub mod hosts;
pub mod running;

ghost use Rattle.std.specs.Prelude.{ℕ, List, All};
ghost use Rattle.ra_world.specs.Quiet.{IsQuiet};
ghost use Rattle.ra_world.specs.Traffic.{Move};
ghost use Rattle.ra_book.specs.Book.{BookState, HasHistory};
ghost use Rattle.ra_book.specs.Cut.{cut_books};
ghost use Rattle.ra_host.specs.Linked.{AreLinked, AreAcknowledged};
ghost use Rattle.ra_book.specs.Pairs.{PairsFit, AllHasCome};
ghost use Rattle.ra_book.specs.Settled.{IsCluster, IsSettledRun, BooksFit};

use ra_book::{
    books_can_be_cut, clusters_can_be_cut, paired_books_fit, what_has_not_come_is_under_way,
};
use ra_frame::round_trip;
use ra_link::{frames_are_taken_once_and_in_order, nothing_is_under_way_when_all_is_acknowledged};

/// The pairs of books of hosts fit, and so do those of what is on their disks, whatever the network and the crashes do.
/// So both fit, and what is on the disks is one run of the cluster.
pub fn linked_books_fit()
    ensures books { (kept : ℕ → ℕ) (books : List BookState) → IsCluster books → All HasHistory books
        → AreLinked kept books → PairsFit books }
    ensures disks { (kept : ℕ → ℕ) (books : List BookState) → IsCluster books → All HasHistory books
        → AreLinked kept books → PairsFit (cut_books kept books) }
    ensures books_fit { (kept : ℕ → ℕ) (books : List BookState) → IsCluster books → All HasHistory books
        → AreLinked kept books → BooksFit books }
    ensures disks_fit { (kept : ℕ → ℕ) (books : List BookState) → IsCluster books → All HasHistory books
        → AreLinked kept books → BooksFit (cut_books kept books) }
    ensures run { (kept : ℕ → ℕ) (books : List BookState) → IsCluster books → All HasHistory books
        → AreLinked kept books → (moves : List Move) × IsSettledRun (cut_books kept books) moves }
{
    // For the proof: a text is one frame's, a link takes frames once and in order, what is on the disks are the books
    // of a cluster, and books fit if their pairs do.
    round_trip();
    frames_are_taken_once_and_in_order();
    books_can_be_cut();
    clusters_can_be_cut();
    paired_books_fit();
}

/// Nothing is forgotten: if all hosts are up and ready, and have acknowledged all frames that were made for them, then
/// all that was sent has come, by the books of the hosts and by those on their disks. So each run of what is on the
/// disks is quiet at its end.
pub fn all_has_come_when_all_is_acknowledged()
    ensures linked { (kept : ℕ → ℕ) (books : List BookState) → AreAcknowledged kept books → AreLinked kept books }
    ensures books { (kept : ℕ → ℕ) (books : List BookState) → AreAcknowledged kept books → AllHasCome books }
    ensures disks { (kept : ℕ → ℕ) (books : List BookState) → IsCluster books → All HasHistory books
        → AreAcknowledged kept books → AllHasCome (cut_books kept books) }
    ensures quiet { (kept : ℕ → ℕ) (books : List BookState) (moves : List Move) → IsCluster books
        → All HasHistory books → AreAcknowledged kept books → IsSettledRun (cut_books kept books) moves
        → IsQuiet moves }
{
    // For the proof: the pairs on the disks fit, a text is one frame's, what is acknowledged was taken, and the books
    // of a cluster are on the disks, with nothing under way if everything has come.
    linked_books_fit();
    round_trip();
    books_can_be_cut();
    clusters_can_be_cut();
    what_has_not_come_is_under_way();
    nothing_is_under_way_when_all_is_acknowledged();
}

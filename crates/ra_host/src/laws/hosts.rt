//! What is true of n hosts in every state, whatever the network and the crashes do. Each function does nothing, and its
//! contract is the law.
ghost use Rattle.std.specs.Prelude.{◌≡◌, ◌<◌, ℕ, List, Some, true, false, All, length};
ghost use Rattle.ra_stamp.specs.NodeId.{IsNodeNumber};
ghost use Rattle.ra_stamp.specs.Mode.{Conflict};
ghost use Rattle.ra_stamp.specs.declared.entry.Entry.{Entry};
ghost use Rattle.ra_frame.specs.declared.frame.Frame.{Frame};
ghost use Rattle.ra_node.specs.Node.{NodeState, resource_at};
ghost use Rattle.ra_node.specs.Resource.{holder_of};
ghost use Rattle.ra_world.specs.Quiet.{IsQuiet};
ghost use Rattle.ra_world.specs.Traffic.{Move as WorldMove};
ghost use Rattle.ra_link.specs.Pair.{Who, after};
ghost use Rattle.ra_link.specs.Pair.{Event as PairEvent};
ghost use Rattle.ra_link.specs.PutBack.{Move as PairMove, after_moves, is_put_back};
ghost use Rattle.ra_book.specs.Book.{HasHistory, LeadsTo};
ghost use Rattle.ra_book.specs.Pairs.{AllHasCome, sent_to, come_from};
ghost use Rattle.ra_book.specs.Settled.{IsCluster, IsSettledRun, BooksFit};
ghost use Rattle.ra_host.specs.Host.{Host, Replays};
ghost use Rattle.ra_host.specs.Hosts.{Event, Hosts, Lead, Reaches, Step, AreTwo, AreWhole, puts_back_at};
ghost use Rattle.ra_host.specs.Hosts.{books_of, disks_of, IsReady, AreReady, AllIsAcknowledged};
ghost use Rattle.ra_host.specs.Projection.{pair_of};

use ra_book::{
    books_can_be_cut, clusters_can_be_cut, fitting_books_never_hold_in_conflict, histories_go_on,
    paired_books_fit, what_has_not_come_is_under_way,
};
use ra_link::{
    a_book_that_lacks_taken_frames_is_found_out, a_host_that_was_ready_lacks_nothing,
    a_host_whose_own_book_is_whole_is_not_accused, a_ready_host_is_not_accused,
    a_ready_host_lacks_nothing, frames_are_taken_once_and_in_order,
};

/// Each two hosts are at all times a pair of hosts as ra_link has them, whatever list of numbers a frame is there. So
/// each law of links holds of them. If no book was put back, none was in the pair, and if the first one's was not, it
/// was not in the pair.
pub fn each_two_hosts_are_a_pair()
    ensures whole { (text : Frame → List ℕ) (n start : ℕ) (events : List (ℕ × Event)) (s : Hosts) (i j : ℕ)
        → IsNodeNumber n → Reaches n start events s → AreTwo n i j → AreWhole events
        → (run : List (Who × PairEvent)) × (after run ≡ pair_of text s i j) }
    ensures put_back { (text : Frame → List ℕ) (n start : ℕ) (events : List (ℕ × Event)) (s : Hosts)
        (i j : ℕ) → IsNodeNumber n → Reaches n start events s → AreTwo n i j
        → (run : List (Who × PairMove)) × (after_moves run ≡ pair_of text s i j) }
    ensures own_is_whole { (text : Frame → List ℕ) (n start : ℕ) (events : List (ℕ × Event)) (s : Hosts)
        (i j : ℕ) → IsNodeNumber n → Reaches n start events s → AreTwo n i j
        → All (λ e. puts_back_at i e ≡ false) events
        → (run : List (Who × PairMove)) × (after_moves run ≡ pair_of text s i j)
        × All (λ m. is_put_back Who.One m.0 m.1 ≡ false) run }
{
    // For the proof: an event makes a history longer, and a crash cuts it.
    histories_go_on();
    books_can_be_cut();
}

/// The books of the hosts are those of a cluster, each the history of its node, whatever happens. If no book is put
/// back, the books fit, and so does what is on the disks: it is one run of the cluster, crashes included.
pub fn books_of_hosts_fit()
    ensures cluster { (n start : ℕ) (events : List (ℕ × Event)) (s : Hosts) → IsNodeNumber n
        → Reaches n start events s → IsCluster (books_of n s) × All HasHistory (books_of n s) }
    ensures disks_cluster { (n start : ℕ) (events : List (ℕ × Event)) (s : Hosts) → IsNodeNumber n
        → Reaches n start events s → IsCluster (disks_of n s) × All HasHistory (disks_of n s) }
    ensures books { (n start : ℕ) (events : List (ℕ × Event)) (s : Hosts) → IsNodeNumber n
        → Reaches n start events s → AreWhole events → BooksFit (books_of n s) }
    ensures disks { (n start : ℕ) (events : List (ℕ × Event)) (s : Hosts) → IsNodeNumber n
        → Reaches n start events s → AreWhole events → BooksFit (disks_of n s) }
    ensures run { (n start : ℕ) (events : List (ℕ × Event)) (s : Hosts) → IsNodeNumber n
        → Reaches n start events s → AreWhole events
        → (moves : List WorldMove) × IsSettledRun (disks_of n s) moves }
{
    // For the proof: what each host's book is, links take frames once and in order, and books fit if their pairs do.
    histories_go_on();
    books_can_be_cut();
    clusters_can_be_cut();
    frames_are_taken_once_and_in_order();
    paired_books_fit();
}

/// A book that was put back changes nothing once all hosts are ready: from then on the books fit, and so does what is
/// on the disks, through all crashes and new starts, as long as no book is put back again.
pub fn books_fit_once_all_hosts_were_ready()
    ensures books { (n start : ℕ) (before later : List (ℕ × Event)) (ready s : Hosts) → IsNodeNumber n
        → Reaches n start before ready → AreReady n ready → Lead n ready later s → AreWhole later
        → BooksFit (books_of n s) }
    ensures disks { (n start : ℕ) (before later : List (ℕ × Event)) (ready s : Hosts) → IsNodeNumber n
        → Reaches n start before ready → AreReady n ready → Lead n ready later s → AreWhole later
        → BooksFit (disks_of n s) }
    ensures run { (n start : ℕ) (before later : List (ℕ × Event)) (ready s : Hosts) → IsNodeNumber n
        → Reaches n start before ready → AreReady n ready → Lead n ready later s → AreWhole later
        → (moves : List WorldMove) × IsSettledRun (disks_of n s) moves }
{
    // For the proof: what each host's book is, what a link says of a host that was ready, and books fit if their pairs
    // do.
    histories_go_on();
    books_can_be_cut();
    clusters_can_be_cut();
    a_host_that_was_ready_lacks_nothing();
    paired_books_fit();
}

/// A book that was put back is found out, or it changes nothing: if another host has taken more of its frames than a
/// book has, then its host, once it has an ack of that one, can only end as it replays.
pub fn hosts_that_lack_taken_frames_end_at_their_replay()
    ensures { (n start : ℕ) (events : List (ℕ × Event)) (s : Hosts) (i j : ℕ) (new : Host) → IsNodeNumber n
        → Reaches n start events s → AreTwo n i j → (s.host i).up ≡ true
        → ((s.host i).links j).confirmed ≡ true → ((s.host i).links j).ready ≡ false
        → length (sent_to j (s.host i).book) < length (come_from i (s.host j).book)
        → Replays (s.host i) new → new.up ≡ false }
{
    // For the proof: each two hosts are a pair, and what links say of it.
    histories_go_on();
    books_can_be_cut();
    a_book_that_lacks_taken_frames_is_found_out();
}

/// Nothing is forgotten, even if books were put back: if all hosts are up and ready, and have acknowledged all frames
/// that were made for them, then all that was sent has come, by what is on the disks. So each run of it is quiet at its
/// end.
pub fn nothing_is_under_way_when_hosts_acknowledged_all()
    ensures come { (n start : ℕ) (events : List (ℕ × Event)) (s : Hosts) → IsNodeNumber n
        → Reaches n start events s → AllIsAcknowledged n s → AllHasCome (disks_of n s) }
    ensures quiet { (n start : ℕ) (events : List (ℕ × Event)) (s : Hosts) (moves : List WorldMove)
        → IsNodeNumber n → Reaches n start events s → AllIsAcknowledged n s
        → IsSettledRun (disks_of n s) moves → IsQuiet moves }
{
    // For the proof: what each host's book is, what links say when all is acknowledged, and that the pairs on the
    // disks fit, of which nothing is under way if all has come.
    histories_go_on();
    books_can_be_cut();
    clusters_can_be_cut();
    a_host_that_was_ready_lacks_nothing();
    a_ready_host_lacks_nothing();
    what_has_not_come_is_under_way();
}

/// Only an old book is found out: a host whose own book was never put back never ends by itself, even if the books of
/// others are put back.
pub fn hosts_with_whole_books_are_not_accused()
    ensures { (n start : ℕ) (events : List (ℕ × Event)) (s : Hosts) (i j : ℕ) → IsNodeNumber n
        → Reaches n start events s → AreTwo n i j → All (λ e. puts_back_at i e ≡ false) events
        → (s.host i).accused j ≡ false }
{
    // For the proof: each two hosts are a pair, and what links say of it.
    histories_go_on();
    books_can_be_cut();
    a_host_whose_own_book_is_whole_is_not_accused();
}

/// A ready host never ends by itself, whatever comes, even if books are put back. So a host that ends by itself has
/// neither said nor taken a frame since it started.
pub fn no_ready_host_is_accused()
    ensures { (n start : ℕ) (events : List (ℕ × Event)) (old new : Hosts) (i j : ℕ) (event : Event)
        → IsNodeNumber n → Reaches n start events old → AreTwo n i j → IsReady (old.host i)
        → Step old i event new → (new.host i).accused j ≡ false }
{
    // For the proof: each two hosts are a pair, and what links say of it.
    histories_go_on();
    books_can_be_cut();
    a_ready_host_is_not_accused();
}

/// No two hosts hold a name in modes that conflict, by the nodes to which their books lead: if no book is put back, in
/// every state, and otherwise from when all hosts are ready, as long as no book is put back again.
pub fn hosts_never_hold_in_conflict()
    ensures whole { (n start : ℕ) (events : List (ℕ × Event)) (s : Hosts) (i j : ℕ) (left right : NodeState)
        (name : List ℕ) (x y : Entry) → IsNodeNumber n → Reaches n start events s → AreWhole events → AreTwo n i j
        → LeadsTo (s.host i).book left → LeadsTo (s.host j).book right
        → holder_of (resource_at left name) ≡ Some x → holder_of (resource_at right name) ≡ Some y
        → ¬ Conflict x.mode y.mode }
    ensures ready { (n start : ℕ) (before later : List (ℕ × Event)) (ready s : Hosts) (i j : ℕ)
        (left right : NodeState) (name : List ℕ) (x y : Entry) → IsNodeNumber n → Reaches n start before ready
        → AreReady n ready → Lead n ready later s → AreWhole later → AreTwo n i j
        → LeadsTo (s.host i).book left → LeadsTo (s.host j).book right
        → holder_of (resource_at left name) ≡ Some x → holder_of (resource_at right name) ≡ Some y
        → ¬ Conflict x.mode y.mode }
{
    // For the proof: what each host's book is, that the books fit, and that fitting books never hold in conflict.
    histories_go_on();
    books_can_be_cut();
    books_of_hosts_fit();
    books_fit_once_all_hosts_were_ready();
    fitting_books_never_hold_in_conflict();
}

//! What clients of hosts hold. Each function does nothing, and its contract is the law.
ghost use Rattle.std.specs.Prelude.{◌≡◌, ◌≤◌, ℕ, List, All, Contains};
ghost use Rattle.ra_stamp.specs.Mode.{Conflict};
ghost use Rattle.ra_stamp.specs.NodeId.{IsNodeNumber};
ghost use Rattle.ra_stamp.specs.declared.entry.Entry.{Entry};
ghost use Rattle.ra_stamp.specs.declared.entry.Mark.TheVariants.{Entered};
ghost use Rattle.ra_book.specs.declared.book.event.BookKind.{BookKind};
ghost use Rattle.ra_book.specs.Book.{HasHistory};
ghost use Rattle.ra_host.specs.Grants.{IsHeld, IsItsLeave, MayEnd};
ghost use Rattle.ra_host.specs.Host.{Host, Happens};
ghost use Rattle.ra_host.specs.Hosts.{Event, Hosts, Lead, Reaches, AreReady, AreTwo, AreWhole};

use crate::laws::hosts::hosts_never_hold_in_conflict;
use ra_book::{books_can_be_cut, histories_are_determined, histories_go_on};
use ra_node::{
    events_keep_a_node_consistent, events_leave_other_names, histories_keep_a_node_consistent,
};

/// Told is held: what an event at a host's node grants, its client holds by the host's book, until it leaves the name.
/// So it is over whatever happens at all hosts, through ends and new starts, unless the host crashes or its book is put
/// back.
pub fn what_is_granted_is_held_until_its_client_leaves()
    ensures granted { (h new : Host) (kind : BookKind) (entry : Entry) → HasHistory h.book
        → (event : Happens h kind new) → Contains event.marks (Entered entry) → IsHeld new entry }
    ensures lasts { (h new : Host) (kind : BookKind) (entry : Entry) → HasHistory h.book → Happens h kind new
        → ¬ IsItsLeave entry kind → IsHeld h entry → IsHeld new entry }
    ensures hosts { (n start : ℕ) (before later : List (ℕ × Event)) (old new : Hosts) (i : ℕ) (entry : Entry)
        → IsNodeNumber n → Reaches n start before old → 1 ≤ i → i ≤ n → IsHeld (old.host i) entry
        → Lead n old later new → All (λ e. e.0 ≡ i → ¬ MayEnd entry e.1) later → IsHeld (new.host i) entry }
{
    // For the proof: how events change the use of a name, and that a book leads to one consistent node.
    histories_go_on();
    books_can_be_cut();
    histories_are_determined();
    events_keep_a_node_consistent();
    events_leave_other_names();
    histories_keep_a_node_consistent();
}

/// No two clients of different hosts hold a name in modes that conflict: if no book is put back, in every state, and
/// otherwise from when all hosts are ready, as long as no book is put back again.
pub fn clients_of_hosts_never_hold_in_conflict()
    ensures whole { (n start : ℕ) (events : List (ℕ × Event)) (s : Hosts) (i j : ℕ) (x y : Entry)
        → IsNodeNumber n → Reaches n start events s → AreWhole events → AreTwo n i j
        → IsHeld (s.host i) x → IsHeld (s.host j) y → x.name ≡ y.name → ¬ Conflict x.mode y.mode }
    ensures ready { (n start : ℕ) (before later : List (ℕ × Event)) (ready s : Hosts) (i j : ℕ) (x y : Entry)
        → IsNodeNumber n → Reaches n start before ready → AreReady n ready → Lead n ready later s → AreWhole later
        → AreTwo n i j → IsHeld (s.host i) x → IsHeld (s.host j) y → x.name ≡ y.name → ¬ Conflict x.mode y.mode }
{
    // For the proof: the nodes to which their books lead never hold in conflict.
    hosts_never_hold_in_conflict();
}

//! What is true of the clients of a host, whatever happens. Each function does nothing, and its contract is the law.
ghost use Rattle.std.specs.Prelude.{◌≡◌, ◌≢◌, ◌⊎◌, ◌+◌, ℕ, ◌≤◌, List, [], Option, Some, None, Contains, length};
ghost use Rattle.ra_book.specs.declared.book.event.BookKind.{BookKind};
ghost use Rattle.ra_book.specs.declared.book.event.BookKind.TheVariants.{Leave};
ghost use Rattle.ra_book.specs.Book.{HasHistory};
ghost use Rattle.ra_host.specs.Host.{Host, Happens};
ghost use Rattle.ra_clients.specs.AtHost.{AreHoldersAt, HoldsAt, IsByTurn, entered_in};
ghost use Rattle.ra_host_text.specs.declared.answer.Answer.TheVariants.{Refused, Unlocked};
ghost use Rattle.ra_host_text.specs.declared.answer.Refusal.{Refusal};
ghost use Rattle.ra_clients.specs.declared.uses.NameUse.{NameUse};
ghost use Rattle.ra_clients.specs.Uses.{use_of, without};
ghost use Rattle.ra_clients.specs.Clients.{Limits, Clients, Event, IsLeaving, Turn, Turns};
ghost use Rattle.ra_clients.specs.Clients.Event.{Gone, Refuse};
ghost use Rattle.ra_clients.specs.Counts.{IsCounted};
ghost use Rattle.ra_clients.specs.AtNode.{AreDistinct, AreHeld, Holding, IsAtNode, LetsIn, Step, TurnsIfAny};
ghost use Rattle.ra_clients.specs.Laws.{CanGiveBack, ChangesNothing, HoldsOrLeaves, IsAccountedFor, IsAsked, IsGrant, IsHolder, IsSound, IsTakenBack, IsUnconnected, IsUnlock, IsWithin, Lead, NeverLeaves, TellsGranted, TellsUnlocked};

use ra_host::what_is_granted_is_held_until_its_client_leaves;

/// Told is held: a client that is told `granted` waited for the name and holds it now, since its node let it in in this
/// very turn. It holds the name until its node is to give it back. That comes only if the client is told `unlocked` in
/// the same turn, or is gone, or is one of before the start that is released.
pub fn what_is_told_is_held()
    ensures granted { (l : Limits) (s : Clients) (e : Event) (t : Turn) (c : ℕ) (name : List ℕ) (seq node : ℕ)
        → Turns l s e t → TellsGranted t c name seq node → IsGrant s e c name seq node t }
    ensures lasts { (l : Limits) (s : Clients) (e : Event) (t : Turn) (k : ℕ) (name : List ℕ) → Turns l s e t
        → IsHolder s k name → HoldsOrLeaves k name t }
    ensures runs { (l : Limits) (old new : Clients) (turns : List (Event × Turn)) (k : ℕ) (name : List ℕ)
        → Lead l old turns new → IsHolder old k name → NeverLeaves k name turns → IsHolder new k name }
    ensures ends { (l : Limits) (s : Clients) (e : Event) (t : Turn) (k : ℕ) (name : List ℕ) → Turns l s e t
        → t.does ≡ Some (Leave k name) → TellsUnlocked s k name t ⊎ IsLeaving s k }
{}

/// Whoever holds a name holds it by the node, too, and no client has a name twice. If it was so before something
/// happened to the clients or at their node, it is so after it. Of the node two things are taken: a client that is let
/// in holds the name after the event, and it holds it until the node is to give it back. Of the node of a host they are
/// so by `the_node_of_a_host_keeps_what_its_clients_hold`.
pub fn who_holds_a_name_holds_it_by_the_node()
    ensures distinct { (l : Limits) (old new : Clients) (before after : Holding) (e : Option Event)
        → Step l old before e new after → AreDistinct old → AreHeld old before → AreDistinct new }
    ensures held { (l : Limits) (old new : Clients) (before after : Holding) (e : Option Event)
        → Step l old before e new after → AreDistinct old → AreHeld old before → AreHeld new after }
{}

/// No name is lost: in each turn, a client that had a name has it still, or its node is to give it back or to cancel
/// it, or has refused it.
pub fn no_name_is_lost()
    ensures { (l : Limits) (s : Clients) (e : Event) (t : Turn) (k : ℕ) (name : List ℕ) (had : NameUse)
        → Turns l s e t → use_of name (s.uses_of k) ≡ Some had → IsAccountedFor had e k name t }
{}

/// No `granted` comes after `unlocked`, unless the client asks for the name again: a client that is told `unlocked` has
/// unlocked the name, which it had, and has it no longer. It comes to have the name only in a turn in which it asks for
/// it, and only one that waits for the name is told `granted` (`what_is_told_is_held`).
pub fn unlocked_is_the_last_answer()
    ensures unlocked { (l : Limits) (s : Clients) (e : Event) (t : Turn) (c : ℕ) (name : List ℕ) → Turns l s e t
        → AreDistinct s → Contains t.tells (c, Unlocked name) → IsUnlock s e c name t }
    ensures comes { (l : Limits) (s : Clients) (e : Event) (t : Turn) (k : ℕ) (name : List ℕ) → Turns l s e t
        → use_of name (s.uses_of k) ≡ None
        → (use_of name (t.clients.uses_of k) ≡ None) ⊎ IsAsked e k name t }
{}

/// Who is gone can give all names back: from the turn in which its connection ends, the names of a client are to be
/// given back until it has none. There is a turn for each of them, in which its node is to give it back or to cancel it,
/// and then the client has one name less. That these turns happen is not said here.
pub fn who_is_gone_gives_all_back()
    ensures starts { (s : Clients) → IsUnconnected s → IsSound s }
    ensures sound { (l : Limits) (s : Clients) (e : Event) (t : Turn) → Turns l s e t → IsSound s → IsSound t.clients }
    ensures gone { (l : Limits) (s : Clients) (t : Turn) (c k : ℕ) → Turns l s (Gone c) t → IsSound s
        → s.number_of c ≡ Some k → IsLeaving t.clients k }
    ensures leaving { (l : Limits) (s : Clients) (e : Event) (t : Turn) (k : ℕ) → Turns l s e t → IsLeaving s k
        → s.uses_of k ≢ [] → IsLeaving t.clients k }
    ensures given { (l : Limits) (s : Clients) (k : ℕ) (name : List ℕ) (had : NameUse) → IsLeaving s k
        → use_of name (s.uses_of k) ≡ Some had → CanGiveBack l s k name had }
    ensures fewer { (name : List ℕ) (uses : List NameUse) (had : NameUse) → use_of name uses ≡ Some had
        → length (without name uses) + 1 ≡ length uses }
{}

/// A refusal changes nothing: if a client is told `refused`, all clients are as before, the node is to do nothing, and
/// no connection is closed. If it was the node that refused a name for which the client waited, this name goes, and
/// nothing else changes.
pub fn refusals_change_nothing()
    ensures told { (l : Limits) (s : Clients) (e : Event) (t : Turn) (c : ℕ) (name : List ℕ) (why : Refusal)
        → Turns l s e t → Contains t.tells (c, Refused name why) → ChangesNothing s e c name why t }
    ensures taken_back { (l : Limits) (s : Clients) (t : Turn) (k : ℕ) (name : List ℕ) (why : Refusal)
        → Turns l s (Refuse k name why) t → IsTakenBack s k name t }
{}

/// No client has more names than it may have, unless it had them before the start. `count` is how many connections have
/// a number, and there are never more of them than there may be.
pub fn clients_keep_within_their_limit()
    ensures names { (l : Limits) (s : Clients) (e : Event) (t : Turn) (k : ℕ) → Turns l s e t → IsWithin l s k
        → IsWithin l t.clients k }
    ensures starts { (s : Clients) → IsUnconnected s → IsCounted s }
    ensures counted { (l : Limits) (s : Clients) (e : Event) (t : Turn) → Turns l s e t → IsCounted s
        → IsCounted t.clients }
    ensures clients { (l : Limits) (s : Clients) (e : Event) (t : Turn) → Turns l s e t → s.count ≤ l.clients
        → t.clients.count ≤ l.clients }
{}

/// What `who_holds_a_name_holds_it_by_the_node` takes of a node is so of the node of a host, by its book: whoever an
/// event lets in holds the name after it, and holds it until the client's turn is that the node gives it back. So a
/// client that was told that it holds a name holds it by the book of its host.
pub fn the_node_of_a_host_keeps_what_its_clients_hold()
    ensures node { (h new : Host) (kind : BookKind) (does : Option BookKind) (held after : Holding)
        → HasHistory h.book → (event : Happens h kind new) → IsByTurn does kind → AreHoldersAt h held
        → AreHoldersAt new after → IsAtNode held does (entered_in event.marks) after }
    ensures told { (l : Limits) (old clients : Clients) (e : Option Event) (t : Turn) (h new : Host) (kind : BookKind)
        (held after : Holding) (k : ℕ) (name : List ℕ) → HasHistory h.book → (event : Happens h kind new)
        → TurnsIfAny l old e t → IsByTurn t.does kind → LetsIn l t.clients (entered_in event.marks) clients
        → AreHoldersAt h held → AreHoldersAt new after → AreDistinct old → AreHeld old held
        → IsHolder clients k name → HoldsAt new k name }
{
    // For the proof: what an event grants and keeps, and what clients make of it.
    what_is_granted_is_held_until_its_client_leaves();
    who_holds_a_name_holds_it_by_the_node();
}

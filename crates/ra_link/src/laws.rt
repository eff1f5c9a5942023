//! What holds of two hosts whatever the network and the crashes do: first of books that are whole, over every list of
//! what happens at the two (`after`), then of books that may be put back (`after_moves`). Each function does nothing,
//! and its contract is the law.
ghost use Rattle.std.specs.Prelude.{◌≡◌, ◌⊎◌, ◌≤◌, ◌<◌, ◌+◌, ℕ, List, Some, true, false, All, take, length, slice_get};
ghost use Rattle.ra_link.specs.declared.message.Message.{Message};
ghost use Rattle.ra_link.specs.Link.{greatest};
ghost use Rattle.ra_link.specs.Progress.{opposite, after_two_rounds, after_finding_rounds};
ghost use Rattle.ra_link.specs.Progress.{LackFew, IsSettled, OneHasEnded};
ghost use Rattle.ra_link.specs.PutBack.{Move, after_moves, is_put_back};
ghost use Rattle.ra_link.specs.Pair.Event.{Replays, Comes};
ghost use Rattle.ra_link.specs.Pair.{count_in, says_old, IsPrefixOf};
ghost use Rattle.ra_link.specs.Pair.{Event, Pair, Who, after, happens, run, this, other, said_by};

/// The frames that a host has taken, on its disk or not yet, are a prefix of those that the other one made and has on
/// its disk: each was taken once, and in order.
pub fn frames_are_taken_once_and_in_order()
    ensures taken { (events : List (Who × Event)) (who : Who) → let p = after events in
        IsPrefixOf (this who p).taken (take (other who p).sent_kept (other who p).sent) }
    ensures kept { (events : List (Who × Event)) (who : Who) → let p = after events in
        IsPrefixOf (take (this who p).taken_kept (this who p).taken) (take (other who p).sent_kept (other who p).sent) }
{}

/// What a host knows to be acknowledged is on the other's disk.
pub fn acknowledged_frames_are_on_the_disk()
    ensures { (events : List (Who × Event)) (who : Who) → let p = after events in
        (this who p).link.acknowledged ≤ (other who p).taken_kept }
{}

/// A host always has as many frames on its disk as it ever said to have there.
pub fn counts_are_true()
    ensures { (events : List (Who × Event)) (who : Who) → let p = after events in
        All (λ packet. count_in packet.message ≤ (this who p).taken_kept) (said_by who p) }
{}

/// If a host is up and ready and the other one has acknowledged all frames that were made for it, then it has taken
/// them all, and they are on both disks.
pub fn nothing_is_under_way_when_all_is_acknowledged()
    ensures { (events : List (Who × Event)) (who : Who) → let p = after events in
        (this who p).up ≡ true → (this who p).link.ready ≡ true
        → (this who p).link.acknowledged ≡ (this who p).link.made
        → ((other who p).taken ≡ (this who p).sent) × ((other who p).taken_kept ≡ length (other who p).taken)
        × ((this who p).sent_kept ≡ length (this who p).sent) }
{}

/// No host ever says that the other one's book is old.
pub fn no_old_is_said_of_whole_books()
    ensures { (events : List (Who × Event)) (who : Who) →
        All (λ packet. says_old packet.message ≡ false) (said_by who (after events)) }
{}

/// No host ends by itself, after whatever events.
pub fn whole_books_are_not_accused()
    ensures { (events : List (Who × Event)) (who : Who) → (this who (after events)).accused ≡ false }
{}

/// The hosts go on: whenever both are up, two rounds leave nothing under way, if each message arrives at once after it
/// is said, and nothing else happens. In the first one both ask, are answered, and acknowledge. In the second one both
/// say again what is not acknowledged, at most 1,000 frames each second, sync, and acknowledge. This round lasts a
/// second for each 1,000 frames that a host lacks. Only a host that has asked 2^64-2 questions since its start may be
/// unable to ask again.
pub fn two_rounds_leave_nothing_under_way()
    ensures { (events : List (Who × Event)) (seconds : ℕ) (who : Who) → let p = after events in
        p.one.up ≡ true → p.two.up ≡ true
        → p.one.link.asked + 1 < greatest → p.two.link.asked + 1 < greatest
        → LackFew seconds p → IsSettled who (after_two_rounds seconds p) }
{}

/// Even if books are put back: a host that has adopted the start of the other one which runs knows of no more frames to
/// be acknowledged than are on that one's disk. So it says again each frame that is not there.
pub fn what_is_known_of_a_running_start_is_on_its_disk()
    ensures { (all : List (Who × Move)) (who : Who) → let p = after_moves all in
        (this who p).up ≡ true → (other who p).up ≡ true
        → (other who p).link.adopted ≡ Some (this who p).link.own
        → (other who p).link.acknowledged ≤ (this who p).taken_kept }
{}

/// Even if books are put back: if a host is up and ready, its disk has each frame that the other one has taken from it,
/// and as many of the other's frames as the other's present start knows to be acknowledged. So a host whose book lacks
/// such a frame is never ready. It may lack frames that it acknowledged to an earlier start of the other one alone:
/// that one says them again. If both are ready and one knows that all its frames are acknowledged, the other one has
/// them.
pub fn a_ready_host_lacks_nothing()
    ensures taken { (all : List (Who × Move)) (who : Who) → let p = after_moves all in
        (this who p).up ≡ true → (this who p).link.ready ≡ true
        → IsPrefixOf (other who p).taken (take (this who p).sent_kept (this who p).sent) }
    ensures acknowledged { (all : List (Who × Move)) (who : Who) → let p = after_moves all in
        (this who p).up ≡ true → (this who p).link.ready ≡ true → (other who p).up ≡ true
        → (other who p).link.acknowledged ≤ (this who p).taken_kept }
    ensures settled { (all : List (Who × Move)) (who : Who) → let p = after_moves all in
        (this who p).up ≡ true → (this who p).link.ready ≡ true
        → (other who p).up ≡ true → (other who p).link.ready ≡ true
        → (this who p).link.acknowledged ≡ (this who p).link.made
        → ((other who p).taken ≡ (this who p).sent) × ((other who p).taken_kept ≡ length (other who p).taken)
        × ((this who p).sent_kept ≡ length (this who p).sent) }
{}

/// A ready host is not ended by an `Old` that comes, however late: it changes nothing.
pub fn a_ready_host_passes_old_over()
    ensures { (p : Pair) (who : Who) (which count : ℕ) (frame : List ℕ) →
        (this who p).up ≡ true → (this who p).link.ready ≡ true
        → slice_get (said_by (opposite who) p) which ≡ Some (record { message = Message.Old count; frame = frame })
        → happens p who (Comes which) ≡ p }
{}

/// A ready host never ends by itself, whatever comes, even if books are put back. So a host that ends by itself has
/// neither said nor taken a frame since it started.
pub fn a_ready_host_is_not_accused()
    ensures { (all : List (Who × Move)) (who : Who) (event : Event) → let p = after_moves all in
        (this who p).up ≡ true → (this who p).link.ready ≡ true → (this who (happens p who event)).accused ≡ false }
{}

/// Only an old book is found out: a host whose own book was never put back never ends by itself, and what the other one
/// has taken is a prefix of what is on its disk, even if the other's books are put back.
pub fn a_host_whose_own_book_is_whole_is_not_accused()
    ensures accused { (all : List (Who × Move)) (who : Who) → All (λ m. is_put_back who m.0 m.1 ≡ false) all
        → (this who (after_moves all)).accused ≡ false }
    ensures taken { (all : List (Who × Move)) (who : Who) → All (λ m. is_put_back who m.0 m.1 ≡ false) all
        → let p = after_moves all in
        IsPrefixOf (other who p).taken (take (this who p).sent_kept (this who p).sent) }
{}

/// A book that lacks what was taken is found out at its replay: if the other host has taken more frames than are in it,
/// then its host, once it has an ack, ends as it replays.
pub fn a_book_that_lacks_taken_frames_is_found_out()
    ensures { (all : List (Who × Move)) (who : Who) → let p = after_moves all in
        (this who p).up ≡ true → (this who p).link.confirmed ≡ true → (this who p).link.ready ≡ false
        → length (this who p).sent < length (other who p).taken
        → let after_it = this who (happens p who Replays) in (after_it.up ≡ false) × (after_it.accused ≡ true) }
{}

/// It lasts: once a host was ready, its disk has each frame that the other one has taken from it, and as many of the
/// other's frames as the other's present start knows to be acknowledged, through all crashes and new starts, as long as
/// no book is put back.
pub fn a_host_that_was_ready_lacks_nothing()
    ensures taken { (all : List (Who × Move)) (events : List (Who × Event)) (who : Who) → let p = after_moves all in
        (this who p).up ≡ true → (this who p).link.ready ≡ true
        → let q = run p events in IsPrefixOf (other who q).taken (take (this who q).sent_kept (this who q).sent) }
    ensures kept { (all : List (Who × Move)) (events : List (Who × Event)) (who : Who) → let p = after_moves all in
        (this who p).up ≡ true → (this who p).link.ready ≡ true
        → let q = run p events in
        IsPrefixOf (take (other who q).taken_kept (other who q).taken) (take (this who q).sent_kept (this who q).sent) }
    ensures acknowledged { (all : List (Who × Move)) (events : List (Who × Event)) (who : Who) →
        let p = after_moves all in
        (this who p).up ≡ true → (this who p).link.ready ≡ true
        → let q = run p events in
        (other who q).up ≡ true → (other who q).link.acknowledged ≤ (this who q).taken_kept }
{}

/// The hosts go on, or an old book is found out, even if books are put back. Whenever both hosts are up, two rounds
/// leave nothing under way, or a host has ended since its book is old, if each message arrives at once after it is
/// said, and nothing else happens. In the first one each host syncs before it answers, and one that was shown an old
/// book says so. The second one lasts a second for each 1,000 frames that a host lacks. This may fail only after a
/// start has asked 2^64-3 questions.
pub fn two_rounds_settle_or_find_out()
    ensures { (all : List (Who × Move)) (seconds : ℕ) (who : Who) → let p = after_moves all in
        p.one.up ≡ true → p.two.up ≡ true
        → p.one.link.asked + 2 < greatest → p.two.link.asked + 2 < greatest
        → LackFew seconds p
        → OneHasEnded (after_finding_rounds seconds p) ⊎ IsSettled who (after_finding_rounds seconds p) }
{}

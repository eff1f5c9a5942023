//! What the calls of a running host are in the machine of all hosts, and what it keeps. Each function does nothing, and
//! its contract is the law.
ghost use Rattle.std.specs.Prelude.{◌≡◌, ◌-◌, ◌<◌, ℕ, Option, Some, None, List, true, false, slice_get};
ghost use Rattle.ra_frame.specs.declared.frame.Frame.{Frame as BookFrame};
ghost use Rattle.ra_link.specs.declared.message.Message.TheVariants.{Hello, Welcome, Frame, Ack, Old};
ghost use Rattle.ra_link.specs.Link as rule;
ghost use Rattle.ra_link.specs.Pair.{was_used};
ghost use Rattle.ra_book.specs.declared.book.event.BookKind.{BookKind};
ghost use Rattle.ra_host.specs.Host.{Host, IsOther, Happens, IsOwn, TakesFrame, begins, connects, hears_ack, hears_hello, hears_old, hears_welcome, is_taken, syncs_book};
ghost use Rattle.ra_book.specs.Pairs.{sent_to};
ghost use Rattle.ra_host.specs.declared.links.Links.{Links};
ghost use Rattle.ra_host.specs.Host.{Replays as ReplaysBook};
ghost use Rattle.ra_host.specs.Hosts.{Event, Packet, Turns, says, silent};
ghost use Rattle.ra_host.specs.Outgoing.{frame_for};
ghost use Rattle.ra_host.specs.Played.{PlayedState};
ghost use Rattle.ra_host.specs.Ready.{AreOf};

/// The definitions that the calls of `Links` and `Host` cite are turns of a host in the machine of all hosts, if it
/// hears only what was said to it, and says what its links say. So the laws of the machine hold of a program that makes
/// these calls as its network and its disk go on. That a program does so is not proved.
pub fn what_a_host_does_are_turns()
    ensures begins { (back : ℕ → List Packet) (h : Host) (nonce : ℕ) → h.up ≡ false
        → was_used nonce h.starts ≡ false → Turns back h (Event.Start nonce) (silent (begins h nonce)) }
    ensures connects { (back : ℕ → List Packet) (h : Host) (j : ℕ) → h.up ≡ true → IsOther h j
        → Turns back h (Event.Connects j) (silent (connects h j)) }
    ensures hello { (back : ℕ → List Packet) (h : Host) (j which start question : ℕ) (frame : Option BookFrame)
        → h.up ≡ true → IsOther h j
        → slice_get (back j) which ≡ Some (record { message = Hello start question; frame = frame })
        → Turns back h (Event.Comes j which)
        (says (hears_hello h j start) j (Some (rule.welcome_of (h.links j) start question)) None) }
    ensures welcome { (back : ℕ → List Packet) (h : Host) (j which asker question start kept : ℕ)
        (frame : Option BookFrame) → h.up ≡ true → IsOther h j
        → slice_get (back j) which ≡ Some (record { message = Welcome asker question start kept; frame = frame })
        → Turns back h (Event.Comes j which) (silent (hears_welcome h j asker question start kept)) }
    ensures ack { (back : ℕ → List Packet) (h : Host) (j which start asker kept : ℕ) (frame : Option BookFrame)
        → h.up ≡ true → IsOther h j
        → slice_get (back j) which ≡ Some (record { message = Ack start asker kept; frame = frame })
        → Turns back h (Event.Comes j which) (silent (hears_ack h j start asker kept)) }
    ensures old { (back : ℕ → List Packet) (h : Host) (j which count : ℕ) (frame : Option BookFrame)
        → h.up ≡ true → IsOther h j
        → slice_get (back j) which ≡ Some (record { message = Old count; frame = frame })
        → Turns back h (Event.Comes j which) (silent (hears_old h j count)) }
    ensures frame { (back : ℕ → List Packet) (h new : Host) (j which start number : ℕ) (frame : BookFrame)
        → h.up ≡ true → IsOther h j
        → slice_get (back j) which ≡ Some (record { message = Frame start number; frame = Some frame })
        → is_taken h j start number frame ≡ true → TakesFrame h j start number frame new
        → Turns back h (Event.Comes j which) (silent new) }
    ensures passed { (back : ℕ → List Packet) (h : Host) (j which start number : ℕ) (frame : BookFrame)
        → h.up ≡ true → IsOther h j
        → slice_get (back j) which ≡ Some (record { message = Frame start number; frame = Some frame })
        → is_taken h j start number frame ≡ false → Turns back h (Event.Comes j which) (silent h) }
    ensures does { (back : ℕ → List Packet) (h new : Host) (kind : BookKind) → h.up ≡ true → IsOwn kind
        → Happens h kind new → Turns back h (Event.Does kind) (silent new) }
    ensures syncs { (back : ℕ → List Packet) (h : Host) → h.up ≡ true
        → Turns back h Event.Syncs (silent (syncs_book h)) }
    ensures says_hello { (back : ℕ → List Packet) (h : Host) (j : ℕ) → h.up ≡ true → IsOther h j
        → Turns back h (Event.Says_hello j) (says h j (rule.hello_of (h.links j)) None) }
    ensures says_ack { (back : ℕ → List Packet) (h : Host) (j : ℕ) → h.up ≡ true → IsOther h j
        → Turns back h (Event.Says_ack j) (says h j (rule.ack_of (h.links j)) None) }
    ensures says_old { (back : ℕ → List Packet) (h : Host) (j : ℕ) → h.up ≡ true → IsOther h j
        → Turns back h (Event.Says_old j) (says h j (rule.old_of (h.links j)) None) }
    ensures says_frame { (back : ℕ → List Packet) (h : Host) (j number : ℕ) → h.up ≡ true → IsOther h j
        → Turns back h (Event.Says_frame j number)
        (says h j (rule.frame_of (h.links j) number) (slice_get (sent_to j h.book) (number - 1))) }
    ensures replays { (back : ℕ → List Packet) (h new : Host) → h.up ≡ true → ReplaysBook h new
        → Turns back h Event.Replays (silent new) }
{}

/// A ready host keeps each frame that is on its disk and not acknowledged, as it is in its book. So `Host::frame`
/// returns it.
pub fn a_ready_host_keeps_what_others_lack()
    ensures { (links : Links) (p : PlayedState) (h : Host) (j number : ℕ) → AreOf links p h → IsOther h j
        → (h.links j).acknowledged < number → rule.may_say (h.links j) number ≡ true
        → (frame : BookFrame) × (frame_for p.outgoing (j - 1) number ≡ Some frame)
        × (slice_get (sent_to j h.book) (number - 1) ≡ Some frame) }
{}

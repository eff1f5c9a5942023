//! A host that is ready.
ghost use Rattle.std.specs.Prelude.{◌≡◌, ◌↔◌, ◌⊎◌, ◌-◌, ℕ, Some, length, slice_get, IfSome, IfOk, IfErr, IsTrue, IsOk, IsErr, IsErrOf};
ghost use Rattle.ra_automaton.specs.State.{IsOtherNode};
ghost use Rattle.ra_frame.specs.Fits.{Fits};
ghost use Rattle.ra_link.specs.Link as rule;
ghost use Rattle.ra_book.specs.declared.book.event.BookKind.TheVariants as kinds;
ghost use Rattle.ra_host.specs.Host as machine;
ghost use Rattle.ra_host.specs.Host.{IsOther, IsOwn, MayReplay, connects, hears_ack, hears_hello, hears_welcome, linked, Replays, ends, replays_book, syncs_book};
ghost use Rattle.ra_host.specs.Full.{is_full};
ghost use Rattle.ra_host.specs.Played.{IsPlayedOf, RefusesEvent};
ghost use Rattle.ra_book.specs.Book.{whole_events};
ghost use Rattle.ra_book.specs.History.{clock_of};
ghost use Rattle.ra_book.specs.Pairs.{sent_to};
ghost use Rattle.ra_host.specs.Outgoing.{frame_for};
ghost use Rattle.ra_host.specs.Ready.{AreOf, Happened, IsNext, both};
ghost use Rattle.ra_host.specs.Replaying.{DropsFew};
ghost use Rattle.ra_host.specs.Running.{AreLinksOf};

use crate::{CountError, EventError, Links, NoHost, Played};
use ra_book::BookKind;
use ra_frame::Frame;
use ra_link::{Heard, Message, OldBook};
use ra_node::Outcome;
use ra_stamp::NodeId;
use std::alloc::Global;

/// A host that is ready: its links, its node, and the frames that others have not acknowledged. What it takes does not
/// grow with the book.
///
/// Contracts say of which host of the machine these are (`AreOf`), and what becomes of that host: by the definition
/// that the machine of all hosts has for the same event.
#[derive(Drop)]
pub struct Host {
    links: Links,
    played: Played,
}

impl Host {
    /// Makes a ready host of its links and of its node, once `Links::may_replay` says so: the replay is over. The node
    /// had all events of the host's book, and dropped no frame that is not acknowledged. Say the frames that others
    /// lack then. The cost is linear in the number of hosts, and of the frames that were acknowledged since the replay
    /// began.
    ///
    /// # Errors
    ///
    /// `OldBook`: a host has acknowledged more frames than are in the book. The links and the node are gone, and the
    /// host ends.
    pub fn ready(links: Links, played: Played) -> Result<Host, OldBook>
        ensures ok { IfOk result (λ host. (h : machine.Host) → AreLinksOf links h → IsPlayedOf played h.book
            → MayReplay h → DropsFew played h
            → Replays h (replays_book h) × AreOf host.links host.played (replays_book h)) }
        ensures old { IsErr result → (h : machine.Host) → AreLinksOf links h → IsPlayedOf played h.book
            → MayReplay h → (j : ℕ) × Replays h (ends h j) }
    {
        let mut links = links;
        let mut played = played;
        match links.replay(&played) {
            Ok(()) => {}
            Err(why) => return Err(why),
        }
        played.drop_acknowledged(&links);
        Ok(Host { links, played })
    }

    /// Returns its links, which say what may be said to others. It does not allocate.
    pub fn links(&self) -> &Links
        ensures { result.now ≡ self.now.links }
    {
        &self.links
    }

    /// Returns the clock of the last event, or 0 if there was none. It does not allocate.
    pub fn clock(&self) -> u64
        ensures value { result ≡ self.now.played.timed.clock }
        ensures book { (h : machine.Host) → AreOf self.now.links self.now.played h
            → result ≡ clock_of (whole_events h.book) }
    {
        self.played.clock()
    }

    /// Returns the frame for a host with this number, counted from 1, and its message, if it is on the disk and not
    /// acknowledged. Say it then: a new one after the sync, and from time to time the first ones that are not
    /// acknowledged, as many as `Link::said_again` says. It does not allocate.
    pub fn frame(&self, other: NodeId, number: u64) -> Option<(Message, Frame)>
        ensures value { (h : machine.Host) → AreOf self.now.links self.now.played h → IsOther h other
            → result ≡ both (rule.frame_of (h.links other) number)
            (frame_for self.now.played.outgoing (other - 1) number) }
        ensures said { IfSome result (λ said. (h : machine.Host) → AreOf self.now.links self.now.played h
            → (rule.frame_of (h.links other) number ≡ Some said.0)
            × (slice_get (sent_to other h.book) (number - 1) ≡ Some said.1)) }
    {
        let Some(link) = self.links.get(other) else {
            return None;
        };
        let Some(message) = link.frame(number) else {
            return None;
        };
        let Some(frame) = self.played.frame(other, number) else {
            return None;
        };
        Some((message, frame))
    }

    /// There is a new connection to a host, as [`Links::connect`] says.
    ///
    /// # Errors
    ///
    /// `NoHost`: the cluster has no such other host. Nothing has changed.
    pub fn connect(&mut self, other: NodeId) -> Result<(), NoHost>
        ensures other { IsOk result ↔ IsOtherNode self.old.links.me (length self.old.links.links.items) other }
        ensures host { IsOk result → (h : machine.Host) → AreOf self.old.links self.old.played h
            → AreOf self.new.links self.new.played (connects h other) }
        ensures err { IsErr result → self.new ≡ self.old }
    {
        self.links.connect(other)
    }

    /// Hears the question of a host, and returns the answer, as [`Links::hear_hello`] says.
    ///
    /// # Errors
    ///
    /// `NoHost`: the cluster has no such other host. Nothing has changed.
    pub fn hear_hello(
        &mut self,
        other: NodeId,
        start: u128,
        question: u64,
    ) -> Result<Message, NoHost>
        ensures other { IsOk result ↔ IsOtherNode self.old.links.me (length self.old.links.links.items) other }
        ensures host { IsOk result → (h : machine.Host) → AreOf self.old.links self.old.played h
            → AreOf self.new.links self.new.played (hears_hello h other start) }
        ensures welcome { IfOk result (λ welcome. (h : machine.Host) → AreOf self.old.links self.old.played h
            → welcome ≡ rule.welcome_of (h.links other) start question) }
        ensures err { IsErr result → self.new ≡ self.old }
    {
        self.links.hear_hello(other, start, question)
    }

    /// Hears an answer of a host, as [`Links::hear_welcome`] says. The frames that it has acknowledged are not kept any
    /// more.
    ///
    /// # Errors
    ///
    /// The first that holds. Nothing has changed:
    ///
    /// 1. `NoHost`: the cluster has no such other host.
    /// 2. `OldBook`: it shows that this host's book is old. The host ends then.
    pub fn hear_welcome(
        &mut self,
        other: NodeId,
        asker: u128,
        question: u64,
        start: u128,
        kept: u64,
    ) -> Result<(), CountError>
        ensures no_host { IsErrOf result CountError.NoHost
            ↔ (IsOtherNode self.old.links.me (length self.old.links.links.items) other → ⊥) }
        ensures old_book { (h : machine.Host) → AreOf self.old.links self.old.played h
            → IsErrOf result CountError.OldBook
            ↔ (IsOther h other × IsTrue (rule.welcome_accuses (h.links other) asker question kept)) }
        ensures host { IsOk result → (h : machine.Host) → AreOf self.old.links self.old.played h
            → AreOf self.new.links self.new.played (hears_welcome h other asker question start kept) }
        ensures err { IsErr result → self.new ≡ self.old }
    {
        let count = match self.links.hear_welcome(other, asker, question, start, kept) {
            Ok(count) => count,
            Err(why) => return Err(why),
        };
        self.played.drop_first(other, count);
        Ok(())
    }

    /// Hears an ack of a host. The frames that it has acknowledged are not kept any more.
    ///
    /// # Errors
    ///
    /// The first that holds. Nothing has changed:
    ///
    /// 1. `NoHost`: the cluster has no such other host.
    /// 2. `OldBook`: it shows that this host's book is old. The host ends then.
    pub fn hear_ack(
        &mut self,
        other: NodeId,
        start: u128,
        asker: u128,
        kept: u64,
    ) -> Result<(), CountError>
        ensures no_host { IsErrOf result CountError.NoHost
            ↔ (IsOtherNode self.old.links.me (length self.old.links.links.items) other → ⊥) }
        ensures old_book { (h : machine.Host) → AreOf self.old.links self.old.played h
            → IsErrOf result CountError.OldBook
            ↔ (IsOther h other × IsTrue (rule.ack_accuses (h.links other) start asker kept)) }
        ensures host { IsOk result → (h : machine.Host) → AreOf self.old.links self.old.played h
            → AreOf self.new.links self.new.played (hears_ack h other start asker kept) }
        ensures err { IsErr result → self.new ≡ self.old }
    {
        let count = match self.links.hear_ack(other, start, asker, kept) {
            Ok(count) => count,
            Err(why) => return Err(why),
        };
        self.played.drop_first(other, count);
        Ok(())
    }

    /// The book is synced: all frames that were made and taken are on the disk. Say the new frames and the acks then.
    /// The cost is linear in the number of hosts.
    pub fn sync(&mut self)
        ensures { (h : machine.Host) → AreOf self.old.links self.old.played h
            → AreOf self.new.links self.new.played (syncs_book h) }
    {
        self.links.sync();
    }

    /// Makes an event of a client happen, or the node forget. Write it to the book, and sync it, before its frames are
    /// said. The cost is that of the node's call, and linear in the number of hosts.
    ///
    /// # Errors
    ///
    /// The first that holds, and nothing has changed:
    ///
    /// 1. `Full`: for some host fewer than 128 numbers of frames are left.
    /// 2. `Refused`: `Busy`, `Exhausted`, `NotHeld`, `NotWaiting`, then `ClockFull`, then `Memory`, which may come
    ///    before the others.
    pub fn happen(&mut self, alloc: Global, kind: &BookKind) -> Result<Outcome, EventError>
        requires { IsOwn kind.now }
        ensures happened { IfOk result (λ outcome. (h : machine.Host) → AreOf self.old.links self.old.played h
            → Happened h kind.now outcome self.new.links self.new.played) }
        ensures full { IsErrOf result EventError.Full ↔ IsTrue (is_full self.old.played.outgoing) }
        ensures refused { IfErr result (λ why. (self.new ≡ self.old)
            × RefusesEvent self.old.played kind.now why) }
    {
        let outcome = match self.played.take(alloc, kind) {
            Ok(outcome) => outcome,
            Err(why) => return Err(why),
        };
        self.links.make_frames(outcome.sends.as_slice());
        Ok(outcome)
    }

    /// Takes the frame that a host said, if it is the next one: the node receives it, and its link counts it. Write it
    /// to the book, and sync it, before it is acknowledged. The cost is that of the node's call, and linear in the
    /// number of hosts.
    ///
    /// # Errors
    ///
    /// The first that holds, and nothing has changed:
    ///
    /// 1. `NotNext`: it is not the next one, it names other hosts, or the cluster has no such other host. If
    ///    [`Links::heard`] says that it was taken before, say `ack` to the host again.
    /// 2. `Full`: for some host fewer than 128 numbers of frames are left.
    /// 3. `Refused`: `ClockFull`, then `Memory`, which may come before.
    pub fn take_frame(
        &mut self,
        alloc: Global,
        other: NodeId,
        start: u128,
        number: u64,
        frame: &Frame,
    ) -> Result<Outcome, EventError>
        requires { Fits frame.now }
        ensures next { IfOk result (λ _. (h : machine.Host) → AreOf self.old.links self.old.played h
            → IsNext h other start number frame.now) }
        ensures happened { IfOk result (λ outcome. (h : machine.Host)
            → AreOf self.old.links self.old.played h → Happened
            (linked h other (rule.hears_frame (h.links other) start number)) (kinds.Receive frame.now) outcome
            self.new.links self.new.played) }
        ensures not_next { (h : machine.Host) → AreOf self.old.links self.old.played h
            → IsErrOf result EventError.NotNext ↔ (IsNext h other start number frame.now → ⊥) }
        ensures full { (h : machine.Host) → AreOf self.old.links self.old.played h
            → IsErrOf result EventError.Full
            ↔ (IsNext h other start number frame.now × IsTrue (is_full self.old.played.outgoing)) }
        ensures refused { IfErr result (λ why. (self.new ≡ self.old)
            × ((why ≡ EventError.NotNext) ⊎ RefusesEvent self.old.played (kinds.Receive frame.now) why)) }
    {
        let Ok(heard) = self.links.heard(other, start, number, frame) else {
            return Err(EventError::NotNext);
        };
        let Heard::Next = heard else {
            return Err(EventError::NotNext);
        };
        let kind = BookKind::Receive(*frame);
        let outcome = match self.played.take(alloc, &kind) {
            Ok(outcome) => outcome,
            Err(why) => return Err(why),
        };
        self.links.take_frame(other, start, number);
        self.links.make_frames(outcome.sends.as_slice());
        Ok(outcome)
    }
}

//! The links of a host.
ghost use Rattle.std.specs.Prelude.{◌≡◌, ◌↔◌, ◌-◌, ◌<◌, ◌==◌, ◌&&◌, ◌≤◌, ℕ, All, true, false, slice_index_or, length, map, slice_get, slice_set, MatchOption, if◌then◌else◌, IfOk, IsTrue, IsOk, IsErr, IsErrOf};
ghost use Rattle.ra_stamp.specs.Message.{to_of};
ghost use Rattle.ra_book.specs.Book.{BookState};
ghost use Rattle.ra_book.specs.History.{frames_at};
ghost use Rattle.ra_automaton.specs.State.{IsOtherNode};
ghost use Rattle.ra_link.specs.Link as rule;
ghost use Rattle.ra_host.specs.Host.{Host, IsOther, MayReplay, begins, connects, hears_hello, hears_welcome, hears_ack, hears_old, is_short, is_taken, linked, makes_frames, replays_book, syncs_book};
ghost use Rattle.ra_link.specs.declared.link.Link.{Link};
ghost use Rattle.ra_host.specs.Outgoing.{made_at};
ghost use Rattle.ra_host.specs.Played.{IsPlayedOf};
ghost use Rattle.ra_host.specs.Replaying.{acknowledged_at, replayed};
ghost use Rattle.ra_host.specs.Making.{MayMake, makes_each};
ghost use Rattle.ra_host.specs.Running.{AreLinksOf, HasTaken, names};

use crate::{CountError, NoHost, Played};
use ra_frame::Frame;
use ra_link::{Heard, Link, Message, OldBook};
use ra_stamp::{Memory, Message as NodeMessage, NodeId};
use std::alloc::Global;

/// The links of a running host, one for each other host. What they take does not grow with the book.
///
/// Contracts say of which host of the machine they are the links (`AreLinksOf`), and what becomes of that host: by its
/// definition, which the machine of all hosts has for the same event.
#[derive(Drop)]
pub struct Links {
    me: NodeId,
    /// By the hosts' numbers, from 1. That of this host itself is not used.
    links: Vec<Link>,
}

impl Links {
    /// Makes the links of a new start of host `me`. `nonce` is one that no start of it had before, and `taken` says how
    /// many frames of each host are in its book, which is on the disk. Say `hello` to each other host then. The cost is
    /// linear in the number of hosts.
    ///
    /// # Errors
    ///
    /// `Memory`: there is no room for them.
    pub fn begin(alloc: Global, me: NodeId, nonce: u128, taken: &[u64]) -> Result<Links, Memory>
        ensures { IfOk result (λ links. (h : Host) → h.book.me ≡ me → h.book.nodes ≡ length taken.now
            → HasTaken h.book taken.now → AreLinksOf links (begins h nonce)) }
    {
        let mut links = Vec::with_capacity(alloc, taken.len())?;
        for count in taken {
            links.push(Link::new(nonce, *count))?;
        }
        Ok(Links { me, links })
    }

    /// Returns the link to another host, or `None` if the cluster has no such other host. It says what may be said to
    /// that host: `hello` and `old` at once and each second, `ack` after each sync and from time to time, and the
    /// messages of frames. It does not allocate.
    pub fn get(&self, other: NodeId) -> Option<Link>
        ensures found { MatchOption result (IsOtherNode self.now.me (length self.now.links.items) other → ⊥)
            (λ link. IsOtherNode self.now.me (length self.now.links.items) other
            × (slice_get self.now.links.items (other - 1) ≡ Some link)) }
        ensures host { (h : Host) → AreLinksOf self.now h → IsOther h other → result ≡ Some (h.links other) }
    {
        let place = other.place();
        if other == self.me || place >= self.links.len() {
            return None;
        }
        Some(self.links[place])
    }

    /// Puts the link to a host in the place of its old one.
    fn put(&mut self, other: NodeId, link: Link)
        requires { other - 1 < length self.old.links.items }
        ensures me { self.new.me ≡ self.old.me }
        ensures links { self.new.links.items ≡ slice_set self.old.links.items (other - 1) link }
    {
        self.links[other.place()] = link;
    }

    /// There is a new connection to a host: asks it a new question. Say `hello` to it then.
    ///
    /// # Errors
    ///
    /// `NoHost`: the cluster has no such other host. Nothing has changed.
    pub fn connect(&mut self, other: NodeId) -> Result<(), NoHost>
        ensures other { IsOk result ↔ IsOtherNode self.old.me (length self.old.links.items) other }
        ensures host { IsOk result → (h : Host) → AreLinksOf self.old h
            → AreLinksOf self.new (connects h other) }
        ensures err { IsErr result → self.new ≡ self.old }
    {
        let Some(mut link) = self.get(other) else {
            return Err(NoHost);
        };
        link.ask();
        self.put(other, link);
        Ok(())
    }

    /// Hears the question of a host, and returns the answer, which may be said at once. If another start asks than the
    /// last one, this host asks, too: say `hello` to it then.
    ///
    /// # Errors
    ///
    /// `NoHost`: the cluster has no such other host. Nothing has changed.
    pub fn hear_hello(
        &mut self,
        other: NodeId,
        start: u128,
        question: u64,
    ) -> Result<Message, NoHost>
        ensures other { IsOk result ↔ IsOtherNode self.old.me (length self.old.links.items) other }
        ensures host { IsOk result → (h : Host) → AreLinksOf self.old h
            → AreLinksOf self.new (hears_hello h other start) }
        ensures welcome { IfOk result (λ welcome. (h : Host) → AreLinksOf self.old h
            → welcome ≡ rule.welcome_of (h.links other) start question) }
        ensures err { IsErr result → self.new ≡ self.old }
    {
        let Some(mut link) = self.get(other) else {
            return Err(NoHost);
        };
        let welcome = link.hear_hello(start, question);
        self.put(other, link);
        Ok(welcome)
    }

    /// Hears an answer of a host, and returns how many frames it has acknowledged. If its start is adopted by it, say
    /// `ack` to it then, and if it shows that the other book is old, `old`.
    ///
    /// # Errors
    ///
    /// The first that holds. Nothing has changed:
    ///
    /// 1. `NoHost`: the cluster has no such other host.
    /// 2. `OldBook`: it shows that this host's book is old. The host ends then.
    pub fn hear_welcome(
        &mut self,
        other: NodeId,
        asker: u128,
        question: u64,
        start: u128,
        kept: u64,
    ) -> Result<u64, CountError>
        ensures no_host { IsErrOf result CountError.NoHost
            ↔ (IsOtherNode self.old.me (length self.old.links.items) other → ⊥) }
        ensures old_book { (h : Host) → AreLinksOf self.old h → IsErrOf result CountError.OldBook
            ↔ (IsOther h other × IsTrue (rule.welcome_accuses (h.links other) asker question kept)) }
        ensures other { IsOk result → IsOtherNode self.old.me (length self.old.links.items) other }
        ensures count { IfOk result (λ count. (h : Host) → AreLinksOf self.old h
            → count ≡ (rule.hears_welcome (h.links other) asker question start kept).acknowledged) }
        ensures host { IsOk result → (h : Host) → AreLinksOf self.old h
            → AreLinksOf self.new (hears_welcome h other asker question start kept) }
        ensures err { IsErr result → self.new ≡ self.old }
    {
        let Some(mut link) = self.get(other) else {
            return Err(CountError::NoHost);
        };
        let Ok(()) = link.hear_welcome(asker, question, start, kept) else {
            return Err(CountError::OldBook);
        };
        self.put(other, link);
        Ok(link.acknowledged())
    }

    /// Hears an ack of a host, and returns how many frames it has acknowledged.
    ///
    /// # Errors
    ///
    /// The first that holds. Nothing has changed:
    ///
    /// 1. `NoHost`: the cluster has no such other host.
    /// 2. `OldBook`: it shows that this host's book is old. The host ends then.
    pub fn hear_ack(
        &mut self,
        other: NodeId,
        start: u128,
        asker: u128,
        kept: u64,
    ) -> Result<u64, CountError>
        ensures no_host { IsErrOf result CountError.NoHost
            ↔ (IsOtherNode self.old.me (length self.old.links.items) other → ⊥) }
        ensures old_book { (h : Host) → AreLinksOf self.old h → IsErrOf result CountError.OldBook
            ↔ (IsOther h other × IsTrue (rule.ack_accuses (h.links other) start asker kept)) }
        ensures other { IsOk result → IsOtherNode self.old.me (length self.old.links.items) other }
        ensures count { IfOk result (λ count. (h : Host) → AreLinksOf self.old h
            → count ≡ (rule.hears_ack (h.links other) start asker kept).acknowledged) }
        ensures host { IsOk result → (h : Host) → AreLinksOf self.old h
            → AreLinksOf self.new (hears_ack h other start asker kept) }
        ensures err { IsErr result → self.new ≡ self.old }
    {
        let Some(mut link) = self.get(other) else {
            return Err(CountError::NoHost);
        };
        let Ok(()) = link.hear_ack(start, asker, kept) else {
            return Err(CountError::OldBook);
        };
        self.put(other, link);
        Ok(link.acknowledged())
    }

    /// Hears from a host that this host's book is old. Nothing changes.
    ///
    /// # Errors
    ///
    /// The first that holds:
    ///
    /// 1. `NoHost`: the cluster has no such other host.
    /// 2. `OldBook`: it is. The host ends then.
    pub fn hear_old(&self, other: NodeId, count: u64) -> Result<(), CountError>
        ensures no_host { IsErrOf result CountError.NoHost
            ↔ (IsOtherNode self.now.me (length self.now.links.items) other → ⊥) }
        ensures old_book { (h : Host) → AreLinksOf self.now h → IsErrOf result CountError.OldBook
            ↔ (IsOther h other × IsTrue (rule.old_accuses (h.links other) count)) }
        ensures host { IsOk result → (h : Host) → AreLinksOf self.now h → hears_old h other count ≡ h }
    {
        let Some(link) = self.get(other) else {
            return Err(CountError::NoHost);
        };
        if link.hear_old(count).is_err() {
            return Err(CountError::OldBook);
        }
        Ok(())
    }

    /// Returns what is to be done with a frame that a host says. Nothing changes. If it is the next one, the node has
    /// to receive it, and then `take_frame` counts it; if it was taken before, say `ack` to the host again.
    ///
    /// # Errors
    ///
    /// `NoHost`: the cluster has no such other host.
    pub fn heard(
        &self,
        other: NodeId,
        start: u128,
        number: u64,
        frame: &Frame,
    ) -> Result<Heard, NoHost>
        ensures other { IsOk result ↔ IsOtherNode self.now.me (length self.now.links.items) other }
        ensures value { IfOk result (λ heard. (h : Host) → AreLinksOf self.now h
            → heard ≡ (if names frame.now other self.now.me
            then rule.heard_frame (h.links other) start number
            else Heard.Passed)) }
        ensures host { IfOk result (λ heard. (h : Host) → AreLinksOf self.now h
            → (heard ≡ Heard.Next) ↔ IsTrue (is_taken h other start number frame.now)) }
    {
        let Some(mut link) = self.get(other) else {
            return Err(NoHost);
        };
        if !is_between(frame, other, self.me) {
            return Ok(Heard::Passed);
        }
        Ok(link.hear_frame(start, number))
    }

    /// Counts the frame that a host said, if it is the next one. The node has received it then. If the cluster has no
    /// such other host it does nothing.
    pub(crate) fn take_frame(&mut self, other: NodeId, start: u128, number: u64)
        ensures { (h : Host) → AreLinksOf self.old h → IsOther h other
            → AreLinksOf self.new (linked h other (rule.hears_frame (h.links other) start number)) }
    {
        let Some(mut link) = self.get(other) else {
            return;
        };
        link.hear_frame(start, number);
        self.put(other, link);
    }

    /// Counts the frames that the node sent, each for its receiver. The cost is linear in their number.
    pub(crate) fn make_frames(&mut self, sends: &[NodeMessage])
        ensures me { self.new.me ≡ self.old.me }
        ensures links { self.new.links.items ≡ makes_each self.old.links.items sends.now }
        ensures host { (h : Host) (clock : ℕ) (book : BookState) → AreLinksOf self.old h
            → All (λ m. 1 ≤ to_of m) sends.now → MayMake h (frames_at clock sends.now)
            → book.me ≡ h.book.me → book.nodes ≡ h.book.nodes
            → AreLinksOf self.new
            (record h { book = book; links = makes_frames h.links (frames_at clock sends.now) }) }
    {
        make_each(&mut self.links, sends);
    }

    /// The book is synced: all frames that were made and taken are on the disk. Say the new frames and the acks then.
    /// The cost is linear in the number of hosts.
    pub(crate) fn sync(&mut self)
        ensures { (h : Host) → AreLinksOf self.old h → AreLinksOf self.new (syncs_book h) }
    {
        sync_all(self.links.as_mut_slice());
    }

    /// Returns whether the host may replay its book: each other host has acknowledged by this start's nonce, and the
    /// book is not replayed yet. With one node it is always so. The cost is linear in the number of hosts.
    pub fn may_replay(&self) -> bool
        ensures { (h : Host) → AreLinksOf self.now h → IsTrue result ↔ MayReplay h }
    {
        for place in 0..self.links.len() {
            let link = self.links[place];
            if place != self.me.place() && !may_replay(link) {
                return false;
            }
        }
        true
    }

    /// Returns how many frames the host at this place, counted from 0, has acknowledged, or 0 if there is no such
    /// host. It does not allocate.
    pub(crate) fn acknowledged_at(&self, place: usize) -> u64
        ensures { result ≡ acknowledged_at self.now.links.items place }
    {
        if place >= self.links.len() {
            return 0;
        }
        self.links[place].acknowledged()
    }

    /// The book is replayed: its node had its events. The host is ready then. Call it once `may_replay` says so. The
    /// cost is linear in the number of hosts.
    ///
    /// # Errors
    ///
    /// `OldBook`: a host has acknowledged more frames than are in the book. Nothing has changed, and the host ends.
    pub(crate) fn replay(&mut self, played: &Played) -> Result<(), OldBook>
        ensures ok { IsOk result → (h : Host) → AreLinksOf self.old h → IsPlayedOf played.now h.book → MayReplay h
            → AreLinksOf self.new (replays_book h) × ((j : ℕ) → IsOther h j → is_short h j ≡ false) }
        ensures old { IsErr result → (h : Host) → AreLinksOf self.old h → IsPlayedOf played.now h.book
            → (j : ℕ) × IsOther h j × (is_short h j ≡ true) }
        ensures err { IsErr result → self.new ≡ self.old }
    {
        for place in 0..self.links.len() {
            let link = self.links[place];
            if place != self.me.place() && accuses(link, played.made_at(place)) {
                return Err(OldBook);
            }
        }
        replay_all(&mut self.links, played);
        Ok(())
    }
}

/// Counts a frame for the receiver of each message.
fn make_each(links: &mut Vec<Link>, sends: &[NodeMessage])
    ensures { links.new.items ≡ makes_each links.old.items sends.now }
{
    for message in sends {
        let place = message.to().place();
        if place < links.len() {
            let mut link = links[place];
            let _ = link.make();
            links[place] = link;
        }
    }
}

/// Returns whether the frame names these hosts as its sender and its receiver.
fn is_between(frame: &Frame, from: NodeId, to: NodeId) -> bool
    ensures { result ≡ names frame.now from to }
{
    frame.message.from() == from && frame.message.to() == to
}

/// Returns whether the book may be replayed, by this link.
fn may_replay(link: Link) -> bool
    ensures { result ≡ rule.may_replay link }
{
    !link.is_ready() && link.is_confirmed()
}

/// All that was made and taken over each link is on the disk.
fn sync_all(links: &mut [Link])
    ensures { links.new ≡ map rule.syncs links.old }
{
    for link in links.iter_mut() {
        link.synced();
    }
}

/// Returns whether the link shows at the replay that the book is old, which has this many frames for the other host.
fn accuses(link: Link, count: u64) -> bool
    ensures { result ≡ rule.replay_accuses link count }
{
    may_replay(link) && count < link.acknowledged()
}

/// The book is replayed for each link.
fn replay_all(links: &mut Vec<Link>, played: &Played)
    ensures each { (k : ℕ) (d : Link) → k < length links.old.items
        → slice_index_or links.new.items k d
        ≡ replayed (slice_index_or links.old.items k d) (made_at played.now.outgoing k) }
    ensures len { length links.new.items ≡ length links.old.items }
{
    for place in 0..links.len() {
        let mut link = links[place];
        let _ = link.replayed(played.made_at(place));
        links[place] = link;
    }
}

pub mod closed_book;
pub mod desk;
pub mod giving_up;
pub mod outcome;
pub mod refused_frames;
pub mod request;
pub mod sending;
pub mod stop_causes;
pub mod take_error;
pub mod ticket;
pub mod time_limit;
pub mod waiters;

ghost use Rattle.std.specs.Prelude.{◌≡◌, ◌≤◌, true, false, [], All, IfOk, IsErrOf, OnErr, OnOk};
ghost use Rattle.ra_stamp.specs.NodeId.{IsNodeNumber};
ghost use Rattle.ra_frame.specs.Fits.{Fits};

use crate::cluster::all_sites::stop_all;
use crate::site::closed_book::{is_whole_of, stopped_book};
use crate::site::desk::{Desk, Handed, Stepped};
use crate::site::outcome::NotGranted;
use crate::site::request::Request;
use crate::site::sending::Sending;
use crate::site::stop_causes::stop_of;
use crate::site::ticket::{SharedTicket, Ticket};
use crate::{Book, BookError, Events, Gate, Grant, Inbox, NewError, Post, Stop, TakeError};
use ra_frame::Frame;
use ra_stamp::{Entry, Memory, Mode, Name, NodeId};
use std::alloc::Global;
use std::marker::Model;
use std::sync::{Mutex, Wait};
use thiserror::Error;

/// Why a call of a site did not do its work. The first two print the word of what they wrap, and some words are in
/// both: after `Refused(Memory)` nothing has happened and the call can be made again, after `Stopped(Memory)` the
/// cluster is at its end. So tell them apart by the variant, and not by what they print.
#[derive(Clone, Copy, Debug, PartialEq, Eq, Error)]
pub enum SiteError {
    /// The book of the node refused it, and is as before. If the cause is `Failed`, the node was stopped before; after
    /// any other one it goes on.
    #[error(transparent)]
    Refused(BookError),
    /// The node is stopped, for this cause, and takes no call any more.
    #[error(transparent)]
    Stopped(Stop),
    /// The client gave up before it was let in.
    #[error("Cancelled")]
    Cancelled,
}

impl From<BookError> for SiteError {
    ghost use Rattle.std.specs.Prelude.{◌≡◌};
    ghost use Rattle.ra_site.specs.declared.site.SiteError.TheVariants as site;

    ghost from_gives = { λ refused e. e ≡ site.Refused refused };

    fn from(refused: BookError) -> SiteError {
        SiteError::Refused(refused)
    }
}

/// A node that threads share: its number, and its book under a lock, with the clients that wait. Contracts see the
/// number, and whether an auditor takes what happens at it.
///
/// Besides what the book's call takes, `lock`, `lock_within`, `cancel`, `unlock` and `pump` take the post that carries
/// the frames, the sites of all nodes in order, and the gate that watches. Their contracts require these sites, since a
/// lost frame has to stop them all; [`is_site_of`](crate::is_site_of) tests it. Under the lock these calls ask the gate
/// and call the book. The frames are sent after the lock is given back, and no thread ever has the locks of two books.
/// A frame that the post does not take is flagged as lost, and then each site is stopped, which ends the waits of all
/// clients. A round of an audit waits until all frames of such a call were tried, so each loss is flagged when it takes
/// what the book has.
///
/// A client that waits has a ticket of its own. When an event lets it in, the ticket tells its thread after the lock is
/// given back, and no other thread is woken. A stop wakes all.
///
/// Each such call costs what the book's call costs and the sending of the frames. If its event lets a client in, it
/// also takes time linear in the number of clients that wait at the node. For each frame that the post does not take,
/// it also costs what [`Book::mark_lost`] costs.
pub struct Site {
    node: NodeId,
    alloc: Global,
    desk: Mutex<Desk>,
    sending: Sending,
}

// What a site owns is freed here, so that no other crate proves how each of its parts is dropped.
impl Drop for Site {
    fn drop(self) {
        let Site {
            node: _,
            alloc: _,
            desk: _,
            sending: _,
        } = self;
    }
}

impl Model for Site {
    ghost use Rattle.ra_site.specs.Sites.{SiteState};

    ghost Value = { SiteState };

    ghost view = { λ site. record { node = site.node; audited = site.sending } };
}

impl Site {
    ghost use Rattle.ra_automaton.specs.Members.{ChecksMember};
    ghost use Rattle.ra_book.specs.Book.{HasHistory};
    ghost use Rattle.ra_site.specs.ClientGrant.{IsGrantOf, WasGiven};
    ghost use Rattle.ra_site.specs.PassedOn.{IsNotCancelled, PassesOn};
    ghost use Rattle.ra_site.specs.Handing.{IsHandedOver, OnlyTurnOrMemory};
    ghost use Rattle.ra_site.specs.Sites.{AreSitesWith, IsWholeBookOf, site_at};

    /// Makes the site of node `me` of `nodes`, with a book before its first event. The highest number of each resource
    /// begins at `start`, 0 to 2^64-1, which has to be the same at all nodes. It does not allocate.
    ///
    /// # Errors
    ///
    /// The first that holds:
    ///
    /// 1. `BadCount`: `nodes` is not 1 to 64.
    /// 2. `BadNode`: `me` is above `nodes`.
    pub fn new(alloc: Global, me: NodeId, nodes: u16, start: u64) -> Result<Site, NewError>
        ensures ok { IfOk result (λ site. site ≡ site_at false me) }
        ensures member { ChecksMember me nodes result }
    {
        let book = Book::new(alloc, me, nodes, start)?;
        Ok(Site::of(alloc, book, false))
    }

    /// Makes the site of a book before its first event, audited or not.
    pub(crate) fn of(alloc: Global, book: Book, audited: bool) -> Site
        requires { book.sent ≡ [] }
        ensures { result ≡ site_at audited book.me }
    {
        Site {
            node: book.me(),
            alloc,
            desk: Mutex::new(Desk::new(alloc, book)),
            sending: Sending::new(audited),
        }
    }

    /// Returns the number of its node. It does not allocate.
    pub fn node(&self) -> NodeId
        ensures { result ≡ self.now.node }
    {
        self.node
    }

    /// Asks for a name for a client, and waits until the client holds it. Nothing bounds the wait. Clients that hold
    /// names while they ask for others may wait for each other forever, unless all take their names in one order. A
    /// client that queues after another of its node gets its number when its turn comes. If the last one, 2^64-1, is
    /// used by then, its turn never comes, and it waits until somebody stops the node.
    ///
    /// # Errors
    ///
    /// The first that comes:
    ///
    /// 1. `Stopped`: the gate answered `false`. Nothing was asked. The cause is the one that the node keeps, of an
    ///    earlier stop if there was one.
    /// 2. `Refused`: the book refused it, as [`Book::ask`] says, with `Failed` if the node was stopped before. Nothing
    ///    was asked. `Memory` also comes if there is no memory for the wait.
    /// 3. `Stopped`: the node was stopped before the client was let in, and its request stays in the book. `Cancelled`:
    ///    the client gave up before, by [`Site::cancel`] on another thread.
    pub fn lock<R: Wait, G: Gate>(
        &self,
        rt: &R,
        alloc: Global,
        client: u32,
        name: Name,
        mode: Mode,
        post: &Post,
        sites: &[Site],
        gate: &G,
    ) -> Result<Grant, SiteError>
        requires { AreSitesWith self.now sites.now }
        ensures grant { IfOk result (IsGrantOf self.now.node client name mode) }
        ensures given { IfOk result WasGiven }
    {
        let request = Request { client, name, mode };
        let ticket = self.ask(rt, alloc, &request, post, sites, gate)?;
        ticket.wait(rt, self.node, &request)
    }

    /// Forgets the names that the node need not keep, as [`Book::forget`] says. It waits for locks alone.
    ///
    /// # Errors
    ///
    /// The first that holds, and nothing was forgotten:
    ///
    /// 1. `Stopped`: the gate answered `false`. The cause is the one that the node keeps, of an earlier stop if there
    ///    was one.
    /// 2. `Refused`: the book refused it, as [`Book::forget`] says, with `Failed` if the node was stopped before.
    pub fn forget<R: Wait, G: Gate>(
        &self,
        rt: &R,
        alloc: Global,
        sites: &[Site],
        gate: &G,
    ) -> Result<(), SiteError>
        requires { AreSitesWith self.now sites.now }
        ensures others { IsNotCancelled result }
    {
        let forgot = self.desk.lock(rt).forget(alloc, self.node, gate);
        match forgot {
            Ok(()) => Ok(()),
            Err(refused) => Err(self.refusal(rt, refused, sites)),
        }
    }

    /// Gives back the name that a client holds. It waits for locks alone.
    ///
    /// # Errors
    ///
    /// The first that holds, and nothing was given back. If the book took the leave, the answer is `Ok`, even if the
    /// node is stopped by then.
    ///
    /// 1. `Stopped`: the gate answered `false`. The cause is the one that the node keeps, of an earlier stop if there
    ///    was one.
    /// 2. `Refused`: the book refused it, as [`Book::leave`] says, with `Failed` if the node was stopped before. It is
    ///    never `Memory`.
    pub fn unlock<R: Wait, G: Gate>(
        &self,
        rt: &R,
        alloc: Global,
        client: u32,
        name: Name,
        post: &Post,
        sites: &[Site],
        gate: &G,
    ) -> Result<(), SiteError>
        requires { AreSitesWith self.now sites.now }
        ensures no_memory { IsErrOf result (SiteError.Refused BookError.Memory) → ⊥ }
        ensures others { IsNotCancelled result }
    {
        let made = {
            let _share = self.sending.share(rt);
            let left = self
                .desk
                .lock(rt)
                .leave(alloc, self.node, gate, client, name);
            self.finish(rt, alloc, left, post)
        };
        self.answer(rt, made, sites)
    }

    /// Hands the book each frame that comes into the inbox, until the post is closed and the inbox empty, or the book
    /// or the gate refuses a frame. Frames that have come together are taken at once, up to 64, and handed to the book
    /// under one taking of the lock; the gate is asked before each. Those after a refused one are dropped, and count as
    /// under way.
    ///
    /// A refusal stops each site, for a cause that says which it was, unless the book was stopped before. A stop does
    /// not end the pump by itself, but by the next frame: close the post.
    pub fn pump<R: Wait, G: Gate>(
        &self,
        rt: &R,
        alloc: Global,
        inbox: &Inbox,
        post: &Post,
        sites: &[Site],
        gate: &G,
    )
        requires { AreSitesWith self.now sites.now }
    {
        let (mut taken, mut stepped) = (Vec::new(alloc), Vec::new(alloc));
        // Each way out ends the loop, so that the lists are dropped at one exit.
        for _ in rt.forever() {
            let (are_sent, received) = match inbox.take(rt, &mut taken) {
                Ok(true) => self.carry(rt, alloc, taken.as_slice(), &mut stepped, post, gate),
                Ok(false) => break,
                Err(Memory) => (true, Err(SiteError::Refused(BookError::Memory))),
            };
            if !are_sent {
                stop_all(rt, sites, Stop::Send);
            }
            if let Err(refused) = received {
                if let Some(stop) = stop_of(self.refusal(rt, refused, sites)) {
                    stop_all(rt, sites, stop);
                }
                break;
            }
            stepped.clear();
            taken.clear();
        }
    }

    /// Stops the node for this cause, unless it is stopped already, and wakes all clients that wait at it. They get
    /// `Stopped`, and a client that calls from then on gets `Refused` with `Failed`. Its pump ends when the post is
    /// closed. It waits for the lock, and does not allocate. The cost is linear in the number of clients that wait.
    pub fn stop<R: Wait>(&self, rt: &R, stop: Stop) {
        let (cause, waiters) = self.desk.lock(rt).fail(self.alloc, stop);
        for waiter in &waiters {
            waiter.ticket.tell(rt, Err(NotGranted::Stopped(cause)));
        }
    }

    /// Returns the cause why the node is stopped, or `None` if it goes on. Like each of these readers, it tells what is
    /// true when it has the lock. It waits for the lock, and does not allocate.
    pub fn fault<R: Wait>(&self, rt: &R) -> Option<Stop> {
        self.desk.lock(rt).book.fault()
    }

    /// Returns the request that is granted at this node on a name, or `None`.
    pub fn holder<R: Wait>(&self, rt: &R, name: &Name) -> Option<Entry> {
        self.desk.lock(rt).book.holder(name)
    }

    /// Returns how many requests of this node wait for their replies, over all names.
    pub fn waiting<R: Wait>(&self, rt: &R) -> u64 {
        self.desk.lock(rt).book.node().waiting()
    }

    /// Returns how many clients of this node are queued, over all names.
    pub fn queued<R: Wait>(&self, rt: &R) -> u128 {
        self.desk.lock(rt).book.node().queued()
    }

    /// Returns how many events the book of this node has. Those that an audit took are not counted.
    pub fn events<R: Wait>(&self, rt: &R) -> u64 {
        self.desk.lock(rt).book.events().len()
    }

    /// Returns the clock of the last event of this node, or 0 before the first. It rises with each event, whether or
    /// not an audit took those before.
    pub fn clock<R: Wait>(&self, rt: &R) -> u64 {
        self.desk.lock(rt).book.clock()
    }

    /// Hands over the events after one with the clock `after`, or from the first one on if it is 0, and the frames that
    /// were lost since the round before. It is for an auditor alone, which takes them: they leave the book, which no
    /// clause says, since no contract tells what is under a lock. A node that is not audited hands over nothing.
    ///
    /// It waits until no thread is sending what the book handed out, while calls that come later wait for it. Then it
    /// waits for the lock, and has it for a time that does not grow with the history, unless a frame was lost.
    ///
    /// # Errors
    ///
    /// The first that holds, and the node still has its events and losses:
    ///
    /// 1. `OutOfTurn`: at an audited node, `after` is not the clock of the last event that was handed over, or 0 before
    ///    the first.
    /// 2. `Memory`: memory ran out, at an audited node.
    pub fn hand_over<R: Wait>(&self, rt: &R, alloc: Global, after: u64) -> Result<Handed, TakeError>
        ensures handed { IfOk result (λ handed. IsHandedOver self.now after handed.events.items handed.lost.items) }
        ensures after { IfOk result (λ handed. self.now.audited ≡ true → handed.after ≡ after) }
        ensures others { OnlyTurnOrMemory result }
        ensures unaudited { OnErr result (self.now.audited ≡ true) }
    {
        // The frames that leave the book are dropped at the end, with no lock held.
        let made = {
            // A site that is not audited has no lock to take alone.
            let Some(_alone) = self.sending.alone(rt) else {
                return Ok(Handed {
                    after: 0,
                    events: Events::new(alloc),
                    lost: Vec::new(alloc),
                });
            };
            // The book always belongs to this node, but no contract tells what is under a lock. The lock is released at
            // the end of this statement.
            let made = self.desk.lock(rt).hand_over(alloc, self.node, after);
            made
        };
        let (handed, _sent) = made?;
        Ok(handed)
    }

    /// Gives up the lock, and returns the book. It does not allocate.
    pub fn close(self) -> Book
        ensures history { HasHistory result }
    {
        let Site {
            node: _,
            alloc: _,
            desk,
            sending: _,
        } = self;
        let book = desk.into_inner().book;
        // For the proof: a book has a history.
        let _ = book.me();
        book
    }

    /// Does the same for a site that is one of this many, from this start. No contract tells what is under a lock, so
    /// the book is looked at. If it is not whole, an empty book of the node is returned, which is stopped: for the
    /// cause of the book, or `Refused` if it has none. It would do the same with the book of another node or cluster,
    /// which is never there.
    pub(crate) fn close_as(self, alloc: Global, nodes: u16, start: u64) -> Book
        requires count { IsNodeNumber nodes }
        requires member { self.node ≤ nodes }
        ensures { IsWholeBookOf self.node nodes start result }
    {
        let me = self.node;
        let book = self.close();
        if is_whole_of(&book, me, nodes, start) {
            return book;
        }
        let cause = book.fault().unwrap_or(Stop::Refused);
        stopped_book(alloc, me, nodes, start, cause)
    }

    /// Makes a request of a client of this node, and sends the frames of the event. Returns the ticket that will have
    /// the outcome.
    ///
    /// # Errors
    ///
    /// The first that holds, and nothing was asked:
    ///
    /// 1. `Stopped`: the gate answered `false`.
    /// 2. `Refused`: the book refused it, as [`Book::ask`] says. `Memory` also comes if there is no memory for the
    ///    wait.
    fn ask<R: Wait, G: Gate>(
        &self,
        rt: &R,
        alloc: Global,
        request: &Request,
        post: &Post,
        sites: &[Site],
        gate: &G,
    ) -> Result<SharedTicket, SiteError>
        requires { AreSitesWith self.now sites.now }
        ensures { IsNotCancelled result }
    {
        let ticket = Ticket::new(alloc);
        let made = {
            let _share = self.sending.share(rt);
            let asked = self
                .desk
                .lock(rt)
                .ask(alloc, self.node, gate, request, ticket.as_ref());
            self.finish(rt, alloc, asked, post)
        };
        self.answer(rt, made, sites)?;
        // Without a ticket the desk has refused the request.
        ticket.ok_or(SiteError::Refused(BookError::Memory))
    }

    /// Hands the book frames, and sends the frames of their events, with no round of an audit in between. Puts the
    /// result of each into the list. Returns whether all were sent, and if one was not received, why; those before it
    /// were.
    fn carry<R: Wait, G: Gate>(
        &self,
        rt: &R,
        alloc: Global,
        taken: &[Vec<u8>],
        stepped: &mut Vec<Stepped>,
        post: &Post,
        gate: &G,
    ) -> (bool, Result<(), SiteError>) {
        let _share = self.sending.share(rt);
        let received = self
            .desk
            .lock(rt)
            .receive_all(alloc, self.node, gate, taken, stepped);
        let mut are_sent = true;
        for step in stepped.as_slice() {
            if !self.tell_and_send(rt, alloc, step, post) {
                are_sent = false;
            }
        }
        (are_sent, received)
    }

    /// Finishes a call of the book, if it was made. Returns whether all of its frames were sent.
    ///
    /// # Errors
    ///
    /// Why the call was not made.
    fn finish<R: Wait>(
        &self,
        rt: &R,
        alloc: Global,
        made: Result<Stepped, SiteError>,
        post: &Post,
    ) -> Result<bool, SiteError>
        ensures { PassesOn made result }
    {
        let stepped = made?;
        Ok(self.tell_and_send(rt, alloc, &stepped, post))
    }

    /// Tells the client that an event let in and the one that gave up in it, and sends the event's frames. Returns
    /// whether all were sent.
    fn tell_and_send<R: Wait>(
        &self,
        rt: &R,
        alloc: Global,
        stepped: &Stepped,
        post: &Post,
    ) -> bool {
        if let Some((ticket, grant)) = &stepped.told {
            ticket.tell(rt, Ok(*grant));
        }
        if let Some(ticket) = &stepped.given_up {
            ticket.tell(rt, Err(NotGranted::GivenUp));
        }
        self.send(rt, alloc, stepped.frames.as_slice(), post)
    }

    /// Returns what a call answers. If one of its frames was not sent, or the gate stopped it, each site is stopped
    /// first.
    ///
    /// # Errors
    ///
    /// 1. `Stopped`: the gate answered `false`, and the call was not made.
    /// 2. `Refused`: the book refused it.
    fn answer<R: Wait>(
        &self,
        rt: &R,
        made: Result<bool, SiteError>,
        sites: &[Site],
    ) -> Result<(), SiteError>
        ensures { PassesOn made result }
    {
        match made {
            Ok(true) => Ok(()),
            Ok(false) => {
                stop_all(rt, sites, Stop::Send);
                Ok(())
            }
            Err(refused) => Err(self.refusal(rt, refused, sites)),
        }
    }

    /// Returns what a call answers that was not made. If the gate stopped it, each site is stopped first.
    fn refusal<R: Wait>(&self, rt: &R, refused: SiteError, sites: &[Site]) -> SiteError
        ensures refused { (why : BookError) → result ≡ SiteError.Refused why → refused ≡ SiteError.Refused why }
        ensures cancelled { result ≡ SiteError.Cancelled → refused ≡ SiteError.Cancelled }
    {
        let SiteError::Stopped(stop) = refused else {
            return refused;
        };
        stop_all(rt, sites, stop);
        // It is stopped if it is among the sites, as it should be.
        SiteError::Stopped(self.fault(rt).unwrap_or(stop))
    }

    /// Sends the frames of an event, and flags each that the post refuses as lost. Returns whether the post took all.
    fn send<R: Wait>(&self, rt: &R, alloc: Global, frames: &[Frame], post: &Post) -> bool
        requires { All Fits frames.now }
    {
        if frames.is_empty() {
            return true;
        }
        let mut left = frames;
        let mut are_sent = true;
        while let Some((refused, others)) = post.send_up_to(rt, alloc, left) {
            self.desk.lock(rt).mark_lost(refused);
            are_sent = false;
            left = others;
        }
        are_sent
    }
}

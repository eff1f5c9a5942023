//! What is under the lock of a site: the book, and the clients that wait.
ghost use Rattle.std.specs.Prelude.{◌≡◌, ◌≢◌, ◌↔◌, ◌⊎◌, false, [], List, All, Any, Contains, IsNone};
ghost use Rattle.std.specs.Prelude.{IfNone, IfOk, IfSome, IsErrOf, OnErr, OnOk};
ghost use Rattle.std.specs.Option.{ForSome};
ghost use Rattle.ra_frame.specs.Fits.{Fits};
ghost use Rattle.ra_book.specs.History.{clock_of};
ghost use Rattle.ra_book.specs.Book.{with_all_taken, Adds, IsFirst, Loses};
ghost use Rattle.ra_book.specs.declared.book.event.BookKind.TheVariants.{Ask, Leave, Cancel, Forget};
ghost use Rattle.ra_book.specs.Keeping.{RefusesAsk, RefusesLeave, RefusesCancel};
ghost use Rattle.ra_book.specs.declared.error.BookError.{BookError};
ghost use Rattle.ra_book.specs.declared.book.grant.Grant as granted;
ghost use Rattle.ra_stamp.specs.declared.entry.Mark as mark;
ghost use Rattle.ra_site.specs.declared.site.SiteError as site;
ghost use Rattle.ra_site.specs.ClientGrant.{Gives, WasGiven};
ghost use Rattle.ra_site.specs.PassedOn.{IsNotCancelled};
ghost use Rattle.ra_site.specs.Waiting.{IsWaiterFor, WaitsNot, IsEachOnce, WaitOn, WaitsIn, entry_let_in};
ghost use Rattle.ra_site.specs.Handing.{IsAllLeft, OnlyTurnOrMemory};
ghost use Rattle.ra_site.specs.Losses.{lost_frames};

use crate::site::refused_frames::lost_of;
use crate::site::request::Request;
use crate::site::ticket::SharedTicket;
use crate::site::waiters::{Waiter, make_waiter, take, take_let_in};
use crate::{
    Book, BookError, Events, Frames, Gate, Grant, Posted, Sent, SiteError, Stop, TakeError,
};
use ra_frame::Frame;
use ra_stamp::{Memory, Name, NodeId};
use std::alloc::Global;
use std::mem;

/// What a call made of the book: the frames to send, the client that it let in and the one that gave up, if there are
/// such.
#[derive(Drop)]
pub struct Stepped {
    /// The frames to send.
    pub frames: Frames,
    /// The client to tell of a grant.
    pub told: Option<(SharedTicket, Grant)>,
    /// The client to tell that it gave up.
    pub given_up: Option<SharedTicket>,
    ghost fit: { All Fits frames.items },
    ghost given: { ForSome told (λ t. WasGiven t.1) },
}

/// A book, and the clients of its node whose requests are neither granted nor given up nor stopped.
#[derive(Drop)]
pub struct Desk {
    /// The book.
    pub book: Book,
    /// In any order.
    waiters: Vec<Waiter>,
    /// Whether one of the frames that the book has may be flagged lost. If not, a round does not look at each.
    may_have_lost: bool,
    ghost flagged: { may_have_lost ≡ false → lost_frames book.sent ≡ [] },
    ghost once: { IsEachOnce waiters.items },
    // So whose request is granted or given up was taken out, to be told, and no thread waits for a request that ended.
    ghost waits: { ∥ All (WaitsIn book) waiters.items ∥₁ },
}

/// What a node hands over in a round of an audit. It has left the node's book.
#[derive(Drop)]
pub struct Handed {
    /// The clock of the event before the first one, or 0 before the node's first event.
    pub after: u64,
    /// The events since the round before.
    pub events: Events,
    /// Those of the frames sent since the round before that the post refused, in order of sending. Each frame was tried
    /// by now, so the others were not lost.
    pub lost: Vec<Frame>,
}

impl Desk {
    /// Makes the desk of a book that has sent nothing. Nobody waits at it.
    pub fn new(alloc: Global, book: Book) -> Desk
        requires { book.sent ≡ [] }
    {
        Desk {
            book,
            waiters: Vec::new(alloc),
            may_have_lost: false,
        }
    }

    /// Asks the gate of this node for a step. Returns why the step is not made, or `None` if it is.
    fn halt<G: Gate>(&self, node: NodeId, gate: &G) -> Option<Stop>
        ensures { IsNone result → self.now.book.me ≡ node }
    {
        if !gate.step(node) {
            return Some(Stop::Gate);
        }
        // The book always belongs to this node, but no contract tells what is under a lock.
        if self.book.me() == node {
            None
        } else {
            Some(Stop::Refused)
        }
    }

    /// Asks the gate of this node, and then a client asks for a name. This ticket tells its thread when the client is
    /// let in, at once or later, or when it gives up or the node is stopped.
    ///
    /// # Errors
    ///
    /// The first that holds:
    ///
    /// 1. `Stopped` with `Gate`: the gate answered `false`.
    /// 2. `Refused`: the book refused it, as [`Book::ask`] says. `Memory` also comes if there is no ticket.
    pub fn ask<G: Gate>(
        &mut self,
        alloc: Global,
        node: NodeId,
        gate: &G,
        request: &Request,
        ticket: Option<&SharedTicket>,
    ) -> Result<Stepped, SiteError>
        ensures made { IfOk result
            (λ stepped. (marks : List mark.Mark)
            × Adds self.old.book (Ask request.now.client request.now.name request.now.mode) stepped.frames.items marks
            self.new.book) }
        ensures given { IfOk result
            (λ stepped. IfSome stepped.told (λ told. Gives self.old.book self.new.book told.1)) }
        ensures err { OnErr result (self.new.book ≡ self.old.book) }
        ensures waits { IfOk result (λ stepped. IfNone stepped.told
            (Any (IsWaiterFor request.now.client request.now.name) self.new.waiters.items)) }
        ensures refused { (why : BookError) → IsErrOf result (site.SiteError.Refused why)
            → RefusesAsk self.old.book request.now.client request.now.name request.now.mode why }
        ensures others { IsNotCancelled result }
    {
        if let Some(stop) = self.halt(node, gate) {
            return Err(SiteError::Stopped(stop));
        }
        let Some(waiter) = make_waiter(&mut self.waiters, request, ticket) else {
            // Each other cause comes before `Memory`.
            let refused = self
                .book
                .ask_refusal(request.client, request.name, request.mode);
            return Err(SiteError::Refused(refused));
        };
        let posted = self
            .book
            .ask(alloc, request.client, request.name, request.mode)?;
        self.waiters.push_reserved(waiter);
        Ok(made_by(&mut self.waiters, posted, None))
    }

    /// Asks the gate of this node, and then the client that holds a name leaves it.
    ///
    /// # Errors
    ///
    /// The first that holds:
    ///
    /// 1. `Stopped` with `Gate`: the gate answered `false`.
    /// 2. `Refused`: the book refused it, as [`Book::leave`] says, and never with `Memory`.
    pub fn leave<G: Gate>(
        &mut self,
        alloc: Global,
        node: NodeId,
        gate: &G,
        client: u32,
        name: Name,
    ) -> Result<Stepped, SiteError>
        ensures made { IfOk result
            (λ stepped. (marks : List mark.Mark) × Adds self.old.book (Leave client name) stepped.frames.items marks
            self.new.book) }
        ensures given { IfOk result
            (λ stepped. IfSome stepped.told (λ told. Gives self.old.book self.new.book told.1)) }
        ensures err { OnErr result (self.new.book ≡ self.old.book) }
        ensures me { OnOk result (self.old.book.me ≡ node) }
        ensures refused { (why : BookError) → IsErrOf result (site.SiteError.Refused why)
            → RefusesLeave self.old.book client name why }
        ensures no_memory { IsErrOf result (site.SiteError.Refused BookError.Memory) → ⊥ }
        ensures others { IsNotCancelled result }
    {
        if let Some(stop) = self.halt(node, gate) {
            return Err(SiteError::Stopped(stop));
        }
        let posted = self.book.leave(alloc, client, name)?;
        Ok(made_by(&mut self.waiters, posted, None))
    }

    /// Asks the gate of this node, and then a client that waits or is queued for a name gives it up. Its thread is to
    /// be told of it.
    ///
    /// # Errors
    ///
    /// The first that holds:
    ///
    /// 1. `Stopped` with `Gate`: the gate answered `false`.
    /// 2. `Refused`: the book refused it, as [`Book::cancel`] says, and never with `Memory`.
    pub fn cancel<G: Gate>(
        &mut self,
        alloc: Global,
        node: NodeId,
        gate: &G,
        client: u32,
        name: Name,
    ) -> Result<Stepped, SiteError>
        ensures made { IfOk result
            (λ stepped. (marks : List mark.Mark) × Adds self.old.book (Cancel client name) stepped.frames.items marks
            self.new.book) }
        ensures given { IfOk result
            (λ stepped. IfSome stepped.told (λ told. Gives self.old.book self.new.book told.1)) }
        ensures err { OnErr result (self.new.book ≡ self.old.book) }
        ensures me { OnOk result (self.old.book.me ≡ node) }
        ensures told { IfOk result (λ stepped. IfSome stepped.given_up (λ ticket.
            Any (λ w. IsWaiterFor client name w × (w.ticket ≡ ticket)) self.old.waiters.items)) }
        ensures nobody { IfOk result (λ stepped.
            IfNone stepped.given_up (WaitsNot client name self.old.waiters.items)) }
        ensures refused { (why : BookError) → IsErrOf result (site.SiteError.Refused why)
            → RefusesCancel self.old.book client name why }
        ensures no_memory { IsErrOf result (site.SiteError.Refused BookError.Memory) → ⊥ }
        ensures others { IsNotCancelled result }
    {
        if let Some(stop) = self.halt(node, gate) {
            return Err(SiteError::Stopped(stop));
        }
        let posted = self.book.cancel(alloc, client, name)?;
        let given_up = take(&mut self.waiters, client, &name);
        Ok(made_by(&mut self.waiters, posted, given_up))
    }

    /// Does what `cancel` does for the client of this request, if it still waits by this ticket. A later request of the
    /// same client for the same name is not touched.
    ///
    /// # Errors
    ///
    /// The first that holds:
    ///
    /// 1. `Refused` with `NotWaiting`: it waits by this ticket no more. The ticket tells the outcome.
    /// 2. Those of `cancel`.
    pub fn give_up<G: Gate>(
        &mut self,
        alloc: Global,
        node: NodeId,
        gate: &G,
        request: &Request,
        ticket: &SharedTicket,
    ) -> Result<Stepped, SiteError>
        ensures made { IfOk result
            (λ stepped. (marks : List mark.Mark)
            × Adds self.old.book (Cancel request.now.client request.now.name) stepped.frames.items marks
            self.new.book) }
        ensures given { IfOk result
            (λ stepped. IfSome stepped.told (λ told. Gives self.old.book self.new.book told.1)) }
        ensures me { OnOk result (self.old.book.me ≡ node) }
        ensures told { IfOk result (λ stepped. IfSome stepped.given_up (λ ticket.
            Any (λ w. IsWaiterFor request.now.client request.now.name w × (w.ticket ≡ ticket))
            self.old.waiters.items)) }
        ensures nobody { IfOk result (λ stepped.
            IfNone stepped.given_up (WaitsNot request.now.client request.now.name self.old.waiters.items)) }
        ensures err { OnErr result (self.new.book ≡ self.old.book) }
        ensures refused { (why : BookError) → IsErrOf result (site.SiteError.Refused why)
            → (why ≡ BookError.NotWaiting)
            ⊎ RefusesCancel self.old.book request.now.client request.now.name why }
        ensures no_memory { IsErrOf result (site.SiteError.Refused BookError.Memory) → ⊥ }
        ensures others { IsNotCancelled result }
    {
        if ticket.is_taken() {
            return Err(SiteError::Refused(BookError::NotWaiting));
        }
        self.cancel(alloc, node, gate, request.client, request.name)
    }

    /// Asks the gate of this node, and then the node forgets names.
    ///
    /// # Errors
    ///
    /// The first that holds:
    ///
    /// 1. `Stopped` with `Gate`: the gate answered `false`.
    /// 2. `Refused`: the book refused it, as [`Book::forget`] says.
    pub fn forget<G: Gate>(
        &mut self,
        alloc: Global,
        node: NodeId,
        gate: &G,
    ) -> Result<(), SiteError>
        ensures made { OnOk result (Adds self.old.book Forget [] [] self.new.book) }
        ensures me { OnOk result (self.old.book.me ≡ node) }
        ensures err { OnErr result (self.new.book ≡ self.old.book) }
        ensures others { IsNotCancelled result }
    {
        if let Some(stop) = self.halt(node, gate) {
            return Err(SiteError::Stopped(stop));
        }
        self.book.forget(alloc)?;
        Ok(())
    }

    /// Asks the gate of this node, and then the bytes of a frame come.
    ///
    /// # Errors
    ///
    /// The first that holds:
    ///
    /// 1. `Stopped` with `Gate`: the gate answered `false`.
    /// 2. `Refused`: the book refused it, as [`Book::receive`] says.
    fn receive<G: Gate>(
        &mut self,
        alloc: Global,
        node: NodeId,
        gate: &G,
        bytes: &[u8],
    ) -> Result<Stepped, SiteError>
        ensures given { IfOk result
            (λ stepped. IfSome stepped.told (λ told. Gives self.old.book self.new.book told.1)) }
    {
        if let Some(stop) = self.halt(node, gate) {
            return Err(SiteError::Stopped(stop));
        }
        let posted = self.book.receive(alloc, bytes)?;
        Ok(made_by(&mut self.waiters, posted, None))
    }

    /// Hands the book frames, and asks the gate of this node before each. Puts the result of each into the list.
    ///
    /// # Errors
    ///
    /// Why one of them was not received. Those before it were.
    pub fn receive_all<G: Gate>(
        &mut self,
        alloc: Global,
        node: NodeId,
        gate: &G,
        taken: &[Vec<u8>],
        stepped: &mut Vec<Stepped>,
    ) -> Result<(), SiteError> {
        for bytes in taken {
            if stepped.reserve(1).is_err() {
                return Err(SiteError::Refused(BookError::Memory));
            }
            let step = self.receive(alloc, node, gate, bytes.as_slice())?;
            stepped.push_reserved(step);
        }
        Ok(())
    }

    /// Gives the book a fault, if it has none. Returns the cause that the book has then, and the clients that waited.
    /// They are to be told of it.
    pub fn fail(&mut self, alloc: Global, stop: Stop) -> (Stop, Vec<Waiter>) {
        self.book.fail(stop);
        let cause = self.book.fault().unwrap_or(stop);
        (cause, mem::replace(&mut self.waiters, Vec::new(alloc)))
    }

    /// Flags a frame that the book sent and still has as lost.
    pub fn mark_lost(&mut self, frame: &Frame)
        ensures { IsFirst self.old.book.sent frame.now false → Loses self.old.book.sent frame.now self.new.book.sent }
    {
        self.may_have_lost = true;
        // The book sent it, no round took it before it was tried, and no other thread flags it.
        let _ = self.book.mark_lost(frame);
    }

    /// Hands over the events of this node after one with the clock `after`, or from its first one on if `after` is 0,
    /// and the frames sent since the round before that are flagged lost. Unless there may be a lost frame, that takes a
    /// time that does not grow with the history. All frames leave the book, too; they are returned, so that they need
    /// not be dropped under the lock.
    ///
    /// # Errors
    ///
    /// The first that holds, and the book is as before:
    ///
    /// 1. `OutOfTurn`: the book belongs to another node, or `after` is not the clock of the last event that was handed
    ///    over, or 0 before the first.
    /// 2. `Memory`: there is no room for the lost frames, or for what the leaves of the node's clients will need.
    pub fn hand_over(
        &mut self,
        alloc: Global,
        node: NodeId,
        after: u64,
    ) -> Result<(Handed, Vec<Sent>), TakeError>
        ensures after { IfOk result (λ made. made.0.after ≡ after) }
        ensures handed { IfOk result
            (λ made. IsAllLeft self.old.book node after made.0.events.items made.0.lost.items) }
        // So nothing is handed over twice.
        ensures taken { OnOk result (self.new.book ≡ with_all_taken self.old.book) }
        ensures out_of_turn { IsErrOf result TakeError.OutOfTurn
            ↔ ((self.old.book.me ≢ node) ⊎ (after ≢ clock_of self.old.book.taken.events)) }
        ensures others { OnlyTurnOrMemory result }
        ensures err { OnErr result (self.new.book ≡ self.old.book) }
    {
        if self.book.me() != node || self.book.taken_clock() != after {
            return Err(TakeError::OutOfTurn);
        }
        let lost = self.lost(alloc)?;
        let (events, sent) = self.book.take_all(alloc)?;
        self.may_have_lost = false;
        let handed = Handed {
            after,
            events,
            lost,
        };
        Ok((handed, sent))
    }

    /// Returns the frames of the book that are flagged lost, in order of sending. If there may be one, the cost is
    /// linear in the number of its frames.
    ///
    /// # Errors
    ///
    /// `Memory`: memory ran out.
    fn lost(&self, alloc: Global) -> Result<Vec<Frame>, Memory>
        ensures { IfOk result (λ lost. lost.items ≡ lost_frames self.now.book.sent) }
    {
        if !self.may_have_lost {
            return Ok(Vec::new(alloc));
        }
        lost_of(alloc, &self.book)
    }
}

/// Returns what the last event of a book made, with the client that gave up in it. The client that it let in waits no
/// more.
fn made_by(waiters: &mut Vec<Waiter>, posted: Posted, given_up: Option<SharedTicket>) -> Stepped
    requires once { IsEachOnce waiters.old.items }
    requires fit { All Fits posted.frames.items }
    requires given { (grant : granted.Grant) → Contains posted.marks.items (mark.Mark.Entered grant.entry)
        → WasGiven grant }
    ensures frames { result.frames.items ≡ posted.frames.items }
    ensures given_up { result.given_up ≡ given_up }
    ensures entered { IfSome result.told (λ told. Contains posted.marks.items (mark.Mark.Entered told.1.entry)) }
    ensures left { WaitOn (entry_let_in posted.marks.items) waiters.old.items waiters.new.items }
    ensures told { IfSome result.told (λ told.
        Any (λ w. IsWaiterFor told.1.entry.client told.1.entry.name w × (w.ticket ≡ told.0)) waiters.old.items) }
    ensures nobody { IfNone result.told (waiters.new.items ≡ waiters.old.items) }
{
    let Posted { frames, marks } = posted;
    let told = take_let_in(waiters, marks.as_slice());
    Stepped {
        frames,
        told,
        given_up,
    }
}

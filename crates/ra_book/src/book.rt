pub mod departure;
pub mod endings;
pub mod event;
pub mod event_check;
pub mod event_effect;
pub mod event_room;
pub mod frame_search;
pub mod grant;
pub mod kept_events;
pub mod sent;
pub mod stop;
pub mod taken;

ghost use Rattle.std.specs.Prelude.{◌≡◌, ◌≢◌, ◌<◌, ◌≤◌, ◌⊎◌, ◌↔◌, ◌^◌, All, Contains, length, slice_get, unwrap_or, None, [], IsErrOf, IsOk, IsOkUnless, IsSome, IfErr, IfOk, IfSome, OnErr, OnOk, IsTrue, true, false};
ghost use Rattle.ra_stamp.specs.declared.entry.Entry.{Entry};
ghost use Rattle.ra_frame.specs.declared.error.FrameError.{FrameError};
ghost use Rattle.ra_node.specs.Resource.{Holds};
ghost use Rattle.ra_node.specs.Node.{resource_at};

use crate::book::departure::Departure;
use crate::book::endings::Ending;
use crate::book::event_check::{event_refusal, room_refusal};
use crate::book::event_room::{answers_to, make_room, most_sent, room_to_ask, with_room};
use crate::book::frame_search::is_kept;
use crate::book::kept_events::{clock_after, flag_lost, keep};
use crate::book::taken::{Taken, latest_of};
use crate::{BookError, BookEvent, BookKind, Events, MarkLostError, NewError, Posted, Sent, Stop};
use ra_frame::{Frame, decode};
use ra_node::Node;
use ra_stamp::{Entry, Member, Memory, Mode, Name, NodeId};
use std::alloc::Global;
use std::marker::Model;
use std::mem;

/// The book of a node: the node, its events with their clocks, the frames that it sent, each with a flag whether it
/// was lost, and its fault, if it has one. Contracts see all of it but the node, which the events decide: a book is
/// at all times the history of its node.
///
/// A book keeps its events and the frames that it sent, until a round of an audit takes them: the calls that read or
/// flag them see those that are left. Each of `ask`, `leave`, `cancel` and `receive` costs what the call of the node
/// costs, plus amortized time linear in the number of nodes.
pub struct Book {
    me: NodeId,
    nodes: u16,
    start: u64,
    node: Node,
    taken: Taken,
    /// Those after the ones that were taken.
    events: Events,
    /// In order of sending, those after the ones that were taken.
    sent: Vec<Sent>,
    /// What the leaves or cancels of the clients that wait, are queued or hold will need. For each there is room
    /// among the events and the sent frames.
    departures: Vec<Departure>,
    fault: Option<Stop>,
}

impl Model for Book {
    ghost use Rattle.ra_book.specs.Book.{BookState};
    ghost use Rattle.ra_book.specs.Keeping.{book_of, IsKept};

    ghost Value = { BookState };

    ghost view = { book_of };

    ghost invariant = { IsKept };
}

// What a book owns is freed here, so that no other crate proves how each of its parts is dropped.
impl Drop for Book {
    fn drop(self) {
        let Book {
            me: _,
            nodes: _,
            start: _,
            node: _,
            taken: _,
            events: _,
            sent: _,
            departures: _,
            fault: _,
        } = self;
    }
}

impl Book {
    ghost use Rattle.ra_stamp.specs.Message.{from_of, to_of};
    ghost use Rattle.ra_automaton.specs.Members.{ChecksMember};
    ghost use Rattle.ra_automaton.specs.State.{IsForNode};
    ghost use Rattle.ra_automaton.specs.Steps.{greatest_number};
    ghost use Rattle.ra_frame.specs.Fits.{Fits};
    ghost use Rattle.ra_frame.specs.FrameText.{IsFrameText};
    ghost use Rattle.ra_frame.specs.Faults.{first_fault};
    ghost use Rattle.ra_node.specs.Resource.{IsKeptWaiting, IsBusy, holder_of};
    ghost use Rattle.ra_node.specs.Turns.{MayAsk};
    ghost use Rattle.ra_node.specs.Node.{NodeState};
    ghost use Rattle.ra_book.specs.History.{clock_of};
    ghost use Rattle.ra_book.specs.Book.{opening_book, whole_events, with_all_taken, IsWhole, LeadsTo, HasHistory, HasClock, Adds, Runs, ReadsFrame, IsFirst, Loses};
    ghost use Rattle.ra_book.specs.Keeping.{HasNextClock, IsChecked, RefusesAsk, RefusesReceive, IsRead};

    /// Makes the book of node `me` of `nodes`, before its first event. The highest number of each resource begins at
    /// `start`, 0 to 2^64-1, which has to be the same at all nodes. It does not allocate until the first event comes.
    ///
    /// # Errors
    ///
    /// The first that holds:
    ///
    /// 1. `BadCount`: `nodes` is not 1 to 64.
    /// 2. `BadNode`: `me` is above `nodes`.
    pub fn new(alloc: Global, me: NodeId, nodes: u16, start: u64) -> Result<Book, NewError>
        ensures ok { IfOk result (λ book. book ≡ opening_book me nodes start) }
        ensures history { IfOk result HasHistory }
        ensures member { ChecksMember me nodes result }
    {
        let member = Member::new(me, nodes)?;
        Ok(Book::of(alloc, member, start))
    }

    /// Makes the book of a member, as `new` does. It does not allocate until the first event comes.
    pub fn of(alloc: Global, member: Member, start: u64) -> Book
        ensures value { result ≡ opening_book member.node member.nodes start }
        ensures history { HasHistory result }
    {
        let me = member.node();
        let nodes = member.nodes();
        let node = Node::of(alloc, member, start);
        Book {
            me,
            nodes,
            start,
            node,
            taken: Taken::nothing(),
            events: Events::new(alloc),
            sent: Vec::new(alloc),
            departures: Vec::new(alloc),
            fault: None,
        }
    }

    /// A client of the node asks for a name. The clock rises by 1, and the frames and marks are those of
    /// the node's event, as [`Node::ask`] says. Room is made for the client's leave or cancel, too: some 400 bytes
    /// for each node of the cluster.
    ///
    /// # Errors
    ///
    /// The first that holds, and the book is as before:
    ///
    /// 1. `Failed`: the book has a fault.
    /// 2. `Busy`: the client waits, is queued or holds on that name here.
    /// 3. `Exhausted`: the highest number of the name is 2^64-1.
    /// 4. `ClockFull`: the clock would pass 2^62.
    /// 5. `Memory`: nothing has changed, and the call can be made again.
    pub fn ask(
        &mut self,
        alloc: Global,
        client: u32,
        name: Name,
        mode: Mode,
    ) -> Result<Posted, BookError>
        ensures ok { IfOk result (λ posted. Adds self.old (BookKind.Ask client name mode)
            posted.frames.items posted.marks.items self.new) }
        ensures history { HasHistory self.new }
        ensures fits { IfOk result (λ posted. All Fits posted.frames.items) }
        ensures failed { IsErrOf result BookError.Failed ↔ IsSome self.old.fault }
        ensures busy { IsErrOf result BookError.Busy
            ↔ Runs self.old (λ node. IsBusy (resource_at node name) client) }
        ensures exhausted { IsErrOf result BookError.Exhausted
            ↔ Runs self.old (λ node. (IsBusy (resource_at node name) client → ⊥)
            × ((resource_at node name).state.highest ≡ greatest_number)) }
        ensures clock_full { IsErrOf result BookError.ClockFull
            ↔ Runs self.old (λ node. MayAsk (resource_at node name) client
            × (HasClock self.old (BookKind.Ask client name mode) → ⊥)) }
        // Memory is the one other error.
        ensures allowed { IsOkUnless result BookError.Memory
            ↔ Runs self.old (λ node. MayAsk (resource_at node name) client
            × HasClock self.old (BookKind.Ask client name mode)) }
        ensures err { OnErr result (self.new ≡ self.old) }
    {
        let kind = BookKind::Ask { client, name, mode };
        let Some(clock) = self.next_clock(&kind) else {
            return Err(self.ask_refusal(client, name, mode));
        };
        let nodes = self.nodes;
        let room = room_to_ask(
            alloc,
            nodes,
            &mut self.events,
            &mut self.sent,
            &mut self.departures,
        );
        let Ok((frames, departure)) = room else {
            return Err(self.ask_refusal(client, name, mode));
        };
        let outcome = self.node.ask(alloc, client, name, mode)?;
        self.departures.push_reserved(departure);
        let event = BookEvent { clock, kind };
        Ok(keep(&mut self.events, &mut self.sent, frames, event, outcome))
    }

    /// The client that holds a name leaves it. The clock rises by 1, and the frames and marks are those
    /// of the node's event, as [`Node::leave`] says. It does not allocate: the client's ask made room for it.
    ///
    /// # Errors
    ///
    /// The first that holds, and the book is as before:
    ///
    /// 1. `Failed`: the book has a fault.
    /// 2. `NotHeld`: the client does not hold the name here.
    /// 3. `ClockFull`: the clock would pass 2^62.
    pub fn leave(&mut self, alloc: Global, client: u32, name: Name) -> Result<Posted, BookError>
        ensures ok { IfOk result (λ posted. Adds self.old (BookKind.Leave client name)
            posted.frames.items posted.marks.items self.new) }
        ensures history { HasHistory self.new }
        ensures fits { IfOk result (λ posted. All Fits posted.frames.items) }
        ensures failed { IsErrOf result BookError.Failed ↔ IsSome self.old.fault }
        ensures not_held { IsErrOf result BookError.NotHeld
            ↔ Runs self.old (λ node. (entry : Entry) → Holds (resource_at node name) client entry → ⊥) }
        ensures clock_full { IsErrOf result BookError.ClockFull
            ↔ Runs self.old (λ node. ((entry : Entry) × Holds (resource_at node name) client entry)
            × (HasClock self.old (BookKind.Leave client name) → ⊥)) }
        // Memory is the one other error, and does not come.
        ensures no_memory { IsErrOf result BookError.Memory → ⊥ }
        ensures allowed { IsOkUnless result BookError.Memory
            ↔ Runs self.old (λ node. ((entry : Entry) × Holds (resource_at node name) client entry)
            × HasClock self.old (BookKind.Leave client name)) }
        ensures err { OnErr result (self.new ≡ self.old) }
    {
        self.end(alloc, &Ending::Leave { client, name })
    }

    /// A client that waits or is queued for a name gives it up. The clock rises by 1, and the frames and
    /// marks are those of the node's event, as [`Node::cancel`] says. It does not allocate: the client's ask made
    /// room for it.
    ///
    /// # Errors
    ///
    /// The first that holds, and the book is as before:
    ///
    /// 1. `Failed`: the book has a fault.
    /// 2. `NotWaiting`: the client neither waits nor is queued for the name here.
    /// 3. `ClockFull`: the clock would pass 2^62.
    pub fn cancel(&mut self, alloc: Global, client: u32, name: Name) -> Result<Posted, BookError>
        ensures ok { IfOk result (λ posted. Adds self.old (BookKind.Cancel client name)
            posted.frames.items posted.marks.items self.new) }
        ensures history { HasHistory self.new }
        ensures fits { IfOk result (λ posted. All Fits posted.frames.items) }
        ensures failed { IsErrOf result BookError.Failed ↔ IsSome self.old.fault }
        ensures not_waiting { IsErrOf result BookError.NotWaiting
            ↔ Runs self.old (λ node. IsKeptWaiting (resource_at node name) client → ⊥) }
        ensures clock_full { IsErrOf result BookError.ClockFull
            ↔ Runs self.old (λ node. IsKeptWaiting (resource_at node name) client
            × (HasClock self.old (BookKind.Cancel client name) → ⊥)) }
        // Memory is the one other error, and does not come.
        ensures no_memory { IsErrOf result BookError.Memory → ⊥ }
        ensures allowed { IsOkUnless result BookError.Memory
            ↔ Runs self.old (λ node. IsKeptWaiting (resource_at node name) client
            × HasClock self.old (BookKind.Cancel client name)) }
        ensures err { OnErr result (self.new ≡ self.old) }
    {
        self.end(alloc, &Ending::Cancel { client, name })
    }

    /// The node forgets names, as [`Node::forget`] says. The clock rises by 1, and nothing is posted.
    /// The book keeps its start, which is the first one. It costs what the node's call costs.
    ///
    /// # Errors
    ///
    /// The first that holds, and the book is as before:
    ///
    /// 1. `Failed`: the book has a fault.
    /// 2. `ClockFull`: the clock would pass 2^62.
    /// 3. `Memory`: nothing has changed, and the call can be made again.
    pub fn forget(&mut self, alloc: Global) -> Result<(), BookError>
        ensures ok { OnOk result (Adds self.old BookKind.Forget [] [] self.new) }
        ensures history { HasHistory self.new }
        ensures failed { IsErrOf result BookError.Failed ↔ IsSome self.old.fault }
        ensures clock_full { IsErrOf result BookError.ClockFull
            ↔ ((self.old.fault ≡ None) × (HasClock self.old BookKind.Forget → ⊥)) }
        // Memory is the one other error.
        ensures allowed { IsOkUnless result BookError.Memory
            ↔ ((self.old.fault ≡ None) × HasClock self.old BookKind.Forget) }
        ensures err { OnErr result (self.new ≡ self.old) }
    {
        if self.fault.is_some() {
            return Err(BookError::Failed);
        }
        let kind = BookKind::Forget;
        let clock = clock_after(self.clock(), &kind)?;
        let leaves = self.departures.len();
        let Ok(()) = self.events.reserve(leaves as u64 + 1) else {
            return Err(BookError::Memory);
        };
        self.node.forget();
        self.events.push(BookEvent { clock, kind }).unwrap();
        Ok(())
    }

    /// The bytes of a frame come, in version 1 or 2. The new clock is the greater of the old clock and the frame's,
    /// plus 1, and the frames and marks are those of the node's event, as [`Node::receive`] says.
    ///
    /// # Errors
    ///
    /// The first that holds, and the book is as before:
    ///
    /// 1. `Failed`: the book has a fault.
    /// 2. `Frame`: the bytes are no frame, with the fault that [`decode`] names.
    /// 3. `WrongNode`: the frame is for another node.
    /// 4. `Stranger`: its sender is this node or above the number of nodes.
    /// 5. `ClockFull`: the clock would pass 2^62.
    /// 6. `Memory`: nothing has changed, and the call can be made again.
    pub fn receive(&mut self, alloc: Global, bytes: &[u8]) -> Result<Posted, BookError>
        ensures ok { IfOk result (λ posted. (frame : Frame) × IsFrameText bytes.now frame
            × Adds self.old (BookKind.Receive frame) posted.frames.items posted.marks.items self.new) }
        ensures history { HasHistory self.new }
        ensures fits { IfOk result (λ posted. All Fits posted.frames.items) }
        ensures failed { IsErrOf result BookError.Failed ↔ IsSome self.old.fault }
        ensures frame { (fault : FrameError) → IsErrOf result (BookError.Frame fault)
            ↔ ((self.old.fault ≡ None) × (first_fault bytes.now ≡ Some fault)) }
        ensures wrong_node { IsErrOf result BookError.WrongNode
            ↔ ReadsFrame self.old bytes.now (λ frame. to_of frame.message ≢ self.old.me) }
        ensures stranger { IsErrOf result BookError.Stranger
            ↔ ReadsFrame self.old bytes.now (λ frame. (to_of frame.message ≡ self.old.me)
            × ((from_of frame.message ≡ self.old.me) ⊎ (self.old.nodes < from_of frame.message))) }
        ensures clock_full { IsErrOf result BookError.ClockFull
            ↔ ReadsFrame self.old bytes.now (λ frame. IsForNode self.old.me self.old.nodes frame.message
            × (HasClock self.old (BookKind.Receive frame) → ⊥)) }
        // Memory is the one other error.
        ensures allowed { IsOkUnless result BookError.Memory
            ↔ ReadsFrame self.old bytes.now (λ frame. IsForNode self.old.me self.old.nodes frame.message
            × HasClock self.old (BookKind.Receive frame)) }
        ensures err { OnErr result (self.new ≡ self.old) }
    {
        let (frame, clock) = self.check_receive(bytes)?;
        let sends = answers_to(&frame.message);
        let leaves = self.departures.len();
        let nodes = self.nodes;
        let room = make_room(
            alloc,
            nodes,
            &mut self.events,
            &mut self.sent,
            sends,
            leaves,
        );
        let Ok(frames) = room else {
            return Err(room_refusal(&self.node, &frame));
        };
        let outcome = self.node.receive(alloc, &frame.message)?;
        let kind = BookKind::Receive(frame);
        let event = BookEvent { clock, kind };
        Ok(keep(&mut self.events, &mut self.sent, frames, event, outcome))
    }

    /// Flags the sent frame that is equal to this one as lost, or the first of several equal ones. It does not
    /// allocate. The cost is logarithmic in the number of the sent frames, and linear in the number of nodes.
    ///
    /// # Errors
    ///
    /// The first that holds, and the book is as before:
    ///
    /// 1. `NotSent`: it is not among the sent frames.
    /// 2. `AlreadyLost`: it was flagged before.
    pub fn mark_lost(&mut self, frame: &Frame) -> Result<(), MarkLostError>
        ensures ok { OnOk result ((self.new ≡ record self.old { sent = self.new.sent })
            × Loses self.old.sent frame.now self.new.sent) }
        ensures history { HasHistory self.new }
        ensures not_sent { IsErrOf result MarkLostError.NotSent
            ↔ All (λ s. s.frame ≢ frame.now) self.old.sent }
        ensures already_lost { IsErrOf result MarkLostError.AlreadyLost
            ↔ IsFirst self.old.sent frame.now true }
        ensures allowed { IsOk result ↔ IsFirst self.old.sent frame.now false }
        ensures err { OnErr result (self.new ≡ self.old) }
    {
        flag_lost(self.sent.as_mut_slice(), frame)
    }

    /// Returns whether the node sent this frame and it is not flagged lost. It costs what `mark_lost` costs.
    pub(crate) fn has_kept(&self, frame: &Frame) -> bool
        ensures { IsTrue result ↔ Contains self.now.sent (record { frame = frame.now; lost = false }) }
    {
        is_kept(self.sent.as_slice(), frame)
    }

    /// Gives the book a fault, if it has none. From then on each event is answered `Failed`, and frames can still
    /// be flagged as lost: a thread that stops the nodes does both, in any order. It does not allocate.
    pub fn fail(&mut self, stop: Stop)
        ensures value { self.new ≡ record self.old { fault = Some (unwrap_or self.old.fault stop) } }
        ensures history { HasHistory self.new }
    {
        self.fault = Some(self.fault.unwrap_or(stop));
    }

    /// Returns the node's number. It does not allocate.
    pub fn me(&self) -> NodeId
        ensures value { result ≡ self.now.me }
        ensures history { HasHistory self.now }
    {
        self.me
    }

    /// Returns how many nodes there are, 1 to 64. It does not allocate.
    pub fn nodes(&self) -> u16
        ensures value { result ≡ self.now.nodes }
        ensures history { HasHistory self.now }
    {
        self.nodes
    }

    /// Returns the highest number that each resource began with, 0 to 2^64-1. It does not allocate.
    pub fn start(&self) -> u64
        ensures value { result ≡ self.now.start }
        ensures history { HasHistory self.now }
    {
        self.start
    }

    /// Returns the clock of the last event, or 0 if there was none. It does not allocate.
    pub fn clock(&self) -> u64
        ensures value { result ≡ clock_of (whole_events self.now) }
        ensures history { HasHistory self.now }
    {
        latest_of(self.taken.clock(), self.events.as_slice())
    }

    /// Returns the clock of the last event that was taken from the book, or 0 if none was. It does not allocate.
    pub fn taken_clock(&self) -> u64
        ensures value { result ≡ clock_of self.now.taken.events }
        ensures history { HasHistory self.now }
    {
        self.taken.clock()
    }

    /// Returns whether the book never handed over its events, as [`settle`](crate::settle) requires. It is `false`
    /// for a book that a round has looked at, even if nothing had happened. It does not allocate.
    pub fn is_whole(&self) -> bool
        ensures value { IsTrue result ↔ IsWhole self.now }
        ensures history { HasHistory self.now }
    {
        !self.taken.is_some()
    }

    /// Returns the node as it is after the events. It does not allocate.
    pub fn node(&self) -> &Node
        ensures value { LeadsTo self.now result.now }
        ensures history { HasHistory self.now }
    {
        &self.node
    }

    /// Returns the events so far, in order. It does not allocate.
    pub fn events(&self) -> &Events
        ensures value { result.now.items ≡ self.now.events }
        ensures history { HasHistory self.now }
    {
        &self.events
    }

    /// Returns the sent frame at this place, counted from 0 in order of sending, with its flag, or `None` past the
    /// end. It does not allocate.
    pub fn sent(&self, place: u64) -> Option<Sent>
        ensures value { result ≡ slice_get self.now.sent place }
        ensures history { HasHistory self.now }
    {
        self.sent.get(place as usize).copied()
    }

    /// Returns how many frames were sent. It does not allocate.
    pub fn sent_len(&self) -> u64
        ensures value { result ≡ length self.now.sent }
        ensures history { HasHistory self.now }
    {
        self.sent.len() as u64
    }

    /// Hands over the events and the sent frames that the book still has, and goes on without them. The book keeps
    /// the clock of the last event, and still has its history by its type. It can't flag these frames any more. Room
    /// for what the leaves of the node's clients will need is made first, and that is all the cost: it does not grow
    /// with the history.
    ///
    /// # Errors
    ///
    /// `Memory`: there is no such room. The book is as before.
    pub fn take_all(&mut self, alloc: Global) -> Result<(Events, Vec<Sent>), Memory>
        ensures events { IfOk result (λ taken. taken.0.items ≡ self.old.events) }
        ensures sent { IfOk result (λ taken. taken.1.items ≡ self.old.sent) }
        ensures ok { OnOk result (self.new ≡ with_all_taken self.old) }
        ensures err { OnErr result (self.new ≡ self.old) }
        ensures history { HasHistory self.new }
    {
        let leaves = self.departures.len();
        let frames = most_sent(self.nodes, 0, leaves)?;
        let sent = Vec::with_capacity(alloc, frames)?;
        let events = with_room(alloc, leaves as u64)?;
        self.taken.take(&self.events, &self.sent);
        let old_events = mem::replace(&mut self.events, events);
        let old_sent = mem::replace(&mut self.sent, sent);
        Ok((old_events, old_sent))
    }

    /// Returns the fault, or `None` if there is none. It does not allocate.
    pub fn fault(&self) -> Option<Stop>
        ensures value { result ≡ self.now.fault }
        ensures history { HasHistory self.now }
    {
        self.fault
    }

    /// Returns the request that is granted at this node on a name, or `None`, as [`Node::holder`] does. It does not
    /// allocate.
    pub fn holder(&self, name: &Name) -> Option<Entry>
        ensures value { (node : NodeState) × LeadsTo self.now node
            × (result ≡ holder_of (resource_at node name.now)) }
        ensures history { HasHistory self.now }
    {
        self.node.holder(name)
    }

    /// Returns the clock of an event of this kind that comes next, or `None` if the book has a fault or the clock
    /// would pass 2^62.
    fn next_clock(&self, kind: &BookKind) -> Option<u64>
        ensures { IfSome result (HasNextClock self.now kind.now) }
    {
        if self.fault.is_some() {
            return None;
        }
        clock_after(self.clock(), kind).ok()
    }

    /// Returns why the ask of a client is refused if there is no memory. Each other cause comes before `Memory`, as
    /// `ask` says. It does not allocate.
    pub fn ask_refusal(&self, client: u32, name: Name, mode: Mode) -> BookError
        ensures refused { RefusesAsk self.now client name mode result }
        ensures history { HasHistory self.now }
    {
        if self.fault.is_some() {
            return BookError::Failed;
        }
        let kind = BookKind::Ask { client, name, mode };
        event_refusal(&self.node, self.clock(), &kind)
    }

    /// Returns the frame that the bytes are the text of, and the clock that its coming has if the node takes it. It
    /// looks at the frame's nodes only if no clock is left, since `WrongNode` and `Stranger` come before `ClockFull`.
    ///
    /// # Errors
    ///
    /// Those of `receive`, except for `Memory`. `WrongNode` and `Stranger` come only if no clock is left.
    fn check_receive(&self, bytes: &[u8]) -> Result<(Frame, u64), BookError>
        ensures checked { IsChecked self.now
            (λ came. IsRead bytes.now came.0 × HasNextClock self.now (BookKind.Receive came.0) came.1) result }
        ensures refused { IfErr result (RefusesReceive self.now bytes.now) }
    {
        if self.fault.is_some() {
            return Err(BookError::Failed);
        }
        let frame = match decode(bytes) {
            Ok(frame) => frame,
            Err(fault) => return Err(BookError::Frame(fault)),
        };
        // The event's frame is copied through a borrow, since the proof of a copy of the variable is not told of the
        // type of its message.
        let came = &frame;
        let kind = BookKind::Receive(*came);
        let latest = self.clock();
        let Ok(clock) = clock_after(latest, &kind) else {
            return Err(event_refusal(&self.node, latest, &kind));
        };
        Ok((frame, clock))
    }
}

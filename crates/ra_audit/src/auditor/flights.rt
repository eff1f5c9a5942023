//! The messages under way with the clocks of the events that sent them.
ghost use Rattle.std.specs.Prelude.{◌≡◌, ◌≢◌, ◌↔◌, ◌<◌, ◌∷◌, [], ℕ, All, Contains, None, Some, length, map, slice_index_or, IfOk, IsTrue, IsFalse, OnOk};
ghost use Rattle.indexmap.specs.IndexMap.{get};
ghost use Rattle.ra_book.specs.Settled.{frames_in};
ghost use Rattle.ra_audit.specs.AuditKeeping.{HasClock, NoneFlies, FliesOn, FliesAfter, AreNoted, NotesSome, IsIn, IsNotedIn, AreApart, slot_of, kind_of};

use indexmap::IndexMap;
use ra_frame::Frame;
use ra_site::{BookEvent, BookKind};
use ra_stamp::{Memory, Message, Messages};
use std::alloc::Global;
use std::marker::Model;

/// Each message under way with the clock of the event that sent it. What an event sends is noted before the next event,
/// so that nothing can fail once an event is in the run. The memory is linear in the number of messages under way,
/// beside two slots for each sender and receiver.
#[derive(Drop)]
pub struct Flights {
    /// How many nodes the run has.
    nodes: u16,
    /// For each sender and receiver a slot for a REQUEST and one for a REPLY. Mostly no more are under way between
    /// them, and what is in its slot is found without hashing it.
    slots: Vec<Option<Frame>>,
    /// The clocks of the messages that found their slot taken.
    others: IndexMap<Message, u64>,
    /// The clock of the last event.
    clock: u64,
    /// What it sent, until that is noted.
    last: Messages,
}

impl Model for Flights {
    ghost use Rattle.ra_audit.specs.AuditKeeping.{FlightState, AreApart};

    ghost Value = { FlightState };

    ghost view = { λ f. record {
      nodes = f.nodes;
      slots = f.slots.items;
      others = f.others.entries;
      clock = f.clock;
      last = f.last.items;
    } };

    ghost invariant = { λ f. AreApart f.nodes f.slots.items f.others.entries };
}

impl Flights {
    /// Makes those of a run of this many nodes before its first step. The cost is linear in the number of pairs of
    /// nodes.
    ///
    /// # Errors
    ///
    /// `Memory`: there is no room for the slots.
    #[tactic(auto, using(crate::proofs::Flying::free_more, crate::proofs::Flying::free_apart))]
    pub fn new(alloc: Global, nodes: u16) -> Result<Flights, Memory>
        ensures { IfOk result NoneFlies }
    {
        let pairs = usize::from(nodes) * usize::from(nodes);
        let mut slots = Vec::with_capacity(alloc, 2 * pairs)?;
        for _ in 0..2 * pairs {
            slots.push(None)?;
        }
        Ok(Flights {
            nodes,
            slots,
            others: IndexMap::new(alloc),
            clock: 0,
            last: Messages::new(alloc),
        })
    }

    /// Notes what the last event sent.
    ///
    /// # Errors
    ///
    /// `Memory`: some of it is not noted yet.
    pub fn note_last(&mut self, alloc: Global) -> Result<(), Memory>
        ensures same { FliesOn self.old self.new }
        ensures ok { OnOk result (self.new.last ≡ []) }
    {
        note_all(
            self.nodes,
            &mut self.slots,
            &mut self.others,
            self.clock,
            self.last.as_slice(),
        )?;
        self.last = Messages::new(alloc);
        Ok(())
    }

    /// Returns whether the frame that came by an event, if one did, is noted with its clock. It does not allocate.
    pub fn has_frame_of(&self, kind: &BookKind) -> bool
        ensures { IsTrue result ↔ AreNoted self.now (frames_in kind.now) }
    {
        match kind {
            BookKind::Receive(frame) => self.has(frame),
            BookKind::Ask { .. }
            | BookKind::Leave { .. }
            | BookKind::Cancel { .. }
            | BookKind::Forget => true,
        }
    }

    /// Returns whether the message of a frame is noted with the frame's clock. It does not allocate.
    pub fn has(&self, frame: &Frame) -> bool
        ensures { IsTrue result ↔ AreNoted self.now (frame.now ∷ []) }
    {
        let slot = slot_of(self.nodes, &frame.message);
        is_in_slot(&self.slots, slot, frame) || is_among(&self.others, frame)
    }

    /// Returns whether the message of the frame that came by the event, if one did, is under way and was sent by an
    /// event with the frame's clock, even if that is not noted yet. It does not allocate. The cost is linear in the
    /// number of messages that the last event sent.
    pub fn flies_of(&self, kind: &BookKind) -> bool
        ensures { IsTrue result ↔ All (λ frame. HasClock self.now frame.message frame.clock) (frames_in kind.now) }
    {
        match kind {
            BookKind::Receive(frame) => self.flies(frame),
            BookKind::Ask { .. }
            | BookKind::Leave { .. }
            | BookKind::Cancel { .. }
            | BookKind::Forget => true,
        }
    }

    /// Returns the same of a frame.
    pub fn flies(&self, frame: &Frame) -> bool
        ensures { IsTrue result ↔ HasClock self.now frame.now.message frame.now.clock }
    {
        self.has(frame)
            || (frame.clock == self.clock && is_one_of(self.last.as_slice(), &frame.message))
    }

    /// Goes on after an event that sent these messages: the message of the frame that came by it, if one did, is under
    /// way no longer. It does not allocate.
    pub fn go_on(&mut self, event: &BookEvent, sends: Messages)
        ensures { FliesAfter self.old (map (λ f. f.message)
            (frames_in event.now.kind)) event.now.clock sends.items self.new }
    {
        self.take_of(&event.kind);
        self.send(event.clock, sends);
    }

    /// Keeps what an event with this clock sent.
    fn send(&mut self, clock: u64, sends: Messages)
        ensures { self.new ≡ record self.old { clock = clock; last = sends.items } }
    {
        self.clock = clock;
        self.last = sends;
    }

    /// Takes the message of the frame that came by an event, if one did.
    fn take_of(&mut self, kind: &BookKind)
        ensures { FliesAfter self.old (map (λ f. f.message)
            (frames_in kind.now)) self.old.clock self.old.last self.new }
    {
        match kind {
            BookKind::Receive(frame) => self.take(&frame.message),
            BookKind::Ask { .. }
            | BookKind::Leave { .. }
            | BookKind::Cancel { .. }
            | BookKind::Forget => {}
        }
    }

    /// Takes a message out of those that are noted. It does not allocate.
    pub fn take(&mut self, message: &Message)
        ensures { FliesAfter self.old (message.now ∷ []) self.old.clock self.old.last self.new }
    {
        let slot = slot_of(self.nodes, message);
        if has_message(&self.slots, slot, message) {
            self.slots[slot] = None;
        } else {
            self.others.swap_remove(message);
        }
    }
}

/// Returns whether a message is one of these.
#[tactic(auto, using(ra_stamp::proofs::StampLaws::same_messages))]
fn is_one_of(messages: &[Message], message: &Message) -> bool
    ensures { IsTrue result ↔ Contains messages.now message.now }
{
    for other in messages {
        if other == message {
            return true;
        }
    }
    false
}

/// Returns the slot of a message, which may be past the end if its sender or receiver is no node of the run.
#[inline(always)]
fn slot_of(nodes: u16, message: &Message) -> usize
    ensures { result ≡ slot_of nodes message.now }
{
    let from = message.from().place();
    let to = message.to().place();
    2 * (from * usize::from(nodes) + to) + kind_of(message)
}

/// Returns which of the two slots of its sender and receiver a message takes.
#[inline(always)]
fn kind_of(message: &Message) -> usize
    ensures { result ≡ kind_of message.now }
{
    match message {
        Message::Request { .. } => 0,
        Message::Reply { .. } => 1,
    }
}

/// Returns whether a slot has this frame.
#[inline(always)]
#[tactic(auto, using(ra_stamp::proofs::StampLaws::same_messages))]
fn is_in_slot(slots: &[Option<Frame>], slot: usize, frame: &Frame) -> bool
    ensures { IsTrue result ↔ (slice_index_or slots.now slot None ≡ Some frame.now) }
{
    match slots.get(slot) {
        Some(Some(kept)) => kept.clock == frame.clock && kept.message == frame.message,
        Some(None) | None => false,
    }
}

/// Returns whether a slot has a frame with this message.
#[inline(always)]
#[tactic(auto, using(ra_stamp::proofs::StampLaws::same_messages))]
fn has_message(slots: &[Option<Frame>], slot: usize, message: &Message) -> bool
    ensures within { IsTrue result → slot < length slots.now }
    ensures some { IsTrue result → slice_index_or slots.now slot None ≢ None }
    ensures no_other { IsTrue result → (frame : Frame) → slice_index_or slots.now slot None ≡ Some frame
        → frame.message ≡ message.now }
    ensures other { IsFalse result → (clock : ℕ)
        → slice_index_or slots.now slot None ≡ Some (record { clock = clock; message = message.now }) → ⊥ }
{
    match slots.get(slot) {
        Some(Some(kept)) => kept.message == *message,
        Some(None) | None => false,
    }
}

/// Returns whether there is this slot and no frame of another message is in it.
#[inline(always)]
#[tactic(auto, using(ra_stamp::proofs::StampLaws::same_messages))]
fn may_take(slots: &[Option<Frame>], slot: usize, message: &Message) -> bool
    ensures within { IsTrue result → slot < length slots.now }
    ensures no_other { IsTrue result → (frame : Frame) → slice_index_or slots.now slot None ≡ Some frame
        → frame.message ≡ message.now }
    ensures other { IsFalse result → (clock : ℕ)
        → slice_index_or slots.now slot None ≡ Some (record { clock = clock; message = message.now }) → ⊥ }
{
    match slots.get(slot) {
        Some(Some(kept)) => kept.message == *message,
        Some(None) => true,
        None => false,
    }
}

/// Returns whether the message of a frame is among these, with the frame's clock.
fn is_among(others: &IndexMap<Message, u64>, frame: &Frame) -> bool
    ensures { IsTrue result ↔ (get ⟦<Message as PartialEq>⟧.eq others.now frame.now.message ≡ Some frame.now.clock) }
{
    match others.get(&frame.message) {
        Some(clock) => *clock == frame.clock,
        None => false,
    }
}

/// Notes for each of these messages that an event with this clock sent it.
///
/// # Errors
///
/// `Memory`: some are not noted.
fn note_all(
    nodes: u16,
    slots: &mut Vec<Option<Frame>>,
    others: &mut IndexMap<Message, u64>,
    clock: u64,
    messages: &[Message],
) -> Result<(), Memory>
    requires { AreApart nodes slots.old.items others.old.entries }
    ensures apart { AreApart nodes slots.new.items others.new.entries }
    ensures notes { NotesSome (IsNotedIn nodes slots.old.items others.old.entries) messages.now clock
        (IsNotedIn nodes slots.new.items others.new.entries) }
    ensures ok { OnOk result (All (IsIn (IsNotedIn nodes slots.new.items others.new.entries)) messages.now) }
{
    for message in messages {
        note(nodes, slots, others, clock, message)?;
    }
    Ok(())
}

/// Notes that an event with this clock sent this message.
///
/// # Errors
///
/// `Memory`: it is not noted.
#[inline(always)]
fn note(
    nodes: u16,
    slots: &mut Vec<Option<Frame>>,
    others: &mut IndexMap<Message, u64>,
    clock: u64,
    message: &Message,
) -> Result<(), Memory>
    requires { AreApart nodes slots.old.items others.old.entries }
    ensures apart { AreApart nodes slots.new.items others.new.entries }
    ensures notes { NotesSome (IsNotedIn nodes slots.old.items others.old.entries) (message.now ∷ []) clock
        (IsNotedIn nodes slots.new.items others.new.entries) }
    ensures ok { OnOk result (IsIn (IsNotedIn nodes slots.new.items others.new.entries) message.now) }
{
    let slot = slot_of(nodes, message);
    if may_take(slots.as_slice(), slot, message) && are_without(others, message) {
        slots[slot] = Some(Frame {
            clock,
            message: *message,
        });
        return Ok(());
    }
    others.insert(*message, clock)?;
    Ok(())
}

/// Returns whether a message is not among these.
#[inline(always)]
fn are_without(others: &IndexMap<Message, u64>, message: &Message) -> bool
    ensures { IsTrue result ↔ (get ⟦<Message as PartialEq>⟧.eq others.now message.now ≡ None) }
{
    // Mostly none is kept, and then the message need not be hashed.
    others.is_empty() || others.get(message).is_none()
}

//! A node with the frames that it sent.
ghost use Rattle.std.specs.Prelude.{◌≡◌, ◌-◌, ◌<◌, ◌≤◌, ℕ, Some, length, slice_get, slice_index_or, map, MatchResult, IfOk, OnOk};
ghost use Rattle.ra_book.specs.Book.{BookState, opening_book};
ghost use Rattle.ra_book.specs.History.{frames_at};
ghost use Rattle.ra_host.specs.Outgoing.{HaveRoom, HaveSpace, Outgoing, drops, drops_at, frame_for, made_at, none_of, outgoing_of, posts};
ghost use Rattle.ra_host.specs.Replaying.{acknowledged_at};
ghost use Rattle.ra_host.specs.declared.outbox.Outbox.{Outbox};
ghost use Rattle.ra_host.specs.Full as full;

use crate::outbox::Outbox;
use crate::{EventError, Links};
use ra_book::{BookError, BookKind, TimedNode};
use ra_frame::Frame;
use ra_node::Outcome;
use ra_stamp::{Member, Memory, Message, NodeId};
use std::alloc::Global;
use std::marker::Model;

/// The most frames that an event makes for one host.
const MOST_MADE: u64 = 128;

/// A node that had the events of a book, with the frames that other hosts have not acknowledged. What it takes grows
/// with these and with the names that the node meets, and not with the number of events.
#[derive(Drop)]
pub struct Played {
    timed: TimedNode,
    /// By the hosts' numbers, from 1. That of the node itself stays empty.
    outboxes: Vec<Outbox>,
}

impl Model for Played {
    ghost use Rattle.ra_book.specs.contracts.timed_node.TimedNode as kept_timed;
    ghost use Rattle.ra_frame.specs.contracts.frame.Frame as kept_frame;
    ghost use Rattle.ra_host.specs.Played.{PlayedState, played_code, played_of, IsPlayed};

    ghost Value = { PlayedState };

    ghost coded = { played_code kept_timed.the_row.coded kept_frame.the_row.coded };

    ghost view = { played_of };

    ghost invariant = { IsPlayed };
}

impl Played {
    ghost use Rattle.ra_book.specs.Timed.{CanCome, opening};
    ghost use Rattle.ra_host.specs.Played.{IsPlayedOf, Plays, GoesOn, RefusesEvent};

    /// Makes the node of a member, which has met nothing. `dropped` has a count for each host by number, also for the
    /// node's own. Of the frames for a host it will not keep the first ones, as many as this count. The cost is linear
    /// in the number of hosts.
    ///
    /// # Errors
    ///
    /// `Memory`: there is no room for the frames.
    pub fn new(alloc: Global, member: Member, start: u64, dropped: &[u64]) -> Result<Played, Memory>
        ensures timed { IfOk result (λ played. played.timed ≡ opening member.node member.nodes start) }
        ensures outgoing { IfOk result (λ played. played.outgoing ≡ map none_of dropped.now) }
        ensures book { IfOk result (λ played. member.nodes ≤ length dropped.now
            → IsPlayedOf played (opening_book member.node member.nodes start)) }
    {
        let mut outboxes = Vec::with_capacity(alloc, dropped.len())?;
        for count in dropped {
            outboxes.push(Outbox::new(alloc, *count))?;
        }
        Ok(Played {
            timed: TimedNode::new(alloc, member, start),
            outboxes,
        })
    }

    /// Returns the clock of the last event, or 0 if there was none. It does not allocate.
    pub fn clock(&self) -> u64
        ensures { result ≡ self.now.timed.clock }
    {
        self.timed.clock()
    }

    /// Makes an event happen: the node takes it, and what it sends are frames for other hosts. The cost is that of the
    /// node's call, and linear in the number of hosts.
    ///
    /// # Errors
    ///
    /// The first that holds, and nothing has changed:
    ///
    /// 1. `Full`: for some host fewer than 128 numbers of frames are left.
    /// 2. `Refused`: the node's call refuses it, no clock is left for it, or memory ran out. `Memory` may come before
    ///    the others.
    pub fn take(&mut self, alloc: Global, kind: &BookKind) -> Result<Outcome, EventError>
        requires { CanCome kind.now }
        ensures taken { MatchResult result (λ outcome. Plays self.old kind.now outcome self.new)
            (λ why. (self.new ≡ self.old) × RefusesEvent self.old kind.now why) }
        ensures book { IfOk result (λ outcome. (book : BookState) → IsPlayedOf self.old book
            → GoesOn book kind.now outcome self.new) }
    {
        if is_full(&self.outboxes) {
            return Err(EventError::Full);
        }
        if make_room(&mut self.outboxes).is_err() {
            return Err(EventError::Refused(BookError::Memory));
        }
        let outcome = match self.timed.take(alloc, kind) {
            Ok(outcome) => outcome,
            Err(why) => return Err(EventError::Refused(why)),
        };
        let clock = self.timed.clock();
        post(&mut self.outboxes, clock, outcome.sends.as_slice());
        Ok(outcome)
    }

    /// Drops the first frames for a host, so that this many are not kept: it has acknowledged them. The cost is
    /// amortized constant for each frame that was sent.
    pub(crate) fn drop_first(&mut self, other: NodeId, count: u64)
        ensures { self.new
            ≡ record self.old { outgoing = drops_at self.old.outgoing (other - 1) count } }
    {
        drop_first(&mut self.outboxes, other.place(), count);
    }

    /// Returns the frame for a host with this number, counted from 1, or `None` if it is not kept. It does not
    /// allocate.
    pub(crate) fn frame(&self, other: NodeId, number: u64) -> Option<Frame>
        ensures { result ≡ frame_for self.now.outgoing (other - 1) number }
    {
        frame_of(&self.outboxes, other.place(), number)
    }

    /// Returns how many frames there are for the host at this place, counted from 0, or 0 if there is no such host. It
    /// does not allocate.
    pub(crate) fn made_at(&self, place: usize) -> u64
        ensures { result ≡ made_at self.now.outgoing place }
    {
        made_of(&self.outboxes, place)
    }

    /// Drops the first frames for each host, which the host has acknowledged by its link. The cost is linear in the
    /// number of hosts, and of the frames that are dropped.
    pub(crate) fn drop_acknowledged(&mut self, links: &Links)
        ensures timed { self.new.timed ≡ self.old.timed }
        ensures outgoing { (k : ℕ) (o : Outgoing) → slice_get self.old.outgoing k ≡ Some o
            → slice_get self.new.outgoing k ≡ Some (drops o (acknowledged_at links.now.links.items k)) }
    {
        drop_each(&mut self.outboxes, links);
    }
}

/// Returns whether for some host fewer numbers are left than an event may need.
fn is_full(outboxes: &[Outbox]) -> bool
    ensures { result ≡ full.is_full (map outgoing_of outboxes.now) }
{
    for outbox in outboxes {
        if outbox.made() > u64::MAX - MOST_MADE {
            return true;
        }
    }
    false
}

/// Makes room for the frames of an event.
///
/// # Errors
///
/// `Memory`: there is none.
fn make_room(outboxes: &mut Vec<Outbox>) -> Result<(), Memory>
    ensures same { map outgoing_of outboxes.new.items ≡ map outgoing_of outboxes.old.items }
    ensures ok { OnOk result (HaveSpace outboxes.new.items 128) }
{
    for place in 0..outboxes.len() {
        outboxes[place].reserve(MOST_MADE as usize)?;
    }
    Ok(())
}

/// Adds each message as a frame for its receiver. There is room for them.
fn post(outboxes: &mut Vec<Outbox>, clock: u64, sends: &[Message])
    requires { HaveRoom outboxes.old.items (length sends.now) }
    ensures { map outgoing_of outboxes.new.items
        ≡ posts (map outgoing_of outboxes.old.items) (frames_at clock sends.now) }
{
    for message in sends {
        let place = message.to().place();
        if place < outboxes.len() {
            outboxes[place].push(clock, message);
        }
    }
}

/// Drops the first frames for the host at this place.
fn drop_first(outboxes: &mut Vec<Outbox>, place: usize, count: u64)
    ensures { map outgoing_of outboxes.new.items
        ≡ drops_at (map outgoing_of outboxes.old.items) place count }
{
    if place >= outboxes.len() {
        return;
    }
    outboxes[place].drop_first(count);
}

/// Returns how many frames there are for the host at this place, or 0 if there is no such host.
fn made_of(outboxes: &[Outbox], place: usize) -> u64
    ensures { result ≡ made_at (map outgoing_of outboxes.now) place }
{
    if place >= outboxes.len() {
        return 0;
    }
    outboxes[place].made()
}

/// Drops the first frames for each host that it has acknowledged.
fn drop_each(outboxes: &mut Vec<Outbox>, links: &Links)
    ensures each { (k : ℕ) (d : Outbox) → k < length outboxes.old.items
        → outgoing_of (slice_index_or outboxes.new.items k d)
        ≡ drops (outgoing_of (slice_index_or outboxes.old.items k d))
        (acknowledged_at links.now.links.items k) }
    ensures len { length outboxes.new.items ≡ length outboxes.old.items }
{
    for place in 0..outboxes.len() {
        let count = links.acknowledged_at(place);
        outboxes[place].drop_first(count);
    }
}

/// Returns the frame with this number for the host at this place, or `None` if it is not kept.
fn frame_of(outboxes: &[Outbox], place: usize, number: u64) -> Option<Frame>
    ensures { result ≡ frame_for (map outgoing_of outboxes.now) place number }
{
    if place >= outboxes.len() {
        return None;
    }
    outboxes[place].get(number)
}

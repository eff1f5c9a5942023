//! What was taken from a book.
ghost use Rattle.std.specs.Prelude.{◌≡◌, ◌++◌, true, false};
ghost use Rattle.ra_book.specs.History.{clock_of, clock_from};
ghost use Rattle.ra_book.specs.Book.{nothing_taken};

use crate::{BookEvent, Events, Sent};
use ra_stamp::GhostList;
use std::marker::Model;

/// The events and frames that were taken from a book. They are not kept: contracts see them, and the program knows
/// whether there are any, and the clock of the last event.
#[derive(Drop)]
pub struct Taken {
    some: bool,
    /// The clock of the last event that was taken, 0 before the first.
    clock: u64,
    events: GhostList<Events>,
    sent: GhostList<Vec<Sent>>,
}

impl Model for Taken {
    ghost use Rattle.ra_book.specs.Book.{TakenState};
    ghost use Rattle.ra_book.specs.TakenKeeping.{taken_of, IsKeptTaken};

    ghost Value = { TakenState };

    ghost view = { taken_of };

    ghost invariant = { IsKeptTaken };
}

impl Taken {
    /// Begins for a book from which nothing was taken.
    pub fn nothing() -> Taken
        ensures { result ≡ nothing_taken }
    {
        Taken {
            some: false,
            clock: 0,
            events: GhostList::new(),
            sent: GhostList::new(),
        }
    }

    /// Returns whether anything was taken.
    pub fn is_some(&self) -> bool
        ensures value { result ≡ self.now.some }
        ensures nothing { self.now.some ≡ false → self.now ≡ nothing_taken }
    {
        self.some
    }

    /// Returns the clock of the last event that was taken, 0 before the first.
    pub fn clock(&self) -> u64
        ensures { result ≡ clock_of self.now.events }
    {
        self.clock
    }

    /// Notes that these events and frames are taken, which come after those before.
    pub fn take(&mut self, events: &Events, sent: &Vec<Sent>)
        ensures { self.new ≡ record {
          some = true;
          events = self.old.events ++ events.now.items;
          sent = self.old.sent ++ sent.now.items;
        } }
    {
        self.clock = latest_of(self.clock, events.as_slice());
        self.events = self.events.and(events);
        self.sent = self.sent.and(sent);
        self.some = true;
    }
}

/// Returns the clock of the last of these events, which come after an event with this clock, or this clock if there are
/// none.
pub fn latest_of(clock: u64, events: &[BookEvent]) -> u64
    ensures { result ≡ clock_from clock events.now }
{
    match events.last() {
        Some(event) => event.clock,
        None => clock,
    }
}

//! How a book ends the request of a client: by a leave or by a cancel.
ghost use Rattle.std.specs.Prelude.{◌≡◌, All, IfErr, IfOk, IsErrOf, OnErr};
ghost use Rattle.ra_frame.specs.Fits.{Fits};
ghost use Rattle.ra_node.specs.Room.{IsNothing, HasRoomToLeave};
ghost use Rattle.ra_book.specs.Book.{Adds, HasHistory};
ghost use Rattle.ra_book.specs.Endings.{kind_of, refusal_of, AnswersEnding, RefusesEnding, EndsAt};
ghost use Rattle.ra_book.specs.Keeping.{HasNextClock, IsChecked};

use crate::book::Book;
use crate::book::departure::Departure;
use crate::book::event_check::check_event;
use crate::book::kept_events::{clock_after, keep};
use crate::{BookError, BookEvent, BookKind, Posted};
use ra_node::{Node, Outcome};
use ra_stamp::Name;
use std::alloc::Global;

/// How the request of a client ends.
#[derive(Drop)]
pub enum Ending {
    /// The client that holds the name leaves it.
    Leave { client: u32, name: Name },
    /// A client that waits or is queued for the name gives it up.
    Cancel { client: u32, name: Name },
}

impl Ending {
    /// Returns the event that ends the request.
    fn kind(&self) -> BookKind
        ensures { result ≡ kind_of self.now }
    {
        match self {
            Ending::Leave { client, name } => BookKind::Leave {
                client: *client,
                name: *name,
            },
            Ending::Cancel { client, name } => BookKind::Cancel {
                client: *client,
                name: *name,
            },
        }
    }

    /// Returns how the ending is refused if the client has no such request.
    fn refusal(&self) -> BookError
        ensures { result ≡ refusal_of self.now }
    {
        match self {
            Ending::Leave { .. } => BookError::NotHeld,
            Ending::Cancel { .. } => BookError::NotWaiting,
        }
    }

    /// Ends the request at a node, and returns whether the client had it: if not, nothing changes. The outcome is of
    /// a departure, so that this does not allocate.
    fn end_at(&self, alloc: Global, node: &mut Node, outcome: &mut Outcome) -> bool
        requires nothing { IsNothing outcome.old }
        requires room { HasRoomToLeave node.old.nodes outcome.old }
        ensures { EndsAt self.now node.old outcome.old result node.new outcome.new }
    {
        match self {
            Ending::Leave { client, name } => {
                node.leave_into(alloc, *client, *name, outcome).is_ok()
            }
            Ending::Cancel { client, name } => {
                node.cancel_into(alloc, *client, *name, outcome).is_ok()
            }
        }
    }
}

impl Book {
    /// Ends the request of a client. The clock rises by 1, and the frames and marks are those of the
    /// node's event. It does not allocate: the client's ask made room for it.
    ///
    /// # Errors
    ///
    /// The first that holds, and the book is as before:
    ///
    /// 1. `Failed`: the book has a fault.
    /// 2. `NotHeld`, `NotWaiting`: the client has no request that can end so.
    /// 3. `ClockFull`: the clock would pass 2^62.
    pub(crate) fn end(&mut self, alloc: Global, ending: &Ending) -> Result<Posted, BookError>
        ensures ok { IfOk result (λ posted. Adds self.old (kind_of ending.now)
            posted.frames.items posted.marks.items self.new) }
        ensures history { HasHistory self.new }
        ensures fits { IfOk result (λ posted. All Fits posted.frames.items) }
        ensures answers { AnswersEnding self.old ending.now result }
        // Memory is the one other error, and does not come.
        ensures no_memory { IsErrOf result BookError.Memory → ⊥ }
        ensures err { OnErr result (self.new ≡ self.old) }
    {
        let clock = self.check_ending(ending)?;
        let Some(departure) = self.departures.pop() else {
            // There is a departure for each client that waits, is queued or holds.
            return Err(ending.refusal());
        };
        let Departure {
            mut outcome,
            frames,
        } = departure;
        if !ending.end_at(alloc, &mut self.node, &mut outcome) {
            // The departure is as before.
            self.departures.push_reserved(Departure { outcome, frames });
            return Err(ending.refusal());
        }
        let kind = ending.kind();
        let event = BookEvent { clock, kind };
        Ok(keep(&mut self.events, &mut self.sent, frames, event, outcome))
    }

    /// Returns the clock that the ending has if the client has the request. It looks that up only if no clock is left,
    /// since `NotHeld` and `NotWaiting` come before `ClockFull`.
    ///
    /// # Errors
    ///
    /// Those of `end`. `NotHeld` and `NotWaiting` come only if no clock is left.
    fn check_ending(&self, ending: &Ending) -> Result<u64, BookError>
        ensures checked { IsChecked self.now (HasNextClock self.now (kind_of ending.now)) result }
        ensures refused { IfErr result (RefusesEnding self.now ending.now) }
    {
        if self.fault.is_some() {
            return Err(BookError::Failed);
        }
        let kind = ending.kind();
        let latest = self.clock();
        match clock_after(latest, &kind) {
            Ok(clock) => Ok(clock),
            Err(_) => check_event(&self.node, latest, &kind),
        }
    }
}

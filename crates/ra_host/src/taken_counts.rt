//! How many frames of each host are in a book.
ghost use Rattle.std.specs.Prelude.{◌≡◌, ◌-◌, [], ℕ, List, Some, slice_get, IfOk, OnOk, OnErr};
ghost use Rattle.ra_stamp.specs.Message.{from_of};
ghost use Rattle.ra_link.specs.Link.{greatest};
ghost use Rattle.ra_book.specs.declared.book.event.BookKind.TheVariants as kinds;
ghost use Rattle.ra_frame.specs.declared.frame.Frame.{Frame};
ghost use Rattle.ra_book.specs.Book.{BookState, with_event};
ghost use Rattle.ra_host.specs.Running.{HasTaken};

use crate::TooMany;
use ra_book::BookKind;
use ra_stamp::Memory;
use std::alloc::Global;

/// How many frames of each host are in a book, as it is read event by event. It keeps nothing else of the book.
#[derive(Drop)]
pub struct TakenCounts {
    /// By the hosts' numbers, from 1.
    counts: Vec<u64>,
}

impl TakenCounts {
    /// Makes the counts of a book without events, of a cluster of this many nodes. The cost is linear in the number of
    /// nodes.
    ///
    /// # Errors
    ///
    /// `Memory`: there is no room for them.
    pub fn new(alloc: Global, nodes: u16) -> Result<TakenCounts, Memory>
        ensures { IfOk result (λ taken. (book : BookState) → book.nodes ≡ nodes → book.events ≡ []
            → HasTaken book taken.counts.items) }
    {
        let mut counts = Vec::with_capacity(alloc, usize::from(nodes))?;
        for _ in 0..nodes {
            counts.push(0)?;
        }
        Ok(TakenCounts { counts })
    }

    /// Counts the next event of the book. It takes constant time.
    ///
    /// # Errors
    ///
    /// `TooMany`: 2^64-1 frames of its host came before. The counts are as before.
    pub fn add(&mut self, kind: &BookKind) -> Result<(), TooMany>
        ensures ok { OnOk result ((book : BookState) (clock : ℕ) (frames : List Frame)
            → HasTaken book self.old.counts.items
            → HasTaken (with_event book clock kind.now frames) self.new.counts.items) }
        ensures too_many { OnErr result ((frame : Frame) × (kind.now ≡ kinds.Receive frame)
            × (slice_get self.old.counts.items (from_of frame.message - 1) ≡ Some greatest)) }
        ensures err { OnErr result (self.new ≡ self.old) }
    {
        let BookKind::Receive(frame) = kind else {
            return Ok(());
        };
        let place = frame.message.from().place();
        if place >= self.counts.len() {
            return Ok(());
        }
        if self.counts[place] == u64::MAX {
            return Err(TooMany);
        }
        self.counts[place] += 1;
        Ok(())
    }

    /// Returns how many frames came from each host, by its number from 1.
    pub fn as_slice(&self) -> &[u64]
        ensures { result.now ≡ self.now.counts.items }
    {
        self.counts.as_slice()
    }
}

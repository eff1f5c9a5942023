//! The frames for another host.
ghost use Rattle.std.specs.Prelude.{◌≡◌, ◌+◌, ◌≤◌, OnOk, OnErr};
ghost use Rattle.std.specs.VecDeque.{deque_len, deque_capacity};
ghost use Rattle.ra_host.specs.Outgoing.{outgoing_of, none_of, adds, drops, frame_at, HasRoom};

use ra_frame::Frame;
use ra_stamp::{Memory, Message};
use std::alloc::Global;
use std::collections::VecDeque;

/// The frames for another host in their order, without the first ones, which it has acknowledged.
#[derive(Drop)]
pub struct Outbox {
    /// How many there are.
    made: u64,
    /// How many of the first are not kept.
    dropped: u64,
    frames: VecDeque<Frame>,
}

impl Outbox {
    /// Makes an outbox before the first frame. Of the frames to come it will not keep the first ones, this many. It
    /// does not allocate.
    pub fn new(alloc: Global, dropped: u64) -> Outbox
        ensures { outgoing_of result ≡ none_of dropped }
    {
        Outbox {
            made: 0,
            dropped,
            frames: VecDeque::new(alloc),
        }
    }

    /// Returns how many frames there are, also those that are not kept.
    pub fn made(&self) -> u64
        ensures { result ≡ self.now.made }
    {
        self.made
    }

    /// Makes room for this many more frames.
    ///
    /// # Errors
    ///
    /// `Memory`: there is none.
    pub fn reserve(&mut self, more: usize) -> Result<(), Memory>
        ensures same { outgoing_of self.new ≡ outgoing_of self.old }
        ensures ok { OnOk result (deque_len self.new.frames + more ≤ deque_capacity self.new.frames) }
    {
        self.frames.reserve(more)?;
        Ok(())
    }

    /// Adds a frame with this clock and message, for which there is room.
    pub fn push(&mut self, clock: u64, message: &Message)
        requires { HasRoom self.old 1 }
        ensures outgoing { outgoing_of self.new ≡ adds (outgoing_of self.old)
            (record { clock = clock; message = message.now }) }
        ensures len { deque_len self.new.frames ≤ deque_len self.old.frames + 1 }
        ensures capacity { deque_capacity self.new.frames ≡ deque_capacity self.old.frames }
    {
        if self.made >= self.dropped {
            let message = *message;
            // The frame is copied through a borrow, since the proof of a copy of the variable is not told of the type
            // of its message.
            let frame = &Frame { clock, message };
            self.frames.push_back_reserved(*frame);
        }
        self.made += 1;
    }

    /// Drops the first frames, so that this many are not kept, unless they are already dropped. The cost is linear in
    /// the number of frames that are dropped now, so it is amortized constant for each frame that is added.
    pub fn drop_first(&mut self, count: u64)
        ensures { outgoing_of self.new ≡ drops (outgoing_of self.old) count }
    {
        while self.dropped < count {
            match self.frames.pop_front() {
                Some(_) => self.dropped += 1,
                None => {
                    self.dropped = count;
                    return;
                }
            }
        }
    }

    /// Returns the frame with this number, counted from 1, or `None` if it is not kept.
    pub fn get(&self, number: u64) -> Option<Frame>
        ensures { result ≡ frame_at (outgoing_of self.now) number }
    {
        if number <= self.dropped {
            return None;
        }
        self.frames
            .get((number - self.dropped - 1) as usize)
            .copied()
    }
}

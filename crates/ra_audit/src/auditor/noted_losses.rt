//! Frames that were noted as lost.
ghost use Rattle.std.specs.Prelude.{◌≡◌, ◌+◌, ◌<◌, ◌^◌, [], ◌++◌, length, slice_get, OnOk, OnErr};
ghost use Rattle.ra_audit.specs.AuditKeeping.{LosesFirst, DefersFirst};

use ra_frame::Frame;
use ra_stamp::{GhostList, Memory};
use std::alloc::Global;
use std::collections::VecDeque;
use std::marker::Model;

/// The frames that were noted as lost: those whose loss is in the run, which are counted and otherwise known to proofs
/// alone, and those whose loss is still to be put into it.
#[derive(Drop)]
pub struct Losses {
    /// Those that are looked at in turn.
    losing: VecDeque<Frame>,
    /// Those that were noted last and are still to be put after these. A list that was handed over is taken as it is,
    /// so that noting it takes no memory.
    noted: Vec<Frame>,
    /// How many losses are in the run.
    count: u64,
    /// The frames whose loss is in the run, for proofs alone.
    lost: GhostList<Frame>,
}

impl Model for Losses {
    ghost use Rattle.ra_audit.specs.AuditKeeping.{LossState, losses_of, IsKeptLosses};

    ghost Value = { LossState };

    ghost view = { losses_of };

    ghost invariant = { IsKeptLosses };
}

impl Losses {
    /// Makes the losses of a run in which nothing was lost. It does not allocate.
    pub fn new(alloc: Global) -> Losses
        ensures { result ≡ record { losing = []; noted = []; lost = [] } }
    {
        Losses {
            losing: VecDeque::new(alloc),
            noted: Vec::new(alloc),
            count: 0,
            lost: GhostList::new(),
        }
    }

    /// Returns how many losses are in the run.
    pub fn lost(&self) -> u64
        ensures { result ≡ length self.now.lost }
    {
        self.count
    }

    /// Returns how many losses are still to be put into the run.
    pub fn losing(&self) -> usize
        ensures { result ≡ length self.now.losing }
    {
        self.losing.len() + self.noted.len()
    }

    /// Returns the first frame whose loss has yet to be put into the run, or `None`.
    pub fn first(&self) -> Option<Frame>
        ensures { result ≡ slice_get self.now.losing 0 }
    {
        first_of(&self.losing, &self.noted)
    }

    /// Notes further frames, after the others whose loss is still to be put into the run.
    ///
    /// # Errors
    ///
    /// `Memory`: there is no room for them, and none is noted.
    pub fn note(&mut self, frames: &[Frame]) -> Result<(), Memory>
        ensures ok { OnOk result (self.new ≡ record self.old {
          losing = self.old.losing ++ frames.now;
          noted = self.old.noted ++ frames.now;
        }) }
        ensures err { OnErr result (self.new ≡ self.old) }
    {
        add(&mut self.noted, frames)
    }

    /// Notes the frames of this list, which takes no memory. [`Losses::take_noted`] comes first.
    pub fn note_list(&mut self, frames: Vec<Frame>)
        requires { self.old.noted ≡ [] }
        ensures { self.new ≡ record self.old { losing = self.old.losing ++ frames.items; noted = frames.items } }
    {
        self.noted = frames;
    }

    /// Puts the frames that were noted last after those that are looked at in turn.
    ///
    /// # Errors
    ///
    /// `Memory`: some were noted, and there is no room for them there. Nothing has changed.
    pub fn take_noted(&mut self) -> Result<(), Memory>
        ensures ok { OnOk result (self.new ≡ record self.old { noted = [] }) }
        ensures err { OnErr result (self.new ≡ self.old) }
        ensures some { OnErr result (0 < length self.new.losing) }
    {
        if self.noted.is_empty() {
            return Ok(());
        }
        move_all(&mut self.noted, &mut self.losing)
    }

    /// The loss of the first frame is in the run now.
    pub fn put(&mut self)
        requires taken { self.old.noted ≡ [] }
        requires some { 0 < length self.old.losing }
        requires room { length self.old.lost + 1 < 2 ^ 64 }
        ensures { LosesFirst self.old self.new }
    {
        let Some(frame) = self.losing.pop_front() else {
            return;
        };
        self.count += 1;
        self.lost = self.lost.and(&frame);
    }

    /// Leaves the loss of the first frame for later, after the others.
    pub fn defer(&mut self)
        requires taken { self.old.noted ≡ [] }
        requires some { 0 < length self.old.losing }
        ensures { DefersFirst self.old self.new }
    {
        self.losing.rotate_left(1);
    }
}

/// Returns the first frame of these two lists, one after the other, or `None` if there is none.
fn first_of(losing: &VecDeque<Frame>, noted: &Vec<Frame>) -> Option<Frame>
    ensures { result ≡ slice_get (losing.now.items ++ noted.now.items) 0 }
{
    match losing.front() {
        Some(frame) => Some(*frame),
        None => noted.first().copied(),
    }
}

/// Puts frames at the end of a list, or, if there is no memory, none.
fn add(noted: &mut Vec<Frame>, frames: &[Frame]) -> Result<(), Memory>
    ensures ok { OnOk result (noted.new.items ≡ noted.old.items ++ frames.now) }
    ensures err { OnErr result (noted.new.items ≡ noted.old.items) }
{
    noted.extend_from_slice(frames)?;
    Ok(())
}

/// Moves all frames of a list to the end of those that are looked at in turn, or, if there is no memory, none.
fn move_all(noted: &mut Vec<Frame>, losing: &mut VecDeque<Frame>) -> Result<(), Memory>
    ensures ok { OnOk result ((losing.new.items ≡ losing.old.items ++ noted.old.items) × (noted.new.items ≡ [])) }
    ensures err { OnErr result ((losing.new.items ≡ losing.old.items) × (noted.new.items ≡ noted.old.items)) }
{
    append(losing, noted)?;
    noted.clear();
    Ok(())
}

/// Puts frames at the end of those that are looked at in turn, or, if there is no memory, none.
fn append(losing: &mut VecDeque<Frame>, frames: &[Frame]) -> Result<(), Memory>
    ensures ok { OnOk result (losing.new.items ≡ losing.old.items ++ frames.now) }
    ensures err { OnErr result (losing.new.items ≡ losing.old.items) }
{
    losing.reserve(frames.len())?;
    for frame in frames {
        losing.push_back_reserved(*frame);
    }
    Ok(())
}

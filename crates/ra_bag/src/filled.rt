//! Which slots of a bag have a message.
ghost use Rattle.std.specs.Prelude.{◌≡◌, ◌≢◌, ◌<◌, ◌≤◌, ◌+◌, ◌*◌, ◌↔◌, ◌∷◌, ◌++◌, [], List, Option, None, map, length, take, slice_index_or, slice_set, OnOk, IsTrue, true, ℕ};
ghost use Rattle.std.specs.Option.{is_some};
ghost use Rattle.ra_stamp.specs.declared.message.Message.{Message};
ghost use Rattle.ra_bag.specs.Filled.{AreCounts, IsShown, KeepsShown, count_of};

use crate::slots::MAX_LINEAR_SCAN;
use ra_stamp::{Memory, Message};
use std::alloc::Global;
use std::collections::VecDeque;

/// If there are no more slots than this, moving messages when one is taken from between them costs less than keeping
/// counts. So taking a message has the slots counted only among more, and closing up keeps the counts only then.
const MANY: usize = 512;

/// How many slots a small block has.
const SMALL: usize = 16;

/// How many slots a block of middle size has.
const MIDDLE: usize = 256;

/// How many slots a large block has.
const LARGE: usize = 4_096;

/// How many blocks of a size are in one of the next size.
const BLOCKS: usize = 16;

/// Which slots of a bag have a message: how many of each block of slots do, so that the message at a place is found by
/// skipping blocks. The slots are counted by a call that may take memory, after a message was taken from between more
/// than `MANY` of them, or looked for among more than `MAX_LINEAR_SCAN`. A bag without counts does the same in more
/// time.
#[derive(Drop)]
pub struct Filled {
    /// How many slots of each small block have a message.
    small: Vec<u64>,
    /// The same for each block of middle size.
    middle: Vec<u64>,
    /// The same for each large block.
    large: Vec<u64>,
    /// How many slots at the start of the blocks are gone.
    gone: usize,
    /// Whether the slots are to be counted.
    wanted: bool,
    /// The place at which a message was found last, or 0 after a slot was added, emptied or gone.
    noted: u64,
    /// The slot of this place, so that it is not looked for again when the message is taken.
    noted_slot: usize,
}

impl Filled {
    /// Makes the counts of no slots. It does not allocate.
    pub fn new(alloc: Global) -> Filled
        ensures { result.small.items ≡ [] }
    {
        Filled {
            small: Vec::new(alloc),
            middle: Vec::new(alloc),
            large: Vec::new(alloc),
            gone: 0,
            wanted: false,
            noted: 0,
            noted_slot: 0,
        }
    }

    /// Returns whether any counts are kept. If so, each slot is counted.
    #[inline(always)]
    pub fn is_kept(&self) -> bool
        ensures { IsTrue result ↔ (length self.now.small.items ≢ 0) }
    {
        !self.small.is_empty()
    }

    /// Notes that a message was looked for among this many slots. Unless they are few, they are to be counted, so that
    /// what is learned of the slots lasts when a message is taken from between others.
    pub fn want(&mut self, slots: usize)
        ensures { (of : List (Option Message)) → KeepsShown self.old of → KeepsShown self.new of }
    {
        if slots > MAX_LINEAR_SCAN && !self.is_kept() {
            self.wanted = true;
        }
    }

    /// Notes that a message was taken from between others, among this many slots. If they are many, they are to be
    /// counted.
    pub fn want_among_many(&mut self, slots: usize)
        ensures { (of : List (Option Message)) → KeepsShown self.old of → KeepsShown self.new of }
    {
        if slots > MANY {
            self.want(slots);
        }
    }

    /// Counts the slots if they are to be counted, or if most of those that were counted are gone, unless memory runs
    /// out. The cost is then linear in the slots.
    #[inline(always)]
    pub fn learn_if_wanted(&mut self, slots: &VecDeque<Option<Message>>)
        requires { KeepsShown self.old slots.now.items }
        ensures { KeepsShown self.new slots.now.items }
    {
        if self.wanted || self.is_kept() && self.gone / 2 > slots.len() {
            self.learn(slots);
        }
    }

    /// Counts the slots anew if counts are kept and the slots are many, for no more slots than before. Otherwise no
    /// counts are kept from now on. It does not allocate, since the lists of counts keep their memory. The cost is
    /// linear in the slots.
    pub fn learn_anew(&mut self, slots: &VecDeque<Option<Message>>)
        ensures { KeepsShown self.new slots.now.items }
    {
        if self.is_kept() && slots.len() > MANY {
            self.learn(slots);
        } else {
            self.forget();
        }
    }

    /// Counts the slots, unless memory runs out. The cost is linear in the slots.
    fn learn(&mut self, slots: &VecDeque<Option<Message>>)
        ensures { KeepsShown self.new slots.now.items }
    {
        self.wanted = false;
        self.forget();
        if self.learn_all(slots).is_err() {
            self.forget();
        }
    }

    /// Counts the slots when none is counted yet.
    ///
    /// # Errors
    ///
    /// `Memory`: some slots are not counted.
    fn learn_all(&mut self, slots: &VecDeque<Option<Message>>) -> Result<(), Memory>
        requires small { self.old.small.items ≡ [] }
        requires middle { self.old.middle.items ≡ [] }
        requires large { self.old.large.items ≡ [] }
        requires gone { self.old.gone ≡ 0 }
        requires noted { (self.old.noted ≡ 0) × (self.old.noted_slot ≡ 0) }
        ensures { OnOk result (IsShown self.new slots.now.items) }
    {
        for slot in 0..slots.len() {
            self.add(slot, &slots[slot])?;
        }
        Ok(())
    }

    /// Counts new slots, which have these messages and come after this many others, if counts are kept.
    #[inline(always)]
    pub fn follow(&mut self, slot: usize, messages: &[Message])
        ensures { (slots : List (Option Message)) → length slots ≡ slot → KeepsShown self.old slots
            → KeepsShown self.new (slots ++ map Some messages.now) }
    {
        if self.is_kept() && self.add_all(slot, messages).is_err() {
            self.forget();
            self.wanted = true;
        }
    }

    /// Counts new slots, which have these messages and come after this many others.
    ///
    /// # Errors
    ///
    /// `Memory`: some slots are not counted. It is also returned if the numbers run out.
    fn add_all(&mut self, slot: usize, messages: &[Message]) -> Result<(), Memory>
        ensures { OnOk result ((slots : List (Option Message)) → length slots ≡ slot → IsShown self.old slots
            → IsShown self.new (slots ++ map Some messages.now)) }
    {
        let mut next = slot;
        for message in messages {
            self.add(next, &Some(*message))?;
            let Some(after) = next.checked_add(1) else {
                return Err(Memory);
            };
            next = after;
        }
        Ok(())
    }

    /// Counts the next slot, after this many others.
    ///
    /// # Errors
    ///
    /// `Memory`: the slot is not counted. It is also returned if the numbers run out.
    fn add(&mut self, slot: usize, kept: &Option<Message>) -> Result<(), Memory>
        ensures { OnOk result ((slots : List (Option Message)) → length slots ≡ slot
            → IsShown self.old slots → IsShown self.new (slots ++ kept.now ∷ [])) }
    {
        let Some(at) = self.gone.checked_add(slot) else {
            return Err(Memory);
        };
        self.noted = 0;
        self.noted_slot = 0;
        let count = u64::from(kept.is_some());
        add_at(&mut self.small, at / SMALL, count)?;
        add_at(&mut self.middle, at / MIDDLE, count)?;
        add_at(&mut self.large, at / LARGE, count)?;
        Ok(())
    }

    /// Notes that the message in this slot is taken.
    #[inline(always)]
    pub fn unset(&mut self, slot: usize)
        ensures { (slots : List (Option Message)) → slot < length slots
            → is_some (slice_index_or slots slot None) ≡ true
            → KeepsShown self.old slots → KeepsShown self.new (slice_set slots slot None) }
    {
        let Some(at) = self.gone.checked_add(slot) else {
            self.forget();
            return;
        };
        self.noted = 0;
        self.noted_slot = 0;
        take_one(&mut self.small, at / SMALL);
        take_one(&mut self.middle, at / MIDDLE);
        take_one(&mut self.large, at / LARGE);
    }

    /// Notes that the first slot, which has no message, is gone.
    #[inline(always)]
    pub fn drop_first(&mut self)
        ensures { (slots : List (Option Message)) → KeepsShown self.old (None ∷ slots) → KeepsShown self.new slots }
    {
        match self.gone.checked_add(1) {
            Some(gone) => {
                self.gone = gone;
                self.noted = 0;
                self.noted_slot = 0;
            }
            None => self.forget(),
        }
    }

    /// Notes the slot of a place, until a slot is added, emptied or gone.
    #[inline(always)]
    pub fn note(&mut self, place: u64, slot: usize)
        ensures { self.new ≡ record self.old { noted = place; noted_slot = slot } }
    {
        self.noted = place;
        self.noted_slot = slot;
    }

    /// Forgets all counts.
    pub fn forget(&mut self)
        ensures small { self.new.small.items ≡ [] }
        ensures middle { self.new.middle.items ≡ [] }
        ensures large { self.new.large.items ≡ [] }
        ensures gone { self.new.gone ≡ 0 }
        ensures noted { (self.new.noted ≡ 0) × (self.new.noted_slot ≡ 0) }
    {
        self.noted = 0;
        self.noted_slot = 0;
        self.small.truncate(0);
        self.middle.truncate(0);
        self.large.truncate(0);
        self.gone = 0;
    }

    /// Returns a slot that is not after the message at this place, and how many messages are from there up to that one.
    /// If there is such a message and counts are kept, less than a small block of slots is between. The cost is linear
    /// in the large blocks.
    #[inline(always)]
    pub fn skip(&self, place: u64) -> (usize, u64)
        ensures { (slots : List (Option Message)) → KeepsShown self.now slots
            → result.1 + count_of (take result.0 slots) ≡ place }
    {
        if !self.is_kept() {
            return (0, place);
        }
        if place == self.noted {
            return (self.noted_slot, 0);
        }
        let (large, left) = skip_in(&self.large, 0, place);
        let Some(first) = large.checked_mul(BLOCKS) else {
            return (0, place);
        };
        let (middle, left) = skip_in(&self.middle, first, left);
        let Some(first) = middle.checked_mul(BLOCKS) else {
            return (0, place);
        };
        let (small, left) = skip_in(&self.small, first, left);
        let Some(at) = small.checked_mul(SMALL) else {
            return (0, place);
        };
        (at.saturating_sub(self.gone), left)
    }
}

/// Adds to the count at this place, or puts a count there, after all others.
///
/// # Errors
///
/// `Memory`: the count is not there. It is also returned if the numbers run out.
#[inline(always)]
fn add_at(counts: &mut Vec<u64>, place: usize, more: u64) -> Result<(), Memory>
    ensures there { place < length counts.old.items → OnOk result (counts.new.items
        ≡ slice_set counts.old.items place (slice_index_or counts.old.items place 0 + more)) }
    ensures after { length counts.old.items ≤ place → OnOk result (counts.new.items
        ≡ counts.old.items ++ more ∷ []) }
{
    if let Some(count) = counts.get_mut(place) {
        let Some(sum) = count.checked_add(more) else {
            return Err(Memory);
        };
        *count = sum;
        return Ok(());
    }
    counts.push(more)?;
    Ok(())
}

/// Takes one from the count at this place, if there is one.
#[inline(always)]
fn take_one(counts: &mut Vec<u64>, place: usize)
    ensures len { length counts.new.items ≡ length counts.old.items }
    ensures less { (less : ℕ) → place < length counts.old.items → slice_index_or counts.old.items place 0 ≡ less + 1
        → counts.new.items ≡ slice_set counts.old.items place less }
{
    if let Some(count) = counts.get_mut(place) {
        *count = count.saturating_sub(1);
    }
}

/// Skips the blocks from this one on that are before the message at a place. Before the first of them there are all
/// but `more` of the messages before that one. Returns the block after those that are skipped, and what is left of
/// `more`.
#[inline(always)]
fn skip_in(counts: &Vec<u64>, first: usize, more: u64) -> (usize, u64)
    ensures { (size place : ℕ) (slots : List (Option Message)) → AreCounts size counts.now.items slots
        → more + count_of (take (size * first) slots) ≡ place
        → result.1 + count_of (take (size * result.0) slots) ≡ place }
{
    let mut next = first;
    let mut left = more;
    for block in first..counts.len() {
        let count = counts[block];
        if left < count {
            return (block, left);
        }
        left -= count;
        next = block + 1;
    }
    (next, left)
}

//! In which slots each message is.
ghost use Rattle.std.specs.Prelude.{◌≡◌, ◌≢◌, ◌+◌, ◌↔◌, ◌++◌, ◌∷◌, [], List, Option, Some, None, map, length, slice_get, slice_set, Contains, IsSome, IsNone, IfSome, OnOk, IsTrue, false, option_to_list, ℕ};
ghost use Rattle.std.specs.Map.{lookup};
ghost use Rattle.std.specs.VecDeque.{deque_items};
ghost use Rattle.ra_stamp.specs.declared.message.Message.{Message};
ghost use Rattle.ra_bag.specs.Bag.{StandsIn, messages_in};
ghost use Rattle.ra_bag.specs.Places.{IsFirstSlot, IsTold, Tells, Learns, Unlearns, later_numbers};

use crate::slots::MAX_LINEAR_SCAN;
use indexmap::IndexMap;
use ra_stamp::{Memory, Message};
use std::alloc::Global;
use std::collections::VecDeque;
use std::mem::replace;

/// The slots of the messages in a bag, to find the first slot that has a message without looking at all of them.
/// Looking for a message takes no memory, so the slots are learned by the next call that may take it, after a message
/// was looked for among many. A bag that does not know the slots, or had no memory to learn them, does the same in more
/// time.
#[derive(Drop)]
pub struct Places {
    /// Each message with the number of the first slot that has it.
    numbers: IndexMap<Message, u64>,
    /// Each message that several slots have, with the numbers of all but the first of them, in order.
    later: IndexMap<Message, VecDeque<u64>>,
    /// The number of the first slot.
    first: u64,
    /// Whether a message was looked for among many while no slots were known.
    wanted: bool,
    /// The place in `numbers` of the message that was found last, so that it is taken without being hashed again. No
    /// clause relies on it.
    sought: usize,
}

impl Places {
    /// Makes the places of no messages. It does not allocate.
    pub fn new(alloc: Global) -> Places
        ensures { result.numbers.entries ≡ [] }
    {
        Places {
            numbers: IndexMap::new(alloc),
            later: IndexMap::new(alloc),
            first: 0,
            wanted: false,
            sought: 0,
        }
    }

    /// Returns whether any places are known. If so, they tell the slots of each message.
    #[inline(always)]
    pub fn are_known(&self) -> bool
        ensures { IsTrue result ↔ (length self.now.numbers.entries ≢ 0) }
    {
        !self.numbers.is_empty()
    }

    /// Returns the first slot that has a message and its place in `numbers`, or `None` if no slot has it. The slots
    /// of each message are known. It does not allocate.
    pub fn tell(&self, message: &Message) -> Option<(usize, usize)>
        requires { length self.now.numbers.entries ≢ 0 }
        ensures some { (slots : List (Option Message)) → IsTold ⟦<Message as PartialEq>⟧.eq self.now slots
            → IsSome result ↔ Contains (messages_in slots) message.now }
        ensures first { (slots : List (Option Message)) → IsTold ⟦<Message as PartialEq>⟧.eq self.now slots
            → IfSome result (λ told. IsFirstSlot slots message.now told.0) }
    {
        let (entry, _, number) = self.numbers.get_full(message)?;
        let slot = number.checked_sub(self.first)?;
        Some((slot as usize, entry))
    }

    /// Returns the first slot that has a message, or `None` if no slot has it, as `tell` does, and notes where the
    /// message was found.
    pub fn find(&mut self, message: &Message) -> Option<usize>
        requires { length self.old.numbers.entries ≢ 0 }
        ensures told { (slots : List (Option Message)) → IsTold ⟦<Message as PartialEq>⟧.eq self.old slots
            → IsTold ⟦<Message as PartialEq>⟧.eq self.new slots }
        ensures some { (slots : List (Option Message)) → IsTold ⟦<Message as PartialEq>⟧.eq self.old slots
            → IsSome result ↔ Contains (messages_in slots) message.now }
        ensures first { (slots : List (Option Message)) → IsTold ⟦<Message as PartialEq>⟧.eq self.old slots
            → IfSome result (IsFirstSlot slots message.now) }
    {
        let (slot, entry) = self.tell(message)?;
        self.sought = entry;
        Some(slot)
    }

    /// Notes that a message was looked for among this many slots. If they are many, the slots of each message are to be
    /// learned.
    pub fn want(&mut self, slots: usize)
        ensures { (of : List (Option Message)) → IsTold ⟦<Message as PartialEq>⟧.eq self.old of
            → IsTold ⟦<Message as PartialEq>⟧.eq self.new of }
    {
        if slots > MAX_LINEAR_SCAN {
            self.wanted = true;
        }
    }

    /// Learns the slots of each message if they are to be learned, unless memory runs out. The cost is then linear in
    /// the slots.
    #[inline(always)]
    pub fn learn_if_wanted(&mut self, slots: &VecDeque<Option<Message>>)
        requires { IsTold ⟦<Message as PartialEq>⟧.eq self.old slots.now.items }
        ensures { IsTold ⟦<Message as PartialEq>⟧.eq self.new slots.now.items }
    {
        if self.wanted {
            self.learn(slots);
        }
    }

    /// Learns the slots of each message.
    fn learn(&mut self, slots: &VecDeque<Option<Message>>)
        ensures { IsTold ⟦<Message as PartialEq>⟧.eq self.new slots.now.items }
    {
        self.wanted = false;
        self.forget();
        if self.learn_all(slots).is_err() {
            self.forget();
        }
    }

    /// Learns the slots of each message when none are known yet.
    ///
    /// # Errors
    ///
    /// `Memory`: some slots are not known.
    fn learn_all(&mut self, slots: &VecDeque<Option<Message>>) -> Result<(), Memory>
        requires numbers { self.old.numbers.entries ≡ [] }
        requires later { self.old.later.entries ≡ [] }
        requires first { self.old.first ≡ 0 }
        ensures { OnOk result (Tells ⟦<Message as PartialEq>⟧.eq self.new slots.now.items) }
    {
        for slot in 0..slots.len() {
            if let Some(message) = slots[slot] {
                self.add(slot as u64, &message)?;
            }
        }
        Ok(())
    }

    /// Learns the slots of these messages, which are put after this many slots, if the slots of the others are known.
    #[inline(always)]
    pub fn follow(&mut self, slot: usize, messages: &[Message])
        ensures { (slots : List (Option Message)) → length slots ≡ slot
            → IsTold ⟦<Message as PartialEq>⟧.eq self.old slots
            → IsTold ⟦<Message as PartialEq>⟧.eq self.new (slots ++ map Some messages.now) }
    {
        if self.are_known() && self.add_all(slot, messages).is_err() {
            self.forget();
        }
    }

    /// Adds the slots of these messages, which are put after this many slots.
    ///
    /// # Errors
    ///
    /// `Memory`: some slots are not known. It is also returned if the numbers run out.
    fn add_all(&mut self, slot: usize, messages: &[Message]) -> Result<(), Memory>
        ensures { OnOk result ((slots : List (Option Message)) → length slots ≡ slot
            → Tells ⟦<Message as PartialEq>⟧.eq self.old slots
            → Tells ⟦<Message as PartialEq>⟧.eq self.new (slots ++ map Some messages.now)) }
    {
        let Some(mut number) = self.first.checked_add(slot as u64) else {
            return Err(Memory);
        };
        for message in messages {
            self.add(number, message)?;
            let Some(next) = number.checked_add(1) else {
                return Err(Memory);
            };
            number = next;
        }
        Ok(())
    }

    /// Adds the number of a slot that has a message, after the others that have it.
    ///
    /// # Errors
    ///
    /// `Memory`: some slots are not known.
    fn add(&mut self, number: u64, message: &Message) -> Result<(), Memory>
        ensures { OnOk result (Learns ⟦<Message as PartialEq>⟧.eq self.old message.now number self.new) }
    {
        // Few messages have a number yet, and a look-up before would hash each of the others twice.
        if let Some(first) = self.numbers.insert(*message, number)? {
            self.numbers.insert(*message, first)?;
            add_later(&mut self.later, number, message)?;
        }
        Ok(())
    }

    /// Forgets that this slot has this message, which is taken.
    #[inline(always)]
    pub fn take(&mut self, slot: usize, message: &Message)
        ensures { (slots : List (Option Message)) → StandsIn slots message.now slot
            → IsTold ⟦<Message as PartialEq>⟧.eq self.old slots
            → IsTold ⟦<Message as PartialEq>⟧.eq self.new (slice_set slots slot None) }
    {
        if self.are_known() && !self.is_taken(slot, message) {
            self.forget();
        }
    }

    /// Forgets the first slot of a message, and returns whether that was this one and the others are still known.
    fn is_taken(&mut self, slot: usize, message: &Message) -> bool
        ensures { IsTrue result → (slots : List (Option Message)) → StandsIn slots message.now slot
            → Tells ⟦<Message as PartialEq>⟧.eq self.old slots
            → Tells ⟦<Message as PartialEq>⟧.eq self.new (slice_set slots slot None) }
    {
        match self.remove(message) {
            Some(number) => number.checked_sub(self.first) == Some(slot as u64),
            None => false,
        }
    }

    /// Removes the first number of a message and returns it, or `None` if it has no number. It does not allocate.
    fn remove(&mut self, message: &Message) -> Option<u64>
        ensures { IfSome result (λ number.
            Unlearns ⟦<Message as PartialEq>⟧.eq self.old message.now number self.new) }
    {
        match take_later(&mut self.later, message) {
            Some(next) => Some(replace(self.numbers.get_mut(message)?, next)),
            None => take_number(&mut self.numbers, self.sought, message),
        }
    }

    /// Notes that the first slot, which has no message, is gone.
    #[inline(always)]
    pub fn shift(&mut self)
        ensures { (slots : List (Option Message)) → IsTold ⟦<Message as PartialEq>⟧.eq self.old (None ∷ slots)
            → IsTold ⟦<Message as PartialEq>⟧.eq self.new slots }
    {
        match self.first.checked_add(1) {
            Some(first) => self.first = first,
            None => self.forget(),
        }
    }

    /// Forgets all places.
    pub fn forget(&mut self)
        ensures numbers { self.new.numbers.entries ≡ [] }
        ensures later { self.new.later.entries ≡ [] }
        ensures first { self.new.first ≡ 0 }
    {
        // `clear` would take time linear in the largest number of places ever kept.
        self.numbers.truncate(0);
        self.later.truncate(0);
        self.first = 0;
    }
}

/// Takes the number of a message, or returns `None` if it has none. The message is looked up only if it is not in this
/// entry. It does not allocate.
fn take_number(numbers: &mut IndexMap<Message, u64>, entry: usize, message: &Message) -> Option<u64>
    ensures taken { result ≡ lookup (⟦<Message as PartialEq>⟧.eq message.now) numbers.old.entries }
    ensures gone { lookup (⟦<Message as PartialEq>⟧.eq message.now) numbers.new.entries ≡ None }
    ensures others { (other : Message) → ⟦<Message as PartialEq>⟧.eq message.now other ≡ false
        → lookup (⟦<Message as PartialEq>⟧.eq other) numbers.new.entries
        ≡ lookup (⟦<Message as PartialEq>⟧.eq other) numbers.old.entries }
{
    match number_in(numbers, entry, message) {
        Some(number) => {
            numbers.swap_remove_index(entry);
            Some(number)
        }
        None => numbers.swap_remove(message),
    }
}

/// Returns the number in an entry, or `None` if it is not the entry of this message.
#[inline(always)]
#[tactic(auto, using(ra_stamp::proofs::StampLaws::same_messages))]
fn number_in(numbers: &IndexMap<Message, u64>, entry: usize, message: &Message) -> Option<u64>
    ensures at { IfSome result (λ number. slice_get numbers.now.entries entry ≡ Some (message.now, number)) }
    ensures found { IfSome result
        (λ number. lookup (⟦<Message as PartialEq>⟧.eq message.now) numbers.now.entries ≡ Some number) }
{
    let (kept, number) = numbers.get_index(entry)?;
    if *kept == *message {
        return Some(*number);
    }
    None
}

/// Adds a number to a message, after its later ones.
///
/// # Errors
///
/// `Memory`: its later numbers may be gone.
fn add_later(
    later: &mut IndexMap<Message, VecDeque<u64>>,
    number: u64,
    message: &Message,
) -> Result<(), Memory>
    ensures added { OnOk result (IfSome (lookup (⟦<Message as PartialEq>⟧.eq message.now) later.new.entries) (λ queue.
        queue.items ≡ later_numbers deque_items (lookup (⟦<Message as PartialEq>⟧.eq message.now) later.old.entries) ++ number ∷ [])) }
    ensures some { OnOk result (lookup (⟦<Message as PartialEq>⟧.eq message.now) later.new.entries ≢ None) }
    ensures others { OnOk result ((other : Message) → ⟦<Message as PartialEq>⟧.eq message.now other ≡ false
        → lookup (⟦<Message as PartialEq>⟧.eq other) later.new.entries
        ≡ lookup (⟦<Message as PartialEq>⟧.eq other) later.old.entries) }
{
    let mut queue = match later.swap_remove(message) {
        Some(queue) => queue,
        None => VecDeque::new(*later.allocator()),
    };
    queue.push_back(number)?;
    later.insert(*message, queue)?;
    Ok(())
}

/// Takes the first of the later numbers of a message, if there is one. It does not allocate.
fn take_later(later: &mut IndexMap<Message, VecDeque<u64>>, message: &Message) -> Option<u64>
    ensures taken { later_numbers deque_items (lookup (⟦<Message as PartialEq>⟧.eq message.now) later.old.entries)
        ≡ option_to_list result ++ later_numbers deque_items (lookup (⟦<Message as PartialEq>⟧.eq message.now) later.new.entries) }
    ensures none { IsNone result → lookup (⟦<Message as PartialEq>⟧.eq message.now) later.new.entries ≡ None }
    ensures others { (other : Message) → ⟦<Message as PartialEq>⟧.eq message.now other ≡ false
        → lookup (⟦<Message as PartialEq>⟧.eq other) later.new.entries
        ≡ lookup (⟦<Message as PartialEq>⟧.eq other) later.old.entries }
{
    // If no message is in two slots, none has to be hashed.
    if later.is_empty() {
        return None;
    }
    let queue = later.get_mut(message)?;
    let next = queue.pop_front();
    let is_last = queue.is_empty();
    if is_last {
        later.swap_remove(message);
    }
    next
}

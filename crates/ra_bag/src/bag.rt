ghost use Rattle.std.specs.Prelude.{◌≡◌, ◌≢◌, ◌+◌, ◌*◌, ◌≤◌, ◌↔◌, [], ◌∷◌, ◌++◌, take, drop, suc, length, slice_get, Contains, IsNone, IsSome, IsOk, IfOk, IfSome, OnOk, OnErr, IsTrue, IsFalse, ℕ};
ghost use Rattle.ra_stamp.specs.declared.message.Message.{Message};
ghost use Rattle.ra_bag.specs.Bag.{TakesFirst, TakesOne, TakesAt, StandsIn, IsSlotAt, messages_in, HasEmpty, FewEmpty};
ghost use Rattle.ra_bag.specs.declared.found.Found.{Found};
ghost use Rattle.ra_bag.specs.Filled.{KeepsShown};
ghost use Rattle.ra_bag.specs.Places.{IsFirstSlot, IsTold};
ghost use Rattle.ra_bag.specs.Removing.{AreKept, AreLeft};

use crate::filled::Filled;
use crate::found::Found;
use crate::places::Places;
use crate::slots::{
    append, at, clear, close_up, contains, has, is_last, make_room, nth, slot_of, starts_empty,
    take_first, take_last, take_out,
};
use ra_stamp::{Memory, Message, Messages};
use std::alloc::Global;
use std::collections::VecDeque;
use std::marker::Model;

/// The messages under way, in the order in which they were sent; some may be equal. Contracts see them and the spare,
/// which is the number of further messages that there is already room for.
#[derive(Drop)]
pub struct Bag {
    /// The messages, with an empty slot for each one that was taken from between others since the slots were closed up.
    slots: VecDeque<Option<Message>>,
    /// How many slots are empty: at most three times as many as have a message, so that going through all slots is
    /// linear in the messages.
    empty: u64,
    /// In which slots the messages are, to find them.
    places: Places,
    /// Which slots have a message, to find the one at a place.
    filled: Filled,
    /// The slot before that of the last message that was taken after it was found. The next one is looked for here.
    /// No clause relies on it.
    beside: usize,
}

impl Model for Bag {
    ghost use Rattle.std.specs.Prelude.{◌-◌};
    ghost use Rattle.std.specs.VecDeque.{deque_len, deque_capacity};
    ghost use Rattle.ra_stamp.specs.declared.message.Message.{Message};
    ghost use Rattle.ra_stamp.specs.Sequence.{Listed};
    ghost use Rattle.ra_bag.specs.Bag.{messages_in, HasEmpty, FewEmpty};
    ghost use Rattle.ra_bag.specs.Filled.{KeepsShown};
    ghost use Rattle.ra_bag.specs.Places.{IsTold};

    ghost Value = { Listed Message };

    ghost view = { λ b.
        record { items = messages_in b.slots.items; spare = deque_capacity b.slots - deque_len b.slots } };

    ghost invariant = { λ b. HasEmpty b.slots.items b.empty × FewEmpty b.slots.items b.empty
        × IsTold ⟦<Message as PartialEq>⟧.eq b.places b.slots.items × KeepsShown b.filled b.slots.items };
}

impl Bag {
    /// Makes the bag with nothing under way. It allocates from `alloc` as it grows.
    ///
    /// # Errors
    ///
    /// `Memory`: no bag was made. The call takes no memory yet; callers need not change when it does.
    pub fn new(alloc: Global) -> Result<Bag, Memory>
        ensures empty { IfOk result (λ bag. bag.items ≡ []) }
    {
        Ok(Bag {
            slots: VecDeque::new(alloc),
            empty: 0,
            places: Places::new(alloc),
            filled: Filled::new(alloc),
            beside: 0,
        })
    }

    /// Returns how many messages are under way. It does not allocate.
    pub fn len(&self) -> u64
        ensures { result ≡ length self.now.items }
    {
        self.slots.len() as u64 - self.empty
    }

    /// Returns the message at this place, counted from 0, or `None` past the end. It does not allocate. The cost is
    /// constant if no slot is empty. Otherwise it looks at a count for each 4,096 slots that there were since they were
    /// counted, and at most at 48 counts and slots more. Only if there was no memory for the counts, it looks at each
    /// slot up to this one.
    pub fn at(&self, place: u64) -> Option<Message>
        ensures { result ≡ slice_get self.now.items place }
    {
        at(
            &self.slots,
            slot_at(&self.slots, self.empty, &self.filled, place),
        )
    }

    /// Returns whether a message that is equal to this one is under way. It does not allocate. The cost is constant on
    /// average if the bag knows in which slot each message is, as `take` explains; otherwise it is linear in the number
    /// of messages.
    pub fn contains(&self, message: &Message) -> bool
        ensures { IsTrue result ↔ Contains self.now.items message.now }
    {
        if self.places.are_known() {
            return self.places.tell(message).is_some();
        }
        contains(&self.slots, message)
    }

    /// Returns where a message that is equal to this one is, for `take_from`, or `None` if no such message is under
    /// way. It does not allocate.
    ///
    /// The message at the place `near` is looked at first, at the cost of `at`, and then in constant time the one sent
    /// before that which `take_from` took last, and the one sent last. If these are others, it is looked for at the
    /// cost of `take`. No clause says which of several equal messages is found in a slot.
    #[inline(always)]
    pub fn find(&mut self, message: &Message, near: u64) -> Option<Found>
        ensures same { self.new ≡ self.old }
        ensures found { IsSome result ↔ Contains self.old.items message.now }
        ensures near { slice_get self.old.items near ≡ Some message.now → result ≡ Some (Found.At near) }
        ensures at { IfSome result (λ found. (place : ℕ) → found ≡ Found.At place
            → slice_get self.old.items place ≡ Some message.now) }
    {
        let at_near = slot_at(&self.slots, self.empty, &self.filled, near);
        if has(&self.slots, at_near, message) {
            // `take_from` looks for it again.
            self.filled.note(near, at_near);
            return Some(Found::At(near));
        }
        let slot = slot_with(
            &self.slots,
            &mut self.places,
            &mut self.filled,
            self.beside,
            message,
        )?;
        Some(Found::In(slot as u64))
    }

    /// Makes room for this many more messages, in time linear in the number of messages. Whatever the result, the
    /// messages stay and the spare does not shrink. A refusal may leave it larger, so that a bag may come to keep more
    /// than one list. If a message was looked for among many, the bag learns in which slot each is, if there is memory
    /// for that.
    ///
    /// # Errors
    ///
    /// `Memory`: that room cannot be made.
    pub fn reserve(&mut self, more: u64) -> Result<(), Memory>
        ensures same { self.new.items ≡ self.old.items }
        ensures ok { OnOk result (more ≤ self.new.spare) }
        ensures grows { self.old.spare ≤ self.new.spare }
    {
        self.slots.reserve(more as usize)?;
        self.places.learn_if_wanted(&self.slots);
        self.filled.learn_if_wanted(&self.slots);
        Ok(())
    }

    /// Puts messages under way, in order, after all others, in amortized time linear in the number of these messages.
    /// It cannot fail if there is room for them. If a message was looked for among many, the bag learns in which slot
    /// each is, if there is memory for that, in time linear in the number of all messages.
    ///
    /// # Errors
    ///
    /// `Memory`: the bag is as before, with its spare.
    pub fn put_all(&mut self, messages: &Messages) -> Result<(), Memory>
        ensures ok { OnOk result (self.new.items ≡ self.old.items ++ messages.now.items) }
        ensures err { OnErr result (self.new ≡ self.old) }
        ensures succeeds { length messages.now.items ≤ self.old.spare → IsOk result }
        ensures spare { length messages.now.items ≤ self.old.spare
            → self.new.spare + length messages.now.items ≡ self.old.spare }
    {
        self.put(messages.as_slice())
    }

    /// If a message that is equal to this one is under way, puts one more after all others and returns true; otherwise
    /// leaves the bag unchanged and returns false. The cost is that of `find`, plus amortized constant time. It cannot
    /// fail if there is room.
    ///
    /// # Errors
    ///
    /// `Memory`: the bag is as before, with its spare. It is not returned if no equal message is under way.
    pub fn again(&mut self, message: &Message) -> Result<bool, Memory>
        ensures told { IfOk result (λ again. IsTrue again ↔ Contains self.old.items message.now) }
        ensures copied { IfOk result (λ again. IsTrue again
            → self.new.items ≡ self.old.items ++ message.now ∷ []) }
        ensures left { IfOk result (λ again. IsFalse again → self.new ≡ self.old) }
        ensures err { OnErr result (self.new ≡ self.old) }
        ensures there { OnErr result (Contains self.old.items message.now) }
        ensures succeeds { 1 ≤ self.old.spare → IsOk result }
        ensures spare { IfOk result (λ again. IsTrue again → 1 ≤ self.old.spare
            → self.new.spare + 1 ≡ self.old.spare) }
    {
        if self.find(message, 0).is_none() {
            return Ok(false);
        }
        self.put(&[*message])?;
        Ok(true)
    }

    /// Puts messages under way as `put_all` does. A caller that has no list of them need not make one.
    ///
    /// # Errors
    ///
    /// `Memory`: the bag is as before, with its spare.
    pub fn put(&mut self, messages: &[Message]) -> Result<(), Memory>
        ensures ok { OnOk result (self.new.items ≡ self.old.items ++ messages.now) }
        ensures err { OnErr result (self.new ≡ self.old) }
        ensures succeeds { length messages.now ≤ self.old.spare → IsOk result }
        ensures spare { length messages.now ≤ self.old.spare
            → self.new.spare + length messages.now ≡ self.old.spare }
    {
        make_room(&mut self.slots, messages.len())?;
        self.places.learn_if_wanted(&self.slots);
        self.filled.learn_if_wanted(&self.slots);
        self.places.follow(self.slots.len(), messages);
        self.filled.follow(self.slots.len(), messages);
        append(&mut self.slots, messages);
        Ok(())
    }

    /// Takes the first message that is equal to this one. If no such message is under way, it leaves the bag unchanged
    /// and returns `None`. It does not allocate.
    ///
    /// The cost is constant if it is the oldest of all. Otherwise it is amortized constant on average if the bag knows
    /// in which slot each message is, even if several are equal or no such message is under way. If the bag does not
    /// know, the cost is linear in the number of messages. After a message was looked for among more than 64, the next
    /// `reserve`, `put_all`, `put` or `again` learns in which slot each is.
    pub fn take(&mut self, message: &Message) -> Option<Message>
        ensures taken { IfSome result (λ taken. (taken ≡ message.now)
            × TakesFirst self.old.items message.now self.new.items) }
        ensures none { IsNone result ↔ ¬ Contains self.old.items message.now }
        ensures left { IsNone result → self.new ≡ self.old }
        ensures spare { self.old.spare ≤ self.new.spare }
    {
        let first = first_of(&self.slots, &mut self.places, &mut self.filled, message)?;
        remove(
            &mut self.slots,
            &mut self.empty,
            &mut self.places,
            &mut self.filled,
            first,
            message,
        );
        Some(*message)
    }

    /// Takes a message that is equal to this one. If it was found at a place, that is the message at this place, if it
    /// is equal, and otherwise the first equal one. If it was found in a slot, it may be any equal one. It does not
    /// allocate.
    ///
    /// If the message is where it was found, the cost is that of `at` for a place, plus that of removing it. Removing
    /// takes amortized constant time if the message is at an end, or if the bag counts its slots. It counts them after a
    /// message was taken from between at least 512 others, or looked for among more than 64. Otherwise removing takes
    /// time linear in the distance from the nearer end. If the message is not the first of equal ones, the bag has to
    /// learn anew in which slot each message is. If it is not there, the cost is that of `take`.
    #[inline(always)]
    pub fn take_from(&mut self, found: Found, message: &Message)
        requires { Contains self.old.items message.now }
        ensures taken { TakesOne self.old.items message.now self.new.items }
        ensures at { (place : ℕ) → found ≡ Found.At place → slice_get self.old.items place ≡ Some message.now
            → TakesAt self.old.items place self.new.items }
        ensures otherwise { (place : ℕ) → found ≡ Found.At place → slice_get self.old.items place ≢ Some message.now
            → TakesFirst self.old.items message.now self.new.items }
        ensures spare { self.old.spare ≤ self.new.spare }
    {
        let slot = slot_found(&self.slots, self.empty, &self.filled, found);
        if has(&self.slots, slot, message) {
            remove(
                &mut self.slots,
                &mut self.empty,
                &mut self.places,
                &mut self.filled,
                slot,
                message,
            );
            self.beside = slot.wrapping_sub(1);
        } else {
            self.take(message);
        }
    }
}

/// Returns the slot in which a message was found.
#[inline(always)]
fn slot_found(slots: &VecDeque<Option<Message>>, empty: u64, filled: &Filled, found: Found) -> usize
    requires count { HasEmpty slots.now.items empty }
    requires shown { KeepsShown filled.now slots.now.items }
    ensures { (place : ℕ) → found ≡ Found.At place → IsSlotAt slots.now.items place result }
{
    match found {
        Found::At(place) => slot_at(slots, empty, filled, place),
        Found::In(slot) => slot as usize,
    }
}

/// Returns the slot of the message at this place, or a slot past the end if there is no such place.
#[inline(always)]
fn slot_at(slots: &VecDeque<Option<Message>>, empty: u64, filled: &Filled, place: u64) -> usize
    requires count { HasEmpty slots.now.items empty }
    requires shown { KeepsShown filled.now slots.now.items }
    ensures { IsSlotAt slots.now.items place result }
{
    if empty == 0 {
        return place as usize;
    }
    slot_among(slots, filled, place)
}

/// Returns the slot of the message at this place, or a slot past the end if there is no such place. Some slots may be
/// empty.
fn slot_among(slots: &VecDeque<Option<Message>>, filled: &Filled, place: u64) -> usize
    requires { KeepsShown filled.now slots.now.items }
    ensures { IsSlotAt slots.now.items place result }
{
    let (first, more) = filled.skip(place);
    nth(slots, first, more)
}

/// Returns a slot that has a message that is equal to this one. Unless this slot or the last one does, it is the first.
fn slot_with(
    slots: &VecDeque<Option<Message>>,
    places: &mut Places,
    filled: &mut Filled,
    beside: usize,
    message: &Message,
) -> Option<usize>
    requires told { IsTold ⟦<Message as PartialEq>⟧.eq places.old slots.now.items }
    requires shown { KeepsShown filled.old slots.now.items }
    ensures told { IsTold ⟦<Message as PartialEq>⟧.eq places.new slots.now.items }
    ensures shown { KeepsShown filled.new slots.now.items }
    ensures some { IsSome result ↔ Contains (messages_in slots.now.items) message.now }
{
    // A caller that delivers the messages from the newest on asks for the one before that which it delivered last.
    if has(slots, beside, message) {
        // It is taken from between others.
        filled.want(slots.len());
        return Some(beside);
    }
    // The first of them is the last one of all.
    if is_last(slots, message) {
        return Some(slots.len().saturating_sub(1));
    }
    first_of(slots, places, filled, message)
}

/// Returns the first slot that has a message that is equal to this one.
fn first_of(
    slots: &VecDeque<Option<Message>>,
    places: &mut Places,
    filled: &mut Filled,
    message: &Message,
) -> Option<usize>
    requires told { IsTold ⟦<Message as PartialEq>⟧.eq places.old slots.now.items }
    requires shown { KeepsShown filled.old slots.now.items }
    ensures told { IsTold ⟦<Message as PartialEq>⟧.eq places.new slots.now.items }
    ensures shown { KeepsShown filled.new slots.now.items }
    ensures some { IsSome result ↔ Contains (messages_in slots.now.items) message.now }
    ensures first { IfSome result (IsFirstSlot slots.now.items message.now) }
{
    // A caller that delivers the oldest message asks for the first one.
    if has(slots, 0, message) {
        return Some(0);
    }
    if places.are_known() {
        return places.find(message);
    }
    places.want(slots.len());
    filled.want(slots.len());
    slot_of(slots, message)
}

/// Takes the message in this slot out of the slots. They are closed up if too many of them are empty.
#[inline(always)]
fn remove(
    slots: &mut VecDeque<Option<Message>>,
    empty: &mut u64,
    places: &mut Places,
    filled: &mut Filled,
    slot: usize,
    message: &Message,
)
    requires kept { AreKept ⟦<Message as PartialEq>⟧.eq slots.old.items empty.old places.old filled.old }
    requires there { StandsIn slots.old.items message.now slot }
    ensures kept { AreKept ⟦<Message as PartialEq>⟧.eq slots.new.items empty.new places.new filled.new }
    ensures few { FewEmpty slots.new.items empty.new }
    ensures left { AreLeft slots.old slots.new
        (messages_in (take slot slots.old.items) ++ messages_in (drop (suc slot) slots.old.items)) }
{
    remove_slot(slots, empty, places, filled, slot, message);
    if *empty > most_empty(slots.len() as u64, places.are_known()) {
        close_up(slots);
        *empty = 0;
        places.forget();
        filled.learn_anew(slots);
    }
}

/// Returns how many of this many slots may be empty before they are closed up: half of them. If the slots of each
/// message are known, it is three quarters, since closing up has them learned anew, each message at the cost of putting
/// it.
#[inline(always)]
fn most_empty(slots: u64, known: bool) -> u64
    ensures { 4 * result ≤ 3 * slots }
{
    if known { slots / 4 * 3 } else { slots / 2 }
}

/// Removes the slot of a message, or only empties it if the message at a place is found all the same.
#[inline(always)]
fn remove_slot(
    slots: &mut VecDeque<Option<Message>>,
    empty: &mut u64,
    places: &mut Places,
    filled: &mut Filled,
    slot: usize,
    message: &Message,
)
    requires kept { AreKept ⟦<Message as PartialEq>⟧.eq slots.old.items empty.old places.old filled.old }
    requires there { StandsIn slots.old.items message.now slot }
    ensures kept { AreKept ⟦<Message as PartialEq>⟧.eq slots.new.items empty.new places.new filled.new }
    ensures left { AreLeft slots.old slots.new
        (messages_in (take slot slots.old.items) ++ messages_in (drop (suc slot) slots.old.items)) }
{
    let len = slots.len();
    places.take(slot, message);
    filled.unset(slot);
    if slot == 0 {
        take_first(slots);
        places.shift();
        filled.drop_first();
        drop_leading(slots, empty, places, filled);
    } else if slot + 1 == len {
        // A caller that delivers the newest message takes the last one.
        take_last(slots);
    } else if filled.is_kept() {
        clear(slots, slot);
        *empty += 1;
    } else {
        take_out(slots, slot);
        places.forget();
        filled.want_among_many(len);
    }
}

/// Drops the empty slots before the first message, so that it is found without looking at them. Each slot is emptied
/// only once, so the cost is amortized constant.
#[inline(always)]
fn drop_leading(
    slots: &mut VecDeque<Option<Message>>,
    empty: &mut u64,
    places: &mut Places,
    filled: &mut Filled,
)
    requires kept { AreKept ⟦<Message as PartialEq>⟧.eq slots.old.items empty.old places.old filled.old }
    ensures kept { AreKept ⟦<Message as PartialEq>⟧.eq slots.new.items empty.new places.new filled.new }
    ensures left { AreLeft slots.old slots.new (messages_in slots.old.items) }
{
    for _ in 0..*empty {
        if !starts_empty(slots) {
            return;
        }
        take_first(slots);
        places.shift();
        filled.drop_first();
        *empty -= 1;
    }
}

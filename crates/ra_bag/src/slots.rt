//! Messages in slots that may be empty.
ghost use Rattle.std.specs.Prelude.{◌≡◌, ◌≢◌, ◌+◌, ◌-◌, ◌<◌, ◌≤◌, ◌↔◌, ◌∷◌, ◌++◌, length, map, take, drop, slice_index_or, slice_set, Contains, Some, None, IsNone, IsSome, IfSome, IsOk, OnOk, OnErr, IsTrue, ℕ};
ghost use Rattle.std.specs.List.{filter, remove};
ghost use Rattle.std.specs.Option.{is_some};
ghost use Rattle.std.specs.VecDeque.{deque_len, deque_capacity};
ghost use Rattle.ra_bag.specs.Bag.{StandsIn, IsSlotAt, messages_in};

use ra_stamp::{Memory, Message};
use std::collections::VecDeque;

/// If there are no more slots than this, they are searched one by one.
pub const MAX_LINEAR_SCAN: usize = 64;

/// Makes room for this many more slots, unless the list already has it.
///
/// # Errors
///
/// `Memory`: that room cannot be made. The list is as before, with its room.
pub fn make_room(slots: &mut VecDeque<Option<Message>>, more: usize) -> Result<(), Memory>
    ensures same { slots.new.items ≡ slots.old.items }
    ensures ok { OnOk result (deque_len slots.new + more ≤ deque_capacity slots.new) }
    ensures enough { deque_len slots.old + more ≤ deque_capacity slots.old
        → deque_capacity slots.new ≡ deque_capacity slots.old }
    ensures err { OnErr result (deque_capacity slots.new ≡ deque_capacity slots.old) }
    ensures succeeds { deque_len slots.old + more ≤ deque_capacity slots.old → IsOk result }
{
    // `reserve` promises neither to leave a list that has the room as it is, nor to keep the capacity if it is refused.
    if slots.capacity() - slots.len() < more {
        slots.reserve_exact(more.max(slots.capacity()))?;
    }
    Ok(())
}

/// Puts messages into new slots at the end. The list must have room for them.
pub fn append(slots: &mut VecDeque<Option<Message>>, messages: &[Message])
    requires { deque_len slots.old + length messages.now ≤ deque_capacity slots.old }
    ensures items { slots.new.items ≡ slots.old.items ++ map Some messages.now }
    ensures capacity { deque_capacity slots.new ≡ deque_capacity slots.old }
{
    for message in messages {
        slots.push_back_reserved(Some(*message));
    }
}

/// Returns whether a slot has a message that is equal to this one.
#[inline(always)]
pub fn has(slots: &VecDeque<Option<Message>>, slot: usize, message: &Message) -> bool
    ensures value { IsTrue result ↔ StandsIn slots.now.items message.now slot }
    ensures there { IsTrue result → Contains (messages_in slots.now.items) message.now }
{
    match slots.get(slot) {
        Some(kept) => is_of(kept, message),
        None => false,
    }
}

/// Returns the first slot that has a message that is equal to this one. The slots lie in two parts, which are searched
/// one after the other because that is faster.
pub fn slot_of(slots: &VecDeque<Option<Message>>, message: &Message) -> Option<usize>
    ensures some { IsSome result ↔ Contains (messages_in slots.now.items) message.now }
    ensures found { IfSome result (StandsIn slots.now.items message.now) }
    ensures first { IfSome result (λ slot. (k : ℕ) → k < slot
        → slice_index_or slots.now.items k (Some message.now) ≢ Some message.now) }
{
    let (front, back) = slots.as_slices();
    if let Some(slot) = slot_in(front, message) {
        return Some(slot);
    }
    let slot = slot_in(back, message)?;
    Some(front.len() + slot)
}

/// Returns the first of these slots that has a message that is equal to this one.
fn slot_in(slots: &[Option<Message>], message: &Message) -> Option<usize>
    ensures absent { IsNone result ↔ ¬ Contains slots.now (Some message.now) }
    ensures found { IfSome result (StandsIn slots.now message.now) }
    ensures first { IfSome result (λ slot. (k : ℕ) → k < slot
        → slice_index_or slots.now k (Some message.now) ≢ Some message.now) }
{
    for (slot, kept) in slots.iter().enumerate() {
        if is_of(kept, message) {
            return Some(slot);
        }
    }
    None
}

/// Returns whether a slot has a message that is equal to this one.
pub fn contains(slots: &VecDeque<Option<Message>>, message: &Message) -> bool
    ensures { IsTrue result ↔ Contains (messages_in slots.now.items) message.now }
{
    // A caller that delivers the newest message asks for the last one.
    is_last(slots, message) || slot_of(slots, message).is_some()
}

/// Returns whether the last slot has a message that is equal to this one.
pub fn is_last(slots: &VecDeque<Option<Message>>, message: &Message) -> bool
    ensures { IsTrue result → Contains (messages_in slots.now.items) message.now }
{
    has(slots, slots.len().saturating_sub(1), message)
}

/// Returns the slot of the message at a place among those in the slots, or one past the end if there is no such
/// message. Before the slot `first` there are all but `more` of the messages before that one. The cost is linear in the
/// number of slots from `first` on.
#[inline(always)]
pub fn nth(slots: &VecDeque<Option<Message>>, first: usize, more: u64) -> usize
    ensures { (place : ℕ) → more + length (messages_in (take first slots.now.items)) ≡ place
        → IsSlotAt slots.now.items place result }
{
    let mut left = more;
    for slot in first..slots.len() {
        if slots[slot].is_some() {
            if left == 0 {
                return slot;
            }
            left -= 1;
        }
    }
    slots.len()
}

/// Returns the message in a slot, or `None` if the slot is empty or does not exist.
#[inline(always)]
pub fn at(slots: &VecDeque<Option<Message>>, slot: usize) -> Option<Message>
    ensures { result ≡ slice_index_or slots.now.items slot None }
{
    match slots.get(slot) {
        Some(kept) => *kept,
        None => None,
    }
}

/// Returns whether the first slot is empty.
#[inline(always)]
pub fn starts_empty(slots: &VecDeque<Option<Message>>) -> bool
    ensures { IsTrue result → slots.now.items ≡ None ∷ drop 1 slots.now.items }
{
    matches!(slots.front(), Some(None))
}

/// Takes a slot out, in time linear in the distance from the nearer end.
pub fn take_out(slots: &mut VecDeque<Option<Message>>, slot: usize)
    requires { slot < length slots.old.items }
    ensures items { slots.new.items ≡ remove slots.old.items slot }
    ensures len { deque_len slots.new ≤ deque_len slots.old }
    ensures capacity { deque_capacity slots.new ≡ deque_capacity slots.old }
{
    slots.remove(slot);
}

/// Takes the first slot out, in constant time.
pub fn take_first(slots: &mut VecDeque<Option<Message>>)
    requires { 0 < length slots.old.items }
    ensures items { slots.new.items ≡ drop 1 slots.old.items }
    ensures len { deque_len slots.new ≤ deque_len slots.old }
    ensures capacity { deque_capacity slots.new ≡ deque_capacity slots.old }
{
    slots.pop_front();
}

/// Takes the last slot out, in constant time.
pub fn take_last(slots: &mut VecDeque<Option<Message>>)
    requires { 0 < length slots.old.items }
    ensures items { slots.new.items ≡ take (length slots.old.items - 1) slots.old.items }
    ensures len { deque_len slots.new ≤ deque_len slots.old }
    ensures capacity { deque_capacity slots.new ≡ deque_capacity slots.old }
{
    slots.pop_back();
}

/// Empties a slot.
pub fn clear(slots: &mut VecDeque<Option<Message>>, slot: usize)
    requires { slot < length slots.old.items }
    ensures items { slots.new.items ≡ slice_set slots.old.items slot None }
    ensures len { deque_len slots.new ≤ deque_len slots.old }
    ensures capacity { deque_capacity slots.new ≡ deque_capacity slots.old }
{
    slots[slot] = None;
}

/// Removes the empty slots, and keeps the order of the others.
pub fn close_up(slots: &mut VecDeque<Option<Message>>)
    ensures items { slots.new.items ≡ filter is_some slots.old.items }
    ensures len { deque_len slots.new ≤ deque_len slots.old }
    ensures capacity { deque_capacity slots.new ≡ deque_capacity slots.old }
{
    slots.retain(|kept| kept.is_some());
}

/// Returns whether the content of a slot is a message that is equal to this one. Most unequal messages differ in their
/// numbers, which are compared first.
#[inline(always)]
#[tactic(auto, using(ra_stamp::proofs::StampLaws::same_messages))]
fn is_of(kept: &Option<Message>, message: &Message) -> bool
    ensures { IsTrue result ↔ (kept.now ≡ Some message.now) }
{
    match kept {
        Some(other) => other.seq() == message.seq() && *other == *message,
        None => false,
    }
}

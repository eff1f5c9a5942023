//! The place of a message in a bag.

/// The place where a message was found.
#[derive(Clone, Copy, Debug, PartialEq, Eq)]
pub enum Found {
    /// At this place, counted from 0 in the order of sending.
    At(u64),
    /// In this slot of the bag. No clause says which number a slot has, so `take_from` checks that the slot has the
    /// message.
    In(u64),
}

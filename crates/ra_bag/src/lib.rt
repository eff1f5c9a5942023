//! The messages under way, in the order in which they were sent.
//!
//! Three numberings are used. Callers speak of the *place* of a message: how many others were sent before it and are
//! under way. A bag keeps its messages in *slots*, counted from its first one; some are empty, so a message may have a
//! higher slot than place. When the first slot goes, all others move one down. The index of `Places` would have to
//! change with each of them, so it speaks of the *number* of a slot, which stays: the slot plus all slots gone before.
#![tactic(auto)]

mod bag;
mod filled;
mod found;
mod places;
mod slots;

pub use bag::Bag;
pub use found::Found;

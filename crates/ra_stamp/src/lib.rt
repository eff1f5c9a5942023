//! The values that the whole project speaks of: node numbers, stamps, modes, names, messages, marks, and lists of them.
#![tactic(auto)]

mod entry;
mod ghost_list;
mod laws;
mod member;
mod memory;
mod message;
mod mode;
mod name;
mod node_count;
mod node_id;
mod sequence;
mod stamp;

pub use entry::{Entry, Mark, Marks};
pub use ghost_list::GhostList;
pub use laws::{conflict_is_symmetric, equal_is_same, stamps_are_totally_ordered};
pub use member::{Member, MemberError};
pub use memory::Memory;
pub use message::{Message, Messages};
pub use mode::{Mode, conflicts};
pub use name::{Name, NameError};
pub use node_count::NodeCount;
pub use node_id::NodeId;
pub use sequence::Sequence;
pub use stamp::Stamp;

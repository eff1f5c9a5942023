//! One resource at one node: the algorithm of G. Ricart and A. K. Agrawala, CACM 24(1), 1981, with lock modes. An event
//! goes in, and the messages that it sends come out; nothing is read or written.
#![tactic(auto)]

mod address;
mod automaton;
mod cases;
mod deferrals;
mod error;
mod laws;
mod node_set;
mod phase;
mod reaction;
mod sends;

pub use address::check_address;
pub use automaton::Automaton;
pub use error::{LeaveError, NewError, ReceiveError, RequestError, WithdrawError};
pub use laws::steps_keep_a_state_consistent;
pub use phase::Phase;
pub use reaction::Reaction;

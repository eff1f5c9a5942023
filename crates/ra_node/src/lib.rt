//! A node with many resources, and the clients of the node that queue for them. An event goes in, and its messages and
//! marks come out; nothing is read or written.
//!
//! # What a host does
//!
//! The program around a node is its host, which knows the clients and the network.
//!
//! - It makes each node once, with [`Node::new`], and gives each a number of its own, and all the same count of nodes
//!   and the same start.
//! - For a client it calls [`Node::ask`], [`Node::leave`] or [`Node::cancel`], and for a message [`Node::receive`]. A
//!   client that gives up may have been let in just before; then it holds the lock, and leaves.
//! - If clients come with ever new names, it calls [`Node::forget`] now and then.
//! - It sends each message of the [`Outcome`] to the node that the message is for.
//! - It follows the marks of the outcome. A client has the lock from its mark Entered until it leaves. The mark comes
//!   with a message or, if the node is alone, with the client's ask or the leave of another client.
//!
//! ```text
//! let mut node = Node::new(alloc, me, 3, 0)?;
//!
//! // A client asks.
//! let outcome = node.ask(alloc, client, name, Mode::Exclusive)?;
//! // A message comes.
//! let outcome = node.receive(alloc, &message)?;
//! // The client had the lock, and leaves.
//! let outcome = node.leave(alloc, client, name)?;
//!
//! // After each of them:
//! for message in outcome.sends.as_slice() {
//!     send(message.to(), message);
//! }
//! for mark in outcome.marks.as_slice() {
//!     if let Mark::Entered(entry) = mark {
//!         wake(entry.client);
//!     }
//! }
//! ```
//!
//! # What a host owes
//!
//! The network may reorder messages, lose them, and deliver them more than once. A lost message can leave requests
//! waiting forever. Neither a lost message nor a repeated one ever lets in two conflicting clients. Nothing is promised
//! if a message is changed or invented, or if a node comes back with an empty state.
//!
//! A node has no event clock. If the frames of its messages carry one, as frames of `ra_frame` do, the host keeps it.
//!
//! Each refusal leaves the node as it was. After a refusal for lack of memory the call can be made again.
#![tactic(auto)]

mod error;
mod laws;
mod listing;
mod marks;
mod node;
mod numbers;
mod outcome;
mod queue;
mod queued_client;
mod slot;

pub use error::{AskError, CancelError, LeaveError};
pub use laws::{
    events_are_determined, events_count_clients, events_exist_where_they_are_allowed, events_go_on,
    events_keep_a_node_consistent, events_leave_other_names, histories_keep_a_node_consistent,
};
pub use node::Node;
pub use outcome::Outcome;
pub use queued_client::Queued;
pub use ra_automaton::{NewError, ReceiveError};

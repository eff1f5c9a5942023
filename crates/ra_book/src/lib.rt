//! The history of a node, and the run that the histories of all nodes settle into.
//!
//! A [`TimedNode`] is a node with an event clock, and no history. A node's book has the node, its event clock, what
//! happened at it, and what it sent. [`settle`] makes one run of the cluster out of the books of all nodes, or says why
//! they do not settle. Nothing here knows of threads: `ra_site` shares books among threads, and `ra_book_text` writes
//! them as text.
//!
//! The event clock is from L. Lamport, CACM 21(7), 1978.
#![tactic(auto)]

mod book;
mod error;
mod laws;
mod settle_books;
mod timed_node;

pub use book::Book;
pub use book::event::{BookEvent, BookKind, Events};
pub use book::event_check::event_refusal;
pub use book::event_effect::Posted;
pub use book::grant::Grant;
pub use book::kept_events::clock_after;
pub use book::sent::{Frames, Sent};
pub use book::stop::Stop;
pub use error::{BookError, MarkLostError, SettleError};
pub use laws::cut_books::{books_can_be_cut, clusters_can_be_cut, histories_can_be_cut};
pub use laws::holders::fitting_books_never_hold_in_conflict;
pub use laws::paired_books::{paired_books_fit, what_has_not_come_is_under_way};
pub use laws::settled_fairness::settled_runs_are_fair;
pub use laws::settling_with_copies::books_settle_with_copies;
pub use laws::timed_histories::timed_nodes_have_histories;
pub use laws::{histories_are_determined, histories_go_on};
pub use ra_node::NewError;
pub use settle_books::copies::settle_with_copies;
pub use settle_books::event_merge::step_of;
pub use settle_books::receipts::was_sent;
pub use settle_books::settled::Settled;
pub use settle_books::{is_cluster, settle};
pub use timed_node::TimedNode;

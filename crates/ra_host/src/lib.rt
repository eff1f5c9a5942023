//! Hosts: each has a node with its book on a disk, and a link for each other host.
//!
//! The machine of n hosts (specs/Host, specs/Hosts) and its laws are here, and what a host keeps while it runs, without
//! input and output. When it comes back, it counts the frames in its book ([`TakenCounts`]), and has its [`Links`]
//! alone. Then its node has the events of the book again ([`Played`]). A host that is ready is a [`Host`].
#![tactic(auto)]

mod error;
mod host;
mod laws;
mod links;
mod outbox;
mod played;
mod taken_counts;

pub use error::{CountError, EventError, NoHost, TooMany};
pub use host::Host;
pub use laws::grants::{
    clients_of_hosts_never_hold_in_conflict, what_is_granted_is_held_until_its_client_leaves,
};
pub use laws::hosts::{
    books_fit_once_all_hosts_were_ready, books_of_hosts_fit, each_two_hosts_are_a_pair,
    hosts_never_hold_in_conflict, hosts_that_lack_taken_frames_end_at_their_replay,
    hosts_with_whole_books_are_not_accused, no_ready_host_is_accused,
    nothing_is_under_way_when_hosts_acknowledged_all,
};
pub use laws::running::{a_ready_host_keeps_what_others_lack, what_a_host_does_are_turns};
pub use laws::{all_has_come_when_all_is_acknowledged, linked_books_fit};
pub use links::Links;
pub use played::Played;
pub use taken_counts::TakenCounts;

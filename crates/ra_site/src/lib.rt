//! Nodes that threads share. A node's book has the node, its event clock, what happened at it, and what it sent.
//! Threads share the book under the lock of a site, and a post carries the frames between the sites. The books of all
//! nodes settle into one run of the cluster.
//!
//! The event clock is that of L. Lamport, CACM 21(7), 1978.
//!
//! # What a service does
//!
//! - It makes a [`Cluster`], and has [`Cluster::run`] run its clients: a closure, which may start threads. While the
//!   closure runs, each node has a thread that carries its frames.
//! - The clients lock and unlock names with [`Cluster::with_lock`], or with [`Cluster::lock`] and [`Cluster::unlock`],
//!   and end if a node is stopped. [`Cluster::lock_within`] and [`Cluster::cancel`] end a wait early.
//! - At the end it closes the cluster, and [`settle`] shows the run. A service that runs for long makes its cluster by
//!   [`Cluster::new_audited`] instead, and has an auditor of the crate `ra_audit` take what has happened from time to
//!   time.
//!
//! docs/EMBEDDING.md explains the parts of the shortest such program. It also says how to start the threads of the
//! nodes yourself, and how to use a [`Site`] for each node and the [`Post`] by themselves.
//!
//! The crate `ra_cluster` runs scripts on such a cluster.
#![tactic(auto)]

mod cluster;
mod laws;
mod post;
mod site;

pub use cluster::all_sites::is_site_of;
pub use cluster::gate::{Gate, OpenGate};
pub use cluster::{CallError, Cluster, Held};
pub use laws::{ended_requests_are_gone, given_grants_are_in_books};
pub use post::{Inbox, NewPostError, Post, SendError};
pub use ra_book::{
    Book, BookError, BookEvent, BookKind, Events, Frames, Grant, MarkLostError, NewError, Posted,
    Sent, SettleError, Settled, Stop, clock_after, histories_are_determined, histories_go_on,
    is_cluster, settle,
};
pub use site::desk::Handed;
pub use site::stop_causes::stop_of;
pub use site::take_error::TakeError;
pub use site::{Site, SiteError};

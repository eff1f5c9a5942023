//! Scripts on threads. [`run_cluster`] runs a script with a thread for each node and each client, and
//! [`record_cluster`] returns the books, too. [`run_threads`] and [`settle_script`] are its two halves, for a caller
//! that makes the cluster.
//!
//! The cluster itself, with its sites and its post, is in the crate `ra_site`. Its names are here, too. A service that
//! runs no scripts needs `ra_site` alone.
#![tactic(auto)]

mod cluster_run;
mod laws;
mod script_plan;
mod script_threads;
mod settled_script;

pub use cluster_run::{ClusterError, Recorded, record_cluster, run_cluster};
pub use laws::clients_of_settled_books_never_deadlock;
pub use ra_book::{
    Book, BookError, BookEvent, BookKind, Events, Frames, Grant, MarkLostError, NewError, Posted,
    Sent, SettleError, Settled, Stop, clock_after, histories_are_determined, histories_go_on,
    is_cluster, settle,
};
pub use ra_site::{
    CallError, Cluster, Gate, Handed, Held, Inbox, NewPostError, OpenGate, Post, SendError, Site,
    SiteError, TakeError, ended_requests_are_gone, given_grants_are_in_books, is_site_of, stop_of,
};
pub use script_plan::meets_plan;
pub use script_threads::{ScriptRun, run_threads};
pub use settled_script::settle_script;

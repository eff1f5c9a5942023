//! The audit of a cluster of threads while it runs: what happens at the nodes is put into one run, round after round,
//! and leaves the books.
//!
//! # What a service does
//!
//! - It makes its cluster by [`Cluster::new_audited`](ra_site::Cluster::new_audited), and an [`Auditor`] for as many
//!   nodes and the same start.
//! - From time to time it calls [`Auditor::audit`], which takes what has happened at each node, puts it into the run,
//!   and tells a [`MarkObserver`] each mark.
//! - At the end it calls [`Auditor::close`], which puts what is left into the run, closes the cluster, and looks
//!   whether all that the books say is in the run. [`Auditor::finish`],
//!   [`Cluster::close_audited`](ra_site::Cluster::close_audited) and [`Auditor::check_books`] are its three parts.
//!
//! docs/EMBEDDING.md has an example.
#![tactic(auto)]

mod audit_error;
mod auditor;
mod grant_matcher;
mod laws;
mod mark_observer;

pub use audit_error::{AuditError, AuditFault, BehindError, CloseError, FinishError, RoundError};
pub use auditor::Auditor;
pub use auditor::ending::NotClosed;
pub use grant_matcher::{GrantError, GrantMatcher};
pub use laws::matched_grants_were_granted_once;
pub use mark_observer::{MarkObserver, Told};
pub use ra_site::TakeError;

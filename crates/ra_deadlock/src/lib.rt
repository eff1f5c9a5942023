//! What a deadlock is: requests in a circle, each of which ends only after the next one. It goes by the lock table and the
//! queues of the nodes alone, so it is the same for a run, a trace and a mark log.
#![tactic(auto)]

mod laws;
mod request;
mod search;

pub use laws::circles_last;
pub use request::{Request, Stage};
pub use search::deadlock_in;

//! Whole clusters, and what all tests of this crate share: values, how a test ends, and threads that have to end.
pub mod cluster_asserting;
pub mod cluster_calls;
pub mod cluster_clients;
pub mod cluster_ends;
pub mod cluster_values;
pub mod giving_up;
pub mod owned_cluster;
pub mod plays;
pub mod sleeping_clients;
pub mod ticking_clock;

//! Scripts, and the policies that drive a cluster through them. What runs show is in `cases/sim*.toml` and
//! `cases/test_sim.py`.
pub mod listing;
pub mod policies;
pub mod scripts;
pub mod turns;

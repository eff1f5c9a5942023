//! Books that settle into a run, or do not.
pub mod settled_outcomes;
pub mod settled_runs;

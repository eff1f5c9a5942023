//! Runs of lists of steps, and what is read up to a limit.
pub mod refused_runs;
pub mod reported_runs;
pub mod world_streams;

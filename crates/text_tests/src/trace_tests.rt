//! Traces and mark logs as they are read and written.
pub mod followed_texts;
pub mod log_readers;
pub mod refused_traces;
pub mod round_trips;
pub mod trace_readers;
pub mod traced_steps;
pub mod traces;

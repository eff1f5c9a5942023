//! What is said of the end of a run.
pub mod client_end;
pub mod shrunk_notes;
pub mod unfinished;

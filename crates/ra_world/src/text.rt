//! The lines of reports and of states.
pub mod lines;
pub mod report;
pub mod state_lines;

//! Scripts that threads run.
pub mod endings;
pub mod forced_orders;
pub mod gates_of_scripts;
pub mod letter_scripts;
pub mod own_threads;
pub mod scripts_on_threads;

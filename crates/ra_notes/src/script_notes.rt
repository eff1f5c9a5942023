//! What is said of a script.
pub mod choosing;
pub mod order_note;
pub mod script_end;
pub mod script_fault;
pub mod script_text;
pub mod shape_note;

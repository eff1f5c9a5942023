//! What is said of the text of a frame.
pub mod digits;
pub mod frame_fault;
pub mod frame_field;
pub mod hexadecimal;
pub mod unanswered;

//! Readers and writers: a limit, and what was read or written once a stream failed.
pub mod limited_input;
pub mod one_byte;
pub mod source;
pub mod target;
pub mod whole_output;

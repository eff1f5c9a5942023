//! Frames: messages as bytes, with the clock of their sending. Both versions of the format are read, and version
//! 2 is written.
#![tactic(auto)]

mod decoding;
mod encoding;
mod error;
mod format;
mod frame;
mod laws;

pub use decoding::{decode, format_of};
pub use encoding::{FrameBytes, MAX_FRAME, encode, encoded};
pub use error::FrameError;
pub use format::Format;
pub use frame::Frame;
pub use laws::{one_spelling, round_trip};

//! Several inputs that are read as one, one after the other, and where the lines of the whole are.
#![tactic(auto)]

mod input_places;
mod joined_reader;

pub use input_places::{InputFailure, InputFault, InputPlaces, LinePlace};
pub use joined_reader::{JoinedReader, ReadsInputs};

//! What a host does, line by line, as a protocol over lines that go in and come out. The rules are those of `ra_host` and
//! `ra_clients`; this crate reads and writes their lines.
//!
//! As yet it has parts of the loop: what a host was started with, what it keeps of each other host beside its link, what
//! it says to others and notes on them, the lines of the input, how its book is opened and its frames are counted, and
//! what a host that comes back makes of a question.
#![tactic(auto)]

mod answering;
mod base;
mod book_opening;
mod line_input;
mod notes;
mod peer;
mod replaying;
mod returning;
mod saying;
mod settings;

pub use settings::Settings;

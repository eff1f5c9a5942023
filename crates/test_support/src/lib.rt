//! What tests of several crates share. Nothing but tests uses it.
#![tactic(auto)]

mod asserting;
mod failures;
mod messages;
mod printing;
mod streams;
mod tried;

pub use failures::{At, Difference, misprint, part, row};
pub use messages::{entry, entry_of, id, message_between, q, r, reply, request, writer};
pub use printing::printed;
pub use ra_stamp::Memory;
pub use streams::{FailingReader, FailingWriter, failing_writer};
pub use tried::{Tried, again, both};

//! Texts and streams: how a text is made part by part and cut apart, which lines of it are drawn, how a note to a
//! person is made, and how bytes are read and written.
#![tactic(auto)]

mod cutting;
mod draft;
mod drawn_part;
mod error;
mod io;
mod lines;
mod note;

pub use cutting::cut;
pub use draft::Draft;
pub use drawn_part::Part;
pub use error::{ReadFault, WriteFault};
pub use io::limited_input::read_up_to;
pub use io::one_byte::next_byte;
pub use io::whole_output::write_out;
pub use lines::mark_line;
pub use note::Note;

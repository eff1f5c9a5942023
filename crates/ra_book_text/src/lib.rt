//! Books: what was handed to a node, as text. [`answer_book`] reads a book line by line, hands each event to a node,
//! and writes what the node answers. So a program in any language can drive a node over any carrier. [`settle_text`]
//! reads the books of all nodes in one text, one after the other, and settles them into the one run of the cluster that
//! they record; or it says which line is wrong, and why.
#![tactic(auto)]

mod answering;
mod book_writing;
mod error;
mod laws;
mod next_line;
mod text_settling;

pub use answering::answer_book;
pub use answering::line_refusal::Refusal;
pub use book_writing::{WriteBookError, push_book};
pub use error::BookFault;
pub use laws::node_books::books_say_what_nodes_answered;
pub use laws::text_verdicts::{
    each_text_of_books_has_one_verdict, texts_of_books_are_read_in_one_way,
};
pub use laws::{books_determine_nodes, lines_are_read_in_one_way};
pub use next_line::book_version::BookVersion;
pub use next_line::event_line::{MAX_LINE, event_of};
pub use next_line::first_line::FirstLine;
pub use ra_book::TimedNode;
pub use text_settling::settle_error::{SettleTextError, TextCause};
pub use text_settling::{SettledText, settle_text};

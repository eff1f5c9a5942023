//! The file of a book: lines that are appended, synced, and found again after a crash at any moment.
#![tactic(auto)]

mod book;
mod book_file;
mod disk_file;
mod error;
mod laws;
mod memory_file;
mod open;
mod record;

pub use book::Book;
pub use book_file::BookFile;
pub use disk_file::DiskFile;
pub use error::FileError;
pub use laws::{
    a_book_goes_on_from_its_past, a_book_is_lines_that_were_given,
    a_comeback_finds_the_first_lines, a_crash_leaves_a_front, an_open_book_keeps_what_it_is_given,
    an_opening_keeps_whole_lines, what_was_synced_stays,
};
pub use memory_file::MemoryFile;
pub use open::OpenError;

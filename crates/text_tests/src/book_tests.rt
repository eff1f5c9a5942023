//! Books as they are answered and written.
pub mod book_streams;
pub mod written_books;

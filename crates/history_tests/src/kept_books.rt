//! The books of nodes: what they keep, send and refuse. All tests of this crate share what is said of books here.
pub mod book_steps;
pub mod books_keep;
pub mod histories;
pub mod history_asserting;
pub mod history_values;

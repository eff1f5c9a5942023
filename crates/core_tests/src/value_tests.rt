//! Names, stamps, frames, bags of messages, lock tables and the files of books.
pub mod bag_copies;
pub mod bags;
pub mod bags_in_order;
pub mod bags_of_many;
pub mod book_files;
pub mod costs_of_calls;
pub mod frames;
pub mod lock_tables;
pub mod stamps;

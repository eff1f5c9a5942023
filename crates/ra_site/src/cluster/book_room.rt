//! Room for the books of a cluster.
ghost use Rattle.std.specs.Prelude.{◌≡◌, ◌≤◌, [], vec_capacity};

use crate::Book;
use ra_stamp::{Memory, NodeId};
use std::alloc::Global;

/// An empty list with room for the books of as many nodes as a cluster can have, so that each cluster can be closed
/// without allocating.
#[derive(Drop)]
pub struct BookRoom {
    books: Vec<Book>,
    ghost empty: { books.items ≡ [] },
    ghost room: { 64 ≤ vec_capacity books },
}

impl BookRoom {
    /// Makes the room.
    ///
    /// # Errors
    ///
    /// `Memory`: memory ran out.
    pub fn new(alloc: Global) -> Result<BookRoom, Memory> {
        let mut books = Vec::new(alloc);
        books.reserve(usize::from(NodeId::MAX))?;
        Ok(BookRoom { books })
    }

    /// Returns the list.
    pub fn into_books(self) -> Vec<Book>
        ensures empty { result.items ≡ [] }
        ensures room { 64 ≤ vec_capacity result }
    {
        let BookRoom { books } = self;
        books
    }
}

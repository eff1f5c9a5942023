//! What is returned for the book of a site that is closed.
ghost use Rattle.std.specs.Prelude.{◌≤◌, ◌↔◌, IsTrue};
ghost use Rattle.ra_stamp.specs.NodeId.{IsNodeNumber};
ghost use Rattle.ra_site.specs.Sites.{IsWholeBookOf};

use crate::{Book, Stop};
use ra_stamp::NodeId;
use std::alloc::Global;

/// Returns whether a book is whole, and its node is this one, of this many nodes, from this start.
pub fn is_whole_of(book: &Book, me: NodeId, nodes: u16, start: u64) -> bool
    ensures { IsTrue result ↔ IsWholeBookOf me nodes start book.now }
{
    book.me() == me && book.nodes() == nodes && book.start() == start && book.is_whole()
}

/// Makes an empty book of a node, which is stopped for this cause.
pub fn stopped_book(alloc: Global, me: NodeId, nodes: u16, start: u64, cause: Stop) -> Book
    requires count { IsNodeNumber nodes }
    requires member { me ≤ nodes }
    ensures { IsWholeBookOf me nodes start result }
{
    let Ok(mut empty) = Book::new(alloc, me, nodes, start) else {
        unreachable!()
    };
    empty.fail(cause);
    empty
}

//! An event of a text at the book of its node.
ghost use Rattle.ra_book.specs.Timed.{CanCome};
ghost use Rattle.ra_book_text.specs.Gathering.{Comes};

use ra_book::{Book, BookError, BookKind};
use ra_frame::{encoded, round_trip};
use std::alloc::Global;

/// Makes an event happen at the node of a book, and keeps it there. It costs what the book's call costs.
///
/// # Errors
///
/// Those of the book's call. The book is as before.
pub fn record_event(alloc: Global, book: &mut Book, kind: &BookKind) -> Result<(), BookError>
    requires { CanCome kind.now }
    ensures { Comes book.old kind.now book.new result }
{
    match kind {
        BookKind::Ask { client, name, mode } => {
            book.ask(alloc, *client, *name, *mode)?;
            Ok(())
        }
        BookKind::Leave { client, name } => {
            book.leave(alloc, *client, *name)?;
            Ok(())
        }
        BookKind::Cancel { client, name } => {
            book.cancel(alloc, *client, *name)?;
            Ok(())
        }
        BookKind::Forget => {
            book.forget(alloc)?;
            Ok(())
        }
        BookKind::Receive(frame) => {
            // For the proof: the bytes of a frame are read as this frame.
            round_trip();
            let bytes = encoded(frame);
            book.receive(alloc, bytes.as_slice())?;
            Ok(())
        }
    }
}

//! What is true of settled runs. The function does nothing, and its contract is the law.
ghost use Rattle.ra_book.specs.SettlingParts.{BooksSettleWithCopies};

/// Books settle with copies if each frame that came was sent, however often it came. The run has the events in the
/// settled order, with a repeat before each event that gets a frame that comes again later. It is a settled run with
/// copies.
pub fn books_settle_with_copies()
    ensures { BooksSettleWithCopies }
{}

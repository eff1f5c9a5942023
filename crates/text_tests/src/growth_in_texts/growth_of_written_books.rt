//! If a growth is refused, a book is not written for lack of memory, and the text is as before.
use crate::book_tests::written_books::{TEXT, fill};
use crate::text_asserting::assert_same;
use ra_book::Book;
use ra_book_text::{WriteBookError, push_book};
use ra_stamp::Memory;
use std::process::Abort;
use test_support::{Tried, again, assert_grown, id, row};

/// What the text has before the book.
const EARLIER: &str = "earlier\n";

/// Writes the book after another text. If that is refused, memory ran out, and the text is as before.
fn try_push(rt: &(impl Abort + AllocGlobal), book: &Book) -> Result<Tried, Memory> {
    let mut text = String::new(rt.alloc());
    if text.push_str(EARLIER).is_err() {
        return Err(Memory);
    }
    match push_book(&mut text, book) {
        Ok(()) => {
            assert_same(rt, row("the book"), &text.as_str(), &TEXT);
            Ok(Tried::NoFailure)
        }
        Err(why) => {
            let at = row("the text before the book");
            assert_same(
                rt,
                at,
                &(why, text.as_str()),
                &(WriteBookError::Memory, EARLIER),
            );
            Err(Memory)
        }
    }
}

/// Makes the book, and writes it twice. If there is no book, or it is not filled, memory ran out.
fn try_book(rt: &(impl Abort + AllocGlobal)) -> Result<Tried, Memory> {
    let Ok(mut book) = Book::new(rt.alloc(), id(1), 2, 5) else {
        return Err(Memory);
    };
    fill(rt, &mut book)?;
    Ok(again(try_push(rt, &book), try_push(rt, &book)))
}

#[test]
fn growth_of_the_text_of_a_book(rt: HostRuntime) {
    assert_grown!(&rt, again(try_book(&rt), try_book(&rt)));
}

//! Books as they are written.
use crate::shared_texts::all_kinds;
use crate::text_asserting::assert_same;
use ra_book::{Book, BookError};
use ra_book_text::push_book;
use ra_stamp::{Memory, Mode, Name};
use std::alloc::Global;
use std::process::Abort;
use test_support::{assert_memory, id, r, row};

/// The REPLY of node 2 to the request of node 1 about `r` with number 6, at clock 9.
const REPLY: [u8; 25] = [
    2, 2, 0, 2, 0, 1, 0, 0, 0, 0, 0, 0, 0, 0, 6, 0, 0, 0, 0, 0, 0, 0, 9, 1, 114,
];

/// A text, and after it the book of node 1 of 2 with a start of 5. A client asks for `r`, another one is queued there,
/// node 2 replies, the first one leaves, and it asks for another name.
pub const TEXT: &str = "earlier\nbook 1 1 2 5\nask 7 r X\nask 4294967295 r SIX\n\
    receive 02020002000100000000000000000600000000000000090172\nrelease 7 r\nask 0 a-B_9.z IS\n";

/// A client asks for a name. Returns why the book does not take that, or `None` if it does.
fn fault_of_ask(
    alloc: Global,
    book: &mut Book,
    client: u32,
    name: Name,
    mode: Mode,
) -> Option<BookError> {
    book.ask(alloc, client, name, mode).err()
}

/// Looks at why a book did not take an event, if it did not. Asserts that memory ran out then.
fn judge(rt: &impl Abort, label: &str, fault: Option<BookError>) -> Result<(), Memory> {
    match fault {
        None => Ok(()),
        Some(fault) => Err(assert_memory!(rt, row(label), fault, BookError::Memory)),
    }
}

/// Does to a book what the text says.
///
/// # Errors
///
/// `Memory`: there is no memory for all of it.
pub fn fill(rt: &(impl Abort + AllocGlobal), book: &mut Book) -> Result<(), Memory> {
    let alloc = rt.alloc();
    let fault = fault_of_ask(alloc, book, 7, r(), Mode::Exclusive);
    judge(rt, "client 7 asks", fault)?;
    let fault = fault_of_ask(alloc, book, u32::MAX, r(), Mode::SharedIntentExclusive);
    judge(rt, "another client asks", fault)?;
    judge(rt, "node 2 replies", book.receive(alloc, &REPLY).err())?;
    judge(rt, "client 7 leaves", book.leave(alloc, 7, r()).err())?;
    let fault = fault_of_ask(alloc, book, 0, all_kinds(), Mode::IntentShared);
    judge(rt, "client 0 asks", fault)
}

#[test]
fn a_book_is_written_line_by_line(rt: HostRuntime) {
    let (at, mut text) = (row("the book"), String::new(rt.alloc()));
    let mut book = match Book::new(rt.alloc(), id(1), 2, 5) {
        Ok(book) => book,
        Err(fault) => panic!(rt; "{at}: there is none: {fault}"),
    };
    assert_same(&rt, at, &fill(&rt, &mut book), &Ok(()));
    assert_same(&rt, at, &text.push_str("earlier\n").is_ok(), &true);
    assert_same(&rt, at, &push_book(&mut text, &book), &Ok(()));
    assert_same(&rt, at, &text.as_str(), &TEXT);
}

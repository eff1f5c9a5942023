//! What is said about the run that books settle into.
use ra_book_text::settle_text;
use ra_explain::{WithdrawalScope, has_cancels, withdrawals_note};
use ra_stamp::Memory;
use ra_trace::trace_text;
use std::alloc::Global;

/// The most bytes of books that are settled once more for a note.
const MAX_BOOKS: usize = 1 << 24;

/// All withdrawals of a run, without their lines, since these are not lines of the books.
const RUN: WithdrawalScope = WithdrawalScope {
    has_lines: false,
    ..WithdrawalScope::WHOLE
};

/// Returns a note on the requests that are withdrawn in the run that the books of a text settle into, and on the
/// clients that went on because of that. Returns `None` if none is withdrawn, or if the text has more than 16,777,216
/// bytes. If a client gives up in the books, they are settled again, and the cost is that of the run. It does not
/// allocate otherwise.
///
/// # Errors
///
/// `Memory`: memory ran out.
pub fn settled_note(alloc: Global, text: &[u8], repeats: bool) -> Result<Option<String>, Memory> {
    if text.len() > MAX_BOOKS || !has_cancels(text) {
        return Ok(None);
    }
    let Ok(books) = settle_text(alloc, text, repeats) else {
        return Err(Memory);
    };
    let trace = trace_text(alloc, books.nodes, books.start, &books.settled.steps);
    // By a call, and before any exit: dropping each of its parts at an exit takes long to prove.
    drop(books);
    match trace {
        Ok(trace) => withdrawals_note(alloc, trace.as_bytes(), RUN),
        Err(_) => Err(Memory),
    }
}

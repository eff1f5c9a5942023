//! A line of a book as the event that it is.
ghost use Rattle.std.specs.Prelude.{◌≡◌, ◌≤◌, ◌++◌, ℕ, List, length, codes, IfOk, MatchOption, MatchResult};
ghost use Rattle.ra_book_text.specs.BookText.{IsEvent, IsNoLater, IsUnread};
ghost use Rattle.ra_book.specs.Timed.{CanCome};
ghost use Rattle.ra_book_text.specs.declared.answering.line_refusal.Refusal.{Refusal};

use crate::Refusal;
use crate::next_line::book_fields::{ask_of, cancel_of, leave_of};
use ra_book::BookKind;
use ra_frame::decode;
use ra_trace::rest_after;

/// The most bytes that a line has, without its line feed.
pub const MAX_LINE: usize = 256;

/// The most bytes that the digits of a line spell.
const MAX_BYTES: usize = MAX_LINE / 2;

/// Returns the event of digits after `receive `: the frame whose text they spell comes. It does not
/// allocate.
///
/// # Errors
///
/// The first that holds:
///
/// 1. `Hex`: they are an odd number, or not hexadecimal.
/// 2. `Frame`: the bytes are no frame, with the fault that [`decode`] names.
fn receive_line(digits: &[u8]) -> Result<BookKind, Refusal>
    requires { length digits.now ≤ 256 }
    ensures read { (line : List ℕ) → line ≡ codes "receive " ++ digits.now → length line ≤ 256
        → MatchResult result (IsEvent line) (IsUnread line) }
    ensures can_come { IfOk result CanCome }
{
    let mut room = [0; MAX_BYTES];
    let bytes = &mut room[..digits.len() / 2];
    if hex::decode_to_slice(digits, bytes).is_err() {
        return Err(Refusal::Hex);
    }
    match decode(bytes) {
        Ok(frame) => Ok(BookKind::Receive(frame)),
        Err(fault) => Err(Refusal::Frame(fault)),
    }
}

/// Returns the event that a line is, if only books of version 2 have it: a client gives up, or the node forgets names.
/// It does not allocate.
fn later_event_of(line: &[u8]) -> Option<BookKind>
    requires { length line.now ≤ 256 }
    ensures { MatchOption result (IsNoLater line.now) (IsEvent line.now) }
{
    if let Some(rest) = rest_after(b"cancel ", line) {
        return cancel_of(rest);
    }
    if line == b"forget".as_slice() {
        return Some(BookKind::Forget);
    }
    None
}

/// Returns the event that a line is, without its line feed, in a book of version 2. One of version 1 has the same
/// events, without cancels and forgetting. It does not allocate, and the cost is linear in the line.
///
/// # Errors
///
/// The first that holds:
///
/// 1. `Line`: it has none of the forms of lines, or more than 256 bytes.
/// 2. `Hex`: the digits are an odd number, or not hexadecimal.
/// 3. `Frame`: the bytes are no frame, with the fault that [`decode`] names.
pub fn event_of(line: &[u8]) -> Result<BookKind, Refusal>
    ensures read { MatchResult result (IsEvent line.now) (IsUnread line.now) }
    ensures can_come { IfOk result CanCome }
{
    if line.len() > MAX_LINE {
        return Err(Refusal::Line);
    }
    if let Some(digits) = rest_after(b"receive ", line) {
        return receive_line(digits);
    }
    let read = if let Some(rest) = rest_after(b"ask ", line) {
        ask_of(rest)
    } else if let Some(rest) = rest_after(b"release ", line) {
        leave_of(rest)
    } else {
        later_event_of(line)
    };
    match read {
        Some(kind) => Ok(kind),
        None => Err(Refusal::Line),
    }
}

//! The text of a book.
ghost use Rattle.std.specs.Prelude.{◌≡◌, ◌≤◌, ◌↔◌, ◌++◌, [], ℕ, List, decimal, length, string_bytes, IfOk, IsErrOf, MatchBool, OnOk, OnErr};
ghost use Rattle.std.specs.List.{Any};
ghost use Rattle.hex.specs.Hex.{IsBytes, encode_lower};
ghost use Rattle.ra_stamp.specs.Name.{IsName};
ghost use Rattle.ra_frame.specs.Fits.{Fits};
ghost use Rattle.ra_text.specs.Drafting.{Adds};
ghost use Rattle.ra_text.specs.Lines.{field};
ghost use Rattle.ra_trace.specs.TraceText.{IsClientNumber};
ghost use Rattle.ra_book.specs.declared.book.event.BookKind.{BookKind};
ghost use Rattle.ra_book_text.specs.Written.{AddsEvent, AddsLines, IsUnfit, IsWrittenBook, version_for};
ghost use Rattle.ra_book_text.specs.declared.book_writing.WriteBookError.{WriteBookError};

use crate::BookVersion;
use ra_book::{Book, BookEvent, BookKind};
use ra_frame::{Frame, MAX_FRAME, encoded};
use ra_stamp::{Memory, Name};
use ra_text::Draft;
use std::alloc::{AllocError, Global};
use std::fmt;
use thiserror::Error;

/// Why the text of a book is not written.
#[derive(Clone, Copy, Debug, PartialEq, Eq, Error)]
pub enum WriteBookError {
    /// A frame that came does not fit, so that it has no text.
    Unfit,
    /// Memory ran out.
    Memory,
}

impl fmt::Display for WriteBookError {
    fn fmt<W: fmt::Write>(&self, f: &mut fmt::Formatter<W>) -> fmt::Result {
        fmt::Debug::fmt(self, f)
    }
}

impl From<Memory> for WriteBookError {
    ghost use Rattle.ra_book_text.specs.declared.book_writing.WriteBookError.TheVariants.{Memory};

    ghost from_gives = { λ _ fault. fault ≡ Memory };

    fn from(_refused: Memory) -> WriteBookError {
        WriteBookError::Memory
    }
}

impl From<AllocError> for WriteBookError {
    ghost use Rattle.ra_book_text.specs.declared.book_writing.WriteBookError.TheVariants.{Memory};

    ghost from_gives = { λ _ fault. fault ≡ Memory };

    fn from(_refused: AllocError) -> WriteBookError {
        WriteBookError::Memory
    }
}

/// Adds a word, a client and a name.
fn push_client(text: &mut Draft, word: &str, client: u32, name: &Name)
    ensures text { Adds text.old (word.now ++ field (decimal client) ++ field name.now) text.new }
    // A client has 32 bits, and a name is one.
    ensures fits { IsClientNumber client × IsName name.now }
{
    // For the proof: the bytes of a name are one.
    let _ = name.bytes();
    text.push(word);
    text.push_number(client);
    text.push_field(name.as_str());
}

/// Adds bytes as hexadecimal digits in lower case, with the space before them.
fn push_bytes(text: &mut Draft, bytes: &[u8])
    requires { length bytes.now ≤ 56 }
    ensures text { Adds text.old (field (encode_lower bytes.now)) text.new }
    ensures bytes { IsBytes bytes.now × (length bytes.now ≤ 56) }
{
    let mut room = [0; 2 * MAX_FRAME];
    let digits = &mut room[..2 * bytes.len()];
    hex::encode_to_slice(bytes, digits).unwrap();
    text.push_field(str::from_utf8(digits).unwrap());
}

/// Adds the line of a frame that comes. Returns whether it fits: otherwise it has no text, and nothing is added.
fn push_frame(text: &mut Draft, frame: &Frame) -> bool
    ensures { MatchBool result (AddsEvent text.old text.new (BookKind.Receive frame.now)) (Fits frame.now → ⊥) }
{
    if !frame.fits() {
        return false;
    }
    let bytes = encoded(frame);
    text.push("receive");
    push_bytes(text, bytes.as_slice());
    text.end_line();
    true
}

/// Adds the line of an event. Returns whether it has one: a frame that does not fit has none.
fn push_event(text: &mut Draft, kind: &BookKind) -> bool
    ensures { MatchBool result (AddsEvent text.old text.new kind.now) (IsUnfit kind.now) }
{
    match kind {
        BookKind::Ask { client, name, mode } => {
            push_client(text, "ask", *client, name);
            text.push_field(mode.word());
            text.end_line();
            true
        }
        BookKind::Leave { client, name } => {
            push_client(text, "release", *client, name);
            text.end_line();
            true
        }
        BookKind::Cancel { client, name } => {
            push_client(text, "cancel", *client, name);
            text.end_line();
            true
        }
        BookKind::Receive(frame) => push_frame(text, frame),
        BookKind::Forget => {
            text.push("forget");
            text.end_line();
            true
        }
    }
}

/// Returns the version in which these events are written: the first one that has all of them. The cost is linear in
/// their number.
fn version_of(events: &[BookEvent]) -> BookVersion
    ensures { result ≡ version_for events.now }
{
    for event in events {
        if !BookVersion::One.allows(&event.kind) {
            return BookVersion::Two;
        }
    }
    BookVersion::One
}

/// Returns the text of a book: its first line, and then the lines of its events, in order.
///
/// # Errors
///
/// Those of `push_book`.
fn book_text(alloc: Global, book: &Book) -> Result<String, WriteBookError>
    ensures ok { IfOk result (λ text. (lines : List (List ℕ)) × IsWrittenBook lines book.now
        × AddsLines [] (string_bytes text) lines) }
    ensures unfit { IsErrOf result WriteBookError.Unfit ↔ Any (λ event. IsUnfit event.kind) book.now.events }
{
    let mut text = Draft::new(alloc);
    let version = version_of(book.events().as_slice());
    text.push(version.words());
    text.push_number(book.me().get());
    text.push_number(book.nodes());
    text.push_number(book.start());
    text.end_line();
    for event in book.events().as_slice() {
        if !push_event(&mut text, &event.kind) {
            return Err(WriteBookError::Unfit);
        }
    }
    Ok(text.finish()?)
}

/// Adds the text of a book, which `ra settle` reads as this book: its first line, and then a line for each event in
/// order. It is of version 2 if a client gave up or the node forgot names, and otherwise of version 1. The frames that
/// came are in version 2, in lower case. What the node sent is in no line, as the events decide it, nor are the frames
/// that are flagged lost, a fault, or what was taken from the book. The cost is linear in the number of events, and the
/// text grows in amortized linear time. The book is written by itself first, so it takes room for its text twice.
///
/// # Errors
///
/// The text is as before.
///
/// 1. `Unfit`: a frame that came does not fit. No frame that [`Book::receive`] took is one.
/// 2. `Memory`: memory ran out, and no such frame came.
pub fn push_book(text: &mut String, book: &Book) -> Result<(), WriteBookError>
    ensures ok { OnOk result ((lines : List (List ℕ)) × IsWrittenBook lines book.now
        × AddsLines (string_bytes text.old) (string_bytes text.new) lines) }
    ensures err { OnErr result (string_bytes text.new ≡ string_bytes text.old) }
    ensures unfit { IsErrOf result WriteBookError.Unfit ↔ Any (λ event. IsUnfit event.kind) book.now.events }
{
    let written = book_text(*text.allocator(), book)?;
    text.push_str(written.as_str())?;
    Ok(())
}

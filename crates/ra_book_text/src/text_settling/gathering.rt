//! The books of a text, as they are gathered line by line.
ghost use Rattle.std.specs.Prelude.{◌↔◌, ℕ, List, All, IsTrue, MatchBool};
ghost use Rattle.std.specs.List.{Any};
ghost use Rattle.ra_book_text.specs.BookText.{IsFirst};
ghost use Rattle.ra_book_text.specs.declared.next_line.book_version.BookVersion.{BookVersion};
ghost use Rattle.ra_book_text.specs.Texts.{IsBeside};
ghost use Rattle.ra_book_text.specs.Gathering.{TakesEvent, TakesFirst, TakesLine};

use crate::text_settling::came_frames::{CameList, note};
use crate::text_settling::recording::record_event;
use crate::{BookVersion, FirstLine, Refusal, TextCause, event_of};
use ra_book::{Book, BookError};
use std::alloc::Global;
use std::mem::replace;

/// The books that were read so far, in the order of the text, and what came to their nodes.
#[derive(Drop)]
pub struct Gathered {
    /// Those before the last one. There is room for the last one after them, so that no room is wanted once all lines
    /// are read.
    pub earlier: Vec<Book>,
    /// The one whose lines are read.
    pub last: Book,
    /// The version in which they are read.
    pub version: BookVersion,
    pub came: CameList,
}

/// Why a line is not taken.
#[derive(Clone, Copy)]
pub enum LineFault {
    /// It is wrong, for this cause.
    Wrong(TextCause),
    /// Memory ran out.
    Memory,
}

/// Returns whether a book is of another node than this first line, of as many nodes and from the same start. It does
/// not allocate.
fn is_beside(book: &Book, first: &FirstLine) -> bool
    ensures { IsTrue result ↔ IsBeside first.now.member.node first.now.member.nodes first.now.start book.now }
{
    book.me() != first.member.node()
        && book.nodes() == first.member.nodes()
        && book.start() == first.start
}

/// Returns whether each of the books is beside this first line. It does not allocate.
fn are_beside(books: &[Book], first: &FirstLine) -> bool
    ensures { MatchBool result (All (IsBeside first.now.member.node first.now.member.nodes first.now.start) books.now)
        (Any (λ book. IsBeside first.now.member.node first.now.member.nodes first.now.start book → ⊥) books.now) }
{
    for book in books {
        if !is_beside(book, first) {
            return false;
        }
    }
    true
}

impl Gathered {
    /// Begins a book.
    ///
    /// # Errors
    ///
    /// `Wrong` with `Books`: its node has a book already, or the number of nodes or the start is another one. Otherwise
    /// `Memory`.
    fn open(&mut self, alloc: Global, first: &FirstLine) -> Result<(), LineFault>
        ensures { (line : List ℕ)
            → IsFirst line first.now.version first.now.member.node first.now.member.nodes first.now.start
            → TakesFirst self.old line self.new result }
    {
        if !is_beside(&self.last, first) {
            return Err(LineFault::Wrong(TextCause::Books));
        }
        if !are_beside(&self.earlier, first) {
            return Err(LineFault::Wrong(TextCause::Books));
        }
        // One for the book whose lines were read, and one for the book that begins.
        if self.earlier.reserve(2).is_err() {
            return Err(LineFault::Memory);
        }
        let book = Book::of(alloc, first.member, first.start);
        let earlier = replace(&mut self.last, book);
        self.earlier.push_reserved(earlier);
        self.version = first.version;
        Ok(())
    }

    /// Takes a line that is no first line.
    ///
    /// # Errors
    ///
    /// `Wrong` with `Line`: it has none of the forms of lines in the version of its book. `Wrong` with `Refused`: its
    /// digits are no frame, or the node of the last book does not take the event. Otherwise `Memory`.
    fn take_event(&mut self, alloc: Global, number: u64, line: &[u8]) -> Result<(), LineFault>
        ensures { ((version : BookVersion) (node nodes start : ℕ) → IsFirst line.now version node nodes start → ⊥)
            → TakesEvent self.old number line.now self.new result }
    {
        let kind = match event_of(line) {
            Ok(kind) if !self.version.allows(&kind) => return Err(LineFault::Wrong(
                TextCause::Line,
            )),
            Ok(kind) => kind,
            Err(Refusal::Line) => return Err(LineFault::Wrong(TextCause::Line)),
            Err(_) => return Err(LineFault::Wrong(TextCause::Refused)),
        };
        match record_event(alloc, &mut self.last, &kind) {
            Ok(()) => match note(&mut self.came, number, &kind) {
                Ok(()) => Ok(()),
                Err(_) => Err(LineFault::Memory),
            },
            Err(BookError::Memory) => Err(LineFault::Memory),
            Err(_) => Err(LineFault::Wrong(TextCause::Refused)),
        }
    }

    /// Takes the line of this number, which comes after those so far. It costs what the event costs at its node. For
    /// the first line of a book, the cost is linear in the number of books.
    ///
    /// # Errors
    ///
    /// `Wrong`: the line is wrong, with the cause. Otherwise `Memory`.
    pub fn take_line(&mut self, alloc: Global, number: u64, line: &[u8]) -> Result<(), LineFault>
        ensures { TakesLine self.old number line.now self.new result }
    {
        match FirstLine::parse(line) {
            Some(first) => self.open(alloc, &first),
            None => self.take_event(alloc, number, line),
        }
    }
}

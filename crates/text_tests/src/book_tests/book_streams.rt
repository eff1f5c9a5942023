//! What is written before more input is waited for.
use crate::text_asserting::assert_same;
use ra_book_text::{BookFault, answer_book};
use std::alloc::Global;
use std::cell::Cell;
use std::io;
use std::io::{BufRead, ErrorKind, Read, Write};
use std::process::Abort;
use test_support::row;

/// Returns how a book of one node ends, if its answers go to this writer.
fn answered<B: BufRead, W: Write>(
    alloc: Global,
    reader: &mut B,
    writer: &mut W,
) -> Result<(), BookFault> {
    answer_book(alloc, reader, writer)
}

/// How many bytes were passed on.
#[derive(Drop)]
struct Passed<'a> {
    written: usize,
    passed: &'a Cell<usize>,
}

impl Write for Passed<'_> {
    fn write(&mut self, buf: &[u8]) -> io::Result<usize> {
        self.written = self.written.wrapping_add(buf.len());
        Ok(buf.len())
    }

    fn flush(&mut self) -> io::Result<()> {
        self.passed.set(self.written);
        Ok(())
    }
}

/// Shows a text piece by piece, and notes how much was passed on whenever it is asked for a piece that it has not
/// shown.
#[derive(Drop)]
struct Waiting<'a> {
    pieces: &'a [&'a str],
    /// What is left of the piece that is shown.
    shown: &'a [u8],
    passed: &'a Cell<usize>,
    noted: Vec<usize>,
}

impl Waiting<'_> {
    /// Shows the next piece if nothing is left of the one before, and notes that.
    ///
    /// # Errors
    ///
    /// `OutOfMemory`: there is none for the note.
    fn show(&mut self) -> io::Result<()> {
        if !self.shown.is_empty() {
            return Ok(());
        }
        if self.noted.push(self.passed.get()).is_err() {
            return Err(ErrorKind::OutOfMemory.into());
        }
        if let [next, rest @ ..] = self.pieces {
            self.shown = next.as_bytes();
            self.pieces = rest;
        }
        Ok(())
    }
}

impl Read for Waiting<'_> {
    fn read(&mut self, buf: &mut [u8]) -> io::Result<usize> {
        self.show()?;
        let count = self.shown.len().min(buf.len());
        buf[..count].copy_from_slice(&self.shown[..count]);
        self.shown = &self.shown[count..];
        Ok(count)
    }
}

impl BufRead for Waiting<'_> {
    fn fill_buf(&mut self) -> io::Result<&[u8]> {
        self.show()?;
        Ok(self.shown)
    }

    fn consume(&mut self, amount: usize) {
        self.shown = &self.shown[amount.min(self.shown.len())..];
    }
}

/// Asserts that all answers are passed on before each piece that a reader shows.
fn assert_passed_on(
    rt: &(impl Abort + AllocGlobal),
    reader: &mut Waiting<'_>,
    writer: &mut Passed<'_>,
) {
    let came = answered(rt.alloc(), reader, writer);
    assert_same(rt, row("the end"), &came, &Ok(()));
    // `ok` has 3 bytes, the answer to the ask 43, that to the wrong line 13, and that to the leave 22.
    let expected: &[usize] = &[0, 3, 46, 59, 81, 81];
    let noted = reader.noted.as_slice();
    let at = row("the bytes passed on before each piece");
    assert_same(rt, at, &noted, &expected);
}

/// All that is answered is passed on whenever more input may have to be waited for, also in the middle of a line.
#[test]
fn answers_are_passed_on_before_more_is_waited_for(rt: HostRuntime) {
    let passed = Cell::new(0);
    let mut reader = Waiting {
        pieces: &[
            "book 1 1 1 0\nas",
            "k 7 door X\nno",
            " line\n",
            "release 7 door\n",
        ],
        shown: b"",
        passed: &passed,
        noted: Vec::new(rt.alloc()),
    };
    let mut writer = Passed {
        written: 0,
        passed: &passed,
    };
    assert_passed_on(&rt, &mut reader, &mut writer);
}

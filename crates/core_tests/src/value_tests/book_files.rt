//! The files of books: what is found when they are opened again, and when they cannot be opened.
use crate::core_asserting::assert_same;
use Appends::{Lines, Nothing, OneLine};
use Before::{Holds, IsKept, IsMissing};
use ra_disk::{Book, DiskFile, FileError, OpenError};
use std::fs;
use test_support::{part, row};

/// What there is before a file is opened.
enum Before {
    IsMissing,
    /// What the row before left.
    IsKept,
    /// These bytes.
    Holds(&'static [u8]),
}

/// What is appended to an open book.
enum Appends {
    Nothing,
    /// `3`.
    OneLine,
    /// `1` and `2`, which are synced, and then an empty line.
    Lines,
}

/// A file that is opened as a book and closed.
struct Row {
    shows: &'static str,
    before: Before,
    found: &'static [u8],
    appends: Appends,
    after: &'static [u8],
}

/// Appends lines to a book.
///
/// # Errors
///
/// Why it does not.
fn append(book: &mut Book<DiskFile>, appends: &Appends) -> Result<(), FileError> {
    match appends {
        Nothing => Ok(()),
        OneLine => book.append(&[51, 10]),
        Lines => {
            book.append(&[49, 10, 50, 10])?;
            book.sync()?;
            book.append(&[10])
        }
    }
}

/// Opens a file as a book, appends lines and closes it. Returns what was found, and whether the file is a book and the
/// lines were appended.
fn found(rt: &HostRuntime, path: &str, appends: &Appends) -> (Vec<u8>, bool) {
    if let Ok(file) = DiskFile::open(rt, path) {
        if let Ok((mut book, text)) = Book::open(rt.alloc(), file) {
            return (text, append(&mut book, appends).is_ok());
        }
    }
    (Vec::new(rt.alloc()), false)
}

/// Returns what a file holds, or nothing if it cannot be read.
fn held(rt: &HostRuntime, path: &str) -> Vec<u8> {
    match fs::read(rt, path) {
        Ok(held) => held,
        Err(_) => Vec::new(rt.alloc()),
    }
}

/// Makes the file of a row as it is before. Returns what is found in it, and whether the lines were appended.
fn found_by(rt: &HostRuntime, path: &str, row: &Row) -> (Vec<u8>, bool) {
    let _prepared = match &row.before {
        IsMissing => fs::remove_file(rt, path),
        IsKept => Ok(()),
        Holds(bytes) => fs::write(rt, path, *bytes),
    };
    found(rt, path, &row.appends)
}

const ROWS: &[Row] = &[
    Row {
        shows: "a new file",
        before: IsMissing,
        found: b"",
        appends: Lines,
        after: b"1\n2\n\n",
    },
    Row {
        shows: "its lines",
        before: IsKept,
        found: b"1\n2\n\n",
        appends: Nothing,
        after: b"1\n2\n\n",
    },
    Row {
        shows: "a torn line",
        before: Holds(b"one\ntwo\nthr"),
        found: b"one\ntwo\n",
        appends: Nothing,
        after: b"one\ntwo\n",
    },
    Row {
        shows: "a torn line, and a line after it",
        before: Holds(b"one\ntwo\nthr"),
        found: b"one\ntwo\n",
        appends: OneLine,
        after: b"one\ntwo\n3\n",
    },
    Row {
        shows: "no line",
        before: Holds(b"no line"),
        found: b"",
        appends: Nothing,
        after: b"",
    },
];

#[test]
fn whole_lines_are_found_again_and_a_torn_one_is_cut(rt: HostRuntime) {
    let path = "book_files_lines.book";
    for row in ROWS {
        let (text, appended) = found_by(&rt, path, row);
        let (at, came) = (
            part(row.shows, "what is found"),
            (text.as_slice(), appended),
        );
        assert_same(&rt, at, &came, &(row.found, true));
        let (at, held) = (part(row.shows, "what it holds"), held(&rt, path));
        assert_same(&rt, at, &held.as_slice(), &row.after);
    }
    let _removed = fs::remove_file(&rt, path);
}

/// Returns whether a file is opened, is busy, or cannot be opened.
fn opens(rt: &HostRuntime, path: &str) -> &'static str {
    match DiskFile::open(rt, path) {
        Ok(_) => "is opened",
        Err(OpenError::Busy) => "is busy",
        Err(OpenError::Io(_)) => "is no file",
        Err(OpenError::Memory) => "has no memory",
    }
}

#[test]
fn one_process_at_a_time_opens_a_file_and_nothing_else(rt: HostRuntime) {
    let path = "book_files_busy.book";
    let file = DiskFile::open(&rt, path);
    assert_same(&rt, row("an open file"), &opens(&rt, path), &"is busy");
    drop(file);
    assert_same(&rt, row("a closed file"), &opens(&rt, path), &"is opened");
    let _removed = fs::remove_file(&rt, path);
    for path in ["/dev/null", "/", "missing/a.book"] {
        assert_same(&rt, row(path), &opens(&rt, path), &"is no file");
    }
}

use std::fmt;
use thiserror::Error;

/// Why a call of a book's file failed. After one, the book has to be opened again.
#[derive(Clone, Copy, Debug, PartialEq, Eq, Error)]
pub enum FileError {
    /// The file can't be read.
    Read,
    /// Lines can't be written, as on a full disk.
    Write,
    /// The file can't be cut or synced.
    Disk,
    /// There is no memory for what was read.
    Memory,
}

impl fmt::Display for FileError {
    fn fmt<W: fmt::Write>(&self, f: &mut fmt::Formatter<W>) -> fmt::Result {
        fmt::Debug::fmt(self, f)
    }
}

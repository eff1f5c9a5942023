ghost use Rattle.std.specs.Prelude.{◌≡◌, ◌<◌, ◌⊎◌, ◌∷◌, [], true, length, IfOk, IfErr, None};
ghost use Rattle.ra_disk.specs.declared.error.FileError.TheVariants.{Write, Disk, Memory};
ghost use Rattle.ra_disk.specs.Lines.{whole, IsWhole};
ghost use Rattle.ra_disk.specs.Book.{IsReady};
ghost use Rattle.ra_disk.specs.Book.Event.{Appends, Syncs};

use crate::{BookFile, FileError};
use std::alloc::Global;

const LINE_FEED: u8 = 10;

/// The file of a book, open: whole lines, and more of them can be appended. After a call that failed each other one
/// fails in the same way.
#[derive(Drop)]
pub struct Book<F: BookFile> {
    file: F,
    failed: Option<FileError>,
    ghost ready: { failed ≡ None → IsReady (F.BookFile.contents file) },
}

/// Returns the length of the text without what follows its last line feed. It looks at what follows alone.
fn whole_len(text: &[u8]) -> usize
    ensures { result ≡ length (whole text.now) }
{
    let mut len = text.len();
    while len > 0 && text[len - 1] != LINE_FEED {
        len -= 1;
    }
    len
}

impl<F: BookFile> Book<F> {
    ghost use Rattle.ra_disk.specs.Handle.{Does, FailsToOpen, IsOpened};

    /// Opens a file: cuts what follows its last line feed, a torn line, syncs the rest, and returns it as text. It
    /// takes time by the length of the file.
    ///
    /// # Errors
    ///
    /// Each comes with the file. The first that holds:
    ///
    /// 1. `Read`, `Memory`: the file can't be read, or there is no memory for its text. It is then unchanged.
    /// 2. `Disk`: it can't be cut or synced. It then holds what a crash after the cut may leave.
    pub fn open(alloc: Global, mut file: F) -> Result<(Book<F>, Vec<u8>), (FileError, F)>
        requires { F.is_unread file ≡ true }
        ensures ok { IfOk result (λ r. IsOpened file r.0 r.1.items) }
        ensures err { IfErr result (λ e. FailsToOpen F.BookFile file e) }
        ensures cause { IfErr result (λ e. (e.0 ≡ Memory) ⊎ (F.faults file < F.faults e.1)) }
    {
        let mut text = match file.read(alloc) {
            Ok(text) => text,
            Err(error) => return Err((error, file)),
        };
        let len = whole_len(&text);
        if let Err(error) = file.cut(len) {
            return Err((error, file));
        }
        if let Err(error) = file.sync() {
            return Err((error, file));
        }
        text.truncate(len);
        Ok((Book { file, failed: None }, text))
    }

    /// Appends lines, each ended by a line feed. A crash may take them until `sync`. It takes time by their length.
    ///
    /// # Errors
    ///
    /// The first that holds:
    ///
    /// 1. The error of a call that failed before. The file is then unchanged.
    /// 2. `Write`: the file fails. It may have some of the bytes.
    pub fn append(&mut self, lines: &[u8]) -> Result<(), FileError>
        requires { IsWhole lines.now }
        ensures { (are : IsWhole lines.now) → let events = Appends lines.now are ∷ [] in
            Does self.old self.new result events events Write }
    {
        if let Some(error) = self.failed {
            return Err(error);
        }
        let outcome = self.file.append(lines);
        self.failed = outcome.err();
        outcome
    }

    /// Syncs the file: all lines that were appended are on the disk then.
    ///
    /// # Errors
    ///
    /// The first that holds:
    ///
    /// 1. The error of a call that failed before. The file is then unchanged.
    /// 2. `Disk`: the file fails. A crash may take what was not synced.
    pub fn sync(&mut self) -> Result<(), FileError>
        ensures { Does self.old self.new result (Syncs ∷ []) [] Disk }
    {
        if let Some(error) = self.failed {
            return Err(error);
        }
        let outcome = self.file.sync();
        self.failed = outcome.err();
        outcome
    }
}

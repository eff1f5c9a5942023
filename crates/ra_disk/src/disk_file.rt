//! A file of the operating system. Each method makes its call, and then notes it with its answer: what the file holds
//! is read off these notes. So it is trusted, and not proved, that the file holds what its calls say.
ghost use Rattle.std.specs.Prelude.{◌≡◌, [], ◌∷◌, Some, is_some};
ghost use Rattle.ra_disk.specs.Contents.{seen};
ghost use Rattle.ra_disk.specs.Calls.{opened, held, held_before, failures};

use crate::record::Record;
use crate::{BookFile, FileError};
use std::alloc::Global;
use std::fs;
use std::io::Write;

pub(crate) const OPENED: u64 = 0;

pub(crate) const APPENDED: u64 = 1;

pub(crate) const CUT: u64 = 2;

pub(crate) const SYNCED: u64 = 3;

pub(crate) const CRASHED: u64 = 4;

/// A book's file of the operating system, locked for this process.
#[derive(Drop)]
pub struct DiskFile {
    file: fs::File,
    /// What was read as it was opened, until `read` takes it.
    found: Option<Vec<u8>>,
    record: Record,
    ghost whole: { (v : _) → found ≡ Some v → v.items ≡ seen (held record.calls) },
}

impl DiskFile {
    /// Makes the file of an open one that holds these bytes.
    pub(crate) fn new(file: fs::File, found: Vec<u8>) -> DiskFile
        ensures calls { result.record.calls ≡ opened found.items ∷ [] }
        ensures found { result.found ≡ Some found }
    {
        let mut record = Record::new();
        record.note(&[OPENED, 0, 1], &found);
        DiskFile {
            file,
            found: Some(found),
            record,
        }
    }
}

impl BookFile for DiskFile {
    ghost contents = { λ f. held f.record.calls };

    ghost past = { λ f. held_before f.record.calls };

    ghost is_unread = { λ f. is_some f.found };

    ghost faults = { λ f. failures f.record.calls };

    fn read(&mut self, _alloc: Global) -> Result<Vec<u8>, FileError> {
        match self.found.take() {
            Some(bytes) => Ok(bytes),
            // Its requirement keeps this from happening.
            None => unreachable!(),
        }
    }

    fn append(&mut self, bytes: &[u8]) -> Result<(), FileError> {
        self.found = None;
        match self.file.write_all(bytes) {
            Ok(()) => {
                self.record.note(&[APPENDED, 0, 1], bytes);
                Ok(())
            }
            Err(_) => {
                self.record.note(&[APPENDED, 0, 0], bytes);
                Err(FileError::Write)
            }
        }
    }

    fn cut(&mut self, size: usize) -> Result<(), FileError> {
        self.found = None;
        match self.file.set_len(size as u64) {
            Ok(()) => {
                self.record.note(&[CUT, size as u64, 1], &[]);
                Ok(())
            }
            Err(_) => {
                self.record.note(&[CUT, size as u64, 0], &[]);
                Err(FileError::Disk)
            }
        }
    }

    fn sync(&mut self) -> Result<(), FileError> {
        self.found = None;
        match self.file.sync_data() {
            Ok(()) => {
                self.record.note(&[SYNCED, 0, 1], &[]);
                Ok(())
            }
            Err(_) => {
                self.record.note(&[SYNCED, 0, 0], &[]);
                Err(FileError::Disk)
            }
        }
    }
}

ghost use Rattle.std.specs.Prelude.{◌≡◌, ◌≤◌, length, true, min};
ghost use Rattle.ra_disk.specs.Contents.{seen, crashes};
ghost use Rattle.ra_disk.specs.Calls.{held, held_before, failures};

use crate::disk_file::{APPENDED, CRASHED, CUT, OPENED, SYNCED};
use crate::record::Record;
use crate::{BookFile, FileError};
use std::alloc::Global;

/// A file in memory that can be made to crash, for tests.
#[derive(Drop)]
pub struct MemoryFile {
    bytes: Vec<u8>,
    kept: usize,
    is_unread: bool,
    record: Record,
    ghost same: { bytes.items ≡ seen (held record.calls) },
    ghost same_kept: { kept ≡ (held record.calls).kept },
    ghost within: { kept ≤ length bytes.items },
}

impl MemoryFile {
    ghost use Rattle.ra_disk.specs.File.{is_unread_memory, memory_contents};

    /// Makes a file with these bytes, which may be on no disk yet.
    pub fn new(bytes: Vec<u8>) -> MemoryFile
        ensures bytes { seen (memory_contents result) ≡ bytes.items }
        ensures unread { is_unread_memory result ≡ true }
    {
        let mut record = Record::new();
        record.note(&[OPENED, 0, 1], &bytes);
        MemoryFile {
            bytes,
            kept: 0,
            is_unread: true,
            record,
        }
    }

    /// Returns the bytes that a read returns.
    pub fn bytes(&self) -> &[u8]
        ensures { result.now ≡ seen (memory_contents self.now) }
    {
        &self.bytes
    }

    /// Crashes: `size` bytes are left, but no more than there are, and no fewer than were synced. The file may be
    /// opened again.
    pub fn crash(&mut self, size: usize)
        ensures crashed { let old = memory_contents self.old in
            memory_contents self.new ≡ crashes (min size (length (seen old))) old }
        ensures unread { is_unread_memory self.new ≡ true }
    {
        let left = size.min(self.bytes.len()).max(self.kept);
        self.record.note(&[CRASHED, left as u64, 1], &[]);
        self.bytes.truncate(left);
        self.is_unread = true;
    }
}

impl BookFile for MemoryFile {
    ghost contents = { λ f. held f.record.calls };

    ghost past = { λ f. held_before f.record.calls };

    ghost is_unread = { λ f. f.is_unread };

    ghost faults = { λ f. failures f.record.calls };

    fn read(&mut self, alloc: Global) -> Result<Vec<u8>, FileError> {
        self.is_unread = false;
        self.bytes.to_vec(alloc).map_err(|_| FileError::Memory)
    }

    fn append(&mut self, bytes: &[u8]) -> Result<(), FileError> {
        self.is_unread = false;
        match self.bytes.extend_from_slice(bytes) {
            Ok(()) => {
                self.record.note(&[APPENDED, 0, 1], bytes);
                Ok(())
            }
            Err(_) => {
                self.record.note(&[APPENDED, 0, 0], bytes);
                self.bytes.truncate(self.kept);
                Err(FileError::Write)
            }
        }
    }

    fn cut(&mut self, size: usize) -> Result<(), FileError> {
        self.is_unread = false;
        self.record.note(&[CUT, size as u64, 1], &[]);
        self.bytes.truncate(size);
        self.kept = self.kept.min(size);
        Ok(())
    }

    fn sync(&mut self) -> Result<(), FileError> {
        self.is_unread = false;
        self.record.note(&[SYNCED, 0, 1], &[]);
        self.kept = self.bytes.len();
        Ok(())
    }
}

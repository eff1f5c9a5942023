ghost use Rattle.std.specs.Prelude.{◌≡◌, true, IfOk};
ghost use Rattle.ra_disk.specs.File.{is_unread_file};
ghost use Rattle.ra_disk.specs.Opening.{IsCauseOfCall, IsCauseOfLock};

use crate::DiskFile;
use std::fs::{self, File, OpenOptions, TryLockError};
use std::io::{self, Read};
use std::os::fd::AsRawFd;
use std::{error, fmt};

/// Why a book's file can't be opened.
#[derive(Clone, Copy, Debug)]
pub enum OpenError {
    /// A call of the operating system failed, or there is something other than a file.
    Io(io::Error),
    /// Another process has the book open.
    Busy,
    /// There is no memory for what the file holds.
    Memory,
}

impl From<io::Error> for OpenError {
    ghost from_gives = { IsCauseOfCall };

    fn from(error: io::Error) -> OpenError {
        match error.kind() {
            io::ErrorKind::OutOfMemory => OpenError::Memory,
            _ => OpenError::Io(error),
        }
    }
}

impl From<TryLockError> for OpenError {
    ghost from_gives = { IsCauseOfLock };

    fn from(error: TryLockError) -> OpenError {
        match error {
            TryLockError::WouldBlock => OpenError::Busy,
            TryLockError::Error(error) => OpenError::from(error),
        }
    }
}

impl fmt::Display for OpenError {
    fn fmt<W: fmt::Write>(&self, f: &mut fmt::Formatter<W>) -> fmt::Result {
        match self {
            OpenError::Io(error) => write!(f, "{error}"),
            OpenError::Busy => f.write_str("another process has the book open"),
            OpenError::Memory => f.write_str("out of memory"),
        }
    }
}

impl error::Error for OpenError {}

impl DiskFile {
    /// Opens the file at the path, which is made if it is missing, syncs it with its folder, and reads it. Until it is
    /// dropped, each other opening of it is refused. It takes time by the length of the file. What it does before it
    /// reads no clause says: that the file is locked and on the disk then, with its name, is trusted.
    ///
    /// # Errors
    ///
    /// The first that holds:
    ///
    /// 1. `Io`: it can't be opened or made, or there is something other than a file.
    /// 2. `Busy`: another process or handle has it open.
    /// 3. `Io`: it can't be locked, synced or read.
    ///
    /// In place of `Io`, `Memory` comes if the call failed for lack of memory.
    pub fn open(rt: &HostRuntime, path: &str) -> Result<DiskFile, OpenError>
        ensures { IfOk result (λ file. is_unread_file file ≡ true) }
    {
        let mut file = open_locked(rt, path)?;
        sync_whole(rt, &file, path)?;
        let mut found = Vec::new(rt.alloc());
        file.read_to_end(&mut found)?;
        Ok(DiskFile::new(file, found))
    }
}

/// Opens the file at the path, which is made if it is missing, and locks it.
fn open_locked(rt: &HostRuntime, path: &str) -> Result<File, OpenError> {
    let mut file = OpenOptions::new()
        .read(true)
        .append(true)
        .create(true)
        .open(rt, path)?;
    // What is meant for a standard stream that was closed must not land in the book.
    if file.as_raw_fd() <= 2 {
        file = file.try_clone()?;
    }
    if !file.metadata()?.is_file() {
        return Err(OpenError::Io(io::ErrorKind::Unsupported.into()));
    }
    file.try_lock()?;
    Ok(file)
}

/// Syncs the file and its folder. If a sync of an earlier process failed, the kernel may keep the file otherwise than
/// the disk has it, and sync no more: then the machine has to be started again first.
fn sync_whole(rt: &HostRuntime, file: &File, path: &str) -> io::Result<()> {
    file.sync_all()?;
    let mut folder = fs::canonicalize(rt, path)?;
    folder.pop();
    File::open(rt, folder.as_str())?.sync_all()
}

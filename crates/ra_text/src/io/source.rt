//! A reader that is read from only as long as it did not fail.
ghost use Rattle.std.specs.Prelude.{◌≡◌, ◌<◌, ◌≤◌, ℕ, length, take, true, false, IfOk, IfErr, OnOk, OnErr};
ghost use Rattle.std.specs.Io.KnownBytes.{Consumes, IsAtEnd, Keeps};

use crate::ReadFault;
use std::io::Read;

/// A reader, and whether it failed. Only this file asks the reader, so that a function that reads from a source can't
/// ask it again once it failed.
#[derive(Drop)]
pub struct Source<'a, R> {
    reader: &'a mut R,
    failed: bool,
}

impl<'a, R: Read> Source<'a, R> {
    /// Makes the source of a reader that is to be read from.
    pub fn new(reader: &'a mut R) -> Source<'a, R>
        ensures same_reference { result.reader.ghost_name ≡ reader.entry.ghost_name }
        ensures now { result.reader.now ≡ reader.old }
        ensures unfailed { result.failed ≡ false }
    {
        Source {
            reader,
            failed: false,
        }
    }

    /// Reads the next bytes into a buffer, which is not empty, and returns how many came, or 0 at the end. It does not
    /// allocate.
    ///
    /// # Errors
    ///
    /// `Read`: the reader failed.
    pub fn read(&mut self, buffer: &mut [u8]) -> Result<usize, ReadFault>
        requires unfailed { self.old.failed ≡ false }
        requires some { 0 < length buffer.old }
        ensures same_reference { self.new.reader.ghost_name ≡ self.old.reader.ghost_name }
        ensures unfailed { OnOk result (self.new.failed ≡ false) }
        ensures failed { OnErr result (self.new.failed ≡ true) }
        ensures some { IfOk result (λ count. (count ≤ length buffer.old)
            × Consumes (R.remaining self.old.reader.now) (R.remaining self.new.reader.now) (take count buffer.new)) }
        ensures same { length buffer.new ≡ length buffer.old }
        ensures none { IfOk result (λ count. count ≡ 0 → IsAtEnd (R.remaining self.new.reader.now)) }
        ensures err { IfErr result (λ fault. fault ≡ ReadFault.Read) }
        ensures untaken { OnErr result (Keeps (R.remaining self.old.reader.now) (R.remaining self.new.reader.now)) }
    {
        match self.reader.read(buffer) {
            Ok(count) => Ok(count),
            Err(_) => {
                self.failed = true;
                Err(ReadFault::Read)
            }
        }
    }
}

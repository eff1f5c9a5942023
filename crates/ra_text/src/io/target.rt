//! A writer that is written to only as long as it takes something.
ghost use Rattle.std.specs.Prelude.{◌≡◌, ◌<◌, ◌≤◌, ℕ, length, take, true, false, IfOk, OnOk, OnErr};
ghost use Rattle.std.specs.Io.KnownBytes.{Appends, Keeps};

use crate::WriteFault;
use std::io::Write;

/// A writer, and whether it failed or took nothing. Only this file asks the writer, so that a function that writes to
/// a target can't ask it again then.
#[derive(Drop)]
pub struct Target<'a, W> {
    writer: &'a mut W,
    failed: bool,
}

impl<'a, W: Write> Target<'a, W> {
    /// Makes the target of a writer that is to be written to.
    pub fn new(writer: &'a mut W) -> Target<'a, W>
        ensures same_reference { result.writer.ghost_name ≡ writer.entry.ghost_name }
        ensures now { result.writer.now ≡ writer.old }
        ensures unfailed { result.failed ≡ false }
    {
        Target {
            writer,
            failed: false,
        }
    }

    /// Writes bytes, at least one, and returns how many the writer took, 1 or more. It does not allocate.
    ///
    /// # Errors
    ///
    /// `WriteFault`: the writer failed, or took nothing.
    pub fn write(&mut self, bytes: &[u8]) -> Result<usize, WriteFault>
        requires unfailed { self.old.failed ≡ false }
        requires some { 0 < length bytes.now }
        ensures same_reference { self.new.writer.ghost_name ≡ self.old.writer.ghost_name }
        ensures unfailed { OnOk result (self.new.failed ≡ false) }
        ensures failed { OnErr result (self.new.failed ≡ true) }
        ensures some { IfOk result (λ count. (1 ≤ count) × (count ≤ length bytes.now)
            × Appends (W.contents self.old.writer.now) (W.contents self.new.writer.now) (take count bytes.now)) }
        ensures none { OnErr result (Keeps (W.contents self.old.writer.now) (W.contents self.new.writer.now)) }
    {
        match self.writer.write(bytes) {
            Ok(count) if count > 0 => Ok(count),
            _ => {
                self.failed = true;
                Err(WriteFault)
            }
        }
    }
}

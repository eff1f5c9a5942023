ghost use Rattle.std.specs.Prelude.{◌≡◌, ◌≤◌, ◌<◌, ◌⊎◌, ◌∷◌, ℕ, Bool, true, List, IfOk, IfErr, OnOk};
ghost use Rattle.ra_disk.specs.declared.error.FileError.TheVariants.{Read, Write, Disk, Memory};
ghost use Rattle.ra_disk.specs.Contents.{Contents, seen, IsEven, appends, cuts, syncs};
ghost use Rattle.ra_disk.specs.Outcome.{IsCut, HasCause};

use crate::FileError;
use std::alloc::Global;

/// The file of a book. It rests on the premise that a crash leaves what was synced, and of the rest some front.
pub trait BookFile {
    /// What the file holds, on the disk and on its way there. A crash in a call leaves what one before it or after it
    /// may leave (`MayLeave`).
    ghost contents: { Self → Contents };

    /// What it held before each call that changed it, the newest first.
    ghost past: { Self → List Contents };

    /// It was opened, and not read or changed since.
    ghost is_unread: { Self → Bool };

    /// How often it has failed.
    ghost faults: { Self → ℕ };

    /// Returns all bytes of the file, which is read once.
    ///
    /// # Errors
    ///
    /// `Read`: the file can't be read. `Memory`: there is no memory for its bytes.
    fn read(&mut self, alloc: Global) -> Result<Vec<u8>, FileError>
        requires { is_unread self.old ≡ true }
        ensures bytes { IfOk result (λ bytes. bytes.items ≡ seen (contents self.old)) }
        ensures err { IfErr result (λ e. ((e ≡ Read) × (faults self.old < faults self.new)) ⊎ (e ≡ Memory)) }
        ensures faults { OnOk result (faults self.new ≡ faults self.old) }
        ensures contents { contents self.new ≡ contents self.old }
        ensures past { past self.new ≡ past self.old };

    /// Writes bytes after those that the file has.
    ///
    /// # Errors
    ///
    /// `Write`: the file fails. It may have some of the bytes.
    fn append(&mut self, bytes: &[u8]) -> Result<(), FileError>
        requires { IsEven (contents self.old) }
        ensures ok { OnOk result (contents self.new ≡ appends bytes.now (contents self.old)) }
        ensures err { IfErr result (λ e. (e ≡ Write)
            × IsCut (appends bytes.now (contents self.old)) (contents self.new)) }
        ensures past { past self.new ≡ contents self.old ∷ past self.old }
        ensures cause { HasCause result (faults self.old) (faults self.new) };

    /// Cuts the file to a size. Until a sync, a crash may bring back what was cut.
    ///
    /// # Errors
    ///
    /// `Disk`: the file fails.
    fn cut(&mut self, size: usize) -> Result<(), FileError>
        requires { size ≤ (contents self.old).size }
        ensures ok { OnOk result (contents self.new ≡ cuts size (contents self.old)) }
        ensures err { IfErr result (λ e. (e ≡ Disk) × IsCut (cuts size (contents self.old)) (contents self.new)) }
        ensures past { past self.new ≡ contents self.old ∷ past self.old }
        ensures cause { HasCause result (faults self.old) (faults self.new) };

    /// Puts what was written on the disk.
    ///
    /// # Errors
    ///
    /// `Disk`: the file fails.
    fn sync(&mut self) -> Result<(), FileError>
        ensures ok { OnOk result (contents self.new ≡ syncs (contents self.old)) }
        ensures err { IfErr result (λ e. (e ≡ Disk) × IsCut (contents self.old) (contents self.new)) }
        ensures past { past self.new ≡ contents self.old ∷ past self.old }
        ensures cause { HasCause result (faults self.old) (faults self.new) };
}

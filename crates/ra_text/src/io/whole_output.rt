ghost use Rattle.std.specs.Prelude.{◌≡◌, ◌≢◌, ◌↔◌, List, ℕ, [], ◌++◌, true, false, IsErr, OnOk, OnErr};
ghost use Rattle.std.specs.Io.KnownBytes.{Appends};

use crate::WriteFault;
use crate::io::target::Target;
use std::io::Write;

/// Writes all of the bytes. It does not allocate.
///
/// # Errors
///
/// `WriteFault`: a write failed, or took nothing. It is not tried again: the writer has taken a prefix of the bytes,
/// and some are left.
pub fn write_out<W: Write>(writer: &mut W, bytes: &[u8]) -> Result<(), WriteFault>
    ensures ok { OnOk result (Appends (W.contents writer.old) (W.contents writer.new) bytes.now) }
    ensures err { OnErr result ((prefix : List ℕ) × (rest : List ℕ)
        × (bytes.now ≡ prefix ++ rest) × (rest ≢ [])
        × Appends (W.contents writer.old) (W.contents writer.new) prefix) }
{
    let mut target = Target::new(writer);
    write_to(&mut target, bytes)
}

/// Writes all of the bytes to a target whose writer took all so far.
///
/// # Errors
///
/// `WriteFault`: a write failed, or took nothing.
fn write_to<W: Write>(target: &mut Target<'_, W>, bytes: &[u8]) -> Result<(), WriteFault>
    requires { target.old.failed ≡ false }
    ensures same_reference { target.new.writer.ghost_name ≡ target.old.writer.ghost_name }
    ensures ok { OnOk result (Appends (W.contents target.old.writer.now) (W.contents target.new.writer.now) bytes.now) }
    ensures err { OnErr result ((prefix : List ℕ) × (rest : List ℕ)
        × (bytes.now ≡ prefix ++ rest) × (rest ≢ [])
        × Appends (W.contents target.old.writer.now) (W.contents target.new.writer.now) prefix) }
    // A call that answers a fault has seen it.
    ensures fault { IsErr result ↔ (target.new.failed ≡ true) }
{
    let mut rest = bytes;
    while !rest.is_empty() {
        let count = target.write(rest)?;
        rest = &rest[count..];
    }
    Ok(())
}

ghost use Rattle.std.specs.Prelude.{◌≡◌, ◌∷◌, [], IfErr, IfOk, IfSome, IsNone, OnErr};
ghost use Rattle.std.specs.Io.KnownBytes.{Consumes, IsAtEnd};

use crate::ReadFault;
use std::io::Read;

/// Reads the next byte, or `None` at the end. It does not allocate.
///
/// # Errors
///
/// `Read`: the reader failed. It is not tried again.
pub fn next_byte<R: Read>(reader: &mut R) -> Result<Option<u8>, ReadFault>
    ensures some { IfOk result
        (λ came. IfSome came (λ byte. Consumes (R.remaining reader.old) (R.remaining reader.new) (byte ∷ []))) }
    ensures none { IfOk result (λ came. IsNone came
        → Consumes (R.remaining reader.old) (R.remaining reader.new) [] × IsAtEnd (R.remaining reader.new)) }
    ensures err { IfErr result (λ fault. fault ≡ ReadFault.Read) }
    ensures untaken { OnErr result (Consumes (R.remaining reader.old) (R.remaining reader.new) []) }
{
    let mut byte = [0; 1];
    match reader.read(&mut byte) {
        Ok(0) => Ok(None),
        Ok(_) => Ok(Some(byte[0])),
        Err(_) => Err(ReadFault::Read),
    }
}

ghost use Rattle.std.specs.Prelude.{◌≡◌, ◌<◌, ◌≤◌, ◌↔◌, List, ℕ, true, false, length, IfOk, IsErrOf};
ghost use Rattle.std.specs.Io.KnownBytes.{Consumes};
ghost use Rattle.ra_text.specs.Input.{Reads};

use crate::ReadFault;
use crate::io::source::Source;
use std::alloc::Global;
use std::io::Read;

/// For how many bytes there is room before any is read, at most. A limit may be much larger than its input.
const FIRST_ROOM: usize = 4096;

/// The most bytes that a reader is asked for at once. A read for each byte took 3 % of the instructions of a
/// simulation.
const PIECE: usize = 512;

/// Reads to the end, and at most `limit` bytes, in pieces of 512 bytes or fewer and no more than it returns. It first
/// makes room for 4,096 bytes or fewer, and more as they come, however large the limit: the cost is linear in what is
/// read.
///
/// # Errors
///
/// `Read`: the reader failed, before it gave `limit` bytes. It is not tried again. `Memory`: there is none for the
/// bytes. After either, at most `limit` bytes were taken from the reader, and nothing else is promised about it.
pub fn read_up_to<R: Read>(
    alloc: Global,
    reader: &mut R,
    limit: usize,
) -> Result<Vec<u8>, ReadFault>
    ensures bytes { IfOk result (λ bytes.
        Reads (R.remaining reader.old) (R.remaining reader.new) limit bytes.items) }
    ensures at_most { (taken : List ℕ) × (length taken ≤ limit)
        × Consumes (R.remaining reader.old) (R.remaining reader.new) taken }
    ensures failed { IsErrOf result ReadFault.Read → (taken : List ℕ) × (length taken < limit)
        × Consumes (R.remaining reader.old) (R.remaining reader.new) taken }
{
    let mut source = Source::new(reader);
    read_from(alloc, &mut source, limit)
}

/// Reads so from a source whose reader did not fail yet.
///
/// # Errors
///
/// `Read`: the reader failed. `Memory`: there is none for the bytes.
fn read_from<R: Read>(
    alloc: Global,
    source: &mut Source<'_, R>,
    limit: usize,
) -> Result<Vec<u8>, ReadFault>
    requires { source.old.failed ≡ false }
    ensures same_reference { source.new.reader.ghost_name ≡ source.old.reader.ghost_name }
    ensures bytes { IfOk result (λ bytes.
        Reads (R.remaining source.old.reader.now) (R.remaining source.new.reader.now) limit bytes.items) }
    ensures at_most { (taken : List ℕ) × (length taken ≤ limit)
        × Consumes (R.remaining source.old.reader.now) (R.remaining source.new.reader.now) taken }
    ensures failed { IsErrOf result ReadFault.Read → (taken : List ℕ) × (length taken < limit)
        × Consumes (R.remaining source.old.reader.now) (R.remaining source.new.reader.now) taken }
    // A call that answers that the reader failed has seen it fail.
    ensures fault { IsErrOf result ReadFault.Read ↔ (source.new.failed ≡ true) }
{
    let mut bytes = Vec::with_capacity(alloc, limit.min(FIRST_ROOM))?;
    let mut piece = [0; PIECE];
    // Each turn but the last brings a byte or more.
    for _turn in 0..limit {
        let left = limit - bytes.len();
        if left == 0 {
            break;
        }
        let count = source.read(&mut piece[..left.min(PIECE)])?;
        if count == 0 {
            break;
        }
        bytes.extend_from_slice(&piece[..count])?;
    }
    Ok(bytes)
}

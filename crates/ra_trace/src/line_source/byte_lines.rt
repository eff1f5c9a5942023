//! The next line of a trace, whose bytes are read one by one, or those that a buffer did not show.
ghost use Rattle.std.specs.Prelude.{◌≢◌, ℕ, ◌≤◌, List, Option, All, length};
ghost use Rattle.std.specs.Io.KnownBytes.{Consumes};
ghost use Rattle.ra_trace.specs.NextLine.{ReadsLine, ReadsSome};

use crate::TraceError;
use crate::line::forms::read_line_of;
use crate::line_source::LineRoom;
use crate::text_limits::MAX_LINE;
use arrayvec::ArrayVec;
use ra_text::next_byte;
use std::io::Read;

/// The bytes of a line, as far as they were read.
pub type LineBytes = ArrayVec<u8, MAX_LINE>;

/// What ends the bytes of a line.
#[derive(Clone, Copy)]
pub enum LineEnd {
    /// Their last one is a line feed.
    Feed,
    /// They are as many as are read of a line, and none is a line feed.
    Length,
    /// The input is at its end, and no line feed came.
    Input,
}

/// Reads the bytes of a line that follow those that came, to its line feed, and until there are 128 of them. None of
/// those that came is a line feed. A text may still have `left` bytes, with those that came. It does not allocate.
///
/// # Errors
///
/// `Read`: the reader failed. `Limit`: there is a byte after those that are left.
fn read_rest<R: Read>(
    reader: &mut R,
    bytes: &mut LineBytes,
    left: usize,
) -> Result<LineEnd, TraceError>
    requires part { All (λ byte. byte ≢ 10) bytes.old.items }
    requires short { length bytes.old.items ≤ 128 }
    requires within { length bytes.old.items ≤ left }
    ensures { (old : Option (List ℕ)) → Consumes old (R.remaining reader.old) bytes.old.items
        → ReadsLine left old (R.remaining reader.new) bytes.new.items result }
{
    for _turn in bytes.len()..MAX_LINE {
        let came = match next_byte(reader) {
            Ok(came) => came,
            Err(_) => return Err(TraceError::Read),
        };
        let Some(byte) = came else {
            return Ok(LineEnd::Input);
        };
        if bytes.len() >= left {
            return Err(TraceError::Limit);
        }
        bytes.push(byte);
        if byte == b'\n' {
            return Ok(LineEnd::Feed);
        }
    }
    Ok(LineEnd::Length)
}

/// Reads the rest of the next line, whose first bytes are in `room`, as
/// [`LineSource::next_line`](crate::line_source::LineSource::next_line) says. Each byte that follows is read by itself.
///
/// # Errors
///
/// `Read`: the reader failed. `Limit`: there is a byte after those that are left.
#[inline(never)]
pub fn next_line_by_bytes<R: Read>(
    reader: &mut R,
    room: &mut LineRoom,
    taken: &mut usize,
    left: usize,
) -> Result<(), TraceError>
    requires part { All (λ byte. byte ≢ 10) room.old.bytes.items }
    requires short { length room.old.bytes.items ≤ 128 }
    requires within { length room.old.bytes.items ≤ left }
    ensures { (old : Option (List ℕ)) → Consumes old (R.remaining reader.old) room.old.bytes.items
        → ReadsSome left old (R.remaining reader.new) taken.new room.new.line result }
{
    let end = match read_rest(reader, &mut room.bytes, left) {
        Ok(end) => end,
        Err(fault) => return Err(fault),
    };
    *taken = room.bytes.len();
    match end {
        LineEnd::Feed => read_line_of(&room.bytes[..room.bytes.len() - 1], &mut room.line),
        LineEnd::Length | LineEnd::Input => room.line = None,
    }
    Ok(())
}

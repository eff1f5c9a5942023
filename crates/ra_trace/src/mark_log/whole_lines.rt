//! The lines of a mark log of which each is read to its end, however long it is.
ghost use Rattle.std.specs.Prelude.{◌≡◌, []};
ghost use Rattle.ra_trace.specs.LeftOutAlong.{ReadsToFeed, ReadsWhole};

use crate::TraceError;
use crate::line::forms::read_line_of;
use crate::line_source::LineRoom;
use crate::line_source::byte_lines::LineBytes;
use crate::text_limits::MAX_LINE;
use memchr::memchr;
use ra_text::next_byte;
use std::io::{BufRead, Read};

/// Reads up to the next line feed, or to the end of the input, keeps the first 128 bytes of these without the line
/// feed, and returns whether a line feed came. `taken` becomes the number of bytes that were read. The text may still
/// have `left` bytes. It does not allocate.
///
/// # Errors
///
/// `Read`: the reader failed. `Limit`: there is a byte after those that are left.
fn read_to_feed<R: Read>(
    reader: &mut R,
    bytes: &mut LineBytes,
    taken: &mut usize,
    left: usize,
) -> Result<bool, TraceError>
    requires { bytes.old.items ≡ [] }
    ensures { ReadsToFeed left (R.remaining reader.old) (R.remaining reader.new) taken.new bytes.new.items result }
{
    *taken = 0;
    loop {
        let came = match next_byte(reader) {
            Ok(came) => came,
            Err(_) => return Err(TraceError::Read),
        };
        let Some(byte) = came else {
            return Ok(false);
        };
        if *taken >= left {
            return Err(TraceError::Limit);
        }
        *taken += 1;
        if byte == b'\n' {
            return Ok(true);
        }
        if bytes.len() < MAX_LINE {
            bytes.push(byte);
        }
    }
}

/// Reads the next line as `next_whole_line` does, each byte by itself.
///
/// # Errors
///
/// Those of `next_whole_line`.
#[inline(never)]
fn next_whole_line_by_bytes<R: Read>(
    reader: &mut R,
    room: &mut LineRoom,
    taken: &mut usize,
    left: usize,
) -> Result<bool, TraceError>
    ensures { ReadsWhole left (R.remaining reader.old) (R.remaining reader.new) taken.new room.new.line result }
{
    room.bytes.clear();
    let has_feed = match read_to_feed(reader, &mut room.bytes, taken, left) {
        Ok(has_feed) => has_feed,
        Err(fault) => return Err(fault),
    };
    if !has_feed {
        room.line = None;
        return Ok(false);
    }
    if *taken <= MAX_LINE {
        read_line_of(&room.bytes, &mut room.line);
        return Ok(true);
    }
    room.line = None;
    Ok(true)
}

/// Reads the next line to its line feed, however long it is, or to the end of the input, and returns whether a line
/// feed came. The line is then in `room`, or `None` if it has the form of none. `taken` becomes the number of bytes
/// that were read. The text may still have `left` bytes. It does not allocate, and the cost is linear in what it reads.
///
/// # Errors
///
/// `Read`: the reader failed. `Limit`: there is a byte after those that are left.
#[inline(always)]
pub fn next_whole_line<B: BufRead>(
    reader: &mut B,
    room: &mut LineRoom,
    taken: &mut usize,
    left: usize,
) -> Result<bool, TraceError>
    ensures { ReadsWhole left (B.remaining reader.old) (B.remaining reader.new) taken.new room.new.line result }
{
    let shown = match reader.fill_buf() {
        Ok(shown) => shown,
        Err(_) => return Err(TraceError::Read),
    };
    let most = left.min(MAX_LINE);
    let end = memchr(b'\n', shown).unwrap_or(most);
    if end < most {
        read_line_of(&shown[..end], &mut room.line);
        reader.consume(end + 1);
        *taken = end + 1;
        return Ok(true);
    }
    next_whole_line_by_bytes(reader, room, taken, left)
}

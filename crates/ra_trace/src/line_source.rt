//! How the next line comes out of a reader.
pub mod byte_lines;

ghost use Rattle.ra_trace.specs.NextLine.{ReadsSome};

use crate::TraceError;
use crate::line::Line;
use crate::line::forms::read_line_of;
use crate::line_source::byte_lines::{LineBytes, next_line_by_bytes};
use crate::text_limits::MAX_LINE;
use memchr::memchr;
use std::io::{BufRead, Read};

/// Room for a line. It is made once for a text, since it is long.
#[derive(Drop)]
pub struct LineRoom {
    /// The line that was read, or `None` if what came is not one.
    pub line: Option<Line>,
    /// The bytes of a line, as far as they were read, if the reader does not show it whole.
    pub bytes: LineBytes,
}

impl LineRoom {
    /// Makes room for a line.
    pub fn new() -> LineRoom {
        LineRoom {
            line: None,
            bytes: LineBytes::new(),
        }
    }
}

/// A way to read the next line.
pub trait LineSource<R: Read> {
    /// Reads the next line into `room`, or `None` if what comes next is not one: a line of another form, one of 128
    /// bytes or more, or one that the end of the input cuts off. `taken` becomes the number of bytes that were read. A
    /// text may still have `left` bytes. It does not allocate, and the cost is linear in what it reads.
    ///
    /// # Errors
    ///
    /// `Read`: the reader failed. `Limit`: there is a byte after those that are left.
    fn next_line(
        reader: &mut R,
        room: &mut LineRoom,
        taken: &mut usize,
        left: usize,
    ) -> Result<(), TraceError>
        ensures { ReadsSome left (R.remaining reader.old) (R.remaining reader.new) taken.new room.new.line result };
}

/// Each byte by a read of its own, from any reader.
pub struct ByBytes;

impl<R: Read> LineSource<R> for ByBytes {
    fn next_line(
        reader: &mut R,
        room: &mut LineRoom,
        taken: &mut usize,
        left: usize,
    ) -> Result<(), TraceError> {
        room.bytes.clear(); // The bytes of the line before may be left in it.
        next_line_by_bytes(reader, room, taken, left)
    }
}

/// As many as a reader has in its buffer. A line that the reader shows whole is read where it is. Otherwise what it
/// shows of the line is taken, and each byte that follows is read by itself: by the contract of `BufRead`, that nothing
/// is shown does not mean the end, but that a read gives nothing does. What is taken of the buffer are the bytes of the
/// line.
pub struct FromBuffer;

impl<B: BufRead> LineSource<B> for FromBuffer {
    #[inline(always)]
    fn next_line(
        reader: &mut B,
        room: &mut LineRoom,
        taken: &mut usize,
        left: usize,
    ) -> Result<(), TraceError> {
        let shown = match reader.fill_buf() {
            Ok(shown) => shown,
            Err(_) => return Err(TraceError::Read),
        };
        let most = left.min(MAX_LINE);
        // Among all that is shown a line feed is found sooner than among so few bytes, since it is looked for in larger
        // steps.
        let end = memchr(b'\n', shown).unwrap_or(most);
        if end < most {
            read_line_of(&shown[..end], &mut room.line);
            reader.consume(end + 1);
            *taken = end + 1;
            return Ok(());
        }
        let len = shown.len().min(most);
        room.bytes.clear();
        room.bytes.try_extend_from_slice(&shown[..len]).unwrap();
        reader.consume(len);
        next_line_by_bytes(reader, room, taken, left)
    }
}

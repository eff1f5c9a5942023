//! The two steps of drawing that are the same for each kind of text: it is read, and once it is judged, a picture of a
//! part of it is written.
ghost use Rattle.std.specs.Prelude.{◌≡◌, ◌≤◌, IfOk, IfErr, OnOk};
ghost use Rattle.ra_draw.specs.Drawing.{DrawsPicture, IsInput};
ghost use Rattle.ra_draw.specs.PictureSteps.{IsUnread, IsUnwritten};
ghost use Rattle.ra_draw.specs.Pictures.{HasLines};
ghost use Rattle.ra_draw.specs.Lines as spec;

use crate::svg::{Totals, picture_of};
use crate::{DrawError, Part};
use ra_text::{ReadFault, read_up_to, write_out};
use ra_trace::MAX_TEXT;
use std::alloc::Global;
use std::io::{Read, Write};

/// The most lines that are drawn, since a reader of a trace can count them. A line has at most 126 arrows.
const MAX_LINES: u64 = 4096;

/// Returns how many lines a text has. It does not allocate.
fn line_count(text: &[u8]) -> u64
    ensures { result ≡ spec.line_count text.now }
{
    let mut lines = 0;
    for byte in text {
        lines += if *byte == b'\n' { 1 } else { 0 };
    }
    lines
}

/// Reads all of a text before it is judged: so `Read` and `Limit` come first, and the lines of the part are complete
/// once the part is known.
///
/// # Errors
///
/// `Read`, `Limit`, `Memory`.
pub fn read_text<R: Read>(alloc: Global, reader: &mut R) -> Result<Vec<u8>, DrawError>
    ensures ok { IfOk result (λ text. IsInput (R.remaining reader.old) (R.remaining reader.new) text.items) }
    ensures err { IfErr result (IsUnread (R.remaining reader.old) (R.remaining reader.new)) }
{
    let read = match read_up_to(alloc, reader, MAX_TEXT as usize + 1) {
        Ok(read) => read,
        Err(ReadFault::Read) => return Err(DrawError::Read),
        Err(ReadFault::Memory) => return Err(DrawError::Memory),
    };
    if read.len() > MAX_TEXT as usize {
        return Err(DrawError::Limit);
    }
    Ok(read)
}

/// Writes the picture of a part of a trace or a mark log with these totals, if the part has a line, and no more than
/// are drawn.
///
/// # Errors
///
/// `NoLines`, `TooLong`, `Memory`, `Write`.
pub fn write_picture<W: Write>(
    alloc: Global,
    text: &[u8],
    writer: &mut W,
    part: Part,
    totals: Totals,
) -> Result<(), DrawError>
    requires { HasLines text.now }
    ensures ok { OnOk result (DrawsPicture part text.now (W.contents writer.old) (W.contents writer.new)) }
    ensures err { IfErr result (IsUnwritten part text.now (W.contents writer.old) (W.contents writer.new)
        (writer.new ≡ writer.old)) }
{
    let lines = line_count(text);
    let drawn = part.lines_of(lines);
    if drawn == 0 {
        return Err(DrawError::NoLines { lines });
    }
    if drawn > MAX_LINES {
        return Err(DrawError::TooLong);
    }
    let Ok(picture) = picture_of(alloc, text, part, totals) else {
        return Err(DrawError::Memory);
    };
    match write_out(writer, &picture) {
        Ok(()) => Ok(()),
        Err(_) => Err(DrawError::Write),
    }
}

//! The drawing of a mark log.
ghost use Rattle.std.specs.Prelude.{◌≡◌};
ghost use Rattle.ra_draw.specs.Drawing.{DrawsLog};

use crate::draw_text::{read_text, write_picture};
use crate::svg::Totals;
use crate::{DrawError, Part};
use ra_trace::{MarksVerdict, check_marks_buffered};
use std::alloc::Global;
use std::io::{Read, Write};

/// Reads a text. If it is a mark log, writes a picture of a part of it, as `draw` does for a trace. The picture has a
/// row for each mark, a lane for each node up to the highest one that asks in or before the part, and the bars beside
/// the lanes. A log has no messages. Returns the verdict on the text, as `check_marks` does, and leaves the text in
/// `text`. If it is no mark log, nothing is written. No read or write that failed is tried again. Time and memory are
/// linear in the text, and in the columns of bars beside a node.
///
/// # Errors
///
/// Those of `draw`, in their order. `NoLines` comes if the text is a mark log and the part has none of its lines, so
/// also for an empty log, and `TooLong` if it is one and the part has more than 4,096 lines. After a refusal nothing is
/// promised of `text`.
pub fn draw_marks<R: Read, W: Write>(
    alloc: Global,
    reader: &mut R,
    writer: &mut W,
    part: Part,
    text: &mut Vec<u8>,
) -> Result<MarksVerdict, DrawError>
    ensures { DrawsLog part (R.remaining reader.old) (R.remaining reader.new)
        (W.contents writer.old) (W.contents writer.new) (writer.new ≡ writer.old) text.new.items result }
{
    *text = read_text(alloc, reader)?;
    let input = text.as_slice();
    let mut unread = input;
    let verdict = check_marks_buffered(alloc, &mut unread)?;
    let MarksVerdict::Valid { requests, grants } = verdict else {
        return Ok(verdict);
    };
    let totals = Totals {
        requests: u128::from(requests),
        counted: "grant",
        count: u128::from(grants),
    };
    write_picture(alloc, input, writer, part, totals)?;
    Ok(verdict)
}

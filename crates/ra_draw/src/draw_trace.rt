//! The drawing of a trace.
ghost use Rattle.std.specs.Prelude.{◌≡◌};
ghost use Rattle.ra_draw.specs.Drawing.{DrawsTrace};

use crate::draw_text::{read_text, write_picture};
use crate::svg::Totals;
use crate::{DrawError, Part};
use ra_trace::{Verdict, check_buffered};
use std::alloc::Global;
use std::io::{Read, Write};

/// Reads a text. If it is the trace of a run of any version, writes a picture of a part of it: a space-time diagram
/// in one SVG file, with no script in it, time downwards. The picture has:
///
/// - a lane for each node;
/// - an arrow for each message from its sending to its delivery, a cross where one is lost, and a loop where one is
///   repeated;
/// - beside the lanes, bars for clients that are queued, that wait and that hold a name.
///
/// A message that is under way at the end of the part has a dotted path. One that is sent before the part and not
/// delivered or lost in it has none. Returns the verdict on the text, as `check` does, and leaves the text in `text`,
/// so that it need not be kept elsewhere to say what is wrong with it. If it is no trace, nothing is written. No read
/// or write that failed is tried again. Time and memory are linear in the text and in what `World::step` takes for its
/// steps, and in the columns of bars beside a node.
///
/// # Errors
///
/// The first that holds, except that `Memory` may come before any:
///
/// 1. `Read`: the reader failed, before its end and before it gave 16,777,217 bytes.
/// 2. `Limit`: the text has more than 16,777,216 bytes.
/// 3. `NoLines`: it is a trace, and the part has none of its lines, since it begins after the last one or ends before
///    it begins.
/// 4. `TooLong`: it is a trace, and the part has more than 4,096 lines.
/// 5. `Memory`: memory ran out.
/// 6. `Write`: the writer failed or took nothing, with bytes left to write. A prefix of the picture was written.
///
/// After each of the others the writer is as before. After a refusal nothing is promised of `text`.
pub fn draw<R: Read, W: Write>(
    alloc: Global,
    reader: &mut R,
    writer: &mut W,
    part: Part,
    text: &mut Vec<u8>,
) -> Result<Verdict, DrawError>
    ensures { DrawsTrace part (R.remaining reader.old) (R.remaining reader.new)
        (W.contents writer.old) (W.contents writer.new) (writer.new ≡ writer.old) text.new.items result }
{
    *text = read_text(alloc, reader)?;
    let input = text.as_slice();
    let mut unread = input;
    let verdict = check_buffered(alloc, &mut unread)?;
    let Verdict::Valid { requests, messages } = verdict else {
        return Ok(verdict);
    };
    let totals = Totals {
        requests,
        counted: "message",
        count: messages,
    };
    write_picture(alloc, input, writer, part, totals)?;
    Ok(verdict)
}

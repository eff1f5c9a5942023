//! The lines of answers.
ghost use Rattle.std.specs.Prelude.{◌≤◌, ℕ, List, length, flat_map};
ghost use Rattle.ra_frame.specs.Fits.{Fits};
ghost use Rattle.ra_frame.specs.FrameText.{IsWrittenText};
ghost use Rattle.ra_stamp.specs.Mark.{entry_of_mark};
ghost use Rattle.ra_stamp.specs.Message.{to_of};
ghost use Rattle.ra_text.specs.Lines.{field};
ghost use Rattle.ra_text.specs.Lines as lines;
ghost use Rattle.ra_book_text.specs.Answers.{AreSends, AreShown, IsPosted, IsShown, send_line};
ghost use Rattle.ra_book_text.specs.Output.{Puts};
ghost use Rattle.ra_book.specs.Timed.{FitAt};

use crate::answering::waiting_output::{Output, put};
use itoa::{Buffer, Integer};
use ra_frame::{Frame, MAX_FRAME, encoded};
use ra_node::Outcome;
use ra_stamp::{Mark, Message};
use std::io::Write;

/// Puts out a field, with the space before it.
fn put_field<W: Write>(writer: &mut W, out: &mut Output, text: &[u8])
    requires { length text.now ≤ 256 }
    ensures { Puts (W.contents writer.old) (W.contents writer.new) out.old out.new (field text.now) }
{
    put(writer, out, b" ");
    put(writer, out, text);
}

/// Puts out a field that is a number, with the space before it.
fn put_number<W: Write, I: Integer>(writer: &mut W, out: &mut Output, number: I)
    ensures { Puts (W.contents writer.old) (W.contents writer.new) out.old out.new (field (I.text number)) }
{
    put_field(writer, out, Buffer::new().format(number).as_bytes());
}

/// Puts out the line of a frame that fits, with its bytes as hexadecimal digits in lower case.
fn put_frame<W: Write>(writer: &mut W, out: &mut Output, frame: &Frame)
    requires { Fits frame.now }
    ensures { (bytes : List ℕ) × IsWrittenText bytes frame.now
        × Puts (W.contents writer.old)
        (W.contents writer.new) out.old out.new (send_line (to_of frame.now.message) bytes) }
{
    let bytes = encoded(frame);
    let mut room = [0; 2 * MAX_FRAME];
    let digits = &mut room[..2 * bytes.len()];
    hex::encode_to_slice(bytes.as_slice(), digits).unwrap();
    put(writer, out, b"send");
    put_number(writer, out, frame.message.to().get());
    put_field(writer, out, digits);
    put(writer, out, b"\n");
}

/// Puts out a line for each message, in order: its frame with this clock.
fn put_frames<W: Write>(writer: &mut W, out: &mut Output, clock: u64, sends: &[Message])
    requires { FitAt clock sends.now }
    ensures { (text : List ℕ) × AreSends clock sends.now text
        × Puts (W.contents writer.old) (W.contents writer.new) out.old out.new text }
{
    for &message in sends {
        put_frame(writer, out, &Frame { clock, message });
    }
}

/// Puts out the line of a mark: its word, and the fields of the request.
fn put_mark<W: Write>(writer: &mut W, out: &mut Output, mark: &Mark)
    ensures puts { Puts (W.contents writer.old) (W.contents writer.new) out.old out.new (lines.mark_line mark.now) }
    ensures shown { IsShown (entry_of_mark mark.now) }
{
    let entry = mark.entry();
    put(writer, out, mark.word().as_bytes());
    put_number(writer, out, entry.stamp.node.get());
    put_number(writer, out, entry.client);
    put_field(writer, out, entry.name.bytes());
    put_field(writer, out, entry.mode.word().as_bytes());
    put_number(writer, out, entry.stamp.seq);
    put(writer, out, b"\n");
}

/// Puts out the lines of marks.
fn put_marks<W: Write>(writer: &mut W, out: &mut Output, marks: &[Mark])
    ensures puts { Puts (W.contents writer.old)
        (W.contents writer.new) out.old out.new (flat_map lines.mark_line marks.now) }
    ensures shown { AreShown marks.now }
{
    for mark in marks {
        put_mark(writer, out, mark);
    }
}

/// Puts out what an event at this clock sends and marks, and `ok`.
pub fn put_outcome<W: Write>(writer: &mut W, out: &mut Output, clock: u64, outcome: &Outcome)
    requires { FitAt clock outcome.now.sends.items }
    ensures { (text : List ℕ) × IsPosted clock outcome.now.sends.items outcome.now.marks.items text
        × Puts (W.contents writer.old) (W.contents writer.new) out.old out.new text }
{
    put_frames(writer, out, clock, outcome.sends.as_slice());
    put_marks(writer, out, outcome.marks.as_slice());
    put(writer, out, b"ok\n");
}

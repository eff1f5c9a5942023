//! A book that is read and answered.
pub mod answer_line;
pub mod answer_texts;
pub mod line_refusal;
pub mod waiting_output;

ghost use Rattle.std.specs.Prelude.{◌≡◌, ◌↔◌, [], true, false, ℕ, List, IsErrOf, OnOk};
ghost use Rattle.ra_book_text.specs.Book.{IsOwed, IsWritten};
ghost use Rattle.ra_book_text.specs.Input.{HasEnded};
ghost use Rattle.ra_book_text.specs.Output.{Puts};
ghost use Rattle.ra_book_text.specs.Serving.{Opens, Serves};
ghost use Rattle.ra_book_text.specs.Answers.{refused_line};
ghost use Rattle.ra_book_text.specs.declared.error.BookFault.{BookFault};
ghost use Rattle.ra_book_text.specs.declared.answering.line_refusal.Refusal.{Refusal};
ghost use Rattle.ra_book.specs.Timed.{Timed, opening};

use crate::answering::answer_line::answer_line;
use crate::answering::line_refusal::refused_line;
use crate::answering::waiting_output::{Output, flush, put};
use crate::next_line::{Input, next_line};
use crate::{BookFault, FirstLine, Refusal, TimedNode};
use std::alloc::Global;
use std::io::{BufRead, Write};

/// Reads the first line, and puts out its answer.
///
/// # Errors
///
/// `Line`: it begins no book, or the input ends before it does. This was put out. `Read`: the reader failed. `Write`:
/// the writer failed.
fn take_first<B: BufRead, W: Write>(
    reader: &mut B,
    input: &mut Input,
    writer: &mut W,
    out: &mut Output,
) -> Result<FirstLine, BookFault>
    requires { input.old.failed ≡ false }
    ensures opens { (text : List ℕ) × Opens (B.remaining reader.old) (B.remaining reader.new) text result
        × Puts (W.contents writer.old) (W.contents writer.new) out.old out.new text }
    ensures unfailed { OnOk result (input.new.failed ≡ false) }
    ensures reader { IsErrOf result BookFault.Read
        → HasEnded (B.remaining reader.old) (B.remaining reader.new) input.new.failed }
    ensures writer { IsErrOf result BookFault.Write → out.new.failed ≡ true }
{
    // No `?`, which is dearer to prove: each clause would be carried over to the answer that it makes.
    let is_there = match next_line(reader, input, writer, out) {
        Ok(is_there) => is_there,
        Err(fault) => return Err(fault),
    };
    let first = if is_there && !input.line.is_long {
        FirstLine::parse(input.line.bytes.as_slice())
    } else {
        None
    };
    match first {
        Some(first) => {
            put(writer, out, b"ok\n");
            Ok(first)
        }
        None => {
            put(writer, out, refused_line(Refusal::Line).as_bytes());
            Err(BookFault::Line)
        }
    }
}

/// Reads the lines of a book after this first one, and puts out their answers.
///
/// # Errors
///
/// `Read`: the reader failed. `Write`: the writer failed.
fn take_events<B: BufRead, W: Write>(
    alloc: Global,
    first: FirstLine,
    reader: &mut B,
    input: &mut Input,
    writer: &mut W,
    out: &mut Output,
) -> Result<(), BookFault>
    requires { input.old.failed ≡ false }
    ensures serves { (text : List ℕ) × (after : Timed)
        × Serves first.version (B.remaining reader.old) (B.remaining reader.new)
        (opening first.member.node first.member.nodes first.start) text after result
        × Puts (W.contents writer.old) (W.contents writer.new) out.old out.new text }
    ensures reader { IsErrOf result BookFault.Read
        → HasEnded (B.remaining reader.old) (B.remaining reader.new) input.new.failed }
    ensures writer { IsErrOf result BookFault.Write → out.new.failed ≡ true }
{
    let mut node = TimedNode::new(alloc, first.member, first.start);
    for _line in 0..u64::MAX {
        // No `?`, as in `take_first`.
        let is_there = match next_line(reader, input, writer, out) {
            Ok(is_there) => is_there,
            Err(fault) => return Err(fault),
        };
        if !is_there {
            return Ok(());
        }
        answer_line(alloc, first.version, &mut node, &input.line, writer, out);
    }
    Err(BookFault::Read)
}

/// Reads the lines of a book, and writes their answers.
///
/// # Errors
///
/// Those of `answer_book`.
fn answer_from<B: BufRead, W: Write>(
    alloc: Global,
    reader: &mut B,
    input: &mut Input,
    writer: &mut W,
    out: &mut Output,
) -> Result<(), BookFault>
    requires unfailed { input.old.failed ≡ false }
    requires waiting { out.old.waiting.items ≡ [] }
    ensures answered { (text : List ℕ) × IsOwed (B.remaining reader.old) (B.remaining reader.new) text result
        × IsWritten (W.contents writer.old) (W.contents writer.new) text result }
    // Only after a fault of the reader is `Read` answered, and exactly after one of the writer `Write`.
    ensures reader { IsErrOf result BookFault.Read
        → HasEnded (B.remaining reader.old) (B.remaining reader.new) input.new.failed }
    ensures writer { IsErrOf result BookFault.Write ↔ (out.new.failed ≡ true) }
{
    // No `?`: what waits is written after a refusal, too.
    let taken = match take_first(reader, input, writer, out) {
        Ok(first) => take_events(alloc, first, reader, input, writer, out),
        Err(fault) => Err(fault),
    };
    if flush(writer, out) {
        Err(BookFault::Write)
    } else {
        taken
    }
}

/// Reads a book, hands each event to its node, and writes the answer to each line. The answer to the first line is
/// `ok`. The answer to an event is a line `send TO HEX` for each frame, the lines of its marks, and `ok`. Or it is
/// `refused` and a word, and the node is as before. What is answered is written and passed on before more input is
/// waited for; while the reader shows more, it need not be. A last line without a line feed is not answered.
///
/// It keeps the node and its clock, at most 256 bytes of a line, and up to 16,384 bytes of answers. A line that is
/// refused for lack of memory can come again. It reads at most 2^64 - 1 lines, and as many pieces of each.
///
/// # Errors
///
/// The first that comes:
///
/// 1. `Line`: the first line begins no book, or the input ends before it does. The answer is `refused Line`.
/// 2. `Read`: the reader failed. It is not tried again, and all answers were written.
/// 3. `Write`: the writer failed, and a prefix of the answers was written. Nothing is written after that.
pub fn answer_book<B: BufRead, W: Write>(
    alloc: Global,
    reader: &mut B,
    writer: &mut W,
) -> Result<(), BookFault>
    ensures { (text : List ℕ) × IsOwed (B.remaining reader.old) (B.remaining reader.new) text result
        × IsWritten (W.contents writer.old) (W.contents writer.new) text result }
{
    let mut input = Input::new();
    let mut out = Output::new();
    answer_from(alloc, reader, &mut input, writer, &mut out)
}

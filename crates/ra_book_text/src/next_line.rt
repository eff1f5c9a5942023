//! The next line of the input.
pub mod book_fields;
pub mod book_version;
pub mod event_line;
pub mod first_line;
pub mod input_piece;
pub mod kept_line;

ghost use Rattle.std.specs.Prelude.{◌≡◌, true, false, [], IsErrOf, OnOk};
ghost use Rattle.ra_book_text.specs.Output.{Puts};
ghost use Rattle.ra_book_text.specs.declared.error.BookFault.{BookFault};
ghost use Rattle.ra_book_text.specs.Input.{HasEnded};
ghost use Rattle.ra_book_text.specs.NextLine.{ReadsLine};

use crate::BookFault;
use crate::answering::waiting_output::{Output, flush_if};
use crate::next_line::input_piece::{Piece, take_piece};
use crate::next_line::kept_line::KeptLine;
use std::io::{BufRead, Write};

/// The line that is read, and what is known of the reader. Only this file changes that, or lends it to be changed.
#[derive(Drop)]
pub struct Input {
    pub line: KeptLine,
    /// Whether the reader shows nothing more, so that to ask it may mean to wait.
    is_drained: bool,
    failed: bool,
}

impl Input {
    /// Makes one with nothing read yet.
    pub fn new() -> Input
        ensures { result.failed ≡ false }
    {
        Input {
            line: KeptLine::new(),
            is_drained: true,
            failed: false,
        }
    }
}

/// Reads the next line in place of the present one, and returns whether there is one. What waits to be written is
/// written before the reader is asked for more than it shows. It does not allocate.
///
/// # Errors
///
/// `Read`: the reader failed, or the line has 2^64 - 1 bytes or more. `Write`: the writer failed.
pub fn next_line<B: BufRead, W: Write>(
    reader: &mut B,
    input: &mut Input,
    writer: &mut W,
    out: &mut Output,
) -> Result<bool, BookFault>
    requires { input.old.failed ≡ false }
    ensures read { ReadsLine (B.remaining reader.old) (B.remaining reader.new) input.new.line result }
    ensures puts { Puts (W.contents writer.old) (W.contents writer.new) out.old out.new [] }
    ensures unfailed { OnOk result (input.new.failed ≡ false) }
    // Only after a fault of the reader is `Read` answered, and only after one of the writer `Write`.
    ensures reader { IsErrOf result BookFault.Read
        → HasEnded (B.remaining reader.old) (B.remaining reader.new) input.new.failed }
    ensures writer { IsErrOf result BookFault.Write → out.new.failed ≡ true }
{
    input.line.clear();
    for _turn in 0..u64::MAX {
        if flush_if(input.is_drained, writer, out) {
            return Err(BookFault::Write);
        }
        let piece = match take_piece(reader, &mut input.line, &mut input.is_drained) {
            Ok(piece) => piece,
            Err(_) => {
                input.failed = true;
                return Err(BookFault::Read);
            }
        };
        match piece {
            Piece::Part => {}
            Piece::Over => return Ok(true),
            Piece::End => return Ok(false),
        }
    }
    Err(BookFault::Read)
}

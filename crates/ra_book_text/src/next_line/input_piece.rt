//! Some bytes of the input.
ghost use Rattle.ra_book_text.specs.Input.{KeepsShown, TakesShown, TakesPiece};

use crate::next_line::kept_line::KeptLine;
use ra_text::{ReadFault, cut, next_byte};
use std::io::{BufRead, Read};

/// What was taken.
#[derive(Clone, Copy)]
pub enum Piece {
    /// Bytes of a line that goes on.
    Part,
    /// The last bytes of a line, and its line feed.
    Over,
    /// Nothing: the input is at its end.
    End,
}

/// What is taken of the bytes that a reader shows.
#[derive(Clone, Copy)]
pub struct TakenBytes {
    /// How many they are.
    pub count: usize,
    /// Whether the last of them is a line feed.
    pub is_over: bool,
    /// Whether they are all that is shown.
    pub is_all: bool,
}

/// Adds to a line what is shown of it, and returns how many bytes that takes.
fn keep_shown(shown: &[u8], line: &mut KeptLine) -> TakenBytes
    ensures { KeepsShown shown.now line.old line.new result }
{
    let (part, after) = cut(shown, b'\n');
    line.push(part);
    match after {
        Some(rest) => TakenBytes {
            count: part.len() + 1,
            is_over: true,
            is_all: rest.is_empty(),
        },
        None => TakenBytes {
            count: part.len(),
            is_over: false,
            is_all: true,
        },
    }
}

/// Takes one byte from a reader that shows none. By the contract of `BufRead`, a reader that shows nothing need not be
/// at its end; one that gives nothing is.
///
/// # Errors
///
/// `Read`: the reader failed. It is not tried again.
fn take_byte<R: Read>(reader: &mut R, line: &mut KeptLine) -> Result<Piece, ReadFault>
    ensures { TakesPiece (R.remaining reader.old) (R.remaining reader.new) line.old line.new result }
{
    let Some(byte) = next_byte(reader)? else {
        return Ok(Piece::End);
    };
    if byte == b'\n' {
        return Ok(Piece::Over);
    }
    line.push(&[byte]);
    Ok(Piece::Part)
}

/// Takes what a reader shows of a line.
///
/// # Errors
///
/// `Read`: the reader failed. It is not tried again.
fn take_shown<B: BufRead>(reader: &mut B, line: &mut KeptLine) -> Result<TakenBytes, ReadFault>
    ensures { TakesShown (B.remaining reader.old) (B.remaining reader.new) line.old line.new result }
{
    let shown = match reader.fill_buf() {
        Ok(shown) => shown,
        Err(_) => return Err(ReadFault::Read),
    };
    let taken = keep_shown(shown, line);
    reader.consume(taken.count);
    Ok(taken)
}

/// Takes some bytes of a line, or finds that the input is at its end, and says in `is_drained` whether the reader shows
/// nothing more. It does not allocate.
///
/// # Errors
///
/// `Read`: the reader failed. It is not tried again.
pub fn take_piece<B: BufRead>(
    reader: &mut B,
    line: &mut KeptLine,
    is_drained: &mut bool,
) -> Result<Piece, ReadFault>
    ensures { TakesPiece (B.remaining reader.old) (B.remaining reader.new) line.old line.new result }
{
    let taken = take_shown(reader, line)?;
    *is_drained = taken.is_all;
    if taken.is_over {
        Ok(Piece::Over)
    } else if taken.count > 0 {
        Ok(Piece::Part)
    } else {
        take_byte(reader, line)
    }
}

//! The lines of the input.
ghost use Rattle.std.specs.Prelude.{◌≡◌, ◌++◌, ℕ, List, []};
ghost use Rattle.ra_serve.specs.Input.{IsKept, KeepsShown, TakesPiece, TakesShown};

use arrayvec::ArrayVec;
use ra_text::{ReadFault, cut, next_byte};
use std::io::{BufRead, Read};

/// The most bytes that are kept of a line: more than each line that counts has.
const MOST_KEPT: usize = 4608;

/// What was taken of the input.
#[derive(Clone, Copy)]
pub enum Piece {
    /// Bytes of a line that goes on.
    Part,
    /// The last bytes of a line, and its line feed.
    Over,
    /// Nothing: the input is at its end.
    End,
}

/// What is taken of the bytes that a reader shows.
#[derive(Clone, Copy)]
pub struct TakenBytes {
    /// How many they are.
    pub count: usize,
    /// Whether the last of them is a line feed.
    pub is_over: bool,
    /// Whether they are all that is shown.
    pub is_all: bool,
}

/// The first bytes of the line that is read.
#[derive(Drop)]
pub struct LineInput {
    pub bytes: ArrayVec<u8, MOST_KEPT>,
    /// Whether the reader shows nothing more, so that to ask it may mean to wait.
    pub is_drained: bool,
}

impl LineInput {
    /// Makes one without bytes.
    pub fn new() -> LineInput
        ensures { IsKept [] result.bytes.items }
    {
        LineInput {
            bytes: ArrayVec::new(),
            is_drained: true,
        }
    }

    /// Returns what is kept of the line. It does not allocate.
    pub fn line(&self) -> &[u8]
        ensures { result.now ≡ self.now.bytes.items }
    {
        self.bytes.as_slice()
    }

    /// Begins the next line.
    pub fn clear(&mut self)
        ensures { IsKept [] self.new.bytes.items }
    {
        self.bytes.clear();
    }

    /// Adds bytes to the line.
    fn push(&mut self, more: &[u8])
        ensures { (text : List ℕ) → IsKept text self.old.bytes.items
            → IsKept (text ++ more.now) self.new.bytes.items }
    {
        let count = more.len().min(self.bytes.remaining_capacity());
        self.bytes.try_extend_from_slice(&more[..count]).unwrap();
    }
}

/// Adds to a line what is shown of it, and returns how many bytes that takes.
fn keep_shown(shown: &[u8], line: &mut LineInput) -> TakenBytes
    ensures { KeepsShown shown.now line.old.bytes.items line.new.bytes.items result }
{
    let (part, after) = cut(shown, b'\n');
    line.push(part);
    match after {
        Some(rest) => TakenBytes {
            count: part.len() + 1,
            is_over: true,
            is_all: rest.is_empty(),
        },
        None => TakenBytes {
            count: part.len(),
            is_over: false,
            is_all: true,
        },
    }
}

/// Takes one byte from a reader that shows none. By the contract of `BufRead`, a reader that shows nothing need not be
/// at its end; one that gives nothing is.
///
/// # Errors
///
/// `Read`: the reader failed. It is not tried again.
fn take_byte<R: Read>(reader: &mut R, line: &mut LineInput) -> Result<Piece, ReadFault>
    ensures { TakesPiece (R.remaining reader.old) (R.remaining reader.new) line.old.bytes.items
        line.new.bytes.items result }
{
    let Some(byte) = next_byte(reader)? else {
        return Ok(Piece::End);
    };
    if byte == b'\n' {
        return Ok(Piece::Over);
    }
    line.push(&[byte]);
    Ok(Piece::Part)
}

/// Takes what a reader shows of a line.
///
/// # Errors
///
/// `Read`: the reader failed. It is not tried again.
fn take_shown<B: BufRead>(reader: &mut B, line: &mut LineInput) -> Result<TakenBytes, ReadFault>
    ensures { TakesShown (B.remaining reader.old) (B.remaining reader.new) line.old.bytes.items
        line.new.bytes.items result }
{
    let shown = match reader.fill_buf() {
        Ok(shown) => shown,
        Err(_) => return Err(ReadFault::Read),
    };
    let taken = keep_shown(shown, line);
    reader.consume(taken.count);
    Ok(taken)
}

/// Takes some bytes of the line, or finds that the input is at its end, and notes whether the reader shows nothing
/// more. It does not allocate.
///
/// # Errors
///
/// `Read`: the reader failed. It is not tried again.
pub fn take_piece<B: BufRead>(reader: &mut B, line: &mut LineInput) -> Result<Piece, ReadFault>
    ensures { TakesPiece (B.remaining reader.old) (B.remaining reader.new) line.old.bytes.items
        line.new.bytes.items result }
{
    let taken = take_shown(reader, line)?;
    line.is_drained = taken.is_all;
    if taken.is_over {
        Ok(Piece::Over)
    } else if taken.count > 0 {
        Ok(Piece::Part)
    } else {
        take_byte(reader, line)
    }
}

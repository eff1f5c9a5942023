ghost use Rattle.std.specs.Prelude.{◌≡◌};

use std::alloc::AllocError;
use std::fmt;
use thiserror::Error;

/// Why a text of books does not settle. The causes are looked for in this order.
#[derive(Clone, Copy, Debug, PartialEq, Eq)]
pub enum TextCause {
    /// The line has none of the forms of lines, or more than 256 bytes; or the text does not begin with the first line
    /// of a book.
    Line,
    /// The line is the first one of a book of a node that has a book already, or of another number of nodes or another
    /// start than those before it. At the end of the text: the book of a node is missing.
    Books,
    /// The digits are no frame, or the node does not take the event.
    Refused,
    /// A frame comes that is not among those that its sender's book sent with its clock.
    NotSent,
    /// A message comes that came by an earlier line.
    Twice,
}

/// Why a text of books was not settled.
#[derive(Clone, Copy, Debug, PartialEq, Eq, Error)]
pub enum SettleTextError {
    /// It does not settle: the line that is wrong, counted from 1, and the cause.
    Invalid { line: u64, cause: TextCause },
    /// Memory ran out.
    Memory,
}

impl fmt::Display for SettleTextError {
    fn fmt<W: fmt::Write>(&self, f: &mut fmt::Formatter<W>) -> fmt::Result {
        fmt::Debug::fmt(self, f)
    }
}

impl From<AllocError> for SettleTextError {
    ghost use Rattle.ra_book_text.specs.declared.text_settling.settle_error.SettleTextError.TheVariants.{Memory};

    ghost from_gives = { λ _ fault. fault ≡ Memory };

    fn from(_failed: AllocError) -> SettleTextError {
        SettleTextError::Memory
    }
}

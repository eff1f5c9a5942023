ghost use Rattle.std.specs.Prelude.{◌≡◌};
ghost use Rattle.ra_draw.specs.Drawing.{of_trace};

use ra_trace::TraceError;
use std::fmt;
use thiserror::Error;

/// Why no picture was drawn. The causes are looked for in this order.
#[derive(Clone, Copy, Debug, PartialEq, Eq, Error)]
pub enum DrawError {
    /// The reader failed.
    Read,
    /// The text has more than 16,777,216 bytes.
    Limit,
    /// The text has this many lines, and none of them is in the part.
    NoLines { lines: u64 },
    /// More than 4,096 lines of the text would be drawn.
    TooLong,
    /// Memory ran out.
    Memory,
    /// The writer failed.
    Write,
}

// By hand, since a derived one takes ten times as long to prove.
impl fmt::Display for DrawError {
    /// Prints the name of the variant.
    fn fmt<W: fmt::Write>(&self, f: &mut fmt::Formatter<W>) -> fmt::Result {
        match self {
            DrawError::NoLines { .. } => f.write_str("NoLines"),
            _ => fmt::Debug::fmt(self, f),
        }
    }
}

impl From<TraceError> for DrawError {
    ghost from_gives = { λ fault e. e ≡ of_trace fault };

    /// Returns the refusal of the same word.
    fn from(fault: TraceError) -> DrawError {
        match fault {
            TraceError::Read => DrawError::Read,
            TraceError::Limit => DrawError::Limit,
            TraceError::Memory => DrawError::Memory,
        }
    }
}

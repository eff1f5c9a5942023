ghost use Rattle.std.specs.Prelude.{◌≡◌, ◌≤◌, length};
ghost use Rattle.ra_frame.specs.Words as spec;

use std::fmt;
use thiserror::Error;

/// Why bytes are not a frame: the first field, in their order, that is not all there or not in its range.
#[derive(Clone, Copy, Debug, PartialEq, Eq, Error)]
pub enum FrameError {
    /// A byte of the field is missing.
    Short,
    /// The version is neither 1 nor 2.
    Version,
    /// The kind is neither 1 nor 2.
    Kind,
    /// The sender is not 1 to 16 in version 1, or not 1 to 64 in version 2.
    From,
    /// The receiver is not 1 to 16 in version 1, or not 1 to 64 in version 2.
    To,
    /// The sender is the receiver.
    SameNode,
    /// The mode is not one that this kind may have in this version.
    Mode,
    /// The sequence number is 0.
    Seq,
    /// The clock is not 1 to 2^62.
    Clock,
    /// The length of the name is not 1 to 32.
    NameLength,
    /// A byte of the name is not one that names may have.
    NameByte,
    /// Bytes follow the name.
    Trailing,
}

impl FrameError {
    /// Returns the line that says that a frame is refused, and why: `refused` and the name of the variant. It has at
    /// most 40 bytes, and is a constant, so that it can be written even if memory is lacking. It does not allocate.
    pub fn refused_line(self) -> &'static str
        ensures text { result.now ≡ spec.refused_line self }
        ensures short { length result.now ≤ 40 }
    {
        match self {
            FrameError::Short => "refused Short\n",
            FrameError::Version => "refused Version\n",
            FrameError::Kind => "refused Kind\n",
            FrameError::From => "refused From\n",
            FrameError::To => "refused To\n",
            FrameError::SameNode => "refused SameNode\n",
            FrameError::Mode => "refused Mode\n",
            FrameError::Seq => "refused Seq\n",
            FrameError::Clock => "refused Clock\n",
            FrameError::NameLength => "refused NameLength\n",
            FrameError::NameByte => "refused NameByte\n",
            FrameError::Trailing => "refused Trailing\n",
        }
    }
}

impl fmt::Display for FrameError {
    /// Prints the name of the variant.
    fn fmt<W: fmt::Write>(&self, f: &mut fmt::Formatter<W>) -> fmt::Result {
        fmt::Debug::fmt(self, f)
    }
}

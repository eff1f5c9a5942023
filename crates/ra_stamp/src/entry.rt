ghost use Rattle.std.specs.Prelude.{◌≡◌};
ghost use Rattle.ra_stamp.specs.Mark.{entry_of_mark, mark_word};

use crate::{Mode, Name, Sequence, Stamp};
use std::fmt;

/// A request of a client at a node, the stamp's. It prints as node, client, name, mode and number: `1 7 r X 3`.
#[derive(Clone, Copy, Debug, PartialEq, Eq)]
pub struct Entry {
    /// The resource.
    pub name: Name,
    /// How the resource is locked. It comes second, since a name has an odd number of bytes: a copy of an entry is
    /// faster if the gap before the next number is not of seven bytes, which are moved by two stores that overlap.
    pub mode: Mode,
    /// When it was made, and at which node.
    pub stamp: Stamp,
    /// The client at that node, any number.
    pub client: u32,
}

/// What happened to an entry. It prints as a word and the entry: `request 1 7 r X 3`, `enter ..`, `leave ..` or
/// `withdraw ..`.
#[derive(Clone, Copy, Debug, PartialEq, Eq)]
pub enum Mark {
    /// It was stamped, and waits from then on.
    Requested(Entry),
    /// It was granted, and holds from then on.
    Entered(Entry),
    /// It was given back.
    Left(Entry),
    /// It was given up while it waited.
    Withdrawn(Entry),
}

impl Mark {
    /// Returns its word: `request`, `enter`, `leave` or `withdraw`. It does not allocate.
    pub fn word(&self) -> &'static str
        ensures { result.now ≡ mark_word self.now }
    {
        match self {
            Mark::Requested(_) => "request",
            Mark::Entered(_) => "enter",
            Mark::Left(_) => "leave",
            Mark::Withdrawn(_) => "withdraw",
        }
    }

    /// Returns the mark's entry. It does not allocate.
    pub fn entry(&self) -> &Entry
        ensures { result.now ≡ entry_of_mark self.now }
    {
        match self {
            Mark::Requested(entry)
            | Mark::Entered(entry)
            | Mark::Left(entry)
            | Mark::Withdrawn(entry) => entry,
        }
    }
}

/// A list of marks.
pub type Marks = Sequence<Mark>;

impl fmt::Display for Entry {
    fn fmt<W: fmt::Write>(&self, f: &mut fmt::Formatter<W>) -> fmt::Result {
        write!(
            f,
            "{} {} {} {} {}",
            self.stamp.node, self.client, self.name, self.mode, self.stamp.seq,
        )
    }
}

impl fmt::Display for Mark {
    fn fmt<W: fmt::Write>(&self, f: &mut fmt::Formatter<W>) -> fmt::Result {
        write!(f, "{} {}", self.word(), self.entry())
    }
}

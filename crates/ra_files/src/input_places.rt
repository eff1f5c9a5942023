//! Where the lines of several inputs are that are read as one, and which of them failed.
use std::alloc::{AllocError, Global};
use std::io::ErrorKind;

/// Why an input cannot be read.
#[derive(Clone, Copy)]
pub enum InputFault {
    /// There is no such file.
    Missing,
    /// It may not be read.
    Denied,
    /// It is a folder.
    Folder,
    /// Another cause.
    Other,
}

impl InputFault {
    /// Returns the fault of this kind. It does not allocate.
    fn of(kind: ErrorKind) -> InputFault {
        match kind {
            ErrorKind::NotFound => InputFault::Missing,
            ErrorKind::PermissionDenied => InputFault::Denied,
            ErrorKind::IsADirectory => InputFault::Folder,
            _ => InputFault::Other,
        }
    }
}

/// Which input failed, and why.
#[derive(Clone, Copy)]
pub struct InputFailure {
    /// How many inputs come before it.
    pub place: usize,
    pub fault: InputFault,
}

/// The place of a line.
#[derive(Clone, Copy)]
pub struct LinePlace {
    /// How many inputs come before that in which it begins.
    pub place: usize,
    /// Which line of that input it is, counted from 1.
    pub line: u64,
}

/// What comes before an input.
#[derive(Clone, Copy)]
struct Beginning {
    /// How many lines begin before it.
    lines: u64,
    /// Whether the last of them goes on in it.
    is_inside: bool,
    /// Whether the input was read.
    is_begun: bool,
}

/// Where the lines of several inputs are that are read as one. Lines are only counted if there is more than one input.
#[derive(Drop)]
pub struct InputPlaces {
    beginnings: Vec<Beginning>,
    /// How many lines begin in what was read.
    lines: u64,
    /// Whether what was read ends inside a line.
    is_inside: bool,
    failure: Option<InputFailure>,
}

impl InputPlaces {
    /// Makes the places of this many inputs, of which nothing was read.
    ///
    /// # Errors
    ///
    /// `AllocError`: there is no memory for them.
    pub fn new(alloc: Global, count: usize) -> Result<InputPlaces, AllocError> {
        let mut beginnings = Vec::new(alloc);
        for _ in 0..count {
            beginnings.push(Beginning {
                lines: 0,
                is_inside: false,
                is_begun: false,
            })?;
        }
        Ok(InputPlaces {
            beginnings,
            lines: 0,
            is_inside: false,
            failure: None,
        })
    }

    /// Notes that these bytes were read. It does not allocate. The cost is linear in them if there is more than one
    /// input.
    pub fn read(&mut self, bytes: &[u8]) {
        if self.beginnings.len() < 2 {
            return;
        }
        for byte in bytes {
            if !self.is_inside {
                self.lines = self.lines.saturating_add(1);
            }
            self.is_inside = *byte != b'\n';
        }
    }

    /// Notes that an input begins, before which there are this many. It does not allocate.
    pub fn begin(&mut self, place: usize) {
        if let Some(beginning) = self.beginnings.get_mut(place) {
            *beginning = Beginning {
                lines: self.lines,
                is_inside: self.is_inside,
                is_begun: true,
            };
        }
    }

    /// Notes that an input failed, before which there are this many. It does not allocate.
    pub fn fail(&mut self, place: usize, kind: ErrorKind) {
        self.failure = Some(InputFailure {
            place,
            fault: InputFault::of(kind),
        });
    }

    /// Returns which input failed, and why, if one did. It does not allocate.
    pub fn failure(&self) -> Option<InputFailure> {
        self.failure
    }

    /// Returns the place of a line of the whole, counted from 1. If the whole has fewer lines, it would begin in the
    /// last input that was read. It does not allocate. The cost is linear in the number of inputs.
    pub fn place_of(&self, line: u64) -> LinePlace {
        let mut found = LinePlace { place: 0, line };
        for place in 1..self.beginnings.len() {
            let beginning = self.beginnings[place];
            if !beginning.is_begun || beginning.lines >= line {
                break;
            }
            found = LinePlace {
                place,
                line: (line - beginning.lines).saturating_add(u64::from(beginning.is_inside)),
            };
        }
        found
    }
}

//! The inputs of a command, as notes name them.
use ra_files::InputPlaces;

/// How notes name standard input.
const STANDARD: &str = "standard input";

/// The inputs of a command.
#[derive(Clone, Copy)]
pub struct Inputs<'a> {
    /// The names of the files that it reads, one after the other. `-` is standard input, and so is no file at all.
    pub files: &'a [&'a str],
    /// Where their lines are, and which of them failed.
    pub places: &'a InputPlaces,
}

/// Returns whether a name has a byte that would end a note or command the terminal. It does not allocate.
fn has_control(name: &str) -> bool {
    for byte in name.as_bytes() {
        if *byte < b' ' || *byte == 127 {
            return true;
        }
    }
    false
}

/// Returns how notes name a file. It does not allocate.
fn shown_name(name: &str) -> &str {
    if name == "-" {
        STANDARD
    } else if has_control(name) {
        "a file"
    } else {
        name
    }
}

impl<'a> Inputs<'a> {
    /// Returns the names of the files, or none if only standard input is read. It does not allocate.
    pub fn named(&self) -> &'a [&'a str] {
        match self.files {
            ["-"] => &[],
            files => files,
        }
    }

    /// Returns how notes name the input before which there are this many. It does not allocate.
    pub fn name_at(&self, place: usize) -> &'a str {
        match self.named().get(place) {
            Some(name) => shown_name(name),
            None => STANDARD,
        }
    }

    /// Returns how notes name all that is read. It does not allocate.
    pub fn name(&self) -> &'a str {
        match self.named().len() {
            0 | 1 => self.name_at(0),
            _ => "the input",
        }
    }
}

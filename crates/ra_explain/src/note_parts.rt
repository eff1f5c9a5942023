//! Parts of a note that are often added together. One call for them is proved faster than one for each.
use itoa::Integer;
use ra_stamp::{Mode, Name};
use ra_text::Note;

/// What comes between two lines of a note: each line begins with `ra: `.
pub const NEXT_LINE: &str = "\nra: ";

/// Adds a text and the number after it.
pub fn push_numbered<N: Integer>(note: &mut Note, text: &str, number: N) {
    note.push(text);
    note.number(number);
}

/// Adds a number between two texts.
pub fn push_number_in<N: Integer>(note: &mut Note, before: &str, number: N, after: &str) {
    push_numbered(note, before, number);
    note.push(after);
}

/// Adds a text, a name in quotes and a mode in brackets.
pub fn push_name_and_mode(note: &mut Note, text: &str, name: &Name, mode: Mode) {
    note.push(text);
    note.name(name);
    note.mode(mode);
}

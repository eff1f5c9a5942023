//! What there is to say to a person, and how it is written.
use crate::inputs::Inputs;
use crate::note_source::NoteSource;
use crate::unread_note::write_unread;
use itoa::Buffer;
use ra_text::{Note, WriteFault, write_out};
use std::io::Write;

/// What is said if memory ran out.
pub const NO_MEMORY: &str = "out of memory";

/// What there is to say to a person.
#[derive(Drop)]
pub enum Notice {
    Nothing,
    /// A text that depends on neither the arguments nor the input.
    Text(&'static str),
    /// Such a text, about the input, whose name comes before it.
    Input(&'static str),
    /// Such a text, about a line.
    Line { line: u64, text: &'static str },
    /// The input cannot be read.
    Unread,
    /// A note, which begins with `line` and a number if it is about a line.
    Note(String),
}

impl Notice {
    /// Returns what a note says, or that memory ran out for it.
    pub fn of(note: Note) -> Notice {
        match note.finish() {
            Ok(Some(text)) => Notice::Note(text),
            Ok(None) => Notice::Nothing,
            Err(_) => Notice::Text(NO_MEMORY),
        }
    }

    /// Writes it as a line, which begins with a file and a line of it if it is about a line of a file. It does not
    /// allocate, and ignores a failure of the writer.
    pub fn write<N: Write>(&self, source: &NoteSource<'_>, notes: &mut N) {
        let _ = self.write_up_to_a_failure(source, notes);
    }

    /// Writes it as a line while the command runs. By then it is not known how many lines each file has, so the number of
    /// a line counts those of all files. It does not allocate, and ignores a failure of the writer.
    pub fn write_early<N: Write>(&self, notes: &mut N) {
        let _ = match self {
            Notice::Line { line, text } => write_by_number(notes, *line, text),
            Notice::Note(text) => write_whole_line(notes, text.as_str()),
            _ => Ok(()),
        };
    }

    /// Writes it so.
    ///
    /// # Errors
    ///
    /// `WriteFault`: the writer failed.
    fn write_up_to_a_failure<N: Write>(
        &self,
        source: &NoteSource<'_>,
        notes: &mut N,
    ) -> Result<(), WriteFault> {
        let inputs = &source.inputs;
        match self {
            Notice::Nothing => Ok(()),
            Notice::Text(text) => write_whole_line(notes, text),
            Notice::Input(text) => {
                write_text(notes, "ra: ")?;
                write_text(notes, inputs.name())?;
                write_text(notes, " ")?;
                write_text(notes, text)?;
                write_text(notes, "\n")
            }
            Notice::Line { line, text } => write_at(notes, inputs, *line, ": ", text),
            Notice::Unread => write_unread(source, notes),
            Notice::Note(text) => match line_in(text.as_str()) {
                Some((line, rest)) => write_at(notes, inputs, line, rest, ""),
                None => write_whole_line(notes, text.as_str()),
            },
        }
    }
}

/// Returns the line that a note is about, if it begins with one, and what follows. It does not allocate.
fn line_in(text: &str) -> Option<(u64, &str)> {
    let rest = text.strip_prefix("line ")?;
    let mut end = 0usize;
    for byte in rest.as_bytes() {
        if !byte.is_ascii_digit() {
            break;
        }
        end = end.saturating_add(1);
    }
    match rest.get(..end)?.parse() {
        Ok(line) => Some((line, rest.get(end..)?)),
        Err(_) => None,
    }
}

/// Writes a note about a line of all that is read: where the line is, and this text. It does not allocate.
///
/// # Errors
///
/// `WriteFault`: the writer failed.
fn write_at<N: Write>(
    notes: &mut N,
    inputs: &Inputs<'_>,
    line: u64,
    joint: &str,
    text: &str,
) -> Result<(), WriteFault> {
    if inputs.named().is_empty() {
        write_text(notes, "ra: line ")?;
        write_number(notes, line)?;
    } else {
        let at = inputs.places.place_of(line);
        write_text(notes, "ra: ")?;
        write_text(notes, inputs.name_at(at.place))?;
        write_text(notes, ":")?;
        write_number(notes, at.line)?;
    }
    if inputs.named().len() > 1 {
        // The rest of the note and standard output count lines over all files.
        write_text(notes, " (line ")?;
        write_number(notes, line)?;
        write_text(notes, " of all)")?;
    }
    write_text(notes, joint)?;
    write_text(notes, text)?;
    write_text(notes, "\n")
}

/// Writes a note about a line, by its number alone. It does not allocate.
///
/// # Errors
///
/// `WriteFault`: the writer failed.
fn write_by_number<N: Write>(notes: &mut N, line: u64, text: &str) -> Result<(), WriteFault> {
    write_text(notes, "ra: line ")?;
    write_number(notes, line)?;
    write_text(notes, ": ")?;
    write_text(notes, text)?;
    write_text(notes, "\n")
}

/// Writes a number. It does not allocate.
///
/// # Errors
///
/// `WriteFault`: the writer failed.
fn write_number<N: Write>(notes: &mut N, number: u64) -> Result<(), WriteFault> {
    let mut digits = Buffer::new();
    write_text(notes, digits.format(number))
}

/// Writes a text. It does not allocate.
///
/// # Errors
///
/// `WriteFault`: the writer failed.
pub fn write_text<N: Write>(notes: &mut N, text: &str) -> Result<(), WriteFault> {
    write_out(notes, text.as_bytes())
}

/// Writes a text as a line, which begins with `ra: `. It does not allocate.
///
/// # Errors
///
/// `WriteFault`: the writer failed.
fn write_whole_line<N: Write>(notes: &mut N, text: &str) -> Result<(), WriteFault> {
    write_text(notes, "ra: ")?;
    write_text(notes, text)?;
    write_text(notes, "\n")
}

/// Writes a text as a line, which begins with `ra: `. It does not allocate, and ignores a failure of the writer.
pub fn write_line<N: Write>(notes: &mut N, text: &str) {
    let _ = write_whole_line(notes, text);
}

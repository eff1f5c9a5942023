//! What is said if the input cannot be read.
use crate::given_options::is_given;
use crate::note_source::NoteSource;
use crate::notice::write_text;
use ra_arguments::command_named;
use ra_files::InputFault;
use ra_text::WriteFault;
use std::io::Write;

/// Returns whether a word looks like a choice: a letter for one, and digits. It does not allocate.
fn looks_like_choice(word: &str) -> bool {
    match word.as_bytes() {
        [b'c' | b'm' | b'l', digit, ..] => digit.is_ascii_digit(),
        _ => false,
    }
}

/// Returns what is said of why an input cannot be read. It does not allocate.
fn cause_text(fault: InputFault) -> &'static str {
    match fault {
        InputFault::Missing => ": no such file",
        InputFault::Denied => ": permission denied",
        InputFault::Folder => ": it is a folder, and a file is expected",
        InputFault::Other => "",
    }
}

/// Returns what a name may mean that is no file's: choices of which only the first was taken, since all of them are one
/// argument, or help. It does not allocate.
fn meaning_of_name(arguments: &[String], name: &str) -> (&'static str, &'static str) {
    if looks_like_choice(name) && is_given(arguments, "choices") {
        return (
            "; all choices are one argument: quote them, as in --choices \"c1 m0\"",
            "",
        );
    }
    match command_named(arguments) {
        Some(command) if name == "help" => ("; see ra help ", command),
        _ => ("", ""),
    }
}

/// Writes which input cannot be read, and why. It does not allocate.
///
/// # Errors
///
/// `WriteFault`: the writer failed.
pub fn write_unread<N: Write>(source: &NoteSource<'_>, notes: &mut N) -> Result<(), WriteFault> {
    let inputs = &source.inputs;
    let (place, why) = match inputs.places.failure() {
        Some(failure) => (failure.place, cause_text(failure.fault)),
        None => (0, ""),
    };
    let name = inputs.name_at(place);
    let (tip, command) = meaning_of_name(source.arguments, name);
    write_text(notes, "ra: cannot read ")?;
    write_text(notes, name)?;
    write_text(notes, why)?;
    write_text(notes, tip)?;
    write_text(notes, command)?;
    write_text(notes, "\n")
}

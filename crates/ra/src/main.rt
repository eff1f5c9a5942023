//! The program `ra`.
#![tactic(auto)]

mod named_input;
mod serving_with_notes;
mod user_notes;

use crate::named_input::NamedInput;
use crate::serving_with_notes::{GivenInput, refuse_arguments_with_note, serve_with_notes};
use ra_arguments::sort_words;
use ra_cli::{CommandFault, serve};
use ra_files::JoinedReader;
use ra_notes::{RecordingReader, RecordingWriter};
use std::alloc::AllocError;
use std::io::{BufReader, IsTerminal};
use std::process::ExitCode;
use std::{env, io};

/// What the program reads: its inputs, one after the other, in small pieces, which would otherwise be a call of the
/// system each.
type Inputs<'a> = BufReader<JoinedReader<NamedInput<'a>>>;

/// Returns the words of the command line. The first is the program's name.
///
/// # Errors
///
/// 1. `Memory`: memory ran out for them.
/// 2. `Usage`: they cannot be read, for example since one is not UTF-8.
fn words(rt: &HostRuntime) -> Result<Vec<String>, CommandFault> {
    match env::args(rt) {
        Ok(words) => words.collect(rt.alloc()).or(Err(CommandFault::Memory)),
        Err(fault) if fault.kind() == io::ErrorKind::OutOfMemory => Err(CommandFault::Memory),
        Err(_) => Err(CommandFault::Usage),
    }
}

/// Returns the inputs of these names, or standard input if there is none. Nothing is opened yet.
///
/// # Errors
///
/// `AllocError`: there is no memory for them.
fn inputs<'a>(rt: &'a HostRuntime, names: &[&'a str]) -> Result<Inputs<'a>, AllocError> {
    let mut parts = Vec::new(rt.alloc());
    if names.is_empty() {
        parts.push(NamedInput::new(rt, "-"))?;
    }
    for name in names {
        parts.push(NamedInput::new(rt, name))?;
    }
    let joined = JoinedReader::new(rt.alloc(), parts)?;
    BufReader::new(rt.alloc(), joined).or(Err(AllocError))
}

/// Returns whether one of these inputs is standard input, and that is a terminal.
fn is_at_terminal(rt: &HostRuntime, names: &[&str]) -> bool {
    (names.is_empty() || names.contains(&"-")) && rt.stdin().is_terminal()
}

fn main(rt: HostRuntime) -> ExitCode {
    let alloc = rt.alloc();
    let mut writer = RecordingWriter::new(io::writer(&rt));
    let mut notes = rt.stderr();
    let words = match words(&rt) {
        Ok(words) => words,
        Err(fault) => {
            return ExitCode::from(refuse_arguments_with_note(&mut writer, fault, &mut notes));
        }
    };
    let Ok(words) = sort_words(alloc, words.as_slice()) else {
        let status = refuse_arguments_with_note(&mut writer, CommandFault::Memory, &mut notes);
        return ExitCode::from(status);
    };
    let (arguments, files) = (words.arguments.as_slice(), words.files.as_slice());
    let Ok(inputs) = inputs(&rt, files) else {
        let status = refuse_arguments_with_note(&mut writer, CommandFault::Memory, &mut notes);
        return ExitCode::from(status);
    };
    if words.is_quiet {
        let mut reader = RecordingReader::forgetful(alloc, inputs);
        return ExitCode::from(serve(&rt, alloc, arguments, &mut reader, &mut writer));
    }
    let given = GivenInput {
        files,
        at_terminal: is_at_terminal(&rt, files),
    };
    let mut reader = RecordingReader::new(alloc, arguments, inputs);
    let status = serve_with_notes(
        &rt,
        alloc,
        arguments,
        given,
        &mut reader,
        &mut writer,
        &mut notes,
    );
    ExitCode::from(status)
}

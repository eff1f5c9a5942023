//! What `ra` does, with notes for a person.
ghost use Rattle.std.specs.Prelude.{◌≡◌, map, string_bytes};
ghost use Rattle.ra_arguments.specs.Helping.{helps_of};
ghost use Rattle.ra_cli.specs.Commands.{Serves};
ghost use Rattle.ra_cli.specs.Refusals.{command_word, refused_line};
ghost use Rattle.ra_cli.specs.Statuses.{Writes};

use crate::user_notes::write_notes;
use ra_arguments::{
    ANSWER_HELP, CHECK_HELP, CLUSTER_HELP, Command, DRAW_HELP, NODE_HELP, SETTLE_HELP, SIM_HELP,
    STATUS_HELP, SUMMARY_HELP, Task, read_command_line,
};
use ra_cli::{CommandFault, do_alone, refuse_arguments, run_by_threads};
use ra_files::ReadsInputs;
use ra_notes::{
    Inputs, NoteSource, Progress, RecordingReader, RecordingWriter, write_arguments_note,
    write_output_note, write_waiting_note,
};
use std::alloc::Global;
use std::io::{BufRead, Write};
use std::sync::Wait;
use std::thread::Threads;

/// What is known of the input before it is read.
#[derive(Clone, Copy)]
pub struct GivenInput<'a> {
    /// The names of the files that the reader gives, one after the other.
    pub files: &'a [&'a str],
    /// Whether standard input is read, and is a terminal.
    pub at_terminal: bool,
}

/// Does as [`refuse_arguments`], and then writes a line for a person to `notes`. It writes another if `writer` failed,
/// unless that is a pipe that is not read any more. A failure of `notes` changes nothing else.
pub fn refuse_arguments_with_note<W: Write, N: Write>(
    writer: &mut RecordingWriter<W>,
    fault: CommandFault,
    notes: &mut N,
) -> u8
    ensures { Writes (refused_line (command_word fault)) 2 (W.contents writer.old.inner)
        (W.contents writer.new.inner) result }
{
    let status = refuse_arguments(writer, fault);
    write_arguments_note(fault, notes);
    write_output_note(writer.fault(), notes);
    status
}

/// Does as [`ra_cli::serve`], and then writes lines for a person to `notes`:
///
/// - If something was refused, a text is no trace, a log is no mark log, books do not settle, or a run ended with
///   something left to do, a line says what is wrong, where in what was read, and what would be right. If a run was
///   shrunk, it is about the shorter one, and another line says by how much.
/// - If a text is a trace or a mark log, a line says what is left at its end, if anything is, or that a log has no
///   mark.
/// - If requests were withdrawn in a text that was checked or drawn, or in books that settled, a line says which, and
///   who went on because of that.
/// - There is a line for each option that has no effect, if the policy `listed` has no choices, if a finished run
///   leaves names locked, and for the seed of a run that was found.
/// - There is a line if `writer` failed, unless that is a pipe that is no longer read.
///
/// If the input is at a terminal, the first line says what the command waits for. While many seeds take long, or a text
/// is followed, it writes there how far it is. Of a text that is followed only what is open is kept for the note. Each
/// line begins with `ra: `. No note goes to `writer`, and a note is left out if memory or `notes` fails, which changes
/// nothing else. To find the place in a script, it is read again. To find which client waits for which, it is run again,
/// and shrunk again if it was. For the mark that is due, a trace that was to be drawn is checked again. For what was
/// withdrawn, books in which a client gives up are settled again, if they have at most 16,777,216 bytes.
pub fn serve_with_notes<T: Threads + Wait + Sync, R: BufRead + ReadsInputs, W: Write, N: Write>(
    rt: &T,
    alloc: Global,
    arguments: &[String],
    given: GivenInput<'_>,
    reader: &mut RecordingReader<R>,
    writer: &mut RecordingWriter<W>,
    notes: &mut N,
) -> u8
    // The same is promised about the status, the reader and the writer, whatever happens to the note.
    ensures { Serves
        (helps_of ANSWER_HELP.now SIM_HELP.now CLUSTER_HELP.now CHECK_HELP.now DRAW_HELP.now NODE_HELP.now
        SETTLE_HELP.now SUMMARY_HELP.now STATUS_HELP.now)
        (map string_bytes arguments.now) (R.remaining reader.old.inner) (R.remaining reader.new.inner)
        (W.contents writer.old.inner) (W.contents writer.new.inner) (reader.new ≡ reader.old) result }
{
    let line = read_command_line(alloc, arguments);
    let asked = &line.asked;
    if given.at_terminal {
        write_waiting_note(asked, notes);
    }
    let mut progress = Progress::new(alloc, asked, notes);
    let mut text = Vec::new(alloc);
    let outcome = if let Command::Task(Task::Cluster(printed)) = *asked {
        run_by_threads(rt, alloc, printed, reader, writer)
    } else {
        do_alone(alloc, asked, reader, writer, &mut text, &mut progress)
    };
    let last_seed = progress.last_seed();
    let followed = progress.into_followed();
    let source = NoteSource {
        arguments,
        asked,
        fault: line.fault.as_ref(),
        last_seed,
        followed: &followed,
        seen: reader.recorded().bytes(),
        inputs: Inputs {
            files: given.files,
            places: reader.places(),
        },
        text: &text,
    };
    write_notes(alloc, &source, &outcome, notes);
    write_output_note(writer.fault(), notes);
    outcome.status
}

//! What is said of a command that was not done, of arguments that cannot be read, and of output that failed.
use crate::note_source::NoteSource;
use crate::note_texts::{
    LEFT_IN_TRACE, LOG_TOO_LONG, NO_OUTPUT, NO_SPACE, NO_TEXT, NO_WORD, TOO_LONG, TOO_MANY_BYTES,
    TOO_MANY_TURNS, UNEXPLAINED,
};
use crate::notice::{NO_MEMORY, Notice, write_line};
use crate::recording_writer::OutputFault;
use crate::usage_notes::{is_choice, usage_note};
use ra_arguments::{Command, CommandFault, InputKind, Task, UsageFault};
use ra_draw::DrawError;
use ra_explain::{end_note, push_number_in, push_numbered};
use ra_schedule::{ChoicesError, DriveError};
use ra_script::PerformError;
use ra_stamp::Memory;
use ra_text::Note;
use ra_trace::TraceError;
use std::alloc::Global;
use std::io::Write;

/// Writes the note on arguments that could not be read. It does not allocate, and ignores a failure of the writer.
pub fn write_arguments_note<N: Write>(fault: CommandFault, notes: &mut N) {
    let text = match fault {
        CommandFault::Usage => NO_TEXT,
        CommandFault::Memory => NO_MEMORY,
    };
    write_line(notes, text);
}

/// Writes the note on a fault of the output, if there was one. A pipe that is no longer read gets no note, since that
/// is usual, for example with `| head`. It does not allocate, and ignores a failure of the writer.
pub fn write_output_note<N: Write>(fault: Option<OutputFault>, notes: &mut N) {
    let text = match fault {
        Some(OutputFault::Full) => NO_SPACE,
        Some(OutputFault::Other) => NO_OUTPUT,
        Some(OutputFault::Unread) | None => return,
    };
    write_line(notes, text);
}

/// Returns the note on a text that had to be complete, and is not, with what is left at its end.
fn of_incomplete_end(alloc: Global, left: Option<&str>) -> Notice {
    let mut note = Note::new(alloc);
    note.push("not complete: ");
    note.push(left.unwrap_or("no request was made"));
    Notice::of(note)
}

/// Returns what is left at the end of the text, a trace in which this many messages were sent, or a mark log.
///
/// # Errors
///
/// `Memory`: memory ran out, also before, for the text.
fn left_at_end(
    alloc: Global,
    source: &NoteSource<'_>,
    sent: u128,
) -> Result<Option<String>, Memory> {
    match (source.asked, source.seen) {
        (Command::Task(Task::Follow { .. } | Task::CheckAll { .. }), _) => {
            source.followed.log_end()
        }
        (_, Some(text)) => end_note(alloc, text, sent),
        (_, None) => Err(Memory),
    }
}

/// Returns what to say about the end of a trace in which this many messages were sent, or of a mark log. The text may
/// have had to be complete, and is not.
pub fn of_end(alloc: Global, source: &NoteSource<'_>, sent: u128, is_incomplete: bool) -> Notice {
    if let Command::Task(
        Task::Follow {
            kind: InputKind::Trace,
            ..
        },
    ) = source.asked
    {
        return if is_incomplete {
            Notice::Text(LEFT_IN_TRACE)
        } else {
            Notice::Nothing
        };
    }
    match left_at_end(alloc, source, sent) {
        Ok(Some(text)) if is_incomplete => of_incomplete_end(alloc, Some(text.as_str())),
        Ok(None) if is_incomplete => of_incomplete_end(alloc, None),
        Ok(Some(text)) => Notice::Note(text),
        Ok(None) => Notice::Nothing,
        // Without a note, nothing would seem to be left.
        Err(_) => Notice::Text(UNEXPLAINED),
    }
}

/// Returns what there is to say about arguments that ask for nothing: why, or that memory ran out if it is not known
/// why.
pub fn of_command(alloc: Global, arguments: &[String], fault: Option<&UsageFault<'_>>) -> Notice {
    match fault {
        Some(fault) => usage_note(alloc, arguments, fault),
        None => Notice::Text(NO_MEMORY),
    }
}

/// Returns the note on an option whose number is not from 1 to `most`.
pub fn range_note(alloc: Global, option: &str, number: u16, most: u16) -> Notice {
    let mut note = Note::new(alloc);
    note.push(option);
    push_number_in(&mut note, " is ", number, ": must be 1 to ");
    note.number(most);
    Notice::of(note)
}

/// Returns what there is to say about a list of choices that is not one.
pub fn of_choices(alloc: Global, choices: &str, why: ChoicesError) -> Notice {
    if let ChoicesError::Memory = why {
        return Notice::Text(NO_MEMORY);
    }
    let Some(word) = first_no_choice(alloc, choices) else {
        return Notice::Text(UNEXPLAINED);
    };
    let text = format!(in alloc;
        "--choices: {word:?} is not a choice: expected c, m or l and a number of 1 to 9 digits without leading zeros, with one space between choices"
    );
    match text {
        Ok(text) => Notice::Note(text),
        Err(_) => Notice::Text(NO_MEMORY),
    }
}

/// Returns the first word of a text that is not a choice, or `None` if every word is one.
fn first_no_choice(alloc: Global, text: &str) -> Option<&str> {
    for word in text.split(' ') {
        if !is_choice(alloc, word) {
            return Some(word);
        }
    }
    None
}

/// Returns what there is to say about a script that is not performed.
pub fn of_performance(why: PerformError) -> Notice {
    Notice::Text(match why {
        PerformError::Read => return Notice::Unread,
        PerformError::Drive(DriveError::TurnLimit) => TOO_MANY_TURNS,
        PerformError::Script(_) | PerformError::Drive(_) => UNEXPLAINED,
        PerformError::Choice => NO_WORD,
        PerformError::Memory => NO_MEMORY,
        PerformError::Write => return Notice::Nothing,
    })
}

/// Returns what there is to say about a text that has no verdict.
pub fn of_check(source: &NoteSource<'_>, why: TraceError) -> Notice {
    match why {
        TraceError::Read => Notice::Unread,
        TraceError::Limit => Notice::Input(match source.asked {
            Command::Task(Task::CheckMarks { .. }) => LOG_TOO_LONG,
            _ => TOO_MANY_BYTES,
        }),
        TraceError::Memory => Notice::Text(NO_MEMORY),
    }
}

/// Returns what to say about a part without lines, if the input has this many.
fn of_part(alloc: Global, source: &NoteSource<'_>, lines: u64) -> Notice {
    let mut note = Note::new(alloc);
    match source.asked {
        Command::Task(Task::Draw { part, .. }) if lines > 0 => {
            push_numbered(&mut note, "--from is ", part.from);
        }
        _ => note.push("there is nothing to draw"),
    }
    let unit = if lines == 1 { " line" } else { " lines" };
    note.push(": ");
    note.push(source.inputs.name());
    push_number_in(&mut note, " has ", lines, unit);
    Notice::of(note)
}

/// Returns what there is to say about an input that is not drawn.
pub fn of_drawing(alloc: Global, source: &NoteSource<'_>, why: DrawError) -> Notice {
    match why {
        DrawError::Read => Notice::Unread,
        DrawError::Limit => Notice::Input(TOO_MANY_BYTES),
        DrawError::NoLines { lines } => of_part(alloc, source, lines),
        DrawError::TooLong => Notice::Input(TOO_LONG),
        DrawError::Memory => Notice::Text(NO_MEMORY),
        DrawError::Write => Notice::Nothing,
    }
}

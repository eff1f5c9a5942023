//! Hints for the user when nothing was refused but something may surprise: options that have no effect, names that stay
//! locked, which seed was found, and which requests were withdrawn.
use crate::input_places::PlaceNote;
use crate::note_source::NoteSource;
use crate::notice::write_line;
use crate::script_notes::script_end::script_end_note;
use crate::settled_notes::settled_note;
use crate::unused_options::write_unused_options;
use ra_arguments::{Command, Search, Task};
use ra_explain::{WithdrawalScope, push_number_in, push_numbered, withdrawals_note};
use ra_schedule::Ending;
use ra_text::Note;
use std::alloc::Global;
use std::io::Write;

/// Returns which seed made the run that was found, and perhaps shrunk.
fn seed_note(alloc: Global, shrinks: bool, seed: u64) -> PlaceNote {
    let (run, options) = if shrinks {
        (
            "the run that was shrunk has seed ",
            "--seeds, --find and --shrink",
        )
    } else {
        ("this run has seed ", "--seeds and --find")
    };
    let mut note = Note::new(alloc);
    push_numbered(&mut note, run, seed);
    push_number_in(
        &mut note,
        ": to make it again, use --seed ",
        seed,
        " in place of ",
    );
    note.push(options);
    note.finish()
}

/// Writes the hints on a command that was done, or ended with something left to do. The arguments tell which options
/// are given. It ignores a failure of the writer.
pub fn write_hints<N: Write>(alloc: Global, source: &NoteSource<'_>, is_done: bool, notes: &mut N) {
    let told = match source.asked {
        Command::Task(Task::Sim { .. }) => match source.seen {
            Some(script) if is_done => script_end_note(alloc, script),
            _ => Ok(None),
        },
        // A run was found if a finished one was looked for and the command was done, or a stuck one and it was not.
        Command::Task(Task::Survey(survey)) => match (survey.find, source.last_seed) {
            (Some(Search { ending, .. }), Some(seed))
                if matches!(ending, Ending::Finished) == is_done => {
                seed_note(alloc, source.asked.shrinks(), seed)
            }
            _ => Ok(None),
        },
        Command::Task(Task::Draw { part, .. }) if is_done => {
            let drawn = WithdrawalScope {
                from: part.from,
                to: part.to,
                has_lines: true,
            };
            withdrawals_note(alloc, source.text, drawn)
        }
        Command::Task(
            Task::Check { .. }
            | Task::CheckMarks { .. }
            | Task::CheckAll { .. }
            | Task::Follow { .. },
        ) => Ok(None),
        Command::Settle(asked) if is_done => settled_note(alloc, source.text, asked.repeats),
        _ => return,
    };
    if let Command::Task(task) = source.asked {
        write_unused_options(source.arguments, task, notes);
    }
    if let Ok(Some(text)) = &told {
        write_line(notes, text.as_str());
    }
}

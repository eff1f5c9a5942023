//! The notes on a run that was shrunk: by how much, and what is left to do in the shorter run, whose choices were
//! printed.
use crate::input_places::policy_by;
use crate::note_source::NoteSource;
use crate::note_texts::UNEXPLAINED;
use crate::notice::write_line;
use crate::run_notes::unfinished::push_run;
use crate::script_notes::script_text::{run_of, script_in};
use ra_explain::{NEXT_LINE, push_number_in};
use ra_schedule::{DriveError, Policy, Script, Shrunk, shrink};
use ra_script::MAX_TURNS;
use ra_stamp::Memory;
use ra_text::Note;
use std::alloc::Global;
use std::io::Write;

/// Adds how many choices a policy's run of a script has, and that it is shrunk to this many.
fn push_shorter(alloc: Global, note: &mut Note, script: &Script, policy: &Policy, choices: u64) {
    if let Some(summary) = run_of(alloc, note, script, policy) {
        if summary.turns == choices {
            push_number_in(note, "none of the ", choices, " choices can be left out");
        } else {
            push_number_in(note, "shrunk from ", summary.turns, " choices to ");
            note.number(choices);
        }
    }
}

/// Returns the note on a policy's run of the script in a text. If the run is stuck, it is shrunk: a line says by how
/// much, and another one what is left to do in the shorter run. Otherwise one line says what is left to do in the run
/// itself. [`unfinished_note`](crate::unfinished_note) says more about that. It costs as much as to shrink the run.
///
/// # Errors
///
/// `Memory`: memory ran out.
fn shrunk_note(alloc: Global, script: &[u8], policy: &Policy) -> Result<Option<String>, Memory> {
    let mut note = Note::new(alloc);
    if let Some(script) = script_in(alloc, &mut note, script) {
        match shrink(alloc, &script, policy, MAX_TURNS) {
            Ok(
                Shrunk {
                    choices: Some(choices),
                    ..
                },
            ) => {
                push_shorter(alloc, &mut note, &script, policy, choices.len());
                note.push(NEXT_LINE);
                push_run(alloc, &mut note, &script, &Policy::Listed(choices));
            }
            Err(DriveError::Memory) => note.refuse_if(true),
            _ => push_run(alloc, &mut note, &script, policy),
        }
    }
    note.finish()
}

/// Writes by how much an unfinished run was shrunk, and what is left to do in the shorter one. If the run is not stuck,
/// it writes what is left to do in the run itself. If memory runs out, or the script or the run is not known, it writes
/// that. It ignores a failure of the writer.
pub fn write_shrunk_notes<N: Write>(alloc: Global, source: &NoteSource<'_>, notes: &mut N) {
    let told = match (source.seen, &policy_by(alloc, source)) {
        (Some(script), Some(policy)) => shrunk_note(alloc, script, policy),
        _ => Err(Memory),
    };
    match told {
        Ok(Some(text)) => write_line(notes, text.as_str()),
        Ok(None) => {}
        Err(Memory) => write_line(notes, UNEXPLAINED),
    }
}

//! The script in the text that a note is about, and its runs.
use ra_schedule::{DriveError, Policy, Script, Summary, summarize};
use ra_script::{MAX_TURNS, ScriptError, read_script};
use ra_text::Note;
use std::alloc::Global;

/// Returns the script of a text, or `None` if it is no script. If memory ran out, the note records it.
pub fn script_in(alloc: Global, note: &mut Note, text: &[u8]) -> Option<Script> {
    match read_script(alloc, text) {
        Ok(script) => Some(script),
        Err(fault) => {
            note.refuse_if(fault == ScriptError::Memory);
            None
        }
    }
}

/// Returns the summary of a policy's run of a script, or `None` if it is refused. If memory ran out, the note records
/// it.
pub fn run_of(alloc: Global, note: &mut Note, script: &Script, policy: &Policy) -> Option<Summary> {
    match summarize(alloc, script, policy, MAX_TURNS) {
        Ok(summary) => Some(summary),
        Err(fault) => {
            note.refuse_if(fault == DriveError::Memory);
            None
        }
    }
}

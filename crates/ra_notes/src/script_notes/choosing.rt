//! Which choice of a list can't be made in a script.
use crate::run_notes::client_end::RunEnd;
use crate::script_notes::script_text::script_in;
use ra_explain::{push_number_in, push_numbered};
use ra_schedule::{
    Choice, Choices, ChoicesError, DriveError, Policy, Script, drive_until_refused, read_choices,
};
use ra_script::MAX_TURNS;
use ra_stamp::Memory;
use ra_text::Note;
use std::alloc::Global;

/// Adds why a choice can't be made at the end of a part of a run. For a client's choice it adds what the client does,
/// and otherwise how many messages are under way, and which places they have.
fn push_reason(note: &mut Note, ending: &RunEnd<'_>, choice: Choice) {
    let count = ending.report.under_way;
    match choice {
        Choice::Client(client) => {
            let clients = ending.script.clients();
            if client >= 1 && client <= clients {
                note.client(client);
                ending.client_end(client).push(note);
                note.push(" at that point");
            } else if clients == 1 {
                note.push("the script has only client 1");
            } else {
                push_numbered(note, "the script has clients 1 to ", clients);
            }
        }
        _ if count == 0 => note.push("no message is under way at that point"),
        _ if count == 1 => note.push("one message is under way at that point, at place 0"),
        _ => {
            note.number(count);
            let text = " messages are under way at that point, at places 0 to ";
            push_number_in(note, text, count - 1, " in the order of sending");
        }
    }
}

/// Adds that the choice after a part of a run can't be made, the choice as it is written, and why.
fn push_refused(note: &mut Note, ending: &RunEnd<'_>, choice: Choice) {
    let number = ending.turns.saturating_add(1);
    push_number_in(note, "choice ", number, " of --choices, ");
    let (letter, number) = match choice {
        Choice::Client(client) => ("c", u64::from(client)),
        Choice::Message(number) => ("m", number),
        Choice::Lost(number) => ("l", number),
        Choice::Repeated(number) => ("r", number),
    };
    push_number_in(note, letter, number, ", is not possible: ");
    push_reason(note, ending, choice);
}

/// Adds which of these choices is the first that can't be made in a script, if one can't, and why.
fn push_first_refused(alloc: Global, note: &mut Note, script: &Script, choices: Choices) {
    let policy = Policy::Listed(choices);
    let part = match drive_until_refused(alloc, script, &policy, MAX_TURNS) {
        Ok(part) => part,
        Err(Memory) => {
            note.refuse_if(true);
            return;
        }
    };
    if let Some(DriveError::BadPlace | DriveError::NotEnabled) = part.refusal
        && let Policy::Listed(choices) = &policy
        && let Some(choice) = choices.at(part.turns)
    {
        let ending = RunEnd::new(alloc, note, script, &policy, part.turns, &part.report);
        push_refused(note, &ending, choice);
    }
}

/// Returns what is said about the first of these choices, written as for `--choices`, that can't be made in the script
/// of a text, or `None` if there is no such choice. It costs as much as the run of the choices before it.
///
/// # Errors
///
/// `Memory`: memory ran out.
pub fn choices_note(alloc: Global, script: &[u8], choices: &str) -> Result<Option<String>, Memory> {
    let mut note = Note::new(alloc);
    if let Some(script) = script_in(alloc, &mut note, script) {
        match read_choices(alloc, choices) {
            Ok(choices) => push_first_refused(alloc, &mut note, &script, choices),
            Err(fault) => note.refuse_if(fault == ChoicesError::Memory),
        }
    }
    note.finish()
}

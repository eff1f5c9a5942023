//! Which names a script leaves locked.
use crate::script_notes::script_text::script_in;
use ra_explain::{MAX_CLIENTS, push_name_and_mode};
use ra_schedule::{Op, Script, is_unreleased};
use ra_stamp::Memory;
use ra_text::Note;
use std::alloc::Global;

/// The most names that the note lists for each client.
const MAX_NAMES: u64 = 4;

/// Adds the names that a client holds at its end, after this many other clients that hold names. Returns how many
/// clients hold names so far.
fn push_kept(note: &mut Note, script: &Script, client: u32, clients: u64) -> u64 {
    let mut names = 0;
    for place in 0..script.ops_of(client).unwrap_or(0) {
        if is_unreleased(script, client, place) {
            if clients < MAX_CLIENTS
                && names < MAX_NAMES
                && let Some(Op::Lock(name, mode)) = &script.op(client, place)
            {
                let joint = if names > 0 {
                    ", "
                } else {
                    note.push(if clients > 0 {
                        "; "
                    } else {
                        "the run finished with names still locked: "
                    });
                    note.client(client);
                    " holds "
                };
                push_name_and_mode(note, joint, name, *mode);
            }
            names = u64::saturating_add(names, 1);
        }
    }
    if clients < MAX_CLIENTS {
        note.push_more(" and ", names, MAX_NAMES);
    }
    clients.saturating_add(names.min(1))
}

/// Returns which names the clients of the script of a text hold at their ends, or `None` if they hold none. It is meant
/// for a finished run. The cost is linear in the text, plus, for each client, the number of its operations times the
/// number of names that it holds at once.
///
/// # Errors
///
/// `Memory`: memory ran out.
pub fn script_end_note(alloc: Global, script: &[u8]) -> Result<Option<String>, Memory> {
    let mut note = Note::new(alloc);
    if let Some(script) = script_in(alloc, &mut note, script) {
        let mut clients = 0;
        for place in 0..script.clients() {
            clients = push_kept(&mut note, &script, place + 1, clients);
        }
        note.push_more("; and ", clients, MAX_CLIENTS);
    }
    note.finish()
}

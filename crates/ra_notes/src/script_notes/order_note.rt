//! Why threads may not run a script, and the place of the reason in the script.
use crate::script_notes::script_text::script_in;
use ra_explain::push_number_in;
use ra_schedule::{Op, Script, first_out_of_order, first_unreleased};
use ra_stamp::Memory;
use ra_text::Note;
use std::alloc::Global;

/// Adds the name that the operation of a client at this place locks.
fn push_name(note: &mut Note, script: &Script, client: u32, place: u64) {
    if let Some(Op::Lock(name, _)) = &script.op(client, place) {
        note.name(name);
    }
}

/// Returns a note on the first operation in a script that locks a name while its client holds that name or a greater
/// one. If no operation does, the note is on the first operation that locks a name its client never unlocks. Returns
/// `None` if there is neither. The cost is the number of a client's operations times the number of names that it holds
/// at once.
///
/// # Errors
///
/// `Memory`: memory ran out.
pub fn order_note(alloc: Global, script: &[u8]) -> Result<Option<String>, Memory> {
    let mut note = Note::new(alloc);
    if let Some(script) = script_in(alloc, &mut note, script) {
        let found = if let Some(found) = first_out_of_order(&script) {
            Some((found.client, found.place, Some(found.since)))
        } else if let Some(kept) = first_unreleased(&script) {
            Some((kept.client, kept.place, None))
        } else {
            None
        };
        if let Some((client, place, since)) = found {
            note.client(client);
            push_number_in(
                &mut note,
                ", operation ",
                place.saturating_add(1),
                ": locks ",
            );
            push_name(&mut note, &script, client, place);
            if let Some(since) = since {
                note.push(" while holding ");
                push_name(&mut note, &script, client, since);
                note.push(
                    ", which does not sort before it, so clients could deadlock: lock names in ascending byte order, or run the script with ra sim",
                );
            } else {
                note.push(
                    " and never unlocks it, so others could wait for it forever: unlock the name, or run the script with ra sim",
                );
            }
        }
    }
    note.finish()
}

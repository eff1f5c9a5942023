//! Which clients wait for which others at the end of a run.
use crate::run_notes::client_end::{ClientEnd, RunEnd};
use crate::script_notes::script_text::{run_of, script_in};
use ra_explain::{
    MAX_CLIENTS, Sought, Stage, push_blockers, push_deadlock, push_number_in, push_numbered,
    want_text, watch_steps,
};
use ra_schedule::{Policy, Script, drive};
use ra_stamp::{Memory, NodeId};
use ra_text::Note;
use std::alloc::Global;

/// The most steps of a run that is made again to find the messages that it lost or left under way.
const MAX_STEPS: u64 = 1 << 16;

/// Finds the messages that are lost or under way for the requests that wait although no other one blocks them. For that
/// the run is made again, if it has few enough steps.
fn find_messages(alloc: Global, ending: &mut RunEnd<'_>) {
    for place in 0..ending.script.clients() {
        if let ClientEnd::Waits(entry) = ending.client_end(place + 1)
            && ending
                .requests
                .next_of(0, &Sought::Blocking(entry))
                .is_none()
        {
            ending.awaited.add(&entry);
        }
    }
    if ending.awaited.is_empty() {
        return;
    }
    let is_known = ending.turns <= MAX_STEPS
        && match drive(alloc, ending.script, ending.policy, MAX_STEPS) {
            Ok(made) => {
                let (nodes, steps) = (ending.script.nodes(), made.steps.as_slice());
                watch_steps(alloc, nodes, steps, &mut ending.awaited)
            }
            Err(_) => false,
        };
    ending.awaited.refuse_if(!is_known);
}

/// Adds what is in the way of a client of a node: of one that waits, which requests block it or which message it lacks,
/// and of one that is queued, which client is ahead of it.
fn push_reason(note: &mut Note, ending: &RunEnd<'_>, node: NodeId, client_end: &ClientEnd) {
    match client_end {
        ClientEnd::Waits(entry) => {
            if !push_blockers(note, &ending.requests, &Sought::Blocking(*entry), ending) {
                let otherwise = want_text(ending.report.under_way, ending.report.lost);
                ending.awaited.push(note, entry, otherwise);
            }
        }
        ClientEnd::Queued { name, .. } => {
            if let Some(first) = ending.requests.next_of(0, &Sought::AtNode(node, *name)) {
                let does = if first.stage.is(Stage::Holds) {
                    ", which holds it"
                } else {
                    ", which waits for it"
                };
                push_number_in(note, " after client ", first.entry.client, does);
                note.mode(first.entry.mode);
            }
        }
        ClientEnd::Done | ClientEnd::Idle(_) => {}
    }
}

/// Adds the states of the first clients with something left to do: if `waits`, of those that wait or are queued, and
/// otherwise of the others. Clients that were counted `before` are among the first. Returns how many clients were
/// counted so far.
fn push_clients(note: &mut Note, ending: &RunEnd<'_>, waits: bool, before: u64) -> u64 {
    let mut count = before;
    for place in 0..ending.script.clients() {
        let client = place + 1;
        let client_end = &ending.client_end(client);
        let is_left = match client_end {
            ClientEnd::Done => false,
            ClientEnd::Waits(_) | ClientEnd::Queued { .. } => waits,
            ClientEnd::Idle(_) => !waits,
        };
        if is_left {
            if let Some(node) = ending.script.node_of(client)
                && count < MAX_CLIENTS
            {
                note.push(if count == 0 { "" } else { "; " });
                note.client(client);
                push_numbered(note, " at node ", node.get());
                client_end.push(note);
                push_reason(note, ending, node, client_end);
            }
            count = u64::saturating_add(count, 1);
        }
    }
    count
}

/// Adds what is left to do when a policy has driven a script, first for those that wait or are queued.
pub fn push_run(alloc: Global, note: &mut Note, script: &Script, policy: &Policy) {
    if let Some(summary) = run_of(alloc, note, script, policy)
        && !summary.finished
    {
        let mut ending = RunEnd::new(alloc, note, script, policy, summary.turns, &summary.report);
        find_messages(alloc, &mut ending);
        note.push("the run did not finish: ");
        let waiting = push_clients(note, &ending, true, 0);
        let count = push_clients(note, &ending, false, waiting);
        note.push_more("; and ", count, MAX_CLIENTS);
        if count == 0 {
            note.push("all operations are done, but messages are under way");
        }
        push_deadlock(alloc, note, &ending.requests);
    }
}

/// Returns a note on what is left to do when a policy has driven the script in a text. For each client that waits or is
/// queued, the note says for what, and which clients are in its way or which message it lacks; other clients come after
/// these. If clients wait for each other in a circle, another line names them. Returns `None` if the run is finished or
/// refused. It costs as much as the run.
///
/// # Errors
///
/// `Memory`: memory ran out.
pub fn unfinished_note(
    alloc: Global,
    script: &[u8],
    policy: &Policy,
) -> Result<Option<String>, Memory> {
    let mut note = Note::new(alloc);
    if let Some(script) = script_in(alloc, &mut note, script) {
        push_run(alloc, &mut note, &script, policy);
    }
    note.finish()
}

//! Clients that wait for each other in a circle.
use crate::note_parts::{NEXT_LINE, push_number_in, push_numbered};
use crate::trace_notes::blockers::MAX_CLIENTS;
use crate::trace_notes::open_request::{OpenRequest, Stage};
use crate::trace_notes::open_requests::OpenRequests;
use ra_deadlock::{Request, Stage as RequestStage, deadlock_in};
use ra_stamp::Entry;
use ra_text::Note;
use std::alloc::Global;

impl OpenRequest {
    /// Returns it without the line since which it is at its stage.
    fn request(&self) -> Request {
        Request {
            entry: self.entry,
            stage: match self.stage {
                Stage::Waits => RequestStage::Waits,
                Stage::Queued => RequestStage::Queued,
                Stage::Holds => RequestStage::Holds,
            },
        }
    }
}

/// Returns these requests in the order in which they came to their stages, so that it does not depend on chance which
/// circle is found. Returns `None` if there is no memory for them.
fn requests_of(alloc: Global, open: &OpenRequests) -> Option<Vec<Request>> {
    let mut in_order = Vec::new(alloc);
    for (_, request) in open.clients.iter() {
        in_order.push(*request).ok()?;
    }
    in_order.sort_by_key(|request| request.since).ok()?;
    let mut requests = Vec::new(alloc);
    for request in &in_order {
        requests.push(request.request()).ok()?;
    }
    Some(requests)
}

/// Returns the entries of requests each of which waits for the client of the next one, and the last one for that of the
/// first, or no entries if there are none that do. Returns `None` if there is no memory to find them.
fn circle_in(alloc: Global, open: &OpenRequests) -> Option<Vec<Entry>> {
    let requests = requests_of(alloc, open)?;
    let circle = deadlock_in(alloc, &requests).ok()?;
    let mut waiting = Vec::new(alloc);
    for request in &circle {
        if !request.is_granted() {
            waiting.push(request.entry).ok()?;
        }
    }
    Some(waiting)
}

/// Adds the client of an entry.
fn push_client(note: &mut Note, entry: &Entry) {
    note.client(entry.client);
    push_numbered(note, " at node ", entry.stamp.node.get());
}

/// Adds clients that wait for each other in a circle: each waits for a name that the next one holds, or for which it
/// asked earlier.
fn push_circle(note: &mut Note, circle: &[Entry], first: &Entry) {
    let is_long = circle.len() as u64 > MAX_CLIENTS;
    if is_long {
        push_number_in(note, "a deadlock of ", circle.len(), " clients: ");
    } else {
        note.push("a deadlock: ");
    }
    push_client(note, first);
    let mut joint = " waits for ";
    for place in 1..circle.len().min(MAX_CLIENTS as usize) {
        let Some(entry) = circle.get(place) else {
            break;
        };
        note.push(joint);
        push_client(note, entry);
        joint = ", which waits for ";
    }
    if is_long {
        note.push(", and so on");
    } else {
        note.push(joint);
        push_client(note, first);
    }
}

/// Adds a line on clients that wait for each other in a circle, if there are any. If memory runs out, the note records
/// it. The cost is linear in the requests, besides that of putting them in order.
pub fn push_deadlock(alloc: Global, note: &mut Note, open: &OpenRequests) {
    let Some(circle) = circle_in(alloc, open) else {
        note.refuse_if(true);
        return;
    };
    if let Some(first) = circle.first() {
        note.push(NEXT_LINE);
        push_circle(note, circle.as_slice(), first);
    }
}

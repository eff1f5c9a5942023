//! Which requests are in the way of one that waits or is queued.
use crate::trace_notes::open_request::OpenRequest;
use crate::trace_notes::open_requests::{OpenRequests, Sought};
use ra_text::Note;

/// The most clients that are named of those at one stage, or of those with something left to do.
pub const MAX_CLIENTS: u64 = 4;

/// The most requests that are named as blocking one request.
const MAX_BLOCKERS: u64 = 3;

/// What a note says of a request that is in the way of another one.
pub trait TellsBlocker {
    /// Adds it.
    fn push_blocker(&self, note: &mut Note, request: &OpenRequest);
}

/// Each is named with its line.
pub struct ByLine;

impl TellsBlocker for ByLine {
    fn push_blocker(&self, note: &mut Note, request: &OpenRequest) {
        request.push_in_the_way(note);
    }
}

/// Adds the first of these requests, and how many more there are. Returns whether there is any.
pub fn push_blockers<T: TellsBlocker>(
    note: &mut Note,
    open: &OpenRequests,
    sought: &Sought,
    tells: &T,
) -> bool {
    let mut after = 0;
    for named in 0..MAX_BLOCKERS {
        let Some(other) = open.next_of(after, sought) else {
            break;
        };
        note.push(if named == 0 { ": " } else { ", " });
        tells.push_blocker(note, other);
        after = other.since;
    }
    note.push_more(" and ", open.count_of(sought), MAX_BLOCKERS);
    after > 0
}

/// Returns the text for a request that waits at the end of a run although no other one blocks it, if nothing more
/// precise is known. These are how many messages are under way then, and how many were lost: by the main theorem, one
/// of these is what it lacks.
pub fn want_text(under_way: u128, lost: u128) -> &'static str {
    if under_way == 0 {
        ": no client blocks it, but a message was lost"
    } else if lost == 0 {
        ": no client blocks it, but a message is under way"
    } else {
        ": no client blocks it, but a message was lost or is under way"
    }
}

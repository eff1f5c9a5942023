//! The requests that wait for a withdrawn one to go, and which of them are granted because of that.
use crate::trace_notes::open_request::{OpenRequest, Stage};
use crate::trace_notes::open_requests::OpenRequests;
use ra_stamp::{Entry, Mark};

/// The numbers of nodes, and 0.
const NUMBERS: usize = 65;

/// The requests that a withdrawn one blocked, and that are still to be granted because of that. At most one request
/// waits for a name at a node, so each has a place by its node.
#[derive(Clone, Copy)]
pub struct BlockedRequests {
    /// The request that was withdrawn.
    withdrawn: Entry,
    waiting: [Option<Entry>; NUMBERS],
}

impl BlockedRequests {
    /// Returns those that an entry blocks which is about to be withdrawn. The cost is linear in how many requests wait,
    /// are queued and hold. It does not allocate.
    pub fn by(open: &OpenRequests, withdrawn: &Entry) -> BlockedRequests {
        let mut blocked = BlockedRequests {
            withdrawn: *withdrawn,
            waiting: [None; NUMBERS],
        };
        for (_, request) in open.clients.iter() {
            if request.stage.is(Stage::Waits) {
                blocked.keep(&request.entry);
            }
        }
        blocked
    }

    /// Keeps an entry that waits, if it is blocked.
    fn keep(&mut self, entry: &Entry) {
        if is_in_the_way(&self.withdrawn, entry)
            && let Some(place) = self.waiting.get_mut(usize::from(entry.stamp.node.get()))
        {
            *place = Some(*entry);
        }
    }

    /// Returns whether none is left.
    pub fn is_empty(&self) -> bool {
        for entry in self.waiting.iter() {
            if entry.is_some() {
                return false;
            }
        }
        true
    }

    /// Takes a later mark. Returns whether it grants one of them. If another request goes away that blocks one of them,
    /// that one goes on because of this other request, if at all.
    pub fn take(&mut self, mark: &Mark) -> bool {
        let marked = *mark.entry();
        if marked.name != self.withdrawn.name {
            return false;
        }
        match mark {
            Mark::Requested(_) => false,
            Mark::Entered(_) => self.remove(&marked),
            Mark::Left(_) | Mark::Withdrawn(_) => {
                self.remove(&marked);
                for place in self.waiting.iter_mut() {
                    if matches!(place, Some(entry) if is_in_the_way(&marked, entry)) {
                        *place = None;
                    }
                }
                false
            }
        }
    }

    /// Takes an entry out, and returns whether it was there.
    fn remove(&mut self, entry: &Entry) -> bool {
        match self.waiting.get_mut(usize::from(entry.stamp.node.get())) {
            Some(place) if *place == Some(*entry) => {
                *place = None;
                true
            }
            _ => false,
        }
    }
}

/// Returns whether an entry blocks another one while both wait.
fn is_in_the_way(earlier: &Entry, waiting: &Entry) -> bool {
    let earlier = OpenRequest {
        entry: *earlier,
        stage: Stage::Waits,
        since: 0,
    };
    earlier.blocks(waiting)
}

//! Why the node of a book does not take a line.
use crate::book_openings::Opening;
use ra_book::{BookError, BookKind};
use ra_book_text::{Refusal, TimedNode, event_of};
use ra_explain::{Reached, Stage};
use ra_stamp::{Mark, Name};
use ra_text::cut;
use std::alloc::Global;

/// How far a client of a node is with a name.
#[derive(Clone, Copy)]
pub struct ClientState {
    pub client: u32,
    pub name: Name,
    /// How far it is, or `None` if it neither waits, nor is queued, nor holds. If it waits, the line is that of its
    /// ask. Lines are counted over the whole text.
    pub reached: Option<Reached>,
}

impl ClientState {
    /// Notes the event of a line that the node took, and its marks.
    fn note_line(&mut self, line: u64, kind: &BookKind, marks: &[Mark]) {
        if let BookKind::Ask { client, name, mode } = kind
            && self.client == *client
            && self.name == *name
        {
            self.reached = Some(Reached {
                stage: Stage::Queued,
                mode: *mode,
                since: line,
            });
        }
        if let BookKind::Cancel { client, name } = kind
            && self.client == *client
            && self.name == *name
        {
            self.reached = None;
        }
        for mark in marks {
            let entry = mark.entry();
            if self.client == entry.client && self.name == entry.name {
                self.reached = match (mark, self.reached) {
                    (Mark::Requested(_), Some(asked)) => Some(Reached {
                        stage: Stage::Waits,
                        ..asked
                    }),
                    (Mark::Entered(_), Some(asked)) => Some(Reached {
                        stage: Stage::Holds,
                        since: line,
                        ..asked
                    }),
                    // It left the name or gave up; no client gets a request that it has not asked for.
                    _ => None,
                };
            }
        }
    }
}

/// Gives a node the lines of its book up to the one with this number, and notes how far they bring a client. Returns
/// why the node refuses one of them, or `None` if it takes them all.
fn first_refusal(
    alloc: Global,
    node: &mut TimedNode,
    state: &mut Option<ClientState>,
    opening: &Opening<'_>,
    number: u64,
) -> Option<Refusal> {
    let mut rest = opening.after;
    for place in opening.line.saturating_add(1)..number.saturating_add(1) {
        let (shown, Some(after)) = cut(rest, b'\n') else {
            break;
        };
        let kind = match event_of(shown) {
            Ok(kind) => kind,
            Err(why) => return Some(why),
        };
        match node.take(alloc, &kind) {
            Ok(outcome) => {
                if let Some(state) = state {
                    state.note_line(place, &kind, outcome.marks.as_slice());
                }
            }
            Err(cause) => return Some(Refusal::Event(cause)),
        }
        rest = after;
    }
    None
}

/// Returns why the node of a book refuses the line with this number, after the lines of the book before it. If a client
/// asks, leaves or gives up in the line, it also returns how far that client is before it. Returns `None` if there is
/// no memory to tell. The cost is that of the lines at a node.
pub fn refused_event(
    alloc: Global,
    opening: &Opening<'_>,
    line: &[u8],
    number: u64,
) -> Option<(Refusal, Option<ClientState>)> {
    let mut node = TimedNode::new(alloc, opening.member, opening.start);
    let mut state = match &event_of(line) {
        // Before the first line of the book, the client has not asked.
        Ok(
            BookKind::Ask { client, name, .. }
            | BookKind::Leave { client, name }
            | BookKind::Cancel { client, name },
        ) => {
            Some(ClientState {
                client: *client,
                name: *name,
                reached: None,
            })
        }
        _ => None,
    };
    match first_refusal(alloc, &mut node, &mut state, opening, number) {
        None | Some(Refusal::Event(BookError::Memory)) => None,
        Some(why) => Some((why, state)),
    }
}

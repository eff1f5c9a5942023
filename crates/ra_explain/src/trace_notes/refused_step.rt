//! Why a node refuses what a client wants at a line of a trace.
use crate::note_parts::{push_name_and_mode, push_numbered};
use crate::trace_notes::open_request::{OpenRequest, Reached};
use crate::trace_notes::replay::Replay;
use crate::trace_notes::text_line::TextLine;
use ra_stamp::{Name, NodeId};
use ra_text::Note;
use ra_trace::Line;
use ra_world::Step;

/// Adds how far a client is with a name, for example `client 1 has waited for 'r' (X) at node 2 since line 3`. If it
/// has not asked for the name, it adds `client 1 does not hold 'r' at node 2`. A note on a book leaves the node out.
pub fn push_stage(
    note: &mut Note,
    client: u32,
    name: &Name,
    node: Option<NodeId>,
    reached: Option<Reached>,
) {
    note.client(client);
    match reached {
        Some(reached) => push_name_and_mode(note, reached.stage.done(), name, reached.mode),
        None => {
            note.push(" does not hold ");
            note.name(name);
        }
    }
    if let Some(node) = node {
        push_numbered(note, " at node ", node.get());
    }
    if let Some(reached) = reached {
        push_numbered(note, " since line ", reached.since);
    }
}

/// Adds that no number is left for a name.
pub fn push_exhausted(note: &mut Note, name: &Name) {
    note.push("no sequence number is left for ");
    note.name(name);
    note.push(": the greatest is 18446744073709551615");
}

/// What a client tries at a line of a trace.
#[derive(Clone, Copy)]
enum Tried {
    Ask,
    Leave,
    Cancel,
}

/// Adds that a client at a node neither waits for a name nor is queued for it.
pub fn push_waits_not(note: &mut Note, client: u32, name: &Name, node: Option<NodeId>) {
    note.client(client);
    note.push(" neither waits for ");
    note.name(name);
    note.push(" nor is queued for it");
    if let Some(node) = node {
        push_numbered(note, " at node ", node.get());
    }
}

/// Returns the node that the step in a line names, and which client tries what with which name, except for a forget.
/// Returns `None` if the line has another step.
fn tried_in(line: &[u8]) -> Option<(NodeId, Option<(u32, Name, Tried)>)> {
    match &Line::parse(line) {
        Some(
            Line::Stepped(
                Step::Ask {
                    node,
                    client,
                    name,
                    ..
                },
            ),
        ) => Some((*node, Some((*client, *name, Tried::Ask)))),
        Some(Line::Stepped(Step::Leave { node, client, name })) => {
            Some((*node, Some((*client, *name, Tried::Leave))))
        }
        Some(Line::Stepped(Step::Cancel { node, client, name })) => {
            Some((*node, Some((*client, *name, Tried::Cancel))))
        }
        Some(Line::Stepped(Step::Forget { node })) => Some((*node, None)),
        _ => None,
    }
}

/// Adds why an existing node does not let a client do this, which is at `open` with the name.
fn push_not_allowed(
    note: &mut Note,
    node: NodeId,
    tried: (u32, Name, Tried),
    open: Option<&OpenRequest>,
) {
    let (client, name, what) = tried;
    let Some(open) = open else {
        match what {
            Tried::Ask => push_exhausted(note, &name),
            Tried::Leave => push_stage(note, client, &name, Some(node), None),
            Tried::Cancel => push_waits_not(note, client, &name, Some(node)),
        }
        return;
    };
    let reached = Reached {
        stage: open.stage,
        mode: open.entry.mode,
        since: open.since,
    };
    push_stage(note, client, &name, Some(node), Some(reached));
    note.push(match what {
        Tried::Ask => " and may not ask for it again",
        Tried::Leave => " and does not hold it",
        Tried::Cancel => " and does not wait for it",
    });
}

/// Adds why the step in a line of a trace is refused: a client asks for a name, leaves it or gives up, or a node
/// forgets. If that is not known, since there was no memory for the requests before it, it adds `other`.
pub fn push_refused(note: &mut Note, line: &TextLine<'_>, replay: &Replay, other: &str) {
    let (Some((node, tried)), Some(nodes)) = (tried_in(line.bytes), replay.nodes) else {
        note.push(other);
        return;
    };
    if node.get() > nodes {
        push_numbered(note, "there is no node ", node.get());
        push_numbered(note, ": the highest node of the trace is ", nodes);
    } else if let Some(tried) = tried
        && replay.open.is_whole
    {
        let open = replay.open.clients.get(&(node, tried.0, tried.1));
        push_not_allowed(note, node, tried, open);
    } else {
        note.push(other);
    }
}

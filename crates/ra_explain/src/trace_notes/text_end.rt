//! What is left at the end of a trace or of a mark log.
use crate::note_parts::{NEXT_LINE, push_number_in};
use crate::trace_notes::awaited_replies::AwaitedReplies;
use crate::trace_notes::blockers::{ByLine, MAX_CLIENTS, push_blockers, want_text};
use crate::trace_notes::deadlock::push_deadlock;
use crate::trace_notes::line_counts::LineCounts;
use crate::trace_notes::line_form::version_of;
use crate::trace_notes::open_request::{Stage, push_entry};
use crate::trace_notes::open_requests::{OpenRequests, Sought};
use crate::trace_notes::replay::Replay;
use crate::trace_notes::sent_messages::watch_lines;
use crate::trace_notes::withdrawals::WithdrawalScope;
use ra_stamp::{Entry, Memory};
use ra_text::Note;
use std::alloc::Global;

/// How much is left at the end of a text.
#[derive(Clone, Copy)]
struct LeftOver {
    /// How many messages and copies are under way, and how many were lost.
    under_way: u64,
    lost: u64,
    /// How many requests wait and hold, and how many clients are queued.
    waiting: u64,
    queued: u64,
    holding: u64,
}

/// What is said of a request that waits although no other one is in its way.
#[derive(Clone, Copy)]
enum Lack<'a> {
    /// Which REPLY it awaits, and otherwise this text.
    Reply(&'a AwaitedReplies, &'static str),
    /// Nothing more, since a mark log does not tell.
    Unknown,
}

impl Lack<'_> {
    /// Adds it.
    fn push(&self, note: &mut Note, entry: &Entry) {
        match self {
            Lack::Reply(awaited, otherwise) => awaited.push(note, entry, otherwise),
            Lack::Unknown => note.push(": no client blocks it"),
        }
    }
}

/// Adds the first clients at a stage, each on a line of its own, and what is in the way of those that wait or are
/// queued, or what a request lacks if no other client is.
fn push_clients(note: &mut Note, open: &OpenRequests, stage: Stage, lack: &Lack<'_>) {
    let mut after = 0;
    for _ in 0..MAX_CLIENTS {
        let Some(request) = open.next_of(after, &Sought::At(stage)) else {
            break;
        };
        note.push(NEXT_LINE);
        let entry = &request.entry;
        push_entry(note, entry, stage.done(), " since line ", request.since);
        let in_the_way = match stage {
            Stage::Waits => Sought::Blocking(*entry),
            _ => Sought::AtNode(entry.stamp.node, entry.name),
        };
        if !stage.is(Stage::Holds)
            && !push_blockers(note, open, &in_the_way, &ByLine)
            && stage.is(Stage::Waits)
        {
            lack.push(note, entry);
        }
        after = request.since;
    }
}

/// Adds those of the first requests that wait to which no other request is in the way.
fn add_unblocked(open: &OpenRequests, awaited: &mut AwaitedReplies) {
    let mut after = 0;
    for _ in 0..MAX_CLIENTS {
        let Some(request) = open.next_of(after, &Sought::At(Stage::Waits)) else {
            break;
        };
        if open.next_of(0, &Sought::Blocking(request.entry)).is_none() {
            awaited.add(&request.entry);
        }
        after = request.since;
    }
}

/// Adds how many things are left and what they do, after this text, if any are left. Returns the text that comes before
/// further things.
fn push_count<'a>(note: &mut Note, joint: &'a str, count: u64, thing: &str, does: &str) -> &'a str {
    if count == 0 {
        return joint;
    }
    push_number_in(note, joint, count, thing);
    note.push(if count == 1 { " " } else { "s " });
    note.push(does);
    ", "
}

/// Adds how much is left, which is not nothing. A mark log has neither messages nor clients that are queued.
fn push_counts(note: &mut Note, left: &LeftOver, is_trace: bool) {
    let mut joint = if is_trace {
        "the trace ends with "
    } else {
        "the log ends with "
    };
    joint = push_count(note, joint, left.under_way, " message", "under way");
    joint = push_count(note, joint, left.lost, " message", "lost");
    joint = push_count(note, joint, left.waiting, " request", "waiting");
    joint = push_count(note, joint, left.queued, " client", "queued");
    push_count(note, joint, left.holding, " request", "holding");
}

/// Adds whether clients wait for each other in a circle, and the first clients at each stage, or that there was no
/// memory for them.
fn push_stages(alloc: Global, note: &mut Note, open: &OpenRequests, lack: &Lack<'_>) {
    if open.is_whole {
        push_deadlock(alloc, note, open);
        for stage in [Stage::Waits, Stage::Queued, Stage::Holds] {
            push_clients(note, open, stage, lack);
        }
    } else {
        note.push("; there was no room to name them");
    }
}

/// Adds what is left at the end of a text: how much, and the first clients at each stage, or that there was no memory
/// for them.
fn push_end(alloc: Global, note: &mut Note, text: &[u8], left: &LeftOver) {
    let is_trace = version_of(text).is_some();
    push_counts(note, left, is_trace);
    let replay = Replay::of(alloc, text, b"");
    let Some(nodes) = replay.nodes else {
        push_stages(alloc, note, &replay.open, &Lack::Unknown);
        return;
    };
    let mut awaited = AwaitedReplies::new(alloc, nodes, "line ");
    add_unblocked(&replay.open, &mut awaited);
    if !awaited.is_empty() {
        let is_known = watch_lines(alloc, text, &mut awaited);
        awaited.refuse_if(!is_known);
    }
    let otherwise = want_text(u128::from(left.under_way), u128::from(left.lost));
    push_stages(alloc, note, &replay.open, &Lack::Reply(&awaited, otherwise));
}

/// Adds what is left at the end of a mark log after which these requests wait and hold, if there are any.
pub fn push_log_end(alloc: Global, note: &mut Note, open: &OpenRequests) {
    let left = LeftOver {
        under_way: 0,
        lost: 0,
        waiting: open.count_of(&Sought::At(Stage::Waits)),
        queued: 0,
        holding: open.count_of(&Sought::At(Stage::Holds)),
    };
    if left.waiting > 0 || left.holding > 0 {
        push_counts(note, &left, false);
        push_stages(alloc, note, open, &Lack::Unknown);
    }
}

/// Returns a note on what is left at the end of a text, which is a mark log, or a trace in which this many messages
/// were sent. The note counts the messages that are under way and lost, and the requests that wait, are queued or hold,
/// and leaves out each count that is zero. If clients wait for each other in a circle, the next line names them. Then
/// there is a line for each of the first four clients at each stage, with the line since which it has been at it, and
/// with the clients that hold up one that waits or is queued. If no client holds it up, the line says which message is
/// lost or under way; for that, the steps of the trace are made once more. If there is no memory for the clients, the
/// note only counts. If a log has no mark, the note says so. At the end it names the first four requests that were
/// withdrawn, and the clients that went on because of that. Returns `None` if nothing is left and no request was
/// withdrawn. The cost is linear in the text, and that of the steps. It does not allocate if it returns `None`.
///
/// # Errors
///
/// `Memory`: memory ran out.
pub fn end_note(alloc: Global, text: &[u8], sent: u128) -> Result<Option<String>, Memory> {
    let mut note = Note::new(alloc);
    // A run of a text sends far fewer than the greatest `u64`.
    let sent = if sent < 1 << 64 {
        sent as u64
    } else {
        u64::MAX
    };
    let counts = LineCounts::of(text);
    let left = LeftOver {
        under_way: sent
            .saturating_add(counts.repeats)
            .saturating_sub(counts.losses.saturating_add(counts.deliveries)),
        lost: counts.losses,
        // A client that asked is queued until its request is made, and the request waits until it is granted. A cancel
        // ends the queueing, or withdraws the request. A mark log has no asks.
        waiting: counts
            .requests
            .saturating_sub(counts.enters.saturating_add(counts.withdrawals)),
        queued: counts
            .asks
            .saturating_add(counts.withdrawals)
            .saturating_sub(counts.requests.saturating_add(counts.cancels)),
        holding: counts.enters.saturating_sub(counts.leaves),
    };
    if text.is_empty() {
        note.push("the log has no mark, so nothing was judged");
    } else if left.under_way > 0 || left.waiting > 0 || left.queued > 0 || left.holding > 0 {
        // A lost message is nothing left to do.
        push_end(alloc, &mut note, text, &left);
        if counts.withdrawals > 0 {
            WithdrawalScope::WHOLE.push(alloc, &mut note, NEXT_LINE, text, counts.withdrawals);
        }
    } else if counts.withdrawals > 0 {
        WithdrawalScope::WHOLE.push(alloc, &mut note, "", text, counts.withdrawals);
    }
    note.finish()
}

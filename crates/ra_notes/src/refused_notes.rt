//! What is said of the line that the node of a book does not take.
use crate::refused_event::ClientState;
use ra_book::BookError;
use ra_book_text::Refusal;
use ra_explain::{
    Stage, push_digits_fault, push_exhausted, push_frame_fault, push_numbered, push_stage,
    push_waits_not,
};
use ra_frame::Frame;
use ra_stamp::Member;
use ra_text::Note;

/// What comes before the digits of a frame.
const RECEIVE: &[u8] = b"receive ";

/// Adds why a client may not give up at the line: it holds the name, or it does not wait.
fn push_not_waiting(note: &mut Note, state: &ClientState) {
    match state.reached {
        Some(_) => {
            push_stage(note, state.client, &state.name, None, state.reached);
            note.push(" and does not wait for it: expected its release");
        }
        None => {
            push_waits_not(note, state.client, &state.name, None);
            note.push(": expected a client that does");
        }
    }
}

/// Adds why a client may not ask, leave or give up at the line: how far it is and what is expected first, or that no
/// number is left.
fn push_client(note: &mut Note, why: BookError, state: &ClientState) {
    let asks = match why {
        BookError::Busy => true,
        BookError::NotHeld => false,
        BookError::NotWaiting => return push_not_waiting(note, state),
        _ => {
            push_exhausted(note, &state.name);
            return;
        }
    };
    let reached = state.reached;
    push_stage(note, state.client, &state.name, None, reached);
    note.push(match reached {
        Some(reached) if asks && reached.stage.is(Stage::Holds) =>
            " and may not ask for it again: expected its release first",
        _ if asks => " and may not ask for it again: expected its grant and its release first",
        Some(_) => " and does not hold it: expected its grant first",
        None => ": expected a client that does",
    });
}

/// Adds why the node of a book does not take a line, and what would be right. `frame` comes by the line, or a client
/// asks, leaves or gives up by it, which is at `state`.
pub fn push_refused(
    note: &mut Note,
    line: &[u8],
    frame: &Option<Frame>,
    member: Member,
    why: Refusal,
    state: &Option<ClientState>,
) {
    let digits = line.get(RECEIVE.len()..).unwrap_or(b"");
    let cause = match why {
        Refusal::Line => return,
        Refusal::Hex => return push_digits_fault(note, digits, RECEIVE.len()),
        Refusal::Frame(fault) => return push_frame_fault(note, digits, fault),
        Refusal::Event(cause) => cause,
    };
    if let BookError::ClockFull = cause {
        note.push(
            "the clock of this event would be above the greatest, 4611686018427387904 (2^62)",
        );
    } else if let Some(state) = state {
        push_client(note, cause, state);
    } else if let Some(frame) = frame {
        if let BookError::WrongNode = cause {
            push_numbered(note, "the frame is for node ", frame.message.to().get());
            push_numbered(note, ": expected one for node ", member.node().get());
        } else if let BookError::Stranger = cause {
            push_numbered(note, "the frame is from node ", frame.message.from().get());
            push_numbered(note, ": the nodes are 1 to ", member.nodes());
        }
    }
}

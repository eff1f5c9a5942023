//! Which message of a trace is nearly one that was never sent.
use crate::trace_notes::sent_messages::WatchesMessages;
use ra_stamp::Message;
use ra_world::Step;

/// A message that was never sent, and the last one that is nearly the same.
#[derive(Clone, Copy)]
pub struct NearMiss {
    sought: Message,
    /// That message, and the line of the step that sent it.
    pub found: Option<(Message, u64)>,
}

impl NearMiss {
    /// Makes that of a message, before the first step.
    pub fn new(sought: Message) -> NearMiss {
        NearMiss {
            sought,
            found: None,
        }
    }
}

/// Returns whether two messages differ in one thing alone: in their kinds, or in the modes that they have; in one of
/// their nodes, or since these are exchanged; in their names; or in their numbers.
fn is_near(one: &Message, other: &Message) -> bool {
    let has_other_kind = match (one, other) {
        (Message::Request { mode, .. }, Message::Request { mode: second, .. }) => mode != second,
        (Message::Reply { .. }, Message::Reply { .. }) => false,
        _ => true,
    };
    let is_exchanged = one.from() == other.to() && one.to() == other.from();
    let (has_other_sender, has_other_receiver) = (
        one.from() != other.from(),
        one.to() != other.to(),
    );
    if has_other_sender && has_other_receiver && !is_exchanged {
        return false;
    }
    let has_other_nodes = has_other_sender || has_other_receiver;
    let (has_other_name, has_other_number) = (one.name() != other.name(), one.seq() != other.seq());
    matches!(
        (
            has_other_kind,
            has_other_nodes,
            has_other_name,
            has_other_number,
        ),
        (true, false, false, false)
            | (false, true, false, false)
            | (false, false, true, false)
            | (false, false, false, true)
    )
}

impl WatchesMessages for NearMiss {
    fn take_step(&mut self, _number: u64, _step: &Step) {}

    fn take_sent(&mut self, number: u64, message: &Message) {
        if is_near(message, &self.sought) {
            self.found = Some((*message, number));
        }
    }
}

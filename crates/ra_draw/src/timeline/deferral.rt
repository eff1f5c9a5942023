//! Which REQUESTs are deferred, and the REPLYs that answer them.
use crate::timeline::Moment;
use indexmap::IndexMap;
use ra_stamp::{Memory, Message, Name, NodeId};

/// A REPLY that a node owes to another, for a name.
type OwedReply = (NodeId, NodeId, Name);

/// A deferral: the REQUEST, when it came, and when the REPLY was sent or a later REQUEST took its place, as far as the
/// run goes.
#[derive(Clone, Copy)]
pub struct Deferral {
    pub request: Message,
    pub came: Moment,
    pub ended: Option<Moment>,
}

/// All deferrals, in the order in which they began, and the places of those that are not over.
#[derive(Drop)]
pub struct DeferralSpans {
    pub all: Vec<Deferral>,
    pub open: IndexMap<OwedReply, usize>,
}

impl DeferralSpans {
    /// Notes that a REQUEST is deferred. An earlier one of the same node for the same name ends with it, since one
    /// REPLY answers both.
    pub fn begin(&mut self, request: &Message, came: Moment) -> Result<(), Memory> {
        let owed = (request.to(), request.from(), request.name());
        self.end(&owed, came);
        let Ok(_) = self.open.insert(owed, self.all.len()) else {
            return Err(Memory);
        };
        let deferral = Deferral {
            request: *request,
            came,
            ended: None,
        };
        match self.all.push(deferral) {
            Ok(()) => Ok(()),
            Err(_) => Err(Memory),
        }
    }

    /// Ends the deferral of a REPLY that is owed, if there is one.
    pub fn end(&mut self, owed: &OwedReply, ended: Moment) {
        if let Some(place) = self.open.swap_remove(owed) {
            if let Some(deferral) = self.all.get_mut(place) {
                deferral.ended = Some(ended);
            }
        }
    }
}

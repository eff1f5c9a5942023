use ra_world::{Report, Steps};

/// The one run of the cluster that books settle into.
#[derive(Drop)]
pub struct Settled {
    /// The events of all books by clock, and then by node. [`settle`](crate::settle) puts after them the loss of each
    /// frame that is flagged lost, by node and then in order of sending.
    /// [`settle_with_copies`](crate::settle_with_copies) has no losses, and puts a repeat directly before each event
    /// that gets a frame that comes again later.
    pub steps: Steps,
    /// The report of these steps.
    pub report: Report,
}

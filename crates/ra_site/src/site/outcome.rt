//! The outcome of a client's request.
ghost use Rattle.std.specs.Result.{ForOk};
ghost use Rattle.ra_site.specs.ClientGrant.{WasGiven};

use crate::{Grant, Stop};

/// Why a request was not granted.
#[derive(Clone, Copy)]
pub enum NotGranted {
    /// Its client gave it up before.
    GivenUp,
    /// Its node was stopped before, for this cause.
    Stopped(Stop),
}

/// The outcome of a request: its grant, or why it was not granted.
#[derive(Drop)]
pub struct Outcome {
    /// The grant, or why none was given.
    pub answer: Result<Grant, NotGranted>,
    ghost given: { ForOk answer WasGiven },
}

//! How rounds of an audit keep off while threads send.
ghost use Rattle.std.specs.Prelude.{◌≡◌, ◌↔◌, false, IsNone};

use std::marker::Model;
use std::sync::{RwLock, RwLockReadGuard, RwLockWriteGuard, Wait};

/// What the threads that send for an audited site share, and a round of the audit has alone. A thread has its share
/// from before it calls the book until all frames of the event were tried. So each frame that a round takes from the
/// book was tried, and is flagged if it was lost. At a site that is not audited nobody waits, and nothing can be had
/// alone. So if a site hands over anything, its threads keep off.
///
/// A round that waits comes before threads that have no share yet. So a thread must not take a second one.
///
/// Contracts see whether the site is audited.
#[derive(Drop)]
pub struct Sending {
    lock: Option<RwLock<()>>,
}

impl Model for Sending {
    ghost use Rattle.std.specs.Prelude.{Bool};
    ghost use Rattle.std.specs.Option.{is_some};

    ghost Value = { Bool };

    ghost view = { λ sending. is_some sending.lock };
}

impl Sending {
    /// Makes the lock of a site, audited or not.
    pub fn new(audited: bool) -> Sending
        ensures { result ≡ audited }
    {
        let lock = if audited { Some(RwLock::new(())) } else { None };
        Sending { lock }
    }

    /// Waits until no round is at work here. While the caller keeps the guard, none begins. Returns `None` at once if
    /// the site is not audited.
    pub fn share<R: Wait>(&self, rt: &R) -> Option<RwLockReadGuard<'_, ()>> {
        match &self.lock {
            Some(lock) => Some(lock.read(rt)),
            None => None,
        }
    }

    /// Waits until no thread is sending. While the caller keeps the guard, none begins. Returns `None` at once if the
    /// site is not audited.
    pub fn alone<R: Wait>(&self, rt: &R) -> Option<RwLockWriteGuard<'_, ()>>
        ensures { IsNone result ↔ (self.now ≡ false) }
    {
        match &self.lock {
            Some(lock) => Some(lock.write(rt)),
            None => None,
        }
    }
}

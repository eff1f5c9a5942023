//! Requests, and which of them end only after others.
ghost use Rattle.std.specs.Prelude.{◌≡◌, ◌↔◌, IsTrue};
ghost use Rattle.ra_table.specs.Refusals.{SharesNodeAndName};
ghost use Rattle.ra_deadlock.specs.Deadlock.{AreOfOneClient, EndsAfter, IsInTheWay, is_granted};

use ra_stamp::{Entry, NodeId};
use ra_table::excludes;

/// What a client does with a name between its ask and its release.
#[derive(Clone, Copy)]
pub enum Stage {
    /// Its request waits.
    Waits,
    /// It asked, and has no request yet.
    Queued,
    /// Its request was granted.
    Holds,
}

/// A request of a client for a name, which waits or is granted, or that the client is queued for the name.
#[derive(Clone, Copy)]
pub struct Request {
    /// Of a client that is queued, the number in it has no meaning.
    pub entry: Entry,
    pub stage: Stage,
}

/// A client: its node, and its number there.
pub type ClientAt = (NodeId, u32);

impl Request {
    /// Returns whose it is.
    pub fn client(&self) -> ClientAt
        ensures { result ≡ (self.now.entry.stamp.node, self.now.entry.client) }
    {
        (self.entry.stamp.node, self.entry.client)
    }

    /// Returns whether it was granted. It does not allocate.
    pub fn is_granted(&self) -> bool
        ensures { result ≡ is_granted self.now.stage }
    {
        match self.stage {
            Stage::Holds => true,
            Stage::Waits | Stage::Queued => false,
        }
    }

    /// Returns whether it is for the same name at the same node.
    fn shares_node_and_name(&self, other: &Request) -> bool
        ensures { IsTrue result ↔ SharesNodeAndName self.now.entry other.now.entry }
    {
        self.entry.name == other.entry.name && self.entry.stamp.node == other.entry.stamp.node
    }

    /// Returns whether it is in the way of another one. It keeps out one that waits if it excludes that one, and is
    /// granted, or waits and is earlier. One that is queued waits for the request of its node for the name. It does not
    /// allocate.
    pub fn is_in_the_way(&self, other: &Request) -> bool
        ensures { IsTrue result ↔ IsInTheWay self.now other.now }
    {
        match other.stage {
            Stage::Waits => match self.stage {
                Stage::Holds => excludes(&self.entry, &other.entry),
                Stage::Waits => {
                    excludes(&self.entry, &other.entry) && self.entry.stamp < other.entry.stamp
                }
                Stage::Queued => false,
            },
            Stage::Queued => match self.stage {
                Stage::Holds | Stage::Waits => self.shares_node_and_name(other),
                Stage::Queued => false,
            },
            Stage::Holds => false,
        }
    }

    /// Returns whether both are of one client.
    fn is_of_client_of(&self, other: &Request) -> bool
        ensures { IsTrue result ↔ AreOfOneClient self.now other.now }
    {
        self.entry.stamp.node == other.entry.stamp.node && self.entry.client == other.entry.client
    }

    /// Returns whether it ends only after another one: that one is in its way, or it is granted, and its client waits by
    /// that one. It does not allocate.
    pub fn ends_after(&self, next: &Request) -> bool
        ensures { IsTrue result ↔ EndsAfter self.now next.now }
    {
        if self.is_granted() {
            !next.is_granted() && self.is_of_client_of(next)
        } else {
            next.is_in_the_way(self)
        }
    }
}

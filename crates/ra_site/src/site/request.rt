//! What a client asks of a site.
ghost use Rattle.std.specs.Prelude.{◌↔◌, IsTrue};
ghost use Rattle.ra_site.specs.ClientGrant.{IsGrantOf};

use crate::Grant;
use ra_stamp::{Mode, Name, NodeId};

/// A client's request for a name in a mode.
#[derive(Clone, Copy)]
pub struct Request {
    /// The client, at the node of the site.
    pub client: u32,
    /// The name.
    pub name: Name,
    /// The mode.
    pub mode: Mode,
}

impl Request {
    /// Returns whether this is a grant of the request at this node.
    pub fn is_granted_by(&self, node: NodeId, grant: &Grant) -> bool
        ensures { IsTrue result ↔ IsGrantOf node self.now.client self.now.name self.now.mode grant.now }
    {
        let entry = &grant.entry;
        entry.stamp.node == node
            && entry.client == self.client
            && entry.name == self.name
            && entry.mode == self.mode
    }
}

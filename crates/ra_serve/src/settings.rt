//! What a host is started with.
ghost use Rattle.std.specs.Prelude.{◌≡◌, ◌↔◌, IsTrue};

use ra_stamp::{Member, Name, NodeId};

/// What a host is started with.
#[derive(Clone, Copy)]
pub struct Settings {
    /// Its node, and how many there are.
    pub member: Member,
    /// The number with which each name begins.
    pub start: u64,
    /// The name of its cluster.
    pub cluster: Name,
}

impl Settings {
    /// Returns its node. It does not allocate.
    pub fn me(&self) -> NodeId
        ensures { result ≡ self.now.member.node }
    {
        self.member.node()
    }

    /// Returns the last node, whose number is how many there are. It does not allocate.
    pub fn nodes(&self) -> NodeId
        ensures { result ≡ self.now.member.nodes }
    {
        NodeId::at(usize::from(self.member.nodes()) - 1)
    }

    /// Returns whether there is no other node. It does not allocate.
    pub fn is_alone(&self) -> bool
        ensures { IsTrue result ↔ (self.now.member.nodes ≡ 1) }
    {
        self.member.nodes() == 1
    }
}

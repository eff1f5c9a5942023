//! A host that comes back: it has its links alone.
ghost use Rattle.std.specs.Prelude.{◌≡◌, if◌then◌else◌};
ghost use Rattle.ra_host.specs.Host.{Host, IsOther, hears_hello};
ghost use Rattle.ra_host.specs.Running.{AreLinksOf};

use crate::answering::{answer_hello, may_hear};
use crate::base::Base;
use ra_host::Links;
use ra_link::Link;
use ra_stamp::NodeId;

/// A host that comes back.
#[derive(Drop)]
pub struct Returning {
    pub base: Base,
    pub links: Links,
    /// Whether what clients held before is to be given back once the host is ready.
    pub releases: bool,
}

impl Returning {
    ghost use Rattle.ra_serve.specs.Answering as answering;
    ghost use Rattle.ra_serve.specs.Returning.{IsLinkTo, SaysToHello};

    /// Returns the link to another host, or this one if the cluster has no such other host.
    fn link_to(&self, host: NodeId, was: Link) -> Link
        ensures { (h : Host) → AreLinksOf self.now.links h → IsOther h host → result ≡ h.links host }
    {
        self.links.get(host).unwrap_or(was)
    }

    /// Hears a question of a host, to which this is the link.
    fn hear_hello(
        &mut self,
        host: NodeId,
        was: Link,
        start: u128,
        question: u64,
        nodes: NodeId,
        first: u64,
        identity: u128,
    )
        requires { IsLinkTo self.old.links host was }
        ensures links { (h : Host) → AreLinksOf self.old.links h → AreLinksOf self.new.links
            (if answering.may_hear self.old.base host nodes first identity then hears_hello h host start else h) }
        ensures says { (h : Host) → AreLinksOf self.old.links h
            → SaysToHello self.old.base h host start question nodes first identity self.new.base }
    {
        if !may_hear(&mut self.base, host, nodes, first, identity) {
            return;
        }
        if let Ok(welcome) = self.links.hear_hello(host, start, question) {
            let is = self.link_to(host, was);
            answer_hello(&mut self.base, host, was, is, welcome);
        }
    }
}

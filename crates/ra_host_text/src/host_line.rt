//! The lines that hosts say.
pub mod message_fault;

ghost use Rattle.std.specs.Prelude.{◌≡◌, ℕ, List, IsErr, ◌↔◌, MatchBool, MatchOption, MatchResult, OnErr, OnOk};
ghost use Rattle.ra_text.specs.Drafting.{Adds};
ghost use Rattle.ra_host_text.specs.HostText.{IsBetween, IsHeard, IsHostLine, IsUnfit, IsUnheard};
ghost use Rattle.ra_host_text.specs.declared.host_line.HostLine.{HostLine};

use crate::{HostMessage, MessageFault, Unfit};
use ra_stamp::{Name, NodeId};
use ra_text::Draft;
use ra_trace::{name_of, node_of, split_once};

/// A message, with the cluster and the two hosts that it names. As text: `CLUSTER FROM TO` and the message.
#[derive(Clone, Copy)]
pub struct HostLine {
    /// The name of the cluster.
    pub cluster: Name,
    /// The host that says it.
    pub from: NodeId,
    /// The host that it is for.
    pub to: NodeId,
    /// The message.
    pub message: HostMessage,
}

/// Returns whether the frame of a message, if it has one, goes from one of these hosts to the other.
fn is_between(from: NodeId, to: NodeId, message: &HostMessage) -> bool
    ensures { MatchBool result (IsBetween from to message.now) (IsBetween from to message.now → ⊥) }
{
    match message {
        HostMessage::Frame { frame, .. } => {
            frame.message.from() == from && frame.message.to() == to
        }
        _ => true,
    }
}

impl HostLine {
    /// Returns what a line says, without its line feed, or `None` if it is none that a host says. It does not allocate,
    /// and the cost is linear in the line.
    pub fn parse(line: &[u8]) -> Option<HostLine>
        ensures { MatchOption result ((said : HostLine) → IsHostLine line.now said → ⊥) (IsHostLine line.now) }
    {
        let (cluster, rest) = split_once(line, b' ')?;
        let cluster = name_of(cluster)?;
        let (from, rest) = split_once(rest, b' ')?;
        let from = node_of(from)?;
        let (to, said) = split_once(rest, b' ')?;
        let to = node_of(to)?;
        let message = HostMessage::parse(said)?;
        Some(HostLine {
            cluster,
            from,
            to,
            message,
        })
    }

    /// Returns what the host `from` says by a line to the host `to`, in this cluster. It does not allocate, and the
    /// cost is linear in the line.
    ///
    /// # Errors
    ///
    /// The first that holds:
    ///
    /// 1. `Unknown`: it is no line of a host.
    /// 2. `Cluster`: it names another cluster.
    /// 3. `From`: it names another sender.
    /// 4. `To`: it names another receiver.
    /// 5. `Frame`: it has a frame, which goes from or to another node.
    pub fn heard(
        line: &[u8],
        cluster: &Name,
        from: NodeId,
        to: NodeId,
    ) -> Result<HostMessage, MessageFault>
        ensures { MatchResult result (IsHeard line.now cluster.now from to)
            (IsUnheard line.now cluster.now from to) }
    {
        let Some(said) = HostLine::parse(line) else {
            return Err(MessageFault::Unknown);
        };
        if said.cluster != *cluster {
            return Err(MessageFault::Cluster);
        }
        if said.from != from {
            return Err(MessageFault::From);
        }
        if said.to != to {
            return Err(MessageFault::To);
        }
        if !is_between(from, to, &said.message) {
            return Err(MessageFault::Frame);
        }
        Ok(said.message)
    }

    /// Adds it as text, without a line feed. Its frame fits.
    pub fn push_fitting(&self, text: &mut Draft)
        requires { IsUnfit self.now.message → ⊥ }
        ensures { (line : List ℕ) × IsHostLine line self.now × Adds text.old line text.new }
    {
        // For the proof: the bytes of a name are one.
        let _ = self.cluster.bytes();
        text.push(self.cluster.as_str());
        text.push_number(self.from.get());
        text.push_number(self.to.get());
        text.push(" ");
        self.message.push(text);
    }

    /// Adds it as text, without a line feed.
    ///
    /// # Errors
    ///
    /// `Unfit`: its frame does not fit, so that it has no text. Nothing is added.
    pub fn push(&self, text: &mut Draft) -> Result<(), Unfit>
        ensures ok { OnOk result ((line : List ℕ) × IsHostLine line self.now × Adds text.old line text.new) }
        ensures err { OnErr result (text.new ≡ text.old) }
        ensures unfit { IsErr result ↔ IsUnfit self.now.message }
    {
        if !self.message.fits() {
            return Err(Unfit);
        }
        self.push_fitting(text);
        Ok(())
    }
}

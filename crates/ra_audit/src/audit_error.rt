ghost use Rattle.std.specs.Prelude.{◌≡◌};
ghost use Rattle.ra_audit.specs.declared.audit_error.AuditError.TheVariants as audit;

use ra_frame::Frame;
use ra_site::{BookEvent, TakeError};
use ra_stamp::{Memory, NodeId};
use std::fmt;
use thiserror::Error;

/// The first event found that does not fit the run of the cluster.
#[derive(Clone, Copy, Debug, PartialEq, Eq)]
pub struct AuditFault {
    /// The node.
    pub node: NodeId,
    /// The event. If a frame came, it was never sent, or its message came or was lost before.
    pub event: BookEvent,
}

/// Why an auditor did not put all that it can into the run.
#[derive(Clone, Copy, Debug, PartialEq, Eq, Error)]
pub enum AuditError {
    /// An event does not fit, now or in an earlier round.
    Fault(AuditFault),
    /// This frame was noted as lost, and it came or was lost before, or was never sent.
    NotLost(Frame),
    /// Memory ran out.
    Memory,
}

impl fmt::Display for AuditError {
    fn fmt<W: fmt::Write>(&self, f: &mut fmt::Formatter<W>) -> fmt::Result {
        fmt::Debug::fmt(self, f)
    }
}

/// Why a round of the audit of a cluster did not put all that it can into the run.
#[derive(Clone, Copy, Debug, PartialEq, Eq, Error)]
pub enum RoundError {
    /// The cluster was not made to be audited.
    NotAudited,
    /// The auditor was made for another number of nodes, or with another start.
    OtherCluster,
    /// An event does not fit, or a frame was never sent. This or an earlier round found it.
    Fault(AuditFault),
    /// This frame was noted as lost, and it came or was lost before, or was never sent.
    NotLost(Frame),
    /// Memory ran out before events were taken, or while events and losses were put into the run.
    Memory,
    /// The events of a node were not taken.
    NotTaken {
        /// The node.
        node: NodeId,
        /// Why.
        cause: TakeError,
    },
}

impl fmt::Display for RoundError {
    fn fmt<W: fmt::Write>(&self, f: &mut fmt::Formatter<W>) -> fmt::Result {
        fmt::Debug::fmt(self, f)
    }
}

/// Why the audit of a cluster did not end with all that happened in the run.
#[derive(Clone, Copy, Debug, PartialEq, Eq, Error)]
pub enum FinishError {
    /// The last round failed.
    Round(RoundError),
    /// A frame came that was never sent.
    NeverSent(AuditFault),
    /// This frame was noted as lost, and was never sent.
    LostUnsent(Frame),
}

impl fmt::Display for FinishError {
    fn fmt<W: fmt::Write>(&self, f: &mut fmt::Formatter<W>) -> fmt::Result {
        fmt::Debug::fmt(self, f)
    }
}

/// Why a cluster was not closed with all that happened in the run of its auditor.
#[derive(Clone, Copy, Debug, PartialEq, Eq, Error)]
pub enum CloseError {
    /// Its audit did not end.
    NotFinished(FinishError),
    /// The last event of this node's book has another clock than the node's last event in the run, or the book at its
    /// place belongs to another node.
    Behind(NodeId),
    /// A book still has this frame flagged lost, so its loss is not in the run.
    StillLost(Frame),
}

impl fmt::Display for CloseError {
    fn fmt<W: fmt::Write>(&self, f: &mut fmt::Formatter<W>) -> fmt::Result {
        fmt::Debug::fmt(self, f)
    }
}

/// Why not all that the books of a closed cluster say is in the run of an auditor.
#[derive(Clone, Copy, Debug, Error)]
pub enum BehindError {
    /// There are more or fewer books than nodes in the run.
    OtherCount,
    /// The last event of this node's book has another clock than the node's last event in the run, or the book at its
    /// place belongs to another node.
    Behind(NodeId),
}

impl fmt::Display for BehindError {
    fn fmt<W: fmt::Write>(&self, f: &mut fmt::Formatter<W>) -> fmt::Result {
        fmt::Debug::fmt(self, f)
    }
}

impl From<Memory> for AuditError {
    ghost from_gives = { λ _ e. e ≡ audit.Memory };

    fn from(_refused: Memory) -> AuditError {
        AuditError::Memory
    }
}

//! Which messages a node may take.
ghost use Rattle.std.specs.Prelude.{◌↔◌, IsErrOf, IsOk};
ghost use Rattle.ra_automaton.specs.State.{IsForNode};
ghost use Rattle.ra_automaton.specs.Calls.{ChecksAddress};

use crate::ReceiveError;
use ra_stamp::{Member, Message};

/// Checks that a message is for a node, and from another one of its cluster. It does not allocate.
///
/// # Errors
///
/// The first that holds:
///
/// 1. `WrongNode`: the message is for another node.
/// 2. `Stranger`: its sender is this node or above the number of nodes.
#[inline(always)]
pub fn check_address(member: Member, message: &Message) -> Result<(), ReceiveError>
    ensures addressed { IsOk result ↔ IsForNode member.node member.nodes message.now }
    ensures address { ChecksAddress member.node member.nodes message.now result }
    ensures no_memory { IsErrOf result ReceiveError.Memory → ⊥ }
{
    if message.to() != member.node() {
        return Err(ReceiveError::WrongNode);
    }
    let sender = message.from();
    if sender == member.node() || sender.get() > member.nodes() {
        return Err(ReceiveError::Stranger);
    }
    Ok(())
}

//! The REQUESTs that an event sends.
ghost use Rattle.std.specs.Prelude.{◌≡◌, ◌+◌, ◌≤◌, ◌++◌, map, IsOk, OnOk};
ghost use Rattle.ra_automaton.specs.Steps.{others_of};

use ra_stamp::{Member, Memory, Message, Messages, Mode, Name, NodeId};

/// Adds a REQUEST to each other node, in ascending order. It does not allocate if there is room for one to each node.
///
/// # Errors
///
/// `Memory`: memory ran out. Some REQUESTs may have been added.
pub fn push_requests(
    sends: &mut Messages,
    member: Member,
    name: Name,
    mode: Mode,
    seq: u64,
) -> Result<(), Memory>
    ensures ok { OnOk result (sends.new.items ≡ sends.old.items
        ++ map (λ other. Message.Request member.node other name mode seq) (others_of member.node member.nodes)) }
    ensures succeeds { member.nodes ≤ sends.old.spare → IsOk result }
{
    let me = member.node();
    let nodes = member.nodes();
    sends.reserve(u64::from(nodes.saturating_sub(1)))?;
    for place in 0..usize::from(nodes) {
        if place != me.place() {
            sends.push(Message::Request {
                from: me,
                to: NodeId::at(place),
                name,
                mode,
                seq,
            })?;
        }
    }
    Ok(())
}

//! The times at which clients give up names.
ghost use Rattle.std.specs.Prelude.{◌≡◌, ◌<◌, ◌≤◌, ℕ, List, true, false, MatchOption, OnOk, OnErr};
ghost use Rattle.ra_clients.specs.Times.{AreSameEnds, Sets, ends_at};

use ra_stamp::{Memory, Name};
use std::collections::BTreeSet;

/// When a client gives up, its number, and the name.
pub type End = ((u64, u32), Name);

/// A client whose time is over.
#[derive(Clone, Copy, Debug, PartialEq, Eq)]
pub struct Due {
    /// The number of the client.
    pub number: u32,
    /// The name that it gives up.
    pub name: Name,
}

/// Returns a client whose time is over, with the name, if there is one: that of the earliest time. The cost is
/// logarithmic.
pub fn first_due(ends: &BTreeSet<End>, now: u64) -> Option<Due>
    ensures { MatchOption result
        ((until number : ℕ) (name : List ℕ) → ends_at ends.now until number name ≡ true → now < until)
        (λ due. (until : ℕ) × (until ≤ now) × (ends_at ends.now until due.number due.name ≡ true)) }
{
    let ((until, number), name) = *ends.first()?;
    if until <= now {
        Some(Due { number, name })
    } else {
        None
    }
}

/// The client gives the name up at this time, if it is one. The cost is logarithmic.
///
/// # Errors
///
/// `Memory`: nothing has changed.
pub fn add_end(
    ends: &mut BTreeSet<End>,
    number: u32,
    name: &Name,
    until: Option<u64>,
) -> Result<(), Memory>
    ensures ok { OnOk result (Sets ends.old number name.now until true ends.new) }
    ensures err { OnErr result (AreSameEnds ends.old ends.new) }
{
    let Some(until) = until else {
        return Ok(());
    };
    ends.insert(((until, number), *name))?;
    Ok(())
}

/// The client does not give the name up at this time, if it is one. The cost is logarithmic. It does not allocate.
pub fn drop_end(ends: &mut BTreeSet<End>, number: u32, name: &Name, until: Option<u64>)
    ensures { Sets ends.old number name.now until false ends.new }
{
    let Some(until) = until else {
        return;
    };
    ends.remove(&((until, number), *name));
}

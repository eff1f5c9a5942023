//! The names of a script.
ghost use Rattle.std.specs.Prelude.{◌≡◌, ◌⊎◌, ◌↔◌, ℕ, List, Contains, OnOk, IfOk};
ghost use Rattle.std.specs.List.Sorted.{IsStrictlySortedBy};
ghost use Rattle.std.specs.Ordering.{nat_cmp};
ghost use Rattle.std.specs.Cmp.Lexicographic.{slice_cmp};
ghost use Rattle.ra_schedule.specs.StateText as spec;

use crate::{Op, Script};
use ra_stamp::{Memory, Name};
use std::alloc::Global;
use std::collections::BTreeSet;

/// Puts the names of a client's operations into a set.
fn put_names(names: &mut BTreeSet<Name>, script: &Script, client: u32) -> Result<(), Memory>
    ensures { OnOk result ((name : List ℕ) → Contains names.new.keys name
        ↔ (Contains names.old.keys name ⊎ spec.IsNameAt script.now client name)) }
{
    let Some(count) = script.ops_of(client) else {
        return Ok(());
    };
    for place in 0..count {
        let Some(op) = script.op(client, place) else {
            unreachable!()
        };
        let name = match op {
            Op::Lock(name, _) => name,
            Op::Unlock(name) => name,
        };
        names.insert(name)?;
    }
    Ok(())
}

/// Returns the names of a set in order.
fn in_order(alloc: Global, names: &BTreeSet<Name>) -> Result<Vec<Name>, Memory>
    ensures list { IfOk result (λ list. list.items ≡ names.now.keys) }
    ensures in_order { IsStrictlySortedBy (slice_cmp nat_cmp) names.now.keys }
{
    let list = names.iter().copied().collect(alloc)?;
    Ok(list)
}

/// Returns the names of a script, each once, in ascending order of their bytes. It costs what sorting them costs.
///
/// # Errors
///
/// `Memory`: there is none for them.
pub fn names_of(alloc: Global, script: &Script) -> Result<Vec<Name>, Memory>
    ensures { IfOk result (λ names. spec.AreNamesOf script.now names.items) }
{
    let mut names = BTreeSet::new(alloc);
    for place in 0..script.clients() {
        put_names(&mut names, script, place + 1)?;
    }
    in_order(alloc, &names)
}

//! Lists of what the slots of a node have, sorted by their names.
ghost use Rattle.std.specs.Prelude.{filter_map, IfOk};
ghost use Rattle.std.specs.Str.{bytes_eq};
ghost use Rattle.std.specs.List.{IsDistinct};
ghost use Rattle.std.specs.List.Sorted.{IsPermutation, IsSorted, IsSortedByKey};
ghost use Rattle.std.specs.Ordering.{nat_cmp};
ghost use Rattle.std.specs.Cmp.Lexicographic.{slice_cmp};
ghost use Rattle.std.specs.HashMap.{keys, values};
ghost use Rattle.ra_node.specs.Resource.{holder_of};

use crate::slot::Slot;
use ra_stamp::{Entry, Memory, Name};
use std::alloc::Global;
use std::collections::HashMap;

/// Returns the names, in ascending order of their bytes.
///
/// # Errors
///
/// `Memory`: memory ran out.
pub fn names_of(alloc: Global, slots: &HashMap<Name, Slot>) -> Result<Vec<Name>, Memory>
    ensures all { IfOk result (λ names. IsPermutation (keys slots.now) names.items) }
    ensures sorted { IfOk result (λ names. IsSorted (slice_cmp nat_cmp) names.items) }
    ensures distinct { IsDistinct bytes_eq (keys slots.now) }
{
    let mut names = Vec::new(alloc);
    names.reserve(slots.len())?;
    for name in slots.keys() {
        names.push(*name)?;
    }
    names.sort_unstable();
    Ok(names)
}

/// Returns the requests that are granted, in ascending order of the bytes of their names.
///
/// # Errors
///
/// `Memory`: memory ran out.
pub fn held_of(alloc: Global, slots: &HashMap<Name, Slot>) -> Result<Vec<Entry>, Memory>
    ensures all { IfOk result (λ held. IsPermutation (filter_map holder_of (values slots.now)) held.items) }
    ensures sorted { IfOk result (λ held. IsSortedByKey (λ entry. entry.name) (slice_cmp nat_cmp) held.items) }
    ensures distinct { IsDistinct bytes_eq (keys slots.now) }
{
    let mut held = Vec::new(alloc);
    for slot in slots.values() {
        if let Some(entry) = slot.holder() {
            held.push(entry)?;
        }
    }
    held.sort_unstable_by_key(|entry| entry.name);
    Ok(held)
}

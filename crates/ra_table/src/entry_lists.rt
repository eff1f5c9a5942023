//! What the lock table asks of its lists of entries, and how an entry is put into one.
ghost use Rattle.std.specs.Prelude.{◌≡◌, ◌<◌, ◌↔◌, ◌++◌, ◌∷◌, [], length, slice_index_or, Any, Contains, IsTrue, IsNone, IfSome, OnOk, OnErr};
ghost use Rattle.ra_stamp.specs.Stamp.{IsEarlier};
ghost use Rattle.ra_table.specs.Table.{Excludes};
ghost use Rattle.ra_table.specs.Refusals.{SharesNodeAndName};

use ra_stamp::{Entry, Memory, conflicts};

/// Returns whether two entries exclude each other: they are on one name, in modes that conflict. It does not allocate.
pub fn excludes(a: &Entry, b: &Entry) -> bool
    ensures { IsTrue result ↔ Excludes a.now b.now }
{
    a.name == b.name && conflicts(a.mode, b.mode)
}

/// Returns whether an entry of the list is of this entry's node, on its name.
pub fn has_node_of(list: &[Entry], entry: &Entry) -> bool
    ensures { IsTrue result ↔ Any (λ x. SharesNodeAndName x entry.now) list.now }
{
    for other in list {
        if other.name == entry.name && other.stamp.node == entry.stamp.node {
            return true;
        }
    }
    false
}

/// Returns whether an entry of the list excludes this entry.
pub fn has_excluding(list: &[Entry], entry: &Entry) -> bool
    ensures { IsTrue result ↔ Any (λ x. Excludes x entry.now) list.now }
{
    for other in list {
        if excludes(other, entry) {
            return true;
        }
    }
    false
}

/// Returns whether an entry of the list excludes this entry and is earlier.
pub fn has_earlier(list: &[Entry], entry: &Entry) -> bool
    ensures { IsTrue result ↔ Any (λ x. Excludes x entry.now × IsEarlier x.stamp entry.now.stamp) list.now }
{
    for other in list {
        if excludes(other, entry) && other.stamp < entry.stamp {
            return true;
        }
    }
    false
}

/// Returns the place of the entry in the list.
pub fn place_of(list: &[Entry], entry: &Entry) -> Option<usize>
    ensures absent { IsNone result ↔ ¬ (Contains list.now entry.now) }
    ensures found { IfSome result (λ place. (place < length list.now)
        × (slice_index_or list.now place entry.now ≡ entry.now)) }
{
    for (place, other) in list.iter().enumerate() {
        if other == entry {
            return Some(place);
        }
    }
    None
}

/// Puts the entry at the end of a list of few, which keeps no room for more: there are as many such lists as names, and
/// most have one entry at most.
///
/// # Errors
///
/// `Memory`: the list is as before.
pub fn push_exactly(list: &mut Vec<Entry>, entry: &Entry) -> Result<(), Memory>
    ensures ok { OnOk result (list.new.items ≡ list.old.items ++ entry.now ∷ []) }
    ensures err { OnErr result (list.new.items ≡ list.old.items) }
{
    list.reserve_exact(1)?;
    list.push_reserved(*entry);
    Ok(())
}

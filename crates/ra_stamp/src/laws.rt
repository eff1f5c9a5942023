//! Laws of the definitions, for the crates above: each function has no code, and its contract is the law.
ghost use Rattle.std.specs.Prelude.{◌≡◌, ◌↔◌, ◌⊎◌, ℕ, List, IsTrue};
ghost use Rattle.ra_stamp.specs.declared.stamp.Stamp.{Stamp};
ghost use Rattle.ra_stamp.specs.declared.mode.Mode.{Mode};
ghost use Rattle.ra_stamp.specs.declared.message.Message.{Message};
ghost use Rattle.ra_stamp.specs.declared.entry.Entry.{Entry};
ghost use Rattle.ra_stamp.specs.declared.entry.Mark.{Mark};
ghost use Rattle.ra_stamp.specs.Mode.{Conflict, conflicts};
ghost use Rattle.ra_stamp.specs.Stamp.{IsEarlier, stamp_cmp};

use crate::{Entry, Mark, Message, Mode, Name, NodeId, Stamp};
use std::cmp::Ordering;

/// Stamps compare by number and then by node, and of two different ones exactly one is earlier.
pub fn stamps_are_totally_ordered()
    ensures compares { (a b : Stamp) → ⟦<Stamp as Ord>⟧.cmp a b ≡ stamp_cmp a b }
    ensures less { (a b : Stamp) → (stamp_cmp a b ≡ Ordering.Less) ↔ IsEarlier a b }
    ensures equal { (a b : Stamp) → (stamp_cmp a b ≡ Ordering.Equal) ↔ (a ≡ b) }
    ensures greater { (a b : Stamp) → (stamp_cmp a b ≡ Ordering.Greater) ↔ IsEarlier b a }
    ensures total { (a b : Stamp) → IsEarlier a b ⊎ ((a ≡ b) ⊎ IsEarlier b a) }
    ensures irreflexive { (a : Stamp) → ¬ (IsEarlier a a) }
    ensures transitive { (a b c : Stamp) → IsEarlier a b → IsEarlier b c → IsEarlier a c }
{}

/// Conflict does not depend on the order of the two modes.
#[tactic(auto, unfolding(crate::specs::Mode::compatible))]
pub fn conflict_is_symmetric()
    ensures test { (a b : Mode) → conflicts a b ≡ conflicts b a }
    ensures fact { (a b : Mode) → Conflict a b → Conflict b a }
{}

/// Values that compare as equal are the same.
pub fn equal_is_same()
    ensures nodes { (a b : ℕ) → IsTrue (⟦<NodeId as PartialEq>⟧.eq a b) ↔ (a ≡ b) }
    ensures names { (a b : List ℕ) → IsTrue (⟦<Name as PartialEq>⟧.eq a b) ↔ (a ≡ b) }
    ensures modes { (a b : Mode) → IsTrue (⟦<Mode as PartialEq>⟧.eq a b) ↔ (a ≡ b) }
    ensures stamps { (a b : Stamp) → IsTrue (⟦<Stamp as PartialEq>⟧.eq a b) ↔ (a ≡ b) }
    ensures messages { (a b : Message) → IsTrue (⟦<Message as PartialEq>⟧.eq a b) ↔ (a ≡ b) }
    ensures entries { (a b : Entry) → IsTrue (⟦<Entry as PartialEq>⟧.eq a b) ↔ (a ≡ b) }
    ensures marks { (a b : Mark) → IsTrue (⟦<Mark as PartialEq>⟧.eq a b) ↔ (a ≡ b) }
{}

//! Which client holds what, as the books tell it. The function does nothing, and its contract is the law.
ghost use Rattle.std.specs.Prelude.{◌≡◌, ◌≢◌, ℕ, List, Some, All, Contains};
ghost use Rattle.ra_stamp.specs.declared.entry.Entry.{Entry};
ghost use Rattle.ra_stamp.specs.Mode.{Conflict};
ghost use Rattle.ra_node.specs.Node.{NodeState, resource_at};
ghost use Rattle.ra_node.specs.Resource.{holder_of};
ghost use Rattle.ra_book.specs.Book.{BookState, LeadsTo, HasHistory};
ghost use Rattle.ra_book.specs.Settled.{IsCluster, BooksFit};

/// If the books of a cluster fit, no two different nodes, as their books leave them, hold a name in modes that
/// conflict.
pub fn fitting_books_never_hold_in_conflict()
    ensures { (books : List BookState) (a b : BookState) (left right : NodeState) (name : List ℕ) (x y : Entry)
        → IsCluster books → All HasHistory books → BooksFit books
        → Contains books a → Contains books b → a.me ≢ b.me → LeadsTo a left → LeadsTo b right
        → holder_of (resource_at left name) ≡ Some x → holder_of (resource_at right name) ≡ Some y
        → ¬ Conflict x.mode y.mode }
{}

//! What is true of every run of the lock table, for the crates above. Each function does nothing, and its contract is
//! the law.
ghost use Rattle.std.specs.Prelude.{◌≡◌, ◌<◌, ◌++◌, ◌∷◌, ◌↔◌, [], ℕ, List, Contains};
ghost use Rattle.ra_stamp.specs.declared.entry.Entry.{Entry};
ghost use Rattle.ra_stamp.specs.declared.entry.Mark.{Mark};
ghost use Rattle.ra_stamp.specs.Stamp.{IsEarlier};
ghost use Rattle.ra_table.specs.Table.{LockTable, empty_table, Excludes, MayRequest, MayEnter, TableStep, TableSteps, TableRun};
ghost use Rattle.ra_table.specs.Laws.{IsConflictFree, AllowsMark, IsAt, WaitsSince, HoldsSince, SameEntries};

use ra_stamp::{Entry, Mark};

/// No two conflicting entries on one name hold at once.
pub fn conflicting_entries_never_hold_at_once()
    ensures { (marks : List Mark) (table : LockTable) → TableRun marks table → IsConflictFree table.holding }
{}

/// Conflicting entries on one name are granted in the order of their stamps.
pub fn grants_come_in_stamp_order()
    ensures { (marks : List Mark) (table : LockTable) (e f : Entry) (i j : ℕ) → TableRun marks table → i < j
        → IsAt marks i (Mark.Entered e) → IsAt marks j (Mark.Entered f) → Excludes e f
        → IsEarlier e.stamp f.stamp }
{}

/// An entry waits from its request until it enters or is withdrawn.
pub fn waiting_entries_were_requested_and_have_not_entered()
    ensures { (marks : List Mark) (table : LockTable) (e : Entry) → TableRun marks table
        → Contains table.waiting e ↔ WaitsSince marks e }
{}

/// An entry holds from its grant, which comes after its request, until it leaves.
pub fn holders_were_requested_and_entered_and_have_not_left()
    ensures { (marks : List Mark) (table : LockTable) (e : Entry) → TableRun marks table
        → Contains table.holding e ↔ HoldsSince marks e }
{}

/// An entry was granted exactly if it entered.
pub fn granted_entries_have_entered()
    ensures { (marks : List Mark) (table : LockTable) (e : Entry) → TableRun marks table
        → Contains table.granted e ↔ ((j : ℕ) × IsAt marks j (Mark.Entered e)) }
{}

/// The marks of a run determine which entries wait, hold and were granted, and how many, except for the order of the
/// lists.
pub fn tables_of_one_run_have_the_same_entries()
    ensures { (marks : List Mark) (a b : LockTable) → TableRun marks a → TableRun marks b → SameEntries a b }
{}

/// A table allows a mark exactly if the request may be made, the entry may be granted, the entry that is to leave
/// holds, or the one that is to be withdrawn waits.
pub fn steps_exist_where_they_are_allowed()
    ensures request { (table : LockTable) (e : Entry)
        → AllowsMark table (Mark.Requested e) ↔ MayRequest table e }
    ensures enter { (table : LockTable) (e : Entry)
        → AllowsMark table (Mark.Entered e) ↔ MayEnter table e }
    ensures leave { (table : LockTable) (e : Entry)
        → AllowsMark table (Mark.Left e) ↔ Contains table.holding e }
    ensures withdraw { (table : LockTable) (e : Entry)
        → AllowsMark table (Mark.Withdrawn e) ↔ Contains table.waiting e }
{}

/// Runs start at the empty table and continue step by step, and they can be joined and split.
pub fn runs_go_on_by_steps()
    ensures empty { TableRun [] empty_table }
    ensures step { (marks : List Mark) (mark : Mark) (table next : LockTable) → TableRun marks table
        → TableStep table mark next → TableRun (marks ++ mark ∷ []) next }
    ensures joins { (prefix rest : List Mark) (a b c : LockTable) → TableSteps a prefix b → TableSteps b rest c
        → TableSteps a (prefix ++ rest) c }
    ensures splits { (prefix rest : List Mark) (a c : LockTable) → TableSteps a (prefix ++ rest) c
        → (b : LockTable) × TableSteps a prefix b × TableSteps b rest c }
    // A run goes on with a mark exactly if the table at its end allows it.
    ensures next { (marks : List Mark) (mark : Mark) (table : LockTable) → TableRun marks table
        → AllowsMark table mark ↔ ((next : LockTable) × TableRun (marks ++ mark ∷ []) next) }
{}

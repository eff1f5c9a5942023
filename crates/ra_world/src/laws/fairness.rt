//! Which requests overtake a waiting one. Each function does nothing, and its contract is the law.
ghost use Rattle.std.specs.Prelude.{ℕ, ◌++◌, List, Contains};
ghost use Rattle.ra_stamp.specs.declared.entry.Entry.{Entry};
ghost use Rattle.ra_stamp.specs.NodeId.{IsNodeNumber};
ghost use Rattle.ra_table.specs.Table.{LockTable, TableRun};
ghost use Rattle.ra_world.specs.Traffic.{Move};
ghost use Rattle.ra_world.specs.Run.{IsRun, marks_of};
ghost use Rattle.ra_world.specs.Fairness.{NoneIsMissing, Overtakes, IsFair};

use ra_stamp::Entry;

/// At most one request of each other node goes first, once a waiting request is known there: after the REQUEST of an
/// entry that waits has arrived at another node, at most one request of that node overtakes it, and that one waits
/// already. Clients may take names in any order and give up, nodes may forget names, and messages may be lost or
/// repeated.
pub fn each_other_node_overtakes_at_most_once()
    ensures { (n start : ℕ) (moves : List Move) → IsNodeNumber n → IsRun n start moves → IsFair n moves }
{}

/// One request may overtake: in a run of two nodes, an entry waits, none of its REQUESTs is under way or was lost,
/// and then another entry that excludes it enters before it.
pub fn one_request_may_overtake()
    ensures { (before : List Move) × (later : List Move) × (table : LockTable) × (e : Entry) × (f : Entry)
        × IsRun 2 0 (before ++ later) × TableRun (marks_of before) table × Contains table.waiting e
        × NoneIsMissing before e × Overtakes (marks_of later) 0 f e }
{}

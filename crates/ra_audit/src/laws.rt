//! What is true of grants that were matched with the marks of a run. The function does nothing, and its contract is the
//! law.
ghost use Rattle.std.specs.Prelude.{ℕ, List};
ghost use Rattle.ra_stamp.specs.NodeId.{IsNodeNumber};
ghost use Rattle.ra_book.specs.declared.book.grant.Grant.{Grant};
ghost use Rattle.ra_world.specs.Traffic.{Move};
ghost use Rattle.ra_world.specs.Run.{IsRun, marks_of};
ghost use Rattle.ra_audit.specs.Matching.{AreAllMatched, AreGrantedOnce};

/// Each grant that is matched with a mark of a run was granted in the run, and no two such grants are equal.
pub fn matched_grants_were_granted_once()
    ensures { (nodes start : ℕ) (moves : List Move) (grants : List Grant) → IsNodeNumber nodes → IsRun nodes start moves
        → AreAllMatched (marks_of moves) grants → AreGrantedOnce (marks_of moves) grants }
{}

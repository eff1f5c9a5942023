//! Which requests overtake a waiting one in a settled run. The function does nothing, and its contract is the law.
ghost use Rattle.std.specs.Prelude.{List, All, length};
ghost use Rattle.ra_world.specs.Fairness.{IsFair};
ghost use Rattle.ra_world.specs.Traffic.{Move};
ghost use Rattle.ra_book.specs.Book.{BookState, HasHistory};
ghost use Rattle.ra_book.specs.Repeats.{IsSettledRunWithCopies};
ghost use Rattle.ra_book.specs.Settled.{IsCluster, IsSettledRun};

use ra_world::each_other_node_overtakes_at_most_once;

/// What the books say is fair: in a settled run, with copies or without, each other node overtakes a waiting request at
/// most once after its REQUEST has arrived there.
pub fn settled_runs_are_fair()
    ensures settled { (books : List BookState) (moves : List Move) → IsCluster books → All HasHistory books
        → IsSettledRun books moves → IsFair (length books) moves }
    ensures with_copies { (books : List BookState) (moves : List Move) → IsCluster books → All HasHistory books
        → IsSettledRunWithCopies books moves → IsFair (length books) moves }
{
    // For the proof: each run is fair.
    each_other_node_overtakes_at_most_once();
}

//! Books that fit pair by pair. Each function does nothing, and its contract is the law.
ghost use Rattle.std.specs.Prelude.{◌↔◌, List, All, length};
ghost use Rattle.ra_stamp.specs.declared.message.Message.{Message};
ghost use Rattle.ra_world.specs.declared.text.report.Report.{Report};
ghost use Rattle.ra_world.specs.Traffic.{Move, IsUnderWay};
ghost use Rattle.ra_world.specs.MainTheorem.{IsQuietReport};
ghost use Rattle.ra_world.specs.Quiet.{IsQuiet};
ghost use Rattle.ra_world.specs.World.{Reports};
ghost use Rattle.ra_book.specs.Book.{BookState, HasHistory};
ghost use Rattle.ra_book.specs.Pairs.{PairsFit, HasNotCome, AllHasCome};
ghost use Rattle.ra_book.specs.Settled.{IsCluster, IsSettledRun, BooksFit, start_of};

/// The books of a cluster fit if their pairs fit: of each two nodes, what came at one from the other is the first of
/// what the other sent to it, in order, and no frame is flagged lost. So their events are one run of the cluster.
pub fn paired_books_fit()
    ensures fit { (books : List BookState) → IsCluster books → All HasHistory books → PairsFit books
        → BooksFit books }
    ensures run { (books : List BookState) → IsCluster books → All HasHistory books → PairsFit books
        → (moves : List Move) × IsSettledRun books moves }
{}

/// After a settled run of books whose pairs fit, a message is under way exactly if a node sent it to another one and it
/// has not come there. So if all that was sent has come, the run is quiet at its end: nothing was lost, and nothing is
/// under way. Each report of it says so.
pub fn what_has_not_come_is_under_way()
    ensures under_way { (books : List BookState) (moves : List Move) (message : Message) → IsCluster books
        → All HasHistory books → PairsFit books → IsSettledRun books moves
        → IsUnderWay moves message ↔ HasNotCome books message }
    ensures quiet { (books : List BookState) (moves : List Move) → IsCluster books → All HasHistory books
        → PairsFit books → IsSettledRun books moves → AllHasCome books → IsQuiet moves }
    ensures report { (books : List BookState) (moves : List Move) (report : Report) → IsCluster books
        → All HasHistory books → PairsFit books → IsSettledRun books moves → AllHasCome books
        → Reports (length books) (start_of books) moves report → IsQuietReport report }
{}

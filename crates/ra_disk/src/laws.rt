//! What holds of the file of a book, over every list of what happens to it. Each function does nothing, and its
//! contract is the law. It rests on the premise that a crash leaves what was synced, and of the rest some front.
ghost use Rattle.std.specs.Prelude.{◌≡◌, ◌≤◌, ◌++◌, ◌∷◌, ℕ, List, length};
ghost use Rattle.ra_disk.specs.Lines.{lines, whole, IsWhole, IsPrefixOf, AreAmong, AreFirst};
ghost use Rattle.ra_disk.specs.Contents.{Contents, MayLeave, seen, on_disk};
ghost use Rattle.ra_disk.specs.Book.{Event, after, file_of, given, opens, steps, AreOfOpen, AreOfClosed};
ghost use Rattle.ra_disk.specs.Book.State.{Open, Closed};
ghost use Rattle.ra_disk.specs.Book.Event.{Opens, Syncs, Crashes};

/// The premise: a crash leaves a front of what was written, which has all that is on the disk, and may leave each such
/// front.
pub fn a_crash_leaves_a_front()
    ensures only { (file : Contents) (bytes : List ℕ) → MayLeave file bytes
        → IsPrefixOf (on_disk file) bytes × IsPrefixOf bytes file.written }
    ensures each { (file : Contents) (bytes : List ℕ) → file.kept ≤ length file.written
        → IsPrefixOf (on_disk file) bytes → IsPrefixOf bytes file.written → MayLeave file bytes }
{}

/// What a call of a book makes happen goes on from what happened before. So these laws hold for every book, as long as
/// one process has it. It is a premise that the next process reads something that a crash may leave.
pub fn a_book_goes_on_from_its_past()
    ensures { (earlier later : List Event) → steps later (after earlier) ≡ after (later ++ earlier) }
{}

/// What is on the disk stays the front of the file, whatever happens. After a sync all that the open file holds is on
/// the disk.
pub fn what_was_synced_stays()
    ensures stays { (earlier later : List Event)
        → IsPrefixOf (on_disk (file_of (after earlier))) (seen (file_of (after (later ++ earlier)))) }
    ensures all { (events : List Event) (file : Contents) → after events ≡ Open file
        → on_disk (file_of (after (Syncs ∷ events))) ≡ seen file }
{}

/// An open book is whole lines, and each of them was given to it: these are the lines given, in order, without some
/// that a crash took.
pub fn a_book_is_lines_that_were_given()
    ensures whole { (events : List Event) (file : Contents) → after events ≡ Open file → IsWhole (seen file) }
    ensures given { (events : List Event) (file : Contents) → after events ≡ Open file
        → AreAmong (lines (seen file)) (given events) }
{}

/// An open book keeps what it is given: after more lines and syncs, its lines are those from before and these, in
/// order.
pub fn an_open_book_keeps_what_it_is_given()
    ensures { (events later : List Event) (before : Contents) → after events ≡ Open before → AreOfOpen later
        → (now : Contents) × (after (later ++ events) ≡ Open now)
        × (lines (seen now) ≡ lines (seen before) ++ given later) }
{}

/// A book that comes back has the first ones of the lines that it had before the crash, with all of them that were on
/// the disk, however often an opening of it failed or crashed meanwhile.
pub fn a_comeback_finds_the_first_lines()
    ensures { (events later : List Event) (size : ℕ) (before now : Contents)
        → after events ≡ Open before → AreOfClosed later
        → after (Opens ∷ later ++ Crashes size ∷ events) ≡ Open now
        → AreFirst (lines (on_disk before)) (lines (seen now)) × AreFirst (lines (seen now)) (lines (seen before)) }
{}

/// An opening leaves out nothing but a torn last line, and what it leaves is on the disk. It depends only on what is
/// read, so nobody has to know what was on the disk before.
pub fn an_opening_keeps_whole_lines()
    ensures alone { (one other : Contents) → seen one ≡ seen other → opens one ≡ opens other }
    ensures whole { (events : List Event) (file : Contents) → after events ≡ Closed file
        → let next = file_of (after (Opens ∷ events)) in
        (seen next ≡ whole (seen file)) × (on_disk next ≡ whole (seen file)) }
{}

pub mod came_frames;
pub mod gathering;
pub mod read_books;
pub mod recording;
pub mod searching;
pub mod settle_error;

ghost use Rattle.std.specs.Prelude.{◌≡◌, ◌⊎◌, ◌↔◌, ℕ, List, All, IfErr, IfOk, IsErrOf, IsOkUnless, MatchResult, OnOk};
ghost use Rattle.ra_book.specs.Settled.{IsCluster};
ghost use Rattle.ra_book_text.specs.Texts.{IsRead};
ghost use Rattle.ra_book_text.specs.Gathering.{AreSentInCluster, HasAllCome, HasGathered, IsGathered, IsMadeOf, IsRefusedBy, IsUnfit, books_of};
ghost use Rattle.ra_book_text.specs.Verdicts.{HasFittingBooks, IsMissing, IsRunBy, IsSettledBy, IsSettledText, IsUnsettled, IsWrong};
ghost use Rattle.ra_book_text.specs.declared.text_settling.settle_error.TextCause.{TextCause};

use crate::laws::text_verdicts::each_text_of_books_has_one_verdict;
use crate::text_settling::came_frames::Came;
use crate::text_settling::gathering::Gathered;
use crate::text_settling::read_books::read_books;
use crate::text_settling::searching::{first_again, first_unsent};
use crate::{SettleTextError, TextCause};
use ra_book::{Book, SettleError, Settled, is_cluster, settle, settle_with_copies};
use std::alloc::Global;

/// The one run that the books of a text settle into.
#[derive(Drop)]
pub struct SettledText {
    /// How many nodes there are.
    pub nodes: u16,
    /// The number with which each resource begins.
    pub start: u64,
    /// The steps of the run, and its report.
    pub settled: Settled,
}

/// Settles the books of a cluster, with copies if messages may come again.
///
/// # Errors
///
/// `NotSent`; `Twice`, if no message may; `Memory`.
fn settle_by(alloc: Global, books: &[Book], repeats: bool) -> Result<Settled, SettleError>
    requires cluster { IsCluster books.now }
    requires each { All IsRead books.now }
    ensures { MatchResult result (IsRunBy repeats books.now) (IsRefusedBy repeats books.now) }
{
    if repeats {
        settle_with_copies(alloc, books)
    } else {
        settle(alloc, books, &[])
    }
}

/// Settles the books of a cluster, with what came to them in the order of the text.
///
/// # Errors
///
/// `Invalid` with `NotSent` or `Twice`, at the first such line. `Memory`, but not if a frame came that was not sent.
fn settle_ordered(
    alloc: Global,
    books: &[Book],
    came: &[Came],
    repeats: bool,
) -> Result<SettledText, SettleTextError>
    requires cluster { IsCluster books.now }
    requires each { All IsRead books.now }
    requires came { HasAllCome books.now came.now }
    ensures { MatchResult result (IsSettledBy repeats books.now) (IsUnfit repeats books.now came.now) }
{
    match settle_by(alloc, books, repeats) {
        Ok(settled) => {
            let first = &books[0];
            Ok(SettledText {
                nodes: first.nodes(),
                start: first.start(),
                settled,
            })
        }
        Err(SettleError::NotSent) => match first_unsent(books, came) {
            Some(line) => Err(SettleTextError::Invalid {
                line,
                cause: TextCause::NotSent,
            }),
            // It never comes to this, as all that came is in `came`.
            None => Err(SettleTextError::Memory),
        },
        Err(SettleError::Twice) => match first_again(alloc, came) {
            Ok(Some(line)) => Err(SettleTextError::Invalid {
                line,
                cause: TextCause::Twice,
            }),
            // It never comes to `Ok(None)`, as all that came is in `came`.
            Ok(None) | Err(_) => Err(SettleTextError::Memory),
        },
        Err(_) => Err(SettleTextError::Memory),
    }
}

/// Settles the books that were gathered from a text, with what came to them. The line after the last one would have
/// this number. It puts the books in the order of their nodes, which takes no memory. They are borrowed, so that each
/// is dropped in one place only.
///
/// # Errors
///
/// Those of `settle_gathered`.
fn settle_books(
    alloc: Global,
    books: &mut Vec<Book>,
    came: &[Came],
    next: u64,
    repeats: bool,
) -> Result<SettledText, SettleTextError>
    requires { (gathered : Gathered) × IsMadeOf gathered books.old.items came.now
        × ((lines : List (List ℕ)) × IsGathered lines gathered) }
    ensures verdict { (text : List ℕ) (gathered : Gathered) → IsMadeOf gathered books.old.items came.now
        → HasGathered text gathered next → MatchResult result (IsSettledText repeats text) (IsUnsettled repeats text) }
    ensures missing { IsErrOf result (SettleTextError.Invalid next TextCause.Books) ↔ IsMissing books.old.items }
    ensures memory { IsErrOf result SettleTextError.Memory → AreSentInCluster books.old.items }
{
    books.sort_unstable_by_key(
        |book| -> u16
            ensures { result ≡ book.now.me }
        { book.me().get() },
    );
    let ordered = books.as_slice();
    if !is_cluster(ordered) {
        return Err(SettleTextError::Invalid {
            line: next,
            cause: TextCause::Books,
        });
    }
    settle_ordered(alloc, ordered, came, repeats)
}

/// Settles the books that were gathered from a text. The line after the last one would have this number.
///
/// # Errors
///
/// The first that holds:
///
/// 1. `Invalid` with `Books` at this line: the book of a node is missing.
/// 2. Those of `settle_ordered`. So `Memory` comes only if no book is missing and each frame that came was sent.
fn settle_gathered(
    alloc: Global,
    gathered: Gathered,
    next: u64,
    repeats: bool,
) -> Result<SettledText, SettleTextError>
    requires { (lines : List (List ℕ)) × IsGathered lines gathered }
    ensures verdict { (text : List ℕ) → HasGathered text gathered next
        → MatchResult result (IsSettledText repeats text) (IsUnsettled repeats text) }
    ensures missing { IsErrOf result (SettleTextError.Invalid next TextCause.Books) ↔ IsMissing (books_of gathered) }
    ensures memory { IsErrOf result SettleTextError.Memory → AreSentInCluster (books_of gathered) }
{
    let Gathered {
        earlier,
        last,
        version: _,
        came,
    } = gathered;
    let mut books = earlier;
    books.push_reserved(last);
    settle_books(alloc, &mut books, came.as_slice(), next, repeats)
}

/// Reads the books of all nodes, and settles them.
///
/// # Errors
///
/// Those of [`settle_text`].
fn settle_lines(alloc: Global, text: &[u8], repeats: bool) -> Result<SettledText, SettleTextError>
    ensures { MatchResult result (IsSettledText repeats text.now) (IsUnsettled repeats text.now) }
{
    let (gathered, next) = read_books(alloc, text)?;
    settle_gathered(alloc, gathered, next, repeats)
}

/// Reads the books of all nodes, one after the other in one text, and settles them into one run. Each begins with its
/// first line, and they may be in any order of the nodes. A last line without a line feed is passed over. With
/// `repeats` a message may come more than once: a frame that comes n times is repeated n - 1 times in the run, as
/// [`settle_with_copies`] says.
///
/// It keeps the books, and the frames that came with the numbers of their lines, so that memory is linear in the text.
/// With n lines it costs what the events cost at their nodes, and what [`settle`] costs, which is n log n at most. If
/// memory for an index is lacking, to look for `Twice` takes quadratic time.
///
/// # Errors
///
/// The first that holds:
///
/// 1. `Invalid` with `Line`, `Books` or `Refused`, at the first wrong line. Without a line it is `Line` at line 1.
/// 2. `Invalid` with `Books`, at the number of lines plus 1: the book of a node is missing.
/// 3. `Invalid` with `NotSent`, at the first line that brings a frame that is not among those that its sender's book
///    sent with its clock.
/// 4. `Invalid` with `Twice`, without `repeats`, at the first line that brings a message that an earlier line brought.
/// 5. `Memory`: it ran out at a line that is right, and no line after it was looked at; or it ran out after all lines,
///    and then no book is missing and each frame that came was sent.
pub fn settle_text(
    alloc: Global,
    text: &[u8],
    repeats: bool,
) -> Result<SettledText, SettleTextError>
    // The books are a cluster's, and this is their one run, with the main theorem. Without `repeats` they fit together.
    ensures settled { IfOk result (IsSettledText repeats text.now) }
    // A refusal comes only for its cause, at its line.
    ensures refused { IfErr result (IsUnsettled repeats text.now) }
    // It is Ok exactly if the books fit, and if a cause holds, its refusal comes, except that `Memory` may come
    // instead.
    ensures fit { OnOk result (HasFittingBooks repeats text.now) }
    ensures settles { HasFittingBooks repeats text.now → IsOkUnless result SettleTextError.Memory }
    ensures found { (line : ℕ) (cause : TextCause) → IsWrong repeats text.now line cause
        → IsErrOf result (SettleTextError.Invalid line cause) ⊎ IsErrOf result SettleTextError.Memory }
{
    // For the proof: no text both settles and is wrong, or is wrong in two ways.
    each_text_of_books_has_one_verdict();
    settle_lines(alloc, text, repeats)
}

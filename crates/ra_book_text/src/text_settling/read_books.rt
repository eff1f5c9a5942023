//! A text of books that is read line by line.
ghost use Rattle.std.specs.Prelude.{◌≡◌, ◌∷◌, [], ℕ, true, List, MatchResult};
ghost use Rattle.ra_book_text.specs.Texts.{Begins};
ghost use Rattle.ra_book_text.specs.Gathering.{HasGathered, IsGathered};
ghost use Rattle.ra_book_text.specs.Verdicts.{IsUnsettled, IsWrong};
ghost use Rattle.ra_book_text.specs.declared.text_settling.settle_error.TextCause.{TextCause};
ghost use Rattle.ra_book_text.specs.declared.text_settling.gathering.LineFault.{LineFault};

use crate::text_settling::came_frames::CameList;
use crate::text_settling::gathering::{Gathered, LineFault};
use crate::{FirstLine, SettleTextError, TextCause};
use ra_book::Book;
use ra_text::cut;
use std::alloc::Global;

/// The text does not begin with the first line of a book.
const NO_FIRST_LINE: SettleTextError = SettleTextError::Invalid {
    line: 1,
    cause: TextCause::Line,
};

/// Returns why reading ends at the line of this number.
fn fault_at(number: u64, fault: LineFault) -> SettleTextError
    ensures { (text : List ℕ) → ((why : TextCause) → fault ≡ LineFault.Wrong why → IsWrong true text number why)
        → IsUnsettled true text result }
{
    match fault {
        LineFault::Wrong(cause) => SettleTextError::Invalid {
            line: number,
            cause,
        },
        LineFault::Memory => SettleTextError::Memory,
    }
}

/// Reads the lines after the first one, and returns the number that the line after the last one would have.
///
/// # Errors
///
/// `Invalid` at the first wrong line, with `Line`, `Books` or `Refused`. `Memory`.
fn read_lines(alloc: Global, gathered: &mut Gathered, text: &[u8]) -> Result<u64, SettleTextError>
    ensures { (whole first : List ℕ) → Begins whole (first ∷ []) text.now → IsGathered (first ∷ []) gathered.old
        → MatchResult result (HasGathered whole gathered.new) (IsUnsettled true whole) }
{
    let mut rest = text;
    for turn in 0..text.len() {
        let (line, after) = cut(rest, b'\n');
        let number = turn as u64 + 2;
        let Some(after) = after else {
            return Ok(number);
        };
        match gathered.take_line(alloc, number, line) {
            Ok(()) => {}
            Err(fault) => return Err(fault_at(number, fault)),
        }
        rest = after;
    }
    // Nothing is left: each line took a byte or more.
    Ok(text.len() as u64 + 2)
}

/// Reads a text of books. Returns what was gathered, and the number that the line after the last one would have. A last
/// line without a line feed is passed over. It costs what the events cost at their nodes, and linear time in the text.
///
/// # Errors
///
/// The first that holds:
///
/// 1. `Invalid` at line 1 with `Line`: no line begins the text.
/// 2. `Invalid` at the first wrong line, with `Line`, `Books` or `Refused`.
/// 3. `Memory`, which may come before it.
pub fn read_books(alloc: Global, text: &[u8]) -> Result<(Gathered, u64), SettleTextError>
    ensures { MatchResult result (λ read. HasGathered text.now read.0 read.1) (IsUnsettled true text.now) }
{
    let (line, after) = cut(text, b'\n');
    let Some(rest) = after else {
        return Err(NO_FIRST_LINE);
    };
    let Some(first) = FirstLine::parse(line) else {
        return Err(NO_FIRST_LINE);
    };
    let earlier = Vec::with_capacity(alloc, 1)?;
    let last = Book::of(alloc, first.member, first.start);
    let mut gathered = Gathered {
        earlier,
        last,
        version: first.version,
        came: CameList::new(alloc),
    };
    let next = read_lines(alloc, &mut gathered, rest)?;
    Ok((gathered, next))
}

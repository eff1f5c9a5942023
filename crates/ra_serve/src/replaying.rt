//! The events of a book, as they are read.
ghost use Rattle.std.specs.Prelude.{◌≡◌, ◌⊎◌, [], List, None, IfErr, IfOk, MatchOption, MatchResult};
ghost use Rattle.ra_trace.specs.Forms.{cut};
ghost use Rattle.ra_book.specs.declared.book.event.BookKind.{BookKind};
ghost use Rattle.ra_book.specs.Book.{BookState};
ghost use Rattle.ra_host.specs.Running.{HasTaken};
ghost use Rattle.ra_host_text.specs.declared.fatal.Fatal.TheVariants as fatal;
ghost use Rattle.ra_serve.specs.Events.{AreEvents, BeginsWith, BeginsWrong, HasMore};

use crate::Settings;
use ra_book::BookKind;
use ra_book_text::event_of;
use ra_host::TakenCounts;
use ra_host_text::Fatal;
use ra_trace::split_once;
use std::alloc::Global;

/// Reads the first event of a text of whole lines, and returns it with the length of its line, or `None` if there is
/// none.
///
/// # Errors
///
/// `Book`: the line is no event.
fn next_event(text: &[u8]) -> Result<Option<(BookKind, usize)>, Fatal>
    ensures { MatchResult result
        (λ found. MatchOption found (cut 10 text.now ≡ None) (λ event. BeginsWith text.now event.0 event.1))
        (λ why. (why ≡ fatal.Book) × BeginsWrong text.now) }
{
    let Some((line, _)) = split_once(text, b'\n') else {
        return Ok(None);
    };
    match event_of(line) {
        Ok(kind) => Ok(Some((kind, line.len() + 1))),
        Err(_) => Err(Fatal::Book),
    }
}

/// Counts the frames of each host in the events of a book.
///
/// # Errors
///
/// `Book`: a line is no event, or there are too many frames. `Memory`: there is no room for the counts.
pub fn count_taken(alloc: Global, settings: &Settings, events: &[u8]) -> Result<TakenCounts, Fatal>
    ensures ok { IfOk result (λ counts. (kinds : List BookKind) × AreEvents events.now kinds
        × ((old book : BookState) → old.nodes ≡ settings.now.member.nodes → old.events ≡ [] → HasMore old kinds book
        → HasTaken book counts.counts.items)) }
    ensures err { IfErr result (λ why. (why ≡ fatal.Book) ⊎ (why ≡ fatal.Memory)) }
{
    let mut counts = match TakenCounts::new(alloc, settings.member.nodes()) {
        Ok(counts) => counts,
        Err(_) => return Err(Fatal::Memory),
    };
    let mut place = 0;
    for _turn in 0..events.len() {
        match next_event(&events[place..]) {
            Ok(Some((kind, len))) => {
                if counts.add(&kind).is_err() {
                    return Err(Fatal::Book);
                }
                place += len;
            }
            Ok(None) => return Ok(counts),
            Err(why) => return Err(why),
        }
    }
    Ok(counts)
}

//! What the tests of books share: the steps that a book does or shows, one after another. A trace cannot tell them:
//! bytes come that no node sent, calls are refused, and clocks and frames are compared.
use crate::kept_books::history_asserting::{assert_same, fail_at};
use crate::kept_books::history_values::bytes_of;
use Call::{Ask, Cancel, Forget, Leave, Receive};
use Step::{
    Fails, Has, HasAsk, HasFault, HasLeave, HasReceive, IsFree, IsHeld, IsNew, Loses, Posts,
    Refuses, RefusesToLose, Takes, WasSent,
};
use Wire::{Asks, Replies};
use ra_book::{Book, BookError, BookEvent, BookKind, Frames, MarkLostError, Posted, Sent, Stop};
use ra_frame::Frame;
use ra_stamp::{Entry, Mark, Marks, Mode};
use std::alloc::Global;
use std::process::Abort;
use test_support::{At, r, reply, request, writer};

/// A REQUEST with number 1 from node 1 to node 2 for `r`, exclusively, at clock 1.
pub const ASKS: [u8; 25] = [
    2, 1, 0, 1, 0, 2, 1, 0, 0, 0, 0, 0, 0, 0, 1, 0, 0, 0, 0, 0, 0, 0, 1, 1, b'r',
];

/// The same in version 1.
pub const ASKS_1: [u8; 23] = [
    1, 1, 1, 2, 1, 0, 0, 0, 0, 0, 0, 0, 1, 0, 0, 0, 0, 0, 0, 0, 1, 1, b'r',
];

/// The REPLY to it, at clock 2.
pub const REPLIES: [u8; 25] = [
    2, 2, 0, 2, 0, 1, 0, 0, 0, 0, 0, 0, 0, 0, 1, 0, 0, 0, 0, 0, 0, 0, 2, 1, b'r',
];

/// The same in version 1.
pub const REPLIES_1: [u8; 23] = [
    1, 2, 2, 1, 0, 0, 0, 0, 0, 0, 0, 0, 1, 0, 0, 0, 0, 0, 0, 0, 2, 1, b'r',
];

/// A call of a book, which always asks for, leaves or gives up `r`.
#[derive(Clone, Copy)]
pub enum Call<'a> {
    /// This client asks for it.
    Ask(u32, Mode),
    /// This client leaves it.
    Leave(u32),
    /// This client gives it up.
    Cancel(u32),
    /// The node forgets names.
    Forget,
    /// These bytes arrive.
    Receive(&'a [u8]),
}

/// Client 1 asks for `r`, exclusively.
pub const ASK: Call<'static> = Ask(1, Mode::Exclusive);

/// Client 1 leaves `r`.
pub const LEAVE: Call<'static> = Leave(1);

/// A message.
#[derive(Clone, Copy)]
pub enum Wire {
    /// The frame of [`ASKS`].
    Asks,
    /// The frame of [`REPLIES`].
    Replies,
}

/// What happens to client 1's request.
#[derive(Clone, Copy)]
pub enum Turn {
    /// It is made.
    Requested,
    /// The client enters with it.
    Entered,
    /// The client leaves.
    Left,
}

/// What a book does or shows.
#[derive(Clone, Copy)]
pub enum Step<'a> {
    /// It takes the call, whatever the answer is.
    Takes(Call<'a>),
    /// It takes the call, which sends exactly one frame with this text, or none, and has exactly this mark, or none.
    Posts(Call<'a>, Option<&'a [u8; 25]>, Option<Turn>),
    /// It refuses the call, for this reason.
    Refuses(Call<'a>, BookError),
    /// It gets this fault.
    Fails(Stop),
    /// It has this fault.
    HasFault(Stop),
    /// It flags the REQUEST of [`ASKS`] at this clock as lost.
    Loses(u64),
    /// It refuses to do so, for this reason.
    RefusesToLose(u64, MarkLostError),
    /// It has this many events and sent frames, and this clock.
    Has {
        events: u64,
        sent: u64,
        clock: u64,
    },
    /// It sent the message at this place and clock, with this flag.
    WasSent {
        place: u64,
        clock: u64,
        message: Wire,
        lost: bool,
    },
    /// Client 1 asked for `r`, exclusively, at this place and clock.
    HasAsk {
        place: u64,
        clock: u64,
    },
    /// Client 1 left `r` at this place and clock.
    HasLeave {
        place: u64,
        clock: u64,
    },
    /// The message arrived at this place and clock, in a frame with the clock `sent_at`.
    HasReceive {
        place: u64,
        clock: u64,
        sent_at: u64,
        message: Wire,
    },
    /// Nobody holds `r`.
    IsFree,
    /// Client 1 holds it.
    IsHeld,
    /// It is the book of node 2 of 3 that begins at 7, and nothing has happened in it.
    IsNew,
}

/// Returns client 1's request.
fn entry() -> Entry {
    writer(1, 1, 1)
}

/// Returns the message in a frame with this clock.
pub fn frame(clock: u64, wire: Wire) -> Frame {
    let message = match wire {
        Wire::Asks => request(1, 2, 1),
        Wire::Replies => reply(2, 1, 1),
    };
    Frame { clock, message }
}

/// Makes a call of a book.
fn make(alloc: Global, book: &mut Book, call: Call<'_>) -> Result<Posted, BookError> {
    match call {
        Ask(client, mode) => book.ask(alloc, client, r(), mode),
        Leave(client) => book.leave(alloc, client, r()),
        Cancel(client) => book.cancel(alloc, client, r()),
        Forget => forget(alloc, book),
        Receive(bytes) => book.receive(alloc, bytes),
    }
}

/// Has a book forget names, which posts nothing.
fn forget(alloc: Global, book: &mut Book) -> Result<Posted, BookError> {
    book.forget(alloc)?;
    Ok(Posted {
        frames: Frames::new(alloc),
        marks: Marks::new(alloc),
    })
}

/// Makes a call of a book. Returns why it is refused, or `None` if it is taken.
pub fn refusal(alloc: Global, book: &mut Book, call: Call<'_>) -> Option<BookError> {
    match make(alloc, book, call) {
        Ok(_) => None,
        Err(fault) => Some(fault),
    }
}

/// Makes a call of a book, which takes it, or refuses it for this reason. Returns whether there was memory for it.
pub fn takes(
    rt: &impl Abort,
    alloc: Global,
    at: At<'_>,
    book: &mut Book,
    call: Call<'_>,
    expected: Option<BookError>,
) -> bool {
    let came = refusal(alloc, book, call);
    let has_memory = came != Some(BookError::Memory);
    if has_memory {
        assert_same(rt, at, &came, &expected);
    }
    has_memory
}

/// Asserts that a frame fits and has this text.
fn assert_text(rt: &impl Abort, alloc: Global, at: At<'_>, frame: &Frame, text: &[u8]) {
    match bytes_of(alloc, frame) {
        Some(bytes) => assert_same(rt, at, &bytes.as_slice(), &text),
        None => fail_at(rt, at, "the frame does not fit"),
    }
}

/// Asserts that exactly one frame with this text is sent, or no frame if the text is `None`.
fn assert_sent(
    rt: &impl Abort,
    alloc: Global,
    at: At<'_>,
    frames: &[Frame],
    text: Option<&[u8; 25]>,
) {
    assert_same(rt, at, &frames.len(), &usize::from(text.is_some()));
    if let (Some(frame), Some(text)) = (frames.first(), text) {
        assert_text(rt, alloc, at, frame, text.as_slice());
    }
}

/// Returns the mark for what happens to client 1's request.
fn mark(turn: Turn) -> Mark {
    let entry = entry();
    match turn {
        Turn::Requested => Mark::Requested(entry),
        Turn::Entered => Mark::Entered(entry),
        Turn::Left => Mark::Left(entry),
    }
}

/// Asserts that there is exactly the mark for this turn, or no mark if the turn is `None`.
fn assert_marked(rt: &impl Abort, at: At<'_>, marks: &[Mark], turn: Option<Turn>) {
    assert_same(rt, at, &marks.len(), &usize::from(turn.is_some()));
    if let (Some(came), Some(turn)) = (marks.first(), turn) {
        assert_same(rt, at, came, &mark(turn));
    }
}

/// Makes a call of a book, which takes it, with just this frame and this mark. Returns whether there was memory for it.
fn posts(
    rt: &impl Abort,
    alloc: Global,
    at: At<'_>,
    book: &mut Book,
    call: Call<'_>,
    text: Option<&[u8; 25]>,
    turn: Option<Turn>,
) -> bool {
    match make(alloc, book, call) {
        Ok(posted) => {
            assert_sent(rt, alloc, at, posted.frames.as_slice(), text);
            assert_marked(rt, at, posted.marks.as_slice(), turn);
            true
        }
        Err(BookError::Memory) => false,
        Err(fault) => {
            assert_same(rt, at, &Some(fault), &None);
            true
        }
    }
}

/// Flags the REQUEST of [`ASKS`] at this clock as lost. Returns why that is refused, or `None` if it is not.
fn mark_lost(book: &mut Book, clock: u64) -> Option<MarkLostError> {
    book.mark_lost(&frame(clock, Asks)).err()
}

/// Returns how many events and sent frames a book has, and its clock.
pub fn counts_of(book: &Book) -> (u64, u64, u64) {
    (book.events().len(), book.sent_len(), book.clock())
}

/// Asserts that this event is at this place.
fn assert_event(rt: &impl Abort, at: At<'_>, book: &Book, place: u64, clock: u64, kind: BookKind) {
    let expected = Some(BookEvent { clock, kind });
    assert_same(rt, at, &book.events().at(place), &expected);
}

/// Asserts that it is the book of node 2 of 3 that begins at 7, and that nothing has happened in it.
fn assert_new(rt: &impl Abort, at: At<'_>, book: &Book) {
    let is_of = (book.me().get(), book.nodes(), book.start());
    assert_same(rt, at, &is_of, &(2, 3, 7));
    assert_same(rt, at, &counts_of(book), &(0, 0, 0));
    let state = (book.sent(0), book.fault(), book.node().highest(&r()));
    assert_same(rt, at, &state, &(None, None, 7));
}

/// Asserts that a book shows this event or sent frame.
fn assert_happened(rt: &impl Abort, at: At<'_>, book: &Book, step: Step<'_>) {
    let (client, name, mode) = (1, r(), Mode::Exclusive);
    match step {
        WasSent {
            place,
            clock,
            message: wire,
            lost,
        } => {
            let frame = frame(clock, wire);
            assert_same(rt, at, &book.sent(place), &Some(Sent { frame, lost }));
        }
        HasAsk { place, clock } => {
            assert_event(
                rt,
                at,
                book,
                place,
                clock,
                BookKind::Ask { client, name, mode },
            )
        }
        HasLeave { place, clock } => {
            assert_event(rt, at, book, place, clock, BookKind::Leave { client, name })
        }
        HasReceive {
            place,
            clock,
            sent_at: other,
            message: wire,
        } => {
            let frame = frame(other, wire);
            assert_event(rt, at, book, place, clock, BookKind::Receive(frame));
        }
        _ => fail_at(rt, at, "this is nothing that happened"),
    }
}

/// Asserts that a book shows this.
fn shows(rt: &impl Abort, at: At<'_>, book: &Book, step: Step<'_>) {
    match step {
        HasFault(stop) => assert_same(rt, at, &book.fault(), &Some(stop)),
        Has {
            events,
            sent,
            clock,
        } => assert_same(rt, at, &counts_of(book), &(events, sent, clock)),
        IsFree => assert_same(rt, at, &book.holder(&r()), &None),
        IsHeld => assert_same(rt, at, &book.holder(&r()), &Some(entry())),
        IsNew => assert_new(rt, at, book),
        happened => assert_happened(rt, at, book, happened),
    }
}

/// Has a book do this step, or asserts that it shows it. Ends the test if it does anything else, and returns whether
/// memory for it was left.
pub fn does(rt: &impl Abort, alloc: Global, at: At<'_>, book: &mut Book, step: Step<'_>) -> bool {
    match step {
        Takes(call) => return takes(rt, alloc, at, book, call, None),
        Refuses(call, fault) => return takes(rt, alloc, at, book, call, Some(fault)),
        Posts(call, text, turn) => return posts(rt, alloc, at, book, call, text, turn),
        Fails(stop) => book.fail(stop),
        Loses(clock) => assert_same(rt, at, &mark_lost(book, clock), &None),
        RefusesToLose(clock, fault) => {
            assert_same(rt, at, &mark_lost(book, clock), &Some(fault))
        }
        shown => shows(rt, at, book, shown),
    }
    true
}

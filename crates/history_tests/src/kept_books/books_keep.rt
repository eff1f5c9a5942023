//! The book of a node: what it keeps and sends, what it refuses, and the words for its refusals.
use crate::kept_books::book_steps::{
    ASK, ASKS, ASKS_1, Call, LEAVE, REPLIES, REPLIES_1, Step, Turn, Wire,
};
use crate::kept_books::histories::{Made, ONE, TWO, TWO_OF_THREE, assert_follows};
use crate::kept_books::history_asserting::assert_same;
use crate::kept_books::history_values::new_book;
use Call::{Ask, Receive};
use Step::{
    Fails, Has, HasAsk, HasFault, HasLeave, HasReceive, IsFree, IsHeld, IsNew, Loses, Posts,
    Refuses, RefusesToLose, Takes, WasSent,
};
use Wire::{Asks, Replies};
use ra_book::{BookError, MarkLostError, NewError, Stop};
use ra_frame::FrameError;
use ra_stamp::Mode;
use std::process::Abort;
use test_support::{assert_prints, assert_words, row};

/// The same REQUEST at clock 2^62-1.
const ASKS_LATE: [u8; 25] = [
    2, 1, 0, 1, 0, 2, 1, 0, 0, 0, 0, 0, 0, 0, 1, 0x3f, 0xff, 0xff, 0xff, 0xff, 0xff, 0xff, 0xff, 1,
    b'r',
];

/// The same REQUEST at clock 2^62.
const ASKS_LAST: [u8; 25] = [
    2, 1, 0, 1, 0, 2, 1, 0, 0, 0, 0, 0, 0, 0, 1, 0x40, 0, 0, 0, 0, 0, 0, 0, 1, b'r',
];

/// A node and how many there are, in words and as numbers, and why there is no book of it.
const NO_BOOKS: &[(&str, u16, u16, NewError)] = &[
    ("node 1 of 0", 1, 0, NewError::BadCount),
    ("node 1 of 65", 1, 65, NewError::BadCount),
    ("node 3 of 2", 3, 2, NewError::BadNode),
];

#[test]
fn bad_counts_and_nodes_make_no_book(rt: HostRuntime) {
    for (label, me, nodes, fault) in NO_BOOKS {
        let came = new_book(rt.alloc(), *me, *nodes, 0).err();
        assert_same(&rt, row(label), &came, &Some(*fault));
    }
}

/// The last clock.
const LAST: u64 = 1 << 62;

/// What a book of a node does and shows.
struct Row {
    shows: &'static str,
    made: Made,
    steps: &'static [Step<'static>],
}

/// Ends the test if a book does not do or show all of its row.
fn assert_rows<R: Abort + AllocGlobal>(rt: &R, rows: &[Row]) {
    for row in rows {
        assert_follows(rt, rt.alloc(), row.shows, row.made, row.steps);
    }
}

/// What books take, and what they keep of it.
const TAKEN: &[Row] = &[
    Row {
        shows: "a new book is empty",
        made: Made {
            start: 7,
            ..TWO_OF_THREE
        },
        steps: &[IsNew, IsFree],
    },
    Row {
        shows: "frames carry the clock of their event, at node 1",
        made: ONE,
        steps: &[Posts(ASK, Some(&ASKS), Some(Turn::Requested))],
    },
    Row {
        shows: "frames carry the clock of their event, at node 2",
        made: TWO,
        steps: &[
            Posts(Receive(&ASKS), Some(&REPLIES), None),
            // A frame that arrives twice is taken twice: no book knows what was sent.
            Takes(Receive(&ASKS)),
            WasSent {
                place: 1,
                clock: 3,
                message: Replies,
                lost: false,
            },
            Has {
                events: 2,
                sent: 2,
                clock: 3,
            },
        ],
    },
    Row {
        shows: "frames of version 1 are taken and answered in version 2, at node 2",
        made: TWO,
        steps: &[
            Posts(Receive(&ASKS_1), Some(&REPLIES), None),
            HasReceive {
                place: 0,
                clock: 2,
                sent_at: 1,
                message: Asks,
            },
        ],
    },
    Row {
        shows: "frames of version 1 are taken and answered in version 2, at node 1",
        made: ONE,
        steps: &[
            Takes(ASK),
            Posts(Receive(&REPLIES_1), None, Some(Turn::Entered)),
            HasReceive {
                place: 1,
                clock: 3,
                sent_at: 2,
                message: Replies,
            },
        ],
    },
    Row {
        shows: "a client enters and leaves",
        made: ONE,
        steps: &[
            Takes(ASK),
            IsFree,
            Posts(Receive(&REPLIES), None, Some(Turn::Entered)),
            IsHeld,
            Posts(LEAVE, None, Some(Turn::Left)),
            IsFree,
            Has {
                events: 3,
                sent: 1,
                clock: 4,
            },
        ],
    },
    Row {
        shows: "a book keeps what happened, at node 1",
        made: ONE,
        steps: &[
            Takes(ASK),
            Takes(Receive(&REPLIES)),
            Takes(LEAVE),
            HasAsk { place: 0, clock: 1 },
            HasReceive {
                place: 1,
                clock: 3,
                sent_at: 2,
                message: Replies,
            },
            HasLeave { place: 2, clock: 4 },
            WasSent {
                place: 0,
                clock: 1,
                message: Asks,
                lost: false,
            },
            Has {
                events: 3,
                sent: 1,
                clock: 4,
            },
        ],
    },
    Row {
        shows: "a book keeps what happened, at node 2",
        made: TWO,
        steps: &[
            Takes(Receive(&ASKS)),
            HasReceive {
                place: 0,
                clock: 2,
                sent_at: 1,
                message: Asks,
            },
            WasSent {
                place: 0,
                clock: 2,
                message: Replies,
                lost: false,
            },
            Has {
                events: 1,
                sent: 1,
                clock: 2,
            },
        ],
    },
];

#[test]
fn books_take_what_happens_and_keep_it(rt: HostRuntime) {
    assert_rows(&rt, TAKEN);
}

/// The REQUEST as if it were of version 3.
const ASKS_3: [u8; 25] = [
    3, 1, 0, 1, 0, 2, 1, 0, 0, 0, 0, 0, 0, 0, 1, 0, 0, 0, 0, 0, 0, 0, 1, 1, b'r',
];

/// The REQUEST to node 3.
const ASKS_NODE_3: [u8; 25] = [
    2, 1, 0, 1, 0, 3, 1, 0, 0, 0, 0, 0, 0, 0, 1, 0, 0, 0, 0, 0, 0, 0, 1, 1, b'r',
];

/// The REQUEST from node 5.
const ASKS_AS_NODE_5: [u8; 25] = [
    2, 1, 0, 5, 0, 2, 1, 0, 0, 0, 0, 0, 0, 0, 1, 0, 0, 0, 0, 0, 0, 0, 1, 1, b'r',
];

/// What books refuse. They are then as before.
const REFUSED: &[Row] = &[
    Row {
        shows: "a frame is flagged once",
        made: ONE,
        steps: &[
            Takes(ASK),
            RefusesToLose(9, MarkLostError::NotSent),
            WasSent {
                place: 0,
                clock: 1,
                message: Asks,
                lost: false,
            },
            Loses(1),
            RefusesToLose(1, MarkLostError::AlreadyLost),
            RefusesToLose(9, MarkLostError::NotSent),
            WasSent {
                place: 0,
                clock: 1,
                message: Asks,
                lost: true,
            },
            Has {
                events: 1,
                sent: 1,
                clock: 1,
            },
        ],
    },
    Row {
        shows: "a book keeps its first fault",
        made: ONE,
        steps: &[
            Takes(ASK),
            Fails(Stop::Gate),
            Fails(Stop::Send),
            HasFault(Stop::Gate),
            Refuses(ASK, BookError::Failed),
            Refuses(LEAVE, BookError::Failed),
            Refuses(Receive(&REPLIES), BookError::Failed),
            // It refuses before it looks at the bytes.
            Refuses(Receive(&[]), BookError::Failed),
            Has {
                events: 1,
                sent: 1,
                clock: 1,
            },
            Loses(1),
        ],
    },
    Row {
        shows: "the last clock is reached and not passed",
        made: TWO_OF_THREE,
        steps: &[
            Refuses(Receive(&ASKS_LAST), BookError::ClockFull),
            Has {
                events: 0,
                sent: 0,
                clock: 0,
            },
            Takes(Receive(&ASKS_LATE)),
            WasSent {
                place: 0,
                clock: LAST,
                message: Replies,
                lost: false,
            },
            Has {
                events: 1,
                sent: 1,
                clock: LAST,
            },
            // A book at the last clock takes nothing more, but a refusal of the node comes first.
            Refuses(ASK, BookError::ClockFull),
            Refuses(Receive(&ASKS), BookError::ClockFull),
            Refuses(LEAVE, BookError::NotHeld),
            Has {
                events: 1,
                sent: 1,
                clock: LAST,
            },
        ],
    },
    Row {
        shows: "bytes that are no frame leave the book",
        made: TWO_OF_THREE,
        steps: &[
            Refuses(Receive(&[]), BookError::Frame(FrameError::Short)),
            Refuses(Receive(&ASKS_3), BookError::Frame(FrameError::Version)),
            Refuses(Receive(&ASKS_NODE_3), BookError::WrongNode),
            Refuses(Receive(&ASKS_AS_NODE_5), BookError::Stranger),
            Has {
                events: 0,
                sent: 0,
                clock: 0,
            },
        ],
    },
    Row {
        shows: "what the node refuses leaves the book",
        made: ONE,
        steps: &[
            Refuses(LEAVE, BookError::NotHeld),
            Takes(ASK),
            Refuses(ASK, BookError::Busy),
            Has {
                events: 1,
                sent: 1,
                clock: 1,
            },
            // Another client of the node queues, which is an event.
            Posts(Ask(2, Mode::Shared), None, None),
            Has {
                events: 2,
                sent: 1,
                clock: 2,
            },
        ],
    },
    Row {
        shows: "an ask past the last number leaves the book",
        made: Made {
            start: u64::MAX,
            ..ONE
        },
        steps: &[
            Refuses(ASK, BookError::Exhausted),
            Has {
                events: 0,
                sent: 0,
                clock: 0,
            },
        ],
    },
];

#[test]
fn books_refuse_what_may_not_happen(rt: HostRuntime) {
    assert_rows(&rt, REFUSED);
}

/// The reason why the bytes are no frame prints as itself.
const FRAME_ERRORS: &[(BookError, &str)] = &[(BookError::Frame(FrameError::Trailing), "Trailing")];

#[test]
fn refusals_and_faults_are_printed_as_their_words(rt: HostRuntime) {
    assert_prints!(&rt, FRAME_ERRORS);
    assert_words!(&rt;
        BookError: Failed Busy Exhausted NotHeld NotWaiting WrongNode Stranger ClockFull Memory;
        Stop: Memory Send Clock Exhausted Frame Refused Gate Spawn;
        MarkLostError: NotSent AlreadyLost);
}

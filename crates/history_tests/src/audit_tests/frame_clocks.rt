//! Frames that come or are lost with another clock than the event that sent them. An auditor finds each in the round in
//! which the run has its sender's events up to the frame's clock. A frame with its own clock passes.
use crate::audit_tests::audits::Act::{
    Advances, AdvancesInParts, Finds, FindsNotLost, Gets, Has, HasLosses, Leaves, Loses,
};
use crate::audit_tests::audits::{Act, Came, Part, Row, Shown, assert_audited};
use crate::kept_books::book_steps::Call::{Ask, Receive};
use crate::kept_books::book_steps::Step::Takes;
use crate::kept_books::book_steps::{ASK, Wire};
use crate::kept_books::histories::Done;
use crate::kept_books::histories::Done::{AtNode, Passes};
use ra_stamp::Mode;

/// The REQUEST of [`ASKS`](crate::kept_books::book_steps::ASKS) in a frame with clock 2.
const ASKS_LATE: [u8; 25] = [
    2, 1, 0, 1, 0, 2, 1, 0, 0, 0, 0, 0, 0, 0, 1, 0, 0, 0, 0, 0, 0, 0, 2, 1, b'r',
];

/// The REPLY of [`REPLIES`](crate::kept_books::book_steps::REPLIES) in a frame with clock 1.
const REPLIES_EARLY: [u8; 25] = [
    2, 2, 0, 2, 0, 1, 0, 0, 0, 0, 0, 0, 0, 0, 1, 0, 0, 0, 0, 0, 0, 0, 1, 1, b'r',
];

/// Client 2 is queued at node 1 after the ask that sent the REQUEST at clock 1, and the REQUEST comes with clock 2.
const CAME_LATE: &[Done] = &[
    AtNode(1, Takes(ASK)),
    AtNode(1, Takes(Ask(2, Mode::Shared))),
    AtNode(2, Takes(Receive(&ASKS_LATE))),
];

/// It comes to node 2 at clock 3.
const LATE: Came = Came {
    node: 2,
    clock: 3,
    sent_at: 2,
    message: Wire::Asks,
};

/// It is found in the round in which it comes, and in each later one.
const FOUND_LATE: &[Act] = &[
    Gets(Part {
        node: 1,
        first: 0,
        until: 2,
        after: 0,
    }),
    Gets(Part {
        node: 2,
        first: 0,
        until: 1,
        after: 0,
    }),
    Finds(LATE),
    Finds(LATE),
    Has(Shown {
        steps: 2,
        requests: 1,
        sent: 1,
        under_way: 1,
        marks: 1,
    }),
];

/// It is found only once the event is in the run that has its clock.
const WAITS_LATE: &[Act] = &[
    Gets(Part {
        node: 1,
        first: 0,
        until: 1,
        after: 0,
    }),
    Gets(Part {
        node: 2,
        first: 0,
        until: 1,
        after: 0,
    }),
    Advances,
    Has(Shown {
        steps: 1,
        requests: 1,
        sent: 1,
        under_way: 1,
        marks: 1,
    }),
    Gets(Part {
        node: 1,
        first: 1,
        until: 2,
        after: 1,
    }),
    Finds(LATE),
    Has(Shown {
        steps: 2,
        requests: 1,
        sent: 1,
        under_way: 1,
        marks: 1,
    }),
];

/// The REPLY that node 2 sends at clock 2 comes with clock 1.
const CAME_EARLY: &[Done] = &[
    AtNode(1, Takes(ASK)),
    Passes(1, 0),
    AtNode(1, Takes(Receive(&REPLIES_EARLY))),
];

/// It comes to node 1 at clock 2.
const EARLY: Came = Came {
    node: 1,
    clock: 2,
    sent_at: 1,
    message: Wire::Replies,
};

/// It is found in the round in which it comes.
const FOUND_EARLY: &[Act] = &[
    Gets(Part {
        node: 1,
        first: 0,
        until: 2,
        after: 0,
    }),
    Gets(Part {
        node: 2,
        first: 0,
        until: 1,
        after: 0,
    }),
    Finds(EARLY),
    Finds(EARLY),
    Has(Shown {
        steps: 2,
        requests: 1,
        sent: 2,
        under_way: 1,
        marks: 1,
    }),
];

/// The REQUEST comes with its own clock, after a later event of its sender.
const CAME_RIGHT: &[Done] = &[
    AtNode(1, Takes(ASK)),
    AtNode(1, Takes(Ask(2, Mode::Shared))),
    Passes(1, 0),
];

/// It passes.
const PASSES_RIGHT: &[Act] = &[
    Gets(Part {
        node: 1,
        first: 0,
        until: 2,
        after: 0,
    }),
    Gets(Part {
        node: 2,
        first: 0,
        until: 1,
        after: 0,
    }),
    AdvancesInParts,
    Has(Shown {
        steps: 3,
        requests: 1,
        sent: 2,
        under_way: 1,
        marks: 1,
    }),
    Leaves(None),
];

/// The REQUEST, which was sent at clock 1, is noted as lost with clock 2, and then with clock 1.
const LOST_LATE: &[Act] = &[
    Gets(Part {
        node: 1,
        first: 0,
        until: 2,
        after: 0,
    }),
    AdvancesInParts,
    Loses(2, Wire::Asks),
    FindsNotLost(2, Wire::Asks),
    Loses(1, Wire::Asks),
    FindsNotLost(2, Wire::Asks),
    HasLosses(0, 2),
    Has(Shown {
        steps: 2,
        requests: 1,
        sent: 1,
        under_way: 1,
        marks: 1,
    }),
];

/// What auditors find.
const CLOCKS: &[Row] = &[
    Row {
        shows: "a frame came with a later clock than its own",
        done: CAME_LATE,
        acts: FOUND_LATE,
    },
    Row {
        shows: "a frame came with a later clock, and waits until the run comes to it",
        done: CAME_LATE,
        acts: WAITS_LATE,
    },
    Row {
        shows: "a frame came with an earlier clock than its own",
        done: CAME_EARLY,
        acts: FOUND_EARLY,
    },
    Row {
        shows: "a frame came with its own clock after later events",
        done: CAME_RIGHT,
        acts: PASSES_RIGHT,
    },
    Row {
        shows: "a frame was lost with a later clock than its own",
        done: CAME_LATE,
        acts: LOST_LATE,
    },
];

#[test]
fn audits_find_frames_with_other_clocks_than_their_own(rt: HostRuntime) {
    assert_audited(&rt, CLOCKS);
}

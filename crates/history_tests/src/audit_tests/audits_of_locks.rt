//! What an auditor makes of a lock: event by event, with a frame that waits, comes twice, was never sent or was lost.
use crate::audit_tests::audits::{Act, Came, Part, Row, Shown, assert_audited};
use crate::growth_in_histories::growth_of_settling::ONE_LOCK;
use crate::kept_books::book_steps::Call::{Ask, Receive};
use crate::kept_books::book_steps::Step::Takes;
use crate::kept_books::book_steps::{ASK, ASKS, Wire, frame};
use crate::kept_books::histories::Done;
use crate::kept_books::histories::Done::AtNode;
use Act::{Advances, AdvancesInParts, Finds, FindsNotLost, Gets, Has, HasLosses, Leaves, Loses};
use ra_stamp::Mode;

/// The lock of [`ONE_LOCK`], event by event: the ask of node 1, the REQUEST that comes to node 2, the REPLY that comes
/// back, and the leave.
pub const EVENT_BY_EVENT: &[Act] = &[
    Gets(Part {
        node: 1,
        first: 0,
        until: 1,
        after: 0,
    }),
    Advances,
    Has(Shown {
        steps: 1,
        requests: 1,
        sent: 1,
        under_way: 1,
        marks: 1,
    }),
    Gets(Part {
        node: 2,
        first: 0,
        until: 1,
        after: 0,
    }),
    Advances,
    Has(Shown {
        steps: 2,
        requests: 1,
        sent: 2,
        under_way: 1,
        marks: 1,
    }),
    Gets(Part {
        node: 1,
        first: 1,
        until: 2,
        after: 1,
    }),
    Advances,
    Has(Shown {
        steps: 3,
        requests: 1,
        sent: 2,
        under_way: 0,
        marks: 2,
    }),
    Gets(Part {
        node: 1,
        first: 2,
        until: 3,
        after: 3,
    }),
    Advances,
    Has(Shown {
        steps: 4,
        requests: 1,
        sent: 2,
        under_way: 0,
        marks: 3,
    }),
    Leaves(None),
];

/// The REQUEST of [`ASKS`], which comes to node 2 first.
const FIRST: Came = Came {
    node: 2,
    clock: 2,
    sent_at: 1,
    message: Wire::Asks,
};

/// The REQUEST of the lock comes to the auditor before the event that sent it.
const WAITS: &[Act] = &[
    Gets(Part {
        node: 2,
        first: 0,
        until: 1,
        after: 0,
    }),
    Advances,
    Has(Shown {
        steps: 0,
        requests: 0,
        sent: 0,
        under_way: 0,
        marks: 0,
    }),
    Leaves(Some(FIRST)),
    Gets(Part {
        node: 1,
        first: 0,
        until: 3,
        after: 0,
    }),
    AdvancesInParts,
    Has(Shown {
        steps: 4,
        requests: 1,
        sent: 2,
        under_way: 0,
        marks: 3,
    }),
];

/// Client 1 asks for `r` in shared mode at node 1, but node 2 gets the REQUEST of an exclusive one.
const NEVER_SENT: &[Done] = &[
    AtNode(1, Takes(Ask(1, Mode::Shared))),
    AtNode(2, Takes(Receive(&ASKS))),
];

/// The frame is found in the round in which the sender's events come, and in each later one.
const FOUND: &[Act] = &[
    Gets(Part {
        node: 2,
        first: 0,
        until: 1,
        after: 0,
    }),
    Advances,
    Leaves(Some(FIRST)),
    Gets(Part {
        node: 1,
        first: 0,
        until: 1,
        after: 0,
    }),
    Finds(FIRST),
    Finds(FIRST),
];

/// The same frame, which comes again.
const SECOND: Came = Came {
    node: 2,
    clock: 3,
    sent_at: 1,
    message: Wire::Asks,
};

/// The same frame comes to node 2 twice.
const CAME_TWICE: &[Done] = &[
    AtNode(1, Takes(ASK)),
    AtNode(2, Takes(Receive(&ASKS))),
    AtNode(2, Takes(Receive(&ASKS))),
];

/// The second frame is found in the round in which it comes, and in each later one.
const FOUND_TWICE: &[Act] = &[
    Gets(Part {
        node: 1,
        first: 0,
        until: 1,
        after: 0,
    }),
    Gets(Part {
        node: 2,
        first: 0,
        until: 1,
        after: 0,
    }),
    AdvancesInParts,
    Has(Shown {
        steps: 2,
        requests: 1,
        sent: 2,
        under_way: 1,
        marks: 1,
    }),
    Gets(Part {
        node: 2,
        first: 1,
        until: 2,
        after: 2,
    }),
    Finds(SECOND),
    Finds(SECOND),
    Has(Shown {
        steps: 2,
        requests: 1,
        sent: 2,
        under_way: 1,
        marks: 1,
    }),
];

/// The REQUEST of the lock is lost before the auditor has the event that sent it, and is noted again.
pub const LOST: &[Act] = &[
    Loses(1, Wire::Asks),
    Advances,
    HasLosses(0, 1),
    Has(Shown {
        steps: 0,
        requests: 0,
        sent: 0,
        under_way: 0,
        marks: 0,
    }),
    Gets(Part {
        node: 1,
        first: 0,
        until: 1,
        after: 0,
    }),
    AdvancesInParts,
    HasLosses(1, 0),
    Has(Shown {
        steps: 2,
        requests: 1,
        sent: 1,
        under_way: 0,
        marks: 1,
    }),
    Loses(1, Wire::Asks),
    FindsNotLost(1, Wire::Asks),
    FindsNotLost(1, Wire::Asks),
    HasLosses(1, 1),
    Has(Shown {
        steps: 2,
        requests: 1,
        sent: 1,
        under_way: 0,
        marks: 1,
    }),
];

/// The REQUEST of the lock came, and is noted as lost.
const CAME: &[Act] = &[
    Gets(Part {
        node: 1,
        first: 0,
        until: 1,
        after: 0,
    }),
    Gets(Part {
        node: 2,
        first: 0,
        until: 1,
        after: 0,
    }),
    Loses(1, Wire::Asks),
    FindsNotLost(1, Wire::Asks),
    HasLosses(0, 1),
    Has(Shown {
        steps: 2,
        requests: 1,
        sent: 2,
        under_way: 1,
        marks: 1,
    }),
];

/// The REQUEST of the lock comes after its loss is in the run.
const COMES: &[Act] = &[
    Loses(1, Wire::Asks),
    Gets(Part {
        node: 1,
        first: 0,
        until: 1,
        after: 0,
    }),
    AdvancesInParts,
    HasLosses(1, 0),
    Gets(Part {
        node: 2,
        first: 0,
        until: 1,
        after: 0,
    }),
    Finds(FIRST),
    HasLosses(1, 0),
    Has(Shown {
        steps: 2,
        requests: 1,
        sent: 1,
        under_way: 0,
        marks: 1,
    }),
];

/// What auditors find.
const AUDITS: &[Row] = &[
    Row {
        shows: "a lock event by event",
        done: ONE_LOCK,
        acts: EVENT_BY_EVENT,
    },
    Row {
        shows: "a frame waits for its sender",
        done: ONE_LOCK,
        acts: WAITS,
    },
    Row {
        shows: "a frame was never sent",
        done: NEVER_SENT,
        acts: FOUND,
    },
    Row {
        shows: "a frame came twice",
        done: CAME_TWICE,
        acts: FOUND_TWICE,
    },
    Row {
        shows: "a frame was lost",
        done: ONE_LOCK,
        acts: LOST,
    },
    Row {
        shows: "a frame came before its loss",
        done: ONE_LOCK,
        acts: CAME,
    },
    Row {
        shows: "a frame came after its loss",
        done: ONE_LOCK,
        acts: COMES,
    },
];

#[test]
fn audits_put_what_happened_into_one_run_and_find_what_does_not_fit(rt: HostRuntime) {
    assert_audited(&rt, AUDITS);
}

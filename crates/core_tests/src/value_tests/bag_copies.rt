//! Messages that are repeated in a bag.
use crate::value_tests::bags::{ASKED, REPLIED, Scene, Step, Wire, follow};
use Step::{
    Copies, CopiesAmong, CopiesNumbers, Has, HasCount, HasNumbers, Lacks, Puts, PutsNumbers, Takes,
    TakesNumbers,
};
use Wire::Asks;

/// Messages that are copied.
const COPIES: &[Scene] = &[
    Scene {
        shows: "a copy of a message comes after all others",
        steps: &[
            Puts(&[ASKED, REPLIED]),
            Copies(ASKED),
            Has(&[ASKED, REPLIED, ASKED]),
            Lacks(Asks(2)),
            Has(&[ASKED, REPLIED, ASKED]),
        ],
    },
    // A message that was taken cannot be copied, but a copy of it can.
    Scene {
        shows: "of a message and its copies the first goes",
        steps: &[
            Lacks(ASKED),
            Puts(&[ASKED, REPLIED]),
            Copies(ASKED),
            Takes(ASKED),
            Has(&[REPLIED, ASKED]),
            Copies(ASKED),
            Takes(REPLIED),
            TakesNumbers {
                first: 1,
                count: 1,
                times: 2,
            },
            Lacks(ASKED),
            HasCount(0),
        ],
    },
    // A request is copied a thousand times among nine thousand others, and all equal ones are taken; the others stay in
    // their order. They are looked for so often that each has to be found without looking at all messages before it.
    Scene {
        shows: "a thousand copies among ten thousand messages are taken",
        steps: &[
            PutsNumbers { first: 2, count: 1 },
            PutsNumbers { first: 1, count: 1 },
            CopiesAmong {
                copied: 1,
                first: 3,
                times: 1_000,
            },
            HasCount(10_002),
            HasNumbers {
                from: 1,
                first: 1,
                apart: 0,
                count: 1,
            },
            HasNumbers {
                from: 11,
                first: 1,
                apart: 0,
                count: 1,
            },
            TakesNumbers {
                first: 1,
                count: 1,
                times: 1_000,
            },
            HasNumbers {
                from: 0,
                first: 2,
                apart: 1,
                count: 20,
            },
            HasNumbers {
                from: 8_991,
                first: 8_993,
                apart: 1,
                count: 10,
            },
            HasNumbers {
                from: 9_001,
                first: 1,
                apart: 0,
                count: 1,
            },
            TakesNumbers {
                first: 1,
                count: 1,
                times: 1,
            },
            Lacks(Asks(1)),
            HasCount(9_001),
        ],
    },
    // Each of five thousand requests is copied once, so that each copy is far from the original.
    Scene {
        shows: "each of many messages and its copy is taken",
        steps: &[
            PutsNumbers {
                first: 1,
                count: 5_000,
            },
            CopiesNumbers {
                first: 1,
                count: 5_000,
            },
            TakesNumbers {
                first: 11,
                count: 4_000,
                times: 2,
            },
            HasNumbers {
                from: 0,
                first: 1,
                apart: 1,
                count: 10,
            },
            HasNumbers {
                from: 10,
                first: 4_011,
                apart: 1,
                count: 990,
            },
            HasNumbers {
                from: 1_000,
                first: 1,
                apart: 1,
                count: 10,
            },
            HasNumbers {
                from: 1_010,
                first: 4_011,
                apart: 1,
                count: 990,
            },
            HasCount(2_000),
        ],
    },
];

#[test]
fn copies_come_after_all_others(rt: HostRuntime) {
    follow(&rt, COPIES);
}

//! What calls cost. A test has a minute. A body that goes through all messages at each call, or learns their places
//! anew at each call, takes longer.
use crate::value_tests::bags::{Scene, Step, Wire, follow};
use Step::{Finds, HasCount, HasNumbers, MovesEach, PutsNumbers, TakesEveryOther};
use Wire::Asks;
use ra_bag::Found;

const EACH_MOVED: &[Scene] = &[Scene {
    shows: "each of 400,000 messages is found, taken and put again",
    steps: &[
        PutsNumbers {
            first: 1,
            count: 400_000,
        },
        MovesEach,
        HasCount(400_000),
    ],
}];

#[test]
fn a_message_among_many_is_found_without_a_search(rt: HostRuntime) {
    follow(&rt, EACH_MOVED);
}

/// The index is learned with the message that is put after one was looked for, and the bit words with the one that is
/// put after every other one was taken. The message at place `p` is then the one with the number `2 p + 1`. A body of
/// `at` that goes through all slots before the place looks at 40,000,000,000 of them; one that goes through the words
/// looks at 625,000,000 words.
const EVERY_OTHER_TAKEN: &[Scene] = &[Scene {
    shows: "each of 200,000 places is found without a walk over the slots",
    steps: &[
        PutsNumbers {
            first: 1,
            count: 400_000,
        },
        Finds {
            message: Asks(200_000),
            near: 9,
            found: Some(Found::In(199_999)),
        },
        PutsNumbers {
            first: 400_001,
            count: 1,
        },
        TakesEveryOther {
            first: 2,
            count: 200_000,
        },
        PutsNumbers {
            first: 400_002,
            count: 1,
        },
        HasCount(200_002),
        HasNumbers {
            from: 0,
            first: 1,
            apart: 2,
            count: 200_001,
        },
        HasNumbers {
            from: 200_001,
            first: 400_002,
            apart: 0,
            count: 1,
        },
    ],
}];

#[test]
fn a_place_among_many_messages_is_found_by_words(rt: HostRuntime) {
    follow(&rt, EVERY_OTHER_TAKEN);
}

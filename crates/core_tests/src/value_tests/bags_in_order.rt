//! A bag of few messages: their order, and which of equal ones goes.
use crate::value_tests::bags::{ASKED, REPLIED, Scene, Step, Wire, follow};
use Step::{Contains, Finds, Has, Lacks, MakesRoom, Puts, Takes, TakesNear};
use Wire::Asks;
use ra_bag::Found;
use ra_stamp::Memory;

/// A bag of few messages.
const IN_ORDER: &[Scene] = &[
    Scene {
        shows: "messages stand in the order of sending",
        steps: &[
            Puts(&[ASKED, REPLIED]),
            Puts(&[ASKED]),
            Has(&[ASKED, REPLIED, ASKED]),
        ],
    },
    Scene {
        shows: "the first equal message is taken",
        steps: &[
            Puts(&[ASKED, REPLIED]),
            Puts(&[ASKED]),
            Takes(ASKED),
            Has(&[REPLIED, ASKED]),
        ],
    },
    Scene {
        shows: "a message is taken where it is found",
        steps: &[
            Puts(&[ASKED, REPLIED]),
            Puts(&[ASKED]),
            TakesNear {
                message: REPLIED,
                near: 1,
            },
            Has(&[ASKED, ASKED]),
            Finds {
                message: REPLIED,
                near: 1,
                found: None,
            },
            // It is not at the place 9, so another one is taken.
            TakesNear {
                message: ASKED,
                near: 9,
            },
            Has(&[ASKED]),
        ],
    },
    // If two messages are equal, the one that was found is taken. If another message is at that place, before the one
    // taken last, and at the end, the first of the two is taken. Then the one at the end is taken.
    Scene {
        shows: "of equal messages the one that was found is taken",
        steps: &[
            Puts(&[ASKED, REPLIED]),
            Puts(&[ASKED]),
            Finds {
                message: ASKED,
                near: 2,
                found: Some(Found::At(2)),
            },
            TakesNear {
                message: ASKED,
                near: 2,
            },
            Has(&[ASKED, REPLIED]),
            Puts(&[ASKED, REPLIED]),
            TakesNear {
                message: ASKED,
                near: 1,
            },
            Has(&[REPLIED, ASKED, REPLIED]),
            Puts(&[ASKED]),
            TakesNear {
                message: ASKED,
                near: 0,
            },
            Has(&[REPLIED, ASKED, REPLIED]),
        ],
    },
    Scene {
        shows: "an absent message is not taken",
        steps: &[Lacks(ASKED), Puts(&[ASKED]), Lacks(REPLIED), Has(&[ASKED])],
    },
    // The request, its reply, the request again and a later one are put, and room is made for another. The bag closes
    // up each of the two times that the request is taken, and has it at the end when it is put again.
    Scene {
        shows: "a bag closes up where a message is taken",
        steps: &[
            Puts(&[ASKED, REPLIED, ASKED, Asks(2)]),
            MakesRoom {
                more: 1,
                answer: Ok(()),
            },
            Has(&[ASKED, REPLIED, ASKED, Asks(2)]),
            Takes(ASKED),
            Has(&[REPLIED, ASKED, Asks(2)]),
            Takes(ASKED),
            Has(&[REPLIED, Asks(2)]),
            Puts(&[ASKED]),
            Has(&[REPLIED, Asks(2), ASKED]),
        ],
    },
    Scene {
        shows: "a message is under way until each equal one is taken",
        steps: &[
            Lacks(ASKED),
            Puts(&[ASKED, ASKED]),
            Contains(ASKED),
            Lacks(REPLIED),
            Takes(ASKED),
            Contains(ASKED),
            Takes(ASKED),
            Lacks(ASKED),
        ],
    },
    Scene {
        shows: "room changes no message",
        steps: &[
            Puts(&[ASKED, REPLIED]),
            Puts(&[ASKED]),
            MakesRoom {
                more: 100,
                answer: Ok(()),
            },
            Has(&[ASKED, REPLIED, ASKED]),
        ],
    },
    // The messages stay, with the next one after them.
    Scene {
        shows: "more room than there is is refused",
        steps: &[
            Puts(&[ASKED, REPLIED]),
            Puts(&[ASKED]),
            MakesRoom {
                more: u64::MAX,
                answer: Err(Memory),
            },
            Has(&[ASKED, REPLIED, ASKED]),
            Puts(&[REPLIED]),
            Has(&[ASKED, REPLIED, ASKED, REPLIED]),
        ],
    },
];

#[test]
fn messages_stand_in_the_order_of_sending(rt: HostRuntime) {
    follow(&rt, IN_ORDER);
}

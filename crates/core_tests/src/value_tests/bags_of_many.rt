//! A bag of many messages, which knows the slot of each.
use crate::value_tests::bags::{Scene, Step, Wire, follow};
use Step::{
    Contains, Finds, HasCount, HasNumbers, Lacks, MakesRoom, PutsNumbers, Takes, TakesEveryOther,
    TakesNear,
};
use Wire::Asks;
use ra_bag::Found;

/// A bag of many messages, which knows the slot of each.
const MANY: &[Scene] = &[
    // The request with the number 50 is in the bag twice, 150 places apart. The later one is found and taken at its
    // place although slots before it are empty, and the earlier one stays.
    Scene {
        shows: "a message is found at its place where slots are empty",
        steps: &[
            PutsNumbers {
                first: 1,
                count: 200,
            },
            PutsNumbers {
                first: 50,
                count: 1,
            },
            TakesNear {
                message: Asks(100),
                near: 0,
            },
            MakesRoom {
                more: 0,
                answer: Ok(()),
            },
            TakesNear {
                message: Asks(120),
                near: 0,
            },
            Finds {
                message: Asks(50),
                near: 49,
                found: Some(Found::At(49)),
            },
            Finds {
                message: Asks(50),
                near: 198,
                found: Some(Found::At(198)),
            },
            TakesNear {
                message: Asks(50),
                near: 198,
            },
            Finds {
                message: Asks(50),
                near: 49,
                found: Some(Found::At(49)),
            },
            Finds {
                message: Asks(121),
                near: 118,
                found: Some(Found::At(118)),
            },
            TakesNear {
                message: Asks(121),
                near: 118,
            },
            HasNumbers {
                from: 0,
                first: 1,
                apart: 1,
                count: 99,
            },
            HasNumbers {
                from: 99,
                first: 101,
                apart: 1,
                count: 19,
            },
            HasNumbers {
                from: 118,
                first: 122,
                apart: 1,
                count: 79,
            },
            HasCount(197),
        ],
    },
    // When the oldest message is taken, the empty slots after it are dropped with its slot.
    Scene {
        shows: "no slot before the oldest message is empty",
        steps: &[
            PutsNumbers {
                first: 1,
                count: 200,
            },
            TakesNear {
                message: Asks(100),
                near: 0,
            },
            MakesRoom {
                more: 0,
                answer: Ok(()),
            },
            TakesEveryOther { first: 2, count: 2 },
            TakesNear {
                message: Asks(3),
                near: 0,
            },
            Finds {
                message: Asks(150),
                near: 9,
                found: Some(Found::In(148)),
            },
            TakesNear {
                message: Asks(1),
                near: 0,
            },
            Finds {
                message: Asks(150),
                near: 9,
                found: Some(Found::In(144)),
            },
            Finds {
                message: Asks(5),
                near: 0,
                found: Some(Found::At(0)),
            },
            HasNumbers {
                from: 0,
                first: 5,
                apart: 1,
                count: 95,
            },
            HasNumbers {
                from: 95,
                first: 101,
                apart: 1,
                count: 100,
            },
            HasCount(195),
        ],
    },
    // There are 200 requests. Those with even numbers are taken, then 100 more are put after the others, and then those
    // with odd numbers are taken, except the first. The others always stay in their order.
    Scene {
        shows: "many messages stay in order while others are taken",
        steps: &[
            PutsNumbers {
                first: 1,
                count: 200,
            },
            TakesEveryOther {
                first: 2,
                count: 100,
            },
            HasCount(100),
            HasNumbers {
                from: 0,
                first: 1,
                apart: 2,
                count: 100,
            },
            PutsNumbers {
                first: 201,
                count: 100,
            },
            HasNumbers {
                from: 0,
                first: 1,
                apart: 2,
                count: 100,
            },
            HasNumbers {
                from: 100,
                first: 201,
                apart: 1,
                count: 100,
            },
            TakesEveryOther {
                first: 3,
                count: 99,
            },
            HasNumbers {
                from: 0,
                first: 1,
                apart: 1,
                count: 1,
            },
            HasNumbers {
                from: 1,
                first: 201,
                apart: 1,
                count: 100,
            },
            HasCount(101),
        ],
    },
    // There are 200 requests. The seventh is put twice, and taken twice with 70 others in between. The second of the
    // two stays until it is taken, too.
    Scene {
        shows: "each of two equal messages among many is taken",
        steps: &[
            PutsNumbers {
                first: 1,
                count: 200,
            },
            PutsNumbers { first: 7, count: 1 },
            PutsNumbers {
                first: 201,
                count: 1,
            },
            TakesNear {
                message: Asks(7),
                near: 0,
            },
            Contains(Asks(7)),
            TakesEveryOther {
                first: 2,
                count: 70,
            },
            TakesNear {
                message: Asks(7),
                near: 0,
            },
            Lacks(Asks(7)),
            HasCount(130),
        ],
    },
    // If a message is put after one was looked for among many, the bag knows the slot of each from then on.
    Scene {
        shows: "where many messages stand is learned with the next one",
        steps: &[
            PutsNumbers {
                first: 1,
                count: 200,
            },
            TakesNear {
                message: Asks(100),
                near: 0,
            },
            Finds {
                message: Asks(150),
                near: 9,
                found: Some(Found::In(148)),
            },
            PutsNumbers {
                first: 201,
                count: 1,
            },
            TakesNear {
                message: Asks(120),
                near: 0,
            },
            // The slot of the one that was taken stays, and so do those after it.
            Finds {
                message: Asks(150),
                near: 9,
                found: Some(Found::In(148)),
            },
            Finds {
                message: Asks(201),
                near: 9,
                found: Some(Found::In(199)),
            },
            HasNumbers {
                from: 99,
                first: 101,
                apart: 1,
                count: 19,
            },
            HasNumbers {
                from: 118,
                first: 121,
                apart: 1,
                count: 81,
            },
            HasCount(199),
        ],
    },
    // If two of many messages are equal, the earlier one is found while others are taken and put. Once it is taken, the
    // later one is found.
    Scene {
        shows: "among many the first slot of each message is known",
        steps: &[
            PutsNumbers {
                first: 1,
                count: 200,
            },
            PutsNumbers {
                first: 50,
                count: 1,
            },
            PutsNumbers {
                first: 201,
                count: 1,
            },
            Finds {
                message: Asks(50),
                near: 9,
                found: Some(Found::In(49)),
            },
            // It was looked for among many, so the bag now learns the slot of each.
            MakesRoom {
                more: 0,
                answer: Ok(()),
            },
            TakesNear {
                message: Asks(1),
                near: 0,
            },
            Finds {
                message: Asks(50),
                near: 9,
                found: Some(Found::In(48)),
            },
            TakesNear {
                message: Asks(100),
                near: 0,
            },
            Finds {
                message: Asks(50),
                near: 9,
                found: Some(Found::In(48)),
            },
            PutsNumbers {
                first: 60,
                count: 1,
            },
            PutsNumbers {
                first: 202,
                count: 1,
            },
            Finds {
                message: Asks(60),
                near: 9,
                found: Some(Found::In(58)),
            },
            Takes(Asks(50)),
            Finds {
                message: Asks(50),
                near: 9,
                found: Some(Found::In(199)),
            },
            Takes(Asks(60)),
            Finds {
                message: Asks(60),
                near: 9,
                found: Some(Found::In(201)),
            },
        ],
    },
    // If two of many messages are equal, the one at the end of all is found. From then on the one before the message
    // taken last is found first, too: no message is looked for if they are taken from the newest on.
    Scene {
        shows: "among many the last message is found, and then the one before it",
        steps: &[
            PutsNumbers {
                first: 1,
                count: 200,
            },
            PutsNumbers {
                first: 50,
                count: 1,
            },
            Finds {
                message: Asks(50),
                near: 9,
                found: Some(Found::In(200)),
            },
            TakesNear {
                message: Asks(50),
                near: 0,
            },
            Finds {
                message: Asks(50),
                near: 49,
                found: Some(Found::At(49)),
            },
            TakesNear {
                message: Asks(200),
                near: 0,
            },
            PutsNumbers {
                first: 201,
                count: 1,
            },
            TakesNear {
                message: Asks(199),
                near: 0,
            },
            PutsNumbers {
                first: 198,
                count: 1,
            },
            Finds {
                message: Asks(198),
                near: 9,
                found: Some(Found::In(197)),
            },
            TakesNear {
                message: Asks(198),
                near: 0,
            },
            // The slots of the two that were taken from between others stay, and are empty.
            Finds {
                message: Asks(198),
                near: 9,
                found: Some(Found::In(200)),
            },
            HasNumbers {
                from: 0,
                first: 1,
                apart: 1,
                count: 197,
            },
            HasNumbers {
                from: 197,
                first: 201,
                apart: 1,
                count: 1,
            },
            HasNumbers {
                from: 198,
                first: 198,
                apart: 1,
                count: 1,
            },
            HasCount(199),
        ],
    },
];

#[test]
fn where_many_messages_stand_is_known(rt: HostRuntime) {
    follow(&rt, MANY);
}

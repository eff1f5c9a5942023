//! Sites, and the post between them.
use crate::site_tests::site_ends::{Ended, Shown};
use crate::site_tests::site_steps::Step::{
    ClosesPost, HasLeft, HasLeftOne, HasStepped, Locks, Pumps, RefusesToLock, RefusesToSend,
    RefusesToUnlock, Sends, Stops, Unlocks,
};
use crate::site_tests::site_steps::{Gone, Row, TWO_NODES};
use crate::whole_clusters::cluster_asserting::assert_same;
use crate::whole_clusters::plays::play_sites;
use ra_cluster::{BookError, NewPostError, Post, SendError, SiteError, Stop};
use ra_frame::FrameError;
use std::alloc::Global;
use test_support::{At, assert_prints, assert_words};

/// The last clock: no event can come after it.
const LAST_CLOCK: u64 = 1 << 62;

/// Returns how many inboxes the post of this many nodes has, or why there is no post.
fn inboxes_of(alloc: Global, nodes: u16) -> Result<usize, NewPostError> {
    match Post::new(alloc, nodes) {
        Ok((_post, inboxes)) => Ok(inboxes.len()),
        Err(fault) => Err(fault),
    }
}

/// How many nodes there are, and how many inboxes their post has, or why there is no post.
const COUNTS: &[(u16, Result<usize, NewPostError>)] = &[
    (0, Err(NewPostError::BadCount)),
    (65, Err(NewPostError::BadCount)),
    (1, Ok(1)),
    (64, Ok(64)),
];

#[test]
fn a_post_has_1_to_64_nodes(rt: HostRuntime) {
    for (nodes, expected) in COUNTS {
        let at = At("a post", "with this many nodes:", usize::from(*nodes));
        assert_same(&rt, at, &inboxes_of(rt.alloc(), *nodes), expected);
    }
}

/// The books of two nodes before their first events.
const BOTH_RUN: &[Shown] = &[Shown::Books(&[
    Ended {
        fault: None,
        events: 0,
    },
    Ended {
        fault: None,
        events: 0,
    },
])];

/// A client is refused since its gate is closed.
const GATE: SiteError = SiteError::Stopped(Stop::Gate);

/// A client is refused since a frame of its request is lost.
const SEND: SiteError = SiteError::Stopped(Stop::Send);

const COMES: &[Row] = &[Row {
    words: "a frame comes to its node",
    steps: &[
        Sends {
            clock: 1,
            from: 1,
            to: 2,
        },
        ClosesPost,
        HasLeftOne,
        HasLeft {
            place: 1,
            node: 2,
            frames: 0,
        },
        HasLeft {
            place: 0,
            node: 1,
            frames: 0,
        },
    ],
    shown: BOTH_RUN,
    ..TWO_NODES
}];

#[test]
fn a_frame_comes_to_its_node(rt: HostRuntime) {
    play_sites(&rt, COMES);
}

const SENDS_NOTHING: &[Row] = &[
    Row {
        words: "there is no node 3",
        steps: &[RefusesToSend(1, 3, SendError::Refused)],
        shown: BOTH_RUN,
        ..TWO_NODES
    },
    Row {
        words: "the inboxes are gone, and then the post is closed",
        gone: Gone::Inboxes,
        steps: &[
            RefusesToSend(1, 3, SendError::Refused),
            RefusesToSend(1, 2, SendError::Refused),
            ClosesPost,
            RefusesToSend(1, 2, SendError::Closed),
            RefusesToSend(1, 3, SendError::Closed),
            ClosesPost,
        ],
        shown: BOTH_RUN,
        ..TWO_NODES
    },
];

#[test]
fn a_closed_post_sends_nothing(rt: HostRuntime) {
    play_sites(&rt, SENDS_NOTHING);
}

const ALONE: &[Row] = &[Row {
    words: "a client of the only node",
    nodes: 1,
    steps: &[
        Locks(1),
        RefusesToLock(1, 1, SiteError::Refused(BookError::Busy)),
        Unlocks(1),
        RefusesToUnlock(1, 1, SiteError::Refused(BookError::NotHeld)),
        Stops(1, Stop::Gate),
        RefusesToLock(1, 1, SiteError::Refused(BookError::Failed)),
        RefusesToUnlock(1, 1, SiteError::Refused(BookError::Failed)),
    ],
    shown: &[Shown::Books(&[Ended {
        fault: Some(Stop::Gate),
        events: 2,
    }])],
    ..TWO_NODES
}];

#[test]
fn one_node_is_let_in_at_once(rt: HostRuntime) {
    play_sites(&rt, ALONE);
}

const NOT_TAKEN: &[Row] = &[Row {
    words: "a closed post does not take the frame",
    steps: &[ClosesPost, RefusesToLock(1, 1, SEND)],
    shown: &[
        Shown::Books(&[
            Ended {
                fault: Some(Stop::Send),
                events: 1,
            },
            Ended {
                fault: Some(Stop::Send),
                events: 0,
            },
        ]),
        Shown::OneLoss,
    ],
    ..TWO_NODES
}];

#[test]
fn a_frame_that_is_not_taken_is_lost_and_stops_all(rt: HostRuntime) {
    play_sites(&rt, NOT_TAKEN);
}

/// The books of three nodes. The first one has lost a frame.
const THREE_STOPPED: Shown = Shown::Books(&[
    Ended {
        fault: Some(Stop::Send),
        events: 1,
    },
    Ended {
        fault: Some(Stop::Send),
        events: 0,
    },
    Ended {
        fault: Some(Stop::Send),
        events: 0,
    },
]);

/// An inbox is gone, and the one after node 1's that is left has a frame.
const EACH_FRAME: &[Row] = &[
    Row {
        words: "the frame for node 2 is lost",
        nodes: 3,
        gone: Gone::Inbox(1),
        steps: &[
            RefusesToLock(1, 1, SEND),
            ClosesPost,
            HasLeft {
                place: 1,
                node: 3,
                frames: 1,
            },
        ],
        shown: &[Shown::Sent(0, true), Shown::Sent(1, false), THREE_STOPPED],
        ..TWO_NODES
    },
    Row {
        words: "the frame for node 3 is lost",
        nodes: 3,
        gone: Gone::Inbox(2),
        steps: &[
            RefusesToLock(1, 1, SEND),
            ClosesPost,
            HasLeft {
                place: 1,
                node: 2,
                frames: 1,
            },
        ],
        shown: &[Shown::Sent(0, false), Shown::Sent(1, true), THREE_STOPPED],
        ..TWO_NODES
    },
];

#[test]
fn each_frame_of_an_event_is_tried(rt: HostRuntime) {
    play_sites(&rt, EACH_FRAME);
}

const STRANGE: &[Row] = &[
    Row {
        words: "a strange frame comes first",
        steps: &[
            Sends {
                clock: 1,
                from: 5,
                to: 2,
            },
            Sends {
                clock: 1,
                from: 1,
                to: 2,
            },
            // Closed, so that a pump that went on would end too, with an empty inbox.
            ClosesPost,
            Pumps(2),
        ],
        shown: &[Shown::Books(&[
            Ended {
                fault: Some(Stop::Refused),
                events: 0,
            },
            Ended {
                fault: Some(Stop::Refused),
                events: 0,
            },
        ])],
        ..TWO_NODES
    },
    Row {
        words: "the post stays open",
        steps: &[
            Sends {
                clock: 1,
                from: 5,
                to: 2,
            },
            Pumps(2),
        ],
        shown: &[Shown::Books(&[
            Ended {
                fault: Some(Stop::Refused),
                events: 0,
            },
            Ended {
                fault: Some(Stop::Refused),
                events: 0,
            },
        ])],
        ..TWO_NODES
    },
    Row {
        words: "what came before it was received and answered",
        steps: &[
            Sends {
                clock: 1,
                from: 1,
                to: 2,
            },
            Sends {
                clock: 1,
                from: 5,
                to: 2,
            },
            Sends {
                clock: 1,
                from: 1,
                to: 2,
            },
            Pumps(2),
            ClosesPost,
            HasLeft {
                place: 0,
                node: 1,
                frames: 1,
            },
        ],
        shown: &[Shown::Books(&[
            Ended {
                fault: Some(Stop::Refused),
                events: 0,
            },
            Ended {
                fault: Some(Stop::Refused),
                events: 1,
            },
        ])],
        ..TWO_NODES
    },
];

#[test]
fn a_strange_frame_stops_all_and_ends_the_pump(rt: HostRuntime) {
    play_sites(&rt, STRANGE);
}

const AT_THE_LAST_CLOCK: &[Row] = &[Row {
    words: "a frame at the last clock",
    steps: &[
        Sends {
            clock: LAST_CLOCK,
            from: 1,
            to: 2,
        },
        ClosesPost,
        Pumps(2),
    ],
    shown: &[Shown::Books(&[
        Ended {
            fault: Some(Stop::Clock),
            events: 0,
        },
        Ended {
            fault: Some(Stop::Clock),
            events: 0,
        },
    ])],
    ..TWO_NODES
}];

#[test]
fn a_frame_at_the_last_clock_stops_all(rt: HostRuntime) {
    play_sites(&rt, AT_THE_LAST_CLOCK);
}

const STOPPED_NODE: &[Row] = &[Row {
    words: "a pump of a stopped node",
    steps: &[
        Stops(2, Stop::Gate),
        Sends {
            clock: 1,
            from: 1,
            to: 2,
        },
        Sends {
            clock: 1,
            from: 1,
            to: 2,
        },
        // The post is open, so it ended at a frame.
        Pumps(2),
    ],
    shown: &[Shown::Books(&[
        Ended {
            fault: None,
            events: 0,
        },
        Ended {
            fault: Some(Stop::Gate),
            events: 0,
        },
    ])],
    ..TWO_NODES
}];

#[test]
fn the_pump_of_a_stopped_node_stops_no_other(rt: HostRuntime) {
    play_sites(&rt, STOPPED_NODE);
}

const NOBODY_ASKS: &[Row] = &[
    Row {
        words: "a closed gate stops all",
        most: 0,
        steps: &[
            RefusesToLock(1, 1, GATE),
            HasStepped(1),
            ClosesPost,
            HasLeft {
                place: 1,
                node: 2,
                frames: 0,
            },
        ],
        shown: &[Shown::Books(&[
            Ended {
                fault: Some(Stop::Gate),
                events: 0,
            },
            Ended {
                fault: Some(Stop::Gate),
                events: 0,
            },
        ])],
        ..TWO_NODES
    },
    Row {
        words: "a node that was stopped before keeps its fault, and answers it",
        most: 0,
        steps: &[
            Stops(1, Stop::Send),
            RefusesToLock(1, 1, SEND),
            HasStepped(1),
            ClosesPost,
            HasLeft {
                place: 1,
                node: 2,
                frames: 0,
            },
        ],
        shown: &[Shown::Books(&[
            Ended {
                fault: Some(Stop::Send),
                events: 0,
            },
            Ended {
                fault: Some(Stop::Gate),
                events: 0,
            },
        ])],
        ..TWO_NODES
    },
];

#[test]
fn a_closed_gate_lets_nobody_ask(rt: HostRuntime) {
    play_sites(&rt, NOBODY_ASKS);
}

const NOBODY_LEAVES: &[Row] = &[Row {
    words: "the gate lets one step pass, so the client is not let out",
    nodes: 1,
    most: 1,
    steps: &[Locks(1), RefusesToUnlock(1, 1, GATE), HasStepped(2)],
    shown: &[
        Shown::Books(&[Ended {
            fault: Some(Stop::Gate),
            events: 1,
        }]),
        Shown::Held,
    ],
    ..TWO_NODES
}];

#[test]
fn a_closed_gate_lets_nobody_leave(rt: HostRuntime) {
    play_sites(&rt, NOBODY_LEAVES);
}

const NO_FRAME: &[Row] = &[
    Row {
        words: "a closed gate ends the pump at the first frame",
        most: 0,
        steps: &[
            Sends {
                clock: 1,
                from: 1,
                to: 2,
            },
            Sends {
                clock: 1,
                from: 1,
                to: 2,
            },
            // The post is open, so it ended at a frame, and it asked the gate about no other.
            Pumps(2),
            HasStepped(1),
        ],
        shown: &[Shown::Books(&[
            Ended {
                fault: Some(Stop::Gate),
                events: 0,
            },
            Ended {
                fault: Some(Stop::Gate),
                events: 0,
            },
        ])],
        ..TWO_NODES
    },
    Row {
        words: "of frames that come together it is asked about each, and those before the refused one are answered",
        most: 1,
        steps: &[
            Sends {
                clock: 1,
                from: 1,
                to: 2,
            },
            Sends {
                clock: 1,
                from: 1,
                to: 2,
            },
            Sends {
                clock: 1,
                from: 1,
                to: 2,
            },
            Pumps(2),
            HasStepped(2),
            ClosesPost,
            HasLeft {
                place: 0,
                node: 1,
                frames: 1,
            },
        ],
        shown: &[Shown::Books(&[
            Ended {
                fault: Some(Stop::Gate),
                events: 0,
            },
            Ended {
                fault: Some(Stop::Gate),
                events: 1,
            },
        ])],
        ..TWO_NODES
    },
];

#[test]
fn a_closed_gate_lets_no_frame_in_and_ends_the_pump(rt: HostRuntime) {
    play_sites(&rt, NO_FRAME);
}

const NO_NUMBER: &[Row] = &[Row {
    words: "no number is left",
    start: u64::MAX,
    steps: &[RefusesToLock(1, 1, SiteError::Refused(BookError::Exhausted))],
    shown: BOTH_RUN,
    ..TWO_NODES
}];

#[test]
fn a_name_with_no_number_left_is_refused(rt: HostRuntime) {
    play_sites(&rt, NO_NUMBER);
}

/// What a site refuses, and the word of it: those that wrap another print the word within.
const SITE_ERRORS: &[(SiteError, &str)] = &[
    (SiteError::Refused(BookError::Busy), "Busy"),
    (
        SiteError::Refused(BookError::Frame(FrameError::Trailing)),
        "Trailing",
    ),
    (SiteError::Stopped(Stop::Gate), "Gate"),
];

#[test]
fn what_posts_and_sites_refuse_is_printed_as_its_word(rt: HostRuntime) {
    assert_prints!(&rt, SITE_ERRORS);
    assert_words!(&rt; NewPostError: BadCount Memory; SendError: Closed Refused);
}

//! Rounds of the audit of a cluster: what they take, what they answer, and what is left in the books.
use crate::audit_tests::audit_acts::Act::{
    Asks, Audits, AuditsAnew, Comes, Ends, Enters, HasAt, HasLosses, IsRefused, Leaves, Loses,
    Shows, Stops, Waits,
};
use crate::audit_tests::audit_acts::Answer::{
    Finds, Fine, LostUnsent, NeverSent, NotAudited, NotLost, OtherCluster, OutOfTurn,
};
use crate::audit_tests::audit_acts::{
    LOSING, LOST, Made, OF_ONE, OF_TWO, ONE_NODE, Row, Sends, TWO_NODES, play_audits,
};
use crate::audit_tests::audited_clusters::Ended;
use crate::audit_tests::audits::{Came, Shown};
use crate::kept_books::book_steps::Wire;
use ra_cluster::{BookError, Stop};
use ra_stamp::Mode;

/// The last clock.
const LAST_CLOCK: u64 = 1 << 62;

/// The book of a node before any round took anything from it.
const WHOLE: Ended = Ended {
    fault: None,
    events: 2,
};

/// A cluster of three nodes, and its auditor.
const THREE_NODES: Made = Made {
    nodes: 3,
    auditor: (3, 0),
    ..TWO_NODES
};

/// The REQUEST with clock 1 comes to node 2 first.
const FIRST: Came = Came {
    node: 2,
    clock: 2,
    sent_at: 1,
    message: Wire::Asks,
};

/// That REQUEST is the first frame that node 1 sends.
const REQUEST: Sends = Sends {
    clock: 1,
    message: "deliver request 1 2 r X 1",
};

/// The same frame comes to it again.
const SECOND: Came = Came {
    node: 2,
    clock: 3,
    sent_at: 1,
    message: Wire::Asks,
};

/// The REQUEST with clock 100, which is ahead of node 1's clock.
const TOO_EARLY: Sends = Sends {
    clock: 100,
    message: "deliver request 1 2 r X 1",
};

/// It comes to node 2 first.
const AHEAD: Came = Came {
    node: 2,
    clock: 101,
    sent_at: 100,
    message: Wire::Asks,
};

/// A REQUEST of node 2, with a clock after that.
const LATER: Sends = Sends {
    clock: 102,
    message: "deliver request 2 1 r X 1",
};

/// The REQUEST with the last clock but one.
const LAST: Sends = Sends {
    clock: LAST_CLOCK - 1,
    message: "deliver request 1 2 r X 1",
};

/// Frames that come to nodes.
const FRAMES: &[Row] = &[
    Row {
        words: "a frame waits for the event that sends it",
        acts: &[
            Comes(REQUEST),
            Audits(Fine),
            Waits(1),
            Shows(Shown {
                steps: 0,
                requests: 0,
                sent: 0,
                under_way: 0,
                marks: 0,
            }),
            Asks(1, Mode::Exclusive),
            // It is flagged lost, and came.
            Audits(NotLost(REQUEST)),
            Waits(0),
            Shows(Shown {
                steps: 2,
                requests: 1,
                sent: 2,
                under_way: 1,
                marks: 0,
            }),
            Ends(NotLost(REQUEST)),
        ],
        ..LOSING
    },
    Row {
        words: "an event with its clock sends another frame",
        acts: &[
            Comes(REQUEST),
            Asks(1, Mode::Shared),
            Audits(Finds(FIRST)),
            Audits(Finds(FIRST)),
            Ends(Finds(FIRST)),
            Shows(Shown {
                steps: 1,
                requests: 1,
                sent: 1,
                under_way: 1,
                marks: 0,
            }),
        ],
        ..LOSING
    },
    Row {
        words: "a frame comes twice",
        acts: &[
            Comes(REQUEST),
            Comes(REQUEST),
            Asks(1, Mode::Exclusive),
            Audits(Finds(SECOND)),
            Ends(Finds(SECOND)),
            Shows(Shown {
                steps: 2,
                requests: 1,
                sent: 2,
                under_way: 1,
                marks: 0,
            }),
        ],
        ..LOSING
    },
    Row {
        words: "its clock is ahead of its sender's, which has no event",
        acts: &[
            Comes(TOO_EARLY),
            Audits(Fine),
            Audits(Finds(AHEAD)),
            Audits(Finds(AHEAD)),
            Ends(Finds(AHEAD)),
        ],
        ..OF_TWO
    },
    Row {
        words: "its clock is ahead of its sender's, which has an event in the run",
        acts: &[
            Comes(TOO_EARLY),
            Asks(1, Mode::Exclusive),
            Audits(Fine),
            // The ask, and the loss of its REQUEST.
            Shows(Shown {
                steps: 2,
                requests: 1,
                sent: 1,
                under_way: 0,
                marks: 0,
            }),
            Audits(Finds(AHEAD)),
        ],
        ..LOSING
    },
    Row {
        words: "its sender comes beyond its clock by a frame that waits for it",
        acts: &[
            Comes(TOO_EARLY),
            Comes(LATER),
            Asks(2, Mode::Exclusive),
            Audits(Finds(AHEAD)),
            Ends(Finds(AHEAD)),
            Waits(3),
            Shows(Shown {
                steps: 0,
                requests: 0,
                sent: 0,
                under_way: 0,
                marks: 0,
            }),
        ],
        ..LOSING
    },
    Row {
        words: "a frame comes just before the end",
        acts: &[
            Audits(Fine),
            Comes(TOO_EARLY),
            Ends(NeverSent(AHEAD)),
            Ends(Finds(AHEAD)),
        ],
        ..OF_TWO
    },
];

#[test]
fn rounds_find_frames_that_no_node_sent(rt: HostRuntime) {
    play_audits(&rt, FRAMES);
}

/// The REQUEST with clock 7 of node 1, which sends no such frame.
const UNSENT: Sends = Sends {
    clock: 7,
    message: "deliver request 1 2 r X 1",
};

/// The REQUEST with clock 1 of node 3, which was sent twice.
const OF_NOBODY: Sends = Sends {
    clock: 1,
    message: "deliver request 3 1 r X 1",
};

/// Frames that are lost.
const LOSSES: &[Row] = &[
    Row {
        words: "a lost frame is lost in the run once, whatever rounds come",
        acts: &[
            Audits(Fine),
            HasLosses(0, 0),
            Asks(1, Mode::Exclusive),
            Audits(Fine),
            HasLosses(1, 0),
            Shows(Shown {
                steps: 2,
                requests: 1,
                sent: 1,
                under_way: 0,
                marks: 0,
            }),
            Audits(Fine),
            Ends(Fine),
            HasLosses(1, 0),
            Shows(Shown {
                steps: 2,
                requests: 1,
                sent: 1,
                under_way: 0,
                marks: 0,
            }),
        ],
        ..LOSING
    },
    Row {
        words: "two frames of one event are lost",
        made: THREE_NODES,
        acts: &[
            Asks(3, Mode::Exclusive),
            Audits(Fine),
            HasLosses(2, 0),
            Shows(Shown {
                steps: 3,
                requests: 1,
                sent: 2,
                under_way: 0,
                marks: 0,
            }),
        ],
        ended: &[LOST, LOST, LOST],
        ..LOSING
    },
    Row {
        words: "the end of the audit puts a loss",
        acts: &[
            Asks(1, Mode::Exclusive),
            Ends(Fine),
            HasLosses(1, 0),
            Shows(Shown {
                steps: 2,
                requests: 1,
                sent: 1,
                under_way: 0,
                marks: 0,
            }),
        ],
        ..LOSING
    },
    Row {
        words: "the end of the audit finds that a lost frame came",
        acts: &[
            Comes(REQUEST),
            Asks(1, Mode::Exclusive),
            Ends(NotLost(REQUEST)),
            HasLosses(0, 1),
            Audits(NotLost(REQUEST)),
            HasLosses(0, 1),
        ],
        ..LOSING
    },
    Row {
        words: "a loss waits if an event does not fit",
        acts: &[
            Comes(REQUEST),
            Asks(1, Mode::Shared),
            Audits(Finds(FIRST)),
            HasLosses(0, 1),
            Audits(Finds(FIRST)),
            HasLosses(0, 1),
        ],
        ..LOSING
    },
    Row {
        words: "a frame that a node hands over was noted before",
        acts: &[
            Loses(REQUEST),
            Audits(Fine),
            HasLosses(0, 1),
            Asks(1, Mode::Exclusive),
            Audits(NotLost(REQUEST)),
            HasLosses(1, 1),
            Shows(Shown {
                steps: 2,
                requests: 1,
                sent: 1,
                under_way: 0,
                marks: 0,
            }),
        ],
        ..LOSING
    },
    Row {
        words: "a lost frame was never sent",
        acts: &[
            Loses(UNSENT),
            Asks(1, Mode::Exclusive),
            Audits(Fine),
            HasLosses(1, 1),
            Ends(LostUnsent(UNSENT)),
            HasLosses(1, 1),
        ],
        ..LOSING
    },
    Row {
        words: "a lost frame is of no node",
        acts: &[
            Loses(OF_NOBODY),
            Audits(NotLost(OF_NOBODY)),
            HasLosses(0, 1),
            Ends(NotLost(OF_NOBODY)),
        ],
        ..OF_TWO
    },
    Row {
        words: "an auditor that is out of turn takes no loss",
        acts: &[
            Comes(REQUEST),
            Audits(Fine),
            Asks(2, Mode::Exclusive),
            AuditsAnew(OutOfTurn(2)),
            Audits(Finds(FIRST)),
            HasLosses(0, 1),
        ],
        ..LOSING
    },
];

#[test]
fn rounds_put_the_losses_that_nodes_hand_over(rt: HostRuntime) {
    play_audits(&rt, LOSSES);
}

/// Auditors that a cluster may have or not.
const AUDITORS: &[Row] = &[
    Row {
        words: "the cluster is not audited",
        made: Made {
            is_audited: false,
            ..ONE_NODE
        },
        acts: &[
            Enters(1),
            Leaves(1),
            Audits(NotAudited),
            Ends(NotAudited),
            Shows(Shown {
                steps: 0,
                requests: 0,
                sent: 0,
                under_way: 0,
                marks: 0,
            }),
        ],
        ended: &[WHOLE],
        ..LOSING
    },
    Row {
        words: "the auditor has more nodes",
        made: Made {
            auditor: (2, 0),
            ..ONE_NODE
        },
        acts: &[
            Enters(1),
            Leaves(1),
            Audits(OtherCluster),
            Ends(OtherCluster),
            HasAt {
                node: 1,
                clock: 2,
                events: 2,
            },
            AuditsAnew(Fine),
            HasAt {
                node: 1,
                clock: 2,
                events: 0,
            },
        ],
        ..OF_ONE
    },
    Row {
        words: "the auditor has fewer nodes",
        made: Made {
            auditor: (1, 0),
            ..TWO_NODES
        },
        acts: &[Audits(OtherCluster), Ends(OtherCluster), AuditsAnew(Fine)],
        ..OF_TWO
    },
    Row {
        words: "the auditor has another start",
        made: Made {
            auditor: (1, 1),
            ..ONE_NODE
        },
        acts: &[
            Enters(1),
            Leaves(1),
            Audits(OtherCluster),
            Ends(OtherCluster),
        ],
        ended: &[WHOLE],
        ..LOSING
    },
    Row {
        words: "a new auditor has not taken what the first one took",
        acts: &[
            Enters(1),
            Leaves(1),
            Audits(Fine),
            AuditsAnew(OutOfTurn(1)),
            Enters(1),
            Leaves(1),
            AuditsAnew(OutOfTurn(1)),
            HasAt {
                node: 1,
                clock: 4,
                events: 2,
            },
            Ends(Fine),
            Shows(Shown {
                steps: 4,
                requests: 2,
                sent: 0,
                under_way: 0,
                marks: 0,
            }),
        ],
        ..OF_ONE
    },
];

#[test]
fn a_round_has_the_auditor_of_the_round_before(rt: HostRuntime) {
    play_audits(&rt, AUDITORS);
}

/// What the sites and the books of an audited cluster show.
const BOOKS: &[Row] = &[
    Row {
        words: "a watchdog sees the clock rise, and the events leave",
        acts: &[
            HasAt {
                node: 1,
                clock: 0,
                events: 0,
            },
            Audits(Fine),
            HasAt {
                node: 1,
                clock: 0,
                events: 0,
            },
            Enters(1),
            HasAt {
                node: 1,
                clock: 1,
                events: 1,
            },
            Audits(Fine),
            HasAt {
                node: 1,
                clock: 1,
                events: 0,
            },
            Leaves(1),
            HasAt {
                node: 1,
                clock: 2,
                events: 1,
            },
            Audits(Fine),
            HasAt {
                node: 1,
                clock: 2,
                events: 0,
            },
            Shows(Shown {
                steps: 2,
                requests: 1,
                sent: 0,
                under_way: 0,
                marks: 0,
            }),
        ],
        ..OF_ONE
    },
    Row {
        words: "a book keeps its cause, and a round goes on after a stop",
        acts: &[
            Enters(1),
            Leaves(1),
            Stops(Stop::Gate),
            Audits(Fine),
            Shows(Shown {
                steps: 2,
                requests: 1,
                sent: 0,
                under_way: 0,
                marks: 0,
            }),
            Ends(Fine),
        ],
        ended: &[Ended {
            fault: Some(Stop::Gate),
            events: 0,
        }],
        ..OF_ONE
    },
    Row {
        words: "a lock is refused, since no clock is left for it",
        acts: &[
            Comes(LAST),
            HasAt {
                node: 2,
                clock: LAST_CLOCK,
                events: 1,
            },
            IsRefused(2, BookError::ClockFull),
            HasAt {
                node: 2,
                clock: LAST_CLOCK,
                events: 1,
            },
        ],
        ended: &[
            Ended {
                fault: None,
                events: 0,
            },
            Ended {
                fault: None,
                events: 1,
            },
        ],
        ..OF_TWO
    },
    Row {
        words: "without a round the books are whole",
        acts: &[Enters(1), Leaves(1)],
        ended: &[WHOLE],
        ..OF_ONE
    },
];

#[test]
fn rounds_take_the_events_out_of_the_books(rt: HostRuntime) {
    play_audits(&rt, BOOKS);
}

/// Clients of two nodes lock and unlock the name in turn, with a round after each. All that happened is in the run at
/// the end, and left the books: two locks, with an ask, a REQUEST, a REPLY and a leave each.
const RUNNING: &[Row] = &[Row {
    words: "locks in turn, on the threads of a cluster",
    running: &[
        Enters(1),
        Leaves(1),
        Audits(Fine),
        Enters(2),
        Leaves(2),
        Audits(Fine),
    ],
    acts: &[
        Ends(Fine),
        Shows(Shown {
            steps: 8,
            requests: 2,
            sent: 4,
            under_way: 0,
            marks: 0,
        }),
    ],
    ..OF_TWO
}];

#[test]
fn rounds_take_all_that_happens_on_the_threads_of_a_cluster(rt: HostRuntime) {
    play_audits(&rt, RUNNING);
}

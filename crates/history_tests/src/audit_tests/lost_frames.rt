//! The frames that an audited cluster loses are handed over, each once, whatever its rounds took before. Rounds of an
//! auditor put them into the run.
use crate::audit_tests::audit_acts::Act::{
    Asks, Audits, Ends, Enters, HandsOver, HasLosses, Leaves, Shows,
};
use crate::audit_tests::audit_acts::Answer::Fine;
use crate::audit_tests::audit_acts::{LOSING, Row, Sends, play_audits};
use crate::audit_tests::audits::Shown;
use ra_stamp::Mode;

/// The REQUEST with number 2 of node 1.
const SECOND: Sends = Sends {
    clock: 5,
    message: "deliver request 1 2 r X 2",
};

/// Client 1 of node 1 locks the name and unlocks it, and asks again in vain. Each node hands over what happened: first
/// all of it, then what came after that, and then nothing more.
const HANDED_OVER: &[Row] = &[Row {
    words: "a loss is handed over once after rounds",
    running: &[
        Enters(1),
        Leaves(1),
        // The ask, the REPLY and the leave, which has clock 4; and the REQUEST.
        HandsOver {
            node: 1,
            after: 0,
            clock: 4,
            lost: None,
        },
        HandsOver {
            node: 2,
            after: 0,
            clock: 2,
            lost: None,
        },
        Asks(1, Mode::Exclusive),
        HandsOver {
            node: 1,
            after: 4,
            clock: 5,
            lost: Some(SECOND),
        },
        HandsOver {
            node: 2,
            after: 2,
            clock: 2,
            lost: None,
        },
    ],
    acts: &[
        HandsOver {
            node: 1,
            after: 5,
            clock: 5,
            lost: None,
        },
        HandsOver {
            node: 2,
            after: 2,
            clock: 2,
            lost: None,
        },
    ],
    ..LOSING
}];

#[test]
fn a_loss_is_handed_over_once_after_rounds(rt: HostRuntime) {
    play_audits(&rt, HANDED_OVER);
}

/// Client 1 of node 1 does the same, with rounds of an auditor. The run has all: an ask, a REQUEST, a REPLY and a
/// leave, and then an ask and the loss of its REQUEST.
const AUDITED: &[Row] = &[Row {
    words: "a loss is put into the run by rounds",
    running: &[
        Enters(1),
        Leaves(1),
        Audits(Fine),
        HasLosses(0, 0),
        Asks(1, Mode::Exclusive),
        Audits(Fine),
    ],
    acts: &[
        Ends(Fine),
        HasLosses(1, 0),
        Shows(Shown {
            steps: 6,
            requests: 2,
            sent: 3,
            under_way: 0,
            marks: 0,
        }),
    ],
    ..LOSING
}];

#[test]
fn a_loss_is_put_into_the_run_by_rounds_of_a_running_cluster(rt: HostRuntime) {
    play_audits(&rt, AUDITED);
}

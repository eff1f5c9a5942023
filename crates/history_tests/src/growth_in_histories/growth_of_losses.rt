//! Each growth is refused in audited clusters that lose frames. A loss needs no memory to be flagged, and is handed
//! over once. A round of an auditor notes it once, whichever memory it is refused.
use crate::audit_tests::audit_acts::Act::{Asks, Audits, Ends, HandsOver, HasLosses, Shows};
use crate::audit_tests::audit_acts::Answer::Fine;
use crate::audit_tests::audit_acts::{Act, LOSING, Row, Sends, hand_over};
use crate::audit_tests::audited_clusters::{clusters_of, refusal_of_lock, refusal_of_unlock, site};
use crate::audit_tests::audits::Shown;
use crate::growth_in_histories::growth_of_rounds::grow;
use crate::kept_books::history_asserting::assert_same;
use ra_cluster::{Cluster, OpenGate, Stop};
use ra_stamp::{Memory, Message, Mode};
use std::alloc::Global;
use std::process::Abort;
use std::sync::Wait;
use std::thread::Threads;
use test_support::{At, Tried, again, assert_grown, both, part, reply, request, row};

/// What two nodes handed over so far: how the calls ended, the clock of the last event of node 1 and of node 2, 0
/// before the first, and how many frames were lost.
#[derive(Clone, Copy)]
struct Rounds {
    tried: Tried,
    clocks: (u64, u64),
    lost: usize,
}

/// No round was made.
const NO_ROUND: Rounds = Rounds {
    tried: Tried::NoFailure,
    clocks: (0, 0),
    lost: 0,
};

/// Returns the message that is sent at this clock if a client of node 1 locks the name: its REQUEST, or the REPLY of
/// node 2.
fn sent_at(clock: u64) -> Option<Message> {
    match clock {
        1 => Some(request(1, 2, 1)),
        2 => Some(reply(2, 1, 1)),
        _ => None,
    }
}

/// Has a node hand over what came after an event with this clock. At most one frame of an event is lost, and it was
/// sent.
fn node_after<R: AllocGlobal + Wait + Abort>(
    rt: &R,
    cluster: &Cluster<OpenGate>,
    number: u16,
    clock: u64,
) -> (Tried, u64, usize) {
    let at = At(
        "a client uses the name",
        "the round of node",
        usize::from(number),
    );
    let (tried, (latest, lost, first)) = hand_over(rt, at, cluster, number, clock);
    if let Some(frame) = first {
        let came = (lost, Some(frame.message));
        assert_same(rt, at, &came, &(1, sent_at(frame.clock)));
    }
    (tried, latest, lost)
}

/// Has both nodes hand over what came after these rounds.
fn round_after<R: AllocGlobal + Wait + Abort>(
    rt: &R,
    cluster: &Cluster<OpenGate>,
    before: Rounds,
) -> Rounds {
    let one = node_after(rt, cluster, 1, before.clocks.0);
    let two = node_after(rt, cluster, 2, before.clocks.1);
    Rounds {
        tried: both(before.tried, both(one.0, two.0)),
        clocks: (one.1, two.1),
        lost: before.lost.wrapping_add(one.2).wrapping_add(two.2),
    }
}

/// Has client 1 of node 1 lock the name and unlock it. A round shows how that ended.
fn use_once<R: Wait + Abort>(rt: &R, alloc: Global, cluster: &Cluster<OpenGate>) {
    if refusal_of_lock(rt, alloc, cluster, 1, Mode::Exclusive).is_none() {
        let _unlocked = refusal_of_unlock(rt, alloc, cluster, 1).is_none();
    }
}

/// Has the client do so, and makes a round.
fn use_in_a_round<R: AllocGlobal + Wait + Abort>(rt: &R, cluster: &Cluster<OpenGate>) -> Rounds {
    use_once(rt, rt.alloc(), cluster);
    round_after(rt, cluster, NO_ROUND)
}

/// Returns how the rounds ended. In a cluster that was stopped since a frame could not be sent, one frame was
/// handed over as lost. In one that was stopped for another cause, it may be that the closed post did not take a frame
/// after that; in any other one, none is lost. If the client did not lock and unlock the name, memory ran out.
fn judge(rt: &impl Abort, fault: Option<Stop>, rounds: Rounds) -> Result<Tried, Memory> {
    let label = "a cluster that may be stopped";
    let (lost, clock) = (part(label, "lost frames"), part(label, "clock of node 1"));
    match fault {
        None => {
            assert_same(rt, lost, &rounds.lost, &0);
            // The client was refused.
            if rounds.clocks.0 == 0 {
                return Err(Memory);
            }
            assert_same(rt, clock, &rounds.clocks.0, &4);
            return Ok(rounds.tried);
        }
        Some(Stop::Send) => assert_same(rt, lost, &rounds.lost, &1),
        Some(Stop::Memory) | Some(Stop::Spawn) => {
            assert_same(rt, lost, &rounds.lost, &rounds.lost.min(1));
        }
        Some(other) => assert_same(rt, row(label), &Some(other), &None),
    }
    Err(Memory)
}

/// Has the client use the name while the threads of the nodes run, with a round, and makes another one after they have
/// ended.
fn try_cluster<R: AllocGlobal + Threads + Wait + Abort + Sync>(
    rt: &R,
    cluster: &Cluster<OpenGate>,
) -> Result<Tried, Memory> {
    let first = cluster.run(rt, rt.alloc(), || use_in_a_round(rt, cluster));
    let rounds = round_after(rt, cluster, first);
    judge(rt, site(rt, cluster, 1).fault(rt), rounds)
}

/// Makes the cluster, and does so. If it cannot be made, memory ran out.
fn try_running<R: AllocGlobal + Threads + Wait + Abort + Sync>(rt: &R) -> Result<Tried, Memory> {
    let clusters = clusters_of(rt.alloc(), 2, true);
    match clusters.first() {
        Some(cluster) => try_cluster(rt, cluster),
        None => Err(Memory),
    }
}

/// If there is no memory for a frame, the frame is handed over as lost.
#[test]
fn growth_of_lost_frames_that_are_audited(rt: HostRuntime) {
    assert_grown!(&rt, again(try_running(&rt), try_running(&rt)));
}

/// The client asks in vain. Its REQUEST is lost.
const ASKS: Act = Asks(1, Mode::Exclusive);

/// Two rounds. The first one has the loss.
const HANDED_OVER: &Row = &Row {
    words: "a loss is handed over once",
    acts: &[
        ASKS,
        HandsOver {
            node: 1,
            after: 0,
            clock: 1,
            lost: Some(Sends {
                clock: 1,
                message: "deliver request 1 2 r X 1",
            }),
        },
        HandsOver {
            node: 2,
            after: 0,
            clock: 0,
            lost: None,
        },
        HandsOver {
            node: 1,
            after: 1,
            clock: 1,
            lost: None,
        },
        HandsOver {
            node: 2,
            after: 0,
            clock: 0,
            lost: None,
        },
    ],
    ..LOSING
};

/// A loss that is not handed over for lack of memory is handed over when that is tried again.
#[test]
fn growth_of_losses_that_are_handed_over(rt: HostRuntime) {
    grow(&rt, HANDED_OVER);
}

/// A round, and the end of the audit. Then the ask and the loss are in the run.
const AUDITED: &Row = &Row {
    words: "a loss is put once",
    acts: &[
        ASKS,
        Audits(Fine),
        Ends(Fine),
        HasLosses(1, 0),
        Shows(Shown {
            steps: 2,
            requests: 1,
            sent: 1,
            under_way: 0,
            marks: 0,
        }),
    ],
    ..LOSING
};

/// A loss that is not noted or put for lack of memory is put once, when the round is made again.
#[test]
fn growth_of_losses_in_rounds(rt: HostRuntime) {
    grow(&rt, AUDITED);
}

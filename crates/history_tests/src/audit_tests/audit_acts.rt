//! What a cluster, its clients and its auditor do and show, act by act. A trace cannot tell it: frames come that no
//! node sent, rounds are made at any time and may be refused, and a call that finds no memory is made again. Messages
//! are lines of a trace.
use crate::audit_tests::audited_clusters::{
    Ended, assert_ended, closed, clusters_of, comes, refusal_of_lock, refusal_of_unlock, site,
};
use crate::audit_tests::audits::{Came, Shown, assert_losses, fault_of, loses};
use crate::kept_books::history_asserting::{assert_same, fail_at};
use crate::kept_books::history_values::{message_of, node};
use Act::{
    Asks, Audits, AuditsAnew, Comes, Ends, Enters, HandsOver, HasAt, HasLosses, IsRefused, Leaves,
    Loses, Shows, Stops, Waits,
};
use Answer::{Finds, Fine, LostUnsent, NeverSent, NotAudited, NotLost, OtherCluster, OutOfTurn};
use Mode::Exclusive;
use ra_audit::{Auditor, FinishError, RoundError, TakeError, Told};
use ra_cluster::{BookError, CallError, Cluster, Handed, OpenGate, Site, SiteError, Stop};
use ra_frame::Frame;
use ra_stamp::{Memory, Mode};
use ra_world::NewError;
use std::alloc::Global;
use std::process::Abort;
use std::sync::Wait;
use std::sync::atomic::{AtomicU64, Ordering};
use std::thread;
use std::thread::Threads;
use test_support::{At, Tried, assert_memory, both, row as row_at};

/// The answer of a call that found no memory and did nothing.
const WANTING: SiteError = SiteError::Refused(BookError::Memory);

/// A frame.
#[derive(Clone, Copy)]
pub struct Sends {
    pub clock: u64,
    /// A line of a trace that delivers its message.
    pub message: &'static str,
}

/// What a round answers, or the end of an audit.
#[derive(Clone, Copy)]
pub enum Answer {
    /// `Ok`.
    Fine,
    /// This event does not fit.
    Finds(Came),
    /// The frame of this event was never sent, which the end of an audit says.
    NeverSent(Came),
    /// The cluster is not audited.
    NotAudited,
    /// The auditor is not one of this cluster.
    OtherCluster,
    /// The events of this node are out of turn.
    OutOfTurn(u16),
    /// This frame was not lost.
    NotLost(Sends),
    /// This frame is noted as lost and was never sent, which the end of an audit says.
    LostUnsent(Sends),
}

/// What a cluster, its clients and its auditor do or show. All is about the name `r`. A call that finds no memory has
/// to leave all as it was, and is made again.
#[derive(Clone, Copy)]
pub enum Act {
    /// Client 1 of this node locks the name.
    Enters(u16),
    /// Client 1 of this node unlocks it, which needs no memory.
    Leaves(u16),
    /// The post is closed, and client 1 of this node asks in this mode. Its REQUESTs are lost, which stops all nodes.
    Asks(u16, Mode),
    /// Client 1 of this node asks for the name, and is refused for this cause.
    IsRefused(u16, BookError),
    /// This frame comes, as if its sender had sent it.
    Comes(Sends),
    /// The site of this node hands over what came after an event with the clock `after`: its last event has this clock,
    /// and this frame was lost, or none.
    HandsOver {
        node: u16,
        after: u64,
        clock: u64,
        lost: Option<Sends>,
    },
    /// A round answers this.
    Audits(Answer),
    /// A round with a new auditor answers this.
    AuditsAnew(Answer),
    /// The end of the audit answers this.
    Ends(Answer),
    /// The auditor has this run; marks are not counted.
    Shows(Shown),
    /// This many events wait to be put into the run.
    Waits(u128),
    /// The site of this node shows this clock, and this many events.
    HasAt {
        node: u16,
        clock: u64,
        events: u64,
    },
    /// All nodes are stopped for this cause.
    Stops(Stop),
    /// This frame is noted as lost.
    Loses(Sends),
    /// How many losses are in the run, and how many wait.
    HasLosses(u64, usize),
}

/// The cluster that an auditor is made for: its number of nodes, whether it is audited, and the number of nodes and the
/// start that the auditor takes it to have.
#[derive(Clone, Copy)]
pub struct Made {
    /// How many nodes the cluster has.
    pub nodes: u16,
    /// Whether it is audited.
    pub is_audited: bool,
    /// How many nodes the auditor takes it to have, and which start.
    pub auditor: (u16, u64),
}

/// A cluster of one node, and its auditor.
pub const ONE_NODE: Made = Made {
    nodes: 1,
    is_audited: true,
    auditor: (1, 0),
};

/// A cluster of two nodes, and its auditor.
pub const TWO_NODES: Made = Made {
    nodes: 2,
    is_audited: true,
    auditor: (2, 0),
};

/// The book of a node after a round took all its events. The node is stopped since a frame was lost.
pub const LOST: Ended = Ended {
    fault: Some(Stop::Send),
    events: 0,
};

/// The book of a node after a round took all its events. The node was not stopped before it was closed.
pub const TAKEN: Ended = Ended {
    fault: Some(Stop::Refused),
    events: 0,
};

/// What is done with a cluster and its auditor, in a few words, and how its books end.
pub struct Row {
    /// The words.
    pub words: &'static str,
    /// The cluster and its auditor.
    pub made: Made,
    /// What is done and shown while the threads of the nodes run, which they do only if there is something to do.
    pub running: &'static [Act],
    /// What is done and shown then, in order.
    pub acts: &'static [Act],
    /// How the books end.
    pub ended: &'static [Ended],
}

/// What is done with a cluster of two nodes that loses frames.
pub const LOSING: Row = Row {
    words: "",
    made: TWO_NODES,
    running: &[],
    acts: &[],
    ended: &[LOST, LOST],
};

/// What is done with a cluster of two nodes that is not stopped.
pub const OF_TWO: Row = Row {
    ended: &[TAKEN, TAKEN],
    ..LOSING
};

/// What is done with a cluster of one node that is not stopped.
pub const OF_ONE: Row = Row {
    made: ONE_NODE,
    ended: &[TAKEN],
    ..LOSING
};

/// Makes a round. Callers know its answer alone, so that their proofs are short. The end of an audit may answer the
/// same.
fn round<R: Wait>(
    rt: &R,
    alloc: Global,
    cluster: &Cluster<OpenGate>,
    auditor: &mut Auditor,
) -> Result<(), FinishError> {
    match auditor.audit(rt, alloc, cluster, &mut Told::new()) {
        Ok(()) => Ok(()),
        Err(refused) => Err(FinishError::Round(refused)),
    }
}

/// Ends an audit. Callers know its answer alone.
fn last_round<R: Wait>(
    rt: &R,
    alloc: Global,
    cluster: &mut Cluster<OpenGate>,
    auditor: &mut Auditor,
) -> Result<(), FinishError> {
    auditor.finish(rt, alloc, cluster, &mut Told::new())
}

/// Returns the frame.
fn frame_of(rt: &impl Abort, sends: Sends) -> Frame {
    let Sends {
        clock,
        message: line,
    } = sends;
    match message_of(line) {
        Some(message) => Frame { clock, message },
        None => panic!(rt; "{line:?} delivers no message"),
    }
}

/// Returns what a round is to answer.
fn due_of_round(rt: &impl Abort, answer: Answer) -> Result<(), RoundError> {
    let refusal = match answer {
        NotLost(sends) => RoundError::NotLost(frame_of(rt, sends)),
        Finds(came) => RoundError::Fault(fault_of(rt, came)),
        NotAudited => RoundError::NotAudited,
        OtherCluster => RoundError::OtherCluster,
        OutOfTurn(number) => RoundError::NotTaken {
            node: node(rt, number),
            cause: TakeError::OutOfTurn,
        },
        _ => return Ok(()),
    };
    Err(refusal)
}

/// Returns what a round or the end of an audit is to answer.
fn due(rt: &impl Abort, answer: Answer) -> Result<(), FinishError> {
    match answer {
        NeverSent(came) => Err(FinishError::NeverSent(fault_of(rt, came))),
        LostUnsent(sends) => Err(FinishError::LostUnsent(frame_of(rt, sends))),
        of_a_round => match due_of_round(rt, of_a_round) {
            Ok(()) => Ok(()),
            Err(refusal) => Err(FinishError::Round(refusal)),
        },
    }
}

/// Returns whether a round was refused since memory ran out.
fn is_of_memory(answer: Result<(), FinishError>) -> bool {
    match answer {
        Err(FinishError::Round(RoundError::Memory)) => true,
        Err(FinishError::Round(RoundError::NotTaken { node: _, cause })) => {
            cause == TakeError::Memory
        }
        _ => false,
    }
}

/// Asserts that a round answers this. If memory runs out, the next one does.
fn audits<R: AllocGlobal + Wait + Abort>(
    rt: &R,
    at: At<'_>,
    cluster: &Cluster<OpenGate>,
    auditor: &mut Auditor,
    answer: Answer,
) -> Tried {
    let mut tried = Tried::NoFailure;
    let mut came = round(rt, rt.alloc(), cluster, auditor);
    if is_of_memory(came) {
        tried = Tried::RetrySucceeded;
        came = round(rt, rt.alloc(), cluster, auditor);
    }
    assert_same(rt, at, &came, &due(rt, answer));
    tried
}

/// Asserts that the end of the audit answers this. If memory runs out, the next one does.
fn ends<R: AllocGlobal + Wait + Abort>(
    rt: &R,
    at: At<'_>,
    cluster: &mut Cluster<OpenGate>,
    auditor: &mut Auditor,
    answer: Answer,
) -> Tried {
    let mut tried = Tried::NoFailure;
    let mut came = last_round(rt, rt.alloc(), cluster, auditor);
    if is_of_memory(came) {
        tried = Tried::RetrySucceeded;
        came = last_round(rt, rt.alloc(), cluster, auditor);
    }
    assert_same(rt, at, &came, &due(rt, answer));
    tried
}

/// Asserts that a round with a new auditor answers this.
fn audits_anew<R: AllocGlobal + Wait + Abort>(
    rt: &R,
    at: At<'_>,
    cluster: &Cluster<OpenGate>,
    answer: Answer,
) -> Tried {
    match Auditor::new(rt.alloc(), cluster.nodes(), 0) {
        Ok(mut other) => audits(rt, at, cluster, &mut other, answer),
        Err(_) => fail_at(rt, at, "there is no memory for the auditor"),
    }
}

/// Asserts that client 1 of a node locks the name, or does not, for this reason. If memory runs out, it tries again.
fn locks<R: AllocGlobal + Wait + Abort>(
    rt: &R,
    at: At<'_>,
    cluster: &Cluster<OpenGate>,
    number: u16,
    mode: Mode,
    due: Option<SiteError>,
) -> Tried {
    let mut tried = Tried::NoFailure;
    let mut came = refusal_of_lock(rt, rt.alloc(), cluster, number, mode);
    if came == Some(CallError::Site(WANTING)) {
        tried = Tried::RetrySucceeded;
        came = refusal_of_lock(rt, rt.alloc(), cluster, number, mode);
    }
    let due = match due {
        Some(refused) => Some(CallError::Site(refused)),
        None => None,
    };
    assert_same(rt, at, &came, &due);
    tried
}

/// The clock of the last event that was handed over, how many frames were lost, and the first of these.
pub type Given = (u64, usize, Option<Frame>);

/// Returns what was handed over.
fn given(handed: &Handed) -> Given {
    let clock = match handed.events.as_slice().last() {
        Some(event) => event.clock,
        None => handed.after,
    };
    let lost = handed.lost.as_slice();
    (clock, lost.len(), lost.first().copied())
}

/// Has the site of a node hand over what came after an event with this clock.
fn take<R: Wait>(rt: &R, alloc: Global, site: &Site, clock: u64) -> Result<Given, TakeError> {
    match site.hand_over(rt, alloc, clock) {
        Ok(handed) => Ok(given(&handed)),
        Err(refused) => Err(refused),
    }
}

/// Has the site of a node hand over what came after an event with this clock, and does it again if memory ran out.
/// Returns how that ended, too.
pub fn hand_over<R: AllocGlobal + Wait + Abort>(
    rt: &R,
    at: At<'_>,
    cluster: &Cluster<OpenGate>,
    number: u16,
    clock: u64,
) -> (Tried, Given) {
    let (site, mut tried) = (site(rt, cluster, number), Tried::NoFailure);
    let mut came = take(rt, rt.alloc(), site, clock);
    if came == Err(TakeError::Memory) {
        tried = Tried::RetrySucceeded;
        came = take(rt, rt.alloc(), site, clock);
    }
    match came {
        Ok(given) => (tried, given),
        Err(_) => fail_at(rt, at, "nothing is handed over"),
    }
}

/// Asserts that the site of a node hands this over.
fn hands_over<R: AllocGlobal + Wait + Abort>(
    rt: &R,
    at: At<'_>,
    cluster: &Cluster<OpenGate>,
    number: u16,
    clock: u64,
    due: (u64, Option<Sends>),
) -> Tried {
    let (tried, came) = hand_over(rt, at, cluster, number, clock);
    let lost = match due.1 {
        Some(sends) => Some(frame_of(rt, sends)),
        None => None,
    };
    assert_same(rt, at, &came, &(due.0, usize::from(lost.is_some()), lost));
    tried
}

/// Asserts that the auditor has this run.
fn assert_run(rt: &impl Abort, at: At<'_>, auditor: &Auditor, shown: Shown) {
    let Shown {
        steps,
        requests,
        sent,
        under_way,
        ..
    } = shown;
    let run = (auditor.steps(), auditor.requests(), auditor.sent());
    assert_same(rt, at, &run, &(steps, requests, sent));
    assert_same(rt, at, &auditor.under_way(), &under_way);
}

/// Asserts that the site of a node shows this clock, and this many events.
fn assert_at_site<R: Wait + Abort>(
    rt: &R,
    at: At<'_>,
    cluster: &Cluster<OpenGate>,
    number: u16,
    due: (u64, u64),
) {
    let site = site(rt, cluster, number);
    assert_same(rt, at, &(site.clock(rt), site.events(rt)), &due);
}

/// Has this happen in the cluster, or asserts that it is shown.
fn happens<R: AllocGlobal + Wait + Abort>(
    rt: &R,
    at: At<'_>,
    cluster: &Cluster<OpenGate>,
    auditor: &Auditor,
    act: Act,
) {
    match act {
        Leaves(number) => {
            let came = refusal_of_unlock(rt, rt.alloc(), cluster, number);
            assert_same(rt, at, &came, &None);
        }
        Comes(sends) => comes(rt, at, cluster, &frame_of(rt, sends)),
        Shows(shown) => assert_run(rt, at, auditor, shown),
        Waits(events) => assert_same(rt, at, &auditor.waiting(), &events),
        HasAt {
            node: number,
            clock,
            events,
        } => assert_at_site(rt, at, cluster, number, (clock, events)),
        HasLosses(lost, losing) => assert_losses(rt, at, auditor, (lost, losing)),
        Stops(stop) => cluster.stop(rt, stop),
        _ => fail_at(rt, at, "the audit can only be ended when no thread runs"),
    }
}

/// Does this, or asserts that it is shown. The audit is not ended.
fn does<R: AllocGlobal + Wait + Abort>(
    rt: &R,
    at: At<'_>,
    cluster: &Cluster<OpenGate>,
    auditor: &mut Auditor,
    act: Act,
) -> Tried {
    match act {
        Enters(number) => return locks(rt, at, cluster, number, Exclusive, None),
        Asks(number, mode) => {
            cluster.close_post(rt);
            let due = Some(SiteError::Stopped(Stop::Send));
            return locks(rt, at, cluster, number, mode, due);
        }
        IsRefused(number, cause) => {
            let due = Some(SiteError::Refused(cause));
            return locks(rt, at, cluster, number, Exclusive, due);
        }
        Audits(answer) => return audits(rt, at, cluster, auditor, answer),
        AuditsAnew(answer) => return audits_anew(rt, at, cluster, answer),
        HandsOver {
            node: number,
            after,
            clock,
            lost,
        } => {
            return hands_over(rt, at, cluster, number, after, (clock, lost));
        }
        Loses(sends) => return loses(rt, at, auditor, &frame_of(rt, sends)),
        other => happens(rt, at, cluster, auditor, other),
    }
    Tried::NoFailure
}

/// Does and shows what a row says while the threads of its nodes run.
fn done_running<R: AllocGlobal + Wait + Abort>(
    rt: &R,
    cluster: &Cluster<OpenGate>,
    auditor: &mut Auditor,
    row: &Row,
) -> Tried {
    let mut tried = Tried::NoFailure;
    for place in 0..row.running.len() {
        let at = At(row.words, "act of the running cluster", place + 1);
        tried = both(tried, does(rt, at, cluster, auditor, row.running[place]));
    }
    tried
}

/// Has the threads of the nodes run meanwhile, if there is something to do.
fn run_first<R: AllocGlobal + Threads + Wait + Abort + Sync>(
    rt: &R,
    cluster: &Cluster<OpenGate>,
    auditor: &mut Auditor,
    row: &Row,
) -> Tried {
    if row.running.is_empty() {
        return Tried::NoFailure;
    }
    cluster.run(rt, rt.alloc(), || done_running(rt, cluster, auditor, row))
}

/// Does and shows all that a row says, in order.
fn done<R: AllocGlobal + Threads + Wait + Abort + Sync>(
    rt: &R,
    cluster: &mut Cluster<OpenGate>,
    auditor: &mut Auditor,
    row: &Row,
) -> Tried {
    let mut tried = run_first(rt, cluster, auditor, row);
    for place in 0..row.acts.len() {
        let at = At(row.words, "act", place + 1);
        let came = match row.acts[place] {
            Ends(answer) => ends(rt, at, cluster, auditor, answer),
            other => does(rt, at, cluster, auditor, other),
        };
        tried = both(tried, came);
    }
    tried
}

/// Has a cluster and this auditor do and show all of a row, and closes the cluster. If none is made, memory ran out.
fn done_with<R: AllocGlobal + Threads + Wait + Abort + Sync>(
    rt: &R,
    auditor: &mut Auditor,
    row: &Row,
) -> Result<Tried, Memory> {
    let Made {
        nodes,
        is_audited,
        ..
    } = row.made;
    let mut clusters = clusters_of(rt.alloc(), nodes, is_audited);
    let tried = match clusters.get_mut(0) {
        Some(cluster) => Ok(done(rt, cluster, auditor, row)),
        None => Err(Memory),
    };
    let books = closed(rt.alloc(), clusters);
    if tried.is_ok() {
        assert_ended(rt, row.words, &books, row.ended);
    }
    tried
}

/// Has a cluster and an auditor do and show all of a row, and closes the cluster. Ends the test if anything else
/// happens. If they cannot be made, memory ran out.
pub fn try_row<R: AllocGlobal + Threads + Wait + Abort + Sync>(
    rt: &R,
    row: &Row,
) -> Result<Tried, Memory> {
    let (nodes, start) = row.made.auditor;
    match Auditor::new(rt.alloc(), nodes, start) {
        Ok(mut auditor) => done_with(rt, &mut auditor, row),
        Err(fault) => Err(assert_memory!(rt, row_at(row.words), fault, NewError::Memory)),
    }
}

/// Asserts that a cluster and an auditor do and show all of a row.
fn perform<R: AllocGlobal + Threads + Wait + Abort + Sync>(rt: &R, row: &Row) {
    let at = At(row.words, "after act", row.acts.len());
    assert_same(rt, at, &try_row(rt, row), &Ok(Tried::NoFailure));
}

/// How often it is looked for the end of the thread of a row.
const MOST_LOOKS: u64 = 20_000_000;

/// Looks many times, until a thread has counted its end. Ends the test if it does not.
fn await_end(rt: &impl Abort, at: At<'_>, ends: &AtomicU64) {
    for _ in 0..MOST_LOOKS {
        if ends.load(Ordering::SeqCst) > 0 {
            return;
        }
        thread::yield_now();
    }
    fail_at(rt, at, "its thread does not end");
}

/// Has a thread of its own do and show all of a row. If it does not end, the test ends after many looks.
fn play<R: AllocGlobal + Threads + Wait + Abort + Sync>(rt: &R, row: &Row) {
    let (at, ends) = (row_at(row.words), AtomicU64::new(0));
    let ends = &ends;
    let ((), ()) = thread::join(
        rt,
        move || {
            perform(rt, row);
            ends.fetch_add(1, Ordering::SeqCst);
        },
        // Without it `join` would wait forever for a thread that does not end.
        move || await_end(rt, at, ends),
    );
}

/// Has clusters and their auditors do and show these rows.
pub fn play_audits<R: AllocGlobal + Threads + Wait + Abort + Sync>(rt: &R, rows: &[Row]) {
    for row in rows {
        play(rt, row);
    }
}

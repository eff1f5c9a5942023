//! A service that goes on for long. Clients lock and unlock names, and every so often one of them audits the cluster,
//! so its memory does not grow with the number of locks. After each round of the audit each node forgets the names that
//! nobody uses, so its memory does not grow with the number of names either.
//!
//! The arguments are how many locks to ask for in all, how many nodes and how many clients. Two more may follow: of how
//! many locks one is to be given up, and how many names are locked in turn. Without them, or if they are 0, each client
//! waits for its lock, and always locks the same one of four names.
#![tactic(auto)]

use anyhow::{Context, Error, Result, anyhow, ensure};
use ra_audit::{Auditor, CloseError, MarkObserver, RoundError, Told};
use ra_site::{CallError, Cluster, Grant, OpenGate, SiteError, Stop};
use ra_stamp::{Mark, Mode, Name, NodeId};
use std::alloc::Global;
use std::sync::atomic::{AtomicU64, Ordering};
use std::sync::{Mutex, Wait};
use std::thread::Threads;
use std::time::{Clock, Duration};
use std::{env, thread};

/// After about how many events of all nodes together a client audits the cluster.
const EVENTS_A_ROUND: u64 = 6_000;

/// How many microseconds a client that may give up waits, at most: some locks come sooner, and most come later.
const PATIENCE: u64 = 64;

/// The names that the clients lock, unless the plan says how many there are.
const NAMES: [&[u8]; 4] = [b"disk", b"index", b"queue", b"table"];

/// What to do.
#[derive(Clone, Copy)]
struct Plan {
    locks: u64,
    nodes: u16,
    clients: u16,
    /// One lock in this many is given up, or none if it is 0.
    given_up: u64,
    /// How many names are locked in turn, or 0 if each client has its own one of `NAMES`.
    names: u64,
}

/// Counts the marks of the run, as a service could check or keep them.
#[derive(Drop)]
struct Counts {
    told: Told,
    marks: u64,
    withdrawn: u64,
}

impl MarkObserver for Counts {
    ghost told = { λ c. c.told };

    fn tell(&mut self, mark: &Mark) {
        self.told.tell(mark);
        self.marks = self.marks.saturating_add(1);
        if let Mark::Withdrawn(_) = mark {
            self.withdrawn = self.withdrawn.saturating_add(1);
        }
    }
}

/// The audit that goes on with each round.
#[derive(Drop)]
struct Rounds {
    auditor: Auditor,
    counts: Counts,
    rounds: u64,
}

impl Rounds {
    /// Makes the audit of a cluster of this many nodes. Nothing has happened in it yet.
    fn new(alloc: Global, nodes: u16) -> Result<Rounds> {
        let counts = Counts {
            told: Told::new(),
            marks: 0,
            withdrawn: 0,
        };
        Ok(Rounds {
            auditor: Auditor::new(alloc, nodes, 0)?,
            counts,
            rounds: 0,
        })
    }
}

/// What was audited while the service ran, and what is in the run at the end.
#[derive(Clone, Copy)]
struct Figures {
    rounds: u64,
    steps: u64,
    marks: u64,
    withdrawn: u64,
    given_up: u64,
    requests: u128,
    messages: u128,
    under_way: u64,
    lost: u64,
    waiting: u128,
    queued: u128,
}

impl Figures {
    /// Tells whether each lock of the plan was given and taken back, or given up. One that is given up while its client
    /// is queued has no request, and each other one that is given up is withdrawn.
    fn is_whole(self, plan: Plan) -> bool {
        let asked = self.requests.saturating_add(u128::from(self.given_up));
        asked == u128::from(plan.locks.saturating_add(self.withdrawn))
            && self.under_way == 0
            && self.waiting == 0
            && self.queued == 0
    }
}

/// Why the service did not do its plan.
#[derive(Clone, Copy, Debug)]
enum Failure {
    /// There is no such name or node.
    Plan,
    /// The thread of a client could not be started.
    Spawn,
    /// A call of a client failed.
    Call(CallError),
    /// A name was not given back.
    Unlock(SiteError),
    /// A round of the audit failed.
    Round(RoundError),
}

/// What the clients share.
#[derive(Drop)]
struct Service<'a> {
    plan: Plan,
    cluster: &'a Cluster<OpenGate>,
    /// How many locks all clients together were given or have given up.
    ended: &'a AtomicU64,
    /// How many they have given up.
    given_up: &'a AtomicU64,
    audit: &'a Mutex<Rounds>,
    failure: &'a Mutex<Option<Failure>>,
}

/// Audits what has happened since the round before. Other clients go on meanwhile.
fn audit<R: Wait>(rt: &R, alloc: Global, service: &Service<'_>) -> Result<(), Failure> {
    let mut audit = service.audit.lock(rt);
    audit.rounds = audit.rounds.saturating_add(1);
    let Rounds {
        auditor,
        counts,
        ..
    } = &mut *audit;
    if let Err(refused) = auditor.audit(rt, alloc, service.cluster, counts) {
        return Err(Failure::Round(refused));
    }
    forget(rt, alloc, service.cluster)
}

/// Has each node forget the names that nobody uses.
fn forget<R: Wait>(rt: &R, alloc: Global, cluster: &Cluster<OpenGate>) -> Result<(), Failure> {
    for number in 1..=cluster.nodes() {
        let Some(node) = NodeId::new(number) else {
            return Err(Failure::Plan);
        };
        if let Err(refused) = cluster.forget(rt, alloc, node) {
            return Err(Failure::Call(refused));
        }
    }
    Ok(())
}

/// Returns how many locks a client asks for.
fn share_of(plan: Plan, client: u16) -> u64 {
    let clients = u64::from(plan.clients);
    match (
        plan.locks.checked_div(clients),
        plan.locks.checked_rem(clients),
    ) {
        (Some(each), Some(more)) if u64::from(client) < more => each.saturating_add(1),
        (Some(each), Some(_)) => each,
        _ => 0,
    }
}

/// Returns the node of a client.
fn node_of(plan: Plan, client: u16) -> Option<NodeId> {
    NodeId::new(client.checked_rem(plan.nodes)?.saturating_add(1))
}

/// Returns the name of a number: its eight digits to the base 16, as letters, the lowest first.
fn numbered(number: u64) -> Option<Name> {
    let letters = [
        letter(number),
        letter(number >> 4),
        letter(number >> 8),
        letter(number >> 12),
        letter(number >> 16),
        letter(number >> 20),
        letter(number >> 24),
        letter(number >> 28),
    ];
    Name::new(&letters).ok()
}

/// Returns the letter, a to p, of the last four bits of a number.
fn letter(number: u64) -> u8 {
    b'a' + (number % 16) as u8
}

/// Returns the name that a client locks in its turn. The first turn is 0.
fn name_of(plan: Plan, client: u16, turn: u64) -> Option<Name> {
    if plan.names == 0 {
        let name = NAMES.get(usize::from(client % 4))?;
        return Name::new(name).ok();
    }
    let before = turn.saturating_mul(u64::from(plan.clients));
    numbered(
        before
            .saturating_add(u64::from(client))
            .checked_rem(plan.names)?,
    )
}

/// A client at its node, and what it has done so far.
#[derive(Clone, Copy)]
struct Client {
    node: NodeId,
    number: u16,
    /// How many locks it asks for in all.
    share: u64,
    /// How many it has asked for.
    turn: u64,
    /// How many of them it has given up.
    given_up: u64,
    /// The last random number.
    random: u64,
}

impl Client {
    /// Returns how long the client waits for the lock of its turn: a random time while it has given up too few, and
    /// otherwise as long as it takes. It waits for its last one, so that no REQUEST is under way when all have ended:
    /// each other node has received those that its node sent before.
    fn patience(&mut self, plan: Plan) -> Option<Duration> {
        let enough = self.given_up.saturating_mul(plan.given_up) >= self.turn;
        if plan.given_up == 0 || enough || self.turn >= self.share {
            return None;
        }
        // Numbers of Knuth's MMIX. The high bits are the most random ones.
        self.random = self
            .random
            .wrapping_mul(6_364_136_223_846_793_005)
            .wrapping_add(1_442_695_040_888_963_407);
        Some(Duration::from_micros((self.random >> 33) % PATIENCE))
    }
}

/// Returns why a name was not given back, if it was not.
fn given_back(unlocked: Result<(), SiteError>) -> Result<(), Failure> {
    match unlocked {
        Ok(()) => Ok(()),
        Err(refused) => Err(Failure::Unlock(refused)),
    }
}

/// A client locks a name, uses what the name protects, and unlocks it.
fn lock_once<R: Wait>(
    rt: &R,
    alloc: Global,
    cluster: &Cluster<OpenGate>,
    client: Client,
    name: Name,
) -> Result<(), Failure> {
    let (node, number, mode) = (client.node, u32::from(client.number), Mode::Exclusive);
    let held = cluster.with_lock(rt, alloc, node, number, name, mode, |_grant: Grant| {
        // Here the client holds the name exclusively.
    });
    match held {
        Ok(held) => given_back(held.unlocked),
        Err(refused) => Err(Failure::Call(refused)),
    }
}

/// A client does the same, but gives up if it is not let in within this time. Returns whether it gave up.
fn lock_within<R: Wait + Clock>(
    rt: &R,
    alloc: Global,
    cluster: &Cluster<OpenGate>,
    client: Client,
    name: Name,
    time: Duration,
) -> Result<bool, Failure> {
    let (node, number, mode) = (client.node, u32::from(client.number), Mode::Exclusive);
    let held = cluster.with_lock_within(
        rt,
        alloc,
        node,
        number,
        name,
        mode,
        time,
        |_grant: Grant| {},
    );
    match held {
        Ok(Some(held)) => {
            given_back(held.unlocked)?;
            Ok(false)
        }
        Ok(None) => Ok(true),
        Err(refused) => Err(Failure::Call(refused)),
    }
}

/// A client takes its next turn, which is a lock that it is given or gives up.
fn take_turn<R: Wait + Clock>(
    rt: &R,
    alloc: Global,
    service: &Service<'_>,
    client: &mut Client,
) -> Result<(), Failure> {
    let Some(name) = name_of(service.plan, client.number, client.turn) else {
        return Err(Failure::Plan);
    };
    client.turn = client.turn.saturating_add(1);
    match client.patience(service.plan) {
        None => lock_once(rt, alloc, service.cluster, *client, name)?,
        Some(time) => {
            if lock_within(rt, alloc, service.cluster, *client, name, time)? {
                client.given_up = client.given_up.saturating_add(1);
                service.given_up.fetch_add(1, Ordering::SeqCst);
            }
        }
    }
    Ok(())
}

/// Returns after how many locks of all clients together one of them audits. Each lock makes two events for each node:
/// an ask and a leave or a cancel, and a REQUEST and a REPLY for each other node.
fn locks_a_round(plan: Plan) -> u64 {
    match EVENTS_A_ROUND.checked_div(u64::from(plan.nodes).saturating_mul(2)) {
        Some(locks) => locks.max(1),
        None => 1,
    }
}

/// Counts a lock that was given or given up. Returns whether a round is due after it.
fn ends_a_round(service: &Service<'_>) -> bool {
    let ended = service
        .ended
        .fetch_add(1, Ordering::SeqCst)
        .saturating_add(1);
    ended.checked_rem(locks_a_round(service.plan)) == Some(0)
}

/// A client locks and unlocks names at its node, as often as is its share. It audits whenever a round is due after its
/// lock.
fn lock_and_unlock<R: Wait + Clock>(
    rt: &R,
    alloc: Global,
    service: &Service<'_>,
    number: u16,
) -> Result<(), Failure> {
    let Some(node) = node_of(service.plan, number) else {
        return Err(Failure::Plan);
    };
    let mut client = Client {
        node,
        number,
        share: share_of(service.plan, number),
        turn: 0,
        given_up: 0,
        random: u64::from(number),
    };
    for _ in 0..client.share {
        take_turn(rt, alloc, service, &mut client)?;
        if ends_a_round(service) {
            audit(rt, alloc, service)?;
        }
    }
    Ok(())
}

/// Does what a client does. The first failure stops the cluster.
fn work<R: Wait + Clock>(rt: &R, alloc: Global, service: &Service<'_>, client: u16) {
    if let Err(failure) = lock_and_unlock(rt, alloc, service, client) {
        service.fail(rt, failure);
    }
}

impl<'a> Service<'a> {
    /// Notes the first failure, and stops the cluster.
    fn fail<R: Wait>(&self, rt: &R, failure: Failure) {
        let mut first = self.failure.lock(rt);
        if first.is_none() {
            *first = Some(failure);
        }
        self.cluster.stop(rt, Stop::Refused);
    }
}

/// Runs the clients, each on a thread of its own.
fn run_clients<R: Threads + Wait + Clock + Sync>(rt: &R, alloc: Global, service: &Service<'_>) {
    thread::scope(thread::scope_env(), rt, move |clients| {
        for client in 0..service.plan.clients {
            let started = clients.spawn(move || work(rt, alloc, service, client));
            if started.is_err() {
                service.fail(rt, Failure::Spawn);
            }
        }
    })
}

/// Returns the number that an argument is.
fn number_of(word: &String) -> Option<u64> {
    word.as_str().parse().ok()
}

/// Returns the number of nodes or clients that an argument is.
fn count_of(word: &String) -> Option<u16> {
    word.as_str().parse().ok()
}

/// Returns the plan that the arguments are.
fn plan_of(words: &[String]) -> Result<Plan> {
    let (locks, nodes, clients, more) = match words {
        [_program, locks, nodes, clients] => (locks, nodes, clients, None),
        [_program, locks, nodes, clients, given_up, names] => {
            (locks, nodes, clients, Some((given_up, names)))
        }
        _ => return Err(anyhow!("usage: long_service LOCKS NODES CLIENTS [GIVEN_UP NAMES]")),
    };
    let (given_up, names) = match more {
        Some((given_up, names)) => (
            number_of(given_up).context("GIVEN_UP is a number")?,
            number_of(names).context("NAMES is a number")?,
        ),
        None => (0, 0),
    };
    Ok(Plan {
        locks: number_of(locks).context("LOCKS is a number")?,
        nodes: count_of(nodes).context("NODES is a number")?,
        clients: count_of(clients).context("CLIENTS is a number")?,
        given_up,
        names,
    })
}

/// Runs the clients in the cluster, and returns the audit as it is then, and how many locks were given up.
fn run_in<R: Threads + Wait + Clock + Sync>(
    rt: &R,
    alloc: Global,
    plan: Plan,
    cluster: &Cluster<OpenGate>,
) -> Result<(Rounds, u64)> {
    let rounds = Mutex::new(Rounds::new(alloc, plan.nodes)?);
    let failure = Mutex::new(None);
    let (ended, given_up) = (AtomicU64::new(0), AtomicU64::new(0));
    let service = Service {
        plan,
        cluster,
        ended: &ended,
        given_up: &given_up,
        audit: &rounds,
        failure: &failure,
    };
    cluster.run(rt, alloc, || run_clients(rt, alloc, &service));
    match failure.into_inner() {
        Some(failure) => Err(anyhow!("the service failed: {failure:?}")),
        None => Ok((rounds.into_inner(), given_up.load(Ordering::SeqCst))),
    }
}

/// Ends the audit, closes the cluster, and returns what is in the run, if that is all that happened at its nodes.
fn close<R: Wait>(
    rt: &R,
    alloc: Global,
    cluster: Cluster<OpenGate>,
    mut rounds: Rounds,
    given_up: u64,
) -> Result<Figures> {
    let closed = rounds.auditor.close(rt, alloc, cluster, &mut rounds.counts);
    match closed {
        Ok(_books) => Ok(figures_of(&rounds, given_up)),
        Err(left) => Err(why_not(left.cause)),
    }
}

/// Returns what to say of a cluster that was not closed, for this cause.
fn why_not(cause: CloseError) -> Error {
    match cause {
        CloseError::NotFinished(fault) => anyhow!("the audit did not end: {fault:?}"),
        other => anyhow!("not all is in the run: {other:?}"),
    }
}

/// Returns what is in the run of an audit in which this many locks were given up.
fn figures_of(rounds: &Rounds, given_up: u64) -> Figures {
    let auditor = &rounds.auditor;
    Figures {
        rounds: rounds.rounds,
        steps: auditor.steps(),
        marks: rounds.counts.marks,
        withdrawn: rounds.counts.withdrawn,
        given_up,
        requests: auditor.requests(),
        messages: auditor.sent(),
        under_way: auditor.under_way(),
        lost: auditor.lost(),
        waiting: auditor.requests_waiting(),
        queued: auditor.clients_queued(),
    }
}

/// Makes the cluster and has the clients do the plan.
fn serve<R: Threads + Wait + Clock + Sync>(rt: &R, alloc: Global, plan: Plan) -> Result<Figures> {
    let cluster = Cluster::new_audited(alloc, plan.nodes, 0, OpenGate)?;
    let (rounds, given_up) = run_in(rt, alloc, plan, &cluster)?;
    close(rt, alloc, cluster, rounds, given_up)
}

fn main(rt: HostRuntime) -> Result<()> {
    let alloc = rt.alloc();
    let words: Vec<String> = env::args(&rt)?.collect(alloc)?;
    let plan = plan_of(&words)?;
    let figures = serve(&rt, alloc, plan)?;
    println!(rt; "rounds {}", figures.rounds)?;
    println!(rt; "steps {}", figures.steps)?;
    println!(rt; "marks {}", figures.marks)?;
    println!(rt; "requests {}", figures.requests)?;
    println!(rt; "messages {}", figures.messages)?;
    println!(rt; "under-way {}", figures.under_way)?;
    println!(rt; "lost {}", figures.lost)?;
    println!(rt; "waiting {}", figures.waiting)?;
    println!(rt; "queued {}", figures.queued)?;
    println!(rt; "withdrawn {}", figures.withdrawn)?;
    println!(rt; "given-up {}", figures.given_up)?;
    ensure!(
        figures.is_whole(plan),
        "not all locks were given and taken back, or given up"
    );
    Ok(())
}

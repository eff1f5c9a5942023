//! A thread waits here for the outcome of its request.
ghost use Rattle.std.specs.Prelude.{IfOk, IfSome};
ghost use Rattle.std.specs.Result.{ForOk};
ghost use Rattle.ra_site.specs.ClientGrant.{IsGrantOf, WasGiven};

use crate::site::outcome::{NotGranted, Outcome};
use crate::site::request::Request;
use crate::site::time_limit::TimeLimit;
use crate::{Grant, SiteError};
use ra_stamp::NodeId;
use std::alloc::Global;
use std::sync::atomic::{AtomicBool, Ordering};
use std::sync::{Arc, Mutex, Wait};
use std::thread::Parker;
use std::time::Clock;

/// A ticket that two threads share: the one that waits, and the one that tells it the outcome of its request.
pub type SharedTicket = Arc<Ticket, Global>;

/// The one thread that made a request waits here. The thread that tells it the outcome of the request wakes only it.
#[derive(Drop)]
pub struct Ticket {
    /// The grant, or why none was given, once it is told.
    outcome: Mutex<Option<Outcome>>,
    waits: Parker,
    /// Whether it was taken from the desk of its site, to be told its outcome. It is read and written under the lock of
    /// the desk.
    taken: AtomicBool,
}

impl Ticket {
    /// Makes a ticket with no outcome yet, or returns `None` if memory ran out.
    pub fn new(alloc: Global) -> Option<SharedTicket> {
        let ticket = Ticket {
            outcome: Mutex::new(None),
            waits: Parker::new(),
            taken: AtomicBool::new(false),
        };
        Arc::new(alloc, ticket).ok()
    }

    /// Notes that it is taken from the desk of its site. The outcome is to be told then.
    pub fn mark_taken(&self) {
        self.taken.store(true, Ordering::SeqCst);
    }

    /// Returns whether it was taken from the desk of its site, so that its client does not wait by it any more.
    pub fn is_taken(&self) -> bool {
        self.taken.load(Ordering::SeqCst)
    }

    /// Tells the thread that waits the outcome of its request: its grant, or why none was given. Wakes it.
    pub fn tell<R: Wait>(&self, rt: &R, answer: Result<Grant, NotGranted>)
        requires { ForOk answer WasGiven }
    {
        *self.outcome.lock(rt) = Some(Outcome { answer });
        // The lock is given back by now, so the thread that wakes does not wait for it.
        self.waits.unpark();
    }

    /// Waits for the outcome of this request, which was made at this node, and returns it.
    pub fn wait<R: Wait>(&self, rt: &R, node: NodeId, request: &Request) -> Result<Grant, SiteError>
        ensures grant { IfOk result (IsGrantOf node request.now.client request.now.name request.now.mode) }
        ensures given { IfOk result WasGiven }
    {
        for _ in rt.forever() {
            match self.told(rt, node, request) {
                Some(answer) => return answer,
                None => self.waits.park(rt),
            }
        }
        unreachable!()
    }

    /// Waits for the outcome of this request, which was made at this node, and returns it, or `None` if the time is
    /// over before it is told.
    pub fn wait_within<R: Wait + Clock>(
        &self,
        rt: &R,
        node: NodeId,
        request: &Request,
        limit: &TimeLimit,
    ) -> Option<Result<Grant, SiteError>>
        ensures grant { IfSome result (λ answer.
            IfOk answer (IsGrantOf node request.now.client request.now.name request.now.mode)) }
        ensures given { IfSome result (λ answer. IfOk answer WasGiven) }
    {
        for _ in rt.forever() {
            let answer = self.told(rt, node, request);
            if answer.is_some() {
                return answer;
            }
            let Some(left) = limit.left(rt) else {
                return None;
            };
            self.waits.park_timeout(rt, left);
        }
        unreachable!()
    }

    /// Returns the outcome of this request, if it was told.
    fn told<R: Wait>(
        &self,
        rt: &R,
        node: NodeId,
        request: &Request,
    ) -> Option<Result<Grant, SiteError>>
        ensures grant { IfSome result (λ answer.
            IfOk answer (IsGrantOf node request.now.client request.now.name request.now.mode)) }
        ensures given { IfSome result (λ answer. IfOk answer WasGiven) }
    {
        // The lock is released at once, so that nobody waits for it while this thread sleeps.
        let outcome = self.outcome.lock(rt).take();
        let Some(Outcome { answer }) = outcome else {
            return None;
        };
        match answer {
            // A grant is always the request's, but no contract can say what another thread told.
            Ok(grant) if request.is_granted_by(node, &grant) => Some(Ok(grant)),
            Ok(_) => None,
            Err(NotGranted::GivenUp) => Some(Err(SiteError::Cancelled)),
            Err(NotGranted::Stopped(stop)) => Some(Err(SiteError::Stopped(stop))),
        }
    }
}

//! How a client gives up a name that it waits for: with a call, or when its time is over.
ghost use Rattle.std.specs.Prelude.{IfOk, IfSome, IsErrOf};
ghost use Rattle.ra_site.specs.ClientGrant.{IsGrantOf, WasGiven};
ghost use Rattle.ra_site.specs.PassedOn.{IsNotCancelled};
ghost use Rattle.ra_site.specs.Sites.{AreSitesWith};

use crate::cluster::all_sites::stop_all;
use crate::site::request::Request;
use crate::site::ticket::SharedTicket;
use crate::site::time_limit::TimeLimit;
use crate::{BookError, Gate, Grant, Post, Site, SiteError, Stop};
use ra_stamp::{Mode, Name};
use std::alloc::Global;
use std::sync::Wait;
use std::time::{Clock, Duration};

impl Site {
    /// Asks for a name for a client as `lock` does, and waits until the client holds it or the time is over. Then the
    /// client gives up, and holds nothing, unless it was let in meanwhile. With more than one node no client is let in
    /// by its own ask, so a time of zero mostly ends without a lock. If the clock can't be read, the time is over.
    ///
    /// # Errors
    ///
    /// Those of `lock`. If no clock is left for the client to give up, each site is stopped with `Clock`, and the
    /// answer is `Stopped`.
    pub fn lock_within<R: Wait + Clock, G: Gate>(
        &self,
        rt: &R,
        alloc: Global,
        client: u32,
        name: Name,
        mode: Mode,
        time: Duration,
        post: &Post,
        sites: &[Site],
        gate: &G,
    ) -> Result<Option<Grant>, SiteError>
        requires { AreSitesWith self.now sites.now }
        ensures grant { IfOk result (λ held. IfSome held (IsGrantOf self.now.node client name mode)) }
        ensures given { IfOk result (λ held. IfSome held WasGiven) }
    {
        let limit = TimeLimit::new(rt, time);
        let request = Request { client, name, mode };
        let ticket = self.ask(rt, alloc, &request, post, sites, gate)?;
        match ticket.wait_within(rt, self.node, &request, &limit) {
            Some(Ok(grant)) => Ok(Some(grant)),
            Some(Err(why)) => Err(why),
            None => self.give_up(rt, alloc, &request, &ticket, post, sites, gate),
        }
    }

    /// Gives up this request, whose time is over, and returns `None`, or its grant if it was let in meanwhile. The race
    /// is decided under the lock of the book, by the ticket: the client may ask again on another thread.
    ///
    /// # Errors
    ///
    /// Those of `lock_within`.
    fn give_up<R: Wait, G: Gate>(
        &self,
        rt: &R,
        alloc: Global,
        request: &Request,
        ticket: &SharedTicket,
        post: &Post,
        sites: &[Site],
        gate: &G,
    ) -> Result<Option<Grant>, SiteError>
        requires { AreSitesWith self.now sites.now }
        ensures grant { IfOk result (λ held.
            IfSome held (IsGrantOf self.now.node request.now.client request.now.name request.now.mode)) }
        ensures given { IfOk result (λ held. IfSome held WasGiven) }
    {
        let made = {
            let _share = self.sending.share(rt);
            let given_up = self
                .desk
                .lock(rt)
                .give_up(alloc, self.node, gate, request, ticket);
            self.finish(rt, alloc, given_up, post)
        };
        let Err(refused) = self.answer(rt, made, sites) else {
            return Ok(None);
        };
        if refused == SiteError::Refused(BookError::ClockFull) {
            stop_all(rt, sites, Stop::Clock);
        }
        // The client was let in, or gave up by a call, or the node is stopped. The ticket tells which it was.
        match ticket.wait(rt, self.node, request) {
            Ok(grant) => Ok(Some(grant)),
            Err(why) => Err(why),
        }
    }

    /// Gives up a name for which a client waits or is queued: its request is withdrawn, or it leaves the queue. The
    /// thread that waits for it wakes, and its call answers `Cancelled`. This call waits for locks alone.
    ///
    /// # Errors
    ///
    /// The first that holds, and nothing was given up. If the book took the cancel, the answer is `Ok`, even if the
    /// node is stopped by then.
    ///
    /// 1. `Stopped`: the gate answered `false`. The cause is the one that the node keeps, of an earlier stop if there
    ///    was one.
    /// 2. `Refused`: the book refused it, as [`Book::cancel`] says, with `Failed` if the node was stopped before. After
    ///    `NotWaiting` the client may hold the name. It is never `Memory`.
    pub fn cancel<R: Wait, G: Gate>(
        &self,
        rt: &R,
        alloc: Global,
        client: u32,
        name: Name,
        post: &Post,
        sites: &[Site],
        gate: &G,
    ) -> Result<(), SiteError>
        requires { AreSitesWith self.now sites.now }
        ensures no_memory { IsErrOf result (SiteError.Refused BookError.Memory) → ⊥ }
        ensures others { IsNotCancelled result }
    {
        let made = {
            let _share = self.sending.share(rt);
            let given_up = self
                .desk
                .lock(rt)
                .cancel(alloc, self.node, gate, client, name);
            self.finish(rt, alloc, given_up, post)
        };
        self.answer(rt, made, sites)
    }
}

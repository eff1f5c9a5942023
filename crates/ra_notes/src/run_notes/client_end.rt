//! The states of the clients of a script when a run of it ends.
use ra_explain::{
    AwaitedReplies, OpenRequest, OpenRequests, Stage, TellsBlocker, push_name_and_mode,
    push_numbered,
};
use ra_schedule::{Choice, Op, Policy, Script};
use ra_stamp::{Entry, Mark, Mode, Name};
use ra_text::Note;
use ra_world::Report;
use std::alloc::Global;

/// The end of a run, or of its first part.
#[derive(Drop)]
pub struct RunEnd<'a> {
    pub script: &'a Script,
    pub policy: &'a Policy,
    /// How many turns were made.
    pub turns: u64,
    pub report: &'a Report,
    /// The requests that wait and hold then, each with the place of the mark of its request, and the clients that are
    /// queued.
    pub requests: OpenRequests,
    /// The messages that are lost or under way for those that wait although no other one blocks them.
    pub awaited: AwaitedReplies,
}

/// The state of a client.
#[derive(Clone, Copy)]
pub enum ClientEnd {
    /// It has done all its operations.
    Done,
    /// Its request waits.
    Waits(Entry),
    /// It asked, and is queued after another client of its node.
    Queued { name: Name, mode: Mode },
    /// It has not begun its operation with this number, counted from 1.
    Idle(u64),
}

impl ClientEnd {
    /// Adds the state of the client.
    pub fn push(&self, note: &mut Note) {
        match self {
            ClientEnd::Done => note.push(" has done all its operations"),
            ClientEnd::Waits(entry) => push_name_and_mode(
                note,
                " waits for ",
                &entry.name,
                entry.mode,
            ),
            ClientEnd::Queued { name, mode } => push_name_and_mode(
                note,
                " is queued for ",
                name,
                *mode,
            ),
            ClientEnd::Idle(op) => push_numbered(note, " has not begun operation ", *op),
        }
    }
}

impl<'a> RunEnd<'a> {
    /// Returns the end of this many turns of a script by a policy, given their report. Each request has its present
    /// state since the place of its mark, counted from 1. If memory ran out, the note records it. The cost is linear in
    /// the marks.
    pub fn new(
        alloc: Global,
        note: &mut Note,
        script: &'a Script,
        policy: &'a Policy,
        turns: u64,
        report: &'a Report,
    ) -> RunEnd<'a> {
        let mut requests = OpenRequests::new(alloc);
        let mut place = 0;
        for mark in report.marks.as_slice() {
            place = u64::saturating_add(place, 1);
            let since = match requests.request_of(mark.entry()) {
                Some(request) => request.since,
                None => place,
            };
            requests.take_mark(mark, since);
        }
        let mut ending = RunEnd {
            script,
            policy,
            turns,
            report,
            requests,
            awaited: AwaitedReplies::new(alloc, script.nodes(), "step "),
        };
        ending.add_queued(place);
        note.refuse_if(!ending.requests.is_whole);
        ending
    }

    /// Adds the clients that are queued, after this many marks.
    fn add_queued(&mut self, marks: u64) {
        for place in 0..self.script.clients() {
            let client = place + 1;
            if let ClientEnd::Queued { name, mode } = self.client_end(client)
                && let Some(node) = self.script.node_of(client)
            {
                let number = marks.saturating_add(u64::from(client));
                self.requests.take_ask((node, client, name), mode, number);
            }
        }
    }

    /// Returns whether a client has begun more than `done` operations. If the choices are not listed, each client goes
    /// on as long as it can.
    fn has_begun(&self, client: u32, done: u64) -> bool {
        let Policy::Listed(choices) = self.policy else {
            return true;
        };
        let mut begun = 0;
        for place in 0..self.turns {
            if choices.at(place) == Some(Choice::Client(client)) {
                begun = u64::saturating_add(begun, 1);
            }
        }
        begun > done
    }

    /// Returns the state of a client.
    pub fn client_end(&self, client: u32) -> ClientEnd {
        // How many of its operations the marks of the run complete.
        let mut done = 0;
        for mark in self.report.marks.as_slice() {
            if mark.entry().client == client && !matches!(mark, Mark::Requested(_)) {
                done = u64::saturating_add(done, 1);
            }
        }
        match &self.script.op(client, done) {
            None => return ClientEnd::Done,
            Some(Op::Lock(name, mode)) => {
                if let Some(node) = self.script.node_of(client)
                    && let Some(request) = self.requests.clients.get(&(node, client, *name))
                    && request.stage.is(Stage::Waits)
                {
                    return ClientEnd::Waits(request.entry);
                }
                if self.has_begun(client, done) {
                    return ClientEnd::Queued {
                        name: *name,
                        mode: *mode,
                    };
                }
            }
            Some(_) => {}
        }
        ClientEnd::Idle(done.saturating_add(1))
    }
}

impl TellsBlocker for RunEnd<'_> {
    fn push_blocker(&self, note: &mut Note, request: &OpenRequest) {
        let client = request.entry.client;
        note.client(client);
        note.push(if !request.stage.is(Stage::Holds) {
            " asked earlier"
        } else if let ClientEnd::Done = self.client_end(client) {
            ", which has finished, holds it"
        } else {
            " holds it"
        });
        note.mode(request.entry.mode);
    }
}

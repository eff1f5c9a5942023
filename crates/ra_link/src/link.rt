ghost use Rattle.std.specs.Prelude.{◌≡◌, ◌↔◌, true, false, IsTrue, IsOk, IsErr, IsErrOf};
ghost use Rattle.ra_link.specs.Link.{greatest, is_nonce, started, asks, hello_of, hears_hello, welcome_of};
ghost use Rattle.ra_link.specs.Link.{welcome_accuses, hears_welcome, ack_accuses, hears_ack, ack_of, old_of};
ghost use Rattle.ra_link.specs.Link.{old_accuses, heard_frame, hears_frame, frame_of, said_again, may_make, makes, syncs};
ghost use Rattle.ra_link.specs.Link.{is_answer, is_above, shows_old, may_replay, replay_accuses, replays};

use crate::{MakeError, Message, OldBook};

/// The most frames that a host says again at once.
const SAID_AGAIN: u64 = 1000;

/// What is to be done with a frame that came.
#[derive(Clone, Copy, Debug, PartialEq, Eq)]
pub enum Heard {
    /// It is the next one: write it to the book, and hand it to the node.
    Next,
    /// It was taken before: say `ack` again.
    Again,
    /// It is passed over.
    Passed,
}

/// What one start of a host knows of another host, as counts. No call allocates, and each takes constant time.
///
/// A host has one link for each other host. It numbers the frames for it from 1, in the order of its book, takes the
/// other's frames one in order and each once, and acknowledges them when they are on its disk.
#[derive(Clone, Copy, Debug, PartialEq, Eq)]
pub struct Link {
    /// The nonce of this start.
    own: u128,
    /// The nonce of the other's start that asked last.
    heard: Option<u128>,
    /// The nonce of the other's start whose frames are taken.
    adopted: Option<u128>,
    /// The number of the last question.
    asked: u64,
    /// If the last question is open: how many frames were acknowledged when it was first said.
    pending: Option<u64>,
    /// An answer to the open question showed that the other book is old.
    is_old: bool,
    /// How many frames were made for the other host.
    made: u64,
    /// How many of them are on the disk.
    sent: u64,
    /// How many of them are known to be on the other's disk.
    acknowledged: u64,
    /// How many frames were taken from the other host.
    taken: u64,
    /// How many of them are on the disk.
    kept: u64,
    /// The other host has acknowledged by this start's nonce.
    confirmed: bool,
    /// The book is replayed.
    ready: bool,
}

impl Link {
    /// Returns the link of a new start. `nonce` is one that no start had before, and `taken` frames of the other host
    /// are on the disk. Say `hello` then.
    pub fn new(nonce: u128, taken: u64) -> Link
        ensures { result ≡ started nonce taken }
    {
        Link {
            own: nonce,
            heard: None,
            adopted: None,
            asked: 1,
            pending: Some(0),
            is_old: false,
            made: 0,
            sent: 0,
            acknowledged: 0,
            taken,
            kept: taken,
            confirmed: false,
            ready: false,
        }
    }

    /// Asks a new question, as at a new connection. Say `hello` then. After 2^64-1 questions of a start it does
    /// nothing.
    pub fn ask(&mut self)
        ensures { self.new ≡ asks self.old }
    {
        if self.asked < u64::MAX {
            self.asked += 1;
            self.pending = Some(self.acknowledged);
            self.is_old = false;
        }
    }

    /// Returns the open question, if there is one. Say it at once and again until it is answered: each second.
    pub fn hello(&self) -> Option<Message>
        ensures { result ≡ hello_of self.now }
    {
        match self.pending {
            Some(_) => Some(Message::Hello {
                start: self.own,
                question: self.asked,
            }),
            None => None,
        }
    }

    /// Returns what tells the other host that its book is old, as long as the question whose answer showed it is open.
    /// Say it with each `hello`.
    pub fn old(&self) -> Option<Message>
        ensures { result ≡ old_of self.now }
    {
        match self.pending {
            Some(_) if self.is_old => Some(Message::Old {
                count: self.acknowledged,
            }),
            _ => None,
        }
    }

    /// Returns the ack for the adopted start, if all that was taken is on the disk. Say it after each sync, when a
    /// frame comes again, and from time to time.
    pub fn ack(&self) -> Option<Message>
        ensures { result ≡ ack_of self.now }
    {
        match self.adopted {
            Some(other) if self.kept == self.taken => {
                Some(Message::Ack {
                    start: self.own,
                    other,
                    kept: self.kept,
                })
            }
            _ => None,
        }
    }

    /// Returns the message of frame `number`, if the host is ready and the frame is on the disk.
    pub fn frame(&self, number: u64) -> Option<Message>
        ensures { result ≡ frame_of self.now number }
    {
        if self.ready && 0 < number && number <= self.sent {
            Some(Message::Frame {
                start: self.own,
                number,
            })
        } else {
            None
        }
    }

    /// Hears a question, and returns the answer, which may be said at once. If another start asks than the last one,
    /// this host asks, too: say `hello` then.
    pub fn hear_hello(&mut self, start: u128, question: u64) -> Message
        ensures link { self.new ≡ hears_hello self.old start }
        ensures welcome { result ≡ welcome_of self.old start question }
    {
        let welcome = Message::Welcome {
            asker: start,
            question,
            start: self.own,
            kept: self.kept,
        };
        if !is(self.heard, start) {
            self.heard = Some(start);
            self.ask();
        }
        welcome
    }

    /// Hears an answer. Only one to the open question counts. If it shows that the other book is old, the question
    /// stays open, and `old` tells the other host. Otherwise its start is adopted: say `ack` then.
    ///
    /// # Errors
    ///
    /// `OldBook`: it answers the open question, this host is ready, and the count is more than it has sent. The link is
    /// then as before. As long as books are put back to their first lines alone, only a forged answer does so
    /// (`a_ready_host_is_not_accused`).
    pub fn hear_welcome(
        &mut self,
        asker: u128,
        question: u64,
        start: u128,
        kept: u64,
    ) -> Result<(), OldBook>
        ensures link { IsOk result → self.new ≡ hears_welcome self.old asker question start kept }
        ensures old { IsErr result ↔ IsTrue (welcome_accuses self.old asker question kept) }
        ensures err { IsErr result → self.new ≡ self.old }
    {
        if !self.is_answer(asker, question) {
            return Ok(());
        }
        if self.is_above(kept) {
            return Err(OldBook);
        }
        if self.shows_old(start, kept) {
            self.is_old = true;
        } else {
            self.adopted = Some(start);
            self.pending = None;
            self.is_old = false;
            self.acknowledged = self.acknowledged.max(kept);
        }
        Ok(())
    }

    /// Hears a frame, and returns what is to be done with it.
    pub fn hear_frame(&mut self, start: u128, number: u64) -> Heard
        ensures link { self.new ≡ hears_frame self.old start number }
        ensures heard { result ≡ heard_frame self.old start number }
    {
        if !self.ready || !is(self.adopted, start) || number == 0 {
            return Heard::Passed;
        }
        if number - 1 == self.taken {
            self.taken = number;
            return Heard::Next;
        }
        if number <= self.taken {
            Heard::Again
        } else {
            Heard::Passed
        }
    }

    /// Hears an ack. Only one of the adopted start for this one counts.
    ///
    /// # Errors
    ///
    /// `OldBook`: it is one, this host is ready, and the count is more than it has sent. The link is then as before.
    /// Only a forged ack does so, as for `hear_welcome`.
    pub fn hear_ack(&mut self, start: u128, other: u128, kept: u64) -> Result<(), OldBook>
        ensures link { IsOk result → self.new ≡ hears_ack self.old start other kept }
        ensures old { IsErr result ↔ IsTrue (ack_accuses self.old start other kept) }
        ensures err { IsErr result → self.new ≡ self.old }
    {
        if !is(self.adopted, start) || other != self.own {
            return Ok(());
        }
        if self.is_above(kept) {
            return Err(OldBook);
        }
        self.acknowledged = self.acknowledged.max(kept);
        self.confirmed = true;
        Ok(())
    }

    /// Hears that its own book is old. A ready host passes it over: its book has all that the other's present start
    /// knows to be acknowledged (`a_ready_host_lacks_nothing`), so what comes was said of an earlier one.
    ///
    /// # Errors
    ///
    /// `OldBook`: the host is not ready, and has taken fewer frames than `count`.
    pub fn hear_old(&self, count: u64) -> Result<(), OldBook>
        ensures old { IsErr result ↔ IsTrue (old_accuses self.now count) }
    {
        if !self.ready && self.taken < count {
            return Err(OldBook);
        }
        Ok(())
    }

    /// Counts a frame that the node made for the other host, after it is written to the book.
    ///
    /// # Errors
    ///
    /// The link is then as before. The first that holds:
    ///
    /// 1. `NotReady`: the host is not ready.
    /// 2. `Full`: 2^64-1 frames were made.
    pub fn make(&mut self) -> Result<(), MakeError>
        ensures ok { IsOk result ↔ IsTrue (may_make self.old) }
        ensures link { IsOk result → self.new ≡ makes self.old }
        ensures not_ready { IsErrOf result MakeError.NotReady ↔ (self.old.ready ≡ false) }
        ensures full { IsErrOf result MakeError.Full ↔ ((self.old.ready ≡ true) × (self.old.made ≡ greatest)) }
        ensures err { IsErr result → self.new ≡ self.old }
    {
        if !self.ready {
            return Err(MakeError::NotReady);
        }
        if self.made == u64::MAX {
            return Err(MakeError::Full);
        }
        self.made += 1;
        Ok(())
    }

    /// The book is synced: all that was made and taken is on the disk. Say the new frames then, and `ack`.
    pub fn synced(&mut self)
        ensures { self.new ≡ syncs self.old }
    {
        self.sent = self.made;
        self.kept = self.taken;
    }

    /// The book is replayed, and has `count` frames for the other host: this host is ready, and may say and take
    /// frames. Until it is confirmed, and once it is ready, this does nothing.
    ///
    /// # Errors
    ///
    /// `OldBook`: it is confirmed and not ready, and `count` is less than is acknowledged. The link is then as before.
    pub fn replayed(&mut self, count: u64) -> Result<(), OldBook>
        ensures ready { IsOk result → IsTrue (may_replay self.old) → self.new ≡ replays self.old count }
        ensures passed { may_replay self.old ≡ false → self.new ≡ self.old }
        ensures old { IsErr result ↔ IsTrue (replay_accuses self.old count) }
        ensures err { IsErr result → self.new ≡ self.old }
    {
        if self.ready || !self.confirmed {
            return Ok(());
        }
        if count < self.acknowledged {
            return Err(OldBook);
        }
        self.made = count;
        self.sent = count;
        self.ready = true;
        Ok(())
    }

    /// Returns whether the other host has acknowledged by this start's nonce. Once all have, the book may be replayed.
    pub fn is_confirmed(&self) -> bool
        ensures { result ≡ self.now.confirmed }
    {
        self.confirmed
    }

    /// Returns whether the book is replayed, so that frames are said and taken.
    pub fn is_ready(&self) -> bool
        ensures { result ≡ self.now.ready }
    {
        self.ready
    }

    /// Returns how many frames were made for the other host.
    pub fn made(&self) -> u64
        ensures { result ≡ self.now.made }
    {
        self.made
    }

    /// Returns how many frames the other host has acknowledged. They need not be kept.
    pub fn acknowledged(&self) -> u64
        ensures { result ≡ self.now.acknowledged }
    {
        self.acknowledged
    }

    /// Returns how many frames were taken from the other host.
    pub fn taken(&self) -> u64
        ensures { result ≡ self.now.taken }
    {
        self.taken
    }

    /// Returns how many frames are to be said again, each second, from the one after those that are acknowledged on: at
    /// most 1,000.
    pub fn said_again(&self) -> u64
        ensures { result ≡ said_again self.now }
    {
        SAID_AGAIN.min(self.sent.saturating_sub(self.acknowledged))
    }

    /// Whether this answers the open question.
    fn is_answer(&self, asker: u128, question: u64) -> bool
        ensures { result ≡ is_answer self.now asker question }
    {
        asker == self.own && question == self.asked && self.pending.is_some()
    }

    /// Whether the host is ready, and has sent fewer frames than this.
    fn is_above(&self, kept: u64) -> bool
        ensures { result ≡ is_above self.now kept }
    {
        self.ready && self.sent < kept
    }

    /// Whether an answer to the open question shows that the other book is old.
    fn shows_old(&self, start: u128, kept: u64) -> bool
        ensures { result ≡ shows_old self.now start kept }
    {
        let is_below = match self.pending {
            Some(count) => kept < count,
            None => false,
        };
        is_below || (!is(self.adopted, start) && kept < self.acknowledged)
    }
}

/// Whether the nonce is known, and is this one.
fn is(nonce: Option<u128>, start: u128) -> bool
    ensures { result ≡ is_nonce nonce start }
{
    match nonce {
        Some(nonce) => nonce == start,
        None => false,
    }
}

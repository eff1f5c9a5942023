ghost use Rattle.std.specs.Prelude.{◌≡◌};
ghost use Rattle.ra_world.specs.Keeping.{report_with};

use ra_stamp::Marks;

/// The report of a run.
#[derive(Debug, Drop)]
pub struct Report {
    /// The requests, grants, releases and withdrawals, in order.
    pub marks: Marks,
    /// How many messages were sent, copies not counted.
    pub sent: u128,
    /// How many requests were made: the marks Requested.
    pub requests: u128,
    /// How many messages are under way, copies among them.
    pub under_way: u128,
    /// How many messages were lost.
    pub lost: u128,
    /// How many copies of messages were put under way. It is not printed.
    pub repeated: u128,
    /// How many requests were withdrawn: the marks Withdrawn.
    pub withdrawn: u128,
    /// How many requests wait for their replies.
    pub waiting: u128,
    /// How many clients are queued at their nodes.
    pub queued: u128,
}

/// The figures of a report: all but its marks.
#[derive(Clone, Copy)]
pub struct Figures {
    pub sent: u128,
    pub requests: u128,
    pub under_way: u128,
    pub lost: u128,
    pub repeated: u128,
    pub withdrawn: u128,
    pub waiting: u128,
    pub queued: u128,
}

impl Figures {
    /// Makes the report of these figures and marks.
    pub fn with_marks(self, marks: Marks) -> Report
        ensures { result ≡ report_with self marks }
    {
        Report {
            marks,
            sent: self.sent,
            requests: self.requests,
            under_way: self.under_way,
            lost: self.lost,
            repeated: self.repeated,
            withdrawn: self.withdrawn,
            waiting: self.waiting,
            queued: self.queued,
        }
    }
}

ghost use Rattle.std.specs.Prelude.{◌≡◌, ◌↔◌, IsSome, IfSome};
ghost use Rattle.ra_schedule.specs.Faults.{AreFaults};
ghost use Rattle.ra_schedule.specs.Schedule.{with_fault};
ghost use Rattle.ra_schedule.specs.declared.choice.Choice.{Choice};

use crate::Choice;
use std::marker::Model;

/// How many of each thousand messages that chance takes are lost, and how many are repeated, on average. Together they
/// are at most 1,000. At most 400 are repeated, so that on average copies do not multiply without end. Contracts see
/// the two numbers.
#[derive(Clone, Copy)]
pub struct Faults {
    lose: u16,
    repeat: u16,
}

impl Model for Faults {
    ghost use Rattle.ra_schedule.specs.Faults.{FaultRates, AreFaults};

    ghost Value = { FaultRates };

    ghost view = { λ f. record { lose = f.lose; repeat = f.repeat } };

    ghost invariant = { λ f. AreFaults (record { lose = f.lose; repeat = f.repeat }) };

    ghost inverse = { λ rates. record { lose = rates.lose; repeat = rates.repeat } };
}

impl Faults {
    /// How many messages the two numbers refer to.
    pub const MAX: u16 = 1000;

    /// How many of them may be repeated.
    pub const MAX_REPEAT: u16 = 400;

    /// Returns the faults with these numbers, or `None` if they are more than 1,000 together, or more than 400 are
    /// repeats. It does not allocate. The numbers are checked here, once, so `drive` needs no refusal for them.
    pub fn new(lose: u16, repeat: u16) -> Option<Faults>
        ensures valid { IsSome result ↔ AreFaults (record { lose = lose; repeat = repeat }) }
        ensures value { IfSome result (λ faults. faults ≡ record { lose = lose; repeat = repeat }) }
    {
        if lose <= Faults::MAX && repeat <= Faults::MAX_REPEAT && lose + repeat <= Faults::MAX {
            Some(Faults { lose, repeat })
        } else {
            None
        }
    }

    /// Returns what happens to the message at this place, as a random word decides.
    pub(crate) fn befall(self, word: u64, place: u64) -> Choice
        ensures { result ≡ with_fault self word (Choice.Message place) }
    {
        let number = word % u64::from(Faults::MAX);
        if number < u64::from(self.lose) {
            Choice::Lost(place)
        } else if number < u64::from(self.lose + self.repeat) {
            Choice::Repeated(place)
        } else {
            Choice::Message(place)
        }
    }
}

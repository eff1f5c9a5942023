pub mod choices_reading;
pub mod choices_spelling;
pub mod enabled;
pub mod faults;
pub mod picking;
pub mod random_choice;
pub mod random_state;

use crate::Faults;
use ra_stamp::Sequence;

/// What may come next in a cluster that follows a script.
#[derive(Clone, Copy, Debug, PartialEq, Eq)]
pub enum Choice {
    /// The next operation of this client, by its number from 1.
    Client(u32),
    /// The message at this place of those under way, counted from 0 in the order of sending, is delivered.
    Message(u64),
    /// The message at this place is lost.
    Lost(u64),
    /// The message at this place is repeated: it stays under way, and comes once more after all others.
    Repeated(u64),
}

/// The most digits of the number in the word of a choice.
const MAX_DIGITS: usize = 9;

/// One more than the greatest number of that many digits.
const TOO_MUCH: u64 = 1_000_000_000;

/// A list of choices.
pub type Choices = Sequence<Choice>;

/// How the next choice is made.
#[derive(Drop)]
pub enum Policy {
    /// The first client in the order of the script that is enabled. If none is, the message that was sent first of
    /// those under way. If nothing is under way either, the end.
    Oldest,
    /// The same, with the message that was sent last.
    Newest,
    /// At random, from a seed. The choices of a turn are the clients that are enabled, in the order of the script, and
    /// after them the messages under way, in the order of sending. The turn draws one word, the next one of the PCG
    /// generator XSL RR 128/64 of this seed, and takes the choice whose number, counted from 0, is the word modulo the
    /// number of choices. If there is no choice, no word is drawn and it ends. So a script and a seed have one run, the
    /// same on each machine.
    Seeded(u64),
    /// The same chance, with faults. If the word names a message, the turn draws a second word, and that word modulo
    /// 1,000 says what happens to the message. It is lost below the number of losses, repeated from there on below the
    /// sum of both numbers, and otherwise delivered.
    Faulty { seed: u64, faults: Faults },
    /// These choices, one after the other, and then the end.
    Listed(Choices),
}

/// What one host says to another one. It names the starts that it is meant for, by their nonces: 128 random bits that
/// no other start ever has. The text of a frame goes with its message.
#[derive(Clone, Copy, Debug, PartialEq, Eq)]
pub enum Message {
    /// A question, which is said again until it is answered.
    Hello {
        /// The nonce of the start that asks.
        start: u128,
        /// Which of its questions it is, 1 or more.
        question: u64,
    },
    /// The answer.
    Welcome {
        /// The nonce of the start that asked.
        asker: u128,
        /// Its question.
        question: u64,
        /// The nonce of the start that answers.
        start: u128,
        /// How many frames of the asker are on the disk of the host that answers.
        kept: u64,
    },
    /// A frame.
    Frame {
        /// The nonce of the start that says it.
        start: u128,
        /// The number of the frame, 1 or more. The frames for a host are numbered in the order of their making.
        number: u64,
    },
    /// All frames that were taken from the receiver are on the disk.
    Ack {
        /// The nonce of the start that says it.
        start: u128,
        /// The nonce of the receiver's start: the start whose frames it takes.
        other: u128,
        /// How many they are.
        kept: u64,
    },
    /// The receiver's book is old: it has acknowledged more frames than are in it.
    Old {
        /// How many it has acknowledged.
        count: u64,
    },
}

//! What shapes say in words.
use ra_stamp::Message;

/// Each mode in words, after a comma, in the order of `Mode`.
pub const MODE_TEXTS: [&str; 5] = [
    ", shared",
    ", exclusive",
    ", intent shared",
    ", intent exclusive",
    ", shared and intent exclusive",
];

/// Returns the kind of a message.
pub fn kind_of(message: &Message) -> &'static str {
    match message {
        Message::Request { .. } => "request",
        Message::Reply { .. } => "reply",
    }
}

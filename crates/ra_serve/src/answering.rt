//! What a host says as it hears another one.
ghost use Rattle.std.specs.Prelude.{◌≡◌, is_some};
ghost use Rattle.ra_link.specs.Link.{hello_of};
ghost use Rattle.ra_serve.specs.Answering as spec;
ghost use Rattle.ra_serve.specs.Answering.{AnswersHello, AnswersWelcome, Hears, Meets};

use crate::base::Base;
use crate::notes::{note_book, note_settings};
use crate::saying::{acknowledge, ask, say_plain};
use ra_link::{Link, Message};
use ra_stamp::NodeId;

/// Returns whether a question comes from a host with this one's settings, and with the book that it had before. Notes
/// it if not.
pub fn may_hear(base: &mut Base, host: NodeId, nodes: NodeId, first: u64, identity: u128) -> bool
    ensures heard { result ≡ spec.may_hear base.old host nodes first identity }
    ensures meets { Meets base.old host nodes first identity base.new }
{
    if nodes != base.settings.nodes() || first != base.settings.start {
        note_settings(base, host, nodes, first);
        return false;
    }
    let mut peer = base.peer(host);
    if let Some(known) = peer.identity {
        if known != identity {
            note_book(base, host);
            return false;
        }
    }
    peer.identity = Some(identity);
    base.put(host, peer);
    true
}

/// Returns the number of a message that is a question.
fn question_in(message: Option<Message>) -> Option<u64>
    ensures { result ≡ spec.question_in message }
{
    match message {
        Some(Message::Hello { question, .. }) => Some(question),
        _ => None,
    }
}

/// Returns whether another question is open than before, or one and none before, or none and one before.
fn is_another(was: Option<u64>, is: Option<u64>) -> bool
    ensures { result ≡ spec.is_another was is }
{
    match (was, is) {
        (None, None) => false,
        (Some(was), Some(is)) => was != is,
        _ => true,
    }
}

/// Returns whether a message is this question of this start.
fn is_question(message: Option<Message>, start: u128, question: u64) -> bool
    ensures { result ≡ spec.is_question message start question }
{
    match message {
        Some(
            Message::Hello {
                start: own,
                question: number,
            },
        ) => own == start && number == question,
        _ => false,
    }
}

/// A host's question was heard, by a link that was and is now this: says the answer, and this host's own question if it
/// asks anew.
pub fn answer_hello(base: &mut Base, host: NodeId, was: Link, is: Link, welcome: Message)
    ensures { AnswersHello base.old host was is welcome base.new }
{
    say_plain(base, host, Some(welcome));
    if is_another(question_in(was.hello()), question_in(is.hello())) {
        ask(base, host, is);
    }
}

/// A host's answer was heard, by a link that was and is now this: says the ack, or that the other book is old. An answer
/// to another question than the open one changes nothing.
pub fn answer_welcome(
    base: &mut Base,
    host: NodeId,
    was: Link,
    is: Link,
    start: u128,
    question: u64,
)
    ensures { AnswersWelcome base.old host was is start question base.new }
{
    if !is_question(was.hello(), start, question) {
        return;
    }
    if is.hello().is_none() {
        base.touch(host);
        acknowledge(base, host, is);
    } else {
        say_plain(base, host, is.old());
    }
}

/// Notes when a host was heard to which no question is open.
pub fn was_heard(base: &mut Base, host: NodeId, link: Link)
    ensures { Hears (is_some (hello_of link)) base.old host base.new }
{
    if link.hello().is_none() {
        base.touch(host);
    }
}

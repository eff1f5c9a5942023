//! What a host says to others.
ghost use Rattle.std.specs.Prelude.{◌≡◌, Some, IfSome, is_some};
ghost use Rattle.ra_frame.specs.Fits.{Fits};
ghost use Rattle.ra_link.specs.Link.{ack_of, hello_of};
ghost use Rattle.ra_host_text.specs.HostText.{IsUnfit};
ghost use Rattle.ra_serve.specs.Saying as spec;
ghost use Rattle.ra_serve.specs.Saying.{Acknowledges, Asks, Says, SaysFrame, SaysPlain, SaysQuestion};

use crate::Settings;
use crate::base::Base;
use ra_frame::Frame;
use ra_host_text::{HostLine, HostMessage, push_peer_line};
use ra_link::{Link, Message};
use ra_stamp::NodeId;

/// Says a message to a host. If it has a frame that does not fit, it has no text, and nothing is said.
fn say(base: &mut Base, to: NodeId, message: HostMessage)
    ensures fits { (IsUnfit message → ⊥) → Says base.old to message base.new }
    ensures unfit { IsUnfit message → base.new ≡ base.old }
{
    let line = HostLine {
        cluster: base.settings.cluster,
        from: base.settings.me(),
        to,
        message,
    };
    let _ = push_peer_line(&mut base.out, &line);
}

/// Returns the text's message for one of a link that is no frame.
fn host_message(settings: &Settings, identity: u128, message: Message) -> Option<HostMessage>
    ensures said { result ≡ spec.said_of settings.now identity message }
    ensures fits { IfSome result (λ said. IsUnfit said → ⊥) }
{
    match message {
        Message::Hello { start, question } => Some(HostMessage::Hello {
            start,
            question,
            nodes: settings.nodes(),
            first: settings.start,
            identity,
        }),
        Message::Welcome {
            asker,
            question,
            start,
            kept,
        } => Some(HostMessage::Welcome {
            asker,
            question,
            start,
            kept,
        }),
        Message::Frame { .. } => None,
        Message::Ack { start, other, kept } => Some(HostMessage::Ack { start, other, kept }),
        Message::Old { count } => Some(HostMessage::Old { count }),
    }
}

/// Says a message of a link that is no frame, if there is one.
pub fn say_plain(base: &mut Base, to: NodeId, message: Option<Message>)
    ensures { SaysPlain base.old to message base.new }
{
    let Some(message) = message else {
        return;
    };
    if let Some(message) = host_message(&base.settings, base.identity, message) {
        say(base, to, message);
    }
}

/// Says a frame with its message. One that does not fit has no text, and nothing is said.
pub fn say_frame(base: &mut Base, to: NodeId, message: Message, frame: Frame)
    ensures fits { Fits frame → SaysFrame base.old to message frame base.new }
    ensures unfit { (Fits frame → ⊥) → base.new ≡ base.old }
{
    if let Message::Frame { start, number } = message {
        say(
            base,
            to,
            HostMessage::Frame {
                start,
                number,
                frame,
            },
        );
    }
}

/// Says the open question, if there is one, and `old` if its answer showed that the other book is old.
pub fn say_question(base: &mut Base, to: NodeId, link: Link)
    ensures { SaysQuestion base.old to link base.new }
{
    say_plain(base, to, link.hello());
    say_plain(base, to, link.old());
}

/// Says a question for the first time.
pub fn ask(base: &mut Base, to: NodeId, link: Link)
    ensures { Asks base.old to link base.new }
{
    base.begin_question(to);
    say_question(base, to, link);
}

/// Says an ack, or if not all that was taken is on the disk, it is owed. Before the first answer it says nothing.
pub fn acknowledge(base: &mut Base, to: NodeId, link: Link)
    ensures { Acknowledges base.old to (ack_of link) (is_some (hello_of link)) base.new }
{
    match link.ack() {
        Some(ack) => say_plain(base, to, Some(ack)),
        None => {
            if link.hello().is_none() {
                base.owe(to);
            }
        }
    }
}

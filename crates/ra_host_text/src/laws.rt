//! What is true of every text. Each function does nothing, and its contract is the law.
ghost use Rattle.std.specs.Prelude.{◌≡◌, ◌≢◌, ℕ, List, All};
ghost use Rattle.ra_host_text.specs.ClientText.{IsAnswer, IsClientLine};
ghost use Rattle.ra_host_text.specs.HostText.{IsHeard, IsHostLine, IsMessage, IsUnheard};
ghost use Rattle.ra_host_text.specs.LineText.{Input, IsInput};
ghost use Rattle.ra_host_text.specs.StatusText.{IsStatusInRange, status_text};
ghost use Rattle.ra_host_text.specs.declared.answer.Answer.{Answer};
ghost use Rattle.ra_host_text.specs.declared.client_line.ClientLine.{ClientLine};
ghost use Rattle.ra_host_text.specs.declared.host_line.HostLine.{HostLine};
ghost use Rattle.ra_host_text.specs.declared.host_line.message_fault.MessageFault.{MessageFault};
ghost use Rattle.ra_host_text.specs.declared.host_message.HostMessage.{HostMessage};
ghost use Rattle.ra_host_text.specs.declared.status_line.StatusLine.{StatusLine};

use ra_frame::round_trip;

/// No text is two messages, and no line says two things. A line that is heard is not dropped, and none is dropped for
/// two causes.
pub fn host_lines_are_read_in_one_way()
    ensures message { (text : List ℕ) (a b : HostMessage) → IsMessage text a → IsMessage text b → a ≡ b }
    ensures line { (line : List ℕ) (a b : HostLine) → IsHostLine line a → IsHostLine line b → a ≡ b }
    ensures heard { (line cluster : List ℕ) (from to : ℕ) (message : HostMessage) (why : MessageFault)
        → IsHeard line cluster from to message → IsUnheard line cluster from to why → ⊥ }
    ensures cause { (line cluster : List ℕ) (from to : ℕ) (cause why : MessageFault)
        → IsUnheard line cluster from to cause → IsUnheard line cluster from to why → cause ≡ why }
    // A line has no line feed.
    ensures feed { (line : List ℕ) (said : HostLine) → IsHostLine line said → All (λ byte. byte ≢ 10) line }
{
    // For the proof: a text is one frame's.
    round_trip();
}

/// No line says two things to a host: neither one of a client, nor one of its own process. No line is two answers.
pub fn lines_are_read_in_one_way()
    ensures client { (line : List ℕ) (a b : ClientLine) → IsClientLine line a → IsClientLine line b → a ≡ b }
    ensures answer { (line : List ℕ) (a b : Answer) → IsAnswer line a → IsAnswer line b → a ≡ b }
    ensures input { (line : List ℕ) (a b : Input) → IsInput line a → IsInput line b → a ≡ b }
    // What clients say and what they are answered has no line feed.
    ensures client_feed { (line : List ℕ) (said : ClientLine) → IsClientLine line said → All (λ byte. byte ≢ 10) line }
    ensures answer_feed { (line : List ℕ) (answer : Answer) → IsAnswer line answer → All (λ byte. byte ≢ 10) line }
    ensures status_feed { (line : StatusLine) → IsStatusInRange line → All (λ byte. byte ≢ 10) (status_text line) }
{}

//! The lines that a host writes.
ghost use Rattle.std.specs.Prelude.{◌≡◌, ◌≢◌, ◌++◌, ◌↔◌, ℕ, List, All, codes, decimal, IsErr, OnErr, OnOk};
ghost use Rattle.ra_text.specs.Drafting.{Adds};
ghost use Rattle.ra_text.specs.Lines.{field};
ghost use Rattle.ra_host_text.specs.ClientText.{answer_text};
ghost use Rattle.ra_host_text.specs.HostText.{IsHostLine, IsUnfit};
ghost use Rattle.ra_host_text.specs.LineText.{client_text, fatal_word, peer_text};
ghost use Rattle.ra_host_text.specs.StatusText.{status_text};

use crate::{Answer, Fatal, HostLine, StatusLine, Unfit};
use ra_text::Draft;

/// Adds the line `peer J TEXT`: a text is to be said to the host that it is for.
///
/// # Errors
///
/// `Unfit`: it has a frame that does not fit. Nothing is added.
pub fn push_peer_line(text: &mut Draft, said: &HostLine) -> Result<(), Unfit>
    ensures ok { OnOk result ((line : List ℕ) × IsHostLine line said.now
        × Adds text.old (peer_text said.now.to line ++ codes "\n") text.new) }
    ensures err { OnErr result (text.new ≡ text.old) }
    ensures unfit { IsErr result ↔ IsUnfit said.now.message }
{
    if !said.message.fits() {
        return Err(Unfit);
    }
    text.push("peer");
    text.push_number(said.to.get());
    text.push(" ");
    said.push_fitting(text);
    text.end_line();
    Ok(())
}

/// Adds a word and a client.
fn push_client(text: &mut Draft, word: &str, client: u64)
    ensures { Adds text.old (word.now ++ field (decimal client)) text.new }
{
    text.push(word);
    text.push_number(client);
}

/// Adds the line `client C TEXT`: an answer is to be said to a client.
pub fn push_answer_line(text: &mut Draft, client: u64, answer: &Answer)
    ensures { Adds text.old (client_text client (answer_text answer.now) ++ codes "\n") text.new }
{
    push_client(text, "client", client);
    text.push(" ");
    answer.push(text);
    text.end_line();
}

/// Adds the line `client C TEXT`: a line of what the host knows is to be said to a client.
pub fn push_status_line(text: &mut Draft, client: u64, line: &StatusLine)
    ensures { Adds text.old (client_text client (status_text line.now) ++ codes "\n") text.new }
{
    push_client(text, "client", client);
    text.push(" ");
    line.push(text);
    text.end_line();
}

/// Adds the line `client C TEXT`: a text is to be said to a client. It has no line feed.
pub fn push_client_line(text: &mut Draft, client: u64, said: &str)
    requires { All (λ byte. byte ≢ 10) said.now }
    ensures { Adds text.old (client_text client said.now ++ codes "\n") text.new }
{
    push_client(text, "client", client);
    text.push_field(said);
    text.end_line();
}

/// Adds the line `close C`: a client's connection is to be ended.
pub fn push_close_line(text: &mut Draft, client: u64)
    ensures { Adds text.old (codes "close" ++ field (decimal client) ++ codes "\n") text.new }
{
    push_client(text, "close", client);
    text.end_line();
}

/// Adds the line `ready`: the host is back, and clients may connect.
pub fn push_ready_line(text: &mut Draft)
    ensures { Adds text.old (codes "ready\n") text.new }
{
    text.push("ready\n");
}

/// Adds the line `note TEXT`: a note for the log. It has no line feed.
pub fn push_note_line(text: &mut Draft, note: &str)
    requires { All (λ byte. byte ≢ 10) note.now }
    ensures { Adds text.old (codes "note" ++ field note.now ++ codes "\n") text.new }
{
    text.push("note");
    text.push_field(note);
    text.end_line();
}

/// Adds the last line, `fatal WORD`.
pub fn push_fatal_line(text: &mut Draft, why: Fatal)
    ensures { Adds text.old (codes "fatal" ++ field (fatal_word why) ++ codes "\n") text.new }
{
    text.push("fatal");
    text.push_field(why.word());
    text.end_line();
}

//! The two lines with which a host's book begins.
ghost use Rattle.std.specs.Prelude.{◌≡◌, ◌⊎◌, ◌+◌, ◌<◌, ◌^◌, length, Err, IfOk, MatchOption, None, string_bytes};
ghost use Rattle.ra_text.specs.Drafting.{Adds};
ghost use Rattle.ra_trace.specs.Forms.{cut, rest_after as after};
ghost use Rattle.ra_host_text.specs.declared.fatal.Fatal.TheVariants as fatal;
ghost use Rattle.ra_host_text.specs.Fields as fields;
ghost use Rattle.ra_serve.specs.Opening as spec;

use crate::Settings;
use ra_host_text::{Fatal, nonce_of, push_nonce};
use ra_stamp::Memory;
use ra_text::Draft;
use ra_trace::{rest_after, split_once};
use std::alloc::Global;

/// What a book has before its events.
#[derive(Clone, Copy)]
pub struct Opening {
    /// Whether it has its first line.
    pub has_first: bool,
    /// The first nonce of the book, if it has its second line.
    pub identity: Option<u128>,
    /// How many bytes these lines have.
    pub len: usize,
}

/// Adds the first line of a host's book, without its line feed.
pub fn push_first(text: &mut Draft, settings: &Settings)
    ensures { Adds text.old (spec.first_line settings.now) text.new }
{
    text.push("book 2");
    text.push_number(settings.member.node().get());
    text.push_number(settings.member.nodes());
    text.push_number(settings.start);
}

/// Adds the words of the second line before the nonce.
fn push_words(text: &mut Draft, settings: &Settings)
    ensures { Adds text.old (spec.second_words settings.now) text.new }
{
    text.push("cluster");
    text.push_field(settings.cluster.as_str());
    text.push(" ");
}

/// Adds the second line of a host's book, without its line feed.
pub fn push_second(text: &mut Draft, settings: &Settings, identity: u128)
    ensures { Adds text.old (spec.second_line settings.now identity) text.new }
{
    text.push("cluster");
    text.push_field(settings.cluster.as_str());
    push_nonce(text, identity);
}

/// Returns the first line of a host's book, without its line feed.
///
/// # Errors
///
/// `Memory`: there is no room for it.
fn first_line(alloc: Global, settings: &Settings) -> Result<String, Memory>
    ensures { IfOk result (λ line. string_bytes line ≡ spec.first_line settings.now) }
{
    let mut text = Draft::new(alloc);
    push_first(&mut text, settings);
    text.finish()
}

/// Returns the words of the second line before the nonce.
///
/// # Errors
///
/// `Memory`: there is no room for them.
fn second_words(alloc: Global, settings: &Settings) -> Result<String, Memory>
    ensures { IfOk result (λ words. string_bytes words ≡ spec.second_words settings.now) }
{
    let mut text = Draft::new(alloc);
    push_words(&mut text, settings);
    text.finish()
}

/// Reads the nonce after these words. It does not allocate.
fn nonce_after(words: &[u8], line: &[u8]) -> Option<u128>
    ensures { MatchOption (after words.now line.now) (result ≡ None) (λ rest. result ≡ fields.nonce_of rest) }
{
    let rest = rest_after(words, line)?;
    nonce_of(rest)
}

/// Reads what follows the first line, which has so many bytes. It does not allocate.
fn opening_after(words: &[u8], first: usize, rest: &[u8]) -> Result<Opening, Fatal>
    requires { first + length rest.now < 2 ^ 63 }
    ensures { result ≡ spec.after_first words.now first (cut 10 rest.now) }
{
    let Some((second, _)) = split_once(rest, b'\n') else {
        return Ok(Opening {
            has_first: true,
            identity: None,
            len: first + 1,
        });
    };
    match nonce_after(words, second) {
        Some(identity) => Ok(Opening {
            has_first: true,
            identity: Some(identity),
            len: first + 1 + (second.len() + 1),
        }),
        None => Err(Fatal::Book),
    }
}

/// Reads the lines before the events of a book, of which the first one and the words of the second are these. It does
/// not allocate.
fn opening_by(first: &[u8], words: &[u8], text: &[u8]) -> Result<Opening, Fatal>
    ensures { result ≡ spec.opening_by first.now words.now (cut 10 text.now) }
{
    let Some((line, rest)) = split_once(text, b'\n') else {
        return Ok(Opening {
            has_first: false,
            identity: None,
            len: 0,
        });
    };
    if line != first {
        return Err(Fatal::Book);
    }
    opening_after(words, line.len(), rest)
}

/// Reads the lines before the events of a book. The text has whole lines.
///
/// # Errors
///
/// `Book`: they are not those of this host's book. `Memory`: there is no room for the lines that it is to have.
pub fn opening_of(alloc: Global, text: &[u8], settings: &Settings) -> Result<Opening, Fatal>
    ensures { (result ≡ spec.opening_in settings.now text.now) ⊎ (result ≡ Err fatal.Memory) }
{
    let Ok(first) = first_line(alloc, settings) else {
        return Err(Fatal::Memory);
    };
    let Ok(words) = second_words(alloc, settings) else {
        return Err(Fatal::Memory);
    };
    opening_by(first.as_bytes(), words.as_bytes(), text)
}

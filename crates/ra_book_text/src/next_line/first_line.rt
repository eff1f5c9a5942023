//! The first line of a book.
ghost use Rattle.std.specs.Prelude.{◌≡◌, ◌∷◌, ◌++◌, ℕ, List, MatchOption};
ghost use Rattle.ra_book_text.specs.BookText.{IsFirst, version_text};
ghost use Rattle.ra_book_text.specs.declared.next_line.book_version.BookVersion.{BookVersion};

use crate::BookVersion;
use crate::next_line::book_fields::first_of;
use crate::next_line::event_line::MAX_LINE;
use ra_stamp::Member;
use ra_trace::rest_after;

/// What the first line of a book says.
#[derive(Clone, Copy)]
pub struct FirstLine {
    /// The version in which the lines after it are read.
    pub version: BookVersion,
    /// The node whose book it is, and how many nodes there are.
    pub member: Member,
    /// The number with which each resource begins.
    pub start: u64,
}

/// Returns the version that a line names as the first one of a book, and what comes after the space, or `None` if it
/// names none. It does not allocate.
fn version_of(line: &[u8]) -> Option<(BookVersion, &[u8])>
    ensures { MatchOption result ((version : BookVersion) (rest : List ℕ) → line.now ≡ version_text version ++ 32 ∷ rest
        → ⊥)
        (λ read. line.now ≡ version_text read.0 ++ 32 ∷ read.1.now) }
{
    if let Some(rest) = rest_after(b"book 1 ", line) {
        return Some((BookVersion::One, rest));
    }
    match rest_after(b"book 2 ", line) {
        Some(rest) => Some((BookVersion::Two, rest)),
        None => None,
    }
}

impl FirstLine {
    /// Returns what a line says as the first one of a book, without its line feed, or `None` if it is not one. One of
    /// more than 256 bytes never is. It does not allocate, and the cost is linear in the line.
    pub fn parse(line: &[u8]) -> Option<FirstLine>
        ensures { MatchOption result ((version : BookVersion) (node nodes start : ℕ)
            → IsFirst line.now version node nodes start → ⊥)
            (λ first. IsFirst line.now first.version first.member.node first.member.nodes first.start) }
    {
        if line.len() > MAX_LINE {
            return None;
        }
        let (version, rest) = version_of(line)?;
        let fields = first_of(rest)?;
        let (node, (nodes, start)) = fields;
        match Member::new(node, nodes.get()) {
            Ok(member) => Some(FirstLine {
                version,
                member,
                start,
            }),
            // There is no such node.
            Err(_) => None,
        }
    }
}

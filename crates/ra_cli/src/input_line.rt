ghost use Rattle.std.specs.Prelude.{List, ℕ, IfSome, IfNone};
ghost use Rattle.ra_cli.specs.Line.{IsLine};

use ra_book_text::MAX_LINE;
use ra_text::cut;

/// Returns the input's one line without its line feed, or `None` if the input is no line. It does not allocate.
pub fn only_line_of(input: &[u8]) -> Option<&[u8]>
    ensures none { IfNone result ((line : List ℕ) → IsLine input.now line → ⊥) }
    ensures some { IfSome result (λ line. IsLine input.now line.now) }
{
    let (line, after) = cut(input, b'\n');
    if line.len() > MAX_LINE {
        return None;
    }
    match after {
        None => Some(line),
        Some(rest) => { if rest.is_empty() { Some(line) } else { None } }
    }
}

//! The first lines of the books of a text.
use ra_book_text::FirstLine;
use ra_stamp::Member;
use ra_text::cut;

/// How many numbers there are from 0 to the highest node.
const NODE_NUMBERS: usize = 65;

/// What the first line of a book says, its number, counted from 1, and the text after it.
#[derive(Clone, Copy)]
pub struct Opening<'a> {
    /// The node whose book it is, and how many nodes there are.
    pub member: Member,
    pub start: u64,
    pub line: u64,
    pub after: &'a [u8],
}

/// The first lines of books.
#[derive(Clone, Copy)]
pub struct Openings<'a> {
    /// The first of them, if there is one.
    pub first: Option<Opening<'a>>,
    /// The last of them, if there is one.
    pub last: Option<Opening<'a>>,
    /// For each number of a node, the line that begins its book, if it has one.
    lines: [Option<u64>; NODE_NUMBERS],
}

impl<'a> Openings<'a> {
    /// Returns the first lines of books before the line with this number, counted from 1, and the text from that line
    /// on. If the text ends before, this is its last line.
    pub fn before(text: &'a [u8], number: u64) -> (Openings<'a>, &'a [u8]) {
        let mut openings = Openings {
            first: None,
            last: None,
            lines: [None; NODE_NUMBERS],
        };
        let mut rest = text;
        for line in 1..number {
            let (shown, Some(after)) = cut(rest, b'\n') else {
                break;
            };
            if let Some(first) = FirstLine::parse(shown) {
                if openings.first.is_none() {
                    openings.first = Some(Opening {
                        member: first.member,
                        start: first.start,
                        line,
                        after,
                    });
                }
                openings.last = Some(Opening {
                    member: first.member,
                    start: first.start,
                    line,
                    after,
                });
                openings.lines[usize::from(first.member.node().get())] = Some(line);
            }
            rest = after;
        }
        (openings, rest)
    }

    /// Returns the line that begins the book of a node, or `None` if it has none.
    pub fn line_of(&self, node: u16) -> Option<u64> {
        match self.lines.get(usize::from(node)) {
            Some(line) => *line,
            None => None,
        }
    }
}

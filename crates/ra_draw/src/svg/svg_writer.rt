//! How the text of a picture is written.
ghost use Rattle.std.specs.Prelude.{◌≡◌, ℕ, false, List, [], decimal, IfOk};

use crate::layout::NameCut;
use itoa::Buffer;
use ra_stamp::{Memory, Name, NodeId};
use ra_text::cut;
use std::alloc::Global;

/// What is put in a place of a pattern.
#[derive(Clone, Copy)]
pub enum PatternValue<'a> {
    Number(u64),
    Node(NodeId),
    Text(&'a str),
    Whole(&'a Name),
    /// A name without what is left out.
    Short(&'a Name, NameCut),
}

/// A text that is written from its start to its end. If memory runs out nothing more is written, and `finish` says so:
/// so what is written with it gives no error of its own.
///
/// No text that is written has a letter with a meaning of its own in XML: words are those of this crate, names have
/// letters, digits, `_`, `-` and `.`, and everything else is a number.
#[derive(Drop)]
pub struct SvgWriter {
    text: Vec<u8>,
    /// Nothing more is written, since memory ran out.
    pub is_out: bool,
}

impl SvgWriter {
    ghost use Rattle.ra_draw.specs.Writing.{Adds, Says};

    /// Begins a text.
    pub fn new(alloc: Global) -> SvgWriter
        ensures { Says result [] }
    {
        SvgWriter {
            text: Vec::new(alloc),
            is_out: false,
        }
    }

    /// Adds these bytes.
    pub fn put(&mut self, bytes: &[u8])
        ensures { Adds self.old bytes.now self.new }
    {
        if !self.is_out {
            self.is_out = self.text.extend_from_slice(bytes).is_err();
        }
    }

    /// Adds a number.
    pub fn put_number(&mut self, number: u64)
        ensures { Adds self.old (decimal number) self.new }
    {
        self.put(Buffer::new().format(number).as_bytes());
    }

    /// Adds what another writer wrote.
    pub fn put_all(&mut self, other: &SvgWriter)
        ensures { (bytes : List ℕ) → Says other.now bytes → Adds self.old bytes self.new }
    {
        self.put(&other.text);
        self.is_out = self.is_out || other.is_out;
    }

    /// Adds a value. In a short name, two dots take the place of what is left out at an end.
    fn put_value(&mut self, value: &PatternValue) {
        match value {
            PatternValue::Number(number) => self.put_number(*number),
            PatternValue::Node(node) => self.put(Buffer::new().format(node.get()).as_bytes()),
            PatternValue::Text(text) => self.put(text.as_bytes()),
            PatternValue::Whole(name) => self.put(name.bytes()),
            PatternValue::Short(name, cut) => {
                if cut.before > 0 {
                    self.put(b"..");
                }
                self.put(cut.shown(name.bytes()));
                if cut.after > 0 {
                    self.put(b"..");
                }
            }
        }
    }

    /// Adds a pattern, with these values in the places of `$`. A value without a place is left out.
    pub fn write(&mut self, pattern: &str, values: &[PatternValue]) {
        let mut rest = pattern.as_bytes();
        for value in values {
            let (before, Some(after)) = cut(rest, b'$') else {
                break;
            };
            self.put(before);
            self.put_value(value);
            rest = after;
        }
        self.put(rest);
    }

    /// Returns the text.
    pub fn finish(self) -> Result<Vec<u8>, Memory>
        ensures { (bytes : List ℕ) → Says self bytes → IfOk result (λ text. text.items ≡ bytes) }
    {
        let SvgWriter { text, is_out } = self;
        if is_out { Err(Memory) } else { Ok(text) }
    }
}

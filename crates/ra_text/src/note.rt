//! A note to a person as it is made, part by part.
use crate::draft::Draft;
use itoa::{Buffer, Integer};
use ra_stamp::{Memory, Mode, Name};
use std::alloc::Global;

/// The most bytes or characters of an input that are quoted at once.
const MAX_QUOTED: usize = 60;

/// A note on one line, as it is made. As in a [`Draft`], if memory runs out for a part, the note remembers it and
/// `finish` reports it.
pub struct Note {
    draft: Draft,
}

// What it owns is freed here, so that no other crate proves how each of its parts is dropped.
impl Drop for Note {
    fn drop(self) {
        let Note { draft: _ } = self;
    }
}

impl Note {
    /// Makes a note that is empty so far. It does not allocate.
    pub fn new(alloc: Global) -> Note {
        Note {
            draft: Draft::new(alloc),
        }
    }

    /// Remembers that memory ran out, if it did.
    pub fn refuse_if(&mut self, refused: bool) {
        self.draft.refused = self.draft.refused || refused;
    }

    /// Returns whether the note is empty, and memory never ran out.
    pub fn is_empty(&self) -> bool {
        !self.draft.refused && self.draft.text.is_empty()
    }

    /// Adds a text.
    pub fn push(&mut self, text: &str) {
        self.draft.push(text);
    }

    /// Adds a number in decimal digits.
    pub fn number<N: Integer>(&mut self, number: N) {
        self.push(Buffer::new().format(number));
    }

    /// Adds a name in quotes.
    pub fn name(&mut self, name: &Name) {
        self.push("'");
        self.push(name.as_str());
        self.push("'");
    }

    /// Adds a mode in brackets, after a space.
    pub fn mode(&mut self, mode: Mode) {
        self.push(" (");
        self.push(mode.word());
        self.push(")");
    }

    /// Adds a client.
    pub fn client(&mut self, client: u32) {
        self.push("client ");
        self.number(client);
    }

    /// Adds a character, or `?` in place of a control character.
    fn letter(&mut self, letter: char) {
        let shown = if letter.is_control() { '?' } else { letter };
        let pushed = self.draft.text.push(shown);
        self.refuse_if(pushed.is_err());
    }

    /// Adds a text, with `?` in place of each control character, since that could end the line.
    pub fn shown(&mut self, text: &str) {
        for letter in text.chars() {
            self.letter(letter);
        }
    }

    /// Adds the lines of a text, with a colon between two, and with `?` in place of each other control character.
    pub fn lines(&mut self, text: &str) {
        for letter in text.chars() {
            match letter {
                '\n' => self.push(": "),
                _ => self.letter(letter),
            }
        }
    }

    /// Adds a text of an input in quotes, and only its first 60 characters, with `?` in place of each control
    /// character.
    pub fn quoted_text(&mut self, text: &str) {
        self.push("'");
        let mut left = MAX_QUOTED;
        for letter in text.chars() {
            if left == 0 {
                self.push("..");
                break;
            }
            left -= 1;
            self.letter(letter);
        }
        self.push("'");
    }

    /// Adds bytes of an input, and only the first 60, with `?` in place of each that is not a printable character of
    /// ASCII.
    pub fn bytes(&mut self, bytes: &[u8]) {
        for byte in &bytes[..bytes.len().min(MAX_QUOTED)] {
            self.letter(match byte {
                b' '..=b'~' => char::from(*byte),
                _ => '?',
            });
        }
        if bytes.len() > MAX_QUOTED {
            self.push("..");
        }
    }

    /// Adds bytes of an input in quotes, as [`Note::bytes`] does.
    pub fn quoted(&mut self, bytes: &[u8]) {
        self.push("'");
        self.bytes(bytes);
        self.push("'");
    }

    /// Adds, after this text, how many more things there are than are named, if there are more.
    pub fn push_more(&mut self, joint: &str, count: u64, named: u64) {
        if count > named {
            self.push(joint);
            self.number(count - named);
            self.push(" more");
        }
    }

    /// Returns the note, or `None` if it is empty.
    ///
    /// # Errors
    ///
    /// `Memory`: memory ran out for some part.
    pub fn finish(self) -> Result<Option<String>, Memory> {
        let Note { draft } = self;
        let text = draft.finish()?;
        if text.is_empty() {
            Ok(None)
        } else {
            Ok(Some(text))
        }
    }
}

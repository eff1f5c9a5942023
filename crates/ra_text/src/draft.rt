//! A text as it is made, part by part.
ghost use Rattle.std.specs.Prelude.{◌≡◌, ◌++◌, ◌↔◌, ℕ, false, List, [], codes, decimal, string_bytes, IfOk, IsOk};
ghost use Rattle.ra_text.specs.Lines as spec;

use itoa::{Buffer, Integer};
use ra_stamp::{Entry, Mark, Memory, Message, Name, NodeId};
use std::alloc::Global;

/// A text as it is made. If memory runs out for a part, the draft remembers it and `finish` reports it. So the calls
/// that add parts have no errors, and a function of many parts has one exit.
#[derive(Drop)]
pub struct Draft {
    /// What it is so far, if no part was refused.
    pub text: String,
    /// Whether memory ran out for some part.
    pub refused: bool,
}

impl Draft {
    ghost use Rattle.ra_text.specs.Drafting.{Says, Adds};

    /// Makes a draft that is empty so far. It does not allocate.
    pub fn new(alloc: Global) -> Draft
        ensures says { Says result [] }
        ensures fresh { result.refused ≡ false }
    {
        Draft {
            text: String::new(alloc),
            refused: false,
        }
    }

    /// Adds a text.
    pub fn push(&mut self, text: &str)
        ensures { Adds self.old text.now self.new }
    {
        if self.text.push_str(text).is_err() {
            self.refused = true;
        }
    }

    /// Adds the end of a line.
    pub fn end_line(&mut self)
        ensures { Adds self.old (codes "\n") self.new }
    {
        self.push("\n");
    }

    /// Adds a field that is text, with the space before it.
    pub fn push_field(&mut self, field: &str)
        ensures { Adds self.old (spec.field field.now) self.new }
    {
        self.push(" ");
        self.push(field);
    }

    /// Adds a field that is a number, with the space before it.
    pub fn push_number<I: Integer>(&mut self, number: I)
        ensures { Adds self.old (spec.field (I.text number)) self.new }
    {
        self.push_field(Buffer::new().format(number));
    }

    /// Adds a line of a word and the fields of an entry.
    pub fn push_entry_line(&mut self, word: &str, entry: &Entry)
        ensures { Adds self.old (word.now ++ spec.entry_fields entry.now ++ codes "\n") self.new }
    {
        self.push(word);
        self.push_number(entry.stamp.node.get());
        self.push_number(entry.client);
        self.push_field(entry.name.as_str());
        self.push_field(entry.mode.word());
        self.push_number(entry.stamp.seq);
        self.end_line();
    }

    /// Adds a kind of message, and then the sender, the receiver and the name.
    fn push_ends(&mut self, kind: &str, from: NodeId, to: NodeId, name: &Name)
        ensures { Adds self.old (spec.field kind.now ++ spec.field (decimal from) ++ spec.field (decimal to)
            ++ spec.field name.now) self.new }
    {
        self.push_field(kind);
        self.push_number(from.get());
        self.push_number(to.get());
        self.push_field(name.as_str());
    }

    /// Adds the fields of a message.
    pub fn push_message(&mut self, message: &Message)
        ensures { Adds self.old (spec.message_fields message.now) self.new }
    {
        match message {
            Message::Request {
                from,
                to,
                name,
                mode,
                seq,
            } => {
                self.push_ends("request", *from, *to, name);
                self.push_field(mode.word());
                self.push_number(*seq);
            }
            Message::Reply {
                from,
                to,
                name,
                seq,
            } => {
                self.push_ends("reply", *from, *to, name);
                self.push_number(*seq);
            }
        }
    }

    /// Adds the line of a mark.
    pub fn push_mark_line(&mut self, mark: &Mark)
        ensures { Adds self.old (spec.mark_line mark.now) self.new }
    {
        self.push_entry_line(mark.word(), mark.entry());
    }

    /// Adds the line of a total: a word, and then the number.
    pub fn push_total_line(&mut self, word: &str, total: u128)
        ensures { Adds self.old (spec.total_line word.now total) self.new }
    {
        self.push(word);
        self.push_number(total);
        self.end_line();
    }

    /// Returns the text.
    ///
    /// # Errors
    ///
    /// `Memory`: memory ran out for some part.
    pub fn finish(self) -> Result<String, Memory>
        ensures text { (bytes : List ℕ) → Says self bytes → IfOk result (λ text. string_bytes text ≡ bytes) }
        ensures refused { IsOk result ↔ (self.refused ≡ false) }
    {
        if self.refused {
            return Err(Memory);
        }
        Ok(self.text)
    }
}

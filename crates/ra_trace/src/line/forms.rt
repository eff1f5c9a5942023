//! The forms of lines.
ghost use Rattle.std.specs.Prelude.{◌≡◌, ◌++◌, ℕ, List, Some, None, MatchOption, drop};
ghost use Rattle.ra_trace.specs.Forms as spec;

use crate::line::Line;
use crate::line::fields::{mode_of, name_of, node_of, number_before, seq_of, split_once, start_of};
use crate::line::version::Version;
use ra_stamp::{Entry, Mark, Message, Mode, Name, NodeId, Stamp};
use ra_world::Step;

/// Returns what is after these words, or `None` if the text doesn't begin with them. It does not allocate.
#[tactic(auto, using(crate::proofs::Cuts::differs_at_once))]
#[inline(always)]
pub fn rest_after<'a>(words: &[u8], text: &'a [u8]) -> Option<&'a [u8]>
    ensures { MatchOption result (spec.rest_after words.now text.now ≡ None)
        (λ rest. spec.rest_after words.now text.now ≡ Some rest.now) }
{
    // Most words differ from the text in the first byte, and this is found sooner than by comparing all of them.
    if !words.is_empty() && !text.is_empty() && words[0] != text[0] {
        return None;
    }
    text.strip_prefix(words)
}

/// Reads a node before a space, and returns what is after it.
#[inline(always)]
fn node_before(text: &[u8]) -> Option<(NodeId, &[u8])>
    ensures { MatchOption result (spec.before spec.node_of text.now ≡ None)
        (λ prefix. spec.before spec.node_of text.now ≡ Some (prefix.0, prefix.1.now)) }
{
    let Some((number, rest)) = number_before(1, u64::from(NodeId::MAX), text) else {
        return None;
    };
    let Some(node) = NodeId::new(number as u16) else {
        return None;
    };
    Some((node, rest))
}

/// Reads a client before a space, and returns what is after it.
#[inline(always)]
fn client_before(text: &[u8]) -> Option<(u32, &[u8])>
    ensures { MatchOption result (spec.before spec.client_of text.now ≡ None)
        (λ prefix. spec.before spec.client_of text.now ≡ Some (prefix.0, prefix.1.now)) }
{
    let Some((number, rest)) = number_before(0, u64::from(u32::MAX), text) else {
        return None;
    };
    Some((number as u32, rest))
}

/// Reads a name, a mode and a number.
#[inline(always)]
fn name_mode_and_seq_of(text: &[u8]) -> Option<(Name, (Mode, u64))>
    ensures { result ≡ spec.fields spec.name_of (spec.fields spec.mode_of spec.seq_of) text.now }
{
    let Some((name, rest)) = split_once(text, b' ') else {
        return None;
    };
    let Some(name) = name_of(name) else {
        return None;
    };
    let Some((mode, seq)) = split_once(rest, b' ') else {
        return None;
    };
    let Some(mode) = mode_of(mode) else {
        return None;
    };
    let Some(seq) = seq_of(seq) else {
        return None;
    };
    Some((name, (mode, seq)))
}

/// Reads how many nodes there are, and the number that each resource begins with, in the first line of version 1 or 2.
fn plain_first_of(version: Version, text: &[u8]) -> Option<Line>
    ensures { result ≡ spec.first_as version text.now }
{
    let Some(prefix) = node_before(text) else {
        return None;
    };
    let (nodes, start) = prefix;
    let Some(start) = start_of(start) else {
        return None;
    };
    Some(Line::First {
        version,
        nodes,
        start,
    })
}

/// Reads the number that each resource begins with, at the end of the first line of version 3, and whether the word for
/// sends comes after it.
fn start_and_word_of(text: &[u8]) -> Option<(Version, u64)>
    ensures { result ≡ spec.start_and_word (spec.cut 32 text.now) text.now }
{
    match split_once(text, b' ') {
        None => match start_of(text) {
            Some(start) => Some((Version::Three, start)),
            None => None,
        },
        Some((start, b"sends")) => match start_of(start) {
            Some(start) => Some((Version::ThreeWithSends, start)),
            None => None,
        },
        Some(_) => None,
    }
}

/// Reads how many nodes there are, and the number that each resource begins with, in the first line of version 3.
fn third_of(text: &[u8]) -> Option<Line>
    ensures { result ≡ spec.third_in text.now }
{
    let Some(prefix) = node_before(text) else {
        return None;
    };
    let (nodes, rest) = prefix;
    let Some((version, start)) = start_and_word_of(rest) else {
        return None;
    };
    Some(Line::First {
        version,
        nodes,
        start,
    })
}

/// Reads the first line of this version, after the words that name it.
fn first_of(version: Version, text: &[u8]) -> Option<Line>
    ensures { result ≡ spec.first_in version text.now }
{
    match version {
        Version::One => plain_first_of(Version::One, text),
        Version::Two => plain_first_of(Version::Two, text),
        Version::Three | Version::ThreeWithSends => third_of(text),
    }
}

/// Reads node, client, name and mode.
#[inline(always)]
fn ask_of(text: &[u8]) -> Option<Line>
    ensures { result ≡ spec.read_as LineKind.Ask text.now }
{
    let Some(prefix) = node_before(text) else {
        return None;
    };
    let (node, rest) = prefix;
    let Some((client, rest)) = client_before(rest) else {
        return None;
    };
    let Some((name, mode)) = split_once(rest, b' ') else {
        return None;
    };
    let Some(name) = name_of(name) else {
        return None;
    };
    let Some(mode) = mode_of(mode) else {
        return None;
    };
    Some(Line::Stepped(Step::Ask {
        node,
        client,
        name,
        mode,
    }))
}

/// Reads node, client and name.
#[inline(always)]
fn leave_of(text: &[u8]) -> Option<Line>
    ensures { result ≡ spec.read_as LineKind.Leave text.now }
{
    let Some(prefix) = node_before(text) else {
        return None;
    };
    let (node, rest) = prefix;
    let Some((client, name)) = client_before(rest) else {
        return None;
    };
    let Some(name) = name_of(name) else {
        return None;
    };
    Some(Line::Stepped(Step::Leave { node, client, name }))
}

/// Reads node, client and name of a client that gives up.
fn cancel_of(text: &[u8]) -> Option<Line>
    ensures { result ≡ spec.read_as LineKind.Cancel text.now }
{
    let Some(prefix) = node_before(text) else {
        return None;
    };
    let (node, rest) = prefix;
    let Some((client, name)) = client_before(rest) else {
        return None;
    };
    let Some(name) = name_of(name) else {
        return None;
    };
    Some(Line::Stepped(Step::Cancel { node, client, name }))
}

/// Reads the node that forgets.
fn forget_of(text: &[u8]) -> Option<Line>
    ensures { result ≡ spec.read_as LineKind.Forget text.now }
{
    let Some(node) = node_of(text) else {
        return None;
    };
    Some(Line::Stepped(Step::Forget { node }))
}

/// What happens to a message.
#[derive(Clone, Copy)]
pub enum Fate {
    Delivered,
    Lost,
    Repeated,
    /// A step sends it.
    Told,
}

impl Fate {
    /// Returns the line of this message.
    #[inline(always)]
    fn line_of(self, message: Message) -> Line
        ensures { result ≡ spec.sent_line self message }
    {
        match self {
            Fate::Delivered => Line::Stepped(Step::Deliver(message)),
            Fate::Lost => Line::Stepped(Step::Lose(message)),
            Fate::Repeated => Line::Stepped(Step::Repeat(message)),
            Fate::Told => Line::Sent(message),
        }
    }
}

/// What happens to a request.
#[derive(Clone, Copy)]
pub enum Change {
    Requested,
    Entered,
    Left,
    Withdrawn,
}

impl Change {
    /// Returns the line of this entry.
    fn line_of(self, entry: Entry) -> Line
        ensures { result ≡ spec.entry_line self entry }
    {
        match self {
            Change::Requested => Line::Marked(Mark::Requested(entry)),
            Change::Entered => Line::Marked(Mark::Entered(entry)),
            Change::Left => Line::Marked(Mark::Left(entry)),
            Change::Withdrawn => Line::Marked(Mark::Withdrawn(entry)),
        }
    }
}

/// What a line is, and so which words begin it and which fields follow them.
#[derive(Clone, Copy)]
pub enum LineKind {
    /// The first line of a trace.
    First(Version),
    /// A client asks.
    Ask,
    /// A client leaves.
    Leave,
    /// A client gives up.
    Cancel,
    /// A node forgets.
    Forget,
    /// A REQUEST is delivered, lost, repeated or sent.
    Request(Fate),
    /// A REPLY is delivered, lost, repeated or sent.
    Reply(Fate),
    /// A mark of a request.
    Mark(Change),
    /// The last line of a trace.
    Last,
}

/// A field of a line.
#[derive(Clone, Copy)]
pub enum Field {
    /// How many nodes there are.
    Nodes,
    /// The number that each resource begins with.
    Start,
    /// The node of a client.
    Node,
    /// The node that sends a message.
    From,
    /// The node that gets it.
    To,
    /// The number of a client at its node.
    Client,
    /// The name of a resource.
    Name,
    /// How it is locked.
    Mode,
    /// The number of a request.
    Seq,
}

/// The fields of the first line.
const FIRST: &[Field] = &[Field::Nodes, Field::Start];

/// The fields of an ask.
const ASK: &[Field] = &[Field::Node, Field::Client, Field::Name, Field::Mode];

/// The fields of a release or a cancel.
const LEAVE: &[Field] = &[Field::Node, Field::Client, Field::Name];

/// The field of a node that forgets.
const FORGET: &[Field] = &[Field::Node];

/// The fields of a REQUEST.
const REQUEST: &[Field] = &[Field::From, Field::To, Field::Name, Field::Mode, Field::Seq];

/// The fields of a REPLY.
const REPLY: &[Field] = &[Field::From, Field::To, Field::Name, Field::Seq];

/// The fields of a mark.
const MARK: &[Field] = &[
    Field::Node,
    Field::Client,
    Field::Name,
    Field::Mode,
    Field::Seq,
];

impl LineKind {
    /// Returns the words that begin such a line, with the space before its first field if it has one. It does not
    /// allocate.
    pub fn words(self) -> &'static str
        ensures { (rest : List ℕ) → spec.line_in (result.now ++ rest) ≡ spec.read_as self rest }
    {
        match self {
            LineKind::First(Version::One) => "trace 1 ",
            LineKind::First(Version::Two) => "trace 2 ",
            LineKind::First(Version::Three | Version::ThreeWithSends) => "trace 3 ",
            LineKind::Ask => "ask ",
            LineKind::Leave => "release ",
            LineKind::Cancel => "cancel ",
            LineKind::Forget => "forget ",
            LineKind::Request(Fate::Delivered) => "deliver request ",
            LineKind::Request(Fate::Lost) => "lose request ",
            LineKind::Request(Fate::Repeated) => "repeat request ",
            LineKind::Request(Fate::Told) => "send request ",
            LineKind::Reply(Fate::Delivered) => "deliver reply ",
            LineKind::Reply(Fate::Lost) => "lose reply ",
            LineKind::Reply(Fate::Repeated) => "repeat reply ",
            LineKind::Reply(Fate::Told) => "send reply ",
            LineKind::Mark(Change::Requested) => "request ",
            LineKind::Mark(Change::Entered) => "enter ",
            LineKind::Mark(Change::Left) => "leave ",
            LineKind::Mark(Change::Withdrawn) => "withdraw ",
            LineKind::Last => "end",
        }
    }

    /// Returns the fields that follow the words of such a line, in order, with one space between them. It does not
    /// allocate.
    pub fn fields(self) -> &'static [Field]
        ensures { result.now ≡ spec.fields_of self }
    {
        match self {
            LineKind::First(_) => FIRST,
            LineKind::Ask => ASK,
            LineKind::Leave => LEAVE,
            LineKind::Cancel => LEAVE,
            LineKind::Forget => FORGET,
            LineKind::Request(_) => REQUEST,
            LineKind::Reply(_) => REPLY,
            LineKind::Mark(_) => MARK,
            LineKind::Last => &[],
        }
    }
}

/// Reads the line of a REQUEST: sender, receiver, name, mode and number.
fn read_request(fate: Fate, text: &[u8], line: &mut Option<Line>)
    ensures { line.new ≡ spec.read_as (LineKind.Request fate) text.now }
{
    *line = None;
    let Some(prefix) = node_before(text) else {
        return;
    };
    let (from, rest) = prefix;
    let Some(second) = node_before(rest) else {
        return;
    };
    let (to, rest) = second;
    let Some(others) = name_mode_and_seq_of(rest) else {
        return;
    };
    let (name, (mode, seq)) = others;
    *line = Some(fate.line_of(Message::Request {
        from,
        to,
        name,
        mode,
        seq,
    }));
}

/// Reads the line of a REPLY: sender, receiver, name and number.
fn read_reply(fate: Fate, text: &[u8], line: &mut Option<Line>)
    ensures { line.new ≡ spec.read_as (LineKind.Reply fate) text.now }
{
    *line = None;
    let Some(prefix) = node_before(text) else {
        return;
    };
    let (from, rest) = prefix;
    let Some(second) = node_before(rest) else {
        return;
    };
    let (to, rest) = second;
    let Some((name, seq)) = split_once(rest, b' ') else {
        return;
    };
    let Some(name) = name_of(name) else {
        return;
    };
    let Some(seq) = seq_of(seq) else {
        return;
    };
    *line = Some(fate.line_of(Message::Reply {
        from,
        to,
        name,
        seq,
    }));
}

/// Reads the line of a mark: node, client, name, mode and number.
fn read_mark(change: Change, text: &[u8], line: &mut Option<Line>)
    ensures { line.new ≡ spec.read_as (LineKind.Mark change) text.now }
{
    *line = None;
    let Some(prefix) = node_before(text) else {
        return;
    };
    let (node, rest) = prefix;
    let Some((client, rest)) = client_before(rest) else {
        return;
    };
    let Some(others) = name_mode_and_seq_of(rest) else {
        return;
    };
    let (name, (mode, seq)) = others;
    *line = Some(change.line_of(Entry {
        name,
        stamp: Stamp { seq, node },
        client,
        mode,
    }));
}

impl LineKind {
    /// Reads what is after the first words of such a line.
    #[inline(always)]
    fn read(self, rest: &[u8], line: &mut Option<Line>)
        ensures { line.new ≡ spec.read_as self rest.now }
    {
        match self {
            LineKind::First(version) => *line = first_of(version, rest),
            LineKind::Ask => *line = ask_of(rest),
            LineKind::Leave => *line = leave_of(rest),
            LineKind::Cancel => *line = cancel_of(rest),
            LineKind::Forget => *line = forget_of(rest),
            LineKind::Request(fate) => read_request(fate, rest, line),
            LineKind::Reply(fate) => read_reply(fate, rest, line),
            LineKind::Mark(change) => read_mark(change, rest, line),
            LineKind::Last if rest.is_empty() => *line = Some(Line::Last),
            LineKind::Last => *line = None,
        }
    }
}

/// Puts the line that a text with no line feed is into `line`, or `None` if it is not one. Whether its version allows
/// it is not asked. It does not allocate, and the cost is linear in the text. A line is long to move, so it is made
/// where it is needed.
///
/// No two forms of lines begin alike. Those of most lines come first.
#[inline(always)]
pub fn read_line_of(text: &[u8], line: &mut Option<Line>)
    ensures { line.new ≡ spec.line_in text.now }
{
    if let Some(rest) = rest_after(b"request ", text) {
        return LineKind::Mark(Change::Requested).read(rest, line);
    }
    if let Some(rest) = rest_after(b"enter ", text) {
        return LineKind::Mark(Change::Entered).read(rest, line);
    }
    if let Some(rest) = rest_after(b"leave ", text) {
        return LineKind::Mark(Change::Left).read(rest, line);
    }
    read_line_without_mark(text, line);
}

/// Reads a line that is not a mark's.
#[tactic(auto, using(crate::proofs::Deliveries::delivered))]
#[inline(always)]
fn read_line_without_mark(text: &[u8], line: &mut Option<Line>)
    ensures { line.new ≡ spec.line_by (drop 3 spec.forms) text.now }
{
    if let Some(rest) = rest_after(b"ask ", text) {
        return LineKind::Ask.read(rest, line);
    }
    if let Some(rest) = rest_after(b"release ", text) {
        return LineKind::Leave.read(rest, line);
    }
    let Some(message) = rest_after(b"deliver ", text) else {
        return read_rare_line(text, line);
    };
    if let Some(rest) = rest_after(b"request ", message) {
        return LineKind::Request(Fate::Delivered).read(rest, line);
    }
    if let Some(rest) = rest_after(b"reply ", message) {
        return LineKind::Reply(Fate::Delivered).read(rest, line);
    }
    *line = None;
}

/// Reads the line that a text is, if it is a loss, a repeat, a line that only version 3 has, or the first or the last
/// line of a trace.
fn read_rare_line(text: &[u8], line: &mut Option<Line>)
    ensures { line.new ≡ spec.line_by (drop 7 spec.forms) text.now }
{
    if let Some(rest) = rest_after(b"lose request ", text) {
        return LineKind::Request(Fate::Lost).read(rest, line);
    }
    if let Some(rest) = rest_after(b"lose reply ", text) {
        return LineKind::Reply(Fate::Lost).read(rest, line);
    }
    if let Some(rest) = rest_after(b"repeat request ", text) {
        return LineKind::Request(Fate::Repeated).read(rest, line);
    }
    if let Some(rest) = rest_after(b"repeat reply ", text) {
        return LineKind::Reply(Fate::Repeated).read(rest, line);
    }
    read_third_line(text, line);
}

/// Reads the line that a text is if it is one that only version 3 has, or the first or the last line of a trace.
fn read_third_line(text: &[u8], line: &mut Option<Line>)
    ensures { line.new ≡ spec.line_by (drop 11 spec.forms) text.now }
{
    if let Some(rest) = rest_after(b"withdraw ", text) {
        return LineKind::Mark(Change::Withdrawn).read(rest, line);
    }
    if let Some(rest) = rest_after(b"cancel ", text) {
        return LineKind::Cancel.read(rest, line);
    }
    if let Some(rest) = rest_after(b"forget ", text) {
        return LineKind::Forget.read(rest, line);
    }
    if let Some(rest) = rest_after(b"send request ", text) {
        return LineKind::Request(Fate::Told).read(rest, line);
    }
    if let Some(rest) = rest_after(b"send reply ", text) {
        return LineKind::Reply(Fate::Told).read(rest, line);
    }
    read_end_line(text, line);
}

/// Reads the line that a text is if it is the first or the last line of a trace.
fn read_end_line(text: &[u8], line: &mut Option<Line>)
    ensures { line.new ≡ spec.line_by (drop 16 spec.forms) text.now }
{
    if let Some(rest) = rest_after(b"trace 1 ", text) {
        return LineKind::First(Version::One).read(rest, line);
    }
    if let Some(rest) = rest_after(b"trace 2 ", text) {
        return LineKind::First(Version::Two).read(rest, line);
    }
    if let Some(rest) = rest_after(b"trace 3 ", text) {
        return LineKind::First(Version::Three).read(rest, line);
    }
    if let Some(rest) = rest_after(b"end", text) {
        return LineKind::Last.read(rest, line);
    }
    *line = None;
}

ghost use Rattle.ra_stamp.specs.NodeId.{IsNodeNumber};

use crate::core_asserting::assert_same;
use Mode::{Exclusive, IntentExclusive, IntentShared, Shared, SharedIntentExclusive};
use ra_stamp::{
    Entry, Mark, Marks, Memory, Message, Messages, Mode, Name, NameError, NodeId, Stamp, conflicts,
};
use std::cmp::Ordering;
use std::process::Abort;
use test_support::{At, assert_prints, id, r, row};

/// Returns a REQUEST from node 1 to node 2.
fn request(name: Name, seq: u64) -> Message {
    Message::Request {
        from: id(1),
        to: id(2),
        name,
        mode: Mode::Exclusive,
        seq,
    }
}

/// Returns the stamp of a node's request.
fn stamp(seq: u64, of: u16) -> Stamp
    requires { IsNodeNumber of }
{
    Stamp { seq, node: id(of) }
}

#[test]
fn nodes_are_numbered_from_one_to_sixty_four(rt: HostRuntime) {
    for number in 0..=65 {
        let found = match NodeId::new(number) {
            Some(node) => node.get(),
            None => 0,
        };
        let expected = if number == 65 { 0 } else { number };
        let at = At("the node", "with the number", usize::from(number));
        assert_same(&rt, at, &found, &expected);
    }
}

/// Bytes, and why they are no name, or `None` if they are one.
struct Named {
    shows: &'static str,
    bytes: &'static [u8],
    fault: Option<NameError>,
}

const NAMED: &[Named] = &[
    Named {
        shows: "letters, digits and three signs",
        bytes: b"AZaz09_-.",
        fault: None,
    },
    Named {
        shows: "32 bytes",
        bytes: b"nnnnnnnnnnnnnnnnnnnnnnnnnnnnnnnn",
        fault: None,
    },
    Named {
        shows: "33 bytes",
        bytes: b"nnnnnnnnnnnnnnnnnnnnnnnnnnnnnnnnn",
        fault: Some(NameError::TooLong),
    },
    Named {
        shows: "nothing",
        bytes: b"",
        fault: Some(NameError::Empty),
    },
    Named {
        shows: "a space",
        bytes: b"a b",
        fault: Some(NameError::BadByte),
    },
    Named {
        shows: "a slash",
        bytes: b"a/b",
        fault: Some(NameError::BadByte),
    },
    Named {
        shows: "a colon",
        bytes: b"a:b",
        fault: Some(NameError::BadByte),
    },
    Named {
        shows: "an at sign",
        bytes: b"a@b",
        fault: Some(NameError::BadByte),
    },
    Named {
        shows: "an opening bracket",
        bytes: b"a[b",
        fault: Some(NameError::BadByte),
    },
    Named {
        shows: "a backquote",
        bytes: b"a`b",
        fault: Some(NameError::BadByte),
    },
    Named {
        shows: "an opening brace",
        bytes: b"a{b",
        fault: Some(NameError::BadByte),
    },
    Named {
        shows: "a letter beyond ASCII",
        bytes: b"\xc3\xa4",
        fault: Some(NameError::BadByte),
    },
];

#[test]
fn names_have_one_to_thirty_two_letters_digits_and_three_signs(rt: HostRuntime) {
    for named in NAMED {
        let at = row(named.shows);
        match Name::new(named.bytes) {
            Ok(name) => {
                assert_same(&rt, at, &None, &named.fault);
                assert_same(&rt, at, &name.bytes(), &named.bytes);
            }
            Err(fault) => assert_same(&rt, at, &Some(fault), &named.fault),
        }
    }
}

/// Pairs of names, what they are, and how they are ordered.
const NAMES: &[(&str, &[u8], &[u8], Ordering)] = &[
    ("a and ab", b"a", b"ab", Ordering::Less),
    ("ab and b", b"ab", b"b", Ordering::Less),
    ("b and B", b"b", b"B", Ordering::Greater),
    ("a and a", b"a", b"a", Ordering::Equal),
];

#[test]
fn names_are_ordered_by_their_bytes(rt: HostRuntime) {
    for (label, one, other, expected) in NAMES {
        match (Name::new(one), Name::new(other)) {
            (Ok(one), Ok(other)) => assert_same(&rt, row(label), &one.cmp(&other), expected),
            _ => panic!(rt; "{label}: one is no name"),
        }
    }
}

/// A mode that an entry holds, one that another wants, and whether both can be held at once.
struct Modes {
    held: Mode,
    wanted: Mode,
    go_together: bool,
}

/// The table of J. N. Gray, R. A. Lorie, G. R. Putzolu and I. L. Traiger (1976), row by row.
const PAIRS: &[Modes] = &[
    Modes {
        held: IntentShared,
        wanted: IntentShared,
        go_together: true,
    },
    Modes {
        held: IntentShared,
        wanted: IntentExclusive,
        go_together: true,
    },
    Modes {
        held: IntentShared,
        wanted: Shared,
        go_together: true,
    },
    Modes {
        held: IntentShared,
        wanted: SharedIntentExclusive,
        go_together: true,
    },
    Modes {
        held: IntentShared,
        wanted: Exclusive,
        go_together: false,
    },
    Modes {
        held: IntentExclusive,
        wanted: IntentShared,
        go_together: true,
    },
    Modes {
        held: IntentExclusive,
        wanted: IntentExclusive,
        go_together: true,
    },
    Modes {
        held: IntentExclusive,
        wanted: Shared,
        go_together: false,
    },
    Modes {
        held: IntentExclusive,
        wanted: SharedIntentExclusive,
        go_together: false,
    },
    Modes {
        held: IntentExclusive,
        wanted: Exclusive,
        go_together: false,
    },
    Modes {
        held: Shared,
        wanted: IntentShared,
        go_together: true,
    },
    Modes {
        held: Shared,
        wanted: IntentExclusive,
        go_together: false,
    },
    Modes {
        held: Shared,
        wanted: Shared,
        go_together: true,
    },
    Modes {
        held: Shared,
        wanted: SharedIntentExclusive,
        go_together: false,
    },
    Modes {
        held: Shared,
        wanted: Exclusive,
        go_together: false,
    },
    Modes {
        held: SharedIntentExclusive,
        wanted: IntentShared,
        go_together: true,
    },
    Modes {
        held: SharedIntentExclusive,
        wanted: IntentExclusive,
        go_together: false,
    },
    Modes {
        held: SharedIntentExclusive,
        wanted: Shared,
        go_together: false,
    },
    Modes {
        held: SharedIntentExclusive,
        wanted: SharedIntentExclusive,
        go_together: false,
    },
    Modes {
        held: SharedIntentExclusive,
        wanted: Exclusive,
        go_together: false,
    },
    Modes {
        held: Exclusive,
        wanted: IntentShared,
        go_together: false,
    },
    Modes {
        held: Exclusive,
        wanted: IntentExclusive,
        go_together: false,
    },
    Modes {
        held: Exclusive,
        wanted: Shared,
        go_together: false,
    },
    Modes {
        held: Exclusive,
        wanted: SharedIntentExclusive,
        go_together: false,
    },
    Modes {
        held: Exclusive,
        wanted: Exclusive,
        go_together: false,
    },
];

#[test]
fn nine_pairs_of_modes_go_together(rt: HostRuntime) {
    for pair in PAIRS {
        let (held, wanted) = (pair.held, pair.wanted);
        let came = (held, wanted, !conflicts(held, wanted));
        let at = row("two modes, and whether they go together");
        assert_same(&rt, at, &came, &(held, wanted, pair.go_together));
    }
}

#[test]
fn modes_print_their_words(rt: HostRuntime) {
    const WORDS: &[(Mode, &str)] = &[
        (Mode::Shared, "S"),
        (Mode::Exclusive, "X"),
        (Mode::IntentShared, "IS"),
        (Mode::IntentExclusive, "IX"),
        (Mode::SharedIntentExclusive, "SIX"),
    ];
    assert_prints!(&rt, WORDS);
}

/// Asserts that two stamps are ordered so. The label says which.
fn assert_ordered(rt: &impl Abort, label: &str, one: &Stamp, other: &Stamp, order: Ordering) {
    assert_same(rt, row(label), &one.cmp(other), &order);
}

#[test]
fn equal_numbers_go_to_the_lower_node(rt: HostRuntime) {
    let (one, other) = (stamp(1, 64), stamp(2, 1));
    let (of_1, of_2, of_3) = (stamp(1, 1), stamp(1, 2), stamp(7, 3));
    assert_ordered(
        &rt,
        "1 of node 1 and 1 of node 2",
        &of_1,
        &of_2,
        Ordering::Less,
    );
    assert_ordered(
        &rt,
        "1 of node 64 and 2 of node 1",
        &one,
        &other,
        Ordering::Less,
    );
    assert_ordered(
        &rt,
        "2 of node 1 and 1 of node 64",
        &other,
        &one,
        Ordering::Greater,
    );
    assert_ordered(
        &rt,
        "7 of node 3 and itself",
        &of_3,
        &stamp(7, 3),
        Ordering::Equal,
    );
}

/// Asserts that a message has these parts.
fn assert_parts(rt: &impl Abort, label: &str, message: &Message, ends: [u16; 2], seq: u64) {
    let (at, came) = (row(label), [message.from().get(), message.to().get()]);
    assert_same(rt, at, &came, &ends);
    assert_same(rt, at, &message.name(), &r());
    assert_same(rt, at, &message.seq(), &seq);
}

#[test]
fn messages_of_both_kinds_tell_their_parts(rt: HostRuntime) {
    let reply = Message::Reply {
        from: id(3),
        to: id(64),
        name: r(),
        seq: 9,
    };
    assert_parts(&rt, "a REQUEST", &request(r(), 4), [1, 2], 4);
    assert_parts(&rt, "a REPLY", &reply, [3, 64], 9);
}

/// Adds the request with this number to a list.
fn adds(rt: &impl Abort, messages: &mut Messages, seq: u64) {
    let came = messages.push(request(r(), seq));
    assert_same(rt, row("a message is added"), &came, &Ok(()));
}

/// Asserts that a list has the requests with these numbers, in this order, and nothing after them.
fn assert_listed(rt: &impl Abort, messages: &Messages, numbers: &[u64]) {
    for place in 0..numbers.len() {
        let expected = Some(request(r(), numbers[place]));
        let at = At("a list of messages", "message", place + 1);
        assert_same(rt, at, &messages.at(place as u64), &expected);
    }
    let (at, count) = (row("the end of a list of messages"), numbers.len() as u64);
    assert_same(rt, at, &messages.len(), &count);
    assert_same(rt, at, &messages.at(count), &None);
    assert_same(rt, at, &messages.at(u64::MAX), &None);
}

#[test]
fn messages_are_listed_in_order(rt: HostRuntime) {
    let mut messages = Messages::new(rt.alloc());
    assert_listed(&rt, &messages, &[]);
    adds(&rt, &mut messages, 1);
    adds(&rt, &mut messages, 2);
    adds(&rt, &mut messages, 1);
    assert_listed(&rt, &messages, &[1, 2, 1]);
}

/// The list keeps its message.
#[test]
fn more_room_than_there_is_is_refused(rt: HostRuntime) {
    let mut messages = Messages::new(rt.alloc());
    adds(&rt, &mut messages, 1);
    let at = row("room for as many messages as there are numbers");
    assert_same(&rt, at, &messages.reserve(u64::MAX), &Err(Memory));
    assert_listed(&rt, &messages, &[1]);
}

/// Adds a mark to a list, after room was made for this many.
fn adds_mark(rt: &impl Abort, marks: &mut Marks, room: u64, mark: Mark) {
    assert_same(rt, row("room for marks"), &marks.reserve(room), &Ok(()));
    assert_same(rt, row("a mark is added"), &marks.push(mark), &Ok(()));
}

/// Asserts that a list has these marks, in this order, and nothing after them.
fn assert_marks(rt: &impl Abort, marks: &Marks, expected: &[Mark]) {
    for place in 0..expected.len() {
        let at = At("a list of marks", "mark", place + 1);
        assert_same(rt, at, &marks.at(place as u64), &Some(expected[place]));
    }
    let at = row("the end of a list of marks");
    assert_same(rt, at, &marks.at(expected.len() as u64), &None);
}

/// Returns the four marks of an entry.
fn marks_of(entry: &Entry) -> [Mark; 4] {
    [
        Mark::Requested(*entry),
        Mark::Entered(*entry),
        Mark::Left(*entry),
        Mark::Withdrawn(*entry),
    ]
}

#[test]
fn marks_are_listed_in_order(rt: HostRuntime) {
    let all = marks_of(&entry(r(), Mode::Shared));
    let mut marks = Marks::new(rt.alloc());
    assert_marks(&rt, &marks, &[]);
    adds_mark(&rt, &mut marks, 2, all[0]);
    adds_mark(&rt, &mut marks, 0, all[1]);
    adds_mark(&rt, &mut marks, 0, all[2]);
    adds_mark(&rt, &mut marks, 1, all[3]);
    assert_marks(&rt, &marks, &all);
}

const NAME_FAULTS: &[(NameError, &str)] = &[
    (NameError::Empty, "Empty"),
    (NameError::TooLong, "TooLong"),
    (NameError::BadByte, "BadByte"),
];

#[test]
fn faults_print_their_names(rt: HostRuntime) {
    assert_prints!(&rt, &[(Memory, "Memory")]);
    assert_prints!(&rt, NAME_FAULTS);
}

/// Returns the entry of a request of client 7 at node 2 for the name.
fn entry(name: Name, mode: Mode) -> Entry {
    Entry {
        name,
        stamp: stamp(3, 2),
        client: 7,
        mode,
    }
}

/// Asserts that a name prints so by itself, for a programmer, and to the right of eight places.
fn assert_name_prints(rt: &(impl Abort + AllocGlobal), name: Name, line: &str) {
    match format!(in rt.alloc(); "{name} {name:?} {name:>8}") {
        Ok(text) => assert_same(rt, row("a name thrice"), &text.as_str(), &line),
        Err(_) => panic!(rt; "there is no memory for the text"),
    }
}

/// Asserts that a name prints so, and the marks of two entries for it, one exclusive and one shared.
fn assert_named(rt: &(impl Abort + AllocGlobal), name: Name) {
    assert_name_prints(rt, name, "disk-1 disk-1   disk-1");
    let requested = Mark::Requested(entry(name, Mode::Exclusive));
    assert_prints!(rt, &[(requested, "request 2 7 disk-1 X 3")]);
    let entered = Mark::Entered(entry(name, Mode::Shared));
    assert_prints!(rt, &[(entered, "enter 2 7 disk-1 S 3")]);
    let left = Mark::Left(entry(name, Mode::Exclusive));
    assert_prints!(rt, &[(left, "leave 2 7 disk-1 X 3")]);
    let withdrawn = Mark::Withdrawn(entry(name, Mode::Shared));
    assert_prints!(rt, &[(withdrawn, "withdraw 2 7 disk-1 S 3")]);
}

#[test]
fn names_and_marks_print_as_text(rt: HostRuntime) {
    match Name::new(b"disk-1") {
        Ok(name) => assert_named(&rt, name),
        Err(fault) => assert_same(&rt, row("the name disk-1"), &Some(fault), &None),
    }
}

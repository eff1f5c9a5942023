//! What the tests of bags share: what a bag, which keeps the messages under way, does or shows, one step after the
//! other. A trace cannot tell it: no command shows places near which messages are found, copies, or room that is made.
use crate::core_asserting::assert_same;
use Step::{
    Contains, Copies, CopiesAmong, CopiesNumbers, Finds, Has, HasCount, HasNumbers, Lacks,
    MakesRoom, MovesEach, Puts, PutsNumbers, Takes, TakesEveryOther, TakesNear, TakesNumbers,
};
use Wire::{Asks, Replies};
use ra_bag::{Bag, Found};
use ra_stamp::{Memory, Message, Messages};
use std::process::Abort;
use test_support::{At, reply, request};

/// A REQUEST of node 1 to node 2 with this number, or the REPLY to it.
#[derive(Clone, Copy)]
pub enum Wire {
    Asks(u64),
    Replies(u64),
}

/// The REQUEST with the number 1.
pub const ASKED: Wire = Asks(1);

/// The REPLY to it.
pub const REPLIED: Wire = Replies(1);

/// What a bag does or shows. Requests with numbers from `first` up have each number once.
pub enum Step {
    /// These messages are put into it.
    Puts(&'static [Wire]),
    /// Requests with numbers from `first` up are put into it.
    PutsNumbers {
        first: u64,
        count: u64,
    },
    /// A copy of the message is put after all others.
    Copies(Wire),
    /// Requests with numbers from `first` up are copied.
    CopiesNumbers {
        first: u64,
        count: u64,
    },
    /// The request with the number `copied` is copied this many times. Nine others are put before each copy, numbered
    /// on from `first`.
    CopiesAmong {
        copied: u64,
        first: u64,
        times: u64,
    },
    /// The first message that is equal to this one is taken.
    Takes(Wire),
    /// Requests with numbers from `first` up are taken, each this many times in a row.
    TakesNumbers {
        first: u64,
        count: u64,
        times: u64,
    },
    /// The message is found near this place, and taken.
    TakesNear {
        message: Wire,
        near: u64,
    },
    /// Requests with every other number from `first` up are found, none near the place 0, and taken.
    TakesEveryOther {
        first: u64,
        count: u64,
    },
    /// Each of the requests 1 to 400,000 is found, not near the place 0, and taken, and is put after all others. They
    /// go out of order.
    MovesEach,
    /// The message is looked for near this place, and this is found.
    Finds {
        message: Wire,
        near: u64,
        found: Option<Found>,
    },
    /// Room for this many more is asked for.
    MakesRoom {
        more: u64,
        answer: Result<(), Memory>,
    },
    /// These messages, and no others, are in it in this order.
    Has(&'static [Wire]),
    /// This many messages are in it.
    HasCount(u64),
    /// From the place `from` on, there are this many requests, the first with the number `first`, and each with a
    /// number `apart` above the one before.
    HasNumbers {
        from: u64,
        first: u64,
        apart: u64,
        count: u64,
    },
    /// The message is in it.
    Contains(Wire),
    /// The message is not in it, and is neither taken nor copied.
    Lacks(Wire),
}

/// Returns the message.
fn message(wire: Wire) -> Message {
    match wire {
        Asks(seq) => request(1, 2, seq),
        Replies(seq) => reply(2, 1, seq),
    }
}

/// Adds the messages to a list.
fn adds(rt: &impl Abort, at: At<'_>, list: &mut Messages, items: &[Wire]) {
    for item in items {
        assert_same(rt, at, &list.push(message(*item)), &Ok(()));
    }
}

/// Puts these messages into the bag.
fn puts(rt: &(impl Abort + AllocGlobal), at: At<'_>, bag: &mut Bag, items: &[Wire]) {
    let mut list = Messages::new(rt.alloc());
    adds(rt, at, &mut list, items);
    assert_same(rt, at, &bag.put_all(&list), &Ok(()));
}

/// Puts this many requests into the bag, one by one.
fn puts_numbers(
    rt: &(impl Abort + AllocGlobal),
    at: At<'_>,
    bag: &mut Bag,
    first: u64,
    count: u64,
) {
    let mut seq = first;
    for _ in 0..count {
        puts(rt, at, bag, &[Asks(seq)]);
        seq = seq.wrapping_add(1);
    }
}

/// Copies a message.
fn copies(rt: &impl Abort, at: At<'_>, bag: &mut Bag, wire: Wire) {
    assert_same(rt, at, &bag.again(&message(wire)), &Ok(true));
}

/// Copies this many requests.
fn copies_numbers(rt: &impl Abort, at: At<'_>, bag: &mut Bag, first: u64, count: u64) {
    let mut seq = first;
    for _ in 0..count {
        copies(rt, at, bag, Asks(seq));
        seq = seq.wrapping_add(1);
    }
}

/// Copies a request this many times, after nine others each time.
fn copies_among(
    rt: &(impl Abort + AllocGlobal),
    at: At<'_>,
    bag: &mut Bag,
    copied: u64,
    first: u64,
    times: u64,
) {
    let mut seq = first;
    for _ in 0..times {
        puts_numbers(rt, at, bag, seq, 9);
        copies(rt, at, bag, Asks(copied));
        seq = seq.wrapping_add(9);
    }
}

/// Takes the first message that is equal to this one.
fn takes(rt: &impl Abort, at: At<'_>, bag: &mut Bag, wire: Wire) {
    let message = message(wire);
    assert_same(rt, at, &bag.take(&message), &Some(message));
}

/// Takes this many messages that are equal to this one.
fn takes_equal(rt: &impl Abort, at: At<'_>, bag: &mut Bag, wire: Wire, times: u64) {
    for _ in 0..times {
        takes(rt, at, bag, wire);
    }
}

/// Takes this many requests, each this many times.
fn takes_numbers(rt: &impl Abort, at: At<'_>, bag: &mut Bag, first: u64, count: u64, times: u64) {
    let mut seq = first;
    for _ in 0..count {
        takes_equal(rt, at, bag, Asks(seq), times);
        seq = seq.wrapping_add(1);
    }
}

/// Asserts that a message is not in the bag, and is neither taken nor copied.
fn lacks(rt: &impl Abort, at: At<'_>, bag: &mut Bag, wire: Wire) {
    let message = message(wire);
    assert_same(rt, at, &bag.contains(&message), &false);
    assert_same(rt, at, &bag.take(&message), &None);
    assert_same(rt, at, &bag.again(&message), &Ok(false));
}

/// Finds a message near this place, and takes it.
fn takes_near(rt: &impl Abort, at: At<'_>, bag: &mut Bag, message: &Message, near: u64) {
    match bag.find(message, near) {
        Some(found) => bag.take_from(found, message),
        None => assert_same(rt, at, &None, &Some(*message)),
    }
}

/// Finds this many requests, none near the place 0, and takes them.
fn takes_every_other(rt: &impl Abort, at: At<'_>, bag: &mut Bag, first: u64, count: u64) {
    let mut seq = first;
    for _ in 0..count {
        takes_near(rt, at, bag, &message(Asks(seq)), 0);
        seq = seq.wrapping_add(2);
    }
}

/// How many messages are moved.
const MOVES: u64 = 400_000;

/// A prime number that does not divide the number of messages, so that its multiples name each message once, out of
/// order.
const STRIDE: u64 = 7_919;

/// Finds each request, takes it and puts it after all others.
fn moves_each(rt: &(impl Abort + AllocGlobal), at: At<'_>, bag: &mut Bag) {
    for turn in 0..MOVES {
        let asked = Asks(turn * STRIDE % MOVES + 1);
        takes_near(rt, at, bag, &message(asked), 0);
        puts(rt, at, bag, &[asked]);
    }
}

/// Asserts that this message is at this place.
fn assert_is_at(rt: &impl Abort, at: At<'_>, bag: &Bag, place: u64, wire: Wire) {
    assert_same(rt, at, &bag.at(place), &Some(message(wire)));
}

/// Asserts that this many messages are in the bag.
fn has_count(rt: &impl Abort, at: At<'_>, bag: &Bag, count: u64) {
    assert_same(rt, at, &bag.len(), &count);
    assert_same(rt, at, &bag.at(count), &None);
}

/// Asserts that these messages, and no others, are in the bag in this order.
fn has(rt: &impl Abort, at: At<'_>, bag: &Bag, expected: &[Wire]) {
    for place in 0..expected.len() {
        assert_is_at(rt, at, bag, place as u64, expected[place]);
    }
    has_count(rt, at, bag, expected.len() as u64);
}

/// Asserts that this many requests are in the bag from this place on, each with a number `apart` above the one before.
fn has_numbers(
    rt: &impl Abort,
    at: At<'_>,
    bag: &Bag,
    from: u64,
    first: u64,
    apart: u64,
    count: u64,
) {
    let (mut place, mut seq) = (from, first);
    for _ in 0..count {
        assert_is_at(rt, at, bag, place, Asks(seq));
        place = place.wrapping_add(1);
        seq = seq.wrapping_add(apart);
    }
}

/// Asserts that a bag shows this.
fn shows(rt: &impl Abort, at: At<'_>, bag: &mut Bag, step: &Step) {
    match step {
        Finds {
            message: wire,
            near,
            found,
        } => assert_same(rt, at, &bag.find(&message(*wire), *near), found),
        MakesRoom { more, answer } => assert_same(rt, at, &bag.reserve(*more), answer),
        Has(expected) => has(rt, at, bag, expected),
        HasCount(count) => has_count(rt, at, bag, *count),
        HasNumbers {
            from,
            first,
            apart,
            count,
        } => has_numbers(rt, at, bag, *from, *first, *apart, *count),
        Contains(wire) => assert_same(rt, at, &bag.contains(&message(*wire)), &true),
        Lacks(wire) => lacks(rt, at, bag, *wire),
        _ => panic!(rt; "this is nothing to be shown"),
    }
}

/// Asserts that a bag does or shows this.
fn does(rt: &(impl Abort + AllocGlobal), at: At<'_>, bag: &mut Bag, step: &Step) {
    match step {
        Puts(items) => puts(rt, at, bag, items),
        PutsNumbers { first, count } => puts_numbers(rt, at, bag, *first, *count),
        Copies(wire) => copies(rt, at, bag, *wire),
        CopiesNumbers { first, count } => copies_numbers(rt, at, bag, *first, *count),
        CopiesAmong {
            copied,
            first,
            times,
        } => copies_among(rt, at, bag, *copied, *first, *times),
        Takes(wire) => takes(rt, at, bag, *wire),
        TakesNumbers {
            first,
            count,
            times,
        } => takes_numbers(rt, at, bag, *first, *count, *times),
        TakesNear {
            message: wire,
            near,
        } => takes_near(rt, at, bag, &message(*wire), *near),
        TakesEveryOther { first, count } => takes_every_other(rt, at, bag, *first, *count),
        MovesEach => moves_each(rt, at, bag),
        _ => shows(rt, at, bag, step),
    }
}

/// What a bag does and shows, one step after the other.
pub struct Scene {
    pub shows: &'static str,
    pub steps: &'static [Step],
}

/// Tests the steps of a scene.
fn goes(rt: &(impl Abort + AllocGlobal), bag: &mut Bag, scene: &Scene) {
    for place in 0..scene.steps.len() {
        let at = At(scene.shows, "step", place + 1);
        does(rt, at, bag, &scene.steps[place]);
    }
}

/// Tests the steps of each scene, with a bag that has nothing under way.
pub fn follow(rt: &(impl Abort + AllocGlobal), scenes: &[Scene]) {
    for scene in scenes {
        match Bag::new(rt.alloc()) {
            Ok(mut bag) => goes(rt, &mut bag, scene),
            Err(_) => panic!(rt; "there is no bag"),
        }
    }
}

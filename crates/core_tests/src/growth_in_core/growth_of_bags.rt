//! If a growth of a bag is refused, the call returns `Memory` and changes nothing, and it succeeds when it is made
//! again.
use crate::core_asserting::assert_same;
use ra_bag::Bag;
use ra_stamp::{Memory, Message, Messages};
use std::process::Abort;
use test_support::{At, Tried, again, assert_grown, both, part, request, row};

/// Returns the REQUEST of node 1 to node 2 with this number.
fn asked(seq: u64) -> Message {
    request(1, 2, seq)
}

/// Asserts that this message is taken.
fn takes(rt: &impl Abort, label: &str, bag: &mut Bag, seq: u64) {
    let (at, message) = (At(label, "takes number", seq as usize), asked(seq));
    assert_same(rt, at, &bag.take(&message), &Some(message));
}

/// Returns whether the request with this number is found.
fn finds(bag: &mut Bag, seq: u64) -> bool {
    bag.find(&asked(seq), 0).is_some()
}

/// Asserts that the request with this number is found, or is not.
fn assert_finds(rt: &impl Abort, label: &str, bag: &mut Bag, seq: u64, is_there: bool) {
    let at = At(label, "finds number", seq as usize);
    assert_same(rt, at, &finds(bag, seq), &is_there);
}

/// Asserts that the request with this number is at the place.
fn assert_is_at(rt: &impl Abort, label: &str, bag: &Bag, place: u64, seq: u64) {
    let at = At(label, "at place", place as usize);
    assert_same(rt, at, &bag.at(place), &Some(asked(seq)));
}

/// Asserts that a bag has this many messages.
fn assert_count(rt: &impl Abort, label: &str, bag: &Bag, count: u64) {
    assert_same(rt, row(label), &bag.len(), &count);
    assert_same(
        rt,
        At(label, "at place", count as usize),
        &bag.at(count),
        &None,
    );
}

/// Puts the request with this number into a list, and tries again if memory ran out.
fn try_push(rt: &impl Abort, list: &mut Messages, seq: u64) -> Tried {
    let (at, before) = (At("a list", "takes number", seq as usize), list.len());
    if list.push(asked(seq)).is_ok() {
        return Tried::NoFailure;
    }
    assert_same(rt, at, &list.len(), &before);
    assert_same(rt, at, &list.push(asked(seq)), &Ok(()));
    Tried::RetrySucceeded
}

/// Asserts that a bag has this many messages, the requests with the numbers from 1 to `numbers` over and over.
fn assert_in_turn(rt: &impl Abort, label: &str, bag: &Bag, count: u64, numbers: u64) {
    let mut seq = 0u64;
    for place in 0..count {
        seq = if seq == numbers {
            1
        } else {
            seq.wrapping_add(1)
        };
        assert_is_at(rt, label, bag, place, seq);
    }
    assert_count(rt, label, bag, count);
}

/// Returns the number of the request at a place of a bag. The numbers from 1 to 100 were put into it twice, and the
/// first 70 was taken. All numbers after it are one place further to the front, and copies of the second 70 follow.
fn number_at(place: u64) -> u64 {
    if place < 69 {
        return (place % 100).wrapping_add(1);
    }
    if place < 199 {
        return (place.wrapping_add(1) % 100).wrapping_add(1);
    }
    70
}

/// Asserts that a bag without its first 70 has this many messages, and the right one at each place.
fn assert_copies(rt: &impl Abort, label: &str, bag: &Bag, count: u64) {
    for place in 0..count {
        assert_is_at(rt, label, bag, place, number_at(place));
    }
    assert_count(rt, label, bag, count);
}

/// Puts a list of requests into a bag of such lists, and tries again if memory ran out, when the bag still has to have
/// the same messages.
fn try_put(rt: &impl Abort, bag: &mut Bag, list: &Messages) -> Tried {
    let before = bag.len();
    if bag.put_all(list).is_ok() {
        return Tried::NoFailure;
    }
    assert_in_turn(rt, "after a refused put", bag, before, list.len());
    assert_same(rt, row("a list is put again"), &bag.put_all(list), &Ok(()));
    Tried::RetrySucceeded
}

/// Makes room in a bag of such lists, and tries again if memory ran out, when the bag still has to have the same
/// messages.
fn try_reserve(rt: &impl Abort, bag: &mut Bag, more: u64, numbers: u64) -> Tried {
    let before = bag.len();
    if bag.reserve(more).is_ok() {
        return Tried::NoFailure;
    }
    assert_in_turn(rt, "after room was refused", bag, before, numbers);
    assert_same(rt, row("room is made again"), &bag.reserve(more), &Ok(()));
    Tried::RetrySucceeded
}

/// Puts a copy of a message that is in a bag after the others, and tries again if memory ran out, when the bag still
/// has to have the same messages.
fn try_copy(rt: &impl Abort, bag: &mut Bag, message: &Message) -> Tried {
    let (before, first) = (bag.len(), bag.again(message));
    if first.is_ok() {
        assert_same(rt, row("a message is copied"), &first, &Ok(true));
        return Tried::NoFailure;
    }
    assert_copies(rt, "after a refused copy", bag, before);
    assert_same(
        rt,
        row("a message is copied again"),
        &bag.again(message),
        &Ok(true),
    );
    Tried::RetrySucceeded
}

/// Puts this many requests into a list, with numbers from 1 up.
fn try_pushes(rt: &impl Abort, list: &mut Messages, count: u64) -> Tried {
    let mut tried = Tried::NoFailure;
    let mut seq = 0u64;
    for _ in 0..count {
        seq = seq.wrapping_add(1);
        tried = both(tried, try_push(rt, list, seq));
    }
    tried
}

/// Copies a message until no room is left, and then goes on.
fn try_copies(rt: &impl Abort, bag: &mut Bag, message: &Message) -> Tried {
    let mut tried = Tried::NoFailure;
    for _ in 0..1_100 {
        tried = both(tried, try_copy(rt, bag, message));
    }
    assert_copies(rt, "after all copies", bag, 1_299);
    tried
}

/// Returns a new bag, or `Memory` if there was none for it.
fn new_bag(rt: &impl AllocGlobal) -> Result<Bag, Memory> {
    Bag::new(rt.alloc())
}

/// Puts 100 messages into a bag twice, makes room for 1,000 more, and looks for one. The bag learns the place of each
/// message only as a hint: the one is found even if memory for that is refused. If no bag is made, memory ran out.
fn try_bag(rt: &(impl Abort + AllocGlobal)) -> Result<Tried, Memory> {
    let (mut bag, mut list) = (new_bag(rt)?, Messages::new(rt.alloc()));
    let pushed = try_pushes(rt, &mut list, 100);
    let put = both(try_put(rt, &mut bag, &list), try_put(rt, &mut bag, &list));
    let all = both(both(pushed, put), try_reserve(rt, &mut bag, 1_000, 100));
    let label = "a bag with room";
    assert_in_turn(rt, label, &bag, 200, 100);
    assert_finds(rt, label, &mut bag, 70, true);
    takes(rt, label, &mut bag, 70);
    assert_same(rt, row(label), &bag.len(), &199);
    Ok(both(all, try_copies(rt, &mut bag, &asked(70))))
}

#[test]
fn growth_of_a_bag(rt: HostRuntime) {
    assert_grown!(&rt, again(try_bag(&rt), try_bag(&rt)));
}

/// What is compared after messages were taken.
const KEEPS: &str = "counts its slots";

/// Takes a message, and returns whether the bag counts its slots: only then does a later message keep its slot. Whether
/// the bag also has an index of its messages does not show here.
fn counts_slots(rt: &impl Abort, label: &str, bag: &mut Bag, taken: u64, later: u64) -> bool {
    let before = bag.find(&asked(later), 0);
    takes(rt, label, bag, taken);
    bag.find(&asked(later), 0) == before
}

/// Takes a message with each of the `count` numbers after this one.
fn takes_one_of_each(rt: &impl Abort, label: &str, bag: &mut Bag, after: u64, count: u64) {
    let mut seq = after;
    for _ in 0..count {
        seq = seq.wrapping_add(1);
        takes(rt, label, bag, seq);
    }
}

/// Puts 268 messages into a bag three times.
fn try_three_times(rt: &(impl Abort + AllocGlobal), bag: &mut Bag) -> Tried {
    let mut list = Messages::new(rt.alloc());
    let pushed = try_pushes(rt, &mut list, 268);
    let put = both(try_put(rt, bag, &list), try_put(rt, bag, &list));
    both(pushed, both(put, try_put(rt, bag, &list)))
}

/// Puts 268 messages into a bag three times, has it learn the slot of each one, and takes one of each of the first
/// 238. If the bag counted its slots before, it does so after. If no bag is made, memory ran out.
fn try_equal(rt: &(impl Abort + AllocGlobal)) -> Result<Tried, Memory> {
    let (label, mut bag) = ("a bag with equal messages", new_bag(rt)?);
    let put_all = try_three_times(rt, &mut bag);
    assert_finds(rt, label, &mut bag, 70, true);
    let room = try_reserve(rt, &mut bag, 0, 268);
    let kept = counts_slots(rt, label, &mut bag, 248, 258);
    takes_one_of_each(rt, label, &mut bag, 0, 238);
    let keeps = counts_slots(rt, label, &mut bag, 249, 258);
    assert_same(rt, part(label, KEEPS), &keeps, &kept);
    assert_same(rt, row(label), &bag.len(), &564);
    Ok(both(put_all, room))
}

#[test]
fn growth_of_a_bag_with_equal_messages(rt: HostRuntime) {
    assert_grown!(&rt, again(try_equal(&rt), try_equal(&rt)));
}

/// Finds one of the messages with this number and takes it: by its value, or as the one that was found.
fn finds_and_takes(rt: &impl Abort, label: &str, bag: &mut Bag, seq: u64, is_by_value: bool) {
    let sought = asked(seq);
    match bag.find(&sought, 0) {
        Some(_) if is_by_value => takes(rt, label, bag, seq),
        Some(found) => bag.take_from(found, &sought),
        None => assert_finds(rt, label, bag, seq, true),
    }
}

/// Finds and takes one of each of the 238 messages after the first 30, by its value and as the one that was found by
/// turns. After each, a message is sought that is not there. Not one of those taken is the oldest, which a bag finds
/// without an index.
fn finds_and_takes_some(rt: &impl Abort, label: &str, bag: &mut Bag) {
    for seq in 31..=268u64 {
        finds_and_takes(rt, label, bag, seq, seq % 2 == 0);
        assert_finds(rt, label, bag, seq.wrapping_add(1_000), false);
    }
    assert_same(rt, row(label), &bag.len(), &566);
}

/// Puts 268 messages three times into each of two bags. The second bag learns the slot of each message. Both may then
/// find and take some, which needs no memory. A map of 268 entries is so full that repeatedly removing an entry and
/// putting it back would make it grow. If no bag is made, memory ran out.
fn try_two(rt: &(impl Abort + AllocGlobal), takes_some: bool) -> Result<Tried, Memory> {
    let (mut plain, mut indexed) = (new_bag(rt)?, new_bag(rt)?);
    let put = both(
        try_three_times(rt, &mut plain),
        try_three_times(rt, &mut indexed),
    );
    assert_finds(rt, "a bag with an index", &mut indexed, 70, true);
    let all = both(put, try_reserve(rt, &mut indexed, 0, 268));
    if takes_some {
        finds_and_takes_some(rt, "a bag without an index", &mut plain);
        finds_and_takes_some(rt, "a bag with an index", &mut indexed);
    }
    Ok(all)
}

#[test]
fn growth_of_a_bag_of_equal_messages(rt: HostRuntime) {
    assert_grown!(&rt, again(try_two(&rt, false), try_two(&rt, false)));
}

/// `tools/refuse-growth` checks that this test asks for memory no more often than the one before, as its name says.
#[test]
fn growth_of_a_bag_of_equal_messages_takes_no_more(rt: HostRuntime) {
    assert_grown!(&rt, again(try_two(&rt, true), try_two(&rt, true)));
}

/// Puts 3,000 messages into a bag, has it learn in which slot each one is, and takes more than half of them from after
/// the first, so that it is closed up while more than 512 are left. Closing up needs no memory for the counts: if the
/// bag counted its slots before, it does so after. If no bag is made, memory ran out.
fn try_closed_up(rt: &(impl Abort + AllocGlobal)) -> Result<Tried, Memory> {
    let (label, mut bag) = ("a bag that is closed up", new_bag(rt)?);
    let mut list = Messages::new(rt.alloc());
    let pushed = try_pushes(rt, &mut list, 3_000);
    let put = try_put(rt, &mut bag, &list);
    takes(rt, label, &mut bag, 3_000);
    takes(rt, label, &mut bag, 2_990);
    let room = match bag.reserve(0) {
        Ok(()) => Tried::NoFailure,
        Err(Memory) => Tried::RetrySucceeded,
    };
    let kept = counts_slots(rt, label, &mut bag, 2_950, 2_960);
    takes_one_of_each(rt, label, &mut bag, 1, 1_600);
    let keeps = counts_slots(rt, label, &mut bag, 2_951, 2_960);
    assert_same(rt, part(label, KEEPS), &keeps, &kept);
    assert_same(rt, row(label), &bag.len(), &1_396);
    Ok(both(pushed, both(put, room)))
}

#[test]
fn growth_of_a_bag_that_is_closed_up(rt: HostRuntime) {
    assert_grown!(&rt, again(try_closed_up(&rt), try_closed_up(&rt)));
}

/// Pushes 10,000 messages into a list.
pub fn try_many_pushes(rt: &(impl Abort + AllocGlobal)) -> Tried {
    let (mut list, mut tried) = (Messages::new(rt.alloc()), Tried::NoFailure);
    for seq in 1..=10_000u64 {
        tried = both(tried, try_push(rt, &mut list, seq));
    }
    tried
}

/// Makes room for another message in a bag and puts it there.
fn put_one_more(bag: &mut Bag, one: &Messages) -> Result<(), Memory> {
    bag.reserve(1)?;
    bag.put_all(one)
}

/// Makes room for another message in a bag and puts it there. If memory ran out, the bag has to have as many messages
/// as before, and it is tried again.
fn try_one_more(rt: &impl Abort, bag: &mut Bag, one: &Messages) -> Tried {
    let (at, before) = (row("a bag makes room for one more"), bag.len());
    if put_one_more(bag, one).is_ok() {
        return Tried::NoFailure;
    }
    assert_same(rt, at, &bag.len(), &before);
    assert_same(rt, at, &put_one_more(bag, one), &Ok(()));
    Tried::RetrySucceeded
}

/// Puts a message into a bag, either after making room for it or without.
fn try_put_one(rt: &impl Abort, bag: &mut Bag, one: &Messages, makes_room: bool) -> Tried {
    if makes_room {
        try_one_more(rt, bag, one)
    } else {
        try_put(rt, bag, one)
    }
}

/// Puts a message into a new bag 10,000 times so. If no bag is made, memory ran out.
pub fn try_many_puts(rt: &(impl Abort + AllocGlobal), makes_room: bool) -> Result<Tried, Memory> {
    let (mut bag, mut one) = (new_bag(rt)?, Messages::new(rt.alloc()));
    let mut tried = try_push(rt, &mut one, 1);
    for _ in 0..10_000 {
        tried = both(tried, try_put_one(rt, &mut bag, &one, makes_room));
    }
    assert_same(rt, row("many puts"), &bag.len(), &10_000);
    Ok(tried)
}

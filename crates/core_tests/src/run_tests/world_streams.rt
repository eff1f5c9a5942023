//! How much is read up to a limit, and how faults of readers and writers are printed. `cases/` has what commands do
//! when one fails.
use crate::world_steps::world_asserting::{assert_prints, assert_same};
use ra_text::{ReadFault, WriteFault, read_up_to};
use test_support::{assert_words, row};

/// All of 10,000 bytes are read under the greatest limit.
#[test]
fn the_limit_may_be_more_than_there_is_room_for(rt: HostRuntime) {
    let bytes = [b'a'; 10_000];
    let (at, mut reader) = (row("the greatest limit"), bytes.as_slice());
    match read_up_to(rt.alloc(), &mut reader, usize::MAX) {
        Ok(came) => assert_same(&rt, at, &came.as_slice(), &bytes.as_slice()),
        Err(fault) => assert_same(&rt, at, &Some(fault), &None),
    }
}

#[test]
fn faults_are_printed_as_their_words(rt: HostRuntime) {
    assert_words!(&rt; ReadFault: Read Memory);
    assert_prints(&rt, &[(WriteFault, "Write")]);
}

//! Which frames fit, and how faults are printed. How frames are read and written is in `cases/test_frames.py`.
use crate::core_asserting::{assert_same, node};
use ra_frame::{Frame, FrameError};
use std::process::Abort;
use test_support::{assert_words, message_between, r, row};

/// The greatest clock of a frame, 2^62.
const LAST: u64 = 1 << 62;

/// A REPLY for `r`, and whether its frame fits.
struct Reply {
    shows: &'static str,
    from: u16,
    to: u16,
    seq: u64,
    clock: u64,
    fits: bool,
}

const REPLIES: &[Reply] = &[
    Reply {
        shows: "the number and the clock 1",
        from: 1,
        to: 2,
        seq: 1,
        clock: 1,
        fits: true,
    },
    Reply {
        shows: "the greatest number and clock",
        from: 1,
        to: 2,
        seq: u64::MAX,
        clock: LAST,
        fits: true,
    },
    Reply {
        shows: "the clock 0",
        from: 1,
        to: 2,
        seq: 1,
        clock: 0,
        fits: false,
    },
    Reply {
        shows: "a clock after the greatest",
        from: 1,
        to: 2,
        seq: 1,
        clock: LAST + 1,
        fits: false,
    },
    Reply {
        shows: "the number 0",
        from: 1,
        to: 2,
        seq: 0,
        clock: 1,
        fits: false,
    },
    Reply {
        shows: "one node at both ends",
        from: 2,
        to: 2,
        seq: 1,
        clock: 1,
        fits: false,
    },
];

#[test]
fn a_frame_fits_by_its_ranges(rt: HostRuntime) {
    for reply in REPLIES {
        let (from, to) = (node(&rt, reply.from), node(&rt, reply.to));
        let message = message_between(from, to, r(), None, reply.seq);
        let frame = Frame {
            clock: reply.clock,
            message,
        };
        assert_same(&rt, row(reply.shows), &frame.fits(), &reply.fits);
    }
}

#[test]
fn faults_print_their_names(rt: HostRuntime) {
    assert_words!(&rt;
        FrameError: Short Version Kind From To SameNode Mode Seq Clock NameLength NameByte Trailing);
}

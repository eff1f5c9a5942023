//! Traces whose steps are read and written again. A text is the trace of one run at most, so the steps that its lines
//! tell have no other trace. `cases/traces.toml` has the same traces as texts that are checked.
use crate::shared_texts::{ONE_LOCK, REPEATED_REQUEST};
use crate::trace_tests::traced_steps::{LOST_REPLY, Written, assert_written};

/// The copy of a REQUEST comes when its client waits with the next number, and so does the REPLY to it.
const LATE_COPY: &str = "trace 2 2 0
ask 1 1 r X
request 1 1 r X 1
repeat request 1 2 r X 1
deliver request 1 2 r X 1
deliver reply 2 1 r 1
enter 1 1 r X 1
release 1 1 r
leave 1 1 r X 1
ask 1 1 r X
request 1 1 r X 2
deliver request 1 2 r X 1
deliver reply 2 1 r 1
deliver request 1 2 r X 2
deliver reply 2 1 r 2
enter 1 1 r X 2
end
";

/// A REQUEST and its copy are lost.
const LOST_COPIES: &str = "trace 2 2 0
ask 1 1 r X
request 1 1 r X 1
repeat request 1 2 r X 1
lose request 1 2 r X 1
lose request 1 2 r X 1
end
";

/// A REPLY is repeated, and its copy is a stray.
const REPEATED_REPLY: &str = "trace 2 2 0
ask 1 1 r X
request 1 1 r X 1
deliver request 1 2 r X 1
repeat reply 2 1 r 1
deliver reply 2 1 r 1
enter 1 1 r X 1
deliver reply 2 1 r 1
end
";

#[test]
fn repeats_have_their_lines(rt: HostRuntime) {
    const WRITTEN: &[Written] = &[
        Written {
            shows: "a REQUEST that is repeated",
            nodes: 2,
            trace: REPEATED_REQUEST,
        },
        Written {
            shows: "a late copy",
            nodes: 2,
            trace: LATE_COPY,
        },
        Written {
            shows: "lost copies",
            nodes: 2,
            trace: LOST_COPIES,
        },
        Written {
            shows: "a REPLY that is repeated",
            nodes: 2,
            trace: REPEATED_REPLY,
        },
    ];
    assert_written(&rt, WRITTEN);
}

/// The least client asks for a name with each kind of byte, at the last of the nodes.
const ALL_KINDS: &str = "trace 2 64 0
ask 64 0 a-B_9.z S
request 64 0 a-B_9.z S 1
end
";

/// The one request is lost.
const LOST_REQUEST: &str = "trace 2 2 0
ask 1 1 r X
request 1 1 r X 1
lose request 1 2 r X 1
end
";

/// The one client of a single node locks in each mode, one after the other.
const EACH_MODE: &str = "trace 2 1 0
ask 1 1 r S
request 1 1 r S 1
enter 1 1 r S 1
release 1 1 r
leave 1 1 r S 1
ask 1 1 r X
request 1 1 r X 2
enter 1 1 r X 2
release 1 1 r
leave 1 1 r X 2
ask 1 1 r IS
request 1 1 r IS 3
enter 1 1 r IS 3
release 1 1 r
leave 1 1 r IS 3
ask 1 1 r IX
request 1 1 r IX 4
enter 1 1 r IX 4
release 1 1 r
leave 1 1 r IX 4
ask 1 1 r SIX
request 1 1 r SIX 5
enter 1 1 r SIX 5
release 1 1 r
leave 1 1 r SIX 5
end
";

#[test]
fn each_step_is_written(rt: HostRuntime) {
    const WRITTEN: &[Written] = &[
        Written {
            shows: "each kind of byte in a name",
            nodes: 64,
            trace: ALL_KINDS,
        },
        Written {
            shows: "each mode",
            nodes: 1,
            trace: EACH_MODE,
        },
        Written {
            shows: "one lock",
            nodes: 2,
            trace: ONE_LOCK,
        },
        Written {
            shows: "a lost REQUEST",
            nodes: 2,
            trace: LOST_REQUEST,
        },
        Written {
            shows: "a lost REPLY",
            nodes: 2,
            trace: LOST_REPLY,
        },
    ];
    assert_written(&rt, WRITTEN);
}

/// Two clients of the first of two nodes, one after the other.
const AT_TWO_NODES: &str = "trace 2 2 0
ask 1 1 r X
request 1 1 r X 1
ask 1 2 r X
deliver request 1 2 r X 1
deliver reply 2 1 r 1
enter 1 1 r X 1
release 1 1 r
leave 1 1 r X 1
request 1 2 r X 2
deliver request 1 2 r X 2
deliver reply 2 1 r 2
enter 1 2 r X 2
release 1 2 r
leave 1 2 r X 2
end
";

/// Two clients of a single node. The second one enters as soon as it requests.
const ALONE: &str = "trace 2 1 0
ask 1 1 r X
request 1 1 r X 1
enter 1 1 r X 1
ask 1 2 r X
release 1 1 r
leave 1 1 r X 1
request 1 2 r X 2
enter 1 2 r X 2
release 1 2 r
leave 1 2 r X 2
end
";

#[test]
fn a_leave_and_the_next_request_are_written_under_one_release(rt: HostRuntime) {
    const WRITTEN: &[Written] = &[
        Written {
            shows: "at two nodes",
            nodes: 2,
            trace: AT_TWO_NODES,
        },
        Written {
            shows: "alone",
            nodes: 1,
            trace: ALONE,
        },
    ];
    assert_written(&rt, WRITTEN);
}

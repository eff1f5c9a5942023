//! What several files of tests use.
use ra_stamp::Name;
use std::alloc::Global;
use std::io;
use test_support::{FailingWriter, failing_writer};

/// The trace of one client that locks and unlocks, at the first of two nodes.
pub const ONE_LOCK: &str = "trace 2 2 0
ask 1 1 r X
request 1 1 r X 1
deliver request 1 2 r X 1
deliver reply 2 1 r 1
enter 1 1 r X 1
release 1 1 r
leave 1 1 r X 1
end
";

/// How many bytes that trace has.
pub const ONE_LOCK_LENGTH: usize = 140;

/// The script whose trace it is.
pub const ONE_LOCK_SCRIPT: &str = r#"nodes = 2

[[client]]
node = 1
ops = ["X r", "U r"]
"#;

/// The trace of two clients that ask for one name at once, at two of three nodes.
pub const TWO_LOCKS: &str = "trace 2 3 0
ask 1 1 r X
request 1 1 r X 1
ask 2 2 r X
request 2 2 r X 1
deliver request 1 2 r X 1
deliver request 1 3 r X 1
deliver request 2 1 r X 1
deliver request 2 3 r X 1
deliver reply 2 1 r 1
deliver reply 3 1 r 1
enter 1 1 r X 1
release 1 1 r
leave 1 1 r X 1
deliver reply 3 2 r 1
deliver reply 1 2 r 1
enter 2 2 r X 1
release 2 2 r
leave 2 2 r X 1
end
";

/// The trace of one client whose REQUEST is repeated. The other node answers each copy, and the second REPLY is a
/// stray.
pub const REPEATED_REQUEST: &str = "trace 2 2 0
ask 1 1 r X
request 1 1 r X 1
repeat request 1 2 r X 1
deliver request 1 2 r X 1
deliver request 1 2 r X 1
deliver reply 2 1 r 1
enter 1 1 r X 1
deliver reply 2 1 r 1
release 1 1 r
leave 1 1 r X 1
end
";

/// Returns a writer that looks for this text, and fails after this many writes, of a byte each.
pub fn failing(text: &str, before_fault: usize, fault: Option<io::ErrorKind>) -> FailingWriter<'_> {
    failing_writer(text.as_bytes(), before_fault, fault)
}

/// Returns the name `a-B_9.z`, which has each kind of byte that a name may have.
pub fn all_kinds() -> Name {
    Name::new(b"a-B_9.z").unwrap()
}

/// A part of a text.
#[derive(Clone, Copy)]
pub enum Part<'a> {
    Text(&'a str),
    /// These bytes, this many times.
    Times(&'a [u8], usize),
}

/// Adds bytes to a text, this many times. Returns whether there was room.
fn adds_times(text: &mut Vec<u8>, bytes: &[u8], times: usize) -> bool {
    for _ in 0..times {
        if text.extend_from_slice(bytes).is_err() {
            return false;
        }
    }
    true
}

/// Adds a part to a text. Returns whether there was room.
fn adds_part(text: &mut Vec<u8>, part: Part<'_>) -> bool {
    match part {
        Part::Text(part) => adds_times(text, part.as_bytes(), 1),
        Part::Times(bytes, times) => adds_times(text, bytes, times),
    }
}

/// Adds these parts to a text. Returns whether there was room.
fn adds_parts(text: &mut Vec<u8>, parts: &[Part<'_>]) -> bool {
    for part in parts {
        if !adds_part(text, *part) {
            return false;
        }
    }
    true
}

/// Returns the text of these parts.
pub fn text_of(alloc: Global, parts: &[Part<'_>]) -> Option<Vec<u8>> {
    let mut text = Vec::new(alloc);
    if adds_parts(&mut text, parts) {
        Some(text)
    } else {
        None
    }
}

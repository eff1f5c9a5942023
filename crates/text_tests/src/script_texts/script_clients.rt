//! The nodes, the clients and the operations that are read of a script.
use crate::shared_texts::all_kinds;
use crate::text_asserting::assert_same;
use ra_schedule::{Op, Script};
use ra_script::{ScriptError, read_script};
use ra_stamp::Mode;
use std::alloc::Global;
use std::process::Abort;
use test_support::{At, r, row};

/// Returns what `read_script` answers.
fn script_of(alloc: Global, text: &[u8]) -> Result<Script, ScriptError> {
    read_script(alloc, text)
}

/// Three clients at two nodes.
const EXAMPLE: &str = r#"# a script
nodes = 2

[[client]]
node = 1
ops = ["X r", "U r"]

[[client]]
node = 2
ops = ["S r", "X a-B_9.z", "U a-B_9.z", "X a-B_9.z"]

[[client]]
node = 1
ops = []
"#;

/// Returns the script of a text.
fn read(rt: &(impl Abort + AllocGlobal), text: &str) -> Script {
    match script_of(rt.alloc(), text.as_bytes()) {
        Ok(script) => script,
        Err(fault) => panic!(rt; "the script is refused: {fault}"),
    }
}

/// Asserts that a client is at this node and has these operations, and no others.
fn assert_client(rt: &impl Abort, script: &Script, client: u32, node: u16, ops: &[Op]) {
    let found = match script.node_of(client) {
        Some(found) => found.get(),
        None => 0,
    };
    let at = At("a script", "client", client as usize);
    assert_same(rt, at, &found, &node);
    assert_same(rt, at, &script.ops_of(client), &Some(ops.len() as u64));
    for place in 0..ops.len() {
        assert_same(rt, at, &script.op(client, place as u64), &Some(ops[place]));
    }
}

#[test]
fn an_example_gives_its_nodes_clients_and_operations(rt: HostRuntime) {
    let script = read(&rt, EXAMPLE);
    let counts = (script.nodes(), script.clients());
    assert_same(&rt, row("nodes and clients"), &counts, &(2, 3));
    let first = [Op::Lock(r(), Mode::Exclusive), Op::Unlock(r())];
    let second = [
        Op::Lock(r(), Mode::Shared),
        Op::Lock(all_kinds(), Mode::Exclusive),
        Op::Unlock(all_kinds()),
        Op::Lock(all_kinds(), Mode::Exclusive),
    ];
    assert_client(&rt, &script, 1, 1, &first);
    assert_client(&rt, &script, 2, 2, &second);
    assert_client(&rt, &script, 3, 1, &[]);
}

/// A client for each mode.
const EACH_MODE: &str = r#"nodes = 1
client = [
    { node = 1, ops = ["S r", "U r"] },
    { node = 1, ops = ["X r", "U r"] },
    { node = 1, ops = ["IS r", "U r"] },
    { node = 1, ops = ["IX r", "U r"] },
    { node = 1, ops = ["SIX r", "U r"] },
]
"#;

/// The modes of these clients, in their order.
const MODES: &[Mode] = &[
    Mode::Shared,
    Mode::Exclusive,
    Mode::IntentShared,
    Mode::IntentExclusive,
    Mode::SharedIntentExclusive,
];

#[test]
fn each_mode_is_read_from_its_word(rt: HostRuntime) {
    let script = read(&rt, EACH_MODE);
    let mut client = 0u32;
    for mode in MODES {
        client = client.wrapping_add(1);
        let ops = [Op::Lock(r(), *mode), Op::Unlock(r())];
        assert_client(&rt, &script, client, 1, &ops);
    }
}

//! The lines of a state: what the nodes know of names, the messages under way, and the requests on these names that
//! wait and hold.
ghost use Rattle.std.specs.Prelude.{◌≡◌, ◌++◌, codes, flat_map, length, string_bytes, IfOk};
ghost use Rattle.ra_stamp.specs.NodeId.{IsNodeNumber};
ghost use Rattle.ra_node.specs.Node.{resource_at};
ghost use Rattle.ra_node.specs.Resource.{use_of};
ghost use Rattle.ra_world.specs.Keeping.{nodes_of};
ghost use Rattle.ra_text.specs.Lines as lines;
ghost use Rattle.ra_text.specs.Drafting.{Adds};
ghost use Rattle.ra_world.specs.StateLines as spec;

use ra_bag::Bag;
use ra_node::Node;
use ra_stamp::{Entry, Memory, Name, NodeCount, NodeId};
use ra_text::Draft;
use std::alloc::Global;

/// Adds the first word of a line about a name at a node, and then the two.
fn push_at(text: &mut Draft, word: &str, me: NodeId, name: &Name)
    ensures { Adds text.old (spec.at_name word.now me name.now) text.new }
{
    text.push(word);
    text.push_number(me.get());
    text.push_field(name.as_str());
}

/// Adds a field that is a word, and then the client, the mode and the number of a request.
fn push_request(text: &mut Draft, word: &str, entry: &Entry)
    ensures { Adds text.old (lines.field word.now ++ spec.request_fields entry.now) text.new }
{
    text.push_field(word);
    text.push_number(entry.client);
    text.push_field(entry.mode.word());
    text.push_number(entry.stamp.seq);
}

/// Adds what the clients of a node make of a name.
fn push_use(text: &mut Draft, node: &Node, name: &Name)
    ensures { Adds text.old (spec.use_fields (use_of (resource_at node.now name.now))) text.new }
{
    if let Some(entry) = node.waiter(name) {
        return push_request(text, "waiting", &entry);
    }
    if let Some(entry) = node.holder(name) {
        return push_request(text, "inside", &entry);
    }
    text.push_field("idle");
}

/// Adds the lines of the nodes whose REPLY is awaited, and of those whose REPLY is deferred. Without a request of its
/// own, which is the rule, a node awaits and defers none, and no other node is looked at.
fn push_others(text: &mut Draft, nodes: NodeCount, me: NodeId, node: &Node, name: &Name)
    ensures { Adds text.old (spec.others_lines nodes me name.now (resource_at node.now name.now).state) text.new }
{
    if node.waiter(name).is_none() && node.holder(name).is_none() {
        return;
    }
    for awaited in 0..nodes.get() {
        let other = NodeId::at(usize::from(awaited));
        if node.waits_for(name, other) {
            push_at(text, "awaits", me, name);
            text.push_number(other.get());
            text.end_line();
        }
    }
    for deferred in 0..nodes.get() {
        let other = NodeId::at(usize::from(deferred));
        if let Some(number) = node.deferred(name, other) {
            push_at(text, "defers", me, name);
            text.push_number(other.get());
            text.push_number(number);
            text.end_line();
        }
    }
}

/// Adds the lines of the clients that are queued on a name.
fn push_queue(text: &mut Draft, me: NodeId, node: &Node, name: &Name)
    ensures { Adds text.old (flat_map (spec.queued_line me name.now) (resource_at node.now name.now).queue) text.new }
{
    for place in 0..node.queued_on(name) {
        let Some(queued) = node.queued_at(name, place) else {
            unreachable!()
        };
        push_at(text, "queued", me, name);
        text.push_number(queued.client);
        text.push_field(queued.mode.word());
        text.end_line();
    }
}

/// Adds the lines of names at all nodes: for each name its first line, the lines of other nodes, and those of queued
/// clients.
fn push_nodes(text: &mut Draft, nodes: &[Node], names: &[Name])
    requires { IsNodeNumber (length nodes.now) }
    ensures { Adds text.old (spec.node_lines (length nodes.now) names.now (nodes_of nodes.now)
        (length nodes.now)) text.new }
{
    let Some(count) = NodeCount::new(nodes.len() as u16) else {
        unreachable!()
    };
    for place in 0..nodes.len() {
        let me = NodeId::at(place);
        let node = &nodes[place];
        for name in names {
            push_at(text, "node", me, name);
            text.push_number(node.highest(name));
            push_use(text, node, name);
            text.end_line();
            push_others(text, count, me, node, name);
            push_queue(text, me, node, name);
        }
    }
}

/// Adds the lines of the messages under way.
fn push_messages(text: &mut Draft, under_way: &Bag)
    ensures { Adds text.old (spec.message_lines 0 under_way.now.items) text.new }
{
    for place in 0..under_way.len() {
        let Some(message) = under_way.at(place) else {
            unreachable!()
        };
        text.push("message");
        text.push_number(place);
        text.push_message(&message);
        text.end_line();
    }
}

/// Adds the lines of the requests of all nodes on names. Each node has at most one on a name.
fn push_table(text: &mut Draft, nodes: &[Node], names: &[Name])
    ensures { Adds text.old (spec.table_lines names.now (nodes_of nodes.now) (length nodes.now)) text.new }
{
    for place in 0..nodes.len() {
        let node = &nodes[place];
        for name in names {
            if let Some(entry) = node.waiter(name) {
                text.push_entry_line("waiting", &entry);
            } else if let Some(entry) = node.holder(name) {
                text.push_entry_line("holding", &entry);
            }
        }
    }
}

/// Returns the text of a state, with these lines about clients.
///
/// # Errors
///
/// `Memory`: memory ran out.
pub fn state_text(
    alloc: Global,
    steps: u64,
    nodes: &[Node],
    under_way: &Bag,
    names: &[Name],
    clients: &str,
) -> Result<String, Memory>
    requires { IsNodeNumber (length nodes.now) }
    ensures { IfOk result (λ text. string_bytes text
        ≡ spec.state_text (length nodes.now) steps names.now (nodes_of nodes.now) under_way.now.items clients.now) }
{
    let mut text = Draft::new(alloc);
    text.push_total_line("steps", u128::from(steps));
    push_nodes(&mut text, nodes, names);
    push_messages(&mut text, under_way);
    text.push(clients);
    push_table(&mut text, nodes, names);
    text.finish()
}

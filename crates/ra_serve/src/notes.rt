//! The notes of a host on what others say.
ghost use Rattle.std.specs.Prelude.{◌≡◌, ◌<◌, None, Some, codes, if◌then◌else◌};
ghost use Rattle.ra_text.specs.Drafting.{Adds};
ghost use Rattle.ra_text.specs.Lines.{field};
ghost use Rattle.ra_serve.specs.Notes.{Counts, Notes, count_of, fault_place, fault_text, is_told, note_end, note_start, settings_text};

use crate::Settings;
use crate::base::Base;
use ra_host_text::MessageFault;
use ra_stamp::NodeId;
use ra_text::Draft;

/// Among the faults of a host, the place of other settings than this one's.
const SETTINGS: usize = 5;

/// Among the faults of a host, the place of another book than before.
const BOOK: usize = 6;

/// Returns the words for a fault of what a host said, and its place among the faults.
fn fault_words(fault: MessageFault) -> (&'static str, usize)
    ensures words { result.0.now ≡ fault_text fault }
    ensures place { result.1 ≡ fault_place fault }
{
    match fault {
        MessageFault::Unknown => ("said no line of a host", 0),
        MessageFault::Cluster => ("said a line of another cluster", 1),
        MessageFault::From => ("said a line of another host", 2),
        MessageFault::To => ("said a line for another host", 3),
        MessageFault::Frame => ("said a frame of others", 4),
    }
}

/// Counts a fault of a host, and returns the count if it is to be told.
fn count_fault(base: &mut Base, host: NodeId, place: usize) -> Option<u64>
    requires { place < 7 }
    ensures counts { Counts base.old host place base.new }
    ensures told { result ≡ (if is_told (count_of base.old host place)
        then Some (count_of base.old host place) else None) }
{
    let mut peer = base.peer(host);
    let count = peer.faults[place].saturating_add(1);
    peer.faults[place] = count;
    base.put(host, peer);
    if count == 1 || count % 1000 == 0 {
        Some(count)
    } else {
        None
    }
}

/// Adds the beginning of a note on a host.
fn begin_note(out: &mut Draft, host: NodeId)
    ensures { Adds out.old (note_start host) out.new }
{
    out.push("note host");
    out.push_number(host.get());
}

/// Adds the end of a note: how often it was so.
fn end_note(out: &mut Draft, count: u64)
    ensures { Adds out.old (note_end count) out.new }
{
    out.push(", count");
    out.push_number(count);
    out.end_line();
}

/// Counts a fault of a host, and tells it in these words if it is time.
fn note(base: &mut Base, host: NodeId, place: usize, words: &str)
    requires { place < 7 }
    ensures { Notes base.old host place words.now base.new }
{
    if let Some(count) = count_fault(base, host, place) {
        begin_note(&mut base.out, host);
        base.out.push_field(words);
        end_note(&mut base.out, count);
    }
}

/// Notes that a host said what it does not say to this one.
pub fn note_fault(base: &mut Base, host: NodeId, fault: MessageFault)
    ensures { Notes base.old host (fault_place fault) (fault_text fault) base.new }
{
    let (words, place) = fault_words(fault);
    note(base, host, place, words);
}

/// Notes that a host has another book than before.
pub fn note_book(base: &mut Base, host: NodeId)
    ensures { Notes base.old host 6 (codes "has another book than before") base.new }
{
    note(base, host, BOOK, "has another book than before");
}

/// Adds the settings of another host, and those of this one.
fn push_settings(out: &mut Draft, settings: &Settings, nodes: NodeId, first: u64)
    ensures { Adds out.old (field (settings_text settings.now nodes first)) out.new }
{
    out.push_field("has other settings, nodes and start:");
    out.push_number(nodes.get());
    out.push_number(first);
    out.push(", not");
    out.push_number(settings.member.nodes());
    out.push_number(settings.start);
}

/// Notes that a host has other settings than this one.
pub fn note_settings(base: &mut Base, host: NodeId, nodes: NodeId, first: u64)
    ensures { Notes base.old host 5 (settings_text base.old.settings nodes first) base.new }
{
    let settings = base.settings;
    if let Some(count) = count_fault(base, host, SETTINGS) {
        begin_note(&mut base.out, host);
        push_settings(&mut base.out, &settings, nodes, first);
        end_note(&mut base.out, count);
    }
}

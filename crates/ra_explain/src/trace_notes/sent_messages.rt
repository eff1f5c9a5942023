//! The steps of a run, made once more to learn which messages each of them sends.
use ra_stamp::Message;
use ra_text::cut;
use ra_trace::Line;
use ra_world::{MarklessWorld, Step};
use std::alloc::Global;

/// What learns of the steps of a run and of the messages that they send.
pub trait WatchesMessages {
    /// Takes the step with this number.
    fn take_step(&mut self, number: u64, step: &Step);

    /// Takes a message that the step with this number sends.
    fn take_sent(&mut self, number: u64, message: &Message);
}

/// Makes a step, and shows it and the messages that it sends. Returns whether it was made.
fn show_step<T: WatchesMessages>(
    alloc: Global,
    world: &mut MarklessWorld,
    number: u64,
    step: &Step,
    watcher: &mut T,
) -> bool {
    let Ok(outcome) = world.step(alloc, step) else {
        return false;
    };
    watcher.take_step(number, step);
    for message in outcome.sends.as_slice() {
        watcher.take_sent(number, message);
    }
    true
}

/// Returns the world that the first line of a trace opens, or `None` if it is none or there is no memory for it.
fn opened_by(alloc: Global, first: &[u8]) -> Option<MarklessWorld> {
    match &Line::parse(first) {
        Some(Line::First { nodes, start, .. }) => {
            MarklessWorld::new(alloc, nodes.get(), *start).ok()
        }
        _ => None,
    }
}

/// Makes the steps of these lines of a trace, and shows each with the number of its line and with the messages that it
/// sends. Returns whether there was memory for all of them. The cost is that of the steps.
pub fn watch_lines<T: WatchesMessages>(alloc: Global, lines: &[u8], watcher: &mut T) -> bool {
    let (first, Some(mut rest)) = cut(lines, b'\n') else {
        return false;
    };
    let Some(mut world) = opened_by(alloc, first) else {
        return false;
    };
    for number in 2..u64::MAX {
        let (line, Some(after)) = cut(rest, b'\n') else {
            break;
        };
        if let Some(Line::Stepped(step)) = &Line::parse(line)
            && !show_step(alloc, &mut world, number, step, watcher)
        {
            return false;
        }
        rest = after;
    }
    true
}

/// Makes these steps of this many nodes from numbers that begin at 0, and shows each with its place, counted from 1,
/// and with the messages that it sends. Returns whether there was memory for all of them. The cost is that of the
/// steps.
pub fn watch_steps<T: WatchesMessages>(
    alloc: Global,
    nodes: u16,
    steps: &[Step],
    watcher: &mut T,
) -> bool {
    let Ok(mut world) = MarklessWorld::new(alloc, nodes, 0) else {
        return false;
    };
    let mut number = 0;
    for step in steps {
        number = u64::saturating_add(number, 1);
        if !show_step(alloc, &mut world, number, step, watcher) {
            return false;
        }
    }
    true
}

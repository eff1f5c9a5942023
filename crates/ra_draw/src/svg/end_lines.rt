//! What is left at the end of the part, in lines below the rows: who holds, waits and is queued, and who waits for one
//! another.
use crate::Part;
use crate::layout::Layout;
use crate::layout::sizes::{END_GAP, END_HEIGHT};
use crate::svg::layers::Layers;
use crate::svg::svg_writer::PatternValue::{Node, Number, Text, Whole};
use crate::timeline::{LockKey, LockStage, OpenLock, OpenLocks};

/// The most locks that have a line, and the most of a circle.
const MOST_LINES: usize = 16;

/// Returns how high the lines are together.
pub fn lines_height(open: &OpenLocks) -> u64 {
    if open.all.is_empty() {
        return 0;
    }
    // The heading has a line, and what is left out may have one.
    let locks = open.all.len().min(MOST_LINES + 1);
    let lines = open.circle.len().min(MOST_LINES).saturating_add(locks);
    (lines as u64)
        .saturating_add(1)
        .saturating_mul(END_HEIGHT)
        .saturating_add(END_GAP)
}

impl Layers {
    /// Begins the line with this number below the rows, with this class.
    fn begin_end_line(&mut self, layout: &Layout, line: u64, class: &'static str) {
        let y = layout
            .y(layout.end)
            .saturating_add(u64::saturating_mul(line, END_HEIGHT))
            .saturating_add(END_GAP);
        self.labels.write(
            "<text x=\"16\" y=\"$\" class=\"$\">",
            &[Number(y), Text(class)],
        );
    }

    /// Writes the client of a lock.
    fn put_client(&mut self, before: &'static str, key: &LockKey) {
        self.labels.write(
            "$client $ at node $",
            &[Text(before), Number(u64::from(key.client)), Node(key.node)],
        );
    }

    /// Writes the line of a lock: what its client does with the name and since when, and what it waits for.
    fn put_open_lock(&mut self, open: &OpenLocks, lock: &OpenLock) {
        let span = &lock.span;
        self.put_client("", &span.key);
        let (does, since) = match lock.stage {
            LockStage::Holds => (" holds $ ($), number $", span.entered),
            LockStage::Waits => (" waits for $ ($), number $", span.requested),
            LockStage::Queued => (" is queued for $ ($)", None),
        };
        self.labels.write(
            does,
            &[
                Whole(&span.key.name),
                Text(span.mode.word()),
                Number(span.number),
            ],
        );
        let since = since.unwrap_or(span.asked);
        self.labels.write(", since line $", &[Number(since.line)]);
        if let Some(blocker) = open.blocker_of(lock) {
            self.put_client(": ", &blocker.span.key);
            self.labels.write(
                match blocker.stage {
                    LockStage::Holds => " holds it",
                    _ => " asked before",
                },
                &[],
            );
        }
        self.labels.put(b"</text>\n");
    }

    /// Writes the lines of the locks at a stage, of which this many have lines before. Returns how many have lines
    /// then.
    fn put_stage(&mut self, layout: &Layout, stage: LockStage, before: usize) -> usize {
        let mut lines = before;
        for lock in &layout.open.all {
            if lock.stage.is(stage) {
                lines = usize::saturating_add(lines, 1);
                if lines <= MOST_LINES {
                    self.begin_end_line(layout, (lines as u64).saturating_add(1), "end");
                    self.put_open_lock(&layout.open, lock);
                }
            }
        }
        lines
    }

    /// Writes which clients wait for one another, after this many lines.
    fn put_circle(&mut self, layout: &Layout, lines: usize) {
        let circle = &layout.open.circle;
        for place in 0..circle.len().min(MOST_LINES) {
            let next = if place + 1 < circle.len() {
                place + 1
            } else {
                0
            };
            let (Some(key), Some(other)) = (circle.get(place), circle.get(next)) else {
                break;
            };
            let line = lines.saturating_add(place).saturating_add(2);
            self.begin_end_line(layout, line as u64, "end stuck-text");
            if place == 0 {
                self.put_client("Deadlock: ", key);
            } else {
                self.labels.put(b"which");
            }
            self.put_client(" waits for ", other);
            self.labels.put(b"</text>\n");
        }
    }

    /// Writes what is left at the end of the part.
    pub fn draw_end(&mut self, layout: &Layout, part: Part) {
        let open = &layout.open;
        if open.all.is_empty() {
            return;
        }
        self.begin_end_line(layout, 1, "end heading");
        if part.to < u64::MAX {
            self.labels
                .write("After line $:</text>\n", &[Number(part.to)]);
        } else {
            self.labels.put(b"At the end:</text>\n");
        }
        let holding = self.put_stage(layout, LockStage::Holds, 0);
        let waiting = self.put_stage(layout, LockStage::Waits, holding);
        let all = self.put_stage(layout, LockStage::Queued, waiting);
        let mut lines = all.min(MOST_LINES);
        if lines < all {
            lines = MOST_LINES + 1;
            self.begin_end_line(layout, lines as u64 + 1, "end");
            self.labels.write(
                "and $ more</text>\n",
                &[Number(all.saturating_sub(MOST_LINES) as u64)],
            );
        }
        self.put_circle(layout, lines);
    }
}

//! The bars of clients beside the lanes, and their names.
use crate::layout::sizes::{BAND_ROWS, COLUMN_WIDTH, WIDE_LETTER};
use crate::layout::{Layout, LockBar, Point};
use crate::svg::layers::Layers;
use crate::svg::svg_writer::PatternValue::{Node, Number, Short, Text, Whole};
use crate::svg::wording::MODE_TEXTS;
use crate::timeline::{LockKey, Moment};

/// How a phase is drawn.
#[derive(Clone, Copy)]
struct PhaseLook {
    /// What the client does in it.
    what: &'static str,
    /// The class of its shape.
    class: &'static str,
    /// How far to the right in its column it begins.
    inset: u64,
    /// Whether the request has a number by then.
    has_number: bool,
}

const QUEUED: PhaseLook = PhaseLook {
    what: "is queued for",
    class: "queued",
    inset: 10,
    has_number: false,
};

const WAITING: PhaseLook = PhaseLook {
    what: "waits for",
    class: "waiting",
    inset: 7,
    has_number: true,
};

const INSIDE: PhaseLook = PhaseLook {
    what: "holds",
    class: "inside",
    inset: 3,
    has_number: true,
};

impl Layers {
    /// Begins the shape of a phase: what the client does, and the name.
    fn begin_phase(&mut self, key: &LockKey, what: &'static str) {
        self.shapes.write(
            "<g><title>client $ at node $ $ $",
            &[
                Number(u64::from(key.client)),
                Node(key.node),
                Text(what),
                Whole(&key.name),
            ],
        );
    }

    /// Draws a phase that began, from one moment to another or to the end of the bar, if it has a row, and says what
    /// the client does. Beneath its shape is one as wide as the column that is not seen, so that a pointer hits it
    /// easily.
    fn draw_phase(
        &mut self,
        layout: &Layout,
        bar: &LockBar,
        look: PhaseLook,
        first: Option<Moment>,
        last: Option<Moment>,
    ) {
        let (end, said, line) = match (last, bar.span.ended) {
            (Some(last), _) => (last.row, " to line $</title>", last.line),
            (None, Some(ended)) => (ended.row, " to line $, and gives up</title>", ended.line),
            (None, None) => (bar.end, " on</title>", 0),
        };
        if let Some(first) = first
            && first.row < end
        {
            self.begin_phase(&bar.span.key, look.what);
            self.shapes
                .put(MODE_TEXTS[bar.span.mode as usize].as_bytes());
            if look.has_number {
                self.shapes.write(", number $", &[Number(bar.span.number)]);
            }
            self.shapes.write(", from line $", &[Number(first.line)]);
            self.shapes.write(said, &[Number(line)]);
            let x = layout.bar_x(bar);
            let y = layout.y(first.row);
            let height = layout.y(end).saturating_sub(y);
            let stuck = if last.is_none() && layout.open.is_in_circle(&bar.span.key) {
                " stuck"
            } else {
                ""
            };
            self.shapes.write(
                "<rect x=\"$\" y=\"$\" width=\"$\" height=\"$\" class=\"touch\"/><rect x=\"$\" y=\"$\" width=\"$\" height=\"$\" class=\"$ $$\"/></g>\n",
                &[
                    Number(x),
                    Number(y),
                    Number(COLUMN_WIDTH),
                    Number(height),
                    Number(x.saturating_add(look.inset)),
                    Number(y),
                    Number(COLUMN_WIDTH.saturating_sub(look.inset.saturating_mul(2))),
                    Number(height),
                    Text(look.class),
                    Text(bar.span.mode.word()),
                    Text(stuck),
                ],
            );
        }
    }

    /// Writes the name and the mode of a lock along its bar, from one row to another, if there is room.
    fn name_part_of_bar(&mut self, layout: &Layout, bar: &LockBar, from: u32, to: u32) {
        let span = &bar.span;
        let letters = layout
            .cut
            .letters_of(span.key.name.bytes().len())
            .saturating_add(span.mode.word().len())
            .saturating_add(1);
        let y = layout.y(from);
        let height = layout.y(to).saturating_sub(y);
        if (letters as u64).saturating_mul(WIDE_LETTER) <= height {
            let x = layout.bar_x(bar);
            self.labels.write(
                "<text transform=\"translate($ $)rotate(90)\" class=\"label bar-name\">$ $</text>\n",
                &[
                    Number(x.saturating_add(8)),
                    Number(y.saturating_add(4)),
                    Short(&span.key.name, layout.cut),
                    Text(span.mode.word()),
                ],
            );
        }
    }

    /// Writes the name and the mode of a lock along its bar, unless lanes are narrow: from its beginning or the top of
    /// the page on, and again wherever the nodes are named again.
    pub fn name_lock_bar(&mut self, layout: &Layout, bar: &LockBar) {
        if !layout.is_wide() {
            return;
        }
        let mut from = bar.span.asked.row;
        for _band in 0..=bar.end / BAND_ROWS {
            let to = (from.saturating_sub(1) / BAND_ROWS)
                .saturating_add(1)
                .saturating_mul(BAND_ROWS);
            self.name_part_of_bar(layout, bar, from, to.min(bar.end));
            if bar.end <= to {
                return;
            }
            from = to.saturating_add(1);
        }
    }

    /// Writes the mode and the number of a request of a mark log beside the start of its bar.
    pub fn label_request(&mut self, layout: &Layout, bar: &LockBar) {
        let span = &bar.span;
        self.labels.write(
            "<text x=\"$\" y=\"$\" class=\"label to-right\">$ $</text>\n",
            &[
                Number(layout.bar_x(bar).saturating_add(COLUMN_WIDTH)),
                Number(layout.y(span.asked.row).saturating_add(4)),
                Text(span.mode.word()),
                Number(span.number),
            ],
        );
    }

    /// Draws a cross at the end of the bar of a request that is withdrawn, if it has a row.
    fn draw_withdrawal(&mut self, layout: &Layout, bar: &LockBar) {
        let span = &bar.span;
        if let Some(ended) = span.ended
            && span.requested.is_some()
            && span.entered.is_none()
            && ended.row > 0
        {
            let x = layout.bar_x(bar);
            self.begin_phase(&span.key, "gives up");
            self.shapes.put(b"</title>");
            self.draw_cross(Point {
                x: x.saturating_add(COLUMN_WIDTH / 2),
                y: layout.y(ended.row),
            });
            self.shapes.put(b"</g>\n");
        }
    }

    /// Draws the bar of a lock, phase by phase.
    pub fn draw_lock_bar(&mut self, layout: &Layout, bar: &LockBar) {
        let span = &bar.span;
        let (asked, requested, entered) = (Some(span.asked), span.requested, span.entered);
        self.draw_phase(layout, bar, QUEUED, asked, requested);
        self.draw_phase(layout, bar, WAITING, requested, entered);
        self.draw_phase(layout, bar, INSIDE, entered, span.ended);
        self.draw_withdrawal(layout, bar);
    }
}

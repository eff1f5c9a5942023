//! The paths of messages: arrows, crosses and loops, with their labels.
use crate::layout::sizes::UNDER_WAY_ROWS;
use crate::layout::{Layout, Point};
use crate::svg::layers::Layers;
use crate::svg::svg_writer::PatternValue::{Node, Number, Short, Text, Whole};
use crate::svg::wording::{MODE_TEXTS, kind_of};
use crate::timeline::{MessageEnd, MessagePath};
use ra_stamp::{Message, Name};

impl Layers {
    /// Begins the label of a message with this name at a point: its kind, number, name and mode.
    fn begin_label(
        &mut self,
        layout: &Layout,
        message: &Message,
        name: &Name,
        at: Point,
        side: &'static str,
    ) {
        let kind = kind_of(message);
        let (space, mode) = match message {
            Message::Request { mode, .. } => (" ", mode.word()),
            Message::Reply { .. } => ("", ""),
        };
        self.labels.write(
            "<text x=\"$\" y=\"$\" class=\"label of-$ $\">$ $ $$$",
            &[
                Number(at.x),
                Number(at.y),
                Text(kind),
                Text(side),
                Text(kind),
                Number(message.seq()),
                Short(name, layout.cut),
                Text(space),
                Text(mode),
            ],
        );
    }

    /// Labels a message beside the lane of its receiver, on the side that it does not come from, if this page has room.
    /// The first of equal messages that are under way has a label, if it has a row of its own.
    fn label_head(
        &mut self,
        layout: &Layout,
        path: &MessagePath,
        from: Point,
        head: Point,
        gutter: u64,
    ) {
        let message = &path.message;
        let ending = match path.end {
            _ if !layout.is_wide() => return,
            MessageEnd::Delivered(_) if path.is_deferred => " deferred</text>\n",
            MessageEnd::Delivered(_) => "</text>\n",
            MessageEnd::Lost(_) => " lost</text>\n",
            MessageEnd::UnderWay { place, is_first } if is_first && place < UNDER_WAY_ROWS => {
                " to node $</text>\n"
            }
            MessageEnd::UnderWay { .. } => return,
        };
        let (x, side) = if from.x < head.x {
            (head.x.saturating_add(8), "to-right")
        } else {
            (head.x.saturating_sub(gutter.saturating_add(4)), "to-left")
        };
        let at = Point {
            x,
            y: head.y.saturating_add(3),
        };
        self.begin_label(layout, message, &message.name(), at, side);
        self.labels.write(ending, &[Node(message.to())]);
    }

    /// Begins the shape of a message: which one it is, and when it came under way.
    fn begin_message(&mut self, path: &MessagePath) {
        let message = &path.message;
        let name = message.name();
        let said = match message {
            Message::Request { .. } => "<g><title>request $ from node $ to node $ for $",
            Message::Reply { .. } => "<g><title>reply $ from node $ to node $ for $",
        };
        self.shapes.write(
            said,
            &[
                Number(message.seq()),
                Node(message.from()),
                Node(message.to()),
                Whole(&name),
            ],
        );
        if let Message::Request { mode, .. } = message {
            self.shapes.put(MODE_TEXTS[*mode as usize].as_bytes());
        }
        let start = if path.copied {
            ", repeated at line $"
        } else {
            ", sent at line $"
        };
        self.shapes.write(start, &[Number(path.start.line)]);
    }

    /// Draws the loop that a copy comes from, and labels it if this page has room.
    fn draw_copy(&mut self, layout: &Layout, path: &MessagePath, place: Point) {
        let message = &path.message;
        self.begin_message(path);
        self.shapes.write(
            "</title><path class=\"loop\" d=\"M$ $m5 -3.6a6.2 6.2 0 1 0 1 3.6l-3.4 -2.2m3.4 2.2l2.6 -3\"/></g>\n",
            &[Number(place.x), Number(place.y)],
        );
        if layout.is_wide() {
            let at = Point {
                x: place.x.saturating_add(12),
                y: place.y.saturating_add(3),
            };
            self.begin_label(layout, message, &message.name(), at, "to-right");
            let nodes = [Node(message.from()), Node(message.to())];
            self.labels.write(", $ to $</text>\n", &nodes);
        }
    }

    /// Ends the title of a message, and draws its line, and beneath it a wide one that is not seen, so that a pointer
    /// hits it easily. A message that is not delivered ends before the lane, on the side that it comes from, with a
    /// cross if it is lost.
    fn draw_line(&mut self, path: &MessagePath, from: Point, to: Point, gutter: u64) {
        let before = if from.x < to.x {
            to.x.saturating_sub(gutter.saturating_add(10))
        } else {
            to.x.saturating_add(14)
        };
        let (x, look) = match path.end {
            MessageEnd::Delivered(_) => (to.x, "arrow"),
            MessageEnd::Lost(_) => (before, "lost"),
            MessageEnd::UnderWay { .. } => (before, "under-way"),
        };
        self.shapes.write(
            "</title><line x1=\"$\" y1=\"$\" x2=\"$\" y2=\"$\" class=\"hit\"/><line x1=\"$\" y1=\"$\" x2=\"$\" y2=\"$\" class=\"$ $\"/>",
            &[
                Number(from.x),
                Number(from.y),
                Number(x),
                Number(to.y),
                Number(from.x),
                Number(from.y),
                Number(x),
                Number(to.y),
                Text(look),
                Text(kind_of(&path.message)),
            ],
        );
        if let MessageEnd::Lost(_) = path.end {
            self.draw_cross(Point { x, y: to.y });
        }
        self.shapes.put(b"</g>\n");
    }

    /// Draws a message, from where it came under way to its end.
    pub fn draw_path(&mut self, layout: &Layout, path: &MessagePath) {
        let mut from = layout.at(path.message.from(), path.start.row);
        if path.copied {
            from.x = layout.copies_x;
        }
        self.begin_message(path);
        let row = match path.end {
            MessageEnd::Delivered(end) => {
                let said = if path.is_deferred {
                    ", delivered at line $, deferred"
                } else {
                    ", delivered at line $"
                };
                self.shapes.write(said, &[Number(end.line)]);
                end.row
            }
            MessageEnd::Lost(end) => {
                self.shapes.write(", lost at line $", &[Number(end.line)]);
                end.row
            }
            MessageEnd::UnderWay { place, .. } => {
                self.shapes.put(b", still under way");
                layout.under_way_row(place)
            }
        };
        let node = path.message.to();
        let to = layout.at(node, row);
        let gutter = match layout.lanes.get(node.place()) {
            Some(lane) => lane.gutter,
            None => 0,
        };
        self.draw_line(path, from, to, gutter);
        self.label_head(layout, path, from, to, gutter);
        if path.copied && path.start.row > 0 {
            self.draw_copy(layout, path, from);
        }
    }
}

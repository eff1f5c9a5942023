//! The shapes of a picture, and their labels: the lanes, what is on each row, and what the other files of this folder
//! draw.
use crate::layout::sizes::{
    BAND_HEIGHT, BAND_ROWS, CLIENTS_Y, COLUMN_WIDTH, LANES_TOP, NODES_Y, ROW_NUMBERS_X,
};
use crate::layout::{Layout, NameCut, NodeLane, Point};
use crate::svg::act_look::ActLook;
use crate::svg::svg_writer::PatternValue::{Node, Number, Short, Text, Whole};
use crate::svg::svg_writer::SvgWriter;
use crate::timeline::{Act, Timeline};
use ra_stamp::NodeId;

/// The two layers of a picture: the shapes, and the labels, which are in front of them all.
#[derive(Drop)]
pub struct Layers {
    pub shapes: SvgWriter,
    pub labels: SvgWriter,
}

impl Layers {
    /// Draws the line of a lane, with this class.
    fn draw_lane(&mut self, layout: &Layout, x: u64, class: &'static str) {
        self.shapes.write(
            "<line x1=\"$\" y1=\"$\" x2=\"$\" y2=\"$\" class=\"$\"/></g>\n",
            &[
                Number(x),
                Number(LANES_TOP),
                Number(x),
                Number(layout.y(layout.end)),
                Text(class),
            ],
        );
    }

    /// Names a node this far down.
    fn name_node(&mut self, layout: &Layout, node: NodeId, y: u64) {
        let word = if layout.is_wide() { "node " } else { "" };
        self.labels.write(
            "<text x=\"$\" y=\"$\" class=\"node\">$$</text>\n",
            &[Number(layout.x(node)), Number(y), Text(word), Node(node)],
        );
    }

    /// Draws the lane of a node, and names it, again and again in a long picture, and the clients of its columns that
    /// have short numbers.
    fn draw_node(&mut self, layout: &Layout, node: NodeId, lane: &NodeLane) {
        self.shapes.write("<g><title>node $</title>", &[Node(node)]);
        self.draw_lane(layout, lane.x, "lane");
        self.name_node(layout, node, NODES_Y);
        let mut place = 0;
        for column in &lane.columns {
            let client = u64::from(column.client);
            if client < 1000 {
                let left = layout.column_x(node, place);
                self.labels.write(
                    "<text x=\"$\" y=\"$\" class=\"client\">c$</text>\n",
                    &[
                        Number(left.saturating_add(COLUMN_WIDTH / 2)),
                        Number(CLIENTS_Y),
                        Number(client),
                    ],
                );
            }
            place = u32::saturating_add(place, 1);
        }
        // Each time below the row that ends a band.
        for band in 0..layout.end.saturating_sub(1) / BAND_ROWS {
            let row = u32::saturating_add(band, 1).saturating_mul(BAND_ROWS);
            self.name_node(layout, node, layout.y(row).saturating_add(BAND_HEIGHT));
        }
    }

    /// Draws a dot at the place at which a client asks for a name in a mode, leaves it or gives it up. The dot of a
    /// client that gives up is crossed.
    fn draw_dot(&mut self, place: Point, act: &ActLook) {
        let key = &act.key;
        // First comes a larger dot that is not seen, so that a pointer hits it easily.
        self.shapes.write(
            "<g><title>client $ at node $ $ $$</title><circle cx=\"$\" cy=\"$\" r=\"10\" class=\"touch\"/><circle cx=\"$\" cy=\"$\" r=\"4\" class=\"$\"/>",
            &[
                Number(u64::from(key.client)),
                Node(key.node),
                Text(act.what),
                Whole(&key.name),
                Text(act.mode_text),
                Number(place.x),
                Number(place.y),
                Number(place.x),
                Number(place.y),
                Text(act.class),
            ],
        );
        if act.is_crossed {
            self.draw_cross(place);
        }
        self.shapes.put(b"</g>\n");
    }

    /// Labels the dot of a client beside the lane of its node.
    fn label_dot(&mut self, place: Point, act: &ActLook, cut: NameCut) {
        let key = &act.key;
        self.labels.write(
            "<text x=\"$\" y=\"$\" class=\"label to-right\">$ $$$</text>\n",
            &[
                Number(place.x.saturating_add(8)),
                Number(place.y.saturating_sub(4)),
                Text(act.verb),
                Short(&key.name, cut),
                Text(act.space),
                Text(act.word),
            ],
        );
    }

    /// Draws a cross at a point.
    pub fn draw_cross(&mut self, at: Point) {
        self.shapes.write(
            "<path class=\"cross\" d=\"M$ $m-5 -5l10 10m0 -10l-10 10\"/>",
            &[Number(at.x), Number(at.y)],
        );
    }

    /// Draws a short dash at the place at which a node forgets names, and labels it.
    fn draw_forgetting(&mut self, node: NodeId, place: Point) {
        self.shapes.write(
            "<g><title>node $ forgets names</title><circle cx=\"$\" cy=\"$\" r=\"10\" class=\"touch\"/><path class=\"cross\" d=\"M$ $m-6 0h12\"/></g>\n",
            &[
                Node(node),
                Number(place.x),
                Number(place.y),
                Number(place.x),
                Number(place.y),
            ],
        );
        self.labels.write(
            "<text x=\"$\" y=\"$\" class=\"label to-right\">forgets</text>\n",
            &[
                Number(place.x.saturating_add(8)),
                Number(place.y.saturating_sub(4)),
            ],
        );
    }

    /// Draws what a client or a node does on a row. In a mark log the label of a bar says what its client asks for.
    fn draw_act(&mut self, layout: &Layout, act: &Act, row: u32, is_log: bool) {
        let look = match act {
            Act::Forget(node) => {
                self.draw_forgetting(*node, layout.at(*node, row));
                return;
            }
            Act::Ask(key, mode) => ActLook::of_ask(key, *mode),
            Act::Leave(key) => ActLook::of_leave(key),
            Act::Cancel(key) => ActLook::of_cancel(key),
        };
        let place = layout.acts_at(&look.key, row);
        self.draw_dot(place, &look);
        if !is_log {
            self.label_dot(place, &look, layout.cut);
        }
    }

    /// Draws what a client or a node does on each row, and marks the first row of messages under way at the end.
    fn draw_rows(&mut self, layout: &Layout, timeline: &Timeline) {
        let mut number = 0;
        for row in &timeline.rows {
            number = u32::saturating_add(number, 1);
            if let Some(act) = &row.act {
                self.draw_act(layout, act, number, timeline.is_log);
            }
        }
        if timeline.paths.still_under_way > 0 {
            let y = layout.y(layout.under_way_row(0)).saturating_add(4);
            self.labels.write(
                "<text x=\"$\" y=\"$\" class=\"row\">end</text>\n",
                &[Number(ROW_NUMBERS_X), Number(y)],
            );
        }
    }

    /// Draws the lanes, and after the nodes' lanes the one that copies come from.
    fn draw_lanes(&mut self, layout: &Layout) {
        let mut number = 0;
        for lane in &layout.lanes {
            number = u16::saturating_add(number, 1);
            if let Some(node) = NodeId::new(number) {
                self.draw_node(layout, node, lane);
            }
        }
        if layout.has_copies {
            self.shapes.put(b"<g><title>copies</title>");
            self.draw_lane(layout, layout.copies_x, "copies");
            self.labels.write(
                "<text x=\"$\" y=\"$\" class=\"node\">copies</text>\n",
                &[Number(layout.copies_x), Number(NODES_Y)],
            );
        }
    }

    /// Draws all of the page, from what is farthest back.
    pub fn draw(&mut self, layout: &Layout, timeline: &Timeline) {
        if timeline.is_log {
            self.draw_groups(layout);
        } else {
            self.draw_lanes(layout);
        }
        for bar in &layout.bars {
            self.draw_lock_bar(layout, bar);
            if timeline.is_log {
                self.label_request(layout, bar);
            } else {
                self.name_lock_bar(layout, bar);
            }
        }
        self.draw_deferrals(layout, &timeline.deferrals.all);
        for path in &timeline.paths.drawn {
            self.draw_path(layout, path);
        }
        self.draw_rows(layout, timeline);
    }
}

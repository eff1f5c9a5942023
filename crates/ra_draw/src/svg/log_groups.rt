//! The groups of names of a mark log: their names, and the columns of clients in them.
use crate::layout::sizes::{
    BAND_HEIGHT, BAND_ROWS, CLIENTS_Y, COLUMN_WIDTH, GROUP_MARGIN, LANES_TOP, NODES_Y,
};
use crate::layout::{Layout, NameGroup};
use crate::svg::layers::Layers;
use crate::svg::svg_writer::PatternValue::{Node, Number, Short, Whole};

impl Layers {
    /// Draws what is behind the columns of a name: a rectangle, with the name above it.
    fn draw_group(&mut self, layout: &Layout, group: &NameGroup) {
        let top = NODES_Y.saturating_sub(16);
        self.shapes.write(
            "<g><title>$</title><rect x=\"$\" y=\"$\" width=\"$\" height=\"$\" class=\"group\"/></g>\n",
            &[
                Whole(&group.name),
                Number(group.x),
                Number(top),
                Number(group.width),
                Number(layout.y(layout.end).saturating_sub(top)),
            ],
        );
    }

    /// Writes the name of a group this far down.
    fn name_group(&mut self, layout: &Layout, group: &NameGroup, y: u64) {
        self.labels.write(
            "<text x=\"$\" y=\"$\" class=\"name\">$</text>\n",
            &[
                Number(group.x.saturating_add(GROUP_MARGIN)),
                Number(y),
                Short(&group.name, layout.cut),
            ],
        );
    }

    /// Names the nodes and the clients of the columns this far down.
    fn name_columns(&mut self, layout: &Layout, y: u64) {
        for column in &layout.columns.columns {
            self.labels.write(
                "<text x=\"$\" y=\"$\" class=\"label\">n$ c$</text>\n",
                &[
                    Number(column.x),
                    Number(y),
                    Node(column.key.node),
                    Number(u64::from(column.key.client)),
                ],
            );
        }
    }

    /// Draws the lines of the columns.
    fn draw_columns(&mut self, layout: &Layout) {
        for column in &layout.columns.columns {
            let x = column.x.saturating_add(COLUMN_WIDTH / 2);
            self.shapes.write(
                "<g><title>client $ at node $ for $</title><line x1=\"$\" y1=\"$\" x2=\"$\" y2=\"$\" class=\"column\"/></g>\n",
                &[
                    Number(u64::from(column.key.client)),
                    Node(column.key.node),
                    Whole(&column.key.name),
                    Number(x),
                    Number(LANES_TOP),
                    Number(x),
                    Number(layout.y(layout.end)),
                ],
            );
        }
    }

    /// Draws the groups and the columns, and names them, again and again in a long picture.
    pub fn draw_groups(&mut self, layout: &Layout) {
        for group in &layout.columns.groups {
            self.draw_group(layout, group);
            self.name_group(layout, group, NODES_Y);
        }
        self.draw_columns(layout);
        self.name_columns(layout, CLIENTS_Y);
        // Each time below the row that ends a band.
        for band in 0..layout.end.saturating_sub(1) / BAND_ROWS {
            let row = u32::saturating_add(band, 1).saturating_mul(BAND_ROWS);
            let y = layout.y(row).saturating_add(BAND_HEIGHT);
            for group in &layout.columns.groups {
                self.name_group(layout, group, y.saturating_sub(8));
            }
            self.name_columns(layout, y.saturating_add(5));
        }
    }
}

//! The lines of deferrals beside the lanes.
use crate::layout::Layout;
use crate::layout::sizes::{DEFERRAL_STEP, FARTHEST_DEFERRAL, NEAREST_DEFERRAL};
use crate::svg::layers::Layers;
use crate::svg::svg_writer::PatternValue::{Node, Number, Text, Whole};
use crate::timeline::{Deferral, Moment};

impl Layers {
    /// Begins the shape of a deferral: what it is, and its first and last lines, or that it goes on.
    fn begin_deferral(&mut self, deferral: &Deferral) {
        let request = &deferral.request;
        let name = request.name();
        self.shapes.write(
            "<g><title>node $ defers its reply to request $ of node $ for $, from line $",
            &[
                Node(request.to()),
                Number(request.seq()),
                Node(request.from()),
                Whole(&name),
                Number(deferral.came.line),
            ],
        );
        let (said, line) = match deferral.ended {
            Some(ended) => (" to line $</title>", ended.line),
            None => (" on</title>", 0),
        };
        self.shapes.write(said, &[Number(line)]);
    }

    /// Draws the line of a deferral, this far to the left of the lane, from where the REQUEST came to where the REPLY
    /// is sent, and says what it is. Beneath it is a wide one that is not seen, so that a pointer hits it easily.
    fn draw_deferral(&mut self, layout: &Layout, deferral: &Deferral, beside: u64) {
        self.begin_deferral(deferral);
        let came = deferral.came.row;
        let from = layout.at(deferral.request.to(), came);
        let (down, back) = match deferral.ended {
            Some(ended) => (layout.y(ended.row), beside),
            None => (layout.y(layout.end), 0),
        };
        self.shapes.write(
            "<path class=\"$\" d=\"M$ $h-$V$h$\"/><path class=\"$\" d=\"M$ $h-$V$h$\"/>",
            &[
                Text("hit"),
                Number(from.x),
                Number(from.y),
                Number(beside),
                Number(down),
                Number(back),
                Text("deferral"),
                Number(from.x),
                Number(from.y),
                Number(beside),
                Number(down),
                Number(back),
            ],
        );
        if came > 0 {
            self.shapes.write(
                "<path class=\"deferred\" d=\"M$ $m-3 -3h6v6h-6z\"/>",
                &[Number(from.x.saturating_sub(beside)), Number(from.y)],
            );
        }
        self.shapes.put(b"</g>\n");
    }

    /// Draws the deferrals. Each takes the next one of four places beside the lane.
    pub fn draw_deferrals(&mut self, layout: &Layout, deferrals: &[Deferral]) {
        let mut beside = NEAREST_DEFERRAL;
        for deferral in deferrals {
            // One that is over before the part is not drawn.
            if !matches!(deferral.ended, Some(Moment { row: 0, .. })) {
                self.draw_deferral(layout, deferral, beside);
                beside = if beside < FARTHEST_DEFERRAL {
                    u64::saturating_add(beside, DEFERRAL_STEP)
                } else {
                    NEAREST_DEFERRAL
                };
            }
        }
    }
}

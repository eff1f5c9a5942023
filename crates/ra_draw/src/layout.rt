//! The places of everything on the page. Lengths are in pixels, and none comes near its maximum: so they are added
//! without a refusal.
mod log_columns;
mod name_cut;
mod node_lane;
pub mod sizes;

ghost use Rattle.std.specs.Prelude.{◌≡◌, nat_le};
ghost use Rattle.ra_draw.specs.Pictures.{row_y};

use crate::timeline::{LockKey, LockSpan, OpenLocks, Timeline};
use itoa::Buffer;
pub use log_columns::{LogColumns, NameGroup};
pub use name_cut::NameCut;
use name_cut::name_cut_of;
pub use node_lane::NodeLane;
use node_lane::short;
use ra_stamp::{Memory, NodeId};
use sizes::{
    BAND_HEIGHT, BAND_ROWS, COLUMN_WIDTH, COPIES_WIDTH, FEW_NODES_GAP, LABEL_LETTERS, LANE_MARGIN,
    LEFT_MARGIN, LEGEND_WIDTH, MEAN_LETTER, MOST_WIDE, NARROW_GAP, NARROW_ROW, RIGHT_MARGIN,
    ROWS_TOP, UNDER_WAY_ROWS, WIDE_ROW,
};
use std::alloc::Global;

/// A point of the page.
#[derive(Clone, Copy)]
pub struct Point {
    pub x: u64,
    pub y: u64,
}

/// A lock span, and the place of its bar.
#[derive(Clone, Copy)]
pub struct LockBar {
    pub span: LockSpan,
    /// The place of its column beside its node. A mark log has one column of a client for each name.
    pub column: u32,
    /// The last row that it has, which is the one after the part if it is not over.
    pub end: u32,
}

/// The page.
#[derive(Drop)]
pub struct Layout {
    pub nodes: u16,
    /// The last row of a step.
    steps: u32,
    /// The row after the last one.
    pub end: u32,
    /// How names are shortened.
    pub cut: NameCut,
    /// About how wide a label is at most, with the greatest number and the longest name: letters have different widths.
    label: u64,
    /// Whether a message comes from the lane of copies.
    pub has_copies: bool,
    /// How far to the right that lane is: after the last node's lane and a label.
    pub copies_x: u64,
    /// The width of the page.
    pub width: u64,
    /// The lanes of the nodes of a trace, from node 1 on.
    pub lanes: Vec<NodeLane>,
    /// The columns of a mark log.
    pub columns: LogColumns,
    pub bars: Vec<LockBar>,
    /// What is left at the end of the part.
    pub open: OpenLocks,
}

impl Layout {
    /// Makes an empty one for what is drawn of a run.
    pub fn new(alloc: Global, timeline: &Timeline) -> Layout
        ensures { result.nodes ≡ timeline.now.nodes }
    {
        let steps = short(timeline.rows.len());
        let left = timeline.paths.still_under_way.min(UNDER_WAY_ROWS);
        let cut = name_cut_of(timeline);
        let (mut most, mut has_copies) = (0, false);
        for path in &timeline.paths.drawn {
            most = u64::max(most, path.message.seq());
            has_copies = has_copies || path.copied;
        }
        let letters = Buffer::new()
            .format(most)
            .len()
            .saturating_add(cut.letters_of(cut.longest))
            .saturating_add(LABEL_LETTERS);
        Layout {
            nodes: timeline.nodes,
            steps,
            end: steps.saturating_add(left).saturating_add(1),
            cut,
            label: (letters as u64).saturating_mul(MEAN_LETTER),
            has_copies,
            copies_x: 0,
            width: LEGEND_WIDTH,
            lanes: Vec::new(alloc),
            columns: LogColumns::new(alloc),
            bars: Vec::new(alloc),
            open: OpenLocks::new(alloc),
        }
    }

    /// Lays out what is drawn of a run.
    pub fn fill(&mut self, alloc: Global, timeline: &Timeline) -> Result<(), Memory>
        ensures { self.new.nodes ≡ self.old.nodes }
    {
        let spans = timeline.spans.all.as_slice();
        let Ok(open) = OpenLocks::of(alloc, spans) else {
            return Err(Memory);
        };
        self.open = open;
        if timeline.is_log {
            self.fill_columns(alloc, spans)
        } else {
            self.fill_lanes(alloc, spans)
        }
    }

    /// Lays out a mark log.
    fn fill_columns(&mut self, alloc: Global, spans: &[LockSpan]) -> Result<(), Memory>
        ensures { self.new.nodes ≡ self.old.nodes }
    {
        let Ok(bars) = self.columns.add_all(alloc, spans, self.end) else {
            return Err(Memory);
        };
        self.bars = bars;
        let longest = self.cut.letters_of(self.cut.longest);
        let last = self.columns.place(self.nodes, longest);
        self.width = last.saturating_add(RIGHT_MARGIN).max(LEGEND_WIDTH);
        Ok(())
    }

    /// Lays out a trace: the lanes are from left to right, each after its bars.
    fn fill_lanes(&mut self, alloc: Global, spans: &[LockSpan]) -> Result<(), Memory>
        ensures { self.new.nodes ≡ self.old.nodes }
    {
        for _node in 0..self.nodes {
            let Ok(()) = self.lanes.push(NodeLane::new(alloc)) else {
                return Err(Memory);
            };
        }
        for span in spans {
            let Ok(()) = self.add_bar(span) else {
                return Err(Memory);
            };
        }
        // The width between a lane and the bars of the next one.
        let gap = match self.nodes {
            0..=3 => FEW_NODES_GAP.max(self.label),
            // A label does not reach over the bars of the next node, which may have names.
            4..=MOST_WIDE => self.label,
            _ => NARROW_GAP,
        };
        let mut x = LEFT_MARGIN.saturating_add(self.label);
        for lane in &mut self.lanes {
            lane.gutter = u64::from(short(lane.columns.len())) * COLUMN_WIDTH + LANE_MARGIN;
            x = u64::saturating_add(x, lane.gutter);
            lane.x = x;
            x = u64::saturating_add(x, gap);
        }
        self.copies_x = x;
        let last = if self.has_copies {
            x.saturating_add(COPIES_WIDTH)
        } else {
            x.saturating_sub(gap)
        };
        self.width = last
            .saturating_add(self.label)
            .saturating_add(RIGHT_MARGIN)
            .max(LEGEND_WIDTH);
        Ok(())
    }

    /// Gives a lock span a column beside its node, if it reaches into the part.
    fn add_bar(&mut self, span: &LockSpan) -> Result<(), Memory>
        ensures { self.new.nodes ≡ self.old.nodes }
    {
        let end = match span.ended {
            Some(ended) => ended.row,
            None => self.end,
        };
        if end == 0 {
            return Ok(());
        }
        let Some(lane) = self.lanes.get_mut(span.key.node.place()) else {
            return Ok(());
        };
        let Ok(column) = lane.take(span.key.client, span.asked.row, end) else {
            return Err(Memory);
        };
        let bar = LockBar {
            span: *span,
            column,
            end,
        };
        match self.bars.push(bar) {
            Ok(()) => Ok(()),
            Err(_) => Err(Memory),
        }
    }

    /// Returns whether the lanes are wide enough for labels.
    pub fn is_wide(&self) -> bool
        ensures { result ≡ nat_le self.now.nodes 12 }
    {
        self.nodes <= MOST_WIDE
    }

    /// Returns how far down a row is.
    pub fn y(&self, row: u32) -> u64
        ensures { result ≡ row_y self.now.nodes row }
    {
        let height = if self.is_wide() { WIDE_ROW } else { NARROW_ROW };
        let bands = u64::from(row.saturating_sub(1) / BAND_ROWS);
        u64::from(row)
            .saturating_mul(height)
            .saturating_add(bands.saturating_mul(BAND_HEIGHT))
            .saturating_add(ROWS_TOP)
    }

    /// Returns the row of a message under way at the end: one of its own, or the one after the last one.
    pub fn under_way_row(&self, place: u32) -> u32 {
        if place < UNDER_WAY_ROWS {
            self.steps.saturating_add(place).saturating_add(1)
        } else {
            self.end
        }
    }

    /// Returns how far to the right a node is.
    pub fn x(&self, node: NodeId) -> u64 {
        match self.lanes.get(node.place()) {
            Some(lane) => lane.x,
            None => 0,
        }
    }

    /// Returns the place of a row at a node.
    pub fn at(&self, node: NodeId, row: u32) -> Point {
        Point {
            x: self.x(node),
            y: self.y(row),
        }
    }

    /// Returns the left end of a bar.
    pub fn bar_x(&self, bar: &LockBar) -> u64 {
        match self.columns.column_of(&bar.span.key) {
            Some(column) => column.x,
            None => self.column_x(bar.span.key.node, bar.column),
        }
    }

    /// Returns the place at which a client acts on a row: its bar for the name in a mark log, and its node in a trace.
    pub fn acts_at(&self, key: &LockKey, row: u32) -> Point {
        match self.columns.column_of(key) {
            Some(column) => Point {
                x: column.x.saturating_add(COLUMN_WIDTH / 2),
                y: self.y(row),
            },
            None => self.at(key.node, row),
        }
    }

    /// Returns the left end of a column of a node.
    pub fn column_x(&self, node: NodeId, column: u32) -> u64 {
        self.x(node)
            .saturating_sub(LANE_MARGIN + (u64::from(column) + 1) * COLUMN_WIDTH)
    }
}

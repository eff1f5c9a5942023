//! How large everything on the page is, in pixels, and how much of it there is.

/// How far down the rows begin.
pub const ROWS_TOP: u64 = 186;

/// How far down the lanes begin.
pub const LANES_TOP: u64 = ROWS_TOP - 12;

/// How far down the clients of columns are named.
pub const CLIENTS_Y: u64 = ROWS_TOP - 18;

/// How far down the nodes are named.
pub const NODES_Y: u64 = ROWS_TOP - 34;

/// The width to the left of everything else, for the numbers of lines.
pub const LEFT_MARGIN: u64 = 64;

/// How far to the right the number of a line ends.
pub const ROW_NUMBERS_X: u64 = 52;

/// The width to the right of a label.
pub const RIGHT_MARGIN: u64 = 24;

/// The height below the row after the last one.
pub const BOTTOM_MARGIN: u64 = 24;

/// The least width of a page: the legend's.
pub const LEGEND_WIDTH: u64 = 860;

/// The most nodes whose lanes are wide enough for labels.
pub const MOST_WIDE: u16 = 12;

/// The height of a row if lanes are wide, and otherwise.
pub const WIDE_ROW: u64 = 24;

pub const NARROW_ROW: u64 = 14;

/// The least width between a lane and the bars of the next one if there are up to three nodes, and the width if lanes
/// are not wide.
pub const FEW_NODES_GAP: u64 = 210;

pub const NARROW_GAP: u64 = 36;

/// The width of the lane of copies beside its label.
pub const COPIES_WIDTH: u64 = 100;

/// The width of a column of bars.
pub const COLUMN_WIDTH: u64 = 24;

/// The width between a lane and its bars, for the lines of deferrals.
pub const LANE_MARGIN: u64 = 28;

/// How far from a lane the line of a deferral is at least, which leaves room for the head of an arrow; at most; and
/// from the next one.
pub const NEAREST_DEFERRAL: u64 = 11;

pub const FARTHEST_DEFERRAL: u64 = 23;

pub const DEFERRAL_STEP: u64 = 4;

/// The width between the groups of two names of a mark log, and within a group at its left.
pub const GROUP_GAP: u64 = 8;

pub const GROUP_MARGIN: u64 = 6;

/// The letters of a label in a mark log beside the number: a mode and spaces.
pub const LOG_LABEL_LETTERS: u64 = 5;

/// How many rows are between two that name the nodes again.
pub const BAND_ROWS: u32 = 40;

/// The height of what names the nodes again.
pub const BAND_HEIGHT: u64 = 30;

/// The height of a line below the rows, and of what is between them.
pub const END_HEIGHT: u64 = 18;

pub const END_GAP: u64 = 6;

/// The most messages under way at the end that have rows of their own.
pub const UNDER_WAY_ROWS: u32 = 64;

/// The letters of a label beside the number and the name: `request`, `deferred`, a mode and spaces.
pub const LABEL_LETTERS: usize = 22;

/// About the width of a letter of a label. Some are wider.
pub const MEAN_LETTER: u64 = 6;

/// The width of nearly each letter of a label at most.
pub const WIDE_LETTER: u64 = 8;

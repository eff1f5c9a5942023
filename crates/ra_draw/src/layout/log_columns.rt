//! The columns of a mark log: a group for each name, and in it a column for each client that asks for the name.
use crate::layout::LockBar;
use crate::layout::node_lane::short;
use crate::layout::sizes::{
    COLUMN_WIDTH, GROUP_GAP, GROUP_MARGIN, LEFT_MARGIN, LOG_LABEL_LETTERS, MEAN_LETTER, WIDE_LETTER,
};
use crate::timeline::{LockKey, LockSpan};
use indexmap::IndexMap;
use itoa::Buffer;
use ra_stamp::{Memory, Name, NodeId};
use std::alloc::Global;

/// The group of a name.
#[derive(Clone, Copy)]
pub struct NameGroup {
    pub name: Name,
    /// How far to the right it begins, and how wide it is.
    pub x: u64,
    pub width: u64,
    /// How many columns it has.
    count: u64,
    /// Where its next column is put.
    next_x: u64,
}

/// The column of a client for a name.
#[derive(Clone, Copy)]
pub struct LogColumn {
    pub key: LockKey,
    /// How far to the right its bars begin.
    pub x: u64,
    /// The place of the group of its name.
    group: usize,
}

/// All groups and columns, in the order in which they were first asked for.
#[derive(Drop)]
pub struct LogColumns {
    pub groups: Vec<NameGroup>,
    pub columns: Vec<LogColumn>,
    names: IndexMap<Name, usize>,
    places: IndexMap<(NodeId, u32, Name), usize>,
    /// The greatest number of a request, and of a client.
    most_number: u64,
    most_client: u32,
}

/// Returns how many letters a number has.
fn letters_in(number: u64) -> u64 {
    u64::from(short(Buffer::new().format(number).len()))
}

impl LogColumns {
    /// Makes none.
    pub fn new(alloc: Global) -> LogColumns {
        LogColumns {
            groups: Vec::new(alloc),
            columns: Vec::new(alloc),
            names: IndexMap::new(alloc),
            places: IndexMap::new(alloc),
            most_number: 0,
            most_client: 0,
        }
    }

    /// Returns the column of a client for a name, if it has one.
    pub fn column_of(&self, key: &LockKey) -> Option<LogColumn> {
        let place = self.places.get(&(key.node, key.client, key.name))?;
        match self.columns.get(*place) {
            Some(column) => Some(*column),
            None => None,
        }
    }

    /// Returns the place of the group of a name, which is a new one if it had none.
    fn group_of(&mut self, name: &Name) -> Result<usize, Memory> {
        if let Some(place) = self.names.get(name) {
            return Ok(*place);
        }
        let place = self.groups.len();
        let Ok(_) = self.names.insert(*name, place) else {
            return Err(Memory);
        };
        let group = NameGroup {
            name: *name,
            x: 0,
            width: 0,
            count: 0,
            next_x: 0,
        };
        match self.groups.push(group) {
            Ok(()) => Ok(place),
            Err(_) => Err(Memory),
        }
    }

    /// Adds a column for the client of a span, unless it has one for the name.
    fn add(&mut self, span: &LockSpan) -> Result<(), Memory> {
        self.most_number = self.most_number.max(span.number);
        self.most_client = self.most_client.max(span.key.client);
        let key = &span.key;
        if self.column_of(key).is_some() {
            return Ok(());
        }
        let Ok(group) = self.group_of(&key.name) else {
            return Err(Memory);
        };
        if let Some(group) = self.groups.get_mut(group) {
            group.count = group.count.saturating_add(1);
        }
        let place = self.columns.len();
        let Ok(_) = self.places.insert((key.node, key.client, key.name), place) else {
            return Err(Memory);
        };
        let column = LogColumn {
            key: *key,
            x: 0,
            group,
        };
        match self.columns.push(column) {
            Ok(()) => Ok(()),
            Err(_) => Err(Memory),
        }
    }

    /// Adds columns for the spans that reach into the part, and returns their bars. The row `end` is the one after the
    /// part.
    pub fn add_all(
        &mut self,
        alloc: Global,
        spans: &[LockSpan],
        end: u32,
    ) -> Result<Vec<LockBar>, Memory> {
        let mut bars = Vec::new(alloc);
        for span in spans {
            let last = match span.ended {
                Some(ended) => ended.row,
                None => end,
            };
            if last > 0 {
                let Ok(()) = self.add(span) else {
                    return Err(Memory);
                };
                let bar = LockBar {
                    span: *span,
                    column: 0,
                    end: last,
                };
                let Ok(()) = bars.push(bar) else {
                    return Err(Memory);
                };
            }
        }
        Ok(bars)
    }

    /// Returns how wide a column is: it has room for its heading, and beside its bars for the mode and the number of a
    /// request.
    fn column_width(&self, nodes: u16) -> u64 {
        let heading = letters_in(u64::from(nodes))
            .saturating_add(letters_in(u64::from(self.most_client)))
            .saturating_add(3)
            .saturating_mul(WIDE_LETTER);
        let label = letters_in(self.most_number)
            .saturating_add(LOG_LABEL_LETTERS)
            .saturating_mul(MEAN_LETTER);
        heading
            .max(label.saturating_add(COLUMN_WIDTH))
            .saturating_add(GROUP_MARGIN)
    }

    /// Places the groups from left to right, with room for names that have at most this many letters, and the columns
    /// of each in the order of their nodes. Returns where the last group ends.
    pub fn place(&mut self, nodes: u16, longest: usize) -> u64 {
        let width = self.column_width(nodes);
        let least = u64::from(short(longest)).saturating_mul(WIDE_LETTER);
        let mut x = LEFT_MARGIN;
        for group in &mut self.groups {
            group.x = x;
            group.width = u64::saturating_mul(group.count, width)
                .max(least)
                .saturating_add(GROUP_MARGIN);
            group.next_x = u64::saturating_add(x, GROUP_MARGIN);
            x = u64::saturating_add(x, group.width).saturating_add(GROUP_GAP);
        }
        for node in 1..=nodes {
            self.place_node(node, width);
        }
        x
    }

    /// Places the columns of a node, each after what its group has so far.
    fn place_node(&mut self, node: u16, width: u64) {
        for column in &mut self.columns {
            if column.key.node.get() == node
                && let Some(group) = self.groups.get_mut(column.group)
            {
                column.x = group.next_x;
                group.next_x = u64::saturating_add(group.next_x, width);
            }
        }
    }
}

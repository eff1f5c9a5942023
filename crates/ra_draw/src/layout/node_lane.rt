//! The lane of a node, and the columns of bars beside it.
use indexmap::IndexMap;
use ra_stamp::Memory;
use std::alloc::Global;

/// A column of bars, all of one client.
#[derive(Clone, Copy)]
pub struct Column {
    pub client: u32,
    /// The lowest row with bars.
    end: u32,
    /// The next column of this client, if it has more.
    next: Option<u32>,
}

/// A node.
#[derive(Drop)]
pub struct NodeLane {
    /// How far to the right it is.
    pub x: u64,
    /// How wide the bars beside it are, with what is between them and it.
    pub gutter: u64,
    /// The columns of bars beside it, the nearest to it first.
    pub columns: Vec<Column>,
    /// Which of them is the first one of each client.
    firsts: IndexMap<u32, u32>,
}

impl NodeLane {
    /// Makes one without columns, which has no place yet.
    pub fn new(alloc: Global) -> NodeLane {
        NodeLane {
            x: 0,
            gutter: 0,
            columns: Vec::new(alloc),
            firsts: IndexMap::new(alloc),
        }
    }

    /// Takes a column for a bar of this client over these rows, and returns which: its first free one, or a new one
    /// after its last one if it has any.
    pub fn take(&mut self, client: u32, first: u32, last: u32) -> Result<u32, Memory> {
        let new = short(self.columns.len());
        let mut place = match self.firsts.get(&client) {
            Some(place) => *place,
            None => {
                let Ok(_) = self.firsts.insert(client, new) else {
                    return Err(Memory);
                };
                new
            }
        };
        for _column in 0..self.columns.len() {
            let Some(column) = self.columns.get_mut(place as usize) else {
                break;
            };
            if column.end <= first {
                column.end = last;
                return Ok(place);
            }
            match column.next {
                Some(next) => place = next,
                None => {
                    column.next = Some(new);
                    break;
                }
            }
        }
        let column = Column {
            client,
            end: last,
            next: None,
        };
        match self.columns.push(column) {
            Ok(()) => Ok(new),
            Err(_) => Err(Memory),
        }
    }
}

/// Returns a place as a short number: a trace has no more bytes.
pub fn short(place: usize) -> u32 {
    u32::try_from(place).unwrap_or(u32::MAX)
}

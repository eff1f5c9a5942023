//! The paths of messages between two moments of a run.
use crate::timeline::Moment;
use indexmap::IndexMap;
use ra_stamp::{Memory, Message};
use std::alloc::Global;

/// What happened to a message.
#[derive(Clone, Copy)]
pub enum MessageEnd {
    Delivered(Moment),
    Lost(Moment),
    /// It is still under way, at this place among those that are. Equal ones have the same place, and the first of them
    /// has the label.
    UnderWay { place: u32, is_first: bool },
}

/// The path of a message.
#[derive(Clone, Copy)]
pub struct MessagePath {
    pub message: Message,
    /// When it came under way.
    pub start: Moment,
    /// It is a copy that a repeat made. Otherwise it was sent.
    pub copied: bool,
    pub end: MessageEnd,
    /// It is a REQUEST, and the node to which it was delivered deferred its REPLY.
    pub is_deferred: bool,
}

/// Equal messages: when each came under way and whether as a copy, the first one first, and how many were taken since.
#[derive(Drop)]
pub struct EqualMessages {
    starts: Vec<(Moment, bool)>,
    taken: usize,
}

/// The messages under way, and the paths of messages that are drawn so far.
#[derive(Drop)]
pub struct MessagePaths {
    pub under_way: IndexMap<Message, EqualMessages>,
    pub drawn: Vec<MessagePath>,
    /// How many different messages are drawn as under way at the end.
    pub still_under_way: u32,
}

impl MessagePaths {
    /// Notes that a message came under way: it was sent, or it is a copy.
    pub fn begin(
        &mut self,
        alloc: Global,
        message: &Message,
        start: Moment,
        copied: bool,
    ) -> Result<(), Memory> {
        if !self.under_way.contains_key(message) {
            let none = EqualMessages {
                starts: Vec::new(alloc),
                taken: 0,
            };
            let Ok(_) = self.under_way.insert(*message, none) else {
                return Err(Memory);
            };
        }
        if let Some(equals) = self.under_way.get_mut(message) {
            let Ok(()) = equals.starts.push((start, copied)) else {
                return Err(Memory);
            };
        }
        Ok(())
    }

    /// Notes that a message was delivered or lost, the first of equal ones. It is drawn unless that is before the part.
    pub fn end(&mut self, message: &Message, end: Moment, is_lost: bool) -> Result<(), Memory> {
        let Some(equals) = self.under_way.get_mut(message) else {
            return Ok(());
        };
        let Some(&(start, copied)) = equals.starts.get(equals.taken) else {
            return Ok(());
        };
        equals.taken = equals.taken.saturating_add(1);
        if equals.taken == equals.starts.len() {
            self.under_way.swap_remove(message);
        }
        if end.row > 0 {
            let path = MessagePath {
                message: *message,
                start,
                copied,
                end: if is_lost {
                    MessageEnd::Lost(end)
                } else {
                    MessageEnd::Delivered(end)
                },
                is_deferred: false,
            };
            let Ok(()) = self.drawn.push(path) else {
                return Err(Memory);
            };
        }
        Ok(())
    }

    /// Notes that those under way, which came so in the part, are drawn.
    pub fn close(&mut self) -> Result<(), Memory> {
        for (message, equals) in self.under_way.iter() {
            let mut is_first = true;
            for at in equals.taken..equals.starts.len() {
                let (start, copied) = equals.starts[at];
                if start.row > 0 {
                    let path = MessagePath {
                        message: *message,
                        start,
                        copied,
                        end: MessageEnd::UnderWay {
                            place: self.still_under_way,
                            is_first,
                        },
                        is_deferred: false,
                    };
                    let Ok(()) = self.drawn.push(path) else {
                        return Err(Memory);
                    };
                    is_first = false;
                }
            }
            if !is_first {
                self.still_under_way = self.still_under_way.saturating_add(1);
            }
        }
        Ok(())
    }
}

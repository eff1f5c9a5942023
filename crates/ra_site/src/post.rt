ghost use Rattle.std.specs.Prelude.{◌≡◌, ◌↔◌, ◌≤◌, ◌<◌, ◌+◌, All, length, vec_len, IfOk, IfSome, OnOk};
ghost use Rattle.ra_frame.specs.Fits.{Fits};
ghost use Rattle.ra_site.specs.Cluster.{ChecksCount};

use crossbeam_channel::{Receiver, Sender, unbounded};
use ra_frame::{Frame, encode};
use ra_stamp::{Memory, NodeCount, NodeId};
use std::alloc::Global;
use std::sync::{RwLock, Wait};
use std::{fmt, thread};
use thiserror::Error;

/// Why there is no post.
#[derive(Clone, Copy, Debug, PartialEq, Eq, Error)]
pub enum NewPostError {
    /// The number of nodes is not 1 to 64.
    BadCount,
    /// Memory ran out.
    Memory,
}

impl fmt::Display for NewPostError {
    fn fmt<W: fmt::Write>(&self, f: &mut fmt::Formatter<W>) -> fmt::Result {
        fmt::Debug::fmt(self, f)
    }
}

/// Why a frame was not sent.
#[derive(Clone, Copy, Debug, PartialEq, Eq, Error)]
pub enum SendError {
    /// The post is closed.
    Closed,
    /// There is no memory for it, or no inbox of its node, or the inbox is gone.
    Refused,
}

impl fmt::Display for SendError {
    fn fmt<W: fmt::Write>(&self, f: &mut fmt::Formatter<W>) -> fmt::Result {
        fmt::Debug::fmt(self, f)
    }
}

/// How many frames a node takes from its inbox at most, before others have a turn at its lock.
const MOST_AT_ONCE: u8 = 64;

/// What takes the bytes of the frames for one node.
type FrameSender = Sender<Vec<u8>>;

/// The frames for one node arrive here, each as its bytes.
#[derive(Drop)]
pub struct Inbox {
    frames: Receiver<Vec<u8>>,
}

/// What carries frames between the nodes of a cluster: an inbox for each node, and for each inbox the one sender, until
/// the post is closed. Threads share it.
pub struct Post {
    /// In the order of the nodes, until the post is closed. Threads that send share it, and only a close excludes them.
    senders: RwLock<Option<Vec<FrameSender>>>,
}

// What a post owns is freed here, so that no other crate proves how each of its parts is dropped.
impl Drop for Post {
    fn drop(self) {
        let Post { senders: _ } = self;
    }
}

impl Post {
    /// Makes the post of this many nodes, and as many inboxes, in time linear in them. The inboxes are in the order of
    /// the nodes, which no clause says.
    ///
    /// # Errors
    ///
    /// The first that holds:
    ///
    /// 1. `BadCount`: the number of nodes is not 1 to 64.
    /// 2. `Memory`: memory ran out.
    pub fn new(alloc: Global, nodes: u16) -> Result<(Post, Vec<Inbox>), NewPostError>
        ensures inboxes { IfOk result (λ made. vec_len made.1 ≡ nodes) }
        ensures count { ChecksCount nodes result }
    {
        let Some(_count) = NodeCount::new(nodes) else {
            return Err(NewPostError::BadCount);
        };
        let mut senders = Vec::new(alloc);
        let mut inboxes = Vec::new(alloc);
        for _node in 0..nodes {
            if open_inbox(alloc, &mut senders, &mut inboxes).is_err() {
                return Err(NewPostError::Memory);
            }
        }
        let senders = RwLock::new(Some(senders));
        Ok((Post { senders }, inboxes))
    }

    /// Sends the bytes of a frame, in version 2, to the inbox of the node that it is for. It may wait for other threads
    /// that send to that node and for a close, but for no thread that reads an inbox.
    ///
    /// # Errors
    ///
    /// The first that holds:
    ///
    /// 1. `Closed`: the post is closed.
    /// 2. `Refused`: there is no memory, or no inbox of that node, or the inbox is gone.
    pub fn send<R: Wait>(&self, rt: &R, alloc: Global, frame: &Frame) -> Result<(), SendError>
        requires { Fits frame.now }
    {
        // They are made before the lock is taken, so that nobody waits for the allocator, and looked at after.
        let bytes = encode(alloc, frame);
        let senders = self.senders.read(rt);
        let Some(senders) = senders.as_ref() else {
            return Err(SendError::Closed);
        };
        let Ok(bytes) = bytes else {
            return Err(SendError::Refused);
        };
        if send_to(rt, senders, frame.message.to(), bytes) {
            Ok(())
        } else {
            Err(SendError::Refused)
        }
    }

    /// Sends frames one after the other, up to the first that is refused. Returns that one and those after it, which
    /// were not tried, or `None` if all were sent. No close comes between two frames, so each is encoded under the
    /// lock, which other threads that send share. Only a close waits for it.
    pub(crate) fn send_up_to<'a, R: Wait>(
        &self,
        rt: &R,
        alloc: Global,
        frames: &'a [Frame],
    ) -> Option<(&'a Frame, &'a [Frame])>
        requires { All Fits frames.now }
        ensures fewer { IfSome result (λ left. length left.1.now < length frames.now) }
        ensures fit { IfSome result (λ left. All Fits left.1.now) }
    {
        let senders = self.senders.read(rt);
        let Some(senders) = senders.as_ref() else {
            return frames.split_first();
        };
        for place in 0..frames.len() {
            let frame = &frames[place];
            let is_sent = match encode(alloc, frame) {
                Ok(bytes) => send_to(rt, senders, frame.message.to(), bytes),
                Err(Memory) => false,
            };
            if !is_sent {
                return Some((frame, &frames[place + 1..]));
            }
        }
        None
    }

    /// Closes the post: no frame is sent from now on, and each inbox is closed once it is empty. It may wait for other
    /// calls of the post, and does not allocate.
    pub fn close<R: Wait>(&self, rt: &R) {
        *self.senders.write(rt) = None;
    }
}

/// Sends the bytes of a frame to the inbox of a node. Returns whether it took them.
fn send_to<R: Wait>(rt: &R, senders: &[FrameSender], node: NodeId, bytes: Vec<u8>) -> bool {
    match senders.get(node.place()) {
        Some(sender) => sender.send(rt, bytes).is_ok(),
        None => false,
    }
}

/// Makes another inbox and its sender.
fn open_inbox(
    alloc: Global,
    senders: &mut Vec<FrameSender>,
    inboxes: &mut Vec<Inbox>,
) -> Result<(), Memory>
    ensures { OnOk result (vec_len inboxes.new ≡ vec_len inboxes.old + 1) }
{
    // Room comes first, so that no exit but the last owns anything.
    senders.reserve(1)?;
    inboxes.reserve(1)?;
    let (sender, frames) = unbounded(alloc)?;
    senders.push_reserved(sender);
    inboxes.push_reserved(Inbox { frames });
    Ok(())
}

impl Inbox {
    /// Waits for the next frame, and puts its bytes into the list, and those of the frames that have come by then, up
    /// to [`MOST_AT_ONCE`] in all. Returns `false` if the inbox is empty and the post closed. A frame for which the
    /// list has no room stays in the inbox.
    ///
    /// # Errors
    ///
    /// `Memory`: there is no room for the first frame.
    pub(crate) fn take<R: Wait>(&self, rt: &R, taken: &mut Vec<Vec<u8>>) -> Result<bool, Memory> {
        taken.reserve(1)?;
        let first = match self.frames.try_recv(rt) {
            Ok(first) => Some(first),
            Err(_) => {
                // To sleep and to be woken costs more than to let others run, which may send something meanwhile.
                thread::yield_now();
                self.frames.recv(rt).ok()
            }
        };
        let Some(first) = first else {
            return Ok(false);
        };
        taken.push_reserved(first);
        for _ in 1..MOST_AT_ONCE {
            if taken.reserve(1).is_err() {
                break;
            }
            let Ok(next) = self.frames.try_recv(rt) else {
                break;
            };
            taken.push_reserved(next);
        }
        Ok(true)
    }
}

//! Two nodes lock a name between them. This program is their host. It lets the events happen: the asks and leaves of
//! its clients and the frames that come. It prints the marks, carries the messages as the bytes of frames, and keeps
//! the event clock of each node. In place of its list of frames under way, another host has sockets or channels.
#![tactic(auto)]

use anyhow::{Context, Result, ensure};
use ra_frame::{Frame, decode, encode};
use ra_node::{Node, Outcome};
use ra_stamp::{Mode, Name, NodeId};
use std::alloc::Global;
use std::cmp::max;

/// What happens at a node.
#[derive(Clone, Copy)]
enum Event {
    /// A client asks for a name, exclusively.
    Ask { client: u32, name: Name },
    /// The client that holds a name leaves it.
    Leave { client: u32, name: Name },
    /// A frame comes from the other node.
    Receive(Frame),
}

impl Event {
    /// Returns the clock of the frame that comes, or 0.
    fn clock(&self) -> u64 {
        match self {
            Event::Receive(frame) => frame.clock,
            _ => 0,
        }
    }
}

/// A node, and its event clock, which a `Node` leaves to its host.
#[derive(Drop)]
struct Site {
    node: Node,
    clock: u64,
}

impl Site {
    /// Makes one of two nodes. Its first request on a name has the number 1, if no greater number has come.
    fn new(alloc: Global, me: NodeId) -> Result<Site> {
        let node = Node::new(alloc, me, 2, 0)?;
        Ok(Site { node, clock: 0 })
    }

    /// Lets an event happen. It raises the clock by 1, or to the clock of a frame that comes plus 1 if that is greater.
    fn step(&mut self, alloc: Global, event: Event) -> Result<Outcome> {
        let clock = max(self.clock, event.clock());
        // Before the event, so that the node is as it was if no clock is left.
        ensure!(clock < Frame::MAX_CLOCK, "the clock is at its end");
        let outcome = match event {
            Event::Ask { client, name } => self.node.ask(alloc, client, name, Mode::Exclusive)?,
            Event::Leave { client, name } => self.node.leave(alloc, client, name)?,
            Event::Receive(frame) => self.node.receive(alloc, &frame.message)?,
        };
        self.clock = clock + 1;
        Ok(outcome)
    }
}

/// Two nodes, and the frames under way between them, each with the node that it is for.
#[derive(Drop)]
struct Host {
    sites: [Site; 2],
    under_way: Vec<(NodeId, Vec<u8>)>,
}

impl Host {
    /// Makes the host of two nodes, between which no frame is under way.
    fn new(alloc: Global, one: NodeId, two: NodeId) -> Result<Host> {
        Ok(Host {
            sites: [Site::new(alloc, one)?, Site::new(alloc, two)?],
            under_way: Vec::new(alloc),
        })
    }

    /// Lets an event happen at a node, prints its marks and sends its messages.
    fn step(&mut self, rt: &impl Print, alloc: Global, node: NodeId, event: Event) -> Result<()> {
        let place = node.place();
        let site = self.sites.get_mut(place).context("there is no such node")?;
        let outcome = site.step(alloc, event)?;
        let clock = site.clock;
        self.tell(rt, alloc, clock, &outcome)
    }

    /// Prints marks and sends messages, as frames that carry the node's clock.
    fn tell(
        &mut self,
        rt: &impl Print,
        alloc: Global,
        clock: u64,
        outcome: &Outcome,
    ) -> Result<()> {
        for mark in outcome.marks.as_slice() {
            println!(rt; "{mark}")?;
        }
        for &message in outcome.sends.as_slice() {
            self.send(rt, alloc, &Frame { clock, message })?;
        }
        Ok(())
    }

    /// Puts the bytes of a frame under way, and prints them.
    fn send(&mut self, rt: &impl Print, alloc: Global, frame: &Frame) -> Result<()> {
        // `encode` requires that the frame fits: without this line the program is not proved.
        ensure!(frame.fits(), "the frame does not fit");
        let (bytes, to) = (encode(alloc, frame)?, frame.message.to());
        let digits = hex::encode(alloc, &bytes)?;
        println!(rt; "frame {} to {to}: {digits}", frame.message.from())?;
        self.under_way.push((to, bytes))?;
        Ok(())
    }

    /// Hands each frame to its node, the oldest first, until none is under way. Any order would do, but each is handed
    /// over once, and none that was not sent.
    fn deliver_all(&mut self, rt: &impl Print, alloc: Global) -> Result<()> {
        for _turn in 0..u64::MAX {
            if self.under_way.is_empty() {
                break;
            }
            let (node, bytes) = self.under_way.remove(0);
            let frame = decode(&bytes)?;
            self.step(rt, alloc, node, Event::Receive(frame))?;
        }
        Ok(())
    }
}

/// Has a client of each node ask for the name and leave it.
fn play(rt: &impl Print, alloc: Global, host: &mut Host, one: NodeId, two: NodeId) -> Result<()> {
    let name = Name::new(b"disk")?;
    // Both ask before a frame came, so both requests have the number 1. Then the lower node goes first: node 1 defers
    // its REPLY, so client 7 enters and client 9 waits.
    host.step(rt, alloc, one, Event::Ask { client: 7, name })?;
    host.step(rt, alloc, two, Event::Ask { client: 9, name })?;
    host.deliver_all(rt, alloc)?;

    // Client 7 leaves, the REPLY goes out, and by it client 9 enters.
    host.step(rt, alloc, one, Event::Leave { client: 7, name })?;
    host.deliver_all(rt, alloc)?;
    host.step(rt, alloc, two, Event::Leave { client: 9, name })
}

fn main(rt: HostRuntime) -> Result<()> {
    let alloc = rt.alloc();
    let one = NodeId::new(1).context("a node's number is 1 to 64")?;
    let two = NodeId::new(2).context("a node's number is 1 to 64")?;
    let mut host = Host::new(alloc, one, two)?;
    play(&rt, alloc, &mut host, one, two)
}

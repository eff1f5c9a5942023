//! Which requests end only after which others, as a graph.
ghost use Rattle.std.specs.Prelude.{◌≡◌};
ghost use Rattle.ra_deadlock.specs.Ranks.{client_rank};

use crate::request::ClientAt;
use crate::{Request, Stage};
use ra_stamp::{Memory, Name};
use std::alloc::Global;
use std::collections::HashMap;

/// How far the search for a circle has come.
#[derive(Clone, Copy)]
enum Progress {
    Unseen,
    /// Each one on the path ends only after the next one.
    OnPath,
    /// It is in no circle.
    Done,
}

/// A request, or a client that waits or is queued.
#[derive(Clone, Copy)]
struct Vertex {
    progress: Progress,
    /// How many were done before it, plus 1, once it is done. So it is greater than the ranks of those that it ends
    /// after.
    rank: u64,
    /// The place of the next link to follow from it.
    link: Option<usize>,
}

/// That a request ends only after another one, or after a client ends its requests that wait.
#[derive(Clone, Copy)]
struct Link {
    to: usize,
    /// The place of the next link from the same vertex.
    next: Option<usize>,
}

/// Which requests end only after which others. The first vertices are the requests, in their order.
#[derive(Drop)]
pub struct WaitGraph {
    vertices: Vec<Vertex>,
    links: Vec<Link>,
    /// The place of the vertex of each client that waits or is queued.
    clients: HashMap<ClientAt, usize>,
    /// The rank of the vertex of each client that waits or is queued.
    pub client_ranks: HashMap<ClientAt, u64>,
    /// The place of the last request on each name that waits or is granted.
    last_on: HashMap<Name, usize>,
    /// For each request that waits or is granted, the place of the one before it on its name.
    before: Vec<Option<usize>>,
    /// How many vertices are done.
    done: u64,
}

impl WaitGraph {
    /// Makes the graph of no requests.
    pub fn new(alloc: Global) -> WaitGraph {
        WaitGraph {
            vertices: Vec::new(alloc),
            links: Vec::new(alloc),
            clients: HashMap::new(alloc),
            client_ranks: HashMap::new(alloc),
            last_on: HashMap::new(alloc),
            before: Vec::new(alloc),
            done: 0,
        }
    }

    /// Returns the rank of the vertex at a place, or 0 if there is none.
    pub fn rank(&self, place: usize) -> u64 {
        match self.vertices.get(place) {
            Some(vertex) => vertex.rank,
            None => 0,
        }
    }

    /// Returns the rank of a client, if it waits or is queued.
    pub fn client_rank(&self, client: &ClientAt) -> Option<u64>
        ensures { result ≡ client_rank self.now.client_ranks client.now }
    {
        self.client_ranks.get(client).copied()
    }

    /// Adds a vertex, and returns its place.
    fn add_vertex(&mut self) -> Result<usize, Memory> {
        let place = self.vertices.len();
        let vertex = Vertex {
            progress: Progress::Unseen,
            rank: 0,
            link: None,
        };
        self.vertices.push(vertex)?;
        Ok(place)
    }

    /// Adds a link from a vertex to another one, if that vertex exists. It comes before the others from there.
    fn add_link(&mut self, from: usize, to: usize) -> Result<(), Memory> {
        let place = self.links.len();
        let Some(vertex) = self.vertices.get_mut(from) else {
            return Ok(());
        };
        let next = vertex.link;
        vertex.link = Some(place);
        self.links.push(Link { to, next })?;
        Ok(())
    }

    /// Adds a vertex for each request, and keeps the order of those on each name that wait or are granted.
    fn add_requests(&mut self, requests: &[Request]) -> Result<(), Memory> {
        for request in requests {
            let place = self.add_vertex()?;
            let before = match request.stage {
                Stage::Queued => None,
                Stage::Waits | Stage::Holds => self.last_on.insert(request.entry.name, place)?,
            };
            self.before.push(before)?;
        }
        Ok(())
    }

    /// Adds a vertex for each client that waits or is queued, with links to the requests by which it does.
    fn add_clients(&mut self, requests: &[Request]) -> Result<(), Memory> {
        for (place, request) in requests.iter().enumerate() {
            if !request.is_granted() {
                let client = request.client();
                let from = match self.clients.get(&client).copied() {
                    Some(from) => from,
                    None => {
                        let from = self.add_vertex()?;
                        self.clients.insert(client, from)?;
                        from
                    }
                };
                self.add_link(from, place)?;
            }
        }
        Ok(())
    }

    /// Adds a link from a request that waits or is queued to each one that is in its way, so that those that came first
    /// are followed first.
    fn add_links_from(
        &mut self,
        requests: &[Request],
        place: usize,
        own: &Request,
    ) -> Result<(), Memory> {
        let mut at = self.last_on.get(&own.entry.name).copied();
        for _ in 0..requests.len() {
            let Some(other_place) = at else {
                break;
            };
            if let Some(other) = requests.get(other_place)
                && other.is_in_the_way(own)
            {
                self.add_link(place, other_place)?;
            }
            at = match self.before.get(other_place) {
                Some(before) => *before,
                None => None,
            };
        }
        Ok(())
    }

    /// Adds the links from the requests.
    fn add_links(&mut self, requests: &[Request]) -> Result<(), Memory> {
        for (place, request) in requests.iter().enumerate() {
            if !request.is_granted() {
                self.add_links_from(requests, place, request)?;
            } else if let Some(client) = self.clients.get(&request.client()).copied() {
                self.add_link(place, client)?;
            }
        }
        Ok(())
    }

    /// Goes on with a path until a vertex ends only after another one on the path, and returns that one. Returns `None`
    /// if there is none, and then the path is empty.
    fn circle_on(&mut self, path: &mut Vec<usize>) -> Result<Option<usize>, Memory> {
        // Each turn follows a link or takes a vertex off the path, and each of them once.
        let turns = usize::saturating_add(self.vertices.len(), self.links.len());
        for _ in 0..usize::saturating_add(turns, 1) {
            let Some(last) = path.last().copied() else {
                break;
            };
            let Some(vertex) = self.vertices.get_mut(last) else {
                break;
            };
            let Some(link) = next_link(&self.links, vertex.link) else {
                self.done = u64::saturating_add(self.done, 1);
                vertex.rank = self.done;
                vertex.progress = Progress::Done;
                path.pop();
                continue;
            };
            vertex.link = link.next;
            let Some(next) = self.vertices.get_mut(link.to) else {
                continue;
            };
            match next.progress {
                Progress::Done => {}
                Progress::OnPath => return Ok(Some(link.to)),
                Progress::Unseen => {
                    next.progress = Progress::OnPath;
                    path.push(link.to)?;
                }
            }
        }
        Ok(None)
    }

    /// Looks for a circle from a vertex that was not seen. If there is one, it is the last part of the path then, from
    /// the vertex that is returned. Otherwise the path is empty, as before.
    fn circle_from(
        &mut self,
        path: &mut Vec<usize>,
        place: usize,
    ) -> Result<Option<usize>, Memory> {
        let Some(vertex) = self.vertices.get_mut(place) else {
            return Ok(None);
        };
        if !matches!(vertex.progress, Progress::Unseen) {
            return Ok(None);
        }
        vertex.progress = Progress::OnPath;
        path.push(place)?;
        self.circle_on(path)
    }

    /// Looks for a circle from each request that waits or is queued, and then from the other vertices. There is none from
    /// those, so this only ranks them.
    fn circle(
        &mut self,
        requests: &[Request],
        path: &mut Vec<usize>,
    ) -> Result<Option<usize>, Memory> {
        for (place, request) in requests.iter().enumerate() {
            if !request.is_granted() {
                let first = self.circle_from(path, place)?;
                if first.is_some() {
                    return Ok(first);
                }
            }
        }
        for place in 0..self.vertices.len() {
            let first = self.circle_from(path, place)?;
            if first.is_some() {
                return Ok(first);
            }
        }
        Ok(None)
    }

    /// Notes the ranks of the clients.
    fn rank_clients(&mut self) -> Result<(), Memory> {
        for (client, place) in self.clients.iter() {
            let rank = match self.vertices.get(*place) {
                Some(vertex) => vertex.rank,
                None => 0,
            };
            self.client_ranks.insert(*client, rank)?;
        }
        Ok(())
    }

    /// Looks for a circle of these requests, and returns its places, or none. Without a circle each vertex then has its
    /// rank. The cost is linear in the vertices and links.
    pub fn search(&mut self, alloc: Global, requests: &[Request]) -> Result<Vec<usize>, Memory> {
        self.add_requests(requests)?;
        self.add_clients(requests)?;
        self.add_links(requests)?;
        let mut path = Vec::new(alloc);
        let first = self.circle(requests, &mut path)?;
        self.rank_clients()?;
        Ok(places_from(alloc, &path, first)?)
    }
}

/// Returns the link at a place, if there is one.
fn next_link(links: &[Link], place: Option<usize>) -> Option<Link> {
    links.get(place?).copied()
}

/// Returns the places on a path from this one on, or none if it is not there.
fn places_from(alloc: Global, path: &[usize], first: Option<usize>) -> Result<Vec<usize>, Memory> {
    let mut places = Vec::new(alloc);
    let Some(first) = first else {
        return Ok(places);
    };
    let mut is_circle = false;
    for place in path {
        is_circle = is_circle || *place == first;
        if is_circle {
            places.push(*place)?;
        }
    }
    Ok(places)
}

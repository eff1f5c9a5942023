//! The sites of a whole cluster.
ghost use Rattle.std.specs.Prelude.{◌≡◌, ◌↔◌, ◌++◌, ◌∷◌, [], length, IfOk, IsTrue, OnOk};
ghost use Rattle.std.specs.List.{range_with_len};
ghost use Rattle.ra_site.specs.Sites.{AreSitesWith, numbers_of, site_at, sites_to};

use crate::{Book, Site, Stop};
use ra_stamp::{Memory, NodeId};
use std::alloc::Global;
use std::sync::Wait;

/// Returns whether these are the sites of nodes 1 to n, in order, and the node of this site is one of them, as the
/// calls of [`Site`] require. It does not allocate. The cost is linear in the number of sites.
pub fn is_site_of(site: &Site, sites: &[Site]) -> bool
    ensures { IsTrue result ↔ AreSitesWith site.now sites.now }
{
    usize::from(site.node().get()) <= sites.len() && are_in_order(sites)
}

/// Returns whether the sites belong to nodes 1 to n, in order.
fn are_in_order(sites: &[Site]) -> bool
    ensures { IsTrue result ↔ (numbers_of sites.now ≡ range_with_len 1 (length sites.now)) }
{
    for place in 0..sites.len() {
        if sites[place].node().place() != place {
            return false;
        }
    }
    true
}

/// Makes the sites of a cluster of this many nodes, in the order of the nodes, whose numbers begin at `start`. They are
/// audited or not.
///
/// # Errors
///
/// `Memory`, also if there cannot be this many nodes.
pub fn make_sites(alloc: Global, nodes: u16, start: u64, audited: bool) -> Result<Vec<Site>, Memory>
    ensures { IfOk result (λ sites. sites.items ≡ sites_to nodes audited) }
{
    let mut sites = Vec::new(alloc);
    for place in 0..nodes {
        push_site(alloc, &mut sites, place + 1, nodes, start, audited)?;
    }
    Ok(sites)
}

/// Makes the site of the node with this number, one of this many, and puts it after the others.
fn push_site(
    alloc: Global,
    sites: &mut Vec<Site>,
    number: u16,
    nodes: u16,
    start: u64,
    audited: bool,
) -> Result<(), Memory>
    ensures { OnOk result (sites.new.items ≡ sites.old.items ++ site_at audited number ∷ []) }
{
    let Some(me) = NodeId::new(number) else {
        return Err(Memory);
    };
    // Room comes first, so that no exit but the last owns anything.
    sites.reserve(1)?;
    let Ok(book) = Book::new(alloc, me, nodes, start) else {
        return Err(Memory);
    };
    sites.push_reserved(Site::of(alloc, book, audited));
    Ok(())
}

/// Stops each site, in turn from node 1 up, with one lock at a time.
pub fn stop_all<R: Wait>(rt: &R, sites: &[Site], stop: Stop) {
    for site in sites {
        site.stop(rt, stop);
    }
}

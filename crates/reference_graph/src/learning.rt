ghost use Rattle.std.specs.Prelude.{◌≡◌, ◌<◌, length, slice_get, replicate, Some, None, IfOk, option_map};
ghost use Rattle.reference_graph.specs.Learning.{empty, looked_up, links_extent, node_extent, Learned, Keeps, Passes, HasExtents};

use crate::extent::{EMPTY, Extent, ONE_FIELD};
use crate::graph::{Link, Node};
use lists::NoMem;
use std::alloc::Global;

/// For each node what is known of its structure, or `None` if its references are endless.
pub type Extents = Vec<Option<Extent>>;

/// What is known of the nodes. A round derives the nodes all of whose links lead to known ones. The first round goes in
/// this order, and derives all if each node comes after those that it refers to. A round that derives nothing is the
/// last.
pub fn find_extents(alloc: Global, nodes: &[Node], order: &[usize]) -> Result<Extents, NoMem>
    ensures { IfOk result (λ extents. HasExtents nodes.now extents.items) }
{
    let mut extents = unknown_extents(alloc, nodes.len())?;
    learn_in(nodes, order, &mut extents);
    'rounds: while learn(nodes, &mut extents) {}
    Ok(extents)
}

/// For `count` nodes, that nothing is known.
fn unknown_extents(alloc: Global, count: usize) -> Result<Extents, NoMem>
    ensures { IfOk result (λ extents. extents.items ≡ replicate count None) }
{
    Ok(vec![in alloc; None; count]?)
}

/// Derives the nodes at these indices, one after another.
fn learn_in(nodes: &[Node], order: &[usize], extents: &mut Extents)
    requires { length extents.old.items ≡ length nodes.now }
    ensures { Keeps nodes.now extents.old.items extents.new.items }
{
    for i in order {
        if *i < nodes.len() {
            let _learned = learn_at(nodes, *i, extents);
        }
    }
}

/// One round. Returns whether anything was derived.
fn learn(nodes: &[Node], extents: &mut Extents) -> bool
    requires { length extents.old.items ≡ length nodes.now }
    ensures { Passes nodes.now extents.old.items (length nodes.now) extents.new.items result }
{
    let mut learned = false;
    for i in 0..nodes.len() {
        if learn_at(nodes, i, extents) {
            learned = true;
        }
    }
    learned
}

/// Derives the node at an index, unless it is known.
fn learn_at(nodes: &[Node], i: usize, extents: &mut Extents) -> bool
    requires long { length extents.old.items ≡ length nodes.now }
    requires within { i < length nodes.now }
    ensures { Learned nodes.now i extents.old.items extents.new.items result }
{
    if extents[i].is_some() {
        return false;
    }
    match node_extent(extents.as_slice(), &nodes[i]) {
        None => false,
        Some(extent) => {
            extents[i] = Some(extent);
            true
        }
    }
}

/// What the extents so far say of a node.
fn node_extent(extents: &[Option<Extent>], node: &Node) -> Option<Extent>
    ensures { result ≡ node_extent extents.now node.now }
{
    match links_extent(extents, node.links.as_slice()) {
        None => None,
        Some(extent) => match node.count {
            None => Some(extent),
            Some(_) => Some(extent.with_count()),
        },
    }
}

/// What they say of links, one after another.
pub fn links_extent(extents: &[Option<Extent>], links: &[Link]) -> Option<Extent>
    ensures { result ≡ links_extent extents.now empty links.now }
{
    let mut all = EMPTY;
    for link in links {
        match looked_up(extents, *link) {
            None => return None,
            Some(extent) => all = all.then(extent),
        }
    }
    Some(all)
}

/// What they say of one link. A link that leads nowhere has no places.
pub fn looked_up(extents: &[Option<Extent>], link: Link) -> Option<Extent>
    ensures { result ≡ looked_up extents.now link }
{
    match link {
        Link::Field(_) => Some(ONE_FIELD),
        Link::To(i) => match extents.get(i) {
            None => Some(EMPTY),
            Some(extent) => *extent,
        },
    }
}

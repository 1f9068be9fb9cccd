ghost use Rattle.std.specs.Prelude.{◌≡◌, map, IfOk};
ghost use Rattle.reference_graph.specs.Numbering.{numbered_link, numbered_node};

use crate::graph::{Link, Node};
use crate::tag_set::TagSet;
use lists::{List, NoMem};
use std::alloc::Global;

/// The tags of all nodes. No contract says that none is missed: a missed one has the number 0.
pub fn tags_in(alloc: Global, nodes: &[Node]) -> Result<TagSet, NoMem> {
    let mut tags = TagSet::new(alloc);
    for node in nodes {
        let _new = tags.insert(node.count)?;
        put_tags(node.links.as_slice(), &mut tags)?;
    }
    Ok(tags)
}

fn put_tags(links: &[Link], tags: &mut TagSet) -> Result<(), NoMem> {
    for link in links {
        if let Link::Field(tag) = *link {
            let _new = tags.insert(Some(tag))?;
        }
    }
    Ok(())
}

/// The nodes with numbers up to `last` in place of their tags.
pub fn numbered_nodes(
    alloc: Global,
    last: u32,
    tags: &TagSet,
    nodes: &[Node],
) -> Result<List<Node>, NoMem>
    ensures { IfOk result (λ all. all ≡ map (numbered_node last tags.now) nodes.now) }
{
    let mut all = List::new(alloc);
    for node in nodes {
        all.push(numbered_node(alloc, last, tags, node)?)?;
    }
    Ok(all)
}

fn numbered_node(alloc: Global, last: u32, tags: &TagSet, node: &Node) -> Result<Node, NoMem>
    ensures { IfOk result (λ it. it ≡ numbered_node last tags.now node.now) }
{
    let links = numbered_links(alloc, last, tags, node.links.as_slice())?;
    let count = match node.count {
        None => None,
        Some(tag) => Some(tags.number(last, tag)),
    };
    Ok(Node { count, links })
}

fn numbered_links(
    alloc: Global,
    last: u32,
    tags: &TagSet,
    links: &[Link],
) -> Result<List<Link>, NoMem>
    ensures { IfOk result (λ all. all ≡ map (numbered_link last tags.now) links.now) }
{
    let mut all = List::new(alloc);
    for link in links {
        all.push(numbered_link(last, tags, *link))?;
    }
    Ok(all)
}

fn numbered_link(last: u32, tags: &TagSet, link: Link) -> Link
    ensures { result ≡ numbered_link last tags.now link }
{
    match link {
        Link::Field(tag) => Link::Field(tags.number(last, tag)),
        Link::To(i) => Link::To(i),
    }
}

ghost use Rattle.std.specs.Prelude.{◌≡◌, IfOk};
ghost use Rattle.reference_graph.specs.Graphs.{Ends, LinkEnds};
ghost use Rattle.reference_graph.specs.Structures.{is_ambiguous};
ghost use Rattle.reference_graph.specs.Learning.{looked_up, HasExtents};
ghost use Rattle.reference_graph.specs.Walking.{is_bare, Opens};

use crate::extent::Extent;
use crate::graph::{Link, Node};
use crate::tag_set::TagSet;
use lists::NoMem;
use std::alloc::Global;

/// Whether some tag occurs twice in the structure of these links. Nodes without tags are skipped, so a node is entered
/// a second time only if one of its tags is about to be found again.
pub fn has_tag_twice(
    alloc: Global,
    nodes: &[Node],
    extents: &[Option<Extent>],
    links: &[Link],
) -> Result<bool, NoMem>
    requires looked_up { HasExtents nodes.now extents.now }
    requires ends { Ends nodes.now links.now }
    ensures { IfOk result (λ twice. twice ≡ is_ambiguous nodes.now links.now) }
{
    let mut seen = TagSet::new(alloc);
    let mut left: Vec<&[Link]> = Vec::new(alloc);
    left.push(links)?;
    'places: while let Some(links) = left.pop() {
        if let [link, rest @ ..] = links {
            let (tag, inner) = opened(nodes, extents, *link);
            if !seen.insert(tag)? {
                return Ok(true);
            }
            left.push(rest)?;
            left.push(inner)?;
        }
    }
    Ok(false)
}

/// What a link leads to: the tag at its front, if there is one, and the links after it.
fn opened<'a>(
    nodes: &'a [Node],
    extents: &[Option<Extent>],
    link: Link,
) -> (Option<u32>, &'a [Link])
    requires looked_up { HasExtents nodes.now extents.now }
    requires ends { LinkEnds nodes.now link }
    ensures { Opens nodes.now link result.0 result.1.now }
{
    match link {
        Link::Field(tag) => (Some(tag), &[]),
        Link::To(i) => match nodes.get(i) {
            Some(node) if !is_bare(extents, link) => (node.count, node.links.as_slice()),
            _ => (None, &[]),
        },
    }
}

/// Whether a link is known to lead to no places.
fn is_bare(extents: &[Option<Extent>], link: Link) -> bool
    ensures { result ≡ is_bare (looked_up extents.now link) }
{
    match crate::learning::looked_up(extents, link) {
        None => false,
        Some(extent) => extent.places == 0,
    }
}

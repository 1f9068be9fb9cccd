ghost use Rattle.std.specs.Prelude.{◌≡◌, false, length, replicate, IfOk};
ghost use Rattle.reference_graph.specs.Graphs.{Ends};
ghost use Rattle.structure_tags.specs.Reaching.{HasTags, Enters};

use lists::NoMem;
use reference_graph::{Link, Node, TagSet};
use std::alloc::Global;

/// The tags of the structure of these links, each one once.
///
/// # Errors
///
/// If memory runs out.
pub fn tag_set(alloc: Global, nodes: &[Node], links: &[Link]) -> Result<TagSet, NoMem>
    requires ends { Ends nodes.now links.now }
    ensures { IfOk result (λ tags. HasTags nodes.now links.now tags) }
{
    let mut tags = TagSet::new(alloc);
    let mut entered = none_entered(alloc, nodes.len())?;
    let mut left: Vec<&[Link]> = Vec::new(alloc);
    left.push(links)?;
    'places: while let Some(links) = left.pop() {
        if let [link, rest @ ..] = links {
            let (tag, inner) = enter(nodes, &mut entered, *link);
            let _new = tags.insert(tag)?;
            left.push(rest)?;
            left.push(inner)?;
        }
    }
    Ok(tags)
}

/// For `count` nodes, that none was entered.
fn none_entered(alloc: Global, count: usize) -> Result<Vec<bool>, NoMem>
    ensures { IfOk result (λ entered. entered.items ≡ replicate count false) }
{
    Ok(vec![in alloc; false; count]?)
}

/// The tag at the front of what a link leads to, and the links after it; nothing if it was entered before.
fn enter<'a>(nodes: &'a [Node], entered: &mut Vec<bool>, link: Link) -> (Option<u32>, &'a [Link])
    requires long { length entered.old.items ≡ length nodes.now }
    ensures { Enters nodes.now entered.old.items link entered.new.items result.0 result.1.now }
{
    match link {
        Link::Field(tag) => (Some(tag), &[]),
        Link::To(i) => match nodes.get(i) {
            Some(node) if !entered[i] => {
                entered[i] = true;
                (node.count, node.links.as_slice())
            }
            _ => (None, &[]),
        },
    }
}

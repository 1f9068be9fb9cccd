ghost use Rattle.std.specs.Prelude.{◌≡◌, ℕ, ◌+◌, ◌^◌, ◌<◌, ◌++◌, length, map, filter_map, Option, None, Some, IfOk, OnOk};
ghost use Rattle.reference_graph.specs.declared.graph.Link.{Link};
ghost use Rattle.reference_graph.specs.declared.graph.Node.{Node};
ghost use Rattle.map_links.specs.declared.ids.Ids.{Ids};
ghost use Rattle.map_links.specs.Links.{link_of, item_link, component_node, group_node, message_node, count_of, structure_of, nodes_of, linked};
ghost use Rattle.map_members.specs.Lent.{lent_members};

use crate::ids::Ids;
use lists::{List, NoMem};
use map_types::{ComponentEl, GroupEl, GroupItem, MessageEl, RefItem};
use reference_graph::{Link, Node};
use std::alloc::Global;

/// The components, then the groups, then the messages, with their references resolved. References to unknown ids are
/// left out.
pub fn nodes_of(
    alloc: Global,
    ids: &Ids,
    components: &[&ComponentEl],
    groups: &[&GroupEl],
    messages: &[&MessageEl],
) -> Result<List<Node>, NoMem>
    requires { length components.now + length ids.now.groups < 2 ^ 64 }
    ensures { IfOk result (λ nodes. nodes ≡ nodes_of (length components.now) ids.now (linked components.now groups.now messages.now)) }
{
    let count = components.len();
    let mut nodes = List::new(alloc);
    push_nodes(alloc, ids, count, components, &mut nodes)?;
    push_nodes(alloc, ids, count, groups, &mut nodes)?;
    push_nodes(alloc, ids, count, messages, &mut nodes)?;
    Ok(nodes)
}

/// A member that refers to others.
trait Linking {
    /// Its node. `count` components precede the groups.
    ghost node: { ℕ → Ids → Self → Node };

    fn node(&self, alloc: Global, ids: &Ids, count: usize) -> Result<Node, NoMem>
        requires { count + length ids.now.groups < 2 ^ 64 }
        ensures { IfOk result (λ node. node ≡ Self.node count ids.now self.now) };
}

impl Linking for ComponentEl {
    ghost node = { component_node };

    fn node(&self, alloc: Global, ids: &Ids, count: usize) -> Result<Node, NoMem> {
        Ok(Node {
            count: None,
            links: links_of(alloc, ids, count, self.children.as_slice())?,
        })
    }
}

impl Linking for GroupEl {
    ghost node = { group_node };

    fn node(&self, alloc: Global, ids: &Ids, count: usize) -> Result<Node, NoMem> {
        Ok(Node {
            count: count_of(self.children.as_slice()),
            links: links_of(alloc, ids, count, self.children.as_slice())?,
        })
    }
}

impl Linking for MessageEl {
    ghost node = { message_node };

    fn node(&self, alloc: Global, ids: &Ids, count: usize) -> Result<Node, NoMem> {
        Ok(Node {
            count: None,
            links: links_of(alloc, ids, count, structure_of(self))?,
        })
    }
}

/// Appends the nodes of these members.
fn push_nodes<M: Linking>(
    alloc: Global,
    ids: &Ids,
    count: usize,
    members: &[&M],
    nodes: &mut List<Node>,
) -> Result<(), NoMem>
    requires { count + length ids.now.groups < 2 ^ 64 }
    ensures { OnOk result (nodes.new ≡ nodes.old ++ map (M.node count ids.now) (lent_members members.now)) }
{
    for member in members {
        nodes.push(member.node(alloc, ids, count)?)?;
    }
    Ok(())
}

/// The references of a message. It has none if it has no structure.
pub fn structure_of(message: &MessageEl) -> &[RefItem]
    ensures { result.now ≡ structure_of message.now }
{
    match message.children.as_slice() {
        [] => &[],
        [structure, ..] => structure.children.as_slice(),
    }
}

/// The tag that counts a group's entries.
pub fn count_of(children: &[GroupItem]) -> Option<u32>
    ensures { result ≡ count_of children.now }
{
    match children {
        [GroupItem::NumInGroup(n), ..] => Some(n.id),
        _ => None,
    }
}

/// A reference, or a child of a group that may be one.
trait Reference {
    /// Where it leads, if its id is known.
    ghost link: { ℕ → Ids → Self → Option Link };

    fn link(&self, ids: &Ids, count: usize) -> Option<Link>
        requires { count + length ids.now.groups < 2 ^ 64 }
        ensures { result ≡ Self.link count ids.now self.now };
}

impl Reference for RefItem {
    ghost link = { link_of };

    fn link(&self, ids: &Ids, count: usize) -> Option<Link> {
        ids.link(count, *self)
    }
}

impl Reference for GroupItem {
    ghost link = { item_link };

    fn link(&self, ids: &Ids, count: usize) -> Option<Link> {
        match self.reference() {
            None => None,
            Some(reference) => ids.link(count, reference),
        }
    }
}

/// Where these references lead. Those with unknown ids are left out.
fn links_of<R: Reference>(
    alloc: Global,
    ids: &Ids,
    count: usize,
    references: &[R],
) -> Result<List<Link>, NoMem>
    requires { count + length ids.now.groups < 2 ^ 64 }
    ensures { IfOk result (λ links. links ≡ filter_map (R.link count ids.now) references.now) }
{
    let mut links = List::new(alloc);
    for reference in references {
        if let Some(link) = reference.link(ids, count) {
            links.push(link)?;
        }
    }
    Ok(links)
}

ghost use Rattle.std.specs.Prelude.{◌≡◌, IfOk};
ghost use Rattle.reference_graph.specs.Graphs.{Ends};
ghost use Rattle.map_types.specs.Trees.{members_of};
ghost use Rattle.map_members.specs.Lent.{lent_members};
ghost use Rattle.map_links.specs.Links.{linked};
ghost use Rattle.orchestra_map.specs.Headers.{is_header, framing_links, header_links, graph_of, HasHeadersOf, HasHeaderTags, IsKept};

use lists::{List, NoMem};
use map_links::{Ids, nodes_of};
use map_members::members_in;
use map_types::{ComponentEl, FieldEl, GroupEl, MessageEl, Repository};
use reference_graph::{Link, TagSet};
use std::alloc::Global;
use structure_tags::tag_set;

/// The tags of the header: 8, 9, 35, 10 and all those of the components named `StandardHeader`. They don't belong to
/// any message's own fields, wherever they occur.
///
/// # Errors
///
/// If memory runs out.
pub fn header_tags(alloc: Global, repository: &Repository) -> Result<TagSet, NoMem>
    requires { IsKept repository.now }
    ensures { IfOk result (λ tags. HasHeaderTags (members_of repository.now) tags) }
{
    let items = repository.children.as_slice();
    let fields = members_in::<FieldEl>(alloc, items)?;
    let components = members_in::<ComponentEl>(alloc, items)?;
    let groups = members_in::<GroupEl>(alloc, items)?;
    let messages = members_in::<MessageEl>(alloc, items)?;
    tags_by(
        alloc,
        fields.as_slice(),
        components.as_slice(),
        groups.as_slice(),
        messages.as_slice(),
    )
}

/// The same, when all members are gathered.
fn tags_by(
    alloc: Global,
    fields: &[&FieldEl],
    components: &[&ComponentEl],
    groups: &[&GroupEl],
    messages: &[&MessageEl],
) -> Result<TagSet, NoMem>
    requires ends { Ends (graph_of (lent_members fields.now) (linked components.now groups.now messages.now)) (header_links (lent_members components.now)) }
    ensures { IfOk result (λ tags. HasHeadersOf (lent_members fields.now) (linked components.now groups.now messages.now) tags) }
{
    if components.len().checked_add(groups.len()).is_none() {
        return Err(NoMem);
    }
    let ids = Ids::new(alloc, fields, components, groups, messages)?;
    let nodes = nodes_of(alloc, &ids, components, groups, messages)?;
    let links = header_links(alloc, components)?;
    tag_set(alloc, nodes.as_slice(), links.as_slice())
}

/// Links to the fields that frame a message, and to the components named `StandardHeader`.
fn header_links(alloc: Global, components: &[&ComponentEl]) -> Result<List<Link>, NoMem>
    ensures { IfOk result (λ links. links ≡ header_links (lent_members components.now)) }
{
    let mut links = framing_links(alloc)?;
    for (i, component) in components.iter().enumerate() {
        if is_header(component) {
            links.push(Link::To(i))?;
        }
    }
    Ok(links)
}

fn framing_links(alloc: Global) -> Result<List<Link>, NoMem>
    ensures { IfOk result (λ links. links ≡ framing_links) }
{
    List::from_slice(
        alloc,
        &[
            Link::Field(8),
            Link::Field(9),
            Link::Field(35),
            Link::Field(10),
        ],
    )
}

fn is_header(component: &ComponentEl) -> bool
    ensures { result ≡ is_header component.now }
{
    component.name.as_slice() == "StandardHeader".as_bytes()
}

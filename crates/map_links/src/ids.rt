ghost use Rattle.std.specs.Prelude.{◌≡◌, ◌+◌, ◌^◌, ◌<◌, length, map, option_map, IfOk};
ghost use Rattle.reference_graph.specs.declared.graph.Link.TheVariants.{To};
ghost use Rattle.id_tables.specs.Places.{place_of};
ghost use Rattle.map_links.specs.Links.{link_of, is_unknown, ids_of, linked};
ghost use Rattle.map_members.specs.Lent.{lent_members};

use id_tables::{IdTable, NameTable};
use lists::{List, NoMem, Text};
use map_types::{ComponentEl, FieldEl, GroupEl, MessageEl, RefItem};
use reference_graph::Link;
use std::alloc::Global;

/// The ids of fields, components and groups and the types of messages, each list in its order.
#[derive(Drop)]
pub struct Ids {
    pub fields: IdTable,
    pub components: IdTable,
    pub groups: IdTable,
    pub msg_types: NameTable,
}

impl Ids {
    /// Builds the tables of these members.
    pub fn new(
        alloc: Global,
        fields: &[&FieldEl],
        components: &[&ComponentEl],
        groups: &[&GroupEl],
        messages: &[&MessageEl],
    ) -> Result<Ids, NoMem>
        ensures { IfOk result (λ ids. ids ≡ ids_of (lent_members fields.now) (linked components.now groups.now messages.now)) }
    {
        let fields = field_table(alloc, fields)?;
        let components = component_table(alloc, components)?;
        let groups = group_table(alloc, groups)?;
        let msg_types = type_table(alloc, messages)?;
        Ok(Ids {
            fields,
            components,
            groups,
            msg_types,
        })
    }

    /// Where a reference leads, if its id is known. `count` components precede the groups.
    pub fn link(&self, count: usize, reference: RefItem) -> Option<Link>
        requires { count + length self.now.groups < 2 ^ 64 }
        ensures { result ≡ link_of count self.now reference }
    {
        match reference {
            RefItem::FieldRef(r) => Some(Link::Field(r.id)),
            RefItem::ComponentRef(r) => self.component_link(r.id),
            RefItem::GroupRef(r) => self.group_link(count, r.id),
        }
    }

    fn component_link(&self, id: u32) -> Option<Link>
        ensures { result ≡ option_map To (place_of id self.now.components) }
    {
        match self.components.place(id) {
            Some(i) => Some(Link::To(i)),
            None => None,
        }
    }

    fn group_link(&self, count: usize, id: u32) -> Option<Link>
        requires { count + length self.now.groups < 2 ^ 64 }
        ensures { result ≡ option_map (λ i. To (count + i)) (place_of id self.now.groups) }
    {
        match self.groups.place(id) {
            Some(i) => Some(Link::To(count + i)),
            None => None,
        }
    }

    /// Whether the id of a reference refers to nothing.
    pub fn is_unknown(&self, reference: RefItem) -> bool
        ensures { result ≡ is_unknown self.now reference }
    {
        match reference {
            RefItem::FieldRef(r) => self.fields.place(r.id).is_none(),
            RefItem::ComponentRef(r) => self.components.place(r.id).is_none(),
            RefItem::GroupRef(r) => self.groups.place(r.id).is_none(),
        }
    }
}

fn field_table(alloc: Global, fields: &[&FieldEl]) -> Result<IdTable, NoMem>
    ensures { IfOk result (λ table. table ≡ map (λ f. f.id) (lent_members fields.now)) }
{
    IdTable::new(alloc, field_ids(alloc, fields)?)
}

fn component_table(alloc: Global, components: &[&ComponentEl]) -> Result<IdTable, NoMem>
    ensures { IfOk result (λ table. table ≡ map (λ c. c.id) (lent_members components.now)) }
{
    IdTable::new(alloc, component_ids(alloc, components)?)
}

fn group_table(alloc: Global, groups: &[&GroupEl]) -> Result<IdTable, NoMem>
    ensures { IfOk result (λ table. table ≡ map (λ g. g.id) (lent_members groups.now)) }
{
    IdTable::new(alloc, group_ids(alloc, groups)?)
}

fn type_table(alloc: Global, messages: &[&MessageEl]) -> Result<NameTable, NoMem>
    ensures { IfOk result (λ table. table ≡ map (λ m. m.msg_type) (lent_members messages.now)) }
{
    NameTable::new(alloc, msg_types(alloc, messages)?)
}

fn field_ids(alloc: Global, fields: &[&FieldEl]) -> Result<List<u32>, NoMem>
    ensures { IfOk result (λ ids. ids ≡ map (λ f. f.id) (lent_members fields.now)) }
{
    let mut ids = List::new(alloc);
    for field in fields {
        ids.push(field.id)?;
    }
    Ok(ids)
}

fn component_ids(alloc: Global, components: &[&ComponentEl]) -> Result<List<u32>, NoMem>
    ensures { IfOk result (λ ids. ids ≡ map (λ c. c.id) (lent_members components.now)) }
{
    let mut ids = List::new(alloc);
    for component in components {
        ids.push(component.id)?;
    }
    Ok(ids)
}

fn group_ids(alloc: Global, groups: &[&GroupEl]) -> Result<List<u32>, NoMem>
    ensures { IfOk result (λ ids. ids ≡ map (λ g. g.id) (lent_members groups.now)) }
{
    let mut ids = List::new(alloc);
    for group in groups {
        ids.push(group.id)?;
    }
    Ok(ids)
}

fn msg_types(alloc: Global, messages: &[&MessageEl]) -> Result<List<Text>, NoMem>
    ensures { IfOk result (λ types. types ≡ map (λ m. m.msg_type) (lent_members messages.now)) }
{
    let mut types = List::new(alloc);
    for message in messages {
        types.push(List::from_slice(alloc, message.msg_type.as_slice())?)?;
    }
    Ok(types)
}

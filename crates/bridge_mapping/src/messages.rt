ghost use Rattle.std.specs.Prelude.{◌≡◌, ◌+◌, ◌-◌, ◌≤◌, ◌<◌, ◌^◌, ℕ, length, map, option_map, IfOk};
ghost use Rattle.map_types.specs.Trees.{members_of};
ghost use Rattle.map_members.specs.Lent.{lent_members};
ghost use Rattle.map_links.specs.Links.{linked};
ghost use Rattle.orchestra_map.specs.Headers.{graph_of, IsKept};
ghost use Rattle.orchestra_map.specs.Structures.{message_structures};
ghost use Rattle.structure_rows.specs.Rows.{rows_of};
ghost use Rattle.bridge_plan.specs.Mappings.{Mapping, structure_for};
ghost use Rattle.bridge_mapping.specs.Mapped.{structures_of};
ghost use Rattle.bridge_mapping.specs.Tables.{structures_in, HasWhole};

use id_tables::NameTable;
use lists::{List, NoMem, Text};
use map_links::{Ids, nodes_of};
use map_members::members_in;
use map_types::{ComponentEl, FieldEl, GroupEl, MessageEl, Repository};
use reference_graph::Structures;
use std::alloc::Global;
use std::marker::Model;
use structure_rows::{PlaceRow, structure_rows};

/// The structures of a mapping's messages, found by MsgType.
#[derive(Drop)]
pub struct MessageTable {
    kinds: NameTable,
    /// How many messages there are. Their nodes are the last.
    count: usize,
    structures: Structures,
}

impl Model for MessageTable {
    ghost use Rattle.std.specs.Prelude.{◌≡◌, ◌-◌, ◌≤◌, ℕ, List, length};
    ghost use Rattle.std.specs.Coded.{codes};
    ghost use Rattle.reference_graph.specs.declared.graph.Node.{Node};
    ghost use Rattle.reference_graph.specs.contracts.graph.Node as node;
    ghost use Rattle.bridge_mapping.specs.Tables.{AreWhole};

    ghost Value = { List Node × List (List ℕ) };

    ghost coded = { Prim.hlevel (codes, node.the_row.coded) };

    ghost view = { λ table. (table.structures, table.kinds) };

    ghost invariant = { λ table. (length table.kinds ≡ table.count) × (table.count ≤ length table.structures)
        × AreWhole table.structures (length table.structures - table.count) };
}

impl MessageTable {
    /// Builds the structures of the messages of a mapping.
    ///
    /// # Errors
    ///
    /// If memory runs out.
    pub fn new(alloc: Global, repository: &Repository) -> Result<MessageTable, NoMem>
        requires { IsKept repository.now }
        ensures { IfOk result (λ table. structures_in table ≡ message_structures (members_of repository.now)) }
    {
        let items = repository.children.as_slice();
        let fields = members_in::<FieldEl>(alloc, items)?;
        let components = members_in::<ComponentEl>(alloc, items)?;
        let groups = members_in::<GroupEl>(alloc, items)?;
        let messages = members_in::<MessageEl>(alloc, items)?;
        table_of(
            alloc,
            fields.as_slice(),
            components.as_slice(),
            groups.as_slice(),
            messages.as_slice(),
        )
    }

    /// The rows of the structure of the message with this MsgType, if there is one.
    ///
    /// # Errors
    ///
    /// If memory runs out.
    pub fn rows(&self, alloc: Global, kind: &[u8]) -> Result<Option<List<PlaceRow>>, NoMem>
        ensures { IfOk result (λ rows. (m : Mapping) → m.messages ≡ structures_in self.now → rows ≡ option_map rows_of (structure_for m kind.now)) }
    {
        match self.kinds.place(kind) {
            None => Ok(None),
            Some(i) => {
                let first = self.structures.len() - self.count;
                Ok(Some(structure_rows(alloc, &self.structures, first + i)?))
            }
        }
    }
}

/// The same, when all members are gathered.
fn table_of(
    alloc: Global,
    fields: &[&FieldEl],
    components: &[&ComponentEl],
    groups: &[&GroupEl],
    messages: &[&MessageEl],
) -> Result<MessageTable, NoMem>
    requires whole { HasWhole (lent_members fields.now) (linked components.now groups.now messages.now) }
    ensures { IfOk result (λ table. structures_in table ≡ structures_of (lent_members fields.now) (linked components.now groups.now messages.now)) }
{
    let structures = all_structures(alloc, fields, components, groups, messages)?;
    let kinds = kind_table(alloc, messages)?;
    let count = messages.len();
    Ok(MessageTable {
        kinds,
        count,
        structures,
    })
}

/// The structures of components, groups and messages.
fn all_structures(
    alloc: Global,
    fields: &[&FieldEl],
    components: &[&ComponentEl],
    groups: &[&GroupEl],
    messages: &[&MessageEl],
) -> Result<Structures, NoMem>
    ensures { IfOk result (λ structures. structures ≡ graph_of (lent_members fields.now) (linked components.now groups.now messages.now)) }
{
    if components.len().checked_add(groups.len()).is_none() {
        return Err(NoMem);
    }
    let ids = Ids::new(alloc, fields, components, groups, messages)?;
    let nodes = nodes_of(alloc, &ids, components, groups, messages)?;
    Structures::new(alloc, nodes)
}

/// The MsgTypes of messages.
fn kind_table(alloc: Global, messages: &[&MessageEl]) -> Result<NameTable, NoMem>
    ensures { IfOk result (λ kinds. kinds ≡ map (λ m. m.msg_type) (lent_members messages.now)) }
{
    let names = kinds_of(alloc, messages)?;
    NameTable::new(alloc, names)
}

fn kinds_of(alloc: Global, messages: &[&MessageEl]) -> Result<List<Text>, NoMem>
    ensures { IfOk result (λ kinds. kinds ≡ map (λ m. m.msg_type) (lent_members messages.now)) }
{
    let mut kinds = List::new(alloc);
    for message in messages {
        kinds.push(List::from_slice(alloc, message.msg_type.as_slice())?)?;
    }
    Ok(kinds)
}

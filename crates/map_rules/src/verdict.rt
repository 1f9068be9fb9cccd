ghost use Rattle.std.specs.Prelude.{◌≡◌, ◌+◌, ◌^◌, ◌<◌, map, flat_map, length, IfOk};
ghost use Rattle.map_types.specs.Trees.{datatypes_of, components_of, groups_of, messages_of, members_of};
ghost use Rattle.map_members.specs.Lent.{lent_members};
ghost use Rattle.map_links.specs.Links.{linked};
ghost use Rattle.map_rules.specs.Verdicts.{Answers};
ghost use Rattle.map_rules.specs.Rules.{length_or_zero, tables_of, verdict_by, fields_verdict, items_linked, lists_verdict, verdict};

use crate::code_sets::judge_code_sets;
use crate::fields::judge_fields;
use crate::references::judge_linked;
use crate::tables::Tables;
use lists::NoMem;
use map_links::Ids;
use map_members::members_in;
use map_types::{
    CodeSetEl, ComponentEl, DatatypeEl, FieldEl, GroupEl, MapErr, MessageEl, Repository,
    RepositoryItem,
};
use std::alloc::Global;

/// Checks code sets, fields, components, groups and messages, in this order, each member by its rules in order.
pub fn judge(alloc: Global, repository: &Repository) -> Result<(), MapErr>
    ensures { Answers result (verdict (members_of repository.now)) }
{
    let items = repository.children.as_slice();
    let code_sets = members_in::<CodeSetEl>(alloc, items)?;
    let fields = members_in::<FieldEl>(alloc, items)?;
    judge_lists(alloc, items, code_sets.as_slice(), fields.as_slice())
}

/// The same, when code sets and fields are gathered.
#[tactic(auto, using(crate::proofs::Keys::set_names, crate::proofs::Keys::field_lengths))]
fn judge_lists(
    alloc: Global,
    items: &[RepositoryItem],
    code_sets: &[&CodeSetEl],
    fields: &[&FieldEl],
) -> Result<(), MapErr>
    ensures { Answers result (lists_verdict items.now (lent_members code_sets.now) (lent_members fields.now)) }
{
    let tables = tables_in(alloc, items, code_sets, fields)?;
    judge_code_sets(alloc, &tables, code_sets)?;
    judge_items(alloc, items, &tables, fields)
}

/// The tables of code sets and fields, and of the datatypes among the items.
fn tables_in(
    alloc: Global,
    items: &[RepositoryItem],
    code_sets: &[&CodeSetEl],
    fields: &[&FieldEl],
) -> Result<Tables, NoMem>
    ensures { IfOk result (λ tables. tables ≡ tables_of (flat_map datatypes_of items.now) (lent_members code_sets.now) (lent_members fields.now)) }
{
    let datatypes = members_in::<DatatypeEl>(alloc, items)?;
    Tables::new(alloc, datatypes.as_slice(), code_sets, fields)
}

/// Checks fields, components, groups and messages.
fn judge_items(
    alloc: Global,
    items: &[RepositoryItem],
    tables: &Tables,
    fields: &[&FieldEl],
) -> Result<(), MapErr>
    requires lengths { tables.now.lengths ≡ map (λ f. length_or_zero f.now.length_id) fields.now }
    ensures { Answers result (fields_verdict tables.now (lent_members fields.now) (items_linked items.now)) }
{
    let components = members_in::<ComponentEl>(alloc, items)?;
    let groups = members_in::<GroupEl>(alloc, items)?;
    let messages = members_in::<MessageEl>(alloc, items)?;
    let count = components.len();
    if count.checked_add(groups.len()).is_none() {
        return Err(MapErr::Memory);
    }
    judge_by_ids(
        alloc,
        tables,
        fields,
        components.as_slice(),
        groups.as_slice(),
        messages.as_slice(),
    )
}

/// The same, when all members are gathered.
fn judge_by_ids(
    alloc: Global,
    tables: &Tables,
    fields: &[&FieldEl],
    components: &[&ComponentEl],
    groups: &[&GroupEl],
    messages: &[&MessageEl],
) -> Result<(), MapErr>
    requires lengths { tables.now.lengths ≡ map (λ f. length_or_zero f.now.length_id) fields.now }
    requires fits { length components.now + length groups.now < 2 ^ 64 }
    ensures { Answers result (fields_verdict tables.now (lent_members fields.now) (linked components.now groups.now messages.now)) }
{
    let ids = Ids::new(alloc, fields, components, groups, messages)?;
    judge_with_ids(alloc, &ids, tables, fields, components, groups, messages)
}

/// The same, when their ids are in tables too.
fn judge_with_ids(
    alloc: Global,
    ids: &Ids,
    tables: &Tables,
    fields: &[&FieldEl],
    components: &[&ComponentEl],
    groups: &[&GroupEl],
    messages: &[&MessageEl],
) -> Result<(), MapErr>
    requires fits { length components.now + length groups.now < 2 ^ 64 }
    requires lengths { tables.now.lengths ≡ map (λ f. length_or_zero f.now.length_id) fields.now }
    requires fields { ids.now.fields ≡ map (λ f. f.now.id) fields.now }
    requires components { ids.now.components ≡ map (λ c. c.now.id) components.now }
    requires groups { ids.now.groups ≡ map (λ g. g.now.id) groups.now }
    requires messages { ids.now.msg_types ≡ map (λ m. m.now.msg_type) messages.now }
    ensures { Answers result (verdict_by ids.now tables.now (lent_members fields.now) (linked components.now groups.now messages.now)) }
{
    judge_fields(alloc, ids, tables, fields)?;
    judge_linked(alloc, ids, components, groups, messages)
}

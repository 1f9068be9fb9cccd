ghost use Rattle.std.specs.Prelude.{◌≡◌, List, None, Some, IfOk};
ghost use Rattle.sbe_types.specs.declared.schema.Level.{out-Level};
ghost use Rattle.map_types.specs.Trees.{members_of};
ghost use Rattle.orchestra_map.specs.Headers.{IsKept};
ghost use Rattle.reference_graph.specs.Expansion.{Structure};
ghost use Rattle.structure_rows.specs.Rows.{rows_of};
ghost use Rattle.bridge_plan.specs.Covers.{uncovered};
ghost use Rattle.bridge_plan.specs.Mappings.{structure_for, Mapping};
ghost use Rattle.bridge_mapping.specs.Mapped.{mapping_of};
ghost use Rattle.bridge_mapping.specs.Tables.{structures_in};
ghost use Rattle.bridge_cover.specs.Kinds.{HasKindsInOrder};
ghost use Rattle.bridge_cover.specs.Tables.{AreTables};
ghost use Rattle.message_plans.specs.Plans.{AreInOrder, ArePlans, AreTemplates, IsCover, IsTemplate};

use crate::kinds::{is_among, kinds_of};
use crate::plan::{Cover, Plan, TemplatePlan};
use bridge_cover::{Tables, uncovered};
use bridge_mapping::MessageTable;
use id_tables::NameTable;
use lists::{List, NoMem};
use map_types::Repository;
use plan_rows::{RuleRow, level_rows};
use sbe_types::Level;
use schema_check::Checked;
use std::alloc::Global;
use structure_rows::PlaceRow;

/// The plans of the templates of a checked schema by a mapping whose members keep their rules, as those of a file that was read
/// do. Linear in the places of the messages that the templates have, and in the parts of the schema with the listed values of each
/// part's kind, apart from the MsgTypes, each of which is compared with those of later templates.
///
/// # Errors
///
/// Out of memory. The same error is given if the row of a covered part can't be made: no valid mapping is known for which that
/// happens, but it isn't proved that there is none.
pub fn make_plan<R: RuleRow>(
    alloc: Global,
    checked: &Checked,
    repository: &Repository,
) -> Result<Plan<R>, NoMem>
    requires { IsKept repository.now }
    ensures { IfOk result (ArePlans R.follows_rule (mapping_of (members_of repository.now)) checked.now.messages) }
{
    let tables = Tables::new(alloc, repository)?;
    let plan = plan_by(alloc, &tables, checked, repository);
    // Each is dropped by a call of its own, since the check of a function that drops both itself doesn't end.
    let Tables { tags, datatypes } = tables;
    drop(datatypes);
    drop(tags);
    plan
}

/// The same by the tables of the mapping.
fn plan_by<R: RuleRow>(
    alloc: Global,
    tables: &Tables,
    checked: &Checked,
    repository: &Repository,
) -> Result<Plan<R>, NoMem>
    requires kept { IsKept repository.now }
    ensures { IfOk result (λ plan. AreTables (mapping_of (members_of repository.now)) tables.now
        → ArePlans R.follows_rule (mapping_of (members_of repository.now)) checked.now.messages plan) }
{
    let levels = checked.schema().messages.as_slice();
    let templates = templates_by(alloc, tables, repository, levels)?;
    let names = kinds_of(alloc, levels)?;
    let kinds = NameTable::new(alloc, names)?;
    Ok(Plan { kinds, templates })
}

/// What the mapping says of each template, by its tables.
fn templates_by<R: RuleRow>(
    alloc: Global,
    tables: &Tables,
    repository: &Repository,
    levels: &[Level],
) -> Result<List<TemplatePlan<R>>, NoMem>
    requires kept { IsKept repository.now }
    requires order { AreInOrder levels.now }
    ensures { IfOk result (λ templates. AreTables (mapping_of (members_of repository.now)) tables.now
        → AreTemplates R.follows_rule (mapping_of (members_of repository.now)) levels.now templates) }
{
    let messages = MessageTable::new(alloc, repository)?;
    templates_of(alloc, tables, &messages, levels)
}

/// The same, by the structures of its messages.
fn templates_of<R: RuleRow>(
    alloc: Global,
    tables: &Tables,
    messages: &MessageTable,
    levels: &[Level],
) -> Result<List<TemplatePlan<R>>, NoMem>
    requires order { AreInOrder levels.now }
    ensures { IfOk result (λ templates. (m : Mapping) → AreTables m tables.now → m.messages ≡ structures_in messages.now
        → AreTemplates R.follows_rule m levels.now templates) }
{
    let mut templates = List::new(alloc);
    let mut left = levels;
    'levels: while let [level, rest @ ..] = left {
        templates.push(template_of(alloc, tables, messages, level, rest)?)?;
        left = rest;
    }
    Ok(templates)
}

/// The same of one template, which others follow.
fn template_of<R: RuleRow>(
    alloc: Global,
    tables: &Tables,
    messages: &MessageTable,
    level: &Level,
    others: &[Level],
) -> Result<TemplatePlan<R>, NoMem>
    requires order { HasKindsInOrder level.now }
    ensures { IfOk result (λ template. (m : Mapping) → AreTables m tables.now → m.messages ≡ structures_in messages.now
        → IsTemplate R.follows_rule m level.now others.now template) }
{
    let cover = cover_of(alloc, tables, messages, level)?;
    let msg_type = List::from_slice(alloc, level.semantic.as_slice())?;
    let alone = !is_among(level.semantic.as_slice(), others);
    Ok(TemplatePlan {
        msg_type,
        alone,
        cover,
    })
}

fn cover_of<R: RuleRow>(
    alloc: Global,
    tables: &Tables,
    messages: &MessageTable,
    level: &Level,
) -> Result<Cover<R>, NoMem>
    requires order { HasKindsInOrder level.now }
    ensures { IfOk result (λ cover. (m : Mapping) → AreTables m tables.now → m.messages ≡ structures_in messages.now
        → IsCover R.follows_rule m level.now cover) }
{
    let kind = level.semantic.as_slice();
    match messages.rows(alloc, kind)? {
        None => Ok(Cover::NoMessage),
        Some(places) => {
            let rows = places.as_slice();
            mapped_cover(alloc, tables, rows, level)
        }
    }
}

/// What a mapping says of a template, by the places of its message.
fn mapped_cover<R: RuleRow>(
    alloc: Global,
    tables: &Tables,
    places: &[PlaceRow],
    level: &Level,
) -> Result<Cover<R>, NoMem>
    requires order { HasKindsInOrder level.now }
    ensures { IfOk result (λ cover. (m : Mapping) (s : Structure) → AreTables m tables.now → places.now ≡ rows_of s
        → structure_for m (out-Level level.now).semantic ≡ Some s → IsCover R.follows_rule m level.now cover) }
{
    match uncovered(alloc, tables, places, level)? {
        Some(path) => Ok(Cover::Unmapped(path)),
        None => rows_cover(alloc, tables, places, level),
    }
}

/// The rows of a covered template. If one can't be made there is no plan.
fn rows_cover<R: RuleRow>(
    alloc: Global,
    tables: &Tables,
    places: &[PlaceRow],
    level: &Level,
) -> Result<Cover<R>, NoMem>
    requires order { HasKindsInOrder level.now }
    ensures { IfOk result (λ cover. (m : Mapping) (s : Structure) → AreTables m tables.now → places.now ≡ rows_of s
        → structure_for m (out-Level level.now).semantic ≡ Some s → uncovered m s level.now ≡ None → IsCover R.follows_rule m level.now cover) }
{
    match level_rows(alloc, tables, places, level)? {
        None => Err(NoMem),
        Some(rows) => Ok(Cover::Mapped(rows)),
    }
}

ghost use Rattle.std.specs.Prelude.{◌≡◌, ⊤, slice_get, Some, IfOk, IfSome};
ghost use Rattle.map_types.specs.Trees.{members_of};
ghost use Rattle.orchestra_map.specs.Headers.{IsKept};
ghost use Rattle.bridge_plan.specs.CheckedLevels.{HasShortCodes};
ghost use Rattle.bridge_mapping.specs.Mapped.{mapping_of};
ghost use Rattle.bridge_cover.specs.Tables.{AreTables};
ghost use Rattle.sbe_translation.specs.Plans.{AreBackPlans, ArePlanned};

use crate::trees::trees_of;
use back_levels::BackTree;
use bridge_cover::Tables;
use bridge_mapping::TagTable;
use bridge_table::FieldRule;
use lists::{List, NoMem};
use map_types::Repository;
use message_plans::{Plan, make_plan};
use plan_rows::RuleRow;
use schema_check::Checked;
use std::alloc::Global;

/// What a row has of its rule if only coverage is asked: nothing.
#[derive(Drop)]
pub struct Covered;

impl RuleRow for Covered {
    ghost follows_rule = { λ row rule. ⊤ };

    fn of_rule(_alloc: Global, rule: FieldRule) -> Result<Option<Covered>, NoMem> {
        let _rule = rule;
        Ok(Some(Covered))
    }
}

/// The plans of a schema's templates, the levels of those that the mapping covers, and the mapping's tags.
#[derive(Drop)]
pub struct BackPlan {
    pub(crate) plan: Plan<Covered>,
    pub(crate) trees: List<Option<BackTree>>,
    pub(crate) tags: TagTable,
}

impl BackPlan {
    /// The mapping's tags.
    pub fn tags(&self) -> &TagTable
        ensures { result.now ≡ self.now.tags }
    {
        &self.tags
    }

    /// The levels of a template, if it is in range and the mapping covers it.
    pub fn tree(&self, template: usize) -> Option<&BackTree>
        ensures { IfSome result (λ tree. slice_get self.now.trees template ≡ Some (Some tree.now)) }
    {
        if template >= self.trees.len() {
            return None;
        }
        match self.trees.at(template) {
            None => None,
            Some(tree) => Some(tree),
        }
    }
}

/// The same without the tags.
#[derive(Drop)]
pub(crate) struct Planned {
    pub plan: Plan<Covered>,
    pub trees: List<Option<BackTree>>,
}

/// The plan of the templates of a checked schema by a mapping whose members keep their rules and whose codes are short;
/// a mapping file that was read has both. Linear in the parts of the schema and in the places of the messages that its
/// templates have, apart from what `make_plan` takes.
///
/// # Errors
///
/// If memory runs out. It is also reported if the row of a covered part can't be made, or has the tag 0; this doesn't
/// happen for a valid mapping.
pub fn make_back_plan(
    alloc: Global,
    checked: &Checked,
    repository: &Repository,
) -> Result<BackPlan, NoMem>
    requires kept { IsKept repository.now }
    requires short { HasShortCodes (mapping_of (members_of repository.now)) }
    ensures { IfOk result (AreBackPlans (mapping_of (members_of repository.now)) checked.now.messages) }
{
    let tables = Tables::new(alloc, repository)?;
    let planned = planned_by(alloc, &tables, checked, repository);
    // It is dropped by a call of its own, since the check of a function that drops both tables itself doesn't end.
    let Tables { tags, datatypes } = tables;
    drop(datatypes);
    match planned {
        Ok(Planned { plan, trees }) => Ok(BackPlan { plan, trees, tags }),
        Err(NoMem) => Err(NoMem),
    }
}

/// The plans and the levels of the templates, by the tables of the mapping.
fn planned_by(
    alloc: Global,
    tables: &Tables,
    checked: &Checked,
    repository: &Repository,
) -> Result<Planned, NoMem>
    requires kept { IsKept repository.now }
    requires short { HasShortCodes (mapping_of (members_of repository.now)) }
    ensures { IfOk result (λ planned. AreTables (mapping_of (members_of repository.now)) tables.now
        → ArePlanned (mapping_of (members_of repository.now)) checked.now.messages planned) }
{
    let plan = make_plan::<Covered>(alloc, checked, repository)?;
    let trees = trees_of(alloc, tables, checked, repository, &plan)?;
    Ok(Planned { plan, trees })
}

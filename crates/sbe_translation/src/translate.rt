ghost use Rattle.std.specs.Prelude.{◌≡◌, ◌<◌, ℕ, List, length, slice_get, None, Some};
ghost use Rattle.tagvalue_codec.specs.Fields.{bytes_of, Field};
ghost use Rattle.tagvalue_codec.specs.Reading.{placed};
ghost use Rattle.app_fields.specs.Held.{HoldsFields};
ghost use Rattle.bridge_terms.specs.Parts.{application_fields};
ghost use Rattle.bridge_terms.specs.WayBack.{back_refused};
ghost use Rattle.bridge_plan.specs.Covers.{plan_of};
ghost use Rattle.bridge_plan.specs.Mappings.{Mapping};
ghost use Rattle.bridge_mapping.specs.Tables.{HaveSameTags};
ghost use Rattle.message_plans.specs.Plans.{IsOnly};
ghost use Rattle.field_judge.specs.Fields.{fields_of};
ghost use Rattle.sbe_translation.specs.Plans.{AreBackPlans, HasKind, IsTree};
ghost use Rattle.sbe_translation.specs.Translations.{IsAnswer};

use crate::plan::BackPlan;
use app_fields::{app_fields, value_at};
use back_levels::BackTree;
use field_blocks::block_of_fields;
use field_judge::{AppField, Refused, first_refusal};
use lists::{NoMem, Text};
use message_plans::{Cover, Template};
use sbe_types::Msg;
use schema_check::Checked;
use std::alloc::Global;
use tagvalue_codec::FieldTable;

/// Why a text has no message, in the order in which it is tested.
#[derive(Drop)]
pub enum ToSbeErr<'a> {
    /// No template has the MsgType, or the mapping has no message for the only one that has it.
    NoTemplate,
    /// Several templates have the MsgType.
    Several,
    /// The mapping doesn't cover the template: its number, and the names of the path to the first part that isn't covered.
    Uncovered(usize, &'a [Text]),
    /// The first refusal of the fields.
    Refused(Refused),
    /// Out of memory.
    Memory,
}

/// The message that a text is translated to. Requires the plan of the schema's templates, and a table that holds the
/// fields of the text, read with the data tags of the plan's mapping. Linear in the fields and in the parts of their
/// levels.
///
/// # Errors
///
/// The first refusal, if there is one.
pub fn to_sbe<'a>(
    alloc: Global,
    plan: &'a BackPlan,
    checked: &Checked,
    text: &[u8],
    table: &FieldTable,
) -> Result<Msg, ToSbeErr<'a>>
    requires planned { (m : Mapping) × AreBackPlans m checked.now.messages plan.now }
    requires held { HoldsFields text.now table.now }
    requires typed { 2 < length table.now }
    ensures { (m : Mapping) (fields : List Field) (kind : List ℕ) → AreBackPlans m checked.now.messages plan.now → text.now ≡ bytes_of fields
        → table.now ≡ placed 0 fields → HasKind fields kind → IsAnswer m checked.now kind fields result }
{
    match plan.plan.template_for(type_in(text, table)) {
        Template::Unknown => Err(ToSbeErr::NoTemplate),
        Template::Several => Err(ToSbeErr::Several),
        Template::One(template) => translate(alloc, plan, template, checked, text, table),
    }
}

/// The message of a text of the only template that has its MsgType.
fn translate<'a>(
    alloc: Global,
    plan: &'a BackPlan,
    template: usize,
    checked: &Checked,
    text: &[u8],
    table: &FieldTable,
) -> Result<Msg, ToSbeErr<'a>>
    requires planned { (m : Mapping) × AreBackPlans m checked.now.messages plan.now }
    requires known { template < length checked.now.messages }
    requires held { HoldsFields text.now table.now }
    ensures { (m : Mapping) (fields : List Field) (kind : List ℕ) → AreBackPlans m checked.now.messages plan.now → text.now ≡ bytes_of fields
        → table.now ≡ placed 0 fields → IsOnly kind checked.now.messages template → IsAnswer m checked.now kind fields result }
{
    match plan.plan.cover(template) {
        Cover::NoMessage => Err(ToSbeErr::NoTemplate),
        Cover::Unmapped(path) => Err(ToSbeErr::Uncovered(template, path.as_slice())),
        Cover::Mapped(_) => match plan.trees.at(template) {
            None => Err(ToSbeErr::NoTemplate),
            Some(tree) => message_of(alloc, plan, tree, checked, template, text, table),
        },
    }
}

/// The message of a text of a covered template.
fn message_of<'a>(
    alloc: Global,
    plan: &'a BackPlan,
    tree: &BackTree,
    checked: &Checked,
    template: usize,
    text: &[u8],
    table: &FieldTable,
) -> Result<Msg, ToSbeErr<'a>>
    requires known { template < length checked.now.messages }
    requires held { HoldsFields text.now table.now }
    ensures { (m : Mapping) (fields : List Field) (kind : List ℕ) (only : IsOnly kind checked.now.messages template)
        → HaveSameTags plan.now.tags m.lists → IsTree m only.level tree.now → text.now ≡ bytes_of fields → table.now ≡ placed 0 fields
        → IsAnswer m checked.now kind fields result }
{
    let Ok(own) = app_fields(alloc, text, table, &plan.tags) else {
        return Err(ToSbeErr::Memory);
    };
    let fields = own.as_slice();
    let levels = tree.levels.as_slice();
    let Ok(told) = first_refusal(alloc, levels, &tree.root, fields) else {
        return Err(ToSbeErr::Memory);
    };
    match told {
        None => message_with(alloc, tree, checked, template, fields),
        Some(refused) => Err(ToSbeErr::Refused(refused)),
    }
}

/// The message of fields that aren't refused.
fn message_with<'a>(
    alloc: Global,
    tree: &BackTree,
    checked: &Checked,
    template: usize,
    fields: &[AppField<'_>],
) -> Result<Msg, ToSbeErr<'a>>
    requires known { template < length checked.now.messages }
    ensures { (m : Mapping) (text : List Field) (kind : List ℕ) (only : IsOnly kind checked.now.messages template)
        (is : IsTree m only.level tree.now) → fields_of fields.now ≡ application_fields m.lists text
        → back_refused (plan_of m is.structure only.level) (fields_of fields.now) ≡ None → IsAnswer m checked.now kind text result }
{
    let levels = tree.levels.as_slice();
    let level = checked.messages().at(template);
    match block_of_fields(alloc, levels, &tree.root, level, fields) {
        Ok(block) => Ok(Msg {
            template,
            version: checked.version(),
            block,
        }),
        Err(NoMem) => Err(ToSbeErr::Memory),
    }
}

/// The MsgType of a text whose fields the table holds.
pub fn type_in<'a>(text: &'a [u8], table: &FieldTable) -> &'a [u8]
    requires held { HoldsFields text.now table.now }
    requires typed { 2 < length table.now }
    ensures { (fields : List Field) (kind : List ℕ) → text.now ≡ bytes_of fields → table.now ≡ placed 0 fields → HasKind fields kind → result.now ≡ kind }
{
    let third = table.field(2);
    value_at(text, &third)
}

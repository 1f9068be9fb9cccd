ghost use Rattle.std.specs.Prelude.{◌≡◌, [], false, codes, OnOk};
ghost use Rattle.sbe_types.specs.declared.tree.TypesItem.TheVariants as item;
ghost use Rattle.schema_rules.specs.Judging.{Gives, at_element};
ghost use Rattle.schema_rules.specs.Names.{name_of, is_among};
ghost use Rattle.schema_rules.specs.CompositeRules.{item_check, declared_check, types_check};

use crate::composites::judge_composite;
use crate::name_table::NameTable;
use crate::refusals::{at_element, refuse};
use crate::type_rules::{judge_type, judge_type_constant};
use crate::value_rules::{judge_enum, judge_set};
use sbe_types::{TypeEl, TypesItem};
use schema_rules::{CCode, CheckErr};
use std::alloc::Global;
use type_facts::{Declarations, type_name};

/// Checks the declared types in their order.
pub fn judge_types(alloc: Global, known: &Declarations) -> Result<(), CheckErr>
    ensures { Gives result (types_check known.now [] known.now) }
{
    let mut names = NameTable::new(alloc);
    for item in known.types().as_slice() {
        judge_named(alloc, known, &names, item)?;
        names.push(alloc, type_name(item))?;
    }
    Ok(())
}

fn judge_named(
    alloc: Global,
    known: &Declarations,
    names: &NameTable,
    item: &TypesItem,
) -> Result<(), CheckErr>
    ensures judged { Gives result (at_element (codes "types/") (name_of item.now) (declared_check known.now names.now item.now)) }
    ensures new { OnOk result (is_among names.now (name_of item.now) ≡ false) }
{
    match judge_declared(alloc, known, names, item) {
        Ok(()) => Ok(()),
        Err(e) => Err(at_element(alloc, "types/", type_name(item), e)),
    }
}

fn judge_declared(
    alloc: Global,
    known: &Declarations,
    names: &NameTable,
    item: &TypesItem,
) -> Result<(), CheckErr>
    ensures judged { Gives result (declared_check known.now names.now item.now) }
    ensures new { OnOk result (is_among names.now (name_of item.now) ≡ false) }
{
    if names.contains(type_name(item)) {
        return refuse(alloc, CCode::DuplicateType);
    }
    judge_item(alloc, known, item)
}

fn judge_item(alloc: Global, known: &Declarations, item: &TypesItem) -> Result<(), CheckErr>
    ensures { Gives result (item_check known.now item.now) }
{
    match item {
        TypesItem::Type(t) => judge_simple(alloc, known, t),
        TypesItem::Enum(e) => judge_enum(alloc, known.types(), e),
        TypesItem::Set(s) => judge_set(alloc, known.types(), s),
        TypesItem::Composite(c) => judge_composite(alloc, known, c),
    }
}

fn judge_simple(alloc: Global, known: &Declarations, t: &TypeEl) -> Result<(), CheckErr>
    ensures { Gives result (item_check known.now (item.Type t.now)) }
{
    judge_type(alloc, known.types(), false, t)?;
    judge_type_constant(alloc, t)
}

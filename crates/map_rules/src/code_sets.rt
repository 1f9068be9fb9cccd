ghost use Rattle.std.specs.Prelude.{◌≡◌, ◌||◌, ◌<◌, map, codes, length, slice_get, Some, IfOk};
ghost use Rattle.map_members.specs.Lent.{lent_members};
ghost use Rattle.map_rules.specs.Verdicts.{first_broken, list_verdict, Answers};
ghost use Rattle.map_rules.specs.Rules.{found_earlier, has_again, code_set_rules};

use crate::rule::{Rule, first_broken, refuse_at};
use crate::tables::Tables;
use id_tables::NameTable;
use lists::{List, NoMem, Text};
use map_types::{CodeEl, CodeSetEl, MCode, MapErr};
use std::alloc::Global;

/// Checks the code sets one after another.
pub fn judge_code_sets(
    alloc: Global,
    tables: &Tables,
    code_sets: &[&CodeSetEl],
) -> Result<(), MapErr>
    requires names { tables.now.code_sets ≡ map (λ s. s.now.name) code_sets.now }
    ensures { Answers result (list_verdict (codes "codeSets") (code_set_rules tables.now) 0 (lent_members code_sets.now)) }
{
    for (i, code_set) in code_sets.iter().enumerate() {
        let broken = code_set_broken(alloc, tables, i, code_set)?;
        refuse_at(alloc, "codeSets", i, broken)?;
    }
    Ok(())
}

/// The first rule that the code set at an index breaks.
fn code_set_broken(
    alloc: Global,
    tables: &Tables,
    i: usize,
    code_set: &CodeSetEl,
) -> Result<Option<MCode>, NoMem>
    requires name { slice_get tables.now.code_sets i ≡ Some code_set.now.name }
    ensures { IfOk result (λ broken. broken ≡ first_broken (code_set_rules tables.now i code_set.now)) }
{
    let again = tables.code_sets.is_again(i);
    let name_again = has_again(alloc, names_of(alloc, code_set.children.as_slice())?)?;
    let value_again = has_again(alloc, values_of(alloc, code_set.children.as_slice())?)?;
    let known = tables.is_datatype(code_set.type_name.as_slice());
    Ok(first_broken(&[
        Rule {
            code: MCode::Duplicate,
            broken: again,
        },
        Rule {
            code: MCode::Duplicate,
            broken: name_again,
        },
        Rule {
            code: MCode::Duplicate,
            broken: value_again,
        },
        Rule {
            code: MCode::Datatype,
            broken: !known,
        },
    ]))
}

/// Whether some name occurs twice.
fn has_again(alloc: Global, names: List<Text>) -> Result<bool, NoMem>
    ensures { IfOk result (λ again. again ≡ has_again names) }
{
    let count = names.len();
    let table = NameTable::new(alloc, names)?;
    Ok(is_any_again(&table, count))
}

/// Whether one of these names occurs twice. `count` is their number.
fn is_any_again(table: &NameTable, count: usize) -> bool
    requires { count ≡ length table.now }
    ensures { result ≡ has_again table.now }
{
    let mut again = false;
    for i in 0..count {
        again = either(is_again_at(table, i), again);
    }
    again
}

fn either(a: bool, b: bool) -> bool
    ensures { result ≡ (a || b) }
{
    a || b
}

/// Whether the name at an index occurs earlier too.
fn is_again_at(table: &NameTable, i: usize) -> bool
    requires { i < length table.now }
    ensures { result ≡ found_earlier table.now i (slice_get table.now i) }
{
    table.is_again(i)
}

fn names_of(alloc: Global, members: &[CodeEl]) -> Result<List<Text>, NoMem>
    ensures { IfOk result (λ names. names ≡ map (λ c. c.name) members.now) }
{
    let mut names = List::new(alloc);
    for code in members {
        names.push(List::from_slice(alloc, code.name.as_slice())?)?;
    }
    Ok(names)
}

fn values_of(alloc: Global, members: &[CodeEl]) -> Result<List<Text>, NoMem>
    ensures { IfOk result (λ values. values ≡ map (λ c. c.value) members.now) }
{
    let mut values = List::new(alloc);
    for code in members {
        values.push(List::from_slice(alloc, code.value.as_slice())?)?;
    }
    Ok(values)
}

//! What is answered to a schema file and a mapping file.

ghost use Rattle.orchestra_map.specs.Headers.{IsKept};
ghost use Rattle.bridge_cover.specs.Kinds.{HasKindsInOrder};

use crate::schemas::read_checked;
use anyhow::{Result, bail};
use bridge_cover::laws::kinds_of_messages_are_in_order;
use bridge_cover::{Tables, uncovered};
use bridge_mapping::MessageTable;
use lists::{List, Text};
use map_types::Repository;
use orchestra_map::read_map;
use sbe_types::Level;
use schema_check::Checked;
use std::alloc::Global;

/// For each message of the schema its name, and `covered`, `no message`, or the path of the first part that isn't covered.
pub fn coverage_answer(alloc: Global, schema: &[u8], mapping: &[u8]) -> Result<String> {
    let checked = read_checked(alloc, schema)?;
    mapping_answer(alloc, &checked, mapping)
}

fn mapping_answer(alloc: Global, checked: &Checked, mapping: &[u8]) -> Result<String> {
    match read_map(alloc, mapping) {
        Ok(repository) => repository_answer(alloc, checked, &repository),
        Err(_) => bail!("the mapping isn't read"),
    }
}

fn repository_answer(alloc: Global, checked: &Checked, repository: &Repository) -> Result<String>
    requires kept { IsKept repository.now }
{
    let tables = Tables::new(alloc, repository)?;
    let out = structures_answer(alloc, &tables, checked, repository);
    // Each is dropped by a call of its own, since the check of a function that drops both itself doesn't end.
    let Tables { tags, datatypes } = tables;
    drop(datatypes);
    drop(tags);
    out
}

fn structures_answer(
    alloc: Global,
    tables: &Tables,
    checked: &Checked,
    repository: &Repository,
) -> Result<String>
    requires kept { IsKept repository.now }
{
    let structures = MessageTable::new(alloc, repository)?;
    messages_answer(alloc, tables, &structures, checked)
}

fn messages_answer(
    alloc: Global,
    tables: &Tables,
    structures: &MessageTable,
    checked: &Checked,
) -> Result<String> {
    let mut out = String::new(alloc);
    let schema = checked.schema();
    let messages = schema.messages.as_slice();
    kinds_of_messages_are_in_order();
    for level in messages {
        push_name(alloc, &mut out, level.name.as_slice())?;
        out.push_str(": ")?;
        let path = message_answer(alloc, tables, structures, level)?;
        out.push_str(path.as_str())?;
        out.push_str("; ")?;
    }
    Ok(out)
}

fn message_answer(
    alloc: Global,
    tables: &Tables,
    structures: &MessageTable,
    level: &Level,
) -> Result<String>
    requires order { HasKindsInOrder level.now }
{
    let Some(rows) = structures.rows(alloc, level.semantic.as_slice())? else {
        return Ok(String::from_str(alloc, "no message")?);
    };
    match uncovered(alloc, tables, rows.as_slice(), level)? {
        None => Ok(String::from_str(alloc, "covered")?),
        Some(path) => path_answer(alloc, &path),
    }
}

/// The names of a path, with dots between.
fn path_answer(alloc: Global, path: &List<Text>) -> Result<String> {
    let mut out = String::new(alloc);
    for name in path.as_slice() {
        if !out.is_empty() {
            out.push_str(".")?;
        }
        push_name(alloc, &mut out, name.as_slice())?;
    }
    Ok(out)
}

fn push_name(alloc: Global, out: &mut String, name: &[u8]) -> Result<()> {
    out.push_str(String::from_utf8_lossy(alloc, name)?.as_str())?;
    Ok(())
}

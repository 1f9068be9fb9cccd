ghost use Rattle.std.specs.Prelude.{◌≡◌, option_map};
ghost use Rattle.json_data.specs.Trees.{data_of};
ghost use Rattle.line_values.specs.Refusals.{Gives, GivesAs};
ghost use Rattle.line_reading.specs.Lines.{level_named, named_template, template_in, is_version, version_in, message_read, message_in, tree_of};
ghost use Rattle.line_values.specs.Code.{object_members};
ghost use Rattle.line_reading.specs.Code.{template};

use crate::blocks::read_block;
use json_data::{Json, JsonFault, JsonSpace, Pair};
use line_values::{JCode, LineFault, Names, find_in, refuse, refuse_unknown};
use sbe_types::{Level, Msg, WireSchema};
use schema_check::Checked;
use std::alloc::Global;

/// The first level with this name, and its number.
#[tactic(auto, using(crate::proofs::LevelSteps::level_next))]
fn level_named<'l>(levels: &'l [Level], name: &[u8]) -> Option<(usize, &'l Level)>
    ensures { option_map (λ p. template p.0 p.1.now) result ≡ level_named 0 levels.now name.now }
{
    for (i, level) in levels.iter().enumerate() {
        if level.name.as_slice() == name {
            return Some((i, level));
        }
    }
    None
}

/// Reads the template of a message, which is required and must be a string.
fn read_template<'l>(
    alloc: Global,
    levels: &'l [Level],
    found: Option<&Json<'_>>,
) -> Result<(usize, &'l Level), LineFault>
    ensures { GivesAs (λ p. template p.0 p.1.now) result (template_in levels.now (option_map (λ v. data_of v.now) found.entry)) }
{
    match found {
        None => refuse(alloc, JCode::Shape, b"template"),
        Some(found) => match found.as_str() {
            None => refuse(alloc, JCode::Kind, b"template"),
            Some(name) => match level_named(levels, name.as_bytes()) {
                None => refuse(alloc, JCode::UnknownName, name.as_bytes()),
                Some(named) => Ok(named),
            },
        },
    }
}

fn is_version(version: u32, found: Option<u64>) -> bool
    ensures { result ≡ is_version version found }
{
    match found {
        None => false,
        Some(n) => n == version as u64,
    }
}

/// Checks that the version, if there is one, is the schema's.
fn check_version(alloc: Global, version: u32, found: Option<&Json<'_>>) -> Result<(), LineFault>
    ensures { Gives result (version_in version (option_map (λ v. data_of v.now) found.entry)) }
{
    match found {
        None => Ok(()),
        Some(found) => {
            if is_version(version, found.as_u64()) {
                return Ok(());
            }
            refuse(alloc, JCode::Kind, b"version")
        }
    }
}

/// Reads the message in an object: its template, its version, its unknown keys, its root.
fn read_message(
    alloc: Global,
    schema: &WireSchema,
    object: Option<&[Pair<'_>]>,
) -> Result<Msg, LineFault>
    ensures { Gives result (message_read schema.now (object_members object.entry)) }
{
    let levels = schema.messages.as_slice();
    let (number, level) = read_template(alloc, levels, find_in(object, b"template"))?;
    check_version(alloc, schema.version, find_in(object, b"version"))?;
    refuse_unknown(alloc, &Names::Message, object)?;
    let block = read_block(alloc, level, object)?;
    Ok(Msg {
        template: number,
        version: schema.version,
        block,
    })
}

/// Reads the message in JSON data, which must be an object.
fn read_tree(alloc: Global, schema: &WireSchema, found: &Json<'_>) -> Result<Msg, LineFault>
    ensures { Gives result (message_in schema.now (data_of found.now)) }
{
    match found.as_object() {
        None => refuse(alloc, JCode::Shape, b""),
        Some(object) => read_message(alloc, schema, Some(object)),
    }
}

/// Reads the message that a line holds, or returns why it is refused: the first fault in the order of reading, with its
/// place.
pub fn msg_of_line(alloc: Global, checked: &Checked, line: &[u8]) -> Result<Msg, LineFault>
    ensures { Gives result (tree_of checked.now line.now) }
{
    let mut space = JsonSpace::new(alloc);
    msg_of_line_with(alloc, checked, line, &mut space)
}

/// The same, with memory for reading that is lent from line to line.
pub fn msg_of_line_with(
    alloc: Global,
    checked: &Checked,
    line: &[u8],
    space: &mut JsonSpace,
) -> Result<Msg, LineFault>
    ensures { Gives result (tree_of checked.now line.now) }
{
    read_line(alloc, checked.schema(), line, space)
}

/// Reads the message that a line holds, by the schema.
fn read_line(
    alloc: Global,
    schema: &WireSchema,
    line: &[u8],
    space: &mut JsonSpace,
) -> Result<Msg, LineFault>
    ensures { Gives result (tree_of schema.now line.now) }
{
    match space.read(line) {
        Ok(found) => read_tree(alloc, schema, &found),
        Err(JsonFault::NotJson) => refuse(alloc, JCode::NotJson, b""),
        Err(JsonFault::Memory) => Err(LineFault::Memory),
    }
}

// The lines of messages.
ghost use Rattle.std.specs.Prelude.{◌≡◌, ◌<◌, List, IfOk, Some, flat_map, length, slice_get};
ghost use Rattle.sbe_types.specs.declared.schema.Level.{Level as AnyLevel, out-Level};
ghost use Rattle.schema_lines.specs.Texts.{Puts};
ghost use Rattle.bridge_plan.specs.Covers.{cover_of};
ghost use Rattle.bridge_plan.specs.Mappings.{Mapping};
ghost use Rattle.message_plans.specs.Plans.{templates, ArePlans, IsCover};
ghost use Rattle.value_texts.specs.Rows.{Spells};
ghost use Rattle.coverage_command.specs.Coverage.{after_dot, coverage_lines, covered_lines, cover_line, dotted, mapped_line, refused_line};

use lists::{NoMem, Text};
use message_plans::{Cover, Plan};
use sbe_types::Level;
use schema_lines::{put, put_json_text, put_message};
use std::alloc::Global;
use value_texts::ValueText;

/// Appends both lines of each message: the schema's, and what the mapping says of it. The plans are those of these messages.
pub(crate) fn put_coverage(
    plan: &Plan<ValueText>,
    levels: &[Level],
    out: &mut Vec<u8>,
) -> Result<(), NoMem>
    requires many { templates plan.now ≡ length levels.now }
    ensures { (m : Mapping) → ArePlans Spells m levels.now plan.now
        → Puts result out.old.items out.new.items (coverage_lines m levels.now) }
{
    for (i, level) in levels.iter().enumerate() {
        put_covered(plan, i, level, out)?;
    }
    Ok(())
}

/// Appends both lines of a message.
fn put_covered(
    plan: &Plan<ValueText>,
    template: usize,
    level: &Level,
    out: &mut Vec<u8>,
) -> Result<(), NoMem>
    requires within { template < templates plan.now }
    ensures { (m : Mapping) (levels : List AnyLevel) → ArePlans Spells m levels plan.now → slice_get levels template ≡ Some level.now
        → Puts result out.old.items out.new.items (covered_lines m level.now) }
{
    put_message(level, out)?;
    put_cover(level, plan.cover(template), out)
}

/// Appends what a mapping says of a message.
fn put_cover(level: &Level, cover: &Cover<ValueText>, out: &mut Vec<u8>) -> Result<(), NoMem>
    ensures { (m : Mapping) → IsCover Spells m level.now cover.now
        → Puts result out.old.items out.new.items (cover_line level.now (cover_of m level.now)) }
{
    match cover {
        Cover::Mapped(_) => put_mapped(level, out),
        Cover::NoMessage => put_refused(level, "B01", &[], out),
        Cover::Unmapped(path) => put_refused(level, "B02", path.as_slice(), out),
    }
}

fn put_mapped(level: &Level, out: &mut Vec<u8>) -> Result<(), NoMem>
    ensures { Puts result out.old.items out.new.items (mapped_line level.now) }
{
    put(out, b"{\"message\":")?;
    put_json_text(out, level.name.as_slice())?;
    put(out, b",\"map\":")?;
    put_json_text(out, level.semantic.as_slice())?;
    put(out, b"}\n")
}

fn put_refused(level: &Level, code: &str, path: &[Text], out: &mut Vec<u8>) -> Result<(), NoMem>
    ensures { Puts result out.old.items out.new.items (refused_line (out-Level level.now).name code.now path.now) }
{
    let alloc = *out.allocator();
    let path = dotted(alloc, path)?;
    put(out, b"{\"message\":")?;
    put_json_text(out, level.name.as_slice())?;
    put(out, b",\"map\":null,\"refused\":\"")?;
    put(out, code.as_bytes())?;
    put(out, b"\",\"path\":")?;
    put_json_text(out, path.as_slice())?;
    put(out, b"}\n")
}

/// Names with a dot between each two.
fn dotted(alloc: Global, names: &[Text]) -> Result<Vec<u8>, NoMem>
    ensures { IfOk result (λ text. text.items ≡ dotted names.now) }
{
    let mut text = Vec::new(alloc);
    put_dotted(&mut text, names)?;
    Ok(text)
}

fn put_dotted(out: &mut Vec<u8>, names: &[Text]) -> Result<(), NoMem>
    ensures { Puts result out.old.items out.new.items (dotted names.now) }
{
    let [name, rest @ ..] = names else {
        return Ok(());
    };
    put(out, name.as_slice())?;
    put_after_dots(out, rest)
}

/// Appends names, each after a dot.
fn put_after_dots(out: &mut Vec<u8>, names: &[Text]) -> Result<(), NoMem>
    ensures { Puts result out.old.items out.new.items (flat_map after_dot names.now) }
{
    for name in names {
        put_after_dot(out, name.as_slice())?;
    }
    Ok(())
}

fn put_after_dot(out: &mut Vec<u8>, name: &[u8]) -> Result<(), NoMem>
    ensures { Puts result out.old.items out.new.items (after_dot name.now) }
{
    put(out, b".")?;
    put(out, name)
}

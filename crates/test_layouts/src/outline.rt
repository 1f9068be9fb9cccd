//! The outline of a layout: a line for the schema, for each message, for each level with its parts, and for each data
//! part.

ghost use Rattle.std.specs.Prelude.{◌≡◌, ◌<◌, length};
ghost use Rattle.sbe_types.specs.Places.{is_const};
ghost use Rattle.schema_facts.specs.Levels.{all_nodes, fields_at};

use layout_tables::Layout;
use sbe_types::Kind;
use std::alloc::{AllocError, Global};
use std::str::from_utf8;

fn shown(text: &[u8]) -> &str {
    match from_utf8(text) {
        Ok(text) => text,
        Err(_) => "?",
    }
}

fn add(out: &mut String, line: Result<String, AllocError>) -> Result<(), AllocError> {
    out.push_str(line?.as_str())?;
    out.push_str("\n")
}

/// Adds the outline of a layout.
pub fn add_layout(alloc: Global, out: &mut String, layout: &Layout) -> Result<(), AllocError> {
    let line = format!(in alloc;
        "schema {} version {} {:?} header {}",
        layout.id(),
        layout.version(),
        layout.order(),
        layout.header_row().width
    );
    add(out, line)?;
    for template in 0..layout.templates() {
        let line = format!(in alloc;
            "message {template} id {} level {}",
            layout.template_id(template),
            layout.root(template)
        );
        add(out, line)?;
    }
    for level in 0..layout.levels() {
        add_level(alloc, out, layout, level)?;
    }
    add_data(alloc, out, layout)
}

fn add_level(
    alloc: Global,
    out: &mut String,
    layout: &Layout,
    level: usize,
) -> Result<(), AllocError>
    requires { level < length (all_nodes layout.now) }
{
    let line = format!(in alloc;
        "level {level} {} since {} block {} floors {} {} {} least {} {} {}",
        shown(layout.name(level)),
        layout.group_since(level),
        layout.block(level),
        layout.floor(level, 0),
        layout.floor(level, 1),
        layout.floor(level, 2),
        layout.min_entry(level, 0),
        layout.min_entry(level, 1),
        layout.min_entry(level, 2)
    );
    add(out, line)?;
    add_fields(alloc, out, layout, level)?;
    add_parts(alloc, out, layout, level)
}

fn add_fields(
    alloc: Global,
    out: &mut String,
    layout: &Layout,
    level: usize,
) -> Result<(), AllocError>
    requires { level < length (all_nodes layout.now) }
{
    let (fields, _, _) = layout.counts(level);
    for i in 0..fields {
        let line = format!(in alloc;
            "  field {} since {} at {:?}",
            shown(layout.field_name(level, i)),
            layout.since(level, i),
            place_of(layout, level, i)
        );
        add(out, line)?;
    }
    Ok(())
}

/// Whether a kind is a constant, which takes no bytes.
fn is_constant(kind: &Kind) -> bool
    ensures { result ≡ is_const kind.now }
{
    match kind {
        Kind::Const(_) => true,
        Kind::Leaf(_) | Kind::Enum(_, _) | Kind::Set(_, _) | Kind::Comp(_) => false,
    }
}

/// The offset of a field, unless it is a constant.
#[tactic(auto, using(layout_tables::proofs::Told::place_there))]
fn place_of(layout: &Layout, level: usize, i: usize) -> Option<u32>
    requires level { level < length (all_nodes layout.now) }
    requires field { i < length (fields_at layout.now level) }
{
    if is_constant(layout.kind(level, i)) {
        return None;
    }
    Some(layout.place(level, i))
}

fn add_parts(
    alloc: Global,
    out: &mut String,
    layout: &Layout,
    level: usize,
) -> Result<(), AllocError>
    requires { level < length (all_nodes layout.now) }
{
    let (_, groups, parts) = layout.counts(level);
    for i in 0..groups {
        let group = layout.group(level, i);
        let line = format!(in alloc;
            "  group {i} is level {group} since {} with {} members",
            layout.group_since(group),
            layout.dim(group).len()
        );
        add(out, line)?;
    }
    for i in 0..parts {
        add(
            out,
            format!(in alloc; "  data {i} is {}", layout.data(level, i)),
        )?;
    }
    Ok(())
}

fn add_data(alloc: Global, out: &mut String, layout: &Layout) -> Result<(), AllocError> {
    for part in 0..layout.data_parts() {
        let line = format!(in alloc;
            "data {part} {} since {} length {:?}",
            shown(layout.data_name(part)),
            layout.data_since(part),
            layout.length(part).prim
        );
        add(out, line)?;
    }
    Ok(())
}

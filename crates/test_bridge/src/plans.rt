//! What a mapping says of the messages of a schema.

ghost use Rattle.orchestra_map.specs.Headers.{IsKept};

use crate::schemas::load_checked;
use anyhow::{Result, bail};
use lists::Text;
use map_types::Repository;
use message_plans::{Cover, Plan, Template, make_plan};
use orchestra_map::read_map;
use sbe_types::Level;
use schema_check::Checked;
use std::alloc::Global;
use std::fs;
use test_tables::Row;
use value_texts::ValueText;

/// A row: the name of the files of a schema and of a mapping. Answers for each message what the mapping says of it.
pub fn covers_answer(rt: &HostRuntime, row: &Row) -> Result<String> {
    let name = row.text(0)?;
    let schema = format!(in rt.alloc(); "files/{name}.schema.json")?;
    let checked = load_checked(rt, schema.as_str())?;
    let map = format!(in rt.alloc(); "files/{name}.map.json")?;
    mapping_answer(rt, &checked, map.as_str())
}

fn mapping_answer(rt: &HostRuntime, checked: &Checked, path: &str) -> Result<String> {
    let text = fs::read_to_string(rt, path)?;
    match read_map(rt.alloc(), text.as_bytes()) {
        Ok(repository) => plans_answer(rt.alloc(), checked, &repository),
        Err(_) => bail!("the mapping is refused"),
    }
}

fn plans_answer(alloc: Global, checked: &Checked, repository: &Repository) -> Result<String>
    requires kept { IsKept repository.now }
{
    let plan = make_plan::<ValueText>(alloc, checked, repository)?;
    all_answer(alloc, &plan, checked.messages().as_slice())
}

fn all_answer(alloc: Global, plan: &Plan<ValueText>, levels: &[Level]) -> Result<String> {
    let mut out = String::new(alloc);
    for (i, level) in levels.iter().enumerate() {
        if i >= plan.templates() {
            bail!("a message has no plan");
        }
        if i > 0 {
            out.push_str("; ")?;
        }
        put_bytes(alloc, &mut out, level.name.as_slice())?;
        put_cover(alloc, &mut out, plan, i)?;
    }
    Ok(out)
}

/// What the mapping says of a template: its MsgType with how often templates have it, where it is covered.
fn put_cover(alloc: Global, out: &mut String, plan: &Plan<ValueText>, i: usize) -> Result<()> {
    if i >= plan.templates() {
        bail!("a message has no plan");
    }
    match plan.cover(i) {
        Cover::Mapped(_) => put_kind(alloc, out, plan, i),
        Cover::NoMessage => Ok(out.push_str(" B01")?),
        Cover::Unmapped(path) => put_path(alloc, out, path.as_slice()),
    }
}

/// The MsgType of a template, which finds it again unless others have it too.
fn put_kind(alloc: Global, out: &mut String, plan: &Plan<ValueText>, i: usize) -> Result<()> {
    if i >= plan.templates() {
        bail!("a message has no plan");
    }
    let kind = plan.msg_type(i);
    out.push_str(" ")?;
    put_bytes(alloc, out, kind)?;
    match plan.template_for(kind) {
        Template::One(other) if other == i => Ok(()),
        Template::Several => Ok(out.push_str(" several")?),
        _ => bail!("another template has the MsgType"),
    }
}

fn put_path(alloc: Global, out: &mut String, path: &[Text]) -> Result<()> {
    out.push_str(" B02")?;
    for (i, name) in path.iter().enumerate() {
        if i == 0 {
            out.push_str(" ")?;
        } else {
            out.push_str(".")?;
        }
        put_bytes(alloc, out, name.as_slice())?;
    }
    Ok(())
}

fn put_bytes(alloc: Global, out: &mut String, bytes: &[u8]) -> Result<()> {
    let text = String::from_utf8_lossy(alloc, bytes)?;
    Ok(out.push_str(text.as_str())?)
}

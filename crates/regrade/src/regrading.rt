//! A message of one version of a schema, rewritten in another version.

ghost use Rattle.std.specs.Prelude.{◌≡◌, ◌<◌, ◌^◌, Some, IfOk};
ghost use Rattle.version_laws.specs.Projected.{lifted};
ghost use Rattle.regrade_laws.specs.Regraded.{filled_in, moved};
ghost use Rattle.regrade_laws.specs.Counts.{dropped, filled_of};
ghost use Rattle.regrade.specs.Regrades.{Answers, HasWay, LiesInFrame, Regrades};

use crate::dropping::dropped_in;
use crate::filler::{Filler, Unfilled};
use crate::filling::fill_block;
use crate::lifting::lift_block;
use crate::templates::template_of;
use lists::NoMem;
use sbe_types::{Msg, Path, WireSchema};
use schema_check::Checked;
use std::alloc::Global;
use version_project::{knows, project};

/// A rewritten message.
#[derive(Drop)]
pub struct Regraded {
    /// The message in the other version.
    pub msg: Msg,
    /// How many of its parts the other version lacks; a group counts once.
    pub dropped: u64,
    /// How many parts it lacked and now has, with an empty value; a group counts once.
    pub filled: u64,
}

/// Why a message can't be rewritten.
#[derive(Drop)]
pub enum RegradeErr {
    /// The other schema has no message with that id.
    NoTemplate,
    /// The message lacks a part of the other version that has no empty value: the path of the first one, in wire order.
    NoFill(Path),
    /// Out of memory.
    Memory,
}

/// Rewrites a message in the version of the schema `to`: with the parts that `to` has, the missing ones filled with
/// empty values. Requires schemas of which the later one extends the earlier one, as `way_of` reports, and a message
/// that lies in a body of `from`.
///
/// # Errors
///
/// `NoTemplate` exactly if `to` has no message with the id; otherwise `NoFill` exactly if a part has no empty value;
/// `Memory` if memory runs out.
pub fn regrade(
    alloc: Global,
    from: &Checked,
    to: &Checked,
    msg: &Msg,
) -> Result<Regraded, RegradeErr>
    requires way { HasWay from.now to.now }
    requires lies { LiesInFrame from.now msg.now }
    ensures { Regrades from.now to.now msg.now result }
{
    let _read = from.schema();
    let _written = to.schema();
    match moved(alloc, from, to, msg) {
        Ok(Some(moved)) => fill(alloc, to, moved, dropped(from, to, msg)),
        Ok(None) => Err(RegradeErr::NoTemplate),
        Err(NoMem) => Err(RegradeErr::Memory),
    }
}

/// The message with the parts that `to` has, absent where it lacks them; or `None` if `to` lacks its template.
fn moved(alloc: Global, from: &Checked, to: &Checked, msg: &Msg) -> Result<Option<Msg>, NoMem>
    ensures { IfOk result (λ it. it ≡ moved from.now to.now msg.now) }
{
    if from.version() <= to.version() {
        return lift(alloc, from.schema(), to.schema(), msg);
    }
    if !knows(to, from, msg) {
        return Ok(None);
    }
    let moved = project(alloc, to, from, msg)?;
    Ok(Some(moved))
}

/// The same, if `to` is the later schema.
fn lift(alloc: Global, from: &WireSchema, to: &WireSchema, msg: &Msg) -> Result<Option<Msg>, NoMem>
    ensures { IfOk result (λ it. it ≡ lifted from.now to.now msg.now) }
{
    if msg.template >= from.messages.len() {
        return Ok(None);
    }
    let Some(template) = template_of(&to.messages, from.messages.at(msg.template).id) else {
        return Ok(None);
    };
    let block = lift_block(alloc, from.version, to.messages.at(template), &msg.block)?;
    Ok(Some(Msg {
        template,
        version: msg.version,
        block,
    }))
}

/// How many parts of the message `to` lacks.
fn dropped(from: &Checked, to: &Checked, msg: &Msg) -> u64
    requires { dropped from.now to.now msg.now < 2 ^ 64 }
    ensures { result ≡ dropped from.now to.now msg.now }
{
    if from.version() <= to.version() {
        return 0;
    }
    if msg.template >= from.messages().len() {
        return 0;
    }
    dropped_in(to.version(), from.messages().at(msg.template), &msg.block)
}

/// A message with the parts that `to` has, absent ones filled. `dropped` parts of the original were dropped.
fn fill(alloc: Global, to: &Checked, moved: Msg, dropped: u64) -> Result<Regraded, RegradeErr>
    requires { filled_of to.now (Some moved) < 2 ^ 64 }
    ensures { Answers (record { told = filled_in to.now (Some moved); dropped = dropped; filled = filled_of to.now (Some moved) }) result }
{
    if moved.template >= to.messages().len() {
        return Err(RegradeErr::NoTemplate);
    }
    let _schema = to.schema();
    let template = moved.template;
    let mut filler = Filler::new(alloc);
    match fill_block(&mut filler, to.messages().at(template), moved.block) {
        Ok(block) => Ok(Regraded {
            msg: Msg {
                template,
                version: to.version(),
                block,
            },
            dropped,
            filled: filler.filled,
        }),
        Err(Unfilled::NoFill) => Err(RegradeErr::NoFill(filler.lack.to_path())),
        Err(Unfilled::Memory) => Err(RegradeErr::Memory),
    }
}

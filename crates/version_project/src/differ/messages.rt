// The first difference between two schemas: in what belongs to the whole schema, then message by message.
ghost use Rattle.std.specs.Prelude.{◌≡◌, IfOk};
ghost use Rattle.std.specs.List.{AllByRecursion};
ghost use Rattle.sbe_types.specs.declared.kind.Kind.{Comp};
ghost use Rattle.sbe_wire.specs.Faults.{message_named};
ghost use Rattle.schema_facts.specs.Measured.{IsMeasured, IsNarrow};
ghost use Rattle.version_laws.specs.Differ.{differ, message_differs, messages_differ, schema_reason, same_order};
ghost use Rattle.version_project.specs.Narrow.{IsNarrowLevel};
ghost use Rattle.version_project.specs.Sought.{Finds, namesake};

use crate::differ::found::{at_part, inside};
use crate::differ::leaves::is_same_name;
use crate::differ::levels::level_differs;
use crate::differ::places::is_same_header;
use lists::{List, NoMem, Text};
use sbe_types::{Level, Order, WireSchema};
use std::alloc::Global;
use version_laws::{Difference, Reason};

/// The first difference between an earlier schema and a later one.
pub(crate) fn schemas_differ(
    alloc: Global,
    old: &WireSchema,
    new: &WireSchema,
) -> Result<Option<Difference>, NoMem>
    requires old { IsMeasured old.now }
    requires new { IsMeasured new.now }
    ensures { IfOk result (λ found. found ≡ differ old.now new.now) }
{
    match reason_of(old, new) {
        Some(reason) => Ok(Some(Difference {
            path: Text::new(alloc),
            reason,
        })),
        None => {
            let more = old.version < new.version;
            messages_differ(alloc, old.version, more, &old.messages, &new.messages)
        }
    }
}

/// Why the later schema as a whole doesn't belong to the earlier one.
fn reason_of(old: &WireSchema, new: &WireSchema) -> Option<Reason>
    requires old { IsNarrow (Comp old.now.header.members) }
    requires new { IsNarrow (Comp new.now.header.members) }
    ensures { result ≡ schema_reason old.now new.now }
{
    if old.id != new.id {
        return Some(Reason::Id);
    }
    if !is_same_order(old.order, new.order) {
        return Some(Reason::ByteOrder);
    }
    if !is_same_header(&old.header.members, &new.header.members) {
        return Some(Reason::Header);
    }
    if new.version < old.version {
        return Some(Reason::Version);
    }
    None
}

fn is_same_order(a: Order, b: Order) -> bool
    ensures { result ≡ same_order a b }
{
    match a {
        Order::Little => match b {
            Order::Little => true,
            Order::Big => false,
        },
        Order::Big => match b {
            Order::Little => false,
            Order::Big => true,
        },
    }
}

/// The first difference between old's messages, in order, and those with the same ids in new.
fn messages_differ(
    alloc: Global,
    version: u32,
    more: bool,
    olds: &List<Level>,
    news: &List<Level>,
) -> Result<Option<Difference>, NoMem>
    requires old { AllByRecursion IsNarrowLevel olds.now }
    requires new { AllByRecursion IsNarrowLevel news.now }
    ensures { IfOk result (λ found. found ≡ messages_differ version more olds.now news.now) }
{
    for i in 0..olds.len() {
        if let Some(found) = message_differs(alloc, version, more, olds.at(i), news)? {
            return Ok(Some(found));
        }
    }
    Ok(None)
}

/// The first difference between a message of old and the one with its id in new.
fn message_differs(
    alloc: Global,
    version: u32,
    more: bool,
    old: &Level,
    news: &List<Level>,
) -> Result<Option<Difference>, NoMem>
    requires old { IsNarrowLevel old.now }
    requires new { AllByRecursion IsNarrowLevel news.now }
    ensures { IfOk result (λ found. found ≡ message_differs version more old.now (namesake old.now news.now)) }
{
    let Some(place) = message_of(news, old.id) else {
        return at_part(alloc, &old.name, Reason::Message);
    };
    let new = news.at(place);
    if !is_same_name(old.name.as_slice(), new.name.as_slice()) {
        return at_part(alloc, &old.name, Reason::Message);
    }
    match level_differs(alloc, version, more, old, new)? {
        None => Ok(None),
        Some(found) => {
            let outer = inside(alloc, &old.name, &found)?;
            Ok(Some(outer))
        }
    }
}

/// The index of the message with this id.
pub(crate) fn message_of(messages: &List<Level>, id: u32) -> Option<usize>
    ensures { Finds messages.now (message_named 0 id messages.now) result }
{
    for i in 0..messages.len() {
        if messages.at(i).id == id {
            return Some(i);
        }
    }
    None
}

ghost use Rattle.std.specs.Prelude.{◌≡◌, codes};
ghost use Rattle.schema_rules.specs.Judging.{Gives, first_of, at_element};
ghost use Rattle.schema_rules.specs.Checked.{header_rules, tree_check};

use crate::messages::judge_messages;
use sbe_types::MessageEl;
use schema_rules::{CCode, CheckErr, LevelScope};
use std::alloc::Global;
use type_check::{at_element, judge_types, names_fraction, refuse};
use type_facts::Declarations;
use type_kinds::{holds, is_header, members_named};

/// Checks a whole schema: the declared types, the header type and the messages, in this order.
pub fn judge(
    alloc: Global,
    known: &Declarations,
    header_type: &[u8],
    id: u32,
    version: u32,
    messages: &[MessageEl],
) -> Result<(), CheckErr>
    ensures { Gives result (tree_check (record { types = known.now; header_type = header_type.now; id = id; version = version }) messages.now) }
{
    judge_types(alloc, known)?;
    judge_header_named(alloc, known, header_type, id, version)?;
    let level = LevelScope {
        version,
        around: 0,
        since: 0,
    };
    let header = members_named(known.types(), header_type);
    judge_messages(alloc, known, header, level, messages)
}

fn judge_header_named(
    alloc: Global,
    known: &Declarations,
    header_type: &[u8],
    id: u32,
    version: u32,
) -> Result<(), CheckErr>
    ensures { Gives result (at_element (codes "types/") header_type.now (first_of (header_rules (record { types = known.now; header_type = header_type.now; id = id; version = version })))) }
{
    match judge_header(alloc, known, header_type, id, version) {
        Ok(()) => Ok(()),
        Err(e) => Err(at_element(alloc, "types/", header_type, e)),
    }
}

fn judge_header(
    alloc: Global,
    known: &Declarations,
    header_type: &[u8],
    id: u32,
    version: u32,
) -> Result<(), CheckErr>
    ensures { Gives result (first_of (header_rules (record { types = known.now; header_type = header_type.now; id = id; version = version }))) }
{
    let types = known.types();
    if types.named(header_type).is_none() {
        return refuse(alloc, CCode::UnknownType);
    }
    if names_fraction(types, header_type) {
        return refuse(alloc, CCode::Float);
    }
    let members = members_named(types, header_type);
    if !is_header(types, members) {
        return refuse(alloc, CCode::BadHeader);
    }
    if !holds(types, members, "schemaId".as_bytes(), id)
        || !holds(types, members, "version".as_bytes(), version)
    {
        return refuse(alloc, CCode::Width);
    }
    Ok(())
}

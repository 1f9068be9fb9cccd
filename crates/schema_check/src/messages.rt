ghost use Rattle.std.specs.Prelude.{◌≡◌, [], false, ◌||◌, codes, nat_eq, unwrap_or, OnOk};
ghost use Rattle.std.specs.List.{list_any};
ghost use Rattle.schema_rules.specs.Judging.{Gives, first_of, at_element};
ghost use Rattle.schema_rules.specs.Names.{is_among};
ghost use Rattle.schema_rules.specs.Kinds.{kind_named, members_of, members_named};
ghost use Rattle.schema_rules.specs.Checked.{message_rules, message_end_rules, message_check, messages_check, no_message};

use crate::parts::{block_of, is_bad_block, is_short, judge_parts};
use lists::List;
use sbe_types::{MemberItem, MessageEl};
use schema_rules::{CCode, CheckErr, LevelFacts, LevelScope};
use std::alloc::Global;
use type_check::{NameTable, at_element, refuse};
use type_facts::{Declarations, Types};
use type_kinds::holds;

/// Checks the messages in their order, given the members of the header.
pub fn judge_messages(
    alloc: Global,
    known: &Declarations,
    header: &[MemberItem],
    level: LevelScope,
    messages: &[MessageEl],
) -> Result<(), CheckErr>
    ensures { Gives result (messages_check (members_of known.now (kind_named known.now) header.now) (record { types = known.now; level = level }) no_message messages.now) }
{
    let mut names = NameTable::new(alloc);
    let mut ids = List::new(alloc);
    for message in messages {
        judge_named(alloc, known, header, level, &names, ids.as_slice(), message)?;
        names.push(alloc, message.name.as_slice())?;
        ids.push(message.id)?;
    }
    Ok(())
}

fn judge_named(
    alloc: Global,
    known: &Declarations,
    header: &[MemberItem],
    level: LevelScope,
    names: &NameTable,
    ids: &[u32],
    message: &MessageEl,
) -> Result<(), CheckErr>
    ensures judged { Gives result (at_element (codes "messages/") message.now.name (message_check (members_of known.now (kind_named known.now) header.now) (record { types = known.now; level = level }) (record { names = names.now; ids = ids.now }) message.now)) }
    ensures new { OnOk result (is_among names.now message.now.name ≡ false) }
{
    match judge_message(alloc, known, header, level, names, ids, message) {
        Ok(()) => Ok(()),
        Err(e) => Err(at_element(alloc, "messages/", message.name.as_slice(), e)),
    }
}

fn judge_message(
    alloc: Global,
    known: &Declarations,
    header: &[MemberItem],
    level: LevelScope,
    names: &NameTable,
    ids: &[u32],
    message: &MessageEl,
) -> Result<(), CheckErr>
    ensures judged { Gives result (message_check (members_of known.now (kind_named known.now) header.now) (record { types = known.now; level = level }) (record { names = names.now; ids = ids.now }) message.now) }
    ensures new { OnOk result (is_among names.now message.now.name ≡ false) }
{
    judge_begun(alloc, level.version, names, ids, message)?;
    let all = judge_parts(alloc, known, level, message.children.as_slice())?;
    judge_whole(alloc, known.types(), header, message, all)
}

/// Applies the rules for a message that are tried before its parts.
fn judge_begun(
    alloc: Global,
    version: u32,
    names: &NameTable,
    ids: &[u32],
    message: &MessageEl,
) -> Result<(), CheckErr>
    ensures judged { Gives result (first_of (message_rules version (record { names = names.now; ids = ids.now }) message.now)) }
    ensures new { OnOk result (is_among names.now message.now.name ≡ false) }
{
    if names.contains(message.name.as_slice()) || is_id_among(ids, message.id) {
        return refuse(alloc, CCode::DuplicateName);
    }
    if message.since_version > version {
        return refuse(alloc, CCode::Since);
    }
    Ok(())
}

fn is_id_among(ids: &[u32], id: u32) -> bool
    ensures { result ≡ list_any (nat_eq id) ids.now }
{
    for other in ids {
        if id == *other {
            return true;
        }
    }
    false
}

/// Applies the rules for a message that are tried after its parts.
fn judge_whole(
    alloc: Global,
    types: &Types,
    header: &[MemberItem],
    message: &MessageEl,
    all: LevelFacts,
) -> Result<(), CheckErr>
    ensures { Gives result (first_of (message_end_rules (members_of types.now (kind_named types.now) header.now) message.now all)) }
{
    if is_short(message.block_length, all.reached) {
        return refuse(alloc, CCode::BlockShort);
    }
    let block = block_of(message.block_length, all.reached);
    if !holds(types, header, "templateId".as_bytes(), message.id)
        || is_bad_block(types, header, block)
    {
        return refuse(alloc, CCode::Width);
    }
    Ok(())
}

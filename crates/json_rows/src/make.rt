// Builds the text of a block's fields that is the same in each line, piece by piece.
ghost use Rattle.std.specs.Prelude.{◌≡◌, ◌≤◌, ◌+◌, ◌∷◌, [], false, IfOk, OnOk};
ghost use Rattle.std.specs.List.{AllByRecursion};
ghost use Rattle.sbe_types.specs.declared.kind.Kind.{Comp};
ghost use Rattle.sbe_types.specs.declared.schema.Field.{Field};
ghost use Rattle.sbe_types.specs.Places.{width, is_const};
ghost use Rattle.schema_facts.specs.InOrder.{IsConstantInOrder, IsKindInOrder};
ghost use Rattle.schema_facts.specs.Measured.{largest, AreNarrowFields};
ghost use Rattle.json_rows.specs.Texts.{key_of, constant_text};
ghost use Rattle.json_rows.specs.Pieces.{literal, shown, kind_pieces, pieces_between};
ghost use Rattle.json_rows.specs.Tables.{Grows, HasPieces};

use crate::codes::codes_of;
use crate::rows::{TextRow, TextRows};
use crate::texts::{put_constant, put_key};
use flat_rows::{begin_of, end_after, row_of};
use lists::NoMem;
use sbe_types::{ConstValue, Field, Kind, List, Member};
use std::alloc::Global;

/// The text of the fields of a block that is the same in each line, between two texts. The fields must be valid and end
/// within 1,048,576 bytes. The only error is out of memory.
pub fn text_rows_of(
    alloc: Global,
    before: &[u8],
    fields: &[Field],
    after: &[u8],
) -> Result<TextRows, NoMem>
    requires order { AllByRecursion (λ (f : Field). IsKindInOrder f.kind) fields.now }
    requires narrow { AreNarrowFields 0 fields.now }
    ensures { IfOk result (HasPieces (pieces_between before.now after.now fields.now)) }
{
    let mut table = TextRows {
        bytes: Vec::new(alloc),
        rows: Vec::new(alloc),
        last: 0,
    };
    add_bytes(&mut table, before)?;
    let mut end = 0;
    let mut later = false;
    for field in fields {
        add_key(&mut table, later, field.name.as_slice())?;
        let past = end_after(end, field.offset, &field.kind);
        add_kind(
            alloc,
            &mut table,
            &field.kind,
            0,
            begin_of(end, field.offset),
        )?;
        end = past;
        later = true;
    }
    add_bytes(&mut table, b"}")?;
    add_bytes(&mut table, after)?;
    Ok(table)
}

/// Adds the pieces of a kind that begins at an offset of the block.
#[cycle(make)]
fn add_kind(
    alloc: Global,
    table: &mut TextRows,
    kind: &Kind,
    at: u32,
    begin: u32,
) -> Result<(), NoMem>
    requires order { IsKindInOrder kind.now }
    requires within { is_const kind.now ≡ false → at + begin + width kind.now ≤ largest }
    ensures { OnOk result (Grows table.old table.new (kind_pieces kind.now (at + begin))) }
{
    match kind {
        Kind::Const(constant) => add_constant(alloc, table, constant),
        Kind::Comp(members) => add_members(alloc, table, members, at + begin),
        Kind::Leaf(_) | Kind::Enum(_, _) | Kind::Set(_, _) => {
            add_value(alloc, table, kind, at + begin)
        }
    }
}

/// Adds the pieces of a composite that begins at an offset of the block.
#[cycle(make)]
fn add_members(
    alloc: Global,
    table: &mut TextRows,
    members: &List<Member>,
    at: u32,
) -> Result<(), NoMem>
    requires order { IsKindInOrder (Comp members.now) }
    requires within { at + width (Comp members.now) ≤ largest }
    ensures { OnOk result (Grows table.old table.new (kind_pieces (Comp members.now) at)) }
{
    add_bytes(table, b"{")?;
    let mut end = 0;
    let mut later = false;
    for member in members.as_slice() {
        add_key(table, later, member.name.as_slice())?;
        let after = end_after(end, member.offset, &member.kind);
        add_kind(alloc, table, &member.kind, at, begin_of(end, member.offset))?;
        end = after;
        later = true;
    }
    add_bytes(table, b"}")?;
    Ok(())
}

/// Adds a value of a kind that begins at an offset of the block.
fn add_value(alloc: Global, table: &mut TextRows, kind: &Kind, at: u32) -> Result<(), NoMem>
    requires order { IsKindInOrder kind.now }
    requires within { at + width kind.now ≤ largest }
    ensures { OnOk result (Grows table.old table.new (shown kind.now at ∷ [])) }
{
    let end = table.bytes.len();
    if end > u32::MAX as usize {
        return Err(NoMem);
    }
    let value = row_of(alloc, kind, at)?;
    let codes = codes_of(alloc, kind)?;
    let end = end as u32;
    table.rows.push(TextRow {
        start: table.last,
        end,
        value,
        codes,
    })?;
    table.last = end;
    Ok(())
}

/// Adds a key.
fn add_key(table: &mut TextRows, later: bool, name: &[u8]) -> Result<(), NoMem>
    ensures { OnOk result (Grows table.old table.new (literal (key_of later name.now) ∷ [])) }
{
    put_key(&mut table.bytes, later, name)?;
    Ok(())
}

/// Adds a constant.
fn add_constant(alloc: Global, table: &mut TextRows, constant: &ConstValue) -> Result<(), NoMem>
    requires { IsConstantInOrder constant.now }
    ensures { OnOk result (Grows table.old table.new (literal (constant_text constant.now) ∷ [])) }
{
    put_constant(alloc, &mut table.bytes, constant)?;
    Ok(())
}

/// Adds bytes that are the same in each line.
fn add_bytes(table: &mut TextRows, bytes: &[u8]) -> Result<(), NoMem>
    ensures { OnOk result (Grows table.old table.new (literal bytes.now ∷ [])) }
{
    table.bytes.extend_from_slice(bytes)?;
    Ok(())
}

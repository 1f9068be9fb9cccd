// Builds the table of a block's fields, value by value.
ghost use Rattle.std.specs.Prelude.{◌≡◌, ◌≤◌, ◌+◌, ◌∷◌, [], false, IfOk, OnOk};
ghost use Rattle.std.specs.List.{AllByRecursion};
ghost use Rattle.sbe_types.specs.declared.kind.Kind.{Comp};
ghost use Rattle.sbe_types.specs.declared.schema.Field.{Field};
ghost use Rattle.sbe_types.specs.Places.{width, is_const};
ghost use Rattle.schema_facts.specs.InOrder.{IsKindInOrder};
ghost use Rattle.schema_facts.specs.Measured.{largest, AreNarrowFields};
ghost use Rattle.flat_rows.specs.Scalars.{kind_scalars, scalar_at, scalars_of};
ghost use Rattle.flat_rows.specs.Tables.{scalar_of, stands_for, Grows, IsRow, IsTable};

use crate::bytes::valid_bytes;
use crate::places::{begin_of, end_after, width_of};
use crate::quick::quick_of;
use crate::rows::{FlatRow, FlatRows};
use lists::NoMem;
use sbe_types::{Field, Kind, List, Member};
use std::alloc::Global;

/// The table of the fields of a block. The fields must be valid and end within 1,048,576 bytes. The only error is out
/// of memory.
pub fn flat_rows_of(alloc: Global, fields: &[Field]) -> Result<FlatRows, NoMem>
    requires order { AllByRecursion (λ (f : Field). IsKindInOrder f.kind) fields.now }
    requires narrow { AreNarrowFields 0 fields.now }
    ensures table { IfOk result (λ table. IsTable table) }
    ensures values { IfOk result (λ table. stands_for table ≡ scalars_of fields.now) }
{
    let mut table = FlatRows {
        rows: Vec::new(alloc),
    };
    let mut end = 0;
    for field in fields {
        let past = end_after(end, field.offset, &field.kind);
        let begin = begin_of(end, field.offset);
        add_kind(alloc, &mut table, &field.kind, 0, begin)?;
        end = past;
    }
    Ok(table)
}

/// Adds the values of a kind that begins at an offset of the block.
#[cycle(make)]
fn add_kind(
    alloc: Global,
    table: &mut FlatRows,
    kind: &Kind,
    at: u32,
    begin: u32,
) -> Result<(), NoMem>
    requires order { IsKindInOrder kind.now }
    requires within { is_const kind.now ≡ false → at + begin + width kind.now ≤ largest }
    ensures { OnOk result (Grows table.old table.new (kind_scalars kind.now (at + begin))) }
{
    match kind {
        Kind::Const(_) => Ok(()),
        Kind::Comp(members) => add_members(alloc, table, members, at + begin),
        Kind::Leaf(_) | Kind::Enum(_, _) | Kind::Set(_, _) => {
            add_value(alloc, table, kind, at + begin)
        }
    }
}

/// Adds the values of a composite that begins at an offset of the block.
#[cycle(make)]
fn add_members(
    alloc: Global,
    table: &mut FlatRows,
    members: &List<Member>,
    at: u32,
) -> Result<(), NoMem>
    requires order { IsKindInOrder (Comp members.now) }
    requires within { at + width (Comp members.now) ≤ largest }
    ensures { OnOk result (Grows table.old table.new (kind_scalars (Comp members.now) at)) }
{
    let mut end = 0;
    for member in members.as_slice() {
        let past = end_after(end, member.offset, &member.kind);
        add_kind(alloc, table, &member.kind, at, begin_of(end, member.offset))?;
        end = past;
    }
    Ok(())
}

/// Adds a value of a kind that begins at an offset of the block.
fn add_value(alloc: Global, table: &mut FlatRows, kind: &Kind, at: u32) -> Result<(), NoMem>
    requires order { IsKindInOrder kind.now }
    requires within { at + width kind.now ≤ largest }
    ensures { OnOk result (Grows table.old table.new (scalar_at kind.now at ∷ [])) }
{
    let row = row_of(alloc, kind, at)?;
    table.rows.push(row)?;
    Ok(())
}

/// The row of a value that begins at an offset of the block.
pub fn row_of(alloc: Global, kind: &Kind, at: u32) -> Result<FlatRow, NoMem>
    requires order { IsKindInOrder kind.now }
    requires within { at + width kind.now ≤ largest }
    ensures row { IfOk result (λ row. IsRow row) }
    ensures value { IfOk result (λ row. scalar_of row ≡ scalar_at kind.now at) }
{
    let kept = kind.copy(alloc)?;
    let valid = valid_bytes(alloc, kind)?;
    Ok(FlatRow {
        place: at,
        end: at + width_of(kind),
        quick: quick_of(kind),
        valid,
        kind: kept,
    })
}

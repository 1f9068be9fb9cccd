// The tables are built level by level, in the order of the schema's tree.
ghost use Rattle.std.specs.Prelude.{◌≡◌, true, ℕ, ◌++◌, ◌∷◌, [], length, map, flat_map, None, Some, IfSome, IfOk, MatchOption, OnOk};
ghost use Rattle.std.specs.Option.{option_map};
ghost use Rattle.sbe_types.specs.declared.schema.Level.{out-Level};
ghost use Rattle.sbe_wire.specs.Named.{spot_named, spot_of as spot_in};
ghost use Rattle.schema_facts.specs.Levels.{nodes, nodes_of, nodes_from};
ghost use Rattle.sbe_types.specs.declared.kind.Kind.{Comp};
ghost use Rattle.sbe_types.specs.Places.{is_const};
ghost use Rattle.schema_facts.specs.IsChecked.{IsChecked};
ghost use Rattle.schema_facts.specs.Measured.{AreNarrowFields, IsNarrow, EndsWithin, HasCounter, IsDimension, IsHeader};
ghost use Rattle.layout_tables.specs.Rowed.{as_spot, DimIs, FieldIs, FieldsAre, HeaderIs, IsTwoBytes, SpotIs, newest_of, part_row, roots_from};
ghost use Rattle.layout_compile.specs.inner.Grown.{Grown, LevelIs, Pushed, AreInOrder, AreOrdered};
ghost use Rattle.layout_tables.specs.Tables.{AreTables};

use crate::flats::level_flat;
use crate::numbers::{firsts_of, places_of};
use crate::templates::ids_of;
use flat_rows::{begin_of, end_after, end_of};
use layout_tables::{
    DimRow, FieldRow, HeaderRow, Layout, LevelRow, PartRow, SpotRow, Tables, floor_of, of_tables,
};
use sbe_types::{DataField, Field, Group, Kind, Level, List, Member, NoMem, Prim, WireSchema};
use schema_check::Checked;
use std::alloc::Global;

/// Builds the layout of a checked schema: the offset and width of each of its parts. The only error is out of memory.
pub fn compile(alloc: Global, checked: &Checked) -> Result<Layout, NoMem>
    ensures { IfOk result (λ layout. layout ≡ checked.now) }
{
    let schema = checked.schema().copy(alloc)?;
    let tables = tables_of(alloc, &schema)?;
    Ok(of_tables(schema, tables))
}

/// The tables of a checked schema.
fn tables_of(alloc: Global, schema: &WireSchema) -> Result<Tables, NoMem>
    requires { IsChecked schema.now }
    ensures { IfOk result (λ tables. AreTables schema.now tables) }
{
    let header = header_row(&schema.header.members);
    let mut levels = Vec::new(alloc);
    let roots = push_roots(alloc, &mut levels, schema.messages.as_slice())?;
    let ids = ids_of(alloc, schema.messages.as_slice())?;
    let firsts = firsts_of(alloc, levels.as_slice())?;
    let places = places_of(alloc, levels.as_slice())?;
    Ok(Tables {
        header,
        levels,
        roots,
        ids,
        firsts,
        places,
    })
}

/// The row of the header.
fn header_row(members: &List<Member>) -> HeaderRow
    requires { IsHeader members.now }
    ensures { HeaderIs result members.now }
{
    let block = counter_of(members, b"blockLength");
    let template = counter_of(members, b"templateId");
    let schema = counter_of(members, b"schemaId");
    let version = counter_of(members, b"version");
    let is_usual = are_usual(&block, &template, &schema, &version);
    HeaderRow {
        width: end_of(members),
        block,
        template,
        schema,
        version,
        is_usual,
    }
}

/// Whether the four numbers of a header have two bytes each and follow one another.
fn are_usual(block: &SpotRow, template: &SpotRow, schema: &SpotRow, version: &SpotRow) -> bool
    ensures block { result ≡ true → IsTwoBytes 0 block.now }
    ensures template { result ≡ true → IsTwoBytes 2 template.now }
    ensures schema { result ≡ true → IsTwoBytes 4 schema.now }
    ensures version { result ≡ true → IsTwoBytes 6 version.now }
{
    is_two_bytes(block, 0)
        && is_two_bytes(template, 2)
        && is_two_bytes(schema, 4)
        && is_two_bytes(version, 6)
}

/// Whether a number is at this offset and has two bytes.
fn is_two_bytes(spot: &SpotRow, place: u32) -> bool
    ensures { result ≡ true → IsTwoBytes place spot.now }
{
    match spot.leaf.prim {
        Prim::U16 => spot.place == place,
        Prim::Char
        | Prim::I8
        | Prim::I16
        | Prim::I32
        | Prim::I64
        | Prim::U8
        | Prim::U32
        | Prim::U64 => false,
    }
}

/// The row of a dimension.
fn dim_row(dim: &List<Member>) -> DimRow
    requires { IsDimension dim.now }
    ensures { DimIs result dim.now }
{
    DimRow {
        width: end_of(dim),
        block: counter_of(dim, b"blockLength"),
        count: counter_of(dim, b"numInGroup"),
    }
}

/// The number with this name, which the members have.
#[tactic(auto, using(crate::proofs::Counters::counter_is, crate::proofs::Counters::counter_there))]
fn counter_of(members: &List<Member>, name: &[u8]) -> SpotRow
    requires narrow { IsNarrow (Comp members.now) }
    requires has { HasCounter members.now name.now }
    ensures { SpotIs members.now name.now result }
{
    match spot_of(members, name) {
        Some(spot) => spot,
        None => unreachable!(),
    }
}

/// The number with this name, if the members have it.
fn spot_of(members: &List<Member>, name: &[u8]) -> Option<SpotRow>
    requires { IsNarrow (Comp members.now) }
    ensures { option_map as_spot result ≡ spot_named 0 name.now members.now }
{
    match kind_of(members, name) {
        Some((place, kind)) => number_at(place, kind),
        None => None,
    }
}

/// The offset and the kind of the first member with this name.
fn kind_of<'a>(members: &'a List<Member>, name: &[u8]) -> Option<(u32, &'a Kind)>
    requires { IsNarrow (Comp members.now) }
    ensures { MatchOption result (spot_named 0 name.now members.now ≡ None) (λ found. spot_named 0 name.now members.now ≡ spot_in found.0 found.1.now) }
{
    let mut end = 0;
    for member in members.as_slice() {
        if member.name.as_slice() == name {
            return Some((begin_of(end, member.offset), &member.kind));
        }
        end = end_after(end, member.offset, &member.kind);
    }
    None
}

fn number_at(place: u32, kind: &Kind) -> Option<SpotRow>
    ensures { option_map as_spot result ≡ spot_in place kind.now }
{
    match kind {
        Kind::Leaf(leaf) => Some(SpotRow { place, leaf: *leaf }),
        Kind::Enum(_, _) | Kind::Set(_, _) | Kind::Comp(_) | Kind::Const(_) => None,
    }
}

/// The rows of a level's fields.
fn field_rows(alloc: Global, fields: &[Field]) -> Result<Vec<FieldRow>, NoMem>
    requires { AreNarrowFields 0 fields.now }
    ensures { IfOk result (λ rows. FieldsAre 0 fields.now rows.items) }
{
    let mut rows = Vec::new(alloc);
    let mut end = 0;
    for field in fields {
        let row = field_row(end, field);
        end = row.end;
        rows.push(row)?;
    }
    Ok(rows)
}

fn field_row(end: u32, field: &Field) -> FieldRow
    requires narrow { IsNarrow field.now.kind }
    requires within { EndsWithin end field.now.offset field.now.kind }
    ensures { FieldIs end field.now result }
{
    FieldRow {
        since: field.since,
        place: begin_of(end, field.offset),
        end: end_after(end, field.offset, &field.kind),
        is_constant: is_constant(&field.kind),
    }
}

/// Whether the kind is a constant, which takes no bytes.
fn is_constant(kind: &Kind) -> bool
    ensures { result ≡ is_const kind.now }
{
    match kind {
        Kind::Const(_) => true,
        Kind::Leaf(_) | Kind::Enum(_, _) | Kind::Set(_, _) | Kind::Comp(_) => false,
    }
}

/// The greatest version at which a field first exists.
fn newest_of(fields: &[Field]) -> u32
    ensures { result ≡ newest_of fields.now }
{
    let mut newest = 0u32;
    for field in fields {
        newest = newest.max(field.since);
    }
    newest
}

/// The rows of a level's data parts.
fn part_rows(alloc: Global, parts: &[DataField]) -> Result<Vec<PartRow>, NoMem>
    ensures { IfOk result (λ rows. rows.items ≡ map part_row parts.now) }
{
    let mut rows = Vec::new(alloc);
    for part in parts {
        rows.push(PartRow {
            since: part.since,
            length: part.length,
        })?;
    }
    Ok(rows)
}

/// How many levels there are, including this one and those of its groups, or `None` if the count overflows.
#[cycle(count)]
fn count_level(level: &Level) -> Option<usize>
    ensures { IfSome result (λ n. (t : ℕ) → n ≡ length (nodes t None level.now)) }
{
    let Some(below) = count_below(level.groups.as_slice()) else {
        return None;
    };
    if below == usize::MAX {
        return None;
    }
    Some(below + 1)
}

#[cycle(count)]
fn count_below(groups: &[Group]) -> Option<usize>
    ensures { IfSome result (λ n. (t : ℕ) → n ≡ length (flat_map (nodes_of t) groups.now)) }
{
    let mut many = 0usize;
    for group in groups {
        let Some(below) = count_level(&group.level) else {
            return None;
        };
        if below > usize::MAX - many {
            return None;
        }
        many += below;
    }
    Some(many)
}

/// What surrounds a level: its message, and the dimension before its entries.
#[derive(Clone, Copy)]
struct Around {
    template: usize,
    dim: Option<DimRow>,
}

/// The row of level `n`.
#[tactic(auto, using(crate::proofs::Grows::floor_row))]
fn level_row(alloc: Global, around: Around, n: usize, level: &Level) -> Result<LevelRow, NoMem>
    requires narrow { AreNarrowFields 0 (out-Level level.now).fields }
    requires order { AreInOrder (out-Level level.now).fields }
    ensures { IfOk result (λ row. LevelIs around n level.now row) }
{
    let fields = field_rows(alloc, level.fields.as_slice())?;
    let parts = part_rows(alloc, level.parts.as_slice())?;
    let flat = level_flat(alloc, level)?;
    let Some(many) = count_level(level) else {
        return Err(NoMem);
    };
    if many > usize::MAX - n {
        return Err(NoMem);
    }
    let newest = newest_of(level.fields.as_slice());
    let floor = floor_of(newest, fields.as_slice());
    Ok(LevelRow {
        template: around.template,
        since: level.since,
        block: level.block_length,
        newest,
        floor,
        groups: level.groups.len(),
        end: n + many,
        dim: around.dim,
        fields,
        parts,
        flat,
    })
}

/// Adds the row of a level, and then those of its groups.
#[cycle(push)]
fn push_level(
    alloc: Global,
    levels: &mut Vec<LevelRow>,
    around: Around,
    level: &Level,
) -> Result<(), NoMem>
    requires fields { AreNarrowFields 0 (out-Level level.now).fields }
    requires order { AreInOrder (out-Level level.now).fields }
    requires below { AreOrdered (flat_map (nodes_of around.template) (out-Level level.now).groups) }
    ensures { OnOk result (Pushed around levels.old.items levels.new.items level.now) }
{
    let row = level_row(alloc, around, levels.len(), level)?;
    levels.push(row)?;
    push_below(alloc, levels, around.template, level.groups.as_slice())?;
    Ok(())
}

/// Adds the rows of groups, one after another.
#[cycle(push)]
fn push_below(
    alloc: Global,
    levels: &mut Vec<LevelRow>,
    template: usize,
    groups: &[Group],
) -> Result<(), NoMem>
    requires { AreOrdered (flat_map (nodes_of template) groups.now) }
    ensures { OnOk result (Grown levels.old.items levels.new.items (flat_map (nodes_of template) groups.now)) }
{
    for group in groups {
        let around = Around {
            template,
            dim: Some(dim_row(&group.dim)),
        };
        push_level(alloc, levels, around, &group.level)?;
    }
    Ok(())
}

/// Adds the rows of all messages, and returns the numbers of their roots.
fn push_roots(
    alloc: Global,
    levels: &mut Vec<LevelRow>,
    messages: &[Level],
) -> Result<Vec<usize>, NoMem>
    requires { AreOrdered (nodes_from 0 messages.now) }
    ensures rows { OnOk result (Grown levels.old.items levels.new.items (nodes_from 0 messages.now)) }
    ensures roots { IfOk result (λ roots. roots.items ≡ roots_from (length levels.old.items) 0 messages.now) }
{
    let mut roots = Vec::new(alloc);
    for (template, level) in messages.iter().enumerate() {
        roots.push(levels.len())?;
        let around = Around {
            template,
            dim: None,
        };
        push_level(alloc, levels, around, level)?;
    }
    Ok(roots)
}

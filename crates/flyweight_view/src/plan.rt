// The blocks of a body: where they are, and what the schema says about them.
ghost use Rattle.std.specs.Prelude.{◌≡◌, ◌<◌, ◌≤◌, ◌+◌, true, false, if◌then◌else◌, [], length, map, slice_get, take, drop, Some};
ghost use Rattle.std.specs.Option.{option_map};
ghost use Rattle.sbe_types.specs.declared.schema.Field.{Field};
ghost use Rattle.sbe_types.specs.declared.schema.Level.{out-Level};
ghost use Rattle.sbe_types.specs.Places.{width, is_const, field_place};
ghost use Rattle.sbe_wire.specs.Versions.{floor, is_alive};
ghost use Rattle.schema_facts.specs.CheckedLevels.{group_name};
ghost use Rattle.body_walk.specs.inner.Fields.{IsFieldRow};
ghost use Rattle.flyweight_view.specs.inner.Planned.{bytes_of, fields_of, groups_of, parts_of, IsPlannedBlock, IsMembersPlan};
ghost use Rattle.body_walk.specs.inner.Layers.{HasLevel};
ghost use Rattle.flyweight_view.specs.TypedBlocks.{member_field};
ghost use Rattle.flyweight_view.specs.inner.Slots.{SlotIs};

use flat_rows::width_of;
use layout_tables::{FieldRow, Layout, member_place};
use sbe_types::{Field, Kind, Level, List, Member};
use sbe_wire::Mode;

/// Where a block is in a body, and how its values are read.
#[derive(Clone, Copy)]
pub(crate) struct Span<'a> {
    pub(crate) mode: Mode,
    pub(crate) body: &'a [u8],
    pub(crate) at: usize,
    pub(crate) size: usize,
}

/// What the schema says about a block.
#[derive(Clone, Copy)]
pub(crate) enum Plan<'a> {
    /// It is a block of the level with this number.
    Level(&'a Layout, usize, &'a Level),
    /// It consists of the members of a composite.
    Members(&'a List<Member>),
}

/// A field of a block: whether the version has it, its kind and its bytes. A constant has none.
#[derive(Clone, Copy)]
pub(crate) struct Slot<'a> {
    pub(crate) alive: bool,
    pub(crate) kind: &'a Kind,
    pub(crate) bytes: &'a [u8],
}

/// How many fields a block has.
#[inline(always)]
pub(crate) fn count_fields(plan: &Plan<'_>) -> usize
    ensures { result ≡ length (fields_of plan.now) }
{
    match *plan {
        Plan::Level(_, _, level) => level.fields.len(),
        Plan::Members(members) => members.len(),
    }
}

/// How many groups a block has.
#[inline(always)]
pub(crate) fn count_groups(plan: &Plan<'_>) -> usize
    ensures { result ≡ length (groups_of plan.now) }
{
    match *plan {
        Plan::Level(_, _, level) => level.groups.len(),
        Plan::Members(_) => 0,
    }
}

/// How many data parts a block has.
#[inline(always)]
pub(crate) fn count_parts(plan: &Plan<'_>) -> usize
    ensures { result ≡ length (parts_of plan.now) }
{
    match *plan {
        Plan::Level(_, _, level) => level.parts.len(),
        Plan::Members(_) => 0,
    }
}

/// Field `i` of a block.
#[inline(always)]
pub(crate) fn slot_of<'a>(span: &Span<'a>, plan: &Plan<'a>, i: usize) -> Slot<'a>
    requires seen { IsPlannedBlock span.now plan.now }
    requires field { i < length (fields_of plan.now) }
    ensures { SlotIs span.now (fields_of plan.now) i result }
{
    match *plan {
        Plan::Level(layout, number, level) => level_slot(span, layout, number, level, i),
        Plan::Members(members) => member_slot(span, members, i),
    }
}

/// Field `i` of a level's block.
#[inline(always)]
fn level_slot<'a>(
    span: &Span<'a>,
    layout: &Layout,
    number: usize,
    level: &'a Level,
    i: usize,
) -> Slot<'a>
    requires plan { HasLevel layout.now number level.now }
    requires reaches { floor span.now.mode.version (out-Level level.now).fields ≤ span.now.size }
    requires near { span.now.at + span.now.size ≤ length span.now.body.now }
    requires field { i < length (out-Level level.now).fields }
    ensures { SlotIs span.now (out-Level level.now).fields i result }
{
    let field = level.fields.at(i);
    let row = field_row(span, layout, number, level, i);
    row_slot(span, field, row)
}

/// The row of field `i` of a level.
#[inline(always)]
fn field_row<'a>(
    span: &Span<'_>,
    layout: &'a Layout,
    number: usize,
    level: &Level,
    i: usize,
) -> &'a FieldRow
    requires plan { HasLevel layout.now number level.now }
    requires reaches { floor span.now.mode.version (out-Level level.now).fields ≤ span.now.size }
    requires field { i < length (out-Level level.now).fields }
    ensures row { (f : Field) → slice_get (out-Level level.now).fields i ≡ Some f → IsFieldRow span.now.mode.version span.now.size f result.now }
    ensures place { (f : Field) → slice_get (out-Level level.now).fields i ≡ Some f → is_const f.kind ≡ false → field_place 0 (out-Level level.now).fields i ≡ Some result.now.place }
{
    let row = layout.row(number);
    &row.fields[i]
}

/// A field of a block, given its row.
#[inline(always)]
fn row_slot<'a>(span: &Span<'a>, field: &'a Field, row: &FieldRow) -> Slot<'a>
    requires row { IsFieldRow span.now.mode.version span.now.size field.now row.now }
    requires near { span.now.at + span.now.size ≤ length span.now.body.now }
    ensures kind { result.kind.now ≡ field.now.kind }
    ensures alive { result.alive ≡ is_alive span.now.mode.version field.now.since }
    ensures bytes { result.alive ≡ true → result.bytes.now ≡ (if is_const field.now.kind then [] else take (width field.now.kind) (drop row.now.place (bytes_of span.now))) }
{
    if row.since > span.mode.version {
        return bare_slot(false, &field.kind);
    }
    if row.is_constant {
        return bare_slot(true, &field.kind);
    }
    let block = &span.body[span.at..span.at + span.size];
    Slot {
        alive: true,
        kind: &field.kind,
        bytes: &block[row.place as usize..row.end as usize],
    }
}

/// A field without bytes.
#[inline(always)]
fn bare_slot(alive: bool, kind: &Kind) -> Slot<'_>
    ensures kind { result.kind.now ≡ kind.now }
    ensures alive { result.alive ≡ alive }
    ensures bytes { result.bytes.now ≡ [] }
{
    Slot {
        alive,
        kind,
        bytes: &[],
    }
}

/// Member `i` of a composite.
fn member_slot<'a>(span: &Span<'a>, members: &'a List<Member>, i: usize) -> Slot<'a>
    requires plan { IsMembersPlan members.now span.now.size }
    requires near { span.now.at + span.now.size ≤ length span.now.body.now }
    requires field { i < length members.now }
    ensures { SlotIs span.now (map member_field members.now) i result }
{
    let member = members.at(i);
    if is_constant(&member.kind) {
        return bare_slot(true, &member.kind);
    }
    let begin = member_place(members, i) as usize;
    let wide = width_of(&member.kind) as usize;
    let block = &span.body[span.at..span.at + span.size];
    Slot {
        alive: true,
        kind: &member.kind,
        bytes: &block[begin..begin + wide],
    }
}

/// Whether a kind is a constant.
fn is_constant(kind: &Kind) -> bool
    ensures { result ≡ is_const kind.now }
{
    match kind {
        Kind::Const(_) => true,
        Kind::Leaf(_) | Kind::Enum(_, _) | Kind::Set(_, _) | Kind::Comp(_) => false,
    }
}

/// The name of field `i` of a block.
#[inline(always)]
pub(crate) fn name_of<'a>(plan: &Plan<'a>, i: usize) -> &'a [u8]
    requires { i < length (fields_of plan.now) }
    ensures { option_map (λ f. f.name) (slice_get (fields_of plan.now) i) ≡ Some result.now }
{
    match *plan {
        Plan::Level(_, _, level) => level.fields.at(i).name.as_slice(),
        Plan::Members(members) => members.at(i).name.as_slice(),
    }
}

/// The kind of field `i` of a block.
pub(crate) fn kind_of<'a>(plan: &Plan<'a>, i: usize) -> &'a Kind
    requires { i < length (fields_of plan.now) }
    ensures { option_map (λ f. f.kind) (slice_get (fields_of plan.now) i) ≡ Some result.now }
{
    match *plan {
        Plan::Level(_, _, level) => &level.fields.at(i).kind,
        Plan::Members(members) => &members.at(i).kind,
    }
}

/// The name of group `i` of a block.
pub(crate) fn name_of_group<'a>(plan: &Plan<'a>, i: usize) -> &'a [u8]
    requires { i < length (groups_of plan.now) }
    ensures { option_map group_name (slice_get (groups_of plan.now) i) ≡ Some result.now }
{
    match *plan {
        Plan::Level(_, _, level) => level_name(&level.groups.at(i).level),
        Plan::Members(_) => unreachable!(),
    }
}

/// The name of a level.
fn level_name(level: &Level) -> &[u8]
    ensures { result.now ≡ (out-Level level.now).name }
{
    level.name.as_slice()
}

/// The name of data part `i` of a block.
pub(crate) fn name_of_data<'a>(plan: &Plan<'a>, i: usize) -> &'a [u8]
    requires { i < length (parts_of plan.now) }
    ensures { option_map (λ d. d.name) (slice_get (parts_of plan.now) i) ≡ Some result.now }
{
    match *plan {
        Plan::Level(_, _, level) => level.parts.at(i).name.as_slice(),
        Plan::Members(_) => unreachable!(),
    }
}

ghost use Rattle.std.specs.Prelude.{◌≡◌, ℕ, List, None, Some, map, IfOk, option_copied, option_and_then, slice_get};
ghost use Rattle.schema_rules.specs.Kinds.{Use, unresolved, member_name, member_offset};
ghost use Rattle.std.specs.Option.{option_or};
ghost use Rattle.sbe_types.specs.declared.kind.Kind.{Comp};
ghost use Rattle.schema_rules.specs.Names.{place_of, plain_named, type_named};
ghost use Rattle.schema_rules.specs.Kinds.{as_declared, code_of, text_value, constant_of, type_over, type_kind, enum_over, enum_in, enum_kind, set_in, set_kind, made_optional, first_optional, composite_with, member_kind, members_of, item_kind, plain_kind, with_presence, use_of, found_kind};
ghost use Rattle.type_kinds.specs.Tables.{table_kind, kind_round};

use lists::{List, NoMem, Text};
use sbe_types::{
    ConstValue, EnumEl, FieldEl, Kind, Leaf, Member, MemberItem, MemberList, Presence, Prim, SetEl,
    TypeEl, TypesItem, ValueRef,
};
use schema_rules::Encoding;
use std::alloc::Global;
use type_facts::{
    Types, choices, effective, encoding_named, integral, leaf_of, member_name, number_in,
    offset_of, referred, valid_value, valid_values,
};

/// The kinds of the declared types, in their order.
pub type Kinds = List<Kind>;

/// The kind of a field: that of its type, overridden by its own presence and valueRef.
pub fn field_kind(
    alloc: Global,
    types: &Types,
    table: &Kinds,
    field: &FieldEl,
) -> Result<Kind, NoMem>
    ensures { IfOk result (λ kind. kind ≡ found_kind types.now (table_kind types.now table.now) (use_of field.now) (type_named types.now field.now.type_name)) }
{
    match types.named(field.type_name.as_slice()) {
        Some(TypesItem::Type(t)) => type_kind(alloc, types, field.presence, &field.value_ref, t),
        Some(TypesItem::Enum(e)) => enum_kind(alloc, types, field.presence, &field.value_ref, e),
        Some(TypesItem::Set(s)) => set_kind(alloc, types, s),
        Some(TypesItem::Composite(c)) => {
            let members = members_of(alloc, types, table, c.children.as_slice())?;
            composite_with(alloc, field.presence, members)
        }
        None => Ok(unresolved()),
    }
}

/// A placeholder where no kind is known. An accepted schema has none.
fn unresolved() -> Kind
    ensures { result ≡ unresolved }
{
    Kind::Const(ConstValue::Num(0))
}

/// The kind of a `type`, overridden by this presence and valueRef.
fn type_kind(
    alloc: Global,
    types: &Types,
    presence: Option<Presence>,
    value_ref: &Option<ValueRef>,
    t: &TypeEl,
) -> Result<Kind, NoMem>
    ensures { IfOk result (λ kind. kind ≡ type_kind types.now (record { presence = presence; value_ref = value_ref.now }) t.now) }
{
    match integral(t.primitive_type) {
        Some(prim) => match effective(presence, t.presence) {
            Presence::Constant => Ok(Kind::Const(constant_of(alloc, types, prim, t, value_ref)?)),
            Presence::Required => Ok(Kind::Leaf(leaf_of(prim, Presence::Required, t))),
            Presence::Optional => Ok(Kind::Leaf(leaf_of(prim, Presence::Optional, t))),
        },
        None => Ok(unresolved()),
    }
}

/// The value of a constant: that of the field's valueRef, else of the type's, else the type's text.
fn constant_of(
    alloc: Global,
    types: &Types,
    prim: Prim,
    t: &TypeEl,
    value_ref: &Option<ValueRef>,
) -> Result<ConstValue, NoMem>
    ensures { IfOk result (λ value. value ≡ constant_of types.now prim t.now (option_or value_ref.now t.now.value_ref)) }
{
    match value_ref {
        Some(value_ref) => code_named(alloc, types, value_ref),
        None => match &t.value_ref {
            Some(value_ref) => code_named(alloc, types, value_ref),
            None => text_value(alloc, prim, &t.text),
        },
    }
}

/// The valid value that a valueRef refers to, with the encoding of its enum.
fn code_named(alloc: Global, types: &Types, value_ref: &ValueRef) -> Result<ConstValue, NoMem>
    ensures { IfOk result (λ value. value ≡ code_of types.now (Some value_ref.now)) }
{
    match referred(types, value_ref) {
        Some((e, value)) => match encoding_named(types, e.encoding_type.as_slice()) {
            Some(encoding) => Ok(ConstValue::Code(
                encoding.leaf.prim,
                valid_value(alloc, encoding.leaf.prim, value)?,
            )),
            None => Ok(ConstValue::Num(0)),
        },
        None => Ok(ConstValue::Num(0)),
    }
}

fn text_value(alloc: Global, prim: Prim, text: &Option<Text>) -> Result<ConstValue, NoMem>
    ensures { IfOk result (λ value. value ≡ text_value prim text.now) }
{
    match text {
        Some(text) => {
            if prim == Prim::Char {
                Ok(ConstValue::Text(List::from_slice(alloc, text.as_slice())?))
            } else {
                Ok(ConstValue::Num(number_in(prim, text.as_slice()).unwrap_or(0)))
            }
        }
        None => Ok(ConstValue::Num(0)),
    }
}

/// The kind of an enum, overridden by this presence. A constant one has the value of its valueRef.
fn enum_kind(
    alloc: Global,
    types: &Types,
    presence: Option<Presence>,
    value_ref: &Option<ValueRef>,
    e: &EnumEl,
) -> Result<Kind, NoMem>
    ensures { IfOk result (λ kind. kind ≡ enum_kind types.now (record { presence = presence; value_ref = value_ref.now }) e.now) }
{
    match encoding_named(types, e.encoding_type.as_slice()) {
        Some(encoding) => enum_over(
            alloc,
            types,
            value_ref,
            e,
            encoding,
            effective(presence, encoding.presence),
        ),
        None => Ok(unresolved()),
    }
}

fn enum_over(
    alloc: Global,
    types: &Types,
    value_ref: &Option<ValueRef>,
    e: &EnumEl,
    encoding: Encoding,
    presence: Presence,
) -> Result<Kind, NoMem>
    ensures { (own : Use) → own.value_ref ≡ value_ref.now → IfOk result (λ kind. kind ≡ enum_over types.now own e.now encoding presence) }
{
    match presence {
        Presence::Constant => Ok(Kind::Const(code_of(alloc, types, value_ref)?)),
        Presence::Required => Ok(Kind::Enum(
            encoding.leaf,
            valid_values(alloc, encoding.leaf.prim, e.children.as_slice())?,
        )),
        Presence::Optional => Ok(Kind::Enum(
            with_presence(Presence::Optional, encoding.leaf),
            valid_values(alloc, encoding.leaf.prim, e.children.as_slice())?,
        )),
    }
}

fn code_of(alloc: Global, types: &Types, value_ref: &Option<ValueRef>) -> Result<ConstValue, NoMem>
    ensures { IfOk result (λ value. value ≡ code_of types.now value_ref.now) }
{
    match value_ref {
        Some(value_ref) => code_named(alloc, types, value_ref),
        None => Ok(ConstValue::Num(0)),
    }
}

fn with_presence(presence: Presence, leaf: Leaf) -> Leaf
    ensures { result ≡ with_presence presence leaf }
{
    Leaf { presence, ..leaf }
}

/// The kind of a set.
fn set_kind(alloc: Global, types: &Types, s: &SetEl) -> Result<Kind, NoMem>
    ensures { IfOk result (λ kind. kind ≡ set_kind types.now s.now) }
{
    match encoding_named(types, s.encoding_type.as_slice()) {
        Some(encoding) => Ok(Kind::Set(
            encoding.leaf.prim,
            choices(alloc, encoding.leaf.prim, s.children.as_slice())?,
        )),
        None => Ok(unresolved()),
    }
}

/// A composite with the presence of its field: if that is optional, its first leaf is optional.
fn composite_with(
    alloc: Global,
    presence: Option<Presence>,
    members: MemberList,
) -> Result<Kind, NoMem>
    ensures { IfOk result (λ kind. kind ≡ composite_with presence members) }
{
    match presence {
        Some(Presence::Optional) => Ok(Kind::Comp(first_optional(alloc, members.as_slice())?)),
        Some(Presence::Required) | Some(Presence::Constant) | None => Ok(Kind::Comp(members)),
    }
}

fn first_optional(alloc: Global, members: &[Member]) -> Result<MemberList, NoMem>
    ensures { IfOk result (λ made. made ≡ first_optional members.now) }
{
    let mut made = List::new(alloc);
    for (i, member) in members.iter().enumerate() {
        if i == 0 {
            made.push(optional_member(alloc, member)?)?;
        } else {
            made.push(member.copy(alloc)?)?;
        }
    }
    Ok(made)
}

fn optional_member(alloc: Global, member: &Member) -> Result<Member, NoMem>
    ensures { IfOk result (λ made. made ≡ record { name = member.now.name; offset = member.now.offset; kind = made_optional member.now.kind }) }
{
    Ok(Member {
        name: List::from_slice(alloc, member.name.as_slice())?,
        offset: member.offset,
        kind: made_optional(alloc, &member.kind)?,
    })
}

fn made_optional(alloc: Global, kind: &Kind) -> Result<Kind, NoMem>
    ensures { IfOk result (λ made. made ≡ made_optional kind.now) }
{
    match kind {
        Kind::Leaf(leaf) => Ok(Kind::Leaf(with_presence(Presence::Optional, *leaf))),
        Kind::Enum(_, _) | Kind::Set(_, _) | Kind::Comp(_) | Kind::Const(_) => kind.copy(alloc),
    }
}

/// The kind of a member, given a table of those of the declared types.
#[cycle(kinds)]
fn member_kind(
    alloc: Global,
    types: &Types,
    table: &Kinds,
    member: &MemberItem,
) -> Result<Kind, NoMem>
    ensures { IfOk result (λ kind. kind ≡ member_kind types.now (table_kind types.now table.now) member.now) }
{
    match member {
        MemberItem::Type(t) => declared_type(alloc, types, t),
        MemberItem::Enum(e) => declared_enum(alloc, types, e),
        MemberItem::Set(s) => set_kind(alloc, types, s),
        MemberItem::Ref(r) => kind_in(alloc, types, table, r.type_name.as_slice()),
        MemberItem::Composite(c) => composite_of(alloc, types, table, c.children.as_slice()),
    }
}

#[cycle(kinds)]
fn composite_of(
    alloc: Global,
    types: &Types,
    table: &Kinds,
    members: &[MemberItem],
) -> Result<Kind, NoMem>
    ensures { IfOk result (λ kind. kind ≡ Comp (members_of types.now (table_kind types.now table.now) members.now)) }
{
    Ok(Kind::Comp(members_of(alloc, types, table, members)?))
}

/// The members of a composite with their kinds, given a table of those of the declared types.
#[cycle(kinds)]
pub fn members_of(
    alloc: Global,
    types: &Types,
    table: &Kinds,
    members: &[MemberItem],
) -> Result<MemberList, NoMem>
    ensures { IfOk result (λ made. made ≡ members_of types.now (table_kind types.now table.now) members.now) }
{
    let mut made = List::new(alloc);
    for member in members {
        made.push(member_of(alloc, types, table, member)?)?;
    }
    Ok(made)
}

#[cycle(kinds)]
fn member_of(
    alloc: Global,
    types: &Types,
    table: &Kinds,
    member: &MemberItem,
) -> Result<Member, NoMem>
    ensures { IfOk result (λ made. made ≡ record { name = member_name member.now; offset = member_offset member.now; kind = member_kind types.now (table_kind types.now table.now) member.now }) }
{
    Ok(Member {
        name: List::from_slice(alloc, member_name(member))?,
        offset: offset_of(member),
        kind: member_kind(alloc, types, table, member)?,
    })
}

/// The kind of a `type` that is declared or is a member.
fn declared_type(alloc: Global, types: &Types, t: &TypeEl) -> Result<Kind, NoMem>
    ensures { IfOk result (λ kind. kind ≡ type_kind types.now as_declared t.now) }
{
    let none: Option<ValueRef> = None;
    type_kind(alloc, types, None, &none, t)
}

fn declared_enum(alloc: Global, types: &Types, e: &EnumEl) -> Result<Kind, NoMem>
    ensures { IfOk result (λ kind. kind ≡ enum_kind types.now as_declared e.now) }
{
    let none: Option<ValueRef> = None;
    enum_kind(alloc, types, None, &none, e)
}

/// The kind that a name stands for, given a table of those of the declared types.
fn kind_in(alloc: Global, types: &Types, table: &Kinds, name: &[u8]) -> Result<Kind, NoMem>
    ensures { IfOk result (λ kind. kind ≡ table_kind types.now table.now name.now) }
{
    match declared_kind(types, table, name) {
        Some(kind) => kind.copy(alloc),
        None => plain_kind(alloc, types, name),
    }
}

fn declared_kind<'a>(types: &Types, table: &'a Kinds, name: &[u8]) -> Option<&'a Kind>
    ensures { option_copied result ≡ option_and_then (slice_get table.now) (place_of name.now types.now) }
{
    match types.place(name) {
        Some(i) => table.as_slice().get(i),
        None => None,
    }
}

fn plain_kind(alloc: Global, types: &Types, name: &[u8]) -> Result<Kind, NoMem>
    ensures { IfOk result (λ kind. kind ≡ plain_kind types.now (plain_named name.now)) }
{
    match types.plain_named(name) {
        Some(TypesItem::Type(t)) => declared_type(alloc, types, t),
        _ => Ok(unresolved()),
    }
}

fn item_kind(alloc: Global, types: &Types, table: &Kinds, item: &TypesItem) -> Result<Kind, NoMem>
    ensures { IfOk result (λ kind. kind ≡ item_kind types.now (table_kind types.now table.now) as_declared item.now) }
{
    match item {
        TypesItem::Type(t) => declared_type(alloc, types, t),
        TypesItem::Enum(e) => declared_enum(alloc, types, e),
        TypesItem::Set(s) => set_kind(alloc, types, s),
        TypesItem::Composite(c) => composite_of(alloc, types, table, c.children.as_slice()),
    }
}

/// The table for one more name.
fn next_round(alloc: Global, types: &Types, table: &Kinds) -> Result<Kinds, NoMem>
    ensures { IfOk result (λ next. next ≡ map (item_kind types.now (table_kind types.now table.now) as_declared) types.now) }
{
    let mut next = List::new(alloc);
    for item in types.as_slice() {
        next.push(item_kind(alloc, types, table, item)?)?;
    }
    Ok(next)
}

/// The kind of each declared type, through as many names as an accepted schema nests.
pub fn find_kinds(alloc: Global, types: &Types) -> Result<Kinds, NoMem>
    ensures { IfOk result (λ table. table ≡ kind_round 4 types.now) }
{
    let mut table = List::new(alloc);
    'blank: for _ in types.as_slice() {
        table.push(unresolved())?;
    }
    'rounds: for done in 0..4u32 {
        table = next_round(alloc, types, &table)?;
    }
    Ok(table)
}

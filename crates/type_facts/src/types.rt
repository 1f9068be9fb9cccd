ghost use Rattle.std.specs.Prelude.{◌≡◌, ℕ, List, IfOk, option_copied, find};
ghost use Rattle.std.specs.Str.{bytes_eq};
ghost use Rattle.std.specs.HashMap.{get_by};
ghost use Rattle.sbe_types.specs.declared.tree.TypesItem.TheVariants as item;
ghost use Rattle.schema_rules.specs.Names.{name_of, place_of, declared_as, type_named, plain_type, plain_types, plain_named};

use indexmap::IndexMap;
use lists::{List, NoMem};
use sbe_types::{Prim, PrimitiveType, TypeEl, TypesItem};
use std::alloc::Global;
use std::marker::Model;

/// The declared types of a schema, found by name.
#[derive(Drop)]
pub struct Types {
    declared: Vec<TypesItem>,
    /// For each name, the index of the first declared type that has it.
    places: IndexMap<Vec<u8>, usize>,
    /// The types that the names of primitives stand for.
    plain: Vec<TypesItem>,
}

impl Model for Types {
    ghost use Rattle.std.specs.Prelude.{◌≡◌, ℕ, List};
    ghost use Rattle.std.specs.Str.{bytes_eq};
    ghost use Rattle.std.specs.HashMap.{get_by};
    ghost use Rattle.sbe_types.specs.declared.tree.TypesItem.{TypesItem};
    ghost use Rattle.sbe_types.specs.contracts.tree.MemberItem as member;
    ghost use Rattle.std.specs.Coded.{codes};
    ghost use Rattle.schema_rules.specs.Names.{place_of, plain_types};

    ghost Value = { List TypesItem };

    ghost coded = { Prim.hlevel (codes, member.the_row.coded) };

    ghost view = { λ types. types.declared.items };

    ghost invariant = { λ types. ((name : List ℕ) → get_by (λ key. bytes_eq name key.items) types.places ≡ place_of name types.declared.items) × (types.plain.items ≡ plain_types) };
}

impl Types {
    /// Creates the table of these types, in their order.
    pub fn new(alloc: Global, declared: Vec<TypesItem>) -> Result<Types, NoMem>
        ensures { IfOk result (λ types. types ≡ declared.items) }
    {
        let places = places_of(alloc, declared.as_slice())?;
        let plain = plain_types(alloc)?;
        Ok(Types {
            declared,
            places,
            plain,
        })
    }

    /// The index of the first declared type with this name.
    pub fn place(&self, name: &[u8]) -> Option<usize>
        ensures { result ≡ place_of name.now self.now }
    {
        self.places.get(name).copied()
    }

    /// The first declared type with this name.
    pub fn declared(&self, name: &[u8]) -> Option<&TypesItem>
        ensures { option_copied result ≡ declared_as self.now name.now }
    {
        match self.place(name) {
            Some(i) => self.declared.get(i),
            None => None,
        }
    }

    /// What a name stands for: the first declared type with this name, else a primitive.
    pub fn named(&self, name: &[u8]) -> Option<&TypesItem>
        ensures { option_copied result ≡ type_named self.now name.now }
    {
        match self.declared(name) {
            Some(item) => Some(item),
            None => self.plain_named(name),
        }
    }

    /// The type that the name of a primitive stands for if no declared type has that name.
    pub fn plain_named(&self, name: &[u8]) -> Option<&TypesItem>
        ensures { option_copied result ≡ plain_named name.now }
    {
        type_in(self.plain.as_slice(), name)
    }

    /// All declared types, in their order.
    pub fn as_slice(&self) -> &[TypesItem]
        ensures { result.now ≡ self.now }
    {
        self.declared.as_slice()
    }
}

/// The first of these types with this name.
fn type_in<'a>(types: &'a [TypesItem], name: &[u8]) -> Option<&'a TypesItem>
    ensures { option_copied result ≡ find (λ t. bytes_eq name.now (name_of t)) types.now }
{
    for item in types {
        if name == type_name(item) {
            return Some(item);
        }
    }
    None
}

/// The index of the first type with each name. Of two types with the same name the first one is inserted last.
fn places_of(alloc: Global, declared: &[TypesItem]) -> Result<IndexMap<Vec<u8>, usize>, NoMem>
    ensures { IfOk result (λ places. (name : List ℕ) → get_by (λ key. bytes_eq name key.items) places ≡ place_of name declared.now) }
{
    let mut places = IndexMap::new(alloc);
    let mut i = declared.len();
    'names: while i > 0 {
        i -= 1;
        places.insert(Vec::from_slice(alloc, type_name(&declared[i]))?, i)?;
    }
    Ok(places)
}

/// The types that the names of primitives stand for.
fn plain_types(alloc: Global) -> Result<Vec<TypesItem>, NoMem>
    ensures { IfOk result (λ types. types.items ≡ plain_types) }
{
    let mut types = Vec::new(alloc);
    types.push(plain_type(alloc, "char", PrimitiveType::Integral(Prim::Char))?)?;
    types.push(plain_type(alloc, "int8", PrimitiveType::Integral(Prim::I8))?)?;
    types.push(plain_type(alloc, "int16", PrimitiveType::Integral(Prim::I16))?)?;
    types.push(plain_type(alloc, "int32", PrimitiveType::Integral(Prim::I32))?)?;
    types.push(plain_type(alloc, "int64", PrimitiveType::Integral(Prim::I64))?)?;
    types.push(plain_type(alloc, "uint8", PrimitiveType::Integral(Prim::U8))?)?;
    types.push(plain_type(alloc, "uint16", PrimitiveType::Integral(Prim::U16))?)?;
    types.push(plain_type(alloc, "uint32", PrimitiveType::Integral(Prim::U32))?)?;
    types.push(plain_type(alloc, "uint64", PrimitiveType::Integral(Prim::U64))?)?;
    types.push(plain_type(alloc, "float", PrimitiveType::Float)?)?;
    types.push(plain_type(alloc, "double", PrimitiveType::Double)?)?;
    Ok(types)
}

fn plain_type(alloc: Global, name: &str, primitive: PrimitiveType) -> Result<TypesItem, NoMem>
    ensures { IfOk result (λ t. t ≡ item.Type (plain_type name.now primitive)) }
{
    Ok(TypesItem::Type(TypeEl {
        name: List::from_slice(alloc, name.as_bytes())?,
        primitive_type: primitive,
        length: 1,
        presence: None,
        null_value: None,
        min_value: None,
        max_value: None,
        character_encoding: None,
        value_ref: None,
        text: None,
        offset: None,
        since_version: 0,
    }))
}

/// The name of a declared type.
pub fn type_name(item: &TypesItem) -> &[u8]
    ensures { result.now ≡ name_of item.now }
{
    match item {
        TypesItem::Type(t) => t.name.as_slice(),
        TypesItem::Composite(c) => c.name.as_slice(),
        TypesItem::Enum(e) => e.name.as_slice(),
        TypesItem::Set(s) => s.name.as_slice(),
    }
}

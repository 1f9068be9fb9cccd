ghost use Rattle.std.specs.Prelude.{◌≡◌, List, map, is_some, slice_get, IfOk};
ghost use Rattle.map_types.specs.declared.tree.CodeSetEl.{CodeSetEl};
ghost use Rattle.map_members.specs.Lent.{lent_members};
ghost use Rattle.map_rules.specs.Datatypes.{is_int_type, is_decimal_type};
ghost use Rattle.field_types.specs.FieldTypes.{datatypes_of, data_type, field_type, is_day_type, is_plain_text, set_type, standard_type};
ghost use Rattle.bridge_plan.specs.Mappings.{datatype_in};
ghost use Rattle.bridge_table.specs.Codes.{datatype_of_row};
ghost use Rattle.bridge_table.specs.declared.datatype.Datatype.{Datatype as FieldDatatype};
ghost use Rattle.bridge_table.specs.declared.datatype.Datatype.TheVariants.{Unbridged};
ghost use Rattle.bridge_mapping.specs.Tables.{type_in, type_or, typed, AreSets};

use bridge_table::{CodeTable, Datatype};
use id_tables::{IdTable, NameTable};
use lists::{List, NoMem, Text};
use map_types::{CodeSetEl, FieldEl};
use std::alloc::Global;
use std::marker::Model;

/// The datatype of a field.
#[derive(Drop)]
enum FieldType<'a> {
    /// That of the code set at this index.
    CodeSet(usize),
    /// A datatype of FIX.
    Standard(Datatype<'a>),
}

/// The tag of a field, and its datatype.
#[derive(Drop)]
struct TypedField<'a> {
    tag: u32,
    datatype: FieldType<'a>,
}

/// The datatypes of a mapping's fields, found by tag. Fields with the same code set share one table of its codes.
#[derive(Drop)]
pub struct DatatypeTable<'a> {
    tags: IdTable,
    fields: List<TypedField<'a>>,
    /// The datatypes of the code sets.
    types: List<Datatype<'a>>,
    unbridged: Datatype<'a>,
}

impl<'a> Model for DatatypeTable<'a> {
    ghost use Rattle.std.specs.Prelude.{◌≡◌, ℕ, List, map};
    ghost use Rattle.bridge_rules.specs.Datatypes.{Datatype};
    ghost use Rattle.bridge_table.specs.declared.datatype.Datatype.TheVariants as given;
    ghost use Rattle.bridge_mapping.specs.Tables.{typed};
    ghost use Rattle.bridge_mapping.specs.declared.datatypes.TypedField.{TypedField};

    ghost Value = { List (ℕ × Datatype) };

    ghost view = { λ table. map (typed table.types) table.fields };

    ghost invariant = { λ table. (table.tags ≡ map (λ (f : TypedField). f.tag) table.fields) × (table.unbridged ≡ given.Unbridged) };
}

impl<'a> DatatypeTable<'a> {
    /// Creates the table of these fields and code sets.
    ///
    /// # Errors
    ///
    /// If memory runs out.
    pub fn new(
        alloc: Global,
        code_sets: &[&'a CodeSetEl],
        fields: &[&FieldEl],
    ) -> Result<DatatypeTable<'a>, NoMem>
        ensures { IfOk result (λ table. table ≡ datatypes_of (lent_members code_sets.now) (lent_members fields.now)) }
    {
        let names = NameTable::new(alloc, names_of(alloc, code_sets)?)?;
        let types = types_of(alloc, code_sets)?;
        let fields = typed_fields(alloc, &names, fields)?;
        let tags = IdTable::new(alloc, tags_of(alloc, fields.as_slice())?)?;
        Ok(DatatypeTable {
            tags,
            fields,
            types,
            unbridged: Datatype::Unbridged,
        })
    }

    /// The datatype of the fields with this tag. A tag without a field isn't translated.
    pub fn datatype(&self, tag: u32) -> &Datatype<'a>
        ensures { datatype_of_row result.now ≡ datatype_in tag self.now }
    {
        match self.tags.place(tag) {
            None => &self.unbridged,
            Some(i) => meant(
                self.types.as_slice(),
                &self.unbridged,
                &self.fields.at(i).datatype,
            ),
        }
    }
}

/// The datatype of a field, given those of the code sets; `unbridged` if there is none at the index.
fn meant<'t, 'a>(
    types: &'t [Datatype<'a>],
    unbridged: &'t Datatype<'a>,
    datatype: &'t FieldType<'a>,
) -> &'t Datatype<'a>
    requires none { unbridged.now ≡ Unbridged }
    ensures { datatype_of_row result.now ≡ type_in types.now datatype.now }
{
    match datatype {
        FieldType::Standard(own) => own,
        FieldType::CodeSet(i) => type_at(types, unbridged, *i),
    }
}

/// The datatype of the code set at an index; `unbridged` if there is none.
fn type_at<'t, 'a>(
    types: &'t [Datatype<'a>],
    unbridged: &'t Datatype<'a>,
    i: usize,
) -> &'t Datatype<'a>
    requires none { unbridged.now ≡ Unbridged }
    ensures { datatype_of_row result.now ≡ type_or (slice_get types.now i) }
{
    if i >= types.len() {
        return unbridged;
    }
    &types[i]
}

fn names_of(alloc: Global, code_sets: &[&CodeSetEl]) -> Result<List<Text>, NoMem>
    ensures { IfOk result (λ names. names ≡ map (λ s. s.name) (lent_members code_sets.now)) }
{
    let mut names = List::new(alloc);
    for code_set in code_sets {
        names.push(List::from_slice(alloc, code_set.name.as_slice())?)?;
    }
    Ok(names)
}

/// The datatypes of code sets, each with the table of its codes.
fn types_of<'a>(alloc: Global, code_sets: &[&'a CodeSetEl]) -> Result<List<Datatype<'a>>, NoMem>
    ensures { IfOk result (λ types. map datatype_of_row types ≡ map set_type (lent_members code_sets.now)) }
{
    let mut types = List::new(alloc);
    for code_set in code_sets {
        types.push(set_type(alloc, code_set)?)?;
    }
    Ok(types)
}

fn set_type<'a>(alloc: Global, code_set: &'a CodeSetEl) -> Result<Datatype<'a>, NoMem>
    ensures { IfOk result (λ datatype. datatype_of_row datatype ≡ set_type code_set.now) }
{
    let table = CodeTable::new(alloc, code_set.children.as_slice())?;
    if code_set.type_name.as_slice() == "MultipleCharValue".as_bytes() {
        return Ok(Datatype::CharacterSet(table));
    }
    Ok(Datatype::CodeSet(table))
}

/// The tags of fields with their datatypes, given the names of the code sets.
fn typed_fields<'a>(
    alloc: Global,
    names: &NameTable,
    fields: &[&FieldEl],
) -> Result<List<TypedField<'a>>, NoMem>
    ensures { IfOk result (λ all. (sets : List CodeSetEl) (types : List FieldDatatype) → AreSets sets names.now types
        → map (typed types) all ≡ datatypes_of sets (lent_members fields.now)) }
{
    let mut all = List::new(alloc);
    for field in fields {
        all.push(TypedField {
            tag: field.id,
            datatype: type_of(names, field),
        })?;
    }
    Ok(all)
}

/// The datatype of a field: that of the code set with the name of its type, if there is one.
fn type_of<'a>(names: &NameTable, field: &FieldEl) -> FieldType<'a>
    ensures { (sets : List CodeSetEl) (types : List FieldDatatype) → AreSets sets names.now types
        → type_in types result ≡ field_type sets field.now }
{
    match names.place(field.type_name.as_slice()) {
        Some(i) => FieldType::CodeSet(i),
        None => FieldType::Standard(standard_type(
            field.length_id.is_some(),
            field.type_name.as_slice(),
        )),
    }
}

/// A datatype of FIX, by name.
fn standard_type<'a>(has_length: bool, name: &[u8]) -> Datatype<'a>
    ensures { datatype_of_row result ≡ standard_type has_length name.now }
{
    if is_int_type(name) {
        return Datatype::WholeNumber;
    }
    if is_decimal_type(name) {
        return Datatype::DecimalNumber;
    }
    if is_plain_text(name) {
        return Datatype::Text;
    }
    if name == "char".as_bytes() {
        return Datatype::Character;
    }
    if name == "Boolean".as_bytes() {
        return Datatype::Boolean;
    }
    if name == "UTCTimestamp".as_bytes() {
        return Datatype::Timestamp;
    }
    if name == "UTCTimeOnly".as_bytes() {
        return Datatype::TimeOfDay;
    }
    if is_day_type(name) {
        return Datatype::CalendarDay;
    }
    if name == "MonthYear".as_bytes() {
        return Datatype::MonthOfYear;
    }
    if name == "data".as_bytes() {
        return data_type(has_length);
    }
    Datatype::Unbridged
}

/// Data is translated if it has a length field.
fn data_type<'a>(has_length: bool) -> Datatype<'a>
    ensures { datatype_of_row result ≡ data_type has_length }
{
    if has_length {
        return Datatype::Raw;
    }
    Datatype::Unbridged
}

fn is_int_type(name: &[u8]) -> bool
    ensures { result ≡ is_int_type name.now }
{
    name == "int".as_bytes()
        || name == "Length".as_bytes()
        || name == "NumInGroup".as_bytes()
        || name == "SeqNum".as_bytes()
}

fn is_decimal_type(name: &[u8]) -> bool
    ensures { result ≡ is_decimal_type name.now }
{
    name == "Price".as_bytes()
        || name == "Qty".as_bytes()
        || name == "Amt".as_bytes()
        || name == "PriceOffset".as_bytes()
        || name == "Percentage".as_bytes()
        || name == "float".as_bytes()
}

fn is_plain_text(name: &[u8]) -> bool
    ensures { result ≡ is_plain_text name.now }
{
    name == "String".as_bytes()
        || name == "Currency".as_bytes()
        || name == "Country".as_bytes()
        || name == "Exchange".as_bytes()
}

fn is_day_type(name: &[u8]) -> bool
    ensures { result ≡ is_day_type name.now }
{
    name == "UTCDateOnly".as_bytes() || name == "LocalMktDate".as_bytes()
}

fn tags_of(alloc: Global, fields: &[TypedField]) -> Result<List<u32>, NoMem>
    ensures { IfOk result (λ tags. tags ≡ map (λ f. f.tag) fields.now) }
{
    let mut tags = List::new(alloc);
    for field in fields {
        tags.push(field.tag)?;
    }
    Ok(tags)
}

ghost use Rattle.std.specs.Prelude.{◌≡◌, List, map, Some, None, IfOk, MatchOption, bytes_eq};
ghost use Rattle.std.specs.List.{list_any};
ghost use Rattle.bridge_rules.specs.Table.{named_text};
ghost use Rattle.bridge_table.specs.Codes.{named_codes};

use id_tables::NameTable;
use lists::{List, NoMem, Text};
use map_types::CodeEl;
use std::alloc::Global;
use std::marker::Model;

/// The codes of a code set, found by name or by text.
#[derive(Drop)]
pub struct CodeTable<'a> {
    elements: &'a [CodeEl],
    names: NameTable,
    texts: NameTable,
}

impl<'a> Model for CodeTable<'a> {
    ghost use Rattle.std.specs.Prelude.{◌≡◌, List, map};
    ghost use Rattle.std.specs.Coded.{codes};
    ghost use Rattle.map_types.specs.declared.tree.CodeEl.{CodeEl};
    ghost use Rattle.map_types.specs.contracts.tree.CodeEl as element;

    ghost Value = { List CodeEl };

    ghost coded = { Prim.hlevel (codes, element.the_row.coded) };

    ghost view = { λ table. table.elements.now };

    ghost invariant = { λ table. (table.names ≡ map (λ (c : CodeEl). c.name) table.elements.now)
        × (table.texts ≡ map (λ (c : CodeEl). c.value) table.elements.now) };
}

impl<'a> CodeTable<'a> {
    /// Creates the table of these codes.
    pub fn new(alloc: Global, codes: &'a [CodeEl]) -> Result<CodeTable<'a>, NoMem>
        ensures { IfOk result (λ table. table ≡ codes.now) }
    {
        let names = NameTable::new(alloc, names_of(alloc, codes)?)?;
        let texts = NameTable::new(alloc, texts_of(alloc, codes)?)?;
        Ok(CodeTable {
            elements: codes,
            names,
            texts,
        })
    }

    /// The codes in their order.
    pub fn codes(&self) -> &[CodeEl]
        ensures { result.now ≡ self.now }
    {
        self.elements
    }

    /// The text of the code with this name.
    pub fn text_named(&self, name: &[u8]) -> Option<&[u8]>
        ensures { MatchOption result (named_text (named_codes self.now) name.now ≡ None)
            (λ text. named_text (named_codes self.now) name.now ≡ Some text.now) }
    {
        match self.names.place(name) {
            None => None,
            Some(i) => Some(self.elements[i].value.as_slice()),
        }
    }

    /// Whether a code has this text.
    pub fn has_text(&self, text: &[u8]) -> bool
        ensures { result ≡ list_any (λ c. bytes_eq c.text text.now) (named_codes self.now) }
    {
        self.texts.place(text).is_some()
    }
}

fn names_of(alloc: Global, codes: &[CodeEl]) -> Result<List<Text>, NoMem>
    ensures { IfOk result (λ names. names ≡ map (λ c. c.name) codes.now) }
{
    let mut names = List::new(alloc);
    for code in codes {
        names.push(List::from_slice(alloc, code.name.as_slice())?)?;
    }
    Ok(names)
}

fn texts_of(alloc: Global, codes: &[CodeEl]) -> Result<List<Text>, NoMem>
    ensures { IfOk result (λ texts. texts ≡ map (λ c. c.value) codes.now) }
{
    let mut texts = List::new(alloc);
    for code in codes {
        texts.push(List::from_slice(alloc, code.value.as_slice())?)?;
    }
    Ok(texts)
}

/// How the fields of a mapping's datatype are written.
#[derive(Drop)]
pub enum Datatype<'a> {
    WholeNumber,
    DecimalNumber,
    Character,
    Text,
    Boolean,
    Timestamp,
    TimeOfDay,
    CalendarDay,
    MonthOfYear,
    /// Data that has a length field.
    Raw,
    CodeSet(CodeTable<'a>),
    /// A code set of type MultipleCharValue.
    CharacterSet(CodeTable<'a>),
    /// A datatype that isn't translated.
    Unbridged,
}

// The texts that are the same in each line of a message.
ghost use Rattle.std.specs.Prelude.{◌≡◌, ◌<◌, IfOk, codes, length, slice_get, Some};
ghost use Rattle.std.specs.List.{AllByRecursion};
ghost use Rattle.sbe_types.specs.declared.schema.Level.{out-Level, Level};
ghost use Rattle.schema_facts.specs.IsChecked.{IsChecked};
ghost use Rattle.layout_tables.specs.Heads.{header_number};
ghost use Rattle.tree_json.specs.Texts.{text_before, text_behind, AreGroupsPrintable, AreLevelTexts, AreMessageTexts, HaveTexts, IsPrintable};

use json_rows::{TextRows, text_rows_of};
use layout_tables::Layout;
use lists::{List, NoMem};
use sbe_types::{Group, Level, WireSchema};
use std::alloc::Global;
use std::marker::Model;

/// The texts of a level that are the same in each line: those between the values of its fields, and those of the levels
/// of its groups.
#[cycle(texts)]
#[derive(Drop)]
pub struct LevelTexts {
    pub fields: TextRows,
    pub groups: List<LevelTexts>,
}

/// A layout, and the texts of its messages that are the same in each line. Contracts see it as the schema.
#[derive(Drop)]
pub struct LineLayout {
    layout: Layout,
    messages: List<LevelTexts>,
}

impl Model for LineLayout {
    ghost use Rattle.sbe_types.specs.declared.schema.WireSchema.{WireSchema};
    ghost use Rattle.sbe_types.specs.contracts.kind.Kind as kinds;
    ghost use Rattle.sbe_types.specs.contracts.schema.Level as trees;
    ghost use Rattle.std.specs.Coded.{codes};

    ghost Value = { WireSchema };

    ghost coded = { Prim.hlevel (codes, kinds.the_row.coded, trees.the_row.coded) };

    ghost use Rattle.tree_json.specs.Texts.{AreMessageTexts};

    ghost view = { λ lines. lines.layout };

    ghost invariant = { λ lines. AreMessageTexts lines.layout.messages lines.messages };
}

impl LineLayout {
    /// Builds the texts of a layout. The only error is out of memory.
    pub fn new(alloc: Global, layout: Layout) -> Result<LineLayout, NoMem>
        ensures { IfOk result (λ lines. lines ≡ layout) }
    {
        let messages = message_texts(alloc, layout.schema().messages.as_slice())?;
        Ok(LineLayout { layout, messages })
    }

    /// The layout.
    pub fn layout(&self) -> &Layout
        ensures { result.now ≡ self.now }
    {
        &self.layout
    }

    /// The schema.
    pub fn schema(&self) -> &WireSchema
        ensures schema { result.now ≡ self.now }
        ensures order { IsChecked self.now }
    {
        self.layout.schema()
    }

    /// The schema's id.
    pub fn id(&self) -> u32
        ensures { result ≡ self.now.id }
    {
        self.layout.id()
    }

    /// The schemaId of a body's header, or `None` exactly if the body is shorter than the header.
    pub fn schema_id(&self, body: &[u8]) -> Option<u32>
        ensures { result ≡ header_number self.now (codes "schemaId") body.now }
    {
        self.layout.schema_id(body)
    }

    /// The texts of a message. Requires a template in range.
    pub fn message(&self, template: usize) -> &LevelTexts
        requires { template < length self.now.messages }
        ensures { (level : Level) → slice_get self.now.messages template ≡ Some level → AreLevelTexts level result.now }
    {
        self.messages.at(template)
    }
}

/// The texts of messages.
fn message_texts(alloc: Global, messages: &[Level]) -> Result<List<LevelTexts>, NoMem>
    requires { AllByRecursion IsPrintable messages.now }
    ensures { IfOk result (λ texts. AreMessageTexts messages.now texts) }
{
    let mut texts = List::new(alloc);
    for level in messages {
        texts.push(level_texts(alloc, level)?)?;
    }
    Ok(texts)
}

/// The texts of a level.
#[cycle(make)]
fn level_texts(alloc: Global, level: &Level) -> Result<LevelTexts, NoMem>
    requires { IsPrintable level.now }
    ensures { IfOk result (AreLevelTexts level.now) }
{
    let before = before_fields(level);
    let after = after_fields(level);
    let fields = text_rows_of(alloc, before, level.fields.as_slice(), after)?;
    let groups = group_texts(alloc, level.groups.as_slice())?;
    Ok(LevelTexts { fields, groups })
}

/// The texts of groups.
#[cycle(make)]
fn group_texts(alloc: Global, groups: &[Group]) -> Result<List<LevelTexts>, NoMem>
    requires { AreGroupsPrintable groups.now }
    ensures { IfOk result (λ texts. HaveTexts groups.now texts) }
{
    let mut texts = List::new(alloc);
    for group in groups {
        texts.push(level_texts(alloc, &group.level)?)?;
    }
    Ok(texts)
}

/// What is printed before the fields of a level.
fn before_fields(level: &Level) -> &'static [u8]
    ensures { result.now ≡ text_before (out-Level level.now).parts }
{
    if level.parts.is_empty() {
        b"{\"data\":{},\"fields\":{"
    } else {
        b",\"fields\":{"
    }
}

/// What is printed after the fields of a level.
fn after_fields(level: &Level) -> &'static [u8]
    ensures { result.now ≡ text_behind (out-Level level.now).groups }
{
    if level.groups.is_empty() {
        b",\"groups\":{}"
    } else {
        b",\"groups\":{"
    }
}

// Blocks of a message, as JSON.
ghost use Rattle.std.specs.Prelude.{◌≡◌, ◌≤◌, ◌<◌, ◌++◌, false, length, slice_get, Some};
ghost use Rattle.std.specs.Option.{option_map, IsSome};
ghost use Rattle.serde_json.specs.Written.{comma_if};
ghost use Rattle.sbe_types.specs.declared.message.Block.{out-Block};
ghost use Rattle.sbe_types.specs.declared.message.Value.{Value};
ghost use Rattle.sbe_types.specs.declared.schema.Field.{Field};
ghost use Rattle.json_rows.specs.Tables.{values_of, HasPieces, IsTextTable, TextsFit};
ghost use Rattle.flyweight_view.specs.declared.by_table.TableBlock.{TableBlock};
ghost use Rattle.flyweight_view.specs.ByTable.{IsTableBlock};
ghost use Rattle.flyweight_view.specs.TypedBlocks.{TypedBlock};
ghost use Rattle.flyweight_view.specs.Deep.{deepest_in};
ghost use Rattle.json_values.specs.Values.{zipped, text_data};
ghost use Rattle.tree_json.specs.Lines.{field_entry, group_entry, items_by};
ghost use Rattle.json_values.specs.Plain.{plain_text, plain_items, entry_text, entries_text, later_behind};
ghost use Rattle.tree_json.specs.Views.{data_front, own_data, block_object, block_head, block_front, entries_data, PrintsFront};
ghost use Rattle.tree_json.specs.Texts.{block_pieces, text_behind, AreTexts, AreTextsOf, AreTextsOfAll, AreTextsOfGroup};
ghost use Rattle.printers.specs.Prints.{Prints};

use crate::kept::Kept;
use crate::texts::LevelTexts;
use flyweight_view::{BlockView, EntriesView};
use json_fields::{put_rows, put_shown};
use json_rows::TextRows;
use json_values::{put_comma, put_key, put_text};
use printers::Printer;
use sbe_base::Sink;

/// Prints the object of a message's root or of an entry, without the closing bracket. If there are no texts each field
/// is printed by its kind.
#[cycle(block)]
#[inline(always)]
pub(crate) fn put_front<O: Sink, T: Kept + Copy>(
    printer: &mut Printer<'_, O>,
    texts: T,
    block: &BlockView<'_>,
)
    requires { AreTexts (T.texts texts) block.now }
    ensures { Prints O.state printer.old printer.new (block_front block.now) }
{
    put_head(printer, texts, block);
    let (_, count, _) = block.counts();
    if count == 0 {
        return;
    }
    // A separate copy, so that nothing is stored if there are no groups.
    put_groups(printer, texts, &block.again());
}

/// Prints the data and the fields of a block, and the opening of its groups; if there are no groups, also the bracket
/// after them.
#[inline(always)]
fn put_head<O: Sink, T: Kept + Copy>(printer: &mut Printer<'_, O>, texts: T, block: &BlockView<'_>)
    requires { AreTexts (T.texts texts) block.now }
    ensures { Prints O.state printer.old printer.new (block_head block.now) }
{
    match texts.level() {
        Some(texts) => put_head_by(printer, texts, block),
        None => put_by_kinds(printer, &block.again()),
    }
}

/// The same, by the texts of the block's level.
#[inline(always)]
fn put_head_by<O: Sink>(printer: &mut Printer<'_, O>, texts: &LevelTexts, block: &BlockView<'_>)
    requires { AreTextsOf block.now texts.now }
    ensures { Prints O.state printer.old printer.new (block_head block.now) }
{
    match block.by_table() {
        Some(values) => {
            put_own_data(printer, block);
            put_rows(printer, &texts.fields, values.bytes);
        }
        None => put_by_kinds(printer, &block.again()),
    }
}

/// The same, with each field by its kind.
#[inline(never)]
fn put_by_kinds<O: Sink>(printer: &mut Printer<'_, O>, block: &BlockView<'_>)
    ensures { Prints O.state printer.old printer.new (block_head block.now) }
{
    put_data(printer, block);
    printer.put(b",\"fields\":{");
    put_fields(printer, block);
    put_opening(printer, block);
}

/// Prints the opening of a block's groups; if there are none, also the bracket after them.
fn put_opening<O: Sink>(printer: &mut Printer<'_, O>, block: &BlockView<'_>)
    ensures { Prints O.state printer.old printer.new (text_behind block.now.groups) }
{
    let (_, count, _) = block.counts();
    if count == 0 {
        printer.put(b",\"groups\":{}");
        return;
    }
    printer.put(b",\"groups\":{");
}

// ---- data parts

/// Prints the data parts of a block, if it has some, after its first bracket.
#[inline(always)]
fn put_own_data<O: Sink>(printer: &mut Printer<'_, O>, block: &BlockView<'_>)
    ensures { Prints O.state printer.old printer.new (own_data block.now.parts (out-Block block.now.block).parts) }
{
    let (_, _, parts) = block.counts();
    if parts == 0 {
        return;
    }
    // A separate copy, so that nothing is stored if there is no data.
    put_data(printer, &block.again());
}

/// Prints the data parts of a block that are present, from its first bracket to the one after them.
#[inline(never)]
fn put_data<O: Sink>(printer: &mut Printer<'_, O>, block: &BlockView<'_>)
    ensures { Prints O.state printer.old printer.new (data_front block.now.parts (out-Block block.now.block).parts) }
{
    let (_, _, count) = block.counts();
    printer.put(b"{\"data\":{");
    let mut parts = block.parts();
    let mut later = false;
    for i in 0..count {
        later = put_part(printer, later, block.data_name(i), parts.next_part());
    }
    printer.put(b"}");
}

/// Prints a data part after its name, unless it is absent, and returns whether a member has been printed by now.
fn put_part<O: Sink>(
    printer: &mut Printer<'_, O>,
    later: bool,
    name: &[u8],
    bytes: Option<&[u8]>,
) -> bool
    ensures later { result ≡ later_behind later (option_map text_data (option_map (λ b. b.now) bytes.entry)) }
    ensures text { Prints O.state printer.old printer.new (entry_text later (name.now, option_map text_data (option_map (λ b. b.now) bytes.entry))) }
{
    match bytes {
        None => later,
        Some(bytes) => {
            put_key(printer, later, name);
            put_text(printer, bytes);
            true
        }
    }
}

// ---- fields

/// Prints the fields of a block that are present, and the bracket after them.
fn put_fields<O: Sink>(printer: &mut Printer<'_, O>, block: &BlockView<'_>)
    ensures { Prints O.state printer.old printer.new (entries_text false (zipped field_entry block.now.fields (out-Block block.now.block).fields)) }
{
    let (count, _, _) = block.counts();
    let mut later = false;
    for i in 0..count {
        later = put_field(printer, later, block, i);
    }
    printer.put(b"}");
}

/// Prints field `i`, unless it is absent, and returns whether one has been printed by now. Requires a field in range.
fn put_field<O: Sink>(
    printer: &mut Printer<'_, O>,
    later: bool,
    block: &BlockView<'_>,
    i: usize,
) -> bool
    requires { i < length block.now.fields }
    ensures there { IsSome (slice_get (out-Block block.now.block).fields i) }
    ensures later { (f : Field) (v : Value) → slice_get block.now.fields i ≡ Some f → slice_get (out-Block block.now.block).fields i ≡ Some v
        → result ≡ later_behind later (field_entry f v).1 }
    ensures text { (f : Field) (v : Value) → slice_get block.now.fields i ≡ Some f → slice_get (out-Block block.now.block).fields i ≡ Some v
        → Prints O.state printer.old printer.new (entry_text later (field_entry f v)) }
{
    match block.field(i) {
        None => later,
        Some(field) => {
            put_key(printer, later, block.name(i));
            put_shown(printer, field.order, field.kind, field.bytes);
            true
        }
    }
}

// ---- groups

/// Prints the groups of a block that are present, and the bracket after them.
#[cycle(block)]
#[inline(never)]
fn put_groups<O: Sink, T: Kept + Copy>(
    printer: &mut Printer<'_, O>,
    texts: T,
    block: &BlockView<'_>,
)
    requires { AreTexts (T.texts texts) block.now }
    ensures { Prints O.state printer.old printer.new (entries_text false (zipped group_entry block.now.groups (out-Block block.now.block).groups)) }
{
    let (_, count, _) = block.counts();
    let mut groups = block.groups();
    let mut later = false;
    for i in 0..count {
        let inner = texts.group(i);
        later = put_group(
            printer,
            inner,
            later,
            block.group_name(i),
            groups.next_group(),
        );
    }
    printer.put(b"}");
}

/// Prints a group after its name, unless it is absent, and returns whether a member has been printed by now.
#[cycle(block)]
fn put_group<O: Sink, T: Kept + Copy>(
    printer: &mut Printer<'_, O>,
    texts: T,
    later: bool,
    name: &[u8],
    entries: Option<EntriesView<'_>>,
) -> bool
    requires { AreTextsOfGroup (T.texts texts) entries }
    ensures later { result ≡ later_behind later (option_map entries_data entries.entry) }
    ensures text { Prints O.state printer.old printer.new (entry_text later (name.now, option_map entries_data entries.entry)) }
{
    match entries {
        None => later,
        Some(entries) => {
            put_key(printer, later, name);
            put_entries(printer, texts, entries);
            true
        }
    }
}

/// Prints the entries of a group, as an array.
#[cycle(block)]
fn put_entries<O: Sink, T: Kept + Copy>(
    printer: &mut Printer<'_, O>,
    texts: T,
    entries: EntriesView<'_>,
)
    requires { AreTextsOfAll (T.texts texts) entries }
    ensures { Prints O.state printer.old printer.new (plain_text (entries_data entries.entry)) }
{
    printer.put(b"[");
    let mut entries = entries;
    let later = put_first_entries(printer, texts, &mut entries);
    if entries.len() == 0 {
        printer.put(b"]");
        return;
    }
    put_views(printer, texts, later, entries);
}

/// Prints the remaining entries through a view of each, and the closing bracket.
#[cycle(block)]
#[inline(never)]
fn put_views<O: Sink, T: Kept + Copy>(
    printer: &mut Printer<'_, O>,
    texts: T,
    later: bool,
    entries: EntriesView<'_>,
)
    requires { AreTextsOfAll (T.texts texts) entries }
    ensures { Prints O.state printer.old printer.new (plain_items later (items_by block_object entries.entry)) }
{
    let mut later = later;
    for entry in entries {
        put_entry(printer, texts, later, &entry);
        later = true;
    }
    printer.put(b"]");
}

/// Prints the first of some entries, as far as there are texts and a table accepts them, and returns whether one has
/// been printed.
#[inline(always)]
fn put_first_entries<O: Sink, T: Kept + Copy>(
    printer: &mut Printer<'_, O>,
    texts: T,
    entries: &mut EntriesView<'_>,
) -> bool
    requires { AreTextsOfAll (T.texts texts) entries.old }
    ensures low { deepest_in entries.new ≤ deepest_in entries.old }
    ensures left { AreTextsOfAll (T.texts texts) entries.new }
    ensures text { PrintsFront result entries.old entries.new (Prints O.state printer.old printer.new) }
{
    match texts.level() {
        Some(texts) => put_flat_entries(printer, texts, entries),
        None => false,
    }
}

/// The same, by the texts of their level.
#[inline(always)]
fn put_flat_entries<O: Sink>(
    printer: &mut Printer<'_, O>,
    texts: &LevelTexts,
    entries: &mut EntriesView<'_>,
) -> bool
    requires { AreTextsOfAll (Some texts.now) entries.old }
    ensures left { AreTextsOfAll (Some texts.now) entries.new }
    ensures low { deepest_in entries.new ≤ deepest_in entries.old }
    ensures text { PrintsFront result entries.old entries.new (Prints O.state printer.old printer.new) }
{
    let mut later = false;
    'entries: while let Some(block) = entries.next_table() {
        put_flat_entry(printer, &texts.fields, later, block.bytes);
        later = true;
    }
    later
}

/// Prints the object of an entry without groups and data by its texts, preceded by a comma if it isn't the first.
#[inline(always)]
fn put_flat_entry<O: Sink>(
    printer: &mut Printer<'_, O>,
    texts: &TextRows,
    later: bool,
    block: &[u8],
)
    requires table { IsTextTable (values_of texts.now) texts.now }
    requires fits { TextsFit (length block.now) texts.now.rows.items }
    ensures { (b : TableBlock) (s : TypedBlock) → b.bytes.now ≡ block.now → IsTableBlock b s → HasPieces (block_pieces s) texts.now → length s.groups ≡ 0 → length s.parts ≡ 0
        → Prints O.state printer.old printer.new (comma_if later ++ plain_text (block_object s)) }
{
    put_comma(printer, later);
    put_rows(printer, texts, block);
    printer.put(b"}");
}

/// Prints the object of an entry, preceded by a comma if it isn't the first.
#[cycle(block)]
fn put_entry<O: Sink, T: Kept + Copy>(
    printer: &mut Printer<'_, O>,
    texts: T,
    later: bool,
    entry: &BlockView<'_>,
)
    requires { AreTexts (T.texts texts) entry.now }
    ensures { Prints O.state printer.old printer.new (comma_if later ++ plain_text (block_object entry.now)) }
{
    put_comma(printer, later);
    put_front(printer, texts, entry);
    printer.put(b"}");
}

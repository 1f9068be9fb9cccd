// The rows of a plan.
ghost use Rattle.std.specs.Prelude.{◌≡◌, ◌<◌, length, None};
ghost use Rattle.tagvalue_codec.specs.declared.write.Phase.TheVariants.{Open};
ghost use Rattle.bridge_terms.specs.MessageFields.{length_in};
ghost use Rattle.bridge_terms.specs.Parts.{TagLists};
ghost use Rattle.flyweight_view.specs.ByTable.{IsTableBlock};
ghost use Rattle.bridge_rules.specs.Rules.{Rule};
ghost use Rattle.message_walk.specs.Rows.{field_of, IsForField};
ghost use Rattle.message_walk.specs.States.{IsPut};
ghost use Rattle.value_texts.specs.Coded.{AreCodes};
ghost use Rattle.value_texts.specs.Quick.{HasValue, IsQuick};
ghost use Rattle.value_texts.specs.Rows.{row_text, CanAskOf, Reads, Spells};

use crate::at::{
    choices_at, constant_at, day_at, decimal_at, floating_at, moment_at, month_at, number_at,
    passage_at, quick_decimal_at, quick_number_at, quick_passage_at,
};
use crate::bytes::{front_of_value, text_of_bytes};
use crate::codes::ByteText;
use crate::face::NumberFace;
use crate::quick::Quick;
use crate::sets::SetSpelling;
use crate::small::SMALL_ROOM;
use crate::spelling::Spelling;
use bridge_table::{Epoch, Unit};
use fix_values::V;
use flyweight_view::{BlockView, TableBlock};
use lists::{Bytes, List};
use message_walk::{Halt, Lead, Put, PutValue, put_front, put_text};
use sbe_types::Leaf;
use tagvalue_codec::FixWriter;

/// How the values of a field are written.
#[derive(Drop)]
pub enum TextRule {
    /// A number.
    Number(Spelling),
    /// The choices of a set.
    Choices(SetSpelling),
    /// A decimal with this exponent.
    Decimal(i128),
    /// A decimal whose exponent is on the wire: the types of both.
    Floating(Leaf, Leaf),
    /// A text.
    Passage,
    /// A day, by its number.
    Day,
    /// A time and its unit.
    Moment(Epoch, Unit),
    /// A year, a month, and a day or a week of it.
    Month,
    /// A constant.
    Const(ConstText),
}

/// How the values of a field are written, how their numbers are read from bytes at a fixed place, and the texts of numbers of one
/// byte.
#[derive(Drop)]
pub struct ValueText {
    pub(crate) rule: TextRule,
    pub(crate) face: NumberFace,
    pub(crate) codes: List<ByteText>,
}

/// The text of a constant, or why it has none.
#[derive(Drop)]
pub enum ConstText {
    Given(Bytes),
    Missing(V),
}

impl PutValue for ValueText {
    ghost spells = { Spells };

    #[inline(always)]
    fn put(
        &self,
        lead: &Lead,
        block: &BlockView<'_>,
        number: usize,
        out: &mut FixWriter,
        halt: &mut Halt,
    ) -> Put {
        put_field(&self.rule, lead, block, number, out, halt)
    }

    #[inline(always)]
    fn put_at(
        &self,
        lead: &Lead,
        block: &BlockView<'_>,
        table: &Option<TableBlock<'_>>,
        number: usize,
        out: &mut FixWriter,
        halt: &mut Halt,
    ) -> Put {
        match table {
            Some(table) => put_in_table(self, lead, block, table, number, out, halt),
            None => put_checked(&self.rule, lead, block, number, out, halt),
        }
    }
}

/// Writes the field of the value of field `number` of a block with a table, if the value has one.
#[inline(always)]
fn put_in_table(
    row: &ValueText,
    lead: &Lead,
    block: &BlockView<'_>,
    table: &TableBlock<'_>,
    number: usize,
    out: &mut FixWriter,
    halt: &mut Halt,
) -> Put
    requires open { out.old.phase ≡ Open }
    requires table { IsTableBlock table.now block.now }
    ensures open { out.new.phase ≡ Open }
    ensures put { (lists : TagLists) (rule : Rule) → length_in lead.now lists.lengths ≡ None → Spells row.now rule → IsForField rule number block.now.fields
        → IsPut lists out.old lead.now (row_text row.now.rule (field_of block.now number)) (record { put = result; draft = out.new; halt = halt.new }) }
{
    match table.field(number) {
        Some(bytes) => put_bytes(row, lead, bytes, block, number, out, halt),
        None => put_checked(&row.rule, lead, block, number, out, halt),
    }
}

/// The same, given the bytes of the value.
#[inline(always)]
fn put_bytes(
    row: &ValueText,
    lead: &Lead,
    bytes: &[u8],
    block: &BlockView<'_>,
    number: usize,
    out: &mut FixWriter,
    halt: &mut Halt,
) -> Put
    requires open { out.old.phase ≡ Open }
    ensures open { out.new.phase ≡ Open }
    ensures put { (lists : TagLists) → length_in lead.now lists.lengths ≡ None → Reads row.now.rule row.now.face (field_of block.now number) bytes.now
        → AreCodes row.now.rule row.now.face row.now.codes → number < length block.now.fields → CanAskOf row.now.rule number block.now
        → IsPut lists out.old lead.now (row_text row.now.rule (field_of block.now number)) (record { put = result; draft = out.new; halt = halt.new }) }
{
    match front_of_value(row, bytes) {
        Some(front) => put_front::<8>(lead, front.bytes, front.count, out, halt),
        None => put_number_bytes(row, lead, bytes, block, number, out, halt),
    }
}

/// The same for numbers and decimals. All other values are left to the general rules.
#[inline(always)]
fn put_number_bytes(
    row: &ValueText,
    lead: &Lead,
    bytes: &[u8],
    block: &BlockView<'_>,
    number: usize,
    out: &mut FixWriter,
    halt: &mut Halt,
) -> Put
    requires open { out.old.phase ≡ Open }
    ensures open { out.new.phase ≡ Open }
    ensures put { (lists : TagLists) → length_in lead.now lists.lengths ≡ None → Reads row.now.rule row.now.face (field_of block.now number) bytes.now
        → number < length block.now.fields → CanAskOf row.now.rule number block.now
        → IsPut lists out.old lead.now (row_text row.now.rule (field_of block.now number)) (record { put = result; draft = out.new; halt = halt.new }) }
{
    let mut room = [0; SMALL_ROOM];
    match text_of_bytes(row, bytes, &mut room) {
        Quick::Text(text) => put_text(lead, text, out, halt),
        Quick::Room(at) => put_text(lead, &room[at..], out, halt),
        Quick::Nothing => Put::Nothing,
        Quick::Other => put_checked(&row.rule, lead, block, number, out, halt),
    }
}

/// Writes the field of the value of field `number` of a block, if the block has such a field and the value has one.
#[inline(never)]
fn put_checked(
    rule: &TextRule,
    lead: &Lead,
    block: &BlockView<'_>,
    number: usize,
    out: &mut FixWriter,
    halt: &mut Halt,
) -> Put
    requires open { out.old.phase ≡ Open }
    ensures open { out.new.phase ≡ Open }
    ensures put { (lists : TagLists) → length_in lead.now lists.lengths ≡ None → number < length block.now.fields → CanAskOf rule.now number block.now
        → IsPut lists out.old lead.now (row_text rule.now (field_of block.now number)) (record { put = result; draft = out.new; halt = halt.new }) }
{
    let (count, _, _) = block.counts();
    if number >= count {
        return Put::Nothing;
    }
    put_field(rule, lead, block, number, out, halt)
}

/// Writes the field of the value of field `number` of a block, if the value has one. Most texts are found without the
/// general rules.
#[inline(always)]
fn put_field(
    row: &TextRule,
    lead: &Lead,
    block: &BlockView<'_>,
    number: usize,
    out: &mut FixWriter,
    halt: &mut Halt,
) -> Put
    requires open { out.old.phase ≡ Open }
    requires field { number < length block.now.fields }
    ensures open { out.new.phase ≡ Open }
    ensures put { (lists : TagLists) → length_in lead.now lists.lengths ≡ None → CanAskOf row.now number block.now
        → IsPut lists out.old lead.now (row_text row.now (field_of block.now number)) (record { put = result; draft = out.new; halt = halt.new }) }
{
    let mut room = [0; SMALL_ROOM];
    match quick_text(row, block, number, &mut room) {
        Quick::Text(text) => put_text(lead, text, out, halt),
        Quick::Room(at) => put_text(lead, &room[at..], out, halt),
        Quick::Nothing => Put::Nothing,
        Quick::Other => put_general(row, lead, block, number, out, halt),
    }
}

/// The text of most values, without the general rules.
#[inline(always)]
fn quick_text<'a>(
    row: &'a TextRule,
    block: &BlockView<'a>,
    number: usize,
    room: &mut [u8; SMALL_ROOM],
) -> Quick<'a>
    requires field { number < length block.now.fields }
    requires long { length room.old ≡ SMALL_ROOM }
    ensures long { length room.new ≡ SMALL_ROOM }
    ensures value { HasValue result room.new }
    ensures told { IsQuick result room.new (row_text row.now (field_of block.now number)) }
{
    match row {
        TextRule::Number(rule) => quick_number_at(rule, block, number, room),
        TextRule::Decimal(exponent) => quick_decimal_at(*exponent, block, number, room),
        TextRule::Passage => quick_passage_at(block, number),
        TextRule::Choices(_) => Quick::Other,
        TextRule::Floating(_, _) => Quick::Other,
        TextRule::Day => Quick::Other,
        TextRule::Moment(_, _) => Quick::Other,
        TextRule::Month => Quick::Other,
        TextRule::Const(_) => Quick::Other,
    }
}

/// Writes the field of the value of field `number` of a block, if the value has one.
#[inline(never)]
fn put_general(
    row: &TextRule,
    lead: &Lead,
    block: &BlockView<'_>,
    number: usize,
    out: &mut FixWriter,
    halt: &mut Halt,
) -> Put
    requires open { out.old.phase ≡ Open }
    requires field { number < length block.now.fields }
    ensures open { out.new.phase ≡ Open }
    ensures put { (lists : TagLists) → length_in lead.now lists.lengths ≡ None → CanAskOf row.now number block.now
        → IsPut lists out.old lead.now (row_text row.now (field_of block.now number)) (record { put = result; draft = out.new; halt = halt.new }) }
{
    match row {
        TextRule::Number(rule) => number_at(rule, lead, block, number, out, halt),
        TextRule::Choices(rule) => choices_at(rule, lead, block, number, out, halt),
        TextRule::Decimal(exponent) => decimal_at(*exponent, lead, block, number, out, halt),
        TextRule::Floating(mantissa, exponent) => {
            floating_at(mantissa, exponent, lead, block, number, out, halt)
        }
        TextRule::Passage => passage_at(lead, block, number, out, halt),
        TextRule::Day => day_at(lead, block, number, out, halt),
        TextRule::Moment(epoch, unit) => moment_at(*epoch, unit, lead, block, number, out, halt),
        TextRule::Month => month_at(lead, block, number, out, halt),
        TextRule::Const(text) => constant_at(text, lead, block, number, out, halt),
    }
}

// The fields of the values of a block.
ghost use Rattle.std.specs.Prelude.{◌≡◌, ◌<◌, ℕ, List, length, None};
ghost use Rattle.tagvalue_codec.specs.declared.write.Phase.TheVariants.{Open};
ghost use Rattle.bridge_terms.specs.MessageFields.{length_in};
ghost use Rattle.bridge_terms.specs.Parts.{TagLists};
ghost use Rattle.message_walk.specs.Rows.{field_of};
ghost use Rattle.message_walk.specs.States.{IsPut};
ghost use Rattle.value_texts.specs.declared.row.TextRule.TheVariants as row;
ghost use Rattle.value_texts.specs.Quick.{HasValue, IsQuick};
ghost use Rattle.value_texts.specs.Rows.{row_text, CanAskOf};

use crate::composite::{mantissa_of, members_at};
use crate::decimals::{put_fixed_decimal, put_floating};
use crate::fixed::put_constant;
use crate::moments::{put_day, put_moment, put_month};
use crate::numbers::{put_choices, put_number, put_passage};
use crate::quick::{Quick, quick_decimal, quick_front};
use crate::row::ConstText;
use crate::seen::{choices_of, field_at, number_of, text_of};
use crate::sets::SetSpelling;
use crate::small::SMALL_ROOM;
use crate::spelling::Spelling;
use bridge_table::{Epoch, Unit};
use flyweight_view::BlockView;
use message_walk::{Halt, Lead, Put};
use sbe_types::Leaf;
use tagvalue_codec::FixWriter;

/// What a number gives, without the general rules.
#[inline(always)]
pub(crate) fn quick_number_at<'a>(
    rule: &'a Spelling,
    block: &BlockView<'_>,
    number: usize,
    room: &mut [u8; SMALL_ROOM],
) -> Quick<'a>
    requires field { number < length block.now.fields }
    requires long { length room.old ≡ SMALL_ROOM }
    ensures long { length room.new ≡ SMALL_ROOM }
    ensures value { HasValue result room.new }
    ensures told { IsQuick result room.new (row_text (row.Number rule.now) (field_of block.now number)) }
{
    let field = field_at(block, number);
    match number_of(field) {
        Some(n) => rule.quick(n, room),
        None => Quick::Nothing,
    }
}

/// What a decimal with this exponent gives, without the general rules.
#[inline(always)]
pub(crate) fn quick_decimal_at<'a>(
    exponent: i128,
    block: &BlockView<'_>,
    number: usize,
    room: &mut [u8; SMALL_ROOM],
) -> Quick<'a>
    requires field { number < length block.now.fields }
    requires long { length room.old ≡ SMALL_ROOM }
    ensures long { length room.new ≡ SMALL_ROOM }
    ensures value { HasValue result room.new }
    ensures told { IsQuick result room.new (row_text (row.Decimal exponent) (field_of block.now number)) }
{
    let field = field_at(block, number);
    match mantissa_of(field) {
        Some(mantissa) => quick_decimal(mantissa, exponent, room),
        None => Quick::Nothing,
    }
}

/// What a text gives, without the general rules.
#[inline(always)]
pub(crate) fn quick_passage_at<'a>(block: &BlockView<'a>, number: usize) -> Quick<'a>
    requires { number < length block.now.fields }
    ensures value { (room : List ℕ) → HasValue result room }
    ensures told { (room : List ℕ) → IsQuick result room (row_text row.Passage (field_of block.now number)) }
{
    let field = field_at(block, number);
    match text_of(field) {
        Some(front) => quick_front(front),
        None => Quick::Nothing,
    }
}

/// Writes the field of a number, if there is one.
pub(crate) fn number_at(
    rule: &Spelling,
    lead: &Lead,
    block: &BlockView<'_>,
    number: usize,
    out: &mut FixWriter,
    halt: &mut Halt,
) -> Put
    requires open { out.old.phase ≡ Open }
    requires field { number < length block.now.fields }
    ensures open { out.new.phase ≡ Open }
    ensures put { (lists : TagLists) → length_in lead.now lists.lengths ≡ None → CanAskOf (row.Number rule.now) number block.now
        → IsPut lists out.old lead.now (row_text (row.Number rule.now) (field_of block.now number)) (record { put = result; draft = out.new; halt = halt.new }) }
{
    let field = field_at(block, number);
    let n = number_of(field);
    put_number(rule, n, lead, out, halt)
}

/// Writes the field of a set, unless it is empty.
#[inline(never)]
pub(crate) fn choices_at(
    rule: &SetSpelling,
    lead: &Lead,
    block: &BlockView<'_>,
    number: usize,
    out: &mut FixWriter,
    halt: &mut Halt,
) -> Put
    requires open { out.old.phase ≡ Open }
    requires field { number < length block.now.fields }
    ensures open { out.new.phase ≡ Open }
    ensures put { (lists : TagLists) → length_in lead.now lists.lengths ≡ None → CanAskOf (row.Choices rule.now) number block.now
        → IsPut lists out.old lead.now (row_text (row.Choices rule.now) (field_of block.now number)) (record { put = result; draft = out.new; halt = halt.new }) }
{
    let field = field_at(block, number);
    let n = choices_of(field);
    put_choices(rule, n, lead, out, halt)
}

/// Writes the field of a text, if there is one.
pub(crate) fn passage_at(
    lead: &Lead,
    block: &BlockView<'_>,
    number: usize,
    out: &mut FixWriter,
    halt: &mut Halt,
) -> Put
    requires open { out.old.phase ≡ Open }
    requires field { number < length block.now.fields }
    ensures open { out.new.phase ≡ Open }
    ensures put { (lists : TagLists) → length_in lead.now lists.lengths ≡ None
        → IsPut lists out.old lead.now (row_text row.Passage (field_of block.now number)) (record { put = result; draft = out.new; halt = halt.new }) }
{
    let field = field_at(block, number);
    let text = text_of(field);
    put_passage(text, lead, out, halt)
}

/// Writes the field of a day, if there is one.
#[inline(never)]
pub(crate) fn day_at(
    lead: &Lead,
    block: &BlockView<'_>,
    number: usize,
    out: &mut FixWriter,
    halt: &mut Halt,
) -> Put
    requires open { out.old.phase ≡ Open }
    requires field { number < length block.now.fields }
    ensures open { out.new.phase ≡ Open }
    ensures put { (lists : TagLists) → length_in lead.now lists.lengths ≡ None
        → IsPut lists out.old lead.now (row_text row.Day (field_of block.now number)) (record { put = result; draft = out.new; halt = halt.new }) }
{
    let field = field_at(block, number);
    let n = number_of(field);
    put_day(n, lead, out, halt)
}

/// Writes the field of a constant, if the field is one.
#[inline(never)]
pub(crate) fn constant_at(
    text: &ConstText,
    lead: &Lead,
    block: &BlockView<'_>,
    number: usize,
    out: &mut FixWriter,
    halt: &mut Halt,
) -> Put
    requires open { out.old.phase ≡ Open }
    requires field { number < length block.now.fields }
    ensures open { out.new.phase ≡ Open }
    ensures put { (lists : TagLists) → length_in lead.now lists.lengths ≡ None
        → IsPut lists out.old lead.now (row_text (row.Const text.now) (field_of block.now number)) (record { put = result; draft = out.new; halt = halt.new }) }
{
    let field = field_at(block, number);
    put_constant(text, field, lead, out, halt)
}

/// Writes the field of a decimal with this exponent, if it has a mantissa.
pub(crate) fn decimal_at(
    exponent: i128,
    lead: &Lead,
    block: &BlockView<'_>,
    number: usize,
    out: &mut FixWriter,
    halt: &mut Halt,
) -> Put
    requires open { out.old.phase ≡ Open }
    requires field { number < length block.now.fields }
    ensures open { out.new.phase ≡ Open }
    ensures put { (lists : TagLists) → length_in lead.now lists.lengths ≡ None
        → IsPut lists out.old lead.now (row_text (row.Decimal exponent) (field_of block.now number)) (record { put = result; draft = out.new; halt = halt.new }) }
{
    let field = field_at(block, number);
    let mantissa = mantissa_of(field);
    put_fixed_decimal(mantissa, exponent, lead, out, halt)
}

/// Writes the field of a decimal whose exponent is a member, if it has a mantissa.
#[inline(never)]
pub(crate) fn floating_at(
    mantissa: &Leaf,
    exponent: &Leaf,
    lead: &Lead,
    block: &BlockView<'_>,
    number: usize,
    out: &mut FixWriter,
    halt: &mut Halt,
) -> Put
    requires open { out.old.phase ≡ Open }
    requires field { number < length block.now.fields }
    ensures open { out.new.phase ≡ Open }
    ensures put { (lists : TagLists) → length_in lead.now lists.lengths ≡ None
        → IsPut lists out.old lead.now (row_text (row.Floating mantissa.now exponent.now) (field_of block.now number)) (record { put = result; draft = out.new; halt = halt.new }) }
{
    let members = members_at(block, number);
    put_floating(&members, mantissa, exponent, lead, out, halt)
}

/// Writes the field of a time and its unit, if there is a time.
#[inline(never)]
pub(crate) fn moment_at(
    epoch: Epoch,
    unit: &Unit,
    lead: &Lead,
    block: &BlockView<'_>,
    number: usize,
    out: &mut FixWriter,
    halt: &mut Halt,
) -> Put
    requires open { out.old.phase ≡ Open }
    requires field { number < length block.now.fields }
    ensures open { out.new.phase ≡ Open }
    ensures put { (lists : TagLists) → length_in lead.now lists.lengths ≡ None
        → IsPut lists out.old lead.now (row_text (row.Moment epoch unit.now) (field_of block.now number)) (record { put = result; draft = out.new; halt = halt.new }) }
{
    let members = members_at(block, number);
    put_moment(&members, epoch, unit, lead, out, halt)
}

/// Writes the field of a month, if there is a year.
#[inline(never)]
pub(crate) fn month_at(
    lead: &Lead,
    block: &BlockView<'_>,
    number: usize,
    out: &mut FixWriter,
    halt: &mut Halt,
) -> Put
    requires open { out.old.phase ≡ Open }
    requires field { number < length block.now.fields }
    ensures open { out.new.phase ≡ Open }
    ensures put { (lists : TagLists) → length_in lead.now lists.lengths ≡ None
        → IsPut lists out.old lead.now (row_text row.Month (field_of block.now number)) (record { put = result; draft = out.new; halt = halt.new }) }
{
    let members = members_at(block, number);
    put_month(&members, lead, out, halt)
}

// The fields of decimals.
ghost use Rattle.std.specs.Prelude.{◌≡◌, ◌≤◌, None, Ok, Some};
ghost use Rattle.tagvalue_codec.specs.declared.write.Phase.TheVariants.{Open};
ghost use Rattle.tagvalue_codec.specs.Drafts.{IsValue};
ghost use Rattle.bridge_terms.specs.MessageFields.{length_in};
ghost use Rattle.bridge_terms.specs.Parts.{TagLists};
ghost use Rattle.message_walk.specs.States.{IsPut};
ghost use Rattle.fix_values.specs.Decimals.{dec, decimal_of, decimal_text, parts_text};
ghost use Rattle.fix_values.specs.Numerals.{is_value};
ghost use Rattle.fix_values.specs.Values.{Leaves};
ghost use Rattle.bridge_rules.specs.Texts.{decimal_in_types, field_text, floating_text, if_read, text_if_any};
ghost use Rattle.reduced_decimals.specs.Forms.{form_of};
ghost use Rattle.value_texts.specs.Rows.{is_ok_of};
ghost use Rattle.value_texts.specs.Small.{small_parts};
ghost use Rattle.value_texts.specs.FieldViews.{members_seen, nth_number, HasMembers};

use crate::composite::member_number;
use crate::shown::put_shown;
use crate::small::{SMALL_ROOM, SmallDecimal, small_of, write_small};
use fix_values::{Short, V, read_decimal, show_decimal};
use flyweight_view::BlockView;
use message_walk::{Halt, Lead, Put, put_text};
use reduced_decimals::{Reduced, reduced_of};
use sbe_types::Leaf;
use tagvalue_codec::FixWriter;

/// Writes the field of a decimal with this exponent, if it has a mantissa.
#[inline(always)]
pub(crate) fn put_fixed_decimal(
    mantissa: Option<i128>,
    exponent: i128,
    lead: &Lead,
    out: &mut FixWriter,
    halt: &mut Halt,
) -> Put
    requires { out.old.phase ≡ Open }
    ensures open { out.new.phase ≡ Open }
    ensures put { (lists : TagLists) → length_in lead.now lists.lengths ≡ None
        → IsPut lists out.old lead.now (text_if_any mantissa (λ m. decimal_text (dec m exponent)))
        (record { put = result; draft = out.new; halt = halt.new }) }
{
    match mantissa {
        None => Put::Nothing,
        Some(mantissa) => match small_of(mantissa, exponent) {
            Some(small) => put_small(small, lead, out, halt),
            None => put_wide(mantissa, exponent, lead, out, halt),
        },
    }
}

/// Writes the field of a decimal with a mantissa of at most 64 bits.
#[inline(always)]
fn put_small(small: SmallDecimal, lead: &Lead, out: &mut FixWriter, halt: &mut Halt) -> Put
    requires open { out.old.phase ≡ Open }
    requires few { small.places ≤ 18 }
    requires value { IsValue (parts_text (small_parts small)) }
    ensures open { out.new.phase ≡ Open }
    ensures put { (lists : TagLists) → length_in lead.now lists.lengths ≡ None
        → IsPut lists out.old lead.now (Ok (Some (parts_text (small_parts small)))) (record { put = result; draft = out.new; halt = halt.new }) }
{
    let mut room = [0; SMALL_ROOM];
    let at = write_small(small, &mut room);
    put_text(lead, &room[at..], out, halt)
}

/// Writes the field of any decimal.
#[inline(never)]
fn put_wide(
    mantissa: i128,
    exponent: i128,
    lead: &Lead,
    out: &mut FixWriter,
    halt: &mut Halt,
) -> Put
    requires { out.old.phase ≡ Open }
    ensures open { out.new.phase ≡ Open }
    ensures put { (lists : TagLists) → length_in lead.now lists.lengths ≡ None
        → IsPut lists out.old lead.now (field_text (decimal_text (dec mantissa exponent))) (record { put = result; draft = out.new; halt = halt.new }) }
{
    let mut text = Short::new();
    let shown = show_any_decimal(mantissa, exponent, &mut text);
    put_shown(shown, &text, lead, out, halt)
}

/// Writes a decimal with any exponent as text.
fn show_any_decimal(mantissa: i128, exponent: i128, out: &mut Short) -> Result<(), V>
    ensures { Leaves result out.new (decimal_text (dec mantissa exponent)) }
{
    match small_of(mantissa, exponent) {
        Some(small) => {
            show_small(small, out);
            Ok(())
        }
        None => show_wide(mantissa, exponent, out),
    }
}

/// Writes a decimal with a mantissa of at most 64 bits as text.
fn show_small(small: SmallDecimal, out: &mut Short)
    requires { small.places ≤ 18 }
    ensures { out.new ≡ parts_text (small_parts small) }
{
    let mut room = [0; SMALL_ROOM];
    let at = write_small(small, &mut room);
    out.clear();
    out.extend(&room[at..]);
}

/// Writes a decimal as text by the general rule.
fn show_wide(mantissa: i128, exponent: i128, out: &mut Short) -> Result<(), V>
    ensures { Leaves result out.new (decimal_text (dec mantissa exponent)) }
{
    match i32::try_from(exponent) {
        Ok(exponent) => show_decimal(mantissa, exponent, out),
        Err(_) => {
            out.clear();
            Err(V::Range)
        }
    }
}

/// Writes the field of a decimal whose exponent is a member, if it has a mantissa.
pub(crate) fn put_floating(
    members: &Option<BlockView<'_>>,
    mantissa: &Leaf,
    exponent: &Leaf,
    lead: &Lead,
    out: &mut FixWriter,
    halt: &mut Halt,
) -> Put
    requires open { out.old.phase ≡ Open }
    requires members { HasMembers members.now }
    ensures open { out.new.phase ≡ Open }
    ensures put { (lists : TagLists) → length_in lead.now lists.lengths ≡ None
        → IsPut lists out.old lead.now
        (text_if_any (nth_number 0 (members_seen members.now)) (λ m. floating_text mantissa.now exponent.now (nth_number 1 (members_seen members.now)) m))
        (record { put = result; draft = out.new; halt = halt.new }) }
{
    match member_number(members, 0) {
        None => Put::Nothing,
        Some(m) => {
            let mut text = Short::new();
            let shown = show_floating(mantissa, exponent, m, member_number(members, 1), &mut text);
            put_shown(shown, &text, lead, out, halt)
        }
    }
}

/// Writes a decimal with an exponent that is present as text, if the text can be read back.
fn show_floating(
    mantissa: &Leaf,
    exponent: &Leaf,
    m: i128,
    e: Option<i128>,
    out: &mut Short,
) -> Result<(), V>
    ensures { Leaves result out.new (floating_text mantissa.now exponent.now e m) }
{
    match e {
        None => {
            out.clear();
            Err(V::Range)
        }
        Some(e) => show_back(mantissa, exponent, m, e, out),
    }
}

/// Writes a decimal as text, if the text can be read back.
fn show_back(mantissa: &Leaf, exponent: &Leaf, m: i128, e: i128, out: &mut Short) -> Result<(), V>
    ensures { Leaves result out.new (floating_text mantissa.now exponent.now (Some e) m) }
{
    match show_any_decimal(m, e, out) {
        Ok(()) => match reduced_of(m, e) {
            Some(form) => judge_form(mantissa, exponent, form, out),
            None => judge_back(mantissa, exponent, out),
        },
        Err(why) => Err(why),
    }
}

/// Keeps the text of a decimal if its reduced form, which is what is read of it, is one of these types.
fn judge_form(mantissa: &Leaf, exponent: &Leaf, form: Reduced, out: &mut Short) -> Result<(), V>
    ensures { Leaves result out.new (if_read out.old (decimal_in_types mantissa.now exponent.now (Ok (form_of form)))) }
{
    if is_value(mantissa, form.mantissa()) && is_value(exponent, form.exponent) {
        return Ok(());
    }
    out.clear();
    Err(V::Range)
}

/// Keeps a text if it is read as a decimal of these types.
fn judge_back(mantissa: &Leaf, exponent: &Leaf, out: &mut Short) -> Result<(), V>
    ensures { Leaves result out.new (if_read out.old (decimal_in_types mantissa.now exponent.now (decimal_of out.old))) }
{
    if is_of_types(mantissa, exponent, out) {
        return Ok(());
    }
    out.clear();
    Err(V::Range)
}

/// Whether a text is read as a decimal of these types.
fn is_of_types(mantissa: &Leaf, exponent: &Leaf, text: &Short) -> bool
    ensures { result ≡ is_ok_of (decimal_in_types mantissa.now exponent.now (decimal_of text.now)) }
{
    match read_decimal(text.bytes()) {
        Ok(number) => {
            is_value(mantissa, number.mantissa) && is_value(exponent, number.exponent as i128)
        }
        Err(_) => false,
    }
}

/// Whether the number is one of the leaf's.
fn is_value(leaf: &Leaf, n: i128) -> bool
    ensures { result ≡ is_value leaf.now n }
{
    leaf.admits(n) && !leaf.is_null(n)
}

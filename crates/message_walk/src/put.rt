// The field of a value.
ghost use Rattle.std.specs.Prelude.{◌≡◌, ◌<◌, ◌≤◌, List, length, take, None, Ok, Some, IfSome};
ghost use Rattle.std.specs.Fmt.{decimal};
ghost use Rattle.tagvalue_codec.specs.declared.write.Phase.TheVariants.{Open};
ghost use Rattle.tagvalue_codec.specs.Drafts.{IsValue};
ghost use Rattle.flyweight_view.specs.ByTable.{IsTableBlock};
ghost use Rattle.bridge_rules.specs.Rules.{Rule};
ghost use Rattle.bridge_rules.specs.Texts.{text_by};
ghost use Rattle.bridge_terms.specs.MessageFields.{length_in};
ghost use Rattle.bridge_terms.specs.Parts.{TagLists};
ghost use Rattle.bridge_terms.specs.Places.{place_of};
ghost use Rattle.message_walk.specs.declared.put.TheConstants.{SHORT_TEXT};
ghost use Rattle.message_walk.specs.Rows.{field_of, IsForField};
ghost use Rattle.message_walk.specs.States.{after, outcome, IsPut};

use crate::halt::{Cause, Halt};
use crate::lead::Lead;
use flyweight_view::{BlockView, TableBlock};
use itoa::Buffer;
use tagvalue_codec::FixWriter;

/// No text that is written with its tag at once has more bytes.
const SHORT_TEXT: usize = 40;

/// What became of the field of a value.
#[derive(Clone, Copy, Debug, PartialEq, Eq, Drop)]
pub enum Put {
    Written,
    /// The value has no field.
    Nothing,
    /// It has no text, or there is no room: the halt says why.
    Refused,
}

/// How the values of a field are written.
pub trait PutValue {
    /// Whether it writes values by this rule.
    ghost spells: { Self → Rule → Type 0 };

    /// Writes the field of the value of field `number` of a block, if the value has one. Requires a field in range.
    fn put(
        &self,
        lead: &Lead,
        block: &BlockView<'_>,
        number: usize,
        out: &mut FixWriter,
        halt: &mut Halt,
    ) -> Put
        requires open { out.old.phase ≡ Open }
        requires field { number < length block.now.fields }
        ensures open { out.new.phase ≡ Open }
        ensures put { (lists : TagLists) (rule : Rule) → length_in lead.now lists.lengths ≡ None → spells self.now rule
            → IsForField rule number block.now.fields
            → IsPut lists out.old lead.now (text_by rule (field_of block.now number)) (record { put = result; draft = out.new; halt = halt.new }) };

    /// The same for a field of any number, given the block's table, if it has one.
    fn put_at(
        &self,
        lead: &Lead,
        block: &BlockView<'_>,
        table: &Option<TableBlock<'_>>,
        number: usize,
        out: &mut FixWriter,
        halt: &mut Halt,
    ) -> Put
        requires open { out.old.phase ≡ Open }
        requires table { IfSome table.now (λ t. IsTableBlock t block.now) }
        ensures open { out.new.phase ≡ Open }
        ensures put { (lists : TagLists) (rule : Rule) → length_in lead.now lists.lengths ≡ None → spells self.now rule
            → IsForField rule number block.now.fields
            → IsPut lists out.old lead.now (text_by rule (field_of block.now number)) (record { put = result; draft = out.new; halt = halt.new }) };
}

/// Writes a field with this text.
#[inline(always)]
pub fn put_text(lead: &Lead, text: &[u8], out: &mut FixWriter, halt: &mut Halt) -> Put
    requires open { out.old.phase ≡ Open }
    requires value { IsValue text.now }
    ensures open { out.new.phase ≡ Open }
    ensures put { (lists : TagLists) → length_in lead.now lists.lengths ≡ None
        → IsPut lists out.old lead.now (Ok (Some text.now)) (record { put = result; draft = out.new; halt = halt.new }) }
{
    if text.len() > SHORT_TEXT {
        return put_long(lead, text, out, halt);
    }
    let (array, used) = lead.array();
    if out.led_field(array, used, text) {
        return Put::Written;
    }
    put_long(lead, text, out, halt)
}

/// The same for a text of any length, which may have no room.
#[inline(never)]
fn put_long(lead: &Lead, text: &[u8], out: &mut FixWriter, halt: &mut Halt) -> Put
    requires open { out.old.phase ≡ Open }
    requires value { IsValue text.now }
    ensures open { out.new.phase ≡ Open }
    ensures put { (lists : TagLists) → length_in lead.now lists.lengths ≡ None
        → IsPut lists out.old lead.now (Ok (Some text.now)) (record { put = result; draft = out.new; halt = halt.new }) }
{
    let tag = lead.bytes();
    match out.ready_field(tag, text) {
        Ok(()) => Put::Written,
        Err(full) => {
            halt.tell(Cause::Full(full.needed));
            Put::Refused
        }
    }
}

/// Writes a field whose text is the first bytes of a slice. `N` bytes of the slice are copied, so that the copy doesn't
/// branch on a length.
#[inline(always)]
pub fn put_front<const N: usize>(
    lead: &Lead,
    bytes: &[u8],
    count: usize,
    out: &mut FixWriter,
    halt: &mut Halt,
) -> Put
    requires open { out.old.phase ≡ Open }
    requires short { N ≤ SHORT_TEXT }
    requires enough { N ≤ length bytes.now }
    requires count { count ≤ N }
    requires value { IsValue (take count bytes.now) }
    ensures open { out.new.phase ≡ Open }
    ensures put { (lists : TagLists) → length_in lead.now lists.lengths ≡ None
        → IsPut lists out.old lead.now (Ok (Some (take count bytes.now))) (record { put = result; draft = out.new; halt = halt.new }) }
{
    let (array, used) = lead.array();
    if out.front_field::<N>(array, used, bytes, count) {
        return Put::Written;
    }
    put_long(lead, &bytes[..count], out, halt)
}

/// Writes a length field and the data field with these bytes.
pub(crate) fn put_data_text(
    length_lead: &Lead,
    lead: &Lead,
    text: &[u8],
    out: &mut FixWriter,
    halt: &mut Halt,
) -> Put
    requires open { out.old.phase ≡ Open }
    requires value { 0 < length text.now }
    ensures open { out.new.phase ≡ Open }
    ensures put { (lists : TagLists) → length_in lead.now lists.lengths ≡ Some length_lead.now
        → IsPut lists out.old lead.now (Ok (Some text.now)) (record { put = result; draft = out.new; halt = halt.new }) }
{
    let first = length_lead.bytes();
    let second = lead.bytes();
    match out.ready_data_field(first, second, text) {
        Ok(()) => Put::Written,
        Err(full) => {
            halt.tell(Cause::Full(full.needed));
            Put::Refused
        }
    }
}

/// Writes the field of a count.
#[tactic(auto, using(crate::proofs::Steps::put_on, crate::proofs::Steps::put_off))]
pub(crate) fn put_count(lead: &Lead, count: usize, out: &mut FixWriter, halt: &mut Halt) -> bool
    requires { out.old.phase ≡ Open }
    ensures open { out.new.phase ≡ Open }
    ensures put { (lists : TagLists) → length_in lead.now lists.lengths ≡ None
        → outcome result out.new halt.new ≡ after lists out.old (place_of lead.now (decimal count)) }
{
    match put_number(lead, count, out, halt) {
        Put::Written => true,
        Put::Nothing => true,
        Put::Refused => false,
    }
}

/// Writes the field of a number.
#[inline(always)]
fn put_number(lead: &Lead, number: usize, out: &mut FixWriter, halt: &mut Halt) -> Put
    requires open { out.old.phase ≡ Open }
    ensures open { out.new.phase ≡ Open }
    ensures put { (lists : TagLists) → length_in lead.now lists.lengths ≡ None
        → IsPut lists out.old lead.now (Ok (Some (decimal number))) (record { put = result; draft = out.new; halt = halt.new }) }
{
    if number < 10 {
        return put_digit(lead, number as u8, out, halt);
    }
    put_digits(lead, number, out, halt)
}

/// Writes the field of a number of one digit.
#[inline(always)]
fn put_digit(lead: &Lead, digit: u8, out: &mut FixWriter, halt: &mut Halt) -> Put
    requires open { out.old.phase ≡ Open }
    requires digit { digit < 10 }
    ensures open { out.new.phase ≡ Open }
    ensures put { (lists : TagLists) → length_in lead.now lists.lengths ≡ None
        → IsPut lists out.old lead.now (Ok (Some (decimal digit))) (record { put = result; draft = out.new; halt = halt.new }) }
{
    put_text(lead, &[b'0' + digit], out, halt)
}

/// Writes the field of a number of any digits.
#[inline(never)]
#[tactic(auto, using(crate::proofs::Values::count_value))]
fn put_digits(lead: &Lead, number: usize, out: &mut FixWriter, halt: &mut Halt) -> Put
    requires open { out.old.phase ≡ Open }
    ensures open { out.new.phase ≡ Open }
    ensures put { (lists : TagLists) → length_in lead.now lists.lengths ≡ None
        → IsPut lists out.old lead.now (Ok (Some (decimal number))) (record { put = result; draft = out.new; halt = halt.new }) }
{
    let mut buffer = Buffer::new();
    put_text(lead, buffer.format(number).as_bytes(), out, halt)
}

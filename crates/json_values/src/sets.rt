ghost use Rattle.std.specs.Prelude.{◌≡◌, ◌||◌};
ghost use Rattle.serde_json.specs.Data.{array};
ghost use Rattle.json_values.specs.Values.{set_data, has_bit, chosen};
ghost use Rattle.json_values.specs.Plain.{plain_text, choice_text};
ghost use Rattle.printers.specs.Prints.{Prints};

use crate::texts::put_string;
use crate::values::{put_comma, put_count};
use named_numbers::{are_listed, bit_of};
use printers::Printer;
use sbe_base::Sink;
use sbe_types::Named;

/// Prints a set: an array of the names of its choices in the schema's order, or its number if one of its bits isn't a
/// choice.
#[inline(never)]
pub fn put_set<O: Sink>(printer: &mut Printer<'_, O>, names: &[Named], bits: u64)
    ensures { Prints O.state printer.old printer.new (plain_text (set_data names.now bits)) }
{
    if are_listed(names, bits) {
        put_chosen(printer, names, bits);
    } else {
        put_count(printer, bits);
    }
}

/// Whether the bit with this number is set.
#[inline(always)]
#[tactic(auto, using(crate::proofs::Bits::bit_seen, crate::proofs::Bits::no_bit_seen))]
fn has_bit(bits: u64, number: &i128) -> bool
    ensures { result ≡ has_bit bits number.now }
{
    match bit_of(number) {
        Some(place) => (bits >> place) & 1 == 1,
        None => false,
    }
}

/// Prints the names of the choices whose bits are set, as an array.
fn put_chosen<O: Sink>(printer: &mut Printer<'_, O>, names: &[Named], bits: u64)
    ensures { Prints O.state printer.old printer.new (plain_text (array (chosen bits names.now))) }
{
    printer.put(b"[");
    let mut later = false;
    for choice in names {
        later = put_choice(printer, later, choice, bits);
    }
    printer.put(b"]");
}

/// Prints the name of a choice whose bit is set, and returns whether a name has been printed by now.
fn put_choice<O: Sink>(printer: &mut Printer<'_, O>, later: bool, choice: &Named, bits: u64) -> bool
    ensures later { result ≡ (has_bit bits choice.now.number || later) }
    ensures text { Prints O.state printer.old printer.new (choice_text later bits choice.now) }
{
    if !has_bit(bits, &choice.number) {
        return later;
    }
    put_comma(printer, later);
    put_string(printer, choice.name.as_slice());
    true
}

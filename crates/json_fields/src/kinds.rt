// The values that bytes encode, as JSON.
ghost use Rattle.std.specs.Prelude.{◌≡◌, ◌≤◌, ◌+◌, ◌*◌, ◌++◌, pos, false, true, length, take, drop};
ghost use Rattle.serde_json.specs.Data.{array};
ghost use Rattle.serde_json.specs.Written.{comma_if};
ghost use Rattle.sbe_types.specs.declared.kind.Kind.{Leaf as LeafKind, Comp};
ghost use Rattle.sbe_types.specs.declared.message.Value.{Value};
ghost use Rattle.sbe_types.specs.Numbers.{number_of, prim_width};
ghost use Rattle.sbe_types.specs.Places.{width, is_const, begin_of as begins_at, end_past};
ghost use Rattle.sbe_types.specs.Shows.{ShowsLeaf};
ghost use Rattle.schema_rules.specs.TypeRules.{is_set_primitive};
ghost use Rattle.schema_facts.specs.InOrder.{IsKindInOrder, IsLeafInOrder};
ghost use Rattle.json_values.specs.Values.{value_data, enum_data, is_character};
ghost use Rattle.json_values.specs.Names.{AreNamed};
ghost use Rattle.json_values.specs.Plain.{plain_text, shown_text};
ghost use Rattle.json_fields.specs.Shown.{single_shown, enum_shown, text_shown, element_shown, elements_shown, PrintsShown};
ghost use Rattle.printers.specs.Prints.{Prints};

use field_values::before_zero;
use flat_rows::{begin_of, end_after};
use json_values::{
    name_of, plain_front, put_comma, put_constant, put_key, put_null, put_number, put_plain_front,
    put_set, put_single, put_text,
};
use printers::Printer;
use sbe_base::Sink;
use sbe_types::{Kind, Leaf, LeafShape, List, Member, Named, Order, Presence, Prim, get_num};

/// Prints the value that the bytes of a kind encode. Requires a valid kind, and as many bytes as it is wide.
#[cycle(kind)]
#[inline(always)]
#[tactic(auto, using(crate::proofs::FromBytes::enum_written, crate::proofs::FromBytes::set_written, crate::proofs::FromBytes::constant_written))]
pub fn put_shown<O: Sink>(printer: &mut Printer<'_, O>, order: Order, kind: &Kind, bytes: &[u8])
    requires ready { IsKindInOrder kind.now }
    requires wide { length bytes.now ≡ width kind.now }
    ensures { PrintsShown order kind.now bytes.now (Prints O.state printer.old printer.new) }
{
    match kind {
        Kind::Leaf(leaf) => put_leaf(printer, order, leaf, bytes),
        Kind::Enum(leaf, names) => {
            let number = get_num(order, leaf.prim, bytes);
            put_listed(printer, leaf, names.as_slice(), &number);
        }
        Kind::Set(prim, names) => {
            let bits = set_number(order, *prim, bytes);
            put_set(printer, names.as_slice(), bits);
        }
        Kind::Comp(members) => put_members(printer, order, members, bytes),
        Kind::Const(constant) => put_constant(printer, constant),
    }
}

/// Prints the members of a composite, as an object.
#[cycle(kind)]
#[inline(never)]
fn put_members<O: Sink>(
    printer: &mut Printer<'_, O>,
    order: Order,
    members: &List<Member>,
    bytes: &[u8],
)
    requires ready { IsKindInOrder (Comp members.now) }
    requires wide { length bytes.now ≡ width (Comp members.now) }
    ensures { PrintsShown order (Comp members.now) bytes.now (Prints O.state printer.old printer.new) }
{
    printer.put(b"{");
    let mut end = 0;
    let mut later = false;
    for member in members.as_slice() {
        put_key(printer, later, member.name.as_slice());
        let after = end_after(end, member.offset, &member.kind);
        let part = member_bytes(member, end, after, bytes);
        put_shown(printer, order, &member.kind, part);
        end = after;
        later = true;
    }
    printer.put(b"}");
}

/// The bytes of a composite's member, which follows members that end at `end` and itself ends at `after`. A constant
/// has none.
fn member_bytes<'a>(member: &Member, end: u32, after: u32, bytes: &'a [u8]) -> &'a [u8]
    requires after { after ≡ end_past end member.now.offset member.now.kind }
    requires within { is_const member.now.kind ≡ false → begins_at end member.now.offset + width member.now.kind ≤ length bytes.now }
    ensures { result.now ≡ take (width member.now.kind) (drop (begins_at end member.now.offset) bytes.now) }
{
    match &member.kind {
        Kind::Const(_) => &[],
        Kind::Leaf(_) | Kind::Enum(_, _) | Kind::Set(_, _) | Kind::Comp(_) => {
            &bytes[begin_of(end, member.offset) as usize..after as usize]
        }
    }
}

/// The number of a set's bytes.
fn set_number(order: Order, prim: Prim, bytes: &[u8]) -> u64
    requires encoding { is_set_primitive prim ≡ true }
    requires wide { length bytes.now ≡ prim_width prim }
    ensures { pos result ≡ number_of order prim bytes.now }
{
    get_num(order, prim, bytes) as u64
}

/// Prints a single number, a text or an array.
#[inline(always)]
fn put_leaf<O: Sink>(printer: &mut Printer<'_, O>, order: Order, leaf: &Leaf, bytes: &[u8])
    requires order { IsLeafInOrder leaf.now }
    requires wide { length bytes.now ≡ width (LeafKind leaf.now) }
    ensures { (v : Value) → ShowsLeaf order leaf.now.shape leaf.now v bytes.now
        → Prints O.state printer.old printer.new (shown_text (value_data (LeafKind leaf.now) v)) }
{
    match leaf.shape {
        LeafShape::Number => {
            let number = get_num(order, leaf.prim, bytes);
            put_one(printer, leaf, &number);
        }
        LeafShape::RangedText => put_text_in(printer, leaf, bytes),
        LeafShape::EncodedText => put_text_in(printer, leaf, bytes),
        LeafShape::Octets => put_array(printer, order, leaf, bytes),
        LeafShape::Numbers => put_array(printer, order, leaf, bytes),
    }
}

/// Whether the leaf's primitive is a char.
fn is_character(leaf: &Leaf) -> bool
    ensures { result ≡ is_character leaf.now.prim }
{
    leaf.prim == Prim::Char
}

/// Prints a single number, or null.
#[inline(always)]
fn put_one<O: Sink>(printer: &mut Printer<'_, O>, leaf: &Leaf, number: &i128)
    ensures { Prints O.state printer.old printer.new (plain_text (single_shown leaf.now number.now)) }
{
    if leaf.is_null(*number) {
        put_null(printer);
    } else {
        put_single(printer, is_character(leaf), number);
    }
}

/// Prints the number of an enum, or null. Requires well-formed names.
#[inline(never)]
pub(crate) fn put_listed<O: Sink>(
    printer: &mut Printer<'_, O>,
    leaf: &Leaf,
    names: &[Named],
    number: &i128,
)
    requires { AreNamed names.now }
    ensures { Prints O.state printer.old printer.new (plain_text (enum_shown leaf.now names.now number.now)) }
{
    if leaf.is_null(*number) {
        put_null(printer);
    } else {
        put_valid(printer, names, number);
    }
}

/// Prints the name of an enum's number without escaping, or the number if no valid value has it.
#[inline(always)]
#[tactic(auto, using(crate::proofs::Valid::name_written, crate::proofs::Valid::number_written))]
fn put_valid<O: Sink>(printer: &mut Printer<'_, O>, names: &[Named], number: &i128)
    requires { AreNamed names.now }
    ensures { Prints O.state printer.old printer.new (plain_text (enum_data names.now number.now)) }
{
    match name_of(names, number) {
        Some(name) => printer.put_in_quotes(name),
        None => put_number(printer, number),
    }
}

/// Prints the text before the first 00, or null if it is empty and the leaf is optional.
#[inline(always)]
#[tactic(auto, using(crate::proofs::Fronts::front_written))]
pub(crate) fn put_text_in<O: Sink>(printer: &mut Printer<'_, O>, leaf: &Leaf, bytes: &[u8])
    ensures { Prints O.state printer.old printer.new (plain_text (text_shown leaf.now bytes.now)) }
{
    match plain_front(bytes) {
        Some(run) => put_plain_front(printer, bytes, run),
        None => put_any_text(printer, leaf, bytes),
    }
}

/// Prints the text before the first 00, whatever its bytes, or null if it is empty and the leaf is optional.
#[inline(never)]
fn put_any_text<O: Sink>(printer: &mut Printer<'_, O>, leaf: &Leaf, bytes: &[u8])
    ensures { Prints O.state printer.old printer.new (plain_text (text_shown leaf.now bytes.now)) }
{
    let text = before_zero(bytes);
    if leaf.presence == Presence::Optional && text.is_empty() {
        put_null(printer);
    } else {
        put_text(printer, text);
    }
}

/// Prints the elements of an array.
#[inline(never)]
fn put_array<O: Sink>(printer: &mut Printer<'_, O>, order: Order, leaf: &Leaf, bytes: &[u8])
    requires { length bytes.now ≡ prim_width leaf.now.prim * leaf.now.length }
    ensures { Prints O.state printer.old printer.new (plain_text (array (elements_shown order leaf.now leaf.now.length bytes.now))) }
{
    printer.put(b"[");
    let wide = leaf.prim.width();
    let mut rest = bytes;
    let mut later = false;
    let mut left = leaf.length;
    while left > 0 {
        let number = get_num(order, leaf.prim, &rest[..wide]);
        put_next(printer, later, leaf, &number);
        rest = &rest[wide..];
        left -= 1;
        later = true;
    }
    printer.put(b"]");
}

/// Prints an element of an array or null, preceded by a comma if it isn't the first.
fn put_next<O: Sink>(printer: &mut Printer<'_, O>, later: bool, leaf: &Leaf, number: &i128)
    ensures { Prints O.state printer.old printer.new (comma_if later ++ plain_text (element_shown leaf.now number.now)) }
{
    put_comma(printer, later);
    if leaf.is_null(*number) {
        put_null(printer);
    } else {
        put_number(printer, number);
    }
}

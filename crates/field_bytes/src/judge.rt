ghost use Rattle.std.specs.Prelude.{◌≡◌, ◌&&◌, find, length, nat_le, not, true};
ghost use Rattle.sbe_types.specs.declared.kind.Kind.{Leaf as LeafKind};
ghost use Rattle.sbe_types.specs.Places.{width};
ghost use Rattle.sbe_types.specs.Shown.{is_optional};
ghost use Rattle.sbe_types.specs.Shows.{is_empty, is_text_byte};
ghost use Rattle.sbe_types.specs.declared.message.Value.TheVariants.{Enum, Null, Nums, Text};
ghost use Rattle.sbe_wire.specs.Misfit.{array_misfit, element_misfit, enum_misfit, leaf_misfit, misfit_in, number_misfit, other_kind, set_misfit, text_misfit, value_misfit};
ghost use Rattle.sbe_types.specs.declared.path.Step.TheVariants.{Elem as ElemStep};
ghost use Rattle.field_bytes.specs.Faults.{is_single, misfit_unless};

use crate::fault::{FieldCause, ValueFault, refuse, refuse_element};
use named_numbers::{are_listed, is_listed};
use sbe_types::{Elem, Kind, Leaf, LeafShape, NamedList, Presence, Value};

/// Whether a value fits a leaf, an enum or a set. If not, `out` receives the first element or byte that doesn't.
pub fn value_judge(kind: &Kind, v: &Value, out: &mut ValueFault) -> bool
    requires { is_single kind.now ≡ true }
    ensures { misfit_unless result out.new ≡ value_misfit kind.now v.now }
{
    match kind {
        Kind::Leaf(leaf) => leaf_judge(leaf, v, out),
        Kind::Enum(leaf, names) => enum_judge(leaf, names, v, out),
        Kind::Set(_, choices) => set_judge(choices, v, out),
        Kind::Comp(_) => unreachable!(),
        Kind::Const(_) => unreachable!(),
    }
}

fn leaf_judge(leaf: &Leaf, v: &Value, out: &mut ValueFault) -> bool
    ensures { misfit_unless result out.new ≡ leaf_misfit leaf.now.shape leaf.now v.now }
{
    match leaf.shape {
        LeafShape::Number => number_judge(leaf, v, out),
        LeafShape::RangedText | LeafShape::EncodedText => text_judge(leaf, v, out),
        LeafShape::Octets | LeafShape::Numbers => array_judge(leaf, v, out),
    }
}

/// Refuses a value of another kind than the field's.
fn other_kind(out: &mut ValueFault) -> bool
    ensures { misfit_unless result out.new ≡ other_kind }
{
    refuse(FieldCause::Kind, 0, out)
}

/// Checks a null, which only an optional field may have.
fn null_judge(leaf: &Leaf, out: &mut ValueFault) -> bool
    ensures { misfit_unless result out.new ≡ number_misfit leaf.now Null }
{
    leaf.presence == Presence::Optional || other_kind(out)
}

fn number_judge(leaf: &Leaf, v: &Value, out: &mut ValueFault) -> bool
    ensures { misfit_unless result out.new ≡ number_misfit leaf.now v.now }
{
    match v {
        Value::Num(n) => {
            leaf.admits(*n) && !leaf.is_null(*n) || refuse(FieldCause::Range, *n, out)
        }
        Value::Null => null_judge(leaf, out),
        Value::Text(_)
        | Value::Nums(_)
        | Value::Enum(_)
        | Value::Set(_)
        | Value::Comp(_)
        | Value::Const
        | Value::Absent => other_kind(out),
    }
}

fn enum_judge(leaf: &Leaf, names: &NamedList, v: &Value, out: &mut ValueFault) -> bool
    ensures { misfit_unless result out.new ≡ enum_misfit leaf.now names.now v.now }
{
    match v {
        Value::Enum(n) => listed_judge(leaf, names, *n, out),
        Value::Null => null_judge(leaf, out),
        Value::Num(_)
        | Value::Text(_)
        | Value::Nums(_)
        | Value::Set(_)
        | Value::Comp(_)
        | Value::Const
        | Value::Absent => other_kind(out),
    }
}

/// Checks a listed number, which may still be the null.
fn listed_judge(leaf: &Leaf, names: &NamedList, n: i128, out: &mut ValueFault) -> bool
    ensures { misfit_unless result out.new ≡ enum_misfit leaf.now names.now (Enum n) }
{
    if !is_listed(names.as_slice(), n) {
        return refuse(FieldCause::EnumUnknown, n, out);
    }
    !leaf.is_null(n) || refuse(FieldCause::Range, n, out)
}

fn set_judge(choices: &NamedList, v: &Value, out: &mut ValueFault) -> bool
    ensures { misfit_unless result out.new ≡ set_misfit choices.now v.now }
{
    match v {
        Value::Set(bits) => {
            are_listed(choices.as_slice(), *bits)
                || refuse(FieldCause::SetUnknown, *bits as i128, out)
        }
        Value::Num(_)
        | Value::Null
        | Value::Text(_)
        | Value::Nums(_)
        | Value::Enum(_)
        | Value::Comp(_)
        | Value::Const
        | Value::Absent => other_kind(out),
    }
}

fn text_judge(leaf: &Leaf, v: &Value, out: &mut ValueFault) -> bool
    ensures { misfit_unless result out.new ≡ text_misfit leaf.now v.now }
{
    match v {
        Value::Text(text) => bytes_judge(leaf, text.as_slice(), out),
        Value::Null => null_judge(leaf, out),
        Value::Num(_)
        | Value::Nums(_)
        | Value::Enum(_)
        | Value::Set(_)
        | Value::Comp(_)
        | Value::Const
        | Value::Absent => other_kind(out),
    }
}

/// Checks a text: first its length, then its bytes.
fn bytes_judge(leaf: &Leaf, text: &[u8], out: &mut ValueFault) -> bool
    ensures { misfit_unless result out.new ≡ text_misfit leaf.now (Text text.now) }
{
    if !has_right_length(leaf, text) {
        return refuse(FieldCause::Range, text.len() as i128, out);
    }
    match bad_byte(leaf, text) {
        Some(byte) => refuse(FieldCause::TextByte, byte as i128, out),
        None => true,
    }
}

/// Whether a text fits the leaf, and isn't an empty text of an optional leaf.
fn has_right_length(leaf: &Leaf, text: &[u8]) -> bool
    ensures { result ≡ (nat_le (length text.now) (width (LeafKind leaf.now)) && not (is_optional leaf.now.presence && is_empty text.now)) }
{
    let wide = leaf.prim.width() * leaf.length as usize;
    text.len() <= wide && !(leaf.presence == Presence::Optional && text.is_empty())
}

/// The first byte that isn't allowed in a text.
#[tactic(auto, using(crate::proofs::Fitting::find_next, crate::proofs::Fitting::find_here))]
fn bad_byte(leaf: &Leaf, text: &[u8]) -> Option<u8>
    ensures { result ≡ find (λ b. not (is_text_byte leaf.now b)) text.now }
{
    for byte in text {
        if !is_text_byte(leaf, *byte) {
            return Some(*byte);
        }
    }
    None
}

/// Whether a byte is allowed in a text: it isn't 00, and is within the range if there is no character encoding.
fn is_text_byte(leaf: &Leaf, byte: u8) -> bool
    ensures { result ≡ is_text_byte leaf.now byte }
{
    byte != 0 && (leaf.shape != LeafShape::RangedText || leaf.admits(byte as i128))
}

fn array_judge(leaf: &Leaf, v: &Value, out: &mut ValueFault) -> bool
    ensures { misfit_unless result out.new ≡ array_misfit leaf.now v.now }
{
    match v {
        Value::Nums(elements) => elements_judge(leaf, elements.as_slice(), out),
        Value::Num(_)
        | Value::Null
        | Value::Text(_)
        | Value::Enum(_)
        | Value::Set(_)
        | Value::Comp(_)
        | Value::Const
        | Value::Absent => other_kind(out),
    }
}

/// Checks that there are as many elements as the array is long, and each of them.
fn elements_judge(leaf: &Leaf, elements: &[Elem], out: &mut ValueFault) -> bool
    ensures { misfit_unless result out.new ≡ array_misfit leaf.now (Nums elements.now) }
{
    if elements.len() != leaf.length as usize {
        return other_kind(out);
    }
    for (at, element) in elements.iter().enumerate() {
        if !element_judge(leaf, at, element, out) {
            return false;
        }
    }
    true
}

/// Checks element `at` of an array.
fn element_judge(leaf: &Leaf, at: usize, element: &Elem, out: &mut ValueFault) -> bool
    ensures { misfit_unless result out.new ≡ misfit_in (ElemStep at) (element_misfit leaf.now element.now) }
{
    match *element {
        Elem::Num(n) => {
            leaf.admits(n) && !leaf.is_null(n) || refuse_element(at, FieldCause::Range, n, out)
        }
        Elem::Null => {
            leaf.presence == Presence::Optional && leaf.shape != LeafShape::Octets
                || refuse_element(at, FieldCause::Kind, 0, out)
        }
    }
}

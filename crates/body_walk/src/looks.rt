// Fast validity checks of values. `false` means unknown, not invalid.
ghost use Rattle.std.specs.Prelude.{◌≡◌, ◌||◌, ℕ, not, true, length, pos, Ok, None};
ghost use Rattle.sbe_types.specs.declared.kind.Kind.{Leaf as LeafKind};
ghost use Rattle.sbe_types.specs.declared.kind.Primitive.TheVariants.{Char};
ghost use Rattle.sbe_types.specs.declared.kind.LeafShape.TheVariants.{RangedText};
ghost use Rattle.sbe_types.specs.LeafBad.{leaf_bad, text_bad};
ghost use Rattle.sbe_types.specs.Numbers.{number_of, prim_width};
ghost use Rattle.sbe_types.specs.Places.{width};
ghost use Rattle.sbe_types.specs.Shown.{admits, is_null, is_listed};
ghost use Rattle.schema_rules.specs.Ranges.{is_number_of};
ghost use Rattle.schema_facts.specs.InOrder.{IsLeafInOrder};
ghost use Rattle.body_walk.specs.inner.Outcomes.{piece};
ghost use Rattle.body_walk.specs.inner.Kinds.{kind_check, IsReady};

use crate::numbers::shows_enum;
use sbe_types::{Kind, Leaf, LeafShape, NamedList, Order, get_num};
use sbe_wire::Mode;

/// Whether the fast check accepts bytes as a value of a kind.
#[inline(always)]
#[tactic(auto, using(crate::proofs::AtOnce::leaf_looks, crate::proofs::AtOnce::enum_looks))]
pub(crate) fn shows_at_once(mode: Mode, kind: &Kind, bytes: &[u8]) -> bool
    requires ready { IsReady kind.now }
    requires wide { length bytes.now ≡ width kind.now }
    ensures { result ≡ true → (at : ℕ) → kind_check mode kind.now (piece at bytes.now) ≡ Ok tt }
{
    match kind {
        Kind::Leaf(leaf) => shows_leaf(mode.order, leaf, bytes),
        Kind::Enum(leaf, values) => is_enum(mode, leaf, values, bytes),
        Kind::Set(_, _) | Kind::Comp(_) | Kind::Const(_) => false,
    }
}

/// Whether bytes are a value of an enum.
#[inline(always)]
fn is_enum(mode: Mode, leaf: &Leaf, values: &NamedList, bytes: &[u8]) -> bool
    requires { length bytes.now ≡ prim_width leaf.now.prim }
    ensures { let n = number_of mode.order leaf.now.prim bytes.now in result ≡ (is_null leaf.now n || (is_listed values.now n || not mode.known)) }
{
    let number = get_num(mode.order, leaf.prim, bytes);
    shows_enum(leaf, values, mode.known, number)
}

/// Whether the fast check accepts bytes as a number or a text.
#[inline(always)]
#[tactic(auto, using(crate::proofs::AtOnce::number_looks, crate::proofs::AtOnce::text_looks, crate::proofs::AtOnce::encoded_looks))]
pub(crate) fn shows_leaf(order: Order, leaf: &Leaf, bytes: &[u8]) -> bool
    requires order { IsLeafInOrder leaf.now }
    requires wide { length bytes.now ≡ width (LeafKind leaf.now) }
    ensures { result ≡ true → leaf_bad order leaf.now bytes.now ≡ None }
{
    match leaf.shape {
        LeafShape::Number => is_in_range(order, leaf, bytes),
        LeafShape::RangedText => is_text(leaf, bytes),
        LeafShape::EncodedText => true,
        LeafShape::Octets | LeafShape::Numbers => false,
    }
}

/// Whether bytes are a number within the range.
#[inline(always)]
fn is_in_range(order: Order, leaf: &Leaf, bytes: &[u8]) -> bool
    requires { length bytes.now ≡ prim_width leaf.now.prim }
    ensures { result ≡ admits leaf.now (number_of order leaf.now.prim bytes.now) }
{
    leaf.admits(get_num(order, leaf.prim, bytes))
}

/// Whether the bytes up to the first 00 are within the range.
fn is_text(leaf: &Leaf, bytes: &[u8]) -> bool
    requires order { IsLeafInOrder leaf.now }
    requires shape { leaf.now.shape ≡ RangedText }
    ensures { result ≡ true → text_bad leaf.now bytes.now ≡ None }
{
    let low = as_byte(leaf.low);
    let high = as_byte(leaf.high);
    for byte in bytes {
        if !is_between(leaf, low, high, *byte) {
            return *byte == 0;
        }
    }
    true
}

/// A number of the primitive char as a byte.
#[inline(always)]
fn as_byte(number: i128) -> u8
    requires { is_number_of Char number ≡ true }
    ensures { pos result ≡ number }
{
    number as u8
}

/// Whether a byte is within the range of a leaf, which is from `low` to `high`.
#[inline(always)]
fn is_between(leaf: &Leaf, low: u8, high: u8, byte: u8) -> bool
    requires low { leaf.now.low ≡ pos low }
    requires high { leaf.now.high ≡ pos high }
    ensures { result ≡ admits leaf.now (pos byte) }
{
    low <= byte && byte <= high
}

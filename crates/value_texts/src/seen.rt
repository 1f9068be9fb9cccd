// The values of fields.
ghost use Rattle.std.specs.Prelude.{◌≡◌, ◌<◌, ℕ, Bool, List, true, length, slice_get, pos, None, Some, IfSome};
ghost use Rattle.std.specs.Option.{option_map};
ghost use Rattle.sbe_types.specs.declared.kind.Kind.{Leaf as LeafKind};
ghost use Rattle.sbe_types.specs.declared.kind.Order.{Order as AnyOrder};
ghost use Rattle.sbe_types.specs.declared.message.Value.{Value};
ghost use Rattle.sbe_types.specs.Numbers.{natural, number_of, prim_width};
ghost use Rattle.sbe_types.specs.Places.{width};
ghost use Rattle.sbe_types.specs.Shows.{text_value, Shows, ShowsLeaf};
ghost use Rattle.schema_facts.specs.InOrder.{IsKindInOrder, IsLeafInOrder};
ghost use Rattle.schema_rules.specs.TypeRules.{is_set_primitive};
ghost use Rattle.field_values.specs.Reports.{before_zero, seen_element};
ghost use Rattle.bridge_rules.specs.Members.{is_const, not_zero, number_in, text_in};
ghost use Rattle.message_walk.specs.Rows.{field_of};
ghost use Rattle.value_texts.specs.Fronts.{IsFront};
ghost use Rattle.value_texts.specs.FieldViews.{choices_in, is_word, CanReadAny, IsSeenOf};

use crate::fronts::{Front, front_of};
use flyweight_view::{BlockView, FieldBytes};
use sbe_types::{Kind, Leaf, LeafShape, Order, Presence, Prim, get_num};

/// The field with this number, or `None` if it is absent. Requires a field in range.
#[inline(always)]
pub(crate) fn field_at<'a>(block: &BlockView<'a>, number: usize) -> Option<FieldBytes<'a>>
    requires { number < length block.now.fields }
    ensures kind { IfSome result (λ f. option_map (λ p. p.kind) (slice_get block.now.fields number) ≡ Some f.kind.now) }
    ensures ready { CanReadAny result }
    ensures seen { IsSeenOf result (field_of block.now number) }
{
    block.field(number)
}

/// The number of a field that is a single number or an enum, and not null.
#[inline(always)]
pub(crate) fn number_of(field: Option<FieldBytes<'_>>) -> Option<i128>
    requires { CanReadAny field }
    ensures { (v : Value) → IsSeenOf field.entry v → number_in v ≡ result }
{
    match field {
        None => None,
        Some(field) => kind_number(field.order, field.kind, field.bytes),
    }
}

/// The same for the bytes of a kind.
#[inline(always)]
pub(crate) fn kind_number(order: Order, kind: &Kind, bytes: &[u8]) -> Option<i128>
    requires ready { IsKindInOrder kind.now }
    requires wide { length bytes.now ≡ width kind.now }
    ensures { (known : Bool) (v : Value) → Shows order known kind.now v bytes.now → number_in v ≡ result }
{
    match kind {
        Kind::Leaf(leaf) => leaf_number(order, leaf, bytes),
        Kind::Enum(leaf, _) => number_unless_null(order, leaf, bytes),
        Kind::Set(_, _) => None,
        Kind::Comp(_) => None,
        Kind::Const(_) => None,
    }
}

/// The number of a leaf that is a number, and not null.
#[inline(always)]
fn leaf_number(order: Order, leaf: &Leaf, bytes: &[u8]) -> Option<i128>
    requires order { IsLeafInOrder leaf.now }
    requires wide { length bytes.now ≡ width (LeafKind leaf.now) }
    ensures { (v : Value) → ShowsLeaf order leaf.now.shape leaf.now v bytes.now → number_in v ≡ result }
{
    match leaf.shape {
        LeafShape::Number => number_unless_null(order, leaf, bytes),
        LeafShape::RangedText => None,
        LeafShape::EncodedText => None,
        LeafShape::Octets => None,
        LeafShape::Numbers => None,
    }
}

/// The number that the bytes of one primitive encode, unless it is the leaf's null.
#[inline(always)]
fn number_unless_null(order: Order, leaf: &Leaf, bytes: &[u8]) -> Option<i128>
    requires { length bytes.now ≡ prim_width leaf.now.prim }
    ensures { result ≡ seen_element leaf.now (number_of order leaf.now.prim bytes.now) }
{
    let number = prim_number(order, leaf.prim, bytes);
    if leaf.is_null(number) {
        None
    } else {
        Some(number)
    }
}

/// The number that the bytes of one primitive encode. A single byte is read at once.
#[inline(always)]
fn prim_number(order: Order, prim: Prim, bytes: &[u8]) -> i128
    requires { length bytes.now ≡ prim_width prim }
    ensures { result ≡ number_of order prim bytes.now }
{
    match prim {
        Prim::Char => bytes[0] as i128,
        Prim::U8 => bytes[0] as i128,
        Prim::I8 | Prim::I16 | Prim::I32 | Prim::I64 | Prim::U16 | Prim::U32 | Prim::U64 => {
            get_num(order, prim, bytes)
        }
    }
}

/// The number of the choices of a set, unless it is empty.
pub(crate) fn choices_of(field: Option<FieldBytes<'_>>) -> Option<i128>
    requires { CanReadAny field }
    ensures seen { (v : Value) → IsSeenOf field.entry v → choices_in v ≡ result }
    ensures small { IfSome result (λ n. is_word n ≡ true) }
{
    match field {
        None => None,
        Some(field) => kind_choices(field.order, field.kind, field.bytes),
    }
}

/// The same for the bytes of a kind.
fn kind_choices(order: Order, kind: &Kind, bytes: &[u8]) -> Option<i128>
    requires ready { IsKindInOrder kind.now }
    requires wide { length bytes.now ≡ width kind.now }
    ensures seen { (known : Bool) (v : Value) → Shows order known kind.now v bytes.now → choices_in v ≡ result }
    ensures small { IfSome result (λ n. is_word n ≡ true) }
{
    match kind {
        Kind::Set(prim, _) => choices_shown(order, *prim, bytes),
        Kind::Leaf(_) => None,
        Kind::Enum(_, _) => None,
        Kind::Comp(_) => None,
        Kind::Const(_) => None,
    }
}

/// The number of the choices that the bytes of a set encode, unless there are none.
#[tactic(auto, using(crate::proofs::Values::some_choices, crate::proofs::Values::no_choices, crate::proofs::Values::word_small))]
fn choices_shown(order: Order, prim: Prim, bytes: &[u8]) -> Option<i128>
    requires encoding { is_set_primitive prim ≡ true }
    requires wide { length bytes.now ≡ prim_width prim }
    ensures seen { option_map pos (not_zero (natural (number_of order prim bytes.now))) ≡ result }
    ensures small { IfSome result (λ n. is_word n ≡ true) }
{
    let bits = set_number(order, prim, bytes);
    if bits == 0 {
        return None;
    }
    Some(bits as i128)
}

/// The number that the bytes of a set encode.
fn set_number(order: Order, prim: Prim, bytes: &[u8]) -> u64
    requires encoding { is_set_primitive prim ≡ true }
    requires wide { length bytes.now ≡ prim_width prim }
    ensures { pos result ≡ number_of order prim bytes.now }
{
    get_num(order, prim, bytes) as u64
}

/// The text of a field that is a text, and not null.
#[inline(always)]
pub(crate) fn text_of<'a>(field: Option<FieldBytes<'a>>) -> Option<Front<'a>>
    ensures plain { IfSome result IsFront }
    ensures text { (v : Value) → IsSeenOf field.entry v → text_in v ≡ option_map (λ f. f.text.now) result }
{
    match field {
        None => None,
        Some(field) => kind_text(field.kind, field.bytes),
    }
}

/// The same for the bytes of a kind.
#[inline(always)]
fn kind_text<'a>(kind: &Kind, bytes: &'a [u8]) -> Option<Front<'a>>
    ensures plain { IfSome result IsFront }
    ensures text { (order : AnyOrder) (known : Bool) (v : Value) → Shows order known kind.now v bytes.now → text_in v ≡ option_map (λ f. f.text.now) result }
{
    match kind {
        Kind::Leaf(leaf) => leaf_text(leaf, bytes),
        Kind::Enum(_, _) => None,
        Kind::Set(_, _) => None,
        Kind::Comp(_) => None,
        Kind::Const(_) => None,
    }
}

/// The text of a leaf that is a text, and not null.
#[inline(always)]
fn leaf_text<'a>(leaf: &Leaf, bytes: &'a [u8]) -> Option<Front<'a>>
    ensures plain { IfSome result IsFront }
    ensures text { (order : AnyOrder) (v : Value) → ShowsLeaf order leaf.now.shape leaf.now v bytes.now → text_in v ≡ option_map (λ f. f.text.now) result }
{
    match leaf.shape {
        LeafShape::RangedText => text_unless_null(leaf, bytes),
        LeafShape::EncodedText => text_unless_null(leaf, bytes),
        LeafShape::Number => None,
        LeafShape::Octets => None,
        LeafShape::Numbers => None,
    }
}

/// The text before the first 00, unless it is empty and the leaf is optional.
#[inline(always)]
fn text_unless_null<'a>(leaf: &Leaf, bytes: &'a [u8]) -> Option<Front<'a>>
    ensures plain { IfSome result IsFront }
    ensures text { text_in (text_value leaf.now (before_zero bytes.now)) ≡ option_map (λ f. f.text.now) result }
{
    let front = front_of(bytes);
    if leaf.presence == Presence::Optional && front.text.is_empty() {
        None
    } else {
        Some(front)
    }
}

/// Whether the field is a constant.
pub(crate) fn is_constant(field: Option<FieldBytes<'_>>) -> bool
    ensures { (v : Value) → IsSeenOf field.entry v → is_const v ≡ result }
{
    match field {
        None => false,
        Some(field) => is_constant_kind(field.kind),
    }
}

/// Whether the kind is that of constants.
fn is_constant_kind(kind: &Kind) -> bool
    ensures { (order : AnyOrder) (known : Bool) (v : Value) (b : List ℕ) → Shows order known kind.now v b → is_const v ≡ result }
{
    match kind {
        Kind::Const(_) => true,
        Kind::Leaf(_) => false,
        Kind::Enum(_, _) => false,
        Kind::Set(_, _) => false,
        Kind::Comp(_) => false,
    }
}

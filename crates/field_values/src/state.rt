ghost use Rattle.std.specs.Prelude.{◌≡◌, Bool, length};
ghost use Rattle.sbe_types.specs.declared.kind.Kind.{Leaf as LeafKind};
ghost use Rattle.sbe_types.specs.declared.message.Value.{Value};
ghost use Rattle.sbe_types.specs.Numbers.{number_of, prim_width};
ghost use Rattle.sbe_types.specs.Places.{width};
ghost use Rattle.sbe_types.specs.Shows.{Shows, ShowsLeaf, is_empty};
ghost use Rattle.schema_facts.specs.InOrder.{IsKindInOrder, IsLeafInOrder};
ghost use Rattle.field_values.specs.Reports.{before_zero, number_state, state_of, text_state};

use sbe_types::{Kind, Leaf, LeafShape, Order, Presence, get_num};

/// Whether a field of a block has a value.
#[derive(Clone, Copy, Debug, PartialEq, Eq)]
pub enum FieldState {
    /// The field doesn't exist at the message's version.
    Absent,
    /// The value is fixed by the schema.
    Const,
    /// It is null (SBE 1.0, "Null values").
    Null,
    /// It has a value.
    Here,
}

/// Whether a field that exists has a value. Requires as many bytes as the kind is wide.
pub fn state_in(order: Order, kind: &Kind, bytes: &[u8]) -> FieldState
    requires ready { IsKindInOrder kind.now }
    requires wide { length bytes.now ≡ width kind.now }
    ensures { (known : Bool) (v : Value) → Shows order known kind.now v bytes.now → state_of v ≡ result }
{
    match kind {
        Kind::Leaf(leaf) => leaf_state(order, leaf, bytes),
        Kind::Enum(leaf, _) => number_state(order, leaf, bytes),
        Kind::Set(_, _) => FieldState::Here,
        Kind::Comp(_) => FieldState::Here,
        Kind::Const(_) => FieldState::Const,
    }
}

/// Whether a leaf has a value.
fn leaf_state(order: Order, leaf: &Leaf, bytes: &[u8]) -> FieldState
    requires order { IsLeafInOrder leaf.now }
    requires wide { length bytes.now ≡ width (LeafKind leaf.now) }
    ensures { (v : Value) → ShowsLeaf order leaf.now.shape leaf.now v bytes.now → state_of v ≡ result }
{
    match leaf.shape {
        LeafShape::Number => number_state(order, leaf, bytes),
        LeafShape::RangedText => text_state(leaf, bytes),
        LeafShape::EncodedText => text_state(leaf, bytes),
        LeafShape::Octets => FieldState::Here,
        LeafShape::Numbers => FieldState::Here,
    }
}

/// Whether a number has a value: it may be the null of the leaf.
fn number_state(order: Order, leaf: &Leaf, bytes: &[u8]) -> FieldState
    requires { length bytes.now ≡ prim_width leaf.now.prim }
    ensures { result ≡ number_state leaf.now (number_of order leaf.now.prim bytes.now) }
{
    let number = get_num(order, leaf.prim, bytes);
    if leaf.is_null(number) {
        FieldState::Null
    } else {
        FieldState::Here
    }
}

/// Whether a text has a value: an empty one is the null of an optional leaf.
fn text_state(leaf: &Leaf, bytes: &[u8]) -> FieldState
    ensures { result ≡ text_state leaf.now bytes.now }
{
    if leaf.presence == Presence::Optional && is_blank(bytes) {
        FieldState::Null
    } else {
        FieldState::Here
    }
}

/// Whether there is no text before the first 00.
fn is_blank(bytes: &[u8]) -> bool
    ensures { result ≡ is_empty (before_zero bytes.now) }
{
    bytes.is_empty() || bytes[0] == 0
}

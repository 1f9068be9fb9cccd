//! The values of a block's fields, for code that doesn't know their kinds.
ghost use Rattle.std.specs.Prelude.{◌≡◌, ◌<◌, is_some, length, slice_get};
ghost use Rattle.std.specs.Option.{option_and_then, option_map};
ghost use Rattle.sbe_types.specs.declared.message.Block.{out-Block};
ghost use Rattle.field_values.specs.Reports.{number_in, text_in};
ghost use Rattle.field_lookup.specs.Values.{composite_at, data_at, is_composite, is_number_kind, is_text_kind, number_at, text_at};

use flyweight_view::{BlockView, FieldState};
use sbe_types::{Kind, LeafShape};

/// The number of a field. A field that is null, absent or a constant has none, nor has one of another kind, nor one that
/// the block doesn't have.
pub fn number_of(block: &BlockView<'_>, i: usize) -> Option<i128>
    ensures { result ≡ number_at i block.now }
{
    if i < block.counts().0 && has_number(block, i) {
        return Some(block.num(i));
    }
    None
}

/// The members of a field that is a composite. Requires a field in range.
#[tactic(auto, using(crate::proofs::CompositeThere::members_there, crate::proofs::CompositeThere::no_members, crate::proofs::CompositeThere::absent_members))]
pub fn composite_of<'a>(block: &BlockView<'a>, i: usize) -> Option<BlockView<'a>>
    requires { i < length block.now.fields }
    ensures { result ≡ composite_at i block.now }
{
    match block.field(i) {
        Some(field) => {
            if is_composite(field.kind) {
                Some(block.comp(i))
            } else {
                None
            }
        }
        None => None,
    }
}

/// The text of a field, if it has one.
pub(crate) fn text_of<'a>(block: &BlockView<'a>, i: usize) -> Option<&'a [u8]>
    ensures { option_map (λ b. b.now) result ≡ text_at i block.now }
{
    if i < block.counts().0 && has_text(block, i) {
        return Some(block.text(i));
    }
    None
}

/// The bytes of a data part, if the block has it.
pub(crate) fn data_of<'a>(block: &BlockView<'a>, i: usize) -> Option<&'a [u8]>
    ensures { option_map (λ b. b.now) result ≡ data_at i block.now }
{
    if i >= block.counts().2 {
        return None;
    }
    block.data(i)
}

/// Whether a field has a number. Requires a field in range.
fn has_number(block: &BlockView<'_>, i: usize) -> bool
    requires { i < length block.now.fields }
    ensures { result ≡ is_some (option_and_then number_in (slice_get (out-Block block.now.block).fields i)) }
{
    match block.field(i) {
        Some(field) => match block.state(i) {
            FieldState::Here => is_number_kind(field.kind),
            FieldState::Absent | FieldState::Const | FieldState::Null => false,
        },
        None => false,
    }
}

/// Whether a field has a text. Requires a field in range.
fn has_text(block: &BlockView<'_>, i: usize) -> bool
    requires { i < length block.now.fields }
    ensures { result ≡ is_some (option_and_then text_in (slice_get (out-Block block.now.block).fields i)) }
{
    match block.field(i) {
        Some(field) => match block.state(i) {
            FieldState::Here => is_text_kind(field.kind),
            FieldState::Absent | FieldState::Const | FieldState::Null => false,
        },
        None => false,
    }
}

/// Whether a kind is a composite.
fn is_composite(kind: &Kind) -> bool
    ensures { result ≡ is_composite kind.now }
{
    matches!(kind, Kind::Comp(_))
}

/// Whether a value of the kind is a single number: an integer, an enum or a set.
fn is_number_kind(kind: &Kind) -> bool
    ensures { result ≡ is_number_kind kind.now }
{
    match kind {
        Kind::Leaf(leaf) => leaf.shape == LeafShape::Number,
        Kind::Enum(_, _) | Kind::Set(_, _) => true,
        Kind::Comp(_) | Kind::Const(_) => false,
    }
}

/// Whether a value of the kind is a text.
fn is_text_kind(kind: &Kind) -> bool
    ensures { result ≡ is_text_kind kind.now }
{
    match kind {
        Kind::Leaf(leaf) => match leaf.shape {
            LeafShape::RangedText | LeafShape::EncodedText => true,
            LeafShape::Number | LeafShape::Octets | LeafShape::Numbers => false,
        },
        Kind::Enum(_, _) | Kind::Set(_, _) | Kind::Comp(_) | Kind::Const(_) => false,
    }
}

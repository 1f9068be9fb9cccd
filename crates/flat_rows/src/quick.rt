// What a row stores of its kind.
ghost use Rattle.std.specs.Prelude.{◌≡◌, IfSome, pos};
ghost use Rattle.sbe_types.specs.declared.kind.Kind.{Leaf as LeafKind, Set as SetKind};
ghost use Rattle.sbe_types.specs.declared.kind.LeafShape.TheVariants.{Number, RangedText};
ghost use Rattle.sbe_types.specs.declared.kind.Primitive.{Primitive};
ghost use Rattle.sbe_types.specs.Shown.{is_optional};
ghost use Rattle.flat_rows.specs.Quick.{look_of, AddsBit, AreListedBits, IsQuick};

use crate::rows::{Look, Quick};
use named_numbers::bit_of;
use sbe_types::{Kind, Leaf, LeafShape, Named, Presence, Prim};

/// For kinds of which nothing is stored.
const OTHER: Quick = Quick {
    look: Look::Other,
    optional: false,
    null: 0,
    low: 0,
    high: 0,
};

/// What is stored of an enum.
const ENUM: Quick = Quick {
    look: Look::Enum,
    optional: false,
    null: 0,
    low: 0,
    high: 0,
};

/// What a row stores of a kind.
pub(crate) fn quick_of(kind: &Kind) -> Quick
    ensures { IsQuick result kind.now }
{
    match kind {
        Kind::Leaf(leaf) => leaf_quick(leaf),
        Kind::Enum(_, _) => ENUM,
        Kind::Set(_, choices) => set_quick(choices.as_slice()),
        Kind::Comp(_) | Kind::Const(_) => OTHER,
    }
}

/// What a row stores of a set.
#[tactic(auto, using(crate::proofs::Bits::stored_bits))]
fn set_quick(choices: &[Named]) -> Quick
    ensures { (prim : Primitive) → IsQuick result (SetKind prim choices.now) }
{
    Quick {
        look: Look::Set,
        optional: false,
        null: bits_of(choices).cast_signed(),
        low: 0,
        high: 0,
    }
}

/// The bits of choices.
fn bits_of(choices: &[Named]) -> u64
    ensures { AreListedBits result choices.now }
{
    let mut bits = 0;
    for choice in choices {
        bits = with_bit(bits, &choice.number);
    }
    bits
}

/// The bits with the bit of this number set, if it is one of the 64 bits.
#[tactic(auto, using(crate::proofs::Bits::bit_added, crate::proofs::Bits::no_bit_added))]
fn with_bit(bits: u64, number: &i128) -> u64
    ensures { AddsBit number.now bits result }
{
    match bit_of(number) {
        Some(place) => bits | 1 << place,
        None => bits,
    }
}

/// What a row stores of a number, a text or an array.
fn leaf_quick(leaf: &Leaf) -> Quick
    ensures { IsQuick result (LeafKind leaf.now) }
{
    match leaf.shape {
        LeafShape::Number => number_quick(leaf),
        LeafShape::RangedText => text_quick(leaf),
        LeafShape::EncodedText | LeafShape::Octets | LeafShape::Numbers => OTHER,
    }
}

/// What a row stores of a number.
fn number_quick(leaf: &Leaf) -> Quick
    requires { leaf.now.shape ≡ Number }
    ensures { IsQuick result (LeafKind leaf.now) }
{
    let (Some(low), Some(high), Some(null)) = (
        narrowed(leaf.low),
        narrowed(leaf.high),
        narrowed(leaf.null),
    ) else {
        return OTHER;
    };
    Quick {
        look: look_of(leaf.prim),
        optional: is_optional(leaf.presence),
        null,
        low,
        high,
    }
}

/// How a number is checked and printed. A uint64 may not fit 64 bits with a sign, and a char is printed as text.
fn look_of(prim: Prim) -> Look
    ensures { result ≡ look_of prim }
{
    match prim {
        Prim::I8 => Look::I8,
        Prim::I16 => Look::I16,
        Prim::I32 => Look::I32,
        Prim::I64 => Look::I64,
        Prim::U8 => Look::U8,
        Prim::U16 => Look::U16,
        Prim::U32 => Look::U32,
        Prim::U64 | Prim::Char => Look::Other,
    }
}

/// What a row stores of a text.
fn text_quick(leaf: &Leaf) -> Quick
    requires { leaf.now.shape ≡ RangedText }
    ensures { IsQuick result (LeafKind leaf.now) }
{
    let (Some(low), Some(high)) = (byte_of(leaf.low), byte_of(leaf.high)) else {
        return OTHER;
    };
    Quick {
        look: Look::Text,
        optional: false,
        null: 0,
        low: low as i64,
        high: high as i64,
    }
}

/// The number as a byte, if it fits one.
fn byte_of(number: i128) -> Option<u8>
    ensures { IfSome result (λ byte. pos byte ≡ number) }
{
    if number >= 0 && number <= 255 {
        Some(number as u8)
    } else {
        None
    }
}

/// The number in 64 bits, if it fits.
fn narrowed(number: i128) -> Option<i64>
    ensures { IfSome result (λ narrow. narrow ≡ number) }
{
    if number >= i64::MIN as i128 && number <= i64::MAX as i128 {
        Some(number as i64)
    } else {
        None
    }
}

fn is_optional(presence: Presence) -> bool
    ensures { result ≡ is_optional presence }
{
    match presence {
        Presence::Optional => true,
        Presence::Required | Presence::Constant => false,
    }
}

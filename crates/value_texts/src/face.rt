// The numbers of values, read from their bytes at a fixed place.
ghost use Rattle.std.specs.Prelude.{◌≡◌, ◌&&◌, not, true, IfSome};
ghost use Rattle.sbe_types.specs.declared.kind.Primitive.TheVariants.{Char as CharOf};
ghost use Rattle.sbe_types.specs.Shown.{is_octets, is_optional};
ghost use Rattle.flat_rows.specs.Quick.{is_word};
ghost use Rattle.value_texts.specs.Faces.{found_by, IsFaceFor, IsFound};

use flat_rows::number_in;
use sbe_types::{Leaf, LeafShape, Presence, Prim};

/// How the number of a value is read from its bytes, in little-endian order: its type, and its null if it may be null.
/// No uint64 is read.
#[derive(Clone, Copy)]
pub struct NumberFace {
    pub prim: Prim,
    pub optional: bool,
    pub null: i64,
}

/// A face by which no number is read.
pub(crate) const UNREAD: NumberFace = NumberFace {
    prim: Prim::U64,
    optional: false,
    null: 0,
};

/// What the bytes of a number show.
#[derive(Clone, Copy)]
pub(crate) enum Found {
    Number(i64),
    Null,
    /// The general rules tell.
    Unknown,
}

impl NumberFace {
    /// The face of a leaf that is a single number.
    pub(crate) fn new(leaf: &Leaf) -> NumberFace
        ensures { IsFaceFor result leaf.now }
    {
        match narrowed(leaf.null) {
            Some(null) => NumberFace {
                prim: leaf.prim,
                optional: may_be_null(leaf),
                null,
            },
            None => UNREAD,
        }
    }

    /// What bytes show.
    #[inline(always)]
    pub(crate) fn read(&self, bytes: &[u8]) -> Found
        ensures { IsFound result self.now bytes.now }
    {
        match self.prim {
            Prim::I8 => self.read_word(Prim::I8, bytes),
            Prim::I16 => self.read_word(Prim::I16, bytes),
            Prim::I32 => self.read_word(Prim::I32, bytes),
            Prim::I64 => self.read_word(Prim::I64, bytes),
            Prim::U8 => self.read_word(Prim::U8, bytes),
            Prim::U16 => self.read_word(Prim::U16, bytes),
            Prim::U32 => self.read_word(Prim::U32, bytes),
            Prim::Char => self.read_char(bytes),
            Prim::U64 => Found::Unknown,
        }
    }

    /// What bytes show of a number of the face's type, if they are as many.
    #[inline(always)]
    fn read_word(&self, prim: Prim, bytes: &[u8]) -> Found
        requires same { self.now.prim ≡ prim }
        requires word { is_word prim ≡ true }
        ensures { IsFound result self.now bytes.now }
    {
        if bytes.len() != prim.width() {
            return Found::Unknown;
        }
        let n = number_in(prim, bytes);
        self.found(n)
    }

    /// What bytes show of a char, if it is one byte.
    #[inline(always)]
    fn read_char(&self, bytes: &[u8]) -> Found
        requires { self.now.prim ≡ CharOf }
        ensures { IsFound result self.now bytes.now }
    {
        if bytes.len() != 1 {
            return Found::Unknown;
        }
        let n = bytes[0] as i64;
        self.found(n)
    }

    /// A number, or that it is null.
    #[inline(always)]
    fn found(&self, n: i64) -> Found
        ensures { result ≡ found_by self.now n }
    {
        if self.optional && n == self.null {
            return Found::Null;
        }
        Found::Number(n)
    }
}

/// Whether a leaf may be null.
fn may_be_null(leaf: &Leaf) -> bool
    ensures { result ≡ (is_optional leaf.now.presence && not (is_octets leaf.now.shape)) }
{
    is_optional(leaf.presence) && !is_octets(leaf.shape)
}

fn is_optional(presence: Presence) -> bool
    ensures { result ≡ is_optional presence }
{
    match presence {
        Presence::Optional => true,
        Presence::Required | Presence::Constant => false,
    }
}

fn is_octets(shape: LeafShape) -> bool
    ensures { result ≡ is_octets shape }
{
    match shape {
        LeafShape::Octets => true,
        LeafShape::Number | LeafShape::RangedText | LeafShape::EncodedText | LeafShape::Numbers => {
            false
        }
    }
}

/// The number in 64 bits, if it fits.
fn narrowed(number: i128) -> Option<i64>
    ensures { IfSome result (λ narrow. narrow ≡ number) }
{
    if number >= i64::MIN as i128 && number <= i64::MAX as i128 {
        Some(number as i64)
    } else {
        None
    }
}

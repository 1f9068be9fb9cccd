ghost use Rattle.std.specs.Prelude.{◌≡◌, ◌≤◌};
ghost use Rattle.sbe_types.specs.Numbers.{prim_width};

use lists::{Bytes, List, Text};

/// A primitive type: a character, or a signed or unsigned integer of one to eight bytes (SBE 1.0, "Encoding: primitive
/// data types").
#[derive(Clone, Copy, Debug, PartialEq, Eq)]
pub enum Primitive {
    Char,
    I8,
    I16,
    I32,
    I64,
    U8,
    U16,
    U32,
    U64,
}

/// A primitive type.
pub type Prim = Primitive;

impl Primitive {
    /// How many bytes a primitive takes.
    pub fn width(self) -> usize
        ensures value { result ≡ prim_width self }
        ensures small { result ≤ 8 }
    {
        match self {
            Prim::Char | Prim::I8 | Prim::U8 => 1,
            Prim::I16 | Prim::U16 => 2,
            Prim::I32 | Prim::U32 => 4,
            Prim::I64 | Prim::U64 => 8,
        }
    }
}

/// The byte order of a schema's numbers.
#[derive(Clone, Copy, Debug, PartialEq, Eq)]
pub enum Order {
    Little,
    Big,
}

/// Whether a value must be there, may be null, or is fixed by the schema.
#[derive(Clone, Copy, Debug, PartialEq, Eq)]
pub enum Presence {
    Required,
    Optional,
    Constant,
}

/// How the primitives of a leaf are interpreted.
#[derive(Clone, Copy, Debug, PartialEq, Eq)]
pub enum LeafShape {
    /// One number.
    Number,
    /// A char array without a character encoding: each byte of the text is within the range.
    RangedText,
    /// A char array with a character encoding: any byte but 00 is allowed.
    EncodedText,
    /// A uint8 array without a stated range: bytes from 0 to 255, none of them null.
    Octets,
    /// Any other integer array, checked element by element.
    Numbers,
}

/// A primitive, or an array of them, with its range and null.
#[derive(Clone, Copy, Debug, PartialEq, Eq)]
pub struct Leaf {
    pub prim: Prim,
    pub length: u32,
    pub shape: LeafShape,
    pub presence: Presence,
    pub null: i128,
    pub low: i128,
    pub high: i128,
}

/// A valid value of an enum, or a choice of a set: its name, and its number or bit.
#[derive(Debug, Drop)]
pub struct Named {
    pub name: Text,
    pub number: i128,
}

pub type NamedList = List<Named>;

/// The value of a constant, which takes no bytes.
#[derive(Debug, Drop)]
pub enum ConstValue {
    Num(i128),
    Text(Bytes),
    /// A valid value of an enum, with the enum's encoding.
    Code(Prim, Named),
}

/// The kind of a field or of a composite's member.
#[cycle(kind)]
#[derive(Drop)]
pub enum Kind {
    Leaf(Leaf),
    /// The encoding and the valid values.
    Enum(Leaf, NamedList),
    /// The encoding and the choices, whose numbers are bits.
    Set(Prim, NamedList),
    /// A composite's members.
    Comp(List<Member>),
    Const(ConstValue),
}

/// A member of a composite. Its offset counts from the composite's first byte.
#[cycle(kind)]
#[derive(Drop)]
pub struct Member {
    pub name: Text,
    pub offset: Option<u32>,
    pub kind: Kind,
}

pub type MemberList = List<Member>;

use fix_values::CodeList;
use lists::Bytes;
use sbe_types::{Leaf, NamedList};

/// The row of the table of kinds and datatypes that applies to a part, with what its texts and its bytes need.
#[derive(Drop)]
pub enum FieldRule {
    /// An integer among integers.
    Integer(Leaf),
    /// An integer among decimals.
    IntegerDecimal(Leaf),
    /// A decimal whose exponent is a constant: its mantissa's type, and the exponent.
    FixedDecimal(Leaf, i128),
    /// A decimal whose exponent is on the wire: the types of both.
    FloatingDecimal(Leaf, Leaf),
    /// A char among chars and texts.
    SingleChar(Leaf),
    /// A char array among texts.
    CharArray(Leaf),
    /// An enum.
    Enum(EnumRule),
    /// A set: the codes of its choices.
    ChoiceSet(CodeList),
    /// Data, by the type of its length.
    RawData(Leaf),
    /// Data among texts.
    TextData(Leaf),
    /// An integer among days.
    DayCount(Leaf),
    /// A time and its unit among moments.
    Moment(Epoch, Leaf, Unit),
    /// A year, a month, and a day or a week of it.
    MonthYear(MonthLeaves),
    /// A constant.
    Const(ConstRule),
}

/// The rule of an enum, with the texts of its valid values.
#[derive(Drop)]
pub enum EnumRule {
    /// Of a code set, or among chars and texts: the codes of its valid values.
    Code(Leaf, CodeList),
    /// Among integers: the digits of each valid value.
    Number(Leaf, CodeList),
    /// Among Booleans: its valid values.
    Boolean(Leaf, NamedList),
}

/// The rule of a constant, with its value.
#[derive(Drop)]
pub enum ConstRule {
    /// A text among texts.
    Text(Bytes),
    /// A text of one byte among chars.
    Character(u8),
    /// An integer among integers.
    Integer(i128),
    /// An integer among decimals.
    Decimal(i128),
    /// An integer among days.
    Day(i128),
    /// A valid value of an enum, and its number.
    Enum(EnumRule, i128),
}

/// The origin of a time.
#[derive(Clone, Copy)]
pub enum Epoch {
    /// The beginning of 1970.
    Unix,
    Midnight,
}

/// The unit of a moment: ten to the minus this many seconds.
#[derive(Clone, Copy)]
pub enum Unit {
    Always(u8),
    /// A member of this type.
    OnWire(Leaf),
}

/// The members of a month.
#[derive(Clone, Copy)]
pub struct MonthLeaves {
    pub year: Leaf,
    pub month: Leaf,
    pub day: Leaf,
    pub week: Leaf,
}

ghost use Rattle.std.specs.Prelude.{◌≡◌};
ghost use Rattle.fix_values.specs.Values.{can_show, can_read};

use crate::apart::{are_choices, are_numbers_apart, are_short, are_texts_apart, are_truths_apart};
use lists::{Bytes, List};
use sbe_types::NamedList;
use thiserror::Error;

/// Why a value has no text, or a text no value. The codes V1 to V6 are this project's profile.
#[derive(Clone, Copy, Debug, PartialEq, Eq, Drop, Error)]
pub enum V {
    /// The text isn't spelled as its rule requires; or a character to be written is SOH, which ends a field.
    #[error("V1")]
    Spelling,
    /// The number isn't one of the field's, or has more digits than are read.
    #[error("V2")]
    Range,
    /// The number isn't an integer with the field's exponent.
    #[error("V3")]
    Inexact,
    /// The text contains SOH.
    #[error("V4")]
    Soh,
    /// The text is empty.
    #[error("V5")]
    Empty,
    /// No code has this number or this text.
    #[error("V6")]
    UnknownCode,
}

/// How many bytes the text of a code may have.
pub const MOST_BYTES: usize = 64;

/// The text of a number: for a value of an enum its number, for a choice of a set its bit.
#[derive(Debug, Drop)]
pub struct Code {
    pub number: i128,
    pub text: Bytes,
}

pub type CodeList = List<Code>;

/// How a number is written, by its kind and the datatype of its field.
#[derive(Drop)]
pub enum NumRule {
    /// Digits, with `-` before a negative number: the datatypes of integers.
    Int,
    /// The same, read as a decimal that must be an integer: the datatypes of decimals.
    Decimal,
    /// The number as one byte.
    Char,
    /// `Y` for 1 or the character `Y`, `N` for 0 or the character `N`, among these listed values.
    Boolean(NamedList),
    /// The text of the code with the number.
    Code(CodeList),
    /// The texts of the codes of the number's bits, separated by spaces.
    Codes(CodeList),
}

impl NumRule {
    /// Whether numbers can be written by the rule: its codes have texts of 1 to 64 bytes; those of a set have one byte
    /// each, and different bits from 0 to 63.
    pub fn can_show(&self) -> bool
        ensures { result ≡ can_show self.now }
    {
        match self {
            NumRule::Int | NumRule::Decimal | NumRule::Char | NumRule::Boolean(_) => true,
            NumRule::Code(codes) => are_short(codes.as_slice()),
            NumRule::Codes(codes) => {
                are_choices(codes.as_slice()) && are_numbers_apart(codes.as_slice())
            }
        }
    }

    /// Whether texts can be read by the rule: numbers can be written by it, and no two codes or listed values have the
    /// same text.
    pub fn can_read(&self) -> bool
        ensures { result ≡ can_read self.now }
    {
        match self {
            NumRule::Int | NumRule::Decimal | NumRule::Char => true,
            NumRule::Boolean(names) => are_truths_apart(names.as_slice()),
            NumRule::Code(codes) => {
                are_short(codes.as_slice()) && are_texts_apart(codes.as_slice())
            }
            NumRule::Codes(codes) => {
                are_choices(codes.as_slice())
                    && are_numbers_apart(codes.as_slice())
                    && are_texts_apart(codes.as_slice())
            }
        }
    }
}

/// A decimal: the mantissa times ten to the exponent.
#[derive(Clone, Copy, Debug, PartialEq, Eq)]
pub struct Dec {
    pub mantissa: i128,
    pub exponent: i32,
}

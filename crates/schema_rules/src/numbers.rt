ghost use Rattle.std.specs.Prelude.{◌≡◌};
ghost use Rattle.schema_rules.specs.Ranges.{numbers_of};

use sbe_types::Prim;

/// The numbers that a primitive can hold, and the range and the null that apply if the schema states none.
#[derive(Clone, Copy, Debug, PartialEq, Eq)]
pub struct Numbers {
    pub least: i128,
    pub greatest: i128,
    pub low: i128,
    pub high: i128,
    pub null: i128,
}

impl Numbers {
    /// The numbers of this primitive (SBE 1.0, "Encoding: numeric types, range and null").
    pub fn of(prim: Prim) -> Numbers
        ensures { result ≡ numbers_of prim }
    {
        match prim {
            Prim::Char => Numbers {
                least: 0,
                greatest: 255,
                low: 32,
                high: 126,
                null: 0,
            },
            Prim::I8 => Numbers {
                least: -128,
                greatest: 127,
                low: -127,
                high: 127,
                null: -128,
            },
            Prim::I16 => Numbers {
                least: -32768,
                greatest: 32767,
                low: -32767,
                high: 32767,
                null: -32768,
            },
            Prim::I32 => Numbers {
                least: -2147483648,
                greatest: 2147483647,
                low: -2147483647,
                high: 2147483647,
                null: -2147483648,
            },
            Prim::I64 => Numbers {
                least: -9223372036854775808,
                greatest: 9223372036854775807,
                low: -9223372036854775807,
                high: 9223372036854775807,
                null: -9223372036854775808,
            },
            Prim::U8 => Numbers {
                least: 0,
                greatest: 255,
                low: 0,
                high: 254,
                null: 255,
            },
            Prim::U16 => Numbers {
                least: 0,
                greatest: 65535,
                low: 0,
                high: 65534,
                null: 65535,
            },
            Prim::U32 => Numbers {
                least: 0,
                greatest: 4294967295,
                low: 0,
                high: 4294967294,
                null: 4294967295,
            },
            Prim::U64 => Numbers {
                least: 0,
                greatest: 18446744073709551615,
                low: 0,
                high: 18446744073709551614,
                null: 18446744073709551615,
            },
        }
    }
}

ghost use Rattle.std.specs.Prelude.{◌≡◌, length};
ghost use Rattle.sbe_types.specs.Numbers.{number_of, read_as, prim_width};

use crate::{Order, Prim};
use byteorder::{BigEndian, ByteOrder, LittleEndian};

/// The number that the bytes of one primitive encode, in this byte order. Integers are in two's complement.
pub fn get_num(order: Order, prim: Prim, bytes: &[u8]) -> i128
    requires { length bytes.now ≡ prim_width prim }
    ensures { result ≡ number_of order prim bytes.now }
{
    match order {
        Order::Little => get::<LittleEndian>(prim, bytes),
        Order::Big => get::<BigEndian>(prim, bytes),
    }
}

fn get<O: ByteOrder>(prim: Prim, bytes: &[u8]) -> i128
    requires { length bytes.now ≡ prim_width prim }
    ensures { result ≡ read_as O.number_of prim bytes.now }
{
    match prim {
        Prim::Char | Prim::U8 => bytes[0] as i128,
        Prim::I8 => bytes[0].cast_signed() as i128,
        Prim::U16 => O::read_u16(bytes) as i128,
        Prim::I16 => O::read_i16(bytes) as i128,
        Prim::U32 => O::read_u32(bytes) as i128,
        Prim::I32 => O::read_i32(bytes) as i128,
        Prim::U64 => O::read_u64(bytes) as i128,
        Prim::I64 => O::read_i64(bytes) as i128,
    }
}

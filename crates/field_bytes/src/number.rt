ghost use Rattle.std.specs.Prelude.{◌≡◌, ◌≤◌, ◌+◌, Some, true, length};
ghost use Rattle.sbe_types.specs.Numbers.{bytes_of, prim_width};
ghost use Rattle.schema_rules.specs.Ranges.{is_number_of};
ghost use Rattle.field_bytes.specs.Laid.{IsPut};
ghost use Rattle.field_bytes.specs.Written.{written_as};

use byteorder::{BigEndian, ByteOrder, LittleEndian};
use sbe_types::{Order, Prim};

/// Writes a number of a primitive in this byte order, integers in two's complement. Requires as many bytes as the
/// primitive takes.
pub fn put_num(order: Order, prim: Prim, n: i128, out: &mut [u8])
    requires wide { length out.old ≡ prim_width prim }
    requires number { is_number_of prim n ≡ true }
    ensures bytes { bytes_of order prim n ≡ Some out.new }
    ensures as_many { length out.new ≡ length out.old }
{
    match order {
        Order::Little => put::<LittleEndian>(prim, n, out),
        Order::Big => put::<BigEndian>(prim, n, out),
    }
}

/// Writes a number of a primitive at an offset of `out`. All other bytes are unchanged.
pub fn put_num_at(order: Order, prim: Prim, n: i128, out: &mut [u8], at: usize)
    requires room { at + prim_width prim ≤ length out.old }
    requires number { is_number_of prim n ≡ true }
    ensures put { IsPut (bytes_of order prim n) at out.old out.new }
    ensures as_many { length out.new ≡ length out.old }
{
    let end = at + prim.width();
    put_num(order, prim, n, &mut out[at..end]);
}

fn put<O: ByteOrder>(prim: Prim, n: i128, out: &mut [u8])
    requires wide { length out.old ≡ prim_width prim }
    requires number { is_number_of prim n ≡ true }
    ensures { out.new ≡ written_as O.bytes_of prim n }
{
    match prim {
        Prim::Char | Prim::U8 => out[0] = n as u8,
        Prim::I8 => out[0] = (n as i8).cast_unsigned(),
        Prim::U16 => O::write_u16(out, n as u16),
        Prim::I16 => O::write_i16(out, n as i16),
        Prim::U32 => O::write_u32(out, n as u32),
        Prim::I32 => O::write_i32(out, n as i32),
        Prim::U64 => O::write_u64(out, n as u64),
        Prim::I64 => O::write_i64(out, n as i64),
    }
}

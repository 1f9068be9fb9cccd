ghost use Rattle.std.specs.Prelude.{◌≡◌, ◌≤◌, length, codes};
ghost use Rattle.sbe_types.specs.Numbers.{number_of, natural, prim_width};
ghost use Rattle.schema_facts.specs.Measured.{IsCounter, IsSmall};
ghost use Rattle.layout_tables.specs.Heads.{number_at, header_number};
ghost use Rattle.layout_tables.specs.Rowed.{as_spot};

use crate::layout::Layout;
use crate::rows::SpotRow;
use sbe_types::{Order, Prim, get_num};

impl Layout {
    /// The schemaId of a body's header, or `None` exactly if the body is shorter than the header.
    pub fn schema_id(&self, body: &[u8]) -> Option<u32>
        ensures { result ≡ header_number self.now (codes "schemaId") body.now }
    {
        let row = self.header_row();
        let wide = row.width as usize;
        if body.len() < wide {
            return None;
        }
        Some(number_at(self.order(), &row.schema, &body[..wide]))
    }
}

/// A number of a header or a dimension, read from the composite's bytes. Requires a number that is inside them.
pub fn number_at(order: Order, spot: &SpotRow, bytes: &[u8]) -> u32
    requires { IsCounter (length bytes.now) (as_spot spot.now) }
    ensures { result ≡ number_at order (as_spot spot.now) bytes.now }
{
    let place = spot.place as usize;
    let end = place + spot.leaf.prim.width();
    small_number(order, spot.leaf.prim, &bytes[place..end])
}

/// The number that the bytes of a small unsigned primitive encode.
#[inline(always)]
pub fn small_number(order: Order, prim: Prim, bytes: &[u8]) -> u32
    requires small { IsSmall prim }
    requires wide { length bytes.now ≡ prim_width prim }
    ensures { result ≡ natural (number_of order prim bytes.now) }
{
    // Two tests, the most frequent one first: a `match` over all primitives would jump through a table at each number.
    if prim == Prim::U16 {
        return get_num(order, Prim::U16, bytes) as u32;
    }
    if prim == Prim::U8 {
        return get_num(order, Prim::U8, bytes) as u32;
    }
    get_num(order, Prim::U32, bytes) as u32
}

// Dimensions of groups.
ghost use Rattle.std.specs.Prelude.{◌≡◌, ◌≤◌, ◌<◌, ◌+◌, List, length, IfSome, IfNone};
ghost use Rattle.sbe_types.specs.declared.kind.Member.{Member};
ghost use Rattle.layout_tables.specs.Rowed.{DimIs};
ghost use Rattle.group_codec.specs.Dims.{IsDimRow};
ghost use Rattle.body_walk.specs.inner.Cursor.{dim_from, dim_went};

use crate::found::Found;
use group_codec::{Dim, DimErr, read_dim_row};
use layout_tables::DimRow;
use sbe_types::Order;
use sbe_wire::FCode;

/// Reads the dimension of a group whose entries have blocks of at least `least` bytes.
pub(crate) fn walk_dim(
    order: Order,
    row: &DimRow,
    least: u32,
    body: &[u8],
    at: usize,
    out: &mut Found,
) -> Option<Dim>
    requires row { IsDimRow row.now }
    requires at { at ≤ length body.now }
    ensures told { (dim : List Member) → DimIs row.now dim → dim_went result out.new ≡ dim_from order dim least body.now at }
    ensures reaches { IfSome result (λ d. 0 < d.count → least ≤ d.block) }
    ensures after { IfSome result (λ d. d.after ≡ at + row.now.width) }
    ensures within { IfSome result (λ d. d.after ≤ length body.now) }
    ensures low { IfNone result (length out.new.path ≡ 0) }
{
    match read_dim_row(order, row, body, at) {
        Ok(dim) => {
            if dim.count > 0 && dim.block < least {
                let place = at + row.block.place as usize;
                out.tell(FCode::BlockShort, place, dim.block as i128);
                return None;
            }
            Some(dim)
        }
        Err(DimErr::Truncated) => {
            out.tell(FCode::Truncated, at, row.width as i128);
            None
        }
        Err(DimErr::Count(count)) => {
            out.tell(FCode::Count, at + row.count.place as usize, count as i128);
            None
        }
    }
}

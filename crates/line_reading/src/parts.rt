ghost use Rattle.std.specs.Prelude.{◌≡◌, option_map};
ghost use Rattle.json_data.specs.Trees.{data_of};
ghost use Rattle.line_values.specs.Refusals.{Gives};
ghost use Rattle.line_reading.specs.Lines.{data_there, data_read, parts_read};
ghost use Rattle.line_values.specs.Code.{object_members};

use json_data::{Json, Pair};
use line_values::{LineFault, find_in, inside, read_bytes};
use lists::List;
use sbe_types::{DataField, DataVal, DataValList};
use std::alloc::Global;

/// Reads the bytes of data; a missing one is empty.
fn read_data(alloc: Global, found: Option<&Json<'_>>) -> Result<DataVal, LineFault>
    ensures { Gives result (data_there (option_map (λ v. data_of v.now) found.entry)) }
{
    match found {
        None => Ok(DataVal::Bytes(List::new(alloc))),
        Some(found) => Ok(DataVal::Bytes(read_bytes(alloc, found)?)),
    }
}

/// Reads the bytes of a data part.
fn read_part(
    alloc: Global,
    part: &DataField,
    object: Option<&[Pair<'_>]>,
) -> Result<DataVal, LineFault>
    ensures { Gives result (data_read part.now (object_members object.entry)) }
{
    let name = part.name.as_slice();
    inside(alloc, name, read_data(alloc, find_in(object, name)))
}

/// Reads the bytes of data parts, in the schema's order.
#[tactic(auto, unfolding(crate::specs::Lines::parts_read), using(crate::proofs::ListSteps::parts_more))]
pub fn read_parts(
    alloc: Global,
    parts: &[DataField],
    object: Option<&[Pair<'_>]>,
) -> Result<DataValList, LineFault>
    ensures { Gives result (parts_read parts.now (object_members object.entry)) }
{
    let mut out = List::new(alloc);
    for part in parts {
        out.push(read_part(alloc, part, object)?)?;
    }
    Ok(out)
}

ghost use Rattle.std.specs.Prelude.{◌≡◌};
ghost use Rattle.line_values.specs.Refusals.{Gives};
ghost use Rattle.line_reading.specs.Lines.{fields_read};
ghost use Rattle.line_values.specs.Code.{object_members};

use json_data::{Json, Pair};
use line_values::{LineFault, read_value};
use lists::List;
use sbe_types::{Field, ValueList};
use std::alloc::Global;

/// Reads the values of fields, in the schema's order.
#[tactic(auto, unfolding(crate::specs::Lines::fields_read), using(crate::proofs::ListSteps::fields_more))]
pub fn read_fields(
    alloc: Global,
    fields: &[Field],
    object: Option<&[Pair<'_>]>,
) -> Result<ValueList, LineFault>
    ensures { Gives result (fields_read fields.now (object_members object.entry)) }
{
    let mut out = List::new(alloc);
    for field in fields {
        out.push(read_value(alloc, field.name.as_slice(), &field.kind, object)?)?;
    }
    Ok(out)
}

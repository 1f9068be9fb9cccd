ghost use Rattle.std.specs.Prelude.{◌≡◌, OnErr, OnOk, Some, length};
ghost use Rattle.std.specs.Option.{option_map};
ghost use Rattle.std.specs.Result.{result_err};
ghost use Rattle.sbe_types.specs.declared.path.Step.TheVariants.{Part};
ghost use Rattle.sbe_types.specs.Places.{width};
ghost use Rattle.sbe_types.specs.Wire.{wire_bytes};
ghost use Rattle.sbe_wire.specs.Misfit.{misfit_in};
ghost use Rattle.schema_facts.specs.InOrder.{IsKindInOrder};
ghost use Rattle.kind_bytes.specs.Misfits.{field_misfit, misfit_of};

use crate::error::FieldErr;
use crate::judge::judge_field;
use crate::put::put_kind;
use sbe_types::{Kind, Order, Value};

/// Writes the value of part `part` of a block, a field of any kind (SBE 1.0, "Field encoding"), with zeros after a text
/// and where a composite has no member. Requires as many bytes as the kind is wide.
///
/// # Errors
///
/// The first member, element or byte that doesn't fit; any value for a constant. `out` is then unchanged.
pub fn field_writes(
    order: Order,
    kind: &Kind,
    part: u32,
    v: &Value,
    out: &mut [u8],
) -> Result<(), FieldErr>
    requires ready { IsKindInOrder kind.now }
    requires wide { length out.old ≡ width kind.now }
    ensures refused { option_map misfit_of (result_err result) ≡ misfit_in (Part part) (field_misfit kind.now v.now) }
    ensures written { OnOk result (wire_bytes order kind.now v.now ≡ Some out.new) }
    ensures kept { OnErr result (out.new ≡ out.old) }
{
    match judge_field(kind, part, v) {
        Ok(()) => {
            put_kind(order, kind, v, out);
            Ok(())
        }
        Err(e) => Err(e),
    }
}

ghost use Rattle.std.specs.Prelude.{◌≡◌, OnErr, OnOk, Some, true, length};
ghost use Rattle.std.specs.Option.{option_map};
ghost use Rattle.std.specs.Result.{result_err};
ghost use Rattle.sbe_types.specs.Places.{width};
ghost use Rattle.sbe_types.specs.Wire.{wire_bytes};
ghost use Rattle.sbe_wire.specs.Misfit.{value_misfit};
ghost use Rattle.schema_facts.specs.InOrder.{IsKindFrom};
ghost use Rattle.field_bytes.specs.Faults.{as_misfit, is_single};

use crate::fault::{FieldCause, ValueFault};
use crate::judge::value_judge;
use crate::puts::put_value;
use sbe_types::{Kind, Order, Value};

/// Writes a value of a leaf, an enum or a set (SBE 1.0, "Field encoding"), and zeros after a text. Requires as many
/// bytes as the kind is wide.
///
/// # Errors
///
/// The first element or byte that doesn't fit the kind. `out` is then unchanged.
pub fn leaf_writes(order: Order, kind: &Kind, v: &Value, out: &mut [u8]) -> Result<(), ValueFault>
    requires single { is_single kind.now ≡ true }
    requires ready { IsKindFrom 1 kind.now }
    requires wide { length out.old ≡ width kind.now }
    ensures refused { option_map as_misfit (result_err result) ≡ value_misfit kind.now v.now }
    ensures written { OnOk result (wire_bytes order kind.now v.now ≡ Some out.new) }
    ensures kept { OnErr result (out.new ≡ out.old) }
{
    let mut fault = ValueFault {
        cause: FieldCause::Kind,
        elem: None,
        detail: 0,
    };
    if !value_judge(kind, v, &mut fault) {
        return Err(fault);
    }
    put_value(order, kind, v, out);
    Ok(())
}

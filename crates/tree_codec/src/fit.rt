// Whether the values of a block fit its fields.
ghost use Rattle.std.specs.Prelude.{◌≡◌, ◌≤◌, false, length};
ghost use Rattle.sbe_types.specs.declared.limits.TheConstants.{PART_LIMIT};
ghost use Rattle.sbe_wire.specs.Misfit.{fields_misfit};
ghost use Rattle.tree_codec.specs.Fitting.{AreReady};
ghost use Rattle.tree_codec.specs.Shapes.{misfit_unless};

use crate::first_misfit::FirstMisfit;
use crate::rooms::shorter;
use kind_bytes::{ValueMisfit, fits_kind};
use sbe_types::{FieldList, Step, ValueList};

/// Whether the values of a block fit its fields. If not, `out` receives the first misfit.
pub(crate) fn fit_fields(fields: &FieldList, values: &ValueList, out: &mut FirstMisfit) -> bool
    requires ready { AreReady fields.now }
    requires few { length fields.now ≤ PART_LIMIT }
    ensures told { misfit_unless result out.new ≡ fields_misfit 0 fields.now values.now }
    ensures low { result ≡ false → length out.new.path ≤ 6 }
{
    let mut value = ValueMisfit::new();
    for i in 0..shorter(fields.len(), values.len()) {
        if !fits_kind(&fields.at(i).kind, values.at(i), &mut value) {
            out.take(value);
            out.under(Step::Part(i as u32));
            return false;
        }
    }
    true
}

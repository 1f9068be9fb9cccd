// The first refusal.
ghost use Rattle.std.specs.Prelude.{◌≡◌, IfOk};
ghost use Rattle.std.specs.Option.{option_map};
ghost use Rattle.bridge_terms.specs.Plans.{Plan};
ghost use Rattle.bridge_terms.specs.WayBack.{back_refused};
ghost use Rattle.field_judge.specs.Fields.{fields_of};
ghost use Rattle.field_judge.specs.Levels.{IsLevel, IsNumbered};
ghost use Rattle.field_judge.specs.Refusals.{refusal_of};

use crate::field::AppField;
use crate::judge::judge_fields;
use crate::level::BackLevel;
use crate::missing::missing_field;
use crate::refused::Refused;
use lists::NoMem;
use std::alloc::Global;

/// The first refusal of fields: of the fields in the order of the text, and then of the parts in the order of the
/// structure.
///
/// # Errors
///
/// If memory runs out.
pub fn first_refusal(
    alloc: Global,
    levels: &[BackLevel],
    level: &BackLevel,
    fields: &[AppField<'_>],
) -> Result<Option<Refused>, NoMem>
    ensures { IfOk result (λ told. (p : Plan) → IsLevel levels.now p level.now → IsNumbered p
        → option_map refusal_of told ≡ back_refused p (fields_of fields.now)) }
{
    if let Some(refused) = judge_fields(alloc, levels, level, fields)? {
        return Ok(Some(refused));
    }
    missing_field(alloc, levels, level, fields)
}

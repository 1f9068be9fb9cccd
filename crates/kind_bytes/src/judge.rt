// Whether values fit their kinds.
ghost use Rattle.std.specs.Prelude.{◌≡◌, ◌≤◌, ◌<◌, ◌^◌, true, false, suc, length, IfSome};
ghost use Rattle.std.specs.Option.{option_map};
ghost use Rattle.std.specs.Result.{result_err};
ghost use Rattle.sbe_types.specs.declared.kind.Kind.{Comp};
ghost use Rattle.sbe_types.specs.declared.message.Value.TheVariants.{Comp as CompValue};
ghost use Rattle.sbe_types.specs.declared.path.Step.TheVariants.{Part};
ghost use Rattle.sbe_types.specs.Wire.{member_values};
ghost use Rattle.sbe_wire.specs.Misfit.{const_misfit, misfit_in, value_misfit};
ghost use Rattle.schema_facts.specs.InOrder.{height, IsKindInOrder};
ghost use Rattle.field_bytes.specs.Faults.{as_misfit, is_single};
ghost use Rattle.kind_bytes.specs.Misfits.{field_misfit, misfit_of, misfit_unless, unfit_of};

use crate::error::{FieldErr, ValueMisfit};
use field_bytes::{FieldCause, ValueFault, value_judge};
use sbe_types::{Kind, List, Member, Step, Value, ValueList};

/// Checks a value for part `part` of a block, which is a field. A constant can't be set.
///
/// # Errors
///
/// The first member, element or byte that doesn't fit.
pub fn judge_field(kind: &Kind, part: u32, v: &Value) -> Result<(), FieldErr>
    requires { IsKindInOrder kind.now }
    ensures { option_map misfit_of (result_err result) ≡ misfit_in (Part part) (field_misfit kind.now v.now) }
{
    let mut unfit = ValueMisfit::new();
    if takes_value(kind, v, &mut unfit) {
        return Ok(());
    }
    unfit.under(Step::Part(part));
    Err(unfit.to_err())
}

/// Whether a field may be set to a value. If not, `out` receives the first part that doesn't fit.
fn takes_value(kind: &Kind, v: &Value, out: &mut ValueMisfit) -> bool
    requires ready { IsKindInOrder kind.now }
    ensures told { misfit_unless result out.new ≡ field_misfit kind.now v.now }
    ensures low { result ≡ false → length out.new.path ≤ suc (height kind.now) }
{
    match kind {
        Kind::Const(_) => {
            out.tell(FieldCause::Kind, 0);
            false
        }
        Kind::Leaf(_) | Kind::Enum(_, _) | Kind::Set(_, _) | Kind::Comp(_) => {
            fits_kind(kind, v, out)
        }
    }
}

/// Whether a value fits its kind; for a constant, whether it is the constant's value. If not, `out` receives the first
/// part that doesn't fit.
#[cycle(kind)]
pub fn fits_kind(kind: &Kind, v: &Value, out: &mut ValueMisfit) -> bool
    requires ready { IsKindInOrder kind.now }
    ensures told { misfit_unless result out.new ≡ value_misfit kind.now v.now }
    ensures low { result ≡ false → length out.new.path ≤ suc (height kind.now) }
{
    match kind {
        Kind::Leaf(_) => fits_single(kind, v, out),
        Kind::Enum(_, _) => fits_single(kind, v, out),
        Kind::Set(_, _) => fits_single(kind, v, out),
        Kind::Comp(members) => fits_composite(members, v, out),
        Kind::Const(_) => fits_constant(v, out),
    }
}

/// Whether a value fits a composite.
#[cycle(kind)]
#[tactic(auto, using(crate::proofs::Composites::comp_none, crate::proofs::Composites::comp_some))]
fn fits_composite(members: &List<Member>, v: &Value, out: &mut ValueMisfit) -> bool
    requires ready { IsKindInOrder (Comp members.now) }
    ensures told { misfit_unless result out.new ≡ value_misfit (Comp members.now) v.now }
    ensures low { result ≡ false → length out.new.path ≤ suc (height (Comp members.now)) }
{
    match values_in(v) {
        None => {
            out.tell(FieldCause::Kind, 0);
            false
        }
        Some(values) => fits_members(members, values, out),
    }
}

/// Whether the values of a composite fit its members; their number is checked first.
#[cycle(kind)]
#[tactic(auto, using(crate::proofs::Composites::comp_other))]
fn fits_members(members: &List<Member>, values: &ValueList, out: &mut ValueMisfit) -> bool
    requires ready { IsKindInOrder (Comp members.now) }
    ensures told { misfit_unless result out.new ≡ value_misfit (Comp members.now) (CompValue values.now) }
    ensures low { result ≡ false → length out.new.path ≤ suc (height (Comp members.now)) }
{
    if members.len() != values.len() {
        out.tell(FieldCause::Kind, 0);
        return false;
    }
    for i in 0..members.len() {
        if !fits_kind(&members.at(i).kind, values.at(i), out) {
            out.under(Step::Part(i as u32));
            return false;
        }
    }
    true
}

/// The values of a composite's members.
#[tactic(auto, using(crate::proofs::Composites::values_are))]
pub(crate) fn values_in(v: &Value) -> Option<&ValueList>
    ensures { option_map (λ values. values.now) result ≡ member_values v.now }
{
    match v {
        Value::Comp(values) => Some(values),
        Value::Num(_)
        | Value::Null
        | Value::Text(_)
        | Value::Nums(_)
        | Value::Enum(_)
        | Value::Set(_)
        | Value::Const
        | Value::Absent => None,
    }
}

/// Whether a value is that of a constant.
fn fits_constant(v: &Value, out: &mut ValueMisfit) -> bool
    ensures told { misfit_unless result out.new ≡ const_misfit v.now }
    ensures low { result ≡ false → length out.new.path ≤ 0 }
{
    match v {
        Value::Const => true,
        Value::Num(_)
        | Value::Null
        | Value::Text(_)
        | Value::Nums(_)
        | Value::Enum(_)
        | Value::Set(_)
        | Value::Comp(_)
        | Value::Absent => {
            out.tell(FieldCause::Kind, 0);
            false
        }
    }
}

/// Whether a value fits a leaf, an enum or a set.
#[tactic(auto, using(crate::proofs::Elements::fault_small))]
fn fits_single(kind: &Kind, v: &Value, out: &mut ValueMisfit) -> bool
    requires ready { IsKindInOrder kind.now }
    requires single { is_single kind.now ≡ true }
    ensures told { misfit_unless result out.new ≡ value_misfit kind.now v.now }
    ensures low { result ≡ false → length out.new.path ≤ 1 }
{
    let mut fault = ValueFault {
        cause: FieldCause::Kind,
        elem: None,
        detail: 0,
    };
    if value_judge(kind, v, &mut fault) {
        return true;
    }
    tell_fault(&fault, out);
    false
}

/// Records why a value doesn't fit.
fn tell_fault(fault: &ValueFault, out: &mut ValueMisfit)
    requires { IfSome fault.now.elem (λ i. i < 2 ^ 32) }
    ensures told { unfit_of out.new ≡ as_misfit fault.now }
    ensures low { length out.new.path ≤ 1 }
{
    out.tell(fault.cause, fault.detail);
    if let Some(i) = fault.elem {
        out.under(Step::Elem(i as u32));
    }
}

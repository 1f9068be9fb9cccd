ghost use Rattle.std.specs.Prelude.{◌≡◌, List, ℕ, true};
ghost use Rattle.std.specs.List.{list_all};
ghost use Rattle.sbe_types.specs.Places.{is_const};
ghost use Rattle.bridge_rules.specs.Table.{kinds_of};
ghost use Rattle.reference_graph.specs.Expansion.{Structure};
ghost use Rattle.bridge_terms.specs.PlanFacts.{EachRule};
ghost use Rattle.bridge_plan.specs.Covers.{plan_of};
ghost use Rattle.bridge_plan.specs.Mappings.{Mapping};
ghost use Rattle.back_texts.specs.Backs.{IsExact};
ghost use Rattle.back_texts.specs.Forms.{has_one_form as is_in_one_form, second_is_const};
ghost use Rattle.exact_plans.specs.Exact.{is_exact as is_level_exact, is_exact_group, is_of_one_form};

use back_texts::laws::plans_of_one_form_are_exact;
use sbe_types::{Field, Group, Kind, Level, Member};

/// Whether the kinds of a level's fields have values in one form, also in the entries of its groups. If so, each plan of the
/// level writes each value in one form. Linear in the fields of the level and of its groups.
pub fn is_exact(level: &Level) -> bool
    ensures told { result ≡ is_level_exact level.now }
    ensures exact { result ≡ true → (m : Mapping) (s : Structure) → EachRule IsExact (plan_of m s level.now) }
{
    plans_of_one_form_are_exact();
    is_of_one_form(level)
}

#[cycle(exact)]
fn is_of_one_form(level: &Level) -> bool
    ensures { result ≡ is_level_exact level.now }
{
    have_one_form(level.fields.as_slice()) && are_exact(level.groups.as_slice())
}

#[cycle(exact)]
fn are_exact(groups: &[Group]) -> bool
    ensures { result ≡ list_all is_exact_group groups.now }
{
    for group in groups {
        if !is_of_one_form(&group.level) {
            return false;
        }
    }
    true
}

/// Whether the kind of each field has values in one form.
fn have_one_form(fields: &[Field]) -> bool
    ensures { result ≡ list_all is_of_one_form fields.now }
{
    fields.iter().all(|field| has_one_form(&field.kind))
}

/// The same for one kind.
fn has_one_form(kind: &Kind) -> bool
    ensures { result ≡ is_in_one_form kind.now }
{
    match kind {
        Kind::Comp(members) => second_is_constant(members.as_slice()),
        Kind::Leaf(_) | Kind::Enum(_, _) | Kind::Set(_, _) | Kind::Const(_) => true,
    }
}

/// Whether the second of a composite's members is a constant.
fn second_is_constant(members: &[Member]) -> bool
    ensures { result ≡ second_is_const (kinds_of members.now) }
{
    match members {
        [_, second, ..] => is_constant(&second.kind),
        _ => false,
    }
}

/// Whether a kind is a constant.
fn is_constant(kind: &Kind) -> bool
    ensures { result ≡ is_const kind.now }
{
    match kind {
        Kind::Const(_) => true,
        Kind::Leaf(_) | Kind::Enum(_, _) | Kind::Set(_, _) | Kind::Comp(_) => false,
    }
}

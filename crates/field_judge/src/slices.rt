// Slices of fields and levels.
ghost use Rattle.std.specs.Prelude.{◌≡◌, ◌≤◌, ◌<◌, MatchOption, length, slice_get, take, drop, Some};
ghost use Rattle.field_judge.specs.declared.level.BackLevel.{BackLevel as AnyLevel};

use crate::field::AppField;
use crate::level::BackLevel;

/// The level with this number.
pub fn level_at(levels: &[BackLevel], number: usize) -> Option<&BackLevel>
    ensures { (own : AnyLevel) → slice_get levels.now number ≡ Some own → MatchOption result ⊥ (λ level. level.now ≡ own) }
{
    if number >= levels.len() {
        return None;
    }
    Some(&levels[number])
}

/// The first field.
pub(crate) fn first<'a>(fields: &[AppField<'a>]) -> AppField<'a>
    requires { 0 < length fields.now }
    ensures { slice_get fields.now 0 ≡ Some result }
{
    fields[0]
}

/// The fields from field `n` on.
#[tactic(auto, using(std::proofs::lemmas::List::take_rest))]
pub fn rest_from<'b, 'a>(fields: &'b [AppField<'a>], n: usize) -> &'b [AppField<'a>]
    requires { n ≤ length fields.now }
    ensures { result.now ≡ drop n fields.now }
{
    &fields[n..]
}

/// The fields before field `n`.
pub fn front<'b, 'a>(fields: &'b [AppField<'a>], n: usize) -> &'b [AppField<'a>]
    requires { n ≤ length fields.now }
    ensures { result.now ≡ take n fields.now }
{
    &fields[..n]
}

/// Field `i`.
pub fn field_at<'a>(fields: &[AppField<'a>], i: usize) -> AppField<'a>
    requires { i < length fields.now }
    ensures { slice_get fields.now i ≡ Some result }
{
    fields[i]
}

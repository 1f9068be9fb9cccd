// Where the data parts of a level are in a body that was walked. Nothing is checked again.
ghost use Rattle.std.specs.Prelude.{◌≡◌, ◌≤◌, ◌<◌, ◌+◌, ◌∷◌, length, drop, IfSome, IsOk};
ghost use Rattle.std.specs.Option.{option_map};
ghost use Rattle.sbe_types.specs.declared.schema.Level.{out-Level};
ghost use Rattle.schema_facts.specs.Measured.{IsSmall};
ghost use Rattle.body_walk.specs.inner.Layers.{IsLayer};
ghost use Rattle.flyweight_view.specs.inner.Lefts.{rest_of};
ghost use Rattle.flyweight_view.specs.inner.Parts.{part_entered, parts_at, parts_by, parts_left, range_bytes, range_end, IsRange, LineUp};

use body_walk::Layer;
use sbe_types::DataField;
use sbe_wire::Mode;
use var_data::standing_data;

/// The offset after the data parts of a level, the first of which begins at an offset.
pub(crate) fn parts_end(layer: &Layer<'_>, at: usize) -> usize
    requires layer { IsLayer layer.now }
    requires line { LineUp layer.now 0 at }
    ensures rest { rest_of (parts_at layer.now 0 at) ≡ drop result layer.now.body.now }
    ensures within { result ≤ length layer.now.body.now }
{
    let mut at = at;
    for i in 0..layer.level.parts.len() {
        at = behind_range(next_range(layer, i, at), at);
    }
    at
}

/// The range of the bytes of data part `i` of a level, which begins at an offset. `None` if it is absent.
#[inline(always)]
pub(crate) fn next_range(layer: &Layer<'_>, i: usize, at: usize) -> Option<(usize, usize)>
    requires layer { IsLayer layer.now }
    requires line { LineUp layer.now i at }
    requires more { i < length (out-Level layer.now.level.now).parts }
    ensures range { IfSome result (λ r. IsRange layer.now.body.now r) }
    ensures line { LineUp layer.now (i + 1) (range_end at result) }
    ensures seen { parts_left layer.now i at ≡ option_map (range_bytes layer.now.body.now) result ∷ parts_left layer.now (i + 1) (range_end at result) }
    ensures rest { rest_of (parts_at layer.now i at) ≡ rest_of (parts_at layer.now (i + 1) (range_end at result)) }
{
    part_range(layer.mode, layer.level.parts.at(i), layer.body, at)
}

/// The range of the bytes of a data part that begins at an offset. `None` if it is absent.
fn part_range(mode: Mode, part: &DataField, body: &[u8], at: usize) -> Option<(usize, usize)>
    requires small { IsSmall part.now.length.prim }
    requires at { at ≤ length body.now }
    requires read { IsOk (parts_by mode part.now (drop at body.now)) }
    ensures told { parts_by mode part.now (drop at body.now) ≡ part_entered body.now at result }
    ensures range { IfSome result (λ r. IsRange body.now r) }
{
    if part.since > mode.version {
        return None;
    }
    Some(standing_data(mode.order, &part.length, body, at))
}

/// The offset after a data part that begins at an offset.
pub(crate) fn behind_range(range: Option<(usize, usize)>, at: usize) -> usize
    ensures { result ≡ range_end at range }
{
    match range {
        Some(range) => range.1,
        None => at,
    }
}

/// The bytes of a data part.
pub(crate) fn range_of<'a>(body: &'a [u8], range: Option<(usize, usize)>) -> Option<&'a [u8]>
    requires { IfSome range (λ r. IsRange body.now r) }
    ensures { option_map (λ b. b.now) result ≡ option_map (range_bytes body.now) range }
{
    match range {
        Some(range) => Some(&body[range.0..range.1]),
        None => None,
    }
}

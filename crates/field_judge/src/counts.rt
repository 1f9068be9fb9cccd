// Counts of entries.
ghost use Rattle.std.specs.Prelude.{◌≡◌};
ghost use Rattle.fix_values.specs.Numerals.{integer_of};
ghost use Rattle.sbe_types.specs.declared.kind.Presence.TheVariants.{Required};
ghost use Rattle.bridge_terms.specs.WayBack.{count_read};
ghost use Rattle.field_judge.specs.Refusals.{size_of};

use fix_values::{NumRule, V, read_num};
use sbe_types::{Leaf, Presence};

/// The number of entries in a count field.
pub(crate) fn read_count(leaf: &Leaf, text: &[u8]) -> Result<u128, V>
    ensures { result ≡ count_read leaf.now (integer_of text.now) }
{
    match read_num(&NumRule::Int, &required(leaf), text) {
        Ok(n) => size_of(n),
        Err(why) => Err(why),
    }
}

/// A number that isn't negative.
fn size_of(n: i128) -> Result<u128, V>
    ensures { result ≡ size_of n }
{
    if n < 0 {
        return Err(V::Range);
    }
    Ok(n as u128)
}

/// The type without a null.
fn required(leaf: &Leaf) -> Leaf
    ensures { result ≡ record leaf.now { presence = Required } }
{
    let mut own = *leaf;
    own.presence = Presence::Required;
    own
}

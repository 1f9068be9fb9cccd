ghost use Rattle.std.specs.Prelude.{◌≡◌, ◌==◌, true, count_by};
ghost use Rattle.tagvalue_codec.specs.Fields.{soh};
ghost use Rattle.back_texts.specs.Backs.{HasFewFields};

use tagvalue_codec::FIELD_LIMIT;

/// The byte that ends a field.
const SOH: u8 = 1;

/// So many bytes are no more fields than that: each field has at least two, its `=` and SOH.
const MOST_SURELY_FEW: usize = 2 * FIELD_LIMIT;

/// Whether the text has few enough fields, by its bytes alone. `false` is inconclusive: bytes of data that are SOH are
/// counted too.
#[tactic(auto, using(crate::proofs::FewFields::few_by_length))]
pub fn is_few(text: &[u8]) -> bool
    ensures { result ≡ true → HasFewFields text.now }
{
    if text.len() <= MOST_SURELY_FEW {
        return true;
    }
    ends_in(text) <= FIELD_LIMIT
}

/// How many bytes of the text are SOH.
fn ends_in(text: &[u8]) -> usize
    ensures { result ≡ count_by (λ b. b == soh) text.now }
{
    text.iter().filter(|byte| **byte == SOH).count()
}

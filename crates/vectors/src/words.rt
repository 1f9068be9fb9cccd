ghost use Rattle.std.specs.Prelude.{◌≡◌, ◌<◌, max};
ghost use Rattle.vectors.specs.Drawing.{below, remainder, words_of};

use rand_core::SeedableRng;
use rand_core::utils::NextWord;
use rand_pcg::Pcg32;

/// The next word modulo `n`, or 0 if `n` is 0.
pub(crate) fn draw(words: &mut Pcg32, n: u64) -> u64
    ensures drawn { below n words.old ≡ (result, words.new) }
    ensures small { result < max n 1 }
{
    let word = words.next_word();
    remainder(u64::from(word), n)
}

/// The number modulo `n`, or 0 if `n` is 0.
fn remainder(number: u64, n: u64) -> u64
    ensures value { result ≡ remainder number n }
    ensures small { result < max n 1 }
{
    if n == 0 {
        return 0;
    }
    number % n
}

/// The generator from which message `index` of a seed is drawn.
#[tactic(auto, unfolding(crate::specs::Drawing::words_of))]
pub(crate) fn words_of(seed: u64, index: u64) -> Pcg32
    ensures { result ≡ words_of seed index }
{
    Pcg32::seed_from_u64(seed.wrapping_add(index))
}

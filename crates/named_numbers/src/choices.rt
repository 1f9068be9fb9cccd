ghost use Rattle.std.specs.Prelude.{◌≡◌, ◌<◌, true, if◌then◌else◌, pos, ℕ, IfSome};
ghost use Rattle.std.specs.Int.{bit_at};
ghost use Rattle.std.specs.Ordering.{int_eq};
ghost use Rattle.sbe_types.specs.Shown.{has_listed_bits, is_listed};
ghost use Rattle.named_numbers.specs.Bits.{bit_of};

use sbe_types::Named;

/// Up to so many names are looked through one after another.
const FEW: usize = 16;

/// Whether `number` is the number of one of the names.
#[inline(always)]
pub fn is_listed(names: &[Named], number: i128) -> bool
    ensures { result ≡ is_listed names.now number }
{
    if names.len() > FEW && is_found(names, number) {
        return true;
    }
    names.iter().any(|name| name.number == number)
}

/// Whether a search by halves finds the number. `false` is inconclusive, since the names may be in any order.
#[inline(never)]
fn is_found(names: &[Named], number: i128) -> bool
    ensures { result ≡ true → is_listed names.now number ≡ true }
{
    let mut low = 0;
    let mut high = names.len();
    while low < high {
        let middle = low + (high - low) / 2;
        let here = names[middle].number;
        if here == number {
            return true;
        }
        if here < number {
            low = middle + 1;
        } else {
            high = middle;
        }
    }
    false
}

/// Whether each bit that is set belongs to a choice.
#[inline]
pub fn are_listed(choices: &[Named], bits: u64) -> bool
    ensures { result ≡ has_listed_bits choices.now 64 bits }
{
    let mut left = bits;
    for choice in choices {
        left = without(left, &choice.number);
    }
    left == 0
}

/// The position of a choice's bit, or `None` if it isn't one of the 64 bits.
#[inline(always)]
pub fn bit_of(number: &i128) -> Option<u32>
    ensures place { result ≡ bit_of number.now }
    ensures small { IfSome result (λ place. place < 64) }
{
    match u32::try_from(*number) {
        Ok(place) if place < 64 => Some(place),
        _ => None,
    }
}

/// The bits with the bit of this number cleared.
#[inline(always)]
#[tactic(auto, using(crate::proofs::Bits::bit_cleared, crate::proofs::Bits::no_bit_cleared))]
fn without(bits: u64, number: &i128) -> u64
    ensures { (k : ℕ) → k < 64
        → bit_at result k ≡ (if int_eq number.now (pos k) then 0 else bit_at bits k) }
{
    match bit_of(number) {
        Some(place) => bits & !(1 << place),
        None => bits,
    }
}

ghost use Rattle.std.specs.Prelude.{◌≡◌, ◌+◌, ◌^◌, ◌<◌, ◌≤◌, ◌++◌, length, IfSome};
ghost use Rattle.fix_dates.specs.Digits.{digits, number_in};

use fix_values::{ROOM, Short};

/// Appends the last `places` decimal digits of a number, most significant first.
#[tactic(auto, unfolding(crate::specs::Digits::digits), using(crate::proofs::DigitFacts::length_digits))]
pub fn put_digits(out: &mut Short, number: u64, places: u8)
    requires { length out.old + places ≤ ROOM }
    ensures text { out.new ≡ out.old ++ digits places number }
    ensures length { length out.new ≡ length out.old + places }
{
    if places > 0 {
        put_digits(out, number / 10, places - 1);
        out.push(b'0' + (number % 10) as u8);
    }
}

/// The number in a text of digits, or `None` if a byte isn't a digit.
#[tactic(auto, unfolding(crate::specs::Digits::number_after))]
pub fn number(text: &[u8]) -> Option<u64>
    requires { length text.now ≤ 18 }
    ensures value { result ≡ number_in text.now }
    ensures bound { IfSome result (λ n. n < 10 ^ length text.now) }
{
    let mut number = 0;
    for digit in text {
        if !digit.is_ascii_digit() {
            return None;
        }
        number = number * 10 + (*digit - b'0') as u64;
    }
    Some(number)
}

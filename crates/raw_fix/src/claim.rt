ghost use Rattle.std.specs.Prelude.{◌≡◌, ◌≤◌, ◌+◌, ◌<◌, ◌^◌, None, IfSome, length, take};
ghost use Rattle.raw_fix.specs.Claims.{before_soh, claim_behind, claim_of, is_begun as begun_in, part_value, field_value, within as within_of};

use crate::soh::{find_near, find_soh};

/// What is at the front of some bytes, as far as fields 8 and 9 say.
#[derive(Clone, Copy, Debug, PartialEq, Eq)]
pub(crate) enum Claim {
    /// A text of this many bytes begins here.
    Whole(usize),
    /// More bytes are needed for both fields.
    Open,
    /// No text begins here, whatever follows.
    Never,
}

/// The digit of the tag that begins a text, and that of its length.
const BEGIN: u8 = b'8';

const SIZE: u8 = b'9';

/// The most digits of a length.
const MOST_DIGITS: usize = 9;

/// The most bytes of a field 9: `9=`, its digits, and SOH.
const MOST_FIELD: usize = MOST_DIGITS + 3;

/// What the bytes claim, given that a text has at most `most` bytes. The first `plain` bytes are known to contain no
/// SOH, and aren't searched again.
#[tactic(auto, unfolding(crate::specs::Claims::claim_of))]
pub(crate) fn read_claim(bytes: &[u8], most: usize, plain: usize) -> Claim
    requires within { plain ≤ length bytes.now }
    requires none { before_soh (take plain bytes.now) ≡ None }
    ensures { result ≡ claim_of most bytes.now }
{
    match find_soh(bytes, plain) {
        None => {
            if is_begun(BEGIN, bytes) {
                within(most, bytes.len().max(3) + 12, Claim::Open)
            } else {
                Claim::Never
            }
        }
        Some(i) => {
            if is_begun(BEGIN, &bytes[..i]) && i > 2 {
                claim_size(&bytes[i + 1..], most, i + 1)
            } else {
                Claim::Never
            }
        }
    }
}

/// What the bytes claim after the first `front` of them, which are a field 8.
fn claim_size(bytes: &[u8], most: usize, front: usize) -> Claim
    requires { front + length bytes.now < 2 ^ 63 }
    ensures { result ≡ claim_behind most front bytes.now (before_soh bytes.now) }
{
    match find_near(bytes, MOST_FIELD) {
        None => match part_of_field(bytes) {
            Some(number) => within(most, front + bytes.len().max(3) + number + 8, Claim::Open),
            None => Claim::Never,
        },
        Some(i) => match part_of_field(&bytes[..i]) {
            Some(number) if i > 2 => {
                let size = front + i + number + 8;
                within(most, size, Claim::Whole(size))
            }
            _ => Claim::Never,
        },
    }
}

/// The number in the digits of a field 9, or of a part of it.
fn part_of_field(bytes: &[u8]) -> Option<usize>
    ensures value { result ≡ field_value bytes.now }
    ensures small { IfSome result (λ n. n < 1_000_000_000) }
{
    if !is_begun(SIZE, bytes) {
        return None;
    }
    if bytes.len() < 2 {
        return Some(0);
    }
    part_of_digits(&bytes[2..])
}

/// The number in up to nine digits, or 0 if there are none.
fn part_of_digits(bytes: &[u8]) -> Option<usize>
    ensures value { result ≡ part_value bytes.now }
    ensures small { IfSome result (λ n. n < 1_000_000_000) }
{
    if bytes.len() > MOST_DIGITS {
        return None;
    }
    let mut number = 0;
    for b in bytes {
        if !b.is_ascii_digit() {
            return None;
        }
        number = number * 10 + (*b - b'0') as usize;
    }
    Some(number)
}

/// Whether the bytes are a prefix of a field whose tag is this one digit, or begin with one.
fn is_begun(tag: u8, bytes: &[u8]) -> bool
    ensures { result ≡ begun_in tag bytes.now }
{
    match bytes {
        [] => true,
        [a] => *a == tag,
        [a, e, ..] => *a == tag && *e == b'=',
    }
}

/// The claim, if a text of at least `least` bytes is within the limit; otherwise that no text begins here.
fn within(most: usize, least: usize, claim: Claim) -> Claim
    ensures { result ≡ within_of most least claim }
{
    if least <= most { claim } else { Claim::Never }
}

// Bytes that are 00.
ghost use Rattle.std.specs.Prelude.{◌≡◌, ◌==◌, false, length, true};
ghost use Rattle.std.specs.List.{list_all};
ghost use Rattle.byte_digits.specs.Digits.{IsBytes};
ghost use Rattle.clean_bodies.specs.Clean.{AreZeros, IsCleanText};
ghost use Rattle.clean_walk.specs.inner.Zeros.{stays_zero, zeros_in};
ghost use Rattle.clean_walk.specs.declared.zeros.TheConstants.{WIDE};

use std::simd::prelude::*;

/// How many bytes of a text are looked at at once.
const WIDE: usize = 8;

/// The items of a byte slice are bytes.
pub(crate) fn are_bytes(bytes: &[u8])
    ensures { IsBytes bytes.now }
{}

/// Whether each byte is 00.
fn all_zero(bytes: &[u8]) -> bool
    ensures { result ≡ list_all (λ b. b == 0) bytes.now }
{
    bytes.iter().all(|byte| *byte == 0)
}

/// Whether all bytes are zeros.
#[inline(always)]
#[tactic(auto, using(crate::proofs::AllZeros::zeros_are))]
pub(crate) fn is_zero(bytes: &[u8]) -> bool
    ensures { result ≡ true → AreZeros bytes.now }
{
    all_zero(bytes)
}

/// Whether all bytes after the first 00 are zeros.
#[inline(always)]
pub(crate) fn is_clean_text(bytes: &[u8]) -> bool
    ensures { result ≡ true → IsCleanText bytes.now }
{
    if bytes.len() == WIDE {
        return is_clean_word(bytes);
    }
    stays_zero(bytes)
}

/// The same for eight bytes. Their zeros, as bits, are all the bits from the lowest one on.
#[inline(always)]
fn is_clean_word(bytes: &[u8]) -> bool
    requires { length bytes.now ≡ WIDE }
    ensures { result ≡ true → IsCleanText bytes.now }
{
    let zeros = zeros_in(bytes);
    if zeros == 0 {
        return true;
    }
    let first = zeros.trailing_zeros();
    zeros + (1 << first) == 256
}

/// Which of eight bytes are 00: bit k stands for byte k.
#[inline(always)]
fn zeros_in(bytes: &[u8]) -> u64
    requires { length bytes.now ≡ WIDE }
    ensures { result ≡ zeros_in bytes.now }
{
    u8x8::from_slice(bytes).simd_eq(u8x8::splat(0)).to_bitmask()
}

/// The same for any number of bytes, one by one.
fn stays_zero(bytes: &[u8]) -> bool
    ensures { result ≡ stays_zero false bytes.now }
{
    let mut ended = false;
    for byte in bytes {
        if *byte == 0 {
            ended = true;
        } else if ended {
            return false;
        }
    }
    true
}

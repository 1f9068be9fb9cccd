ghost use Rattle.std.specs.Prelude.{◌≡◌, ◌≤◌, ◌<◌, ◌^◌, ◌+◌, length, take, drop, IfSome};
ghost use Rattle.tagvalue_codec.specs.Drafts.{IsValue};
ghost use Rattle.tagvalue_codec.specs.Marked.{marks_in};
ghost use Rattle.tagvalue_codec.specs.Reading.{plain_len};

use std::simd::prelude::*;

/// The byte that ends a field.
const SOH: u8 = 1;

/// How many bytes are checked at once.
const WIDE: usize = 16;

/// The value of a field, and the bytes after the field.
#[derive(Clone, Copy)]
pub(crate) struct Scanned<'a> {
    pub value: &'a [u8],
    pub rest: &'a [u8],
}

/// The field that the bytes begin with, if it begins with `lead`, a tag with its `=`. `None` if it begins otherwise, has no
/// value or has no end.
#[inline(always)]
pub(crate) fn field_in<'a>(bytes: &'a [u8], lead: &[u8]) -> Option<Scanned<'a>>
    ensures value { IfSome result (λ f. IsValue f.value.now) }
    ensures short { IfSome result (λ f. length f.value.now < 2 ^ 64) }
{
    let value = bytes.strip_prefix(lead)?;
    let many = plain_length(value);
    if many == 0 || many >= value.len() {
        return None;
    }
    Some(Scanned {
        value: &value[..many],
        rest: &value[many + 1..],
    })
}

/// How many bytes precede the first SOH, or all if there is none.
fn plain_length(bytes: &[u8]) -> usize
    ensures { result ≡ plain_len bytes.now }
{
    let mut i = 0;
    while bytes.len() - i >= WIDE {
        let marked = marks_at(bytes, i);
        if marked != 0 {
            return i + marked.trailing_zeros() as usize;
        }
        i += WIDE;
    }
    length_near(bytes, i)
}

/// Which of the next bytes are SOH: bit k stands for byte k.
#[inline(always)]
fn marks_at(bytes: &[u8], i: usize) -> u64
    requires { i + WIDE ≤ length bytes.now }
    ensures { result ≡ marks_in (take WIDE (drop i bytes.now)) }
{
    u8x16::from_slice(&bytes[i..])
        .simd_eq(u8x16::splat(SOH))
        .to_bitmask()
}

/// The place of the first SOH from `at` on, or the end if there is none, found byte by byte.
fn length_near(bytes: &[u8], at: usize) -> usize
    requires { at ≤ length bytes.now }
    ensures { result ≡ at + plain_len (drop at bytes.now) }
{
    let mut i = at;
    while i < bytes.len() && bytes[i] != SOH {
        i += 1;
    }
    i
}

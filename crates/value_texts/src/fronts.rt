// The text at the front of a char array.
ghost use Rattle.std.specs.Prelude.{◌≡◌, ◌≤◌, ◌<◌, length, take};
ghost use Rattle.std.specs.List.{prefix_len};
ghost use Rattle.flat_rows.specs.Runs.{is_set, lies_between};
ghost use Rattle.field_values.specs.Reports.{before_zero};
ghost use Rattle.value_texts.specs.Fronts.{IsFront, IsPlainFront};

use field_values::before_zero;
use flat_rows::first_set;
use std::simd::prelude::*;

/// How many bytes are checked at once.
const LANES: usize = 8;

/// The text at the front of a char array.
#[derive(Clone, Copy)]
pub(crate) struct Front<'a> {
    pub(crate) text: &'a [u8],
    /// Whether it is known to have no SOH. `false` is inconclusive.
    pub(crate) plain: bool,
}

/// A text at the front of eight bytes or more.
#[derive(Clone, Copy)]
pub(crate) struct FrontText<'a> {
    pub(crate) bytes: &'a [u8],
    /// How many of the bytes it has.
    pub(crate) count: usize,
}

/// The bytes before the first 00. Eight bytes are checked at once.
#[inline(always)]
pub(crate) fn front_of(bytes: &[u8]) -> Front<'_>
    ensures text { result.text.now ≡ before_zero bytes.now }
    ensures plain { IsFront result }
{
    if bytes.len() != LANES {
        return Front {
            text: before_zero(bytes),
            plain: false,
        };
    }
    let run = set_run(bytes);
    Front {
        text: &bytes[..run],
        plain: run <= plain_run(bytes),
    }
}

/// How many bytes of a char array its text has, if the array has eight bytes and the text no SOH, or else 0.
#[inline(always)]
pub(crate) fn plain_front(bytes: &[u8]) -> usize
    ensures { 0 < result → IsPlainFront result bytes.now }
{
    if bytes.len() != LANES {
        return 0;
    }
    let run = plain_run(bytes);
    if run >= LANES {
        return run;
    }
    if bytes[run] != 0 {
        return 0;
    }
    run
}

/// How many leading bytes of eight are not 00.
#[inline(always)]
fn set_run(bytes: &[u8]) -> usize
    requires { LANES ≤ length bytes.now }
    ensures { result ≡ prefix_len is_set (take LANES bytes.now) }
{
    let lanes = u8x8::from_slice(bytes);
    first_set(lanes.simd_eq(u8x8::splat(0)).to_bitmask())
}

/// How many leading bytes of eight are neither 00 nor SOH.
#[inline(always)]
fn plain_run(bytes: &[u8]) -> usize
    requires { LANES ≤ length bytes.now }
    ensures { result ≡ prefix_len (lies_between 2 255) (take LANES bytes.now) }
{
    let lanes = u8x8::from_slice(bytes);
    let below = lanes.simd_lt(u8x8::splat(2)) | lanes.simd_gt(u8x8::splat(255));
    first_set(below.to_bitmask())
}

// How many leading bytes of a text are within a range.
ghost use Rattle.std.specs.Prelude.{◌≡◌, ◌==◌, ◌+◌, ◌≤◌, length, take, drop};
ghost use Rattle.std.specs.List.{prefix_len};
ghost use Rattle.flat_rows.specs.Runs.{first_set, is_set, lies_between};

use std::simd::prelude::*;

/// How many bytes are checked at once.
pub(crate) const LANES: usize = 8;

/// How many leading bytes are within the range from `low` to `high`.
#[inline(always)]
pub(crate) fn run_between(low: u8, high: u8, bytes: &[u8]) -> usize
    ensures { result ≡ prefix_len (lies_between low high) bytes.now }
{
    let mut at = 0;
    while bytes.len() - at >= LANES {
        let run = lane_run(low, high, bytes, at);
        at += run;
        if run < LANES {
            return at;
        }
    }
    at + short_run(low, high, &bytes[at..])
}

/// The same, byte by byte.
#[inline(always)]
fn short_run(low: u8, high: u8, bytes: &[u8]) -> usize
    ensures { result ≡ prefix_len (lies_between low high) bytes.now }
{
    let mut at = 0;
    while at < bytes.len() && lies_between(low, high, bytes[at]) {
        at += 1;
    }
    at
}

/// Whether a byte is within the range from `low` to `high`.
#[inline(always)]
fn lies_between(low: u8, high: u8, byte: u8) -> bool
    ensures { result ≡ lies_between low high byte }
{
    low <= byte && byte <= high
}

/// How many leading bytes of eight are within the range from `low` to `high`.
#[inline(always)]
fn lane_run(low: u8, high: u8, bytes: &[u8], at: usize) -> usize
    requires { at + LANES ≤ length bytes.now }
    ensures { result ≡ prefix_len (lies_between low high) (take LANES (drop at bytes.now)) }
{
    let lanes = u8x8::from_slice(&bytes[at..]);
    let outside = lanes.simd_lt(u8x8::splat(low)) | lanes.simd_gt(u8x8::splat(high));
    first_set(outside.to_bitmask())
}

/// Whether the first of eight bytes that is out of the range from `low` to `high` is the first 00, or there is neither.
/// The control flow doesn't depend on the bytes.
#[inline(always)]
pub(crate) fn is_lane_text(low: u8, high: u8, bytes: &[u8]) -> bool
    requires { length bytes.now ≡ LANES }
    ensures { result ≡ (prefix_len (lies_between low high) bytes.now == prefix_len is_set bytes.now) }
{
    lane_run(low, high, bytes, 0) == set_run(bytes)
}

/// How many leading bytes of eight are not 00.
#[inline(always)]
fn set_run(bytes: &[u8]) -> usize
    requires { LANES ≤ length bytes.now }
    ensures { result ≡ prefix_len is_set (take LANES bytes.now) }
{
    let lanes = u8x8::from_slice(bytes);
    first_set(lanes.simd_eq(u8x8::splat(0)).to_bitmask())
}

/// The position of the lowest of eight bits that is set, or 8.
#[inline(always)]
pub fn first_set(mask: u64) -> usize
    ensures { result ≡ first_set mask LANES }
{
    if mask == 0 {
        LANES
    } else {
        mask.trailing_zeros() as usize
    }
}

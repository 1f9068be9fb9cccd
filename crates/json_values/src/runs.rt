// How many bytes of a text need no escaping in a string of JSON.
ghost use Rattle.std.specs.Prelude.{◌≡◌, ◌+◌, ◌-◌, ◌≤◌, ◌<◌, ◌==◌, true, not, length, take, drop, IfSome};
ghost use Rattle.std.specs.List.{prefix_len, list_all};
ghost use Rattle.field_values.specs.Reports.{before_zero};
ghost use Rattle.json_values.specs.Plain.{is_plain_byte};

use flat_rows::first_set;
use std::simd::prelude::*;

const LANES: usize = 8;

/// The length of the text before the first 00, if it isn't empty and each of its bytes is printable and needs no
/// escaping.
#[inline(always)]
#[tactic(auto, using(crate::proofs::Fronts::run_is_front, crate::proofs::Lanes::run_passes))]
pub fn plain_front(bytes: &[u8]) -> Option<usize>
    ensures front { IfSome result (λ run. take run bytes.now ≡ before_zero bytes.now) }
    ensures plain { IfSome result (λ run. list_all is_plain_byte (take run bytes.now) ≡ true) }
    ensures within { IfSome result (λ run. run ≤ length bytes.now) }
    ensures some { IfSome result (λ run. 0 < run) }
{
    if bytes.len() == LANES {
        return lane_front(bytes);
    }
    let run = plain_run(bytes);
    if run == 0 {
        return None;
    }
    if run < bytes.len() && bytes[run] != 0 {
        return None;
    }
    Some(run)
}

/// The same for eight bytes: no branch depends on the length of the text.
#[inline(always)]
fn lane_front(bytes: &[u8]) -> Option<usize>
    requires { length bytes.now ≡ LANES }
    ensures front { IfSome result (λ run. take run bytes.now ≡ before_zero bytes.now) }
    ensures plain { IfSome result (λ run. list_all is_plain_byte (take run bytes.now) ≡ true) }
    ensures within { IfSome result (λ run. run ≤ length bytes.now) }
    ensures some { IfSome result (λ run. 0 < run) }
{
    let run = lane_run(bytes, 0);
    if run == 0 || run != lane_text(bytes, 0) {
        return None;
    }
    Some(run)
}

/// How many leading bytes are printable and need no escaping.
#[inline(always)]
pub(crate) fn plain_run(bytes: &[u8]) -> usize
    ensures { result ≡ prefix_len is_plain_byte bytes.now }
{
    let mut at = 0;
    while bytes.len() - at >= LANES {
        let run = lane_run(bytes, at);
        at += run;
        if run < LANES {
            return at;
        }
    }
    if at >= LANES && at < bytes.len() {
        return last_run(bytes);
    }
    at + short_run(&bytes[at..])
}

/// The same, when only the last eight bytes are left to check.
#[inline(always)]
fn last_run(bytes: &[u8]) -> usize
    requires long { LANES ≤ length bytes.now }
    requires looked { length bytes.now - LANES ≤ prefix_len is_plain_byte bytes.now }
    ensures { result ≡ prefix_len is_plain_byte bytes.now }
{
    let last = bytes.len() - LANES;
    last + lane_run(bytes, last)
}

/// The same, byte by byte.
#[inline(always)]
fn short_run(bytes: &[u8]) -> usize
    ensures { result ≡ prefix_len is_plain_byte bytes.now }
{
    let mut at = 0;
    while at < bytes.len() && is_plain(bytes[at]) {
        at += 1;
    }
    at
}

/// Whether a byte is printable and needs no escaping.
#[inline(always)]
fn is_plain(b: u8) -> bool
    ensures { result ≡ is_plain_byte b }
{
    b >= b' ' && b <= b'~' && !(b == b'"' || b == b'\\')
}

/// How many leading bytes of eight are printable and need no escaping.
#[inline(always)]
fn lane_run(bytes: &[u8], at: usize) -> usize
    requires { at + LANES ≤ length bytes.now }
    ensures { result ≡ prefix_len is_plain_byte (take LANES (drop at bytes.now)) }
{
    let lanes = u8x8::from_slice(&bytes[at..]);
    let outside = lanes.simd_lt(u8x8::splat(b' ')) | lanes.simd_gt(u8x8::splat(b'~'));
    let escaped = lanes.simd_eq(u8x8::splat(b'"')) | lanes.simd_eq(u8x8::splat(b'\\'));
    first_set((outside | escaped).to_bitmask())
}

/// How many of eight bytes precede the first 00.
#[inline(always)]
fn lane_text(bytes: &[u8], at: usize) -> usize
    requires { at + LANES ≤ length bytes.now }
    ensures { result ≡ prefix_len (λ b. not (b == 0)) (take LANES (drop at bytes.now)) }
{
    let lanes = u8x8::from_slice(&bytes[at..]);
    first_set(lanes.simd_eq(u8x8::splat(0)).to_bitmask())
}

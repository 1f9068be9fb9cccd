// The texts of decimals with a mantissa of at most 64 bits, written from the last digit to the first.
ghost use Rattle.std.specs.Prelude.{◌≡◌, ◌++◌, ◌<◌, ◌≤◌, ◌+◌, ◌/◌, ◌%◌, ◌^◌, decimal, drop, length, IfSome, Ok};
ghost use Rattle.fix_values.specs.Decimals.{dec, decimal_text, digits_at, parts_text, pointed, without_trailing};
ghost use Rattle.fix_values.specs.Numerals.{sign};
ghost use Rattle.value_texts.specs.Small.{small_parts};

use itoa::write_digits;

/// How many digits a decimal may have after the point.
const MOST_PLACES: i128 = 18;

/// Enough bytes for each of these texts: a sign, twenty digits, a point, and eighteen digits.
pub(crate) const SMALL_ROOM: usize = 40;

/// A decimal: its sign, its digits as a number, and how many of them are after the point.
#[derive(Clone, Copy)]
pub(crate) struct SmallDecimal {
    pub(crate) negative: bool,
    pub(crate) size: u64,
    pub(crate) places: u32,
}

/// The decimal with this mantissa and exponent. `None` if the mantissa has more than 64 bits, or the exponent is above
/// 0 or below -18.
#[inline(always)]
pub(crate) fn small_of(mantissa: i128, exponent: i128) -> Option<SmallDecimal>
    ensures few { IfSome result (λ d. d.places ≤ 18) }
    ensures text { IfSome result (λ d. decimal_text (dec mantissa exponent) ≡ Ok (parts_text (small_parts d))) }
{
    if exponent < -MOST_PLACES || exponent > 0 {
        return None;
    }
    match u64::try_from(mantissa.unsigned_abs()) {
        Ok(size) => Some(SmallDecimal {
            negative: mantissa < 0,
            size,
            places: exponent.unsigned_abs() as u32,
        }),
        Err(_) => None,
    }
}

/// Writes the text of a decimal at the end of an array. Returns where it begins.
#[inline(always)]
pub(crate) fn write_small(small: SmallDecimal, room: &mut [u8; SMALL_ROOM]) -> usize
    requires few { small.places ≤ 18 }
    requires long { length room.old ≡ SMALL_ROOM }
    ensures within { result ≤ SMALL_ROOM }
    ensures long { length room.new ≡ SMALL_ROOM }
    ensures text { drop result room.new ≡ parts_text (small_parts small) }
{
    let (size, places) = shortened(small.size, small.places);
    let (whole, at) = write_fraction(size, places, room);
    let at = write_whole(whole, at, room);
    write_sign(small.negative, at, room)
}

/// A size and its places without the zeros at the end of the fraction.
#[inline(always)]
fn shortened(size: u64, places: u32) -> (u64, u32)
    ensures few { result.1 ≤ places }
    ensures whole { result.0 / 10 ^ result.1 ≡ size / 10 ^ places }
    ensures fraction { digits_at result.1 (result.0 % 10 ^ result.1) ≡ without_trailing (digits_at places (size % 10 ^ places)) }
{
    let mut size = size;
    let mut places = places;
    while places > 0 {
        if size % 10 != 0 {
            return (size, places);
        }
        size /= 10;
        places -= 1;
    }
    (size, places)
}

/// Writes the point and the digits after it, unless there are none. Returns what is before the point, and where the
/// point is.
#[inline(always)]
fn write_fraction(size: u64, places: u32, room: &mut [u8; SMALL_ROOM]) -> (u64, usize)
    requires few { places ≤ 18 }
    requires long { length room.old ≡ SMALL_ROOM }
    ensures long { length room.new ≡ SMALL_ROOM }
    ensures whole { result.0 ≡ size / 10 ^ places }
    ensures left { 21 ≤ result.1 }
    ensures within { result.1 ≤ SMALL_ROOM }
    ensures text { drop result.1 room.new ≡ pointed (digits_at places (size % 10 ^ places)) }
{
    if places == 0 {
        return (size, SMALL_ROOM);
    }
    let (whole, at) = write_places(size, places, room);
    room[at - 1] = b'.';
    (whole, at - 1)
}

/// Writes the last digits of a number at the end of the array. Returns what is before them, and where they begin.
#[inline(always)]
fn write_places(size: u64, places: u32, room: &mut [u8; SMALL_ROOM]) -> (u64, usize)
    requires few { places ≤ 18 }
    requires long { length room.old ≡ SMALL_ROOM }
    ensures long { length room.new ≡ SMALL_ROOM }
    ensures whole { result.0 ≡ size / 10 ^ places }
    ensures begin { result.1 + places ≡ SMALL_ROOM }
    ensures text { drop result.1 room.new ≡ digits_at places (size % 10 ^ places) }
{
    let mut whole = size;
    let mut at = SMALL_ROOM;
    for _ in 0..places {
        at -= 1;
        room[at] = b'0' + (whole % 10) as u8;
        whole /= 10;
    }
    (whole, at)
}

/// Writes the digits of a number before `end`. Returns where they begin.
#[inline(always)]
fn write_whole(whole: u64, end: usize, room: &mut [u8; SMALL_ROOM]) -> usize
    requires left { 21 ≤ end }
    requires within { end ≤ SMALL_ROOM }
    requires long { length room.old ≡ SMALL_ROOM }
    ensures long { length room.new ≡ SMALL_ROOM }
    ensures left { 0 < result }
    ensures within { result ≤ SMALL_ROOM }
    ensures text { drop result room.new ≡ decimal whole ++ drop end room.old }
{
    write_digits(whole, room, end)
}

/// Writes a minus sign before offset `at`, if the number is negative. Returns where it begins.
#[inline(always)]
fn write_sign(negative: bool, at: usize, room: &mut [u8; SMALL_ROOM]) -> usize
    requires left { 0 < at }
    requires within { at ≤ SMALL_ROOM }
    requires long { length room.old ≡ SMALL_ROOM }
    ensures long { length room.new ≡ SMALL_ROOM }
    ensures within { result ≤ SMALL_ROOM }
    ensures text { drop result room.new ≡ sign negative ++ drop at room.old }
{
    if !negative {
        return at;
    }
    room[at - 1] = b'-';
    at - 1
}

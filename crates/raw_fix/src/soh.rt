ghost use Rattle.std.specs.Prelude.{◌≡◌, ◌≤◌, None, length, take};
ghost use Rattle.raw_fix.specs.Claims.{before_soh};
ghost use Rattle.raw_fix.specs.Places.{FindsNear, FindsSoh};

use memchr::memchr;
use raw_walk::SOH;

/// The position of the first SOH. The first `plain` bytes contain none.
pub(crate) fn find_soh(bytes: &[u8], plain: usize) -> Option<usize>
    requires within { plain ≤ length bytes.now }
    requires none { before_soh (take plain bytes.now) ≡ None }
    ensures { FindsSoh bytes.now result }
{
    match memchr(SOH, &bytes[plain..]) {
        Some(i) => Some(plain + i),
        None => None,
    }
}

/// The position of the first SOH among the first `most` bytes.
pub(crate) fn find_near(bytes: &[u8], most: usize) -> Option<usize>
    ensures { FindsNear most bytes.now result }
{
    if bytes.len() <= most {
        return find_soh(bytes, 0);
    }
    find_soh(&bytes[..most], 0)
}

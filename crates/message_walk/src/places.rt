// The rows of a plan.
ghost use Rattle.std.specs.Prelude.{◌≡◌, ◌<◌, ◌≤◌, drop, length, slice_get, take, Some};

/// The first row.
#[inline(always)]
pub(crate) fn first<R>(rows: &[R]) -> &R
    requires { 0 < length rows.now }
    ensures { slice_get rows.now 0 ≡ Some result.now }
{
    &rows[0]
}

/// The rows from row `n` on.
#[inline(always)]
#[tactic(auto, using(std::proofs::lemmas::List::take_rest))]
pub(crate) fn rest_from<R>(rows: &[R], n: usize) -> &[R]
    requires { n ≤ length rows.now }
    ensures { result.now ≡ drop n rows.now }
{
    &rows[n..]
}

/// The rows before row `n`.
#[inline(always)]
pub(crate) fn front<R>(rows: &[R], n: usize) -> &[R]
    requires { n ≤ length rows.now }
    ensures { result.now ≡ take n rows.now }
{
    &rows[..n]
}

/// The lesser of two numbers.
#[inline(always)]
pub(crate) fn at_most(n: usize, most: usize) -> usize
    ensures same { n ≤ most → result ≡ n }
    ensures within { result ≤ most }
{
    if n < most { n } else { most }
}

// A short run of bytes is copied by two copies of one size, which may overlap.
ghost use Rattle.std.specs.Prelude.{◌≡◌, ◌+◌, ◌≤◌, length, take};
ghost use Rattle.byte_places.specs.Places.{IsPlaced, IsPut};

use std::simd::Simd;

/// Copies `bytes` into `room` at offset `at`. Returns the offset after them.
#[inline(always)]
pub fn place(room: &mut [u8], at: usize, bytes: &[u8]) -> usize
    requires { at + length bytes.now ≤ length room.old }
    ensures { IsPlaced room.old room.new at bytes.now result }
{
    put(room, at, bytes)
}

/// Copies the first `N` bytes into `room` at offset `at`. Returns the offset after them. The copy doesn't branch on a
/// length.
#[inline(always)]
pub fn place_front<const N: usize>(room: &mut [u8], at: usize, bytes: &[u8]) -> usize
    requires enough { N ≤ length bytes.now }
    requires within { at + N ≤ length room.old }
    ensures { IsPlaced room.old room.new at (take N bytes.now) result }
{
    put_front::<N>(room, at, bytes)
}

/// Copies the first `count` bytes into `room` at offset `at`. Returns the offset after them. All of the first `N` bytes
/// are copied, so that the copy doesn't branch on a length.
#[inline(always)]
pub fn place_within<const N: usize>(room: &mut [u8], at: usize, bytes: &[u8], count: usize) -> usize
    requires enough { N ≤ length bytes.now }
    requires most { count ≤ N }
    requires within { at + N ≤ length room.old }
    ensures placed { IsPlaced room.old room.new at (take count bytes.now) result }
    ensures moved { result ≡ at + count }
{
    place_front::<N>(room, at, bytes);
    at + count
}

/// Copies `bytes` into `room` at offset `at`, and leaves the bytes after them. Returns the offset after them.
#[inline(always)]
pub fn put(room: &mut [u8], at: usize, bytes: &[u8]) -> usize
    requires { at + length bytes.now ≤ length room.old }
    ensures { IsPut room.old room.new at bytes.now result }
{
    let count = bytes.len();
    if count >= 8 {
        put_long(room, at, bytes)
    } else if count >= 4 {
        put_ends::<4>(room, at, bytes)
    } else if count >= 2 {
        put_ends::<2>(room, at, bytes)
    } else if count == 1 {
        put_front::<1>(room, at, bytes)
    } else {
        at
    }
}

/// Copies the first `N` bytes into `room` at offset `at`, and leaves the bytes after them. Returns the offset after them.
/// The copy doesn't branch on a length.
#[inline(always)]
pub fn put_front<const N: usize>(room: &mut [u8], at: usize, bytes: &[u8]) -> usize
    requires enough { N ≤ length bytes.now }
    requires within { at + N ≤ length room.old }
    ensures { IsPut room.old room.new at (take N bytes.now) result }
{
    Simd::<u8, N>::from_slice(bytes).copy_to_slice(&mut room[at..]);
    at + N
}

/// Copies eight or more bytes to an offset.
#[inline(always)]
fn put_long(room: &mut [u8], at: usize, bytes: &[u8]) -> usize
    requires enough { 8 ≤ length bytes.now }
    requires within { at + length bytes.now ≤ length room.old }
    ensures { IsPut room.old room.new at bytes.now result }
{
    let count = bytes.len();
    if count <= 16 {
        put_ends::<8>(room, at, bytes)
    } else if count <= 32 {
        put_ends::<16>(room, at, bytes)
    } else {
        put_many(room, at, bytes)
    }
}

/// Copies the first `N` and the last `N` bytes, which may overlap, to an offset.
#[inline(always)]
fn put_ends<const N: usize>(room: &mut [u8], at: usize, bytes: &[u8]) -> usize
    requires enough { N ≤ length bytes.now }
    requires covered { length bytes.now ≤ N + N }
    requires within { at + length bytes.now ≤ length room.old }
    ensures { IsPut room.old room.new at bytes.now result }
{
    let last = bytes.len() - N;
    put_front::<N>(room, at, bytes);
    put_front::<N>(room, at + last, &bytes[last..])
}

/// Copies any number of bytes to an offset.
#[inline(always)]
fn put_many(room: &mut [u8], at: usize, bytes: &[u8]) -> usize
    requires { at + length bytes.now ≤ length room.old }
    ensures { IsPut room.old room.new at bytes.now result }
{
    let end = at + bytes.len();
    room[at..end].copy_from_slice(bytes);
    end
}

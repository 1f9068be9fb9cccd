//! The sum of a frame's bytes.

ghost use Rattle.std.specs.Prelude.{◌≡◌, ◌≤◌, ◌<◌, ◌*◌, ◌^◌, length, sum};
ghost use Rattle.open_framing.specs.Frames.{frame};

use open_framing::{HEAD_BYTES, Head, put_head};

/// The largest byte.
pub(crate) const LAST_BYTE: u64 = 255;

/// The sum of bytes as numbers.
pub(crate) fn sum_bytes(bytes: &[u8]) -> u64
    requires { length bytes.now < 2 ^ 32 }
    ensures value { result ≡ sum bytes.now }
    ensures within { result ≤ LAST_BYTE * length bytes.now }
{
    let mut total = 0;
    for byte in bytes {
        total += u64::from(*byte);
    }
    total
}

/// The sum of the bytes of a body's frame.
pub(crate) fn sum_frame(encoding: u16, body: &[u8]) -> u64
    requires { length body.now < 2 ^ 24 }
    ensures value { result ≡ sum (frame encoding body.now) }
    ensures within { result ≤ LAST_BYTE * length (frame encoding body.now) }
{
    let length = (body.len() + HEAD_BYTES) as u32;
    let mut head = [0; HEAD_BYTES];
    put_head(&Head { length, encoding }, &mut head);
    sum_bytes(&head) + sum_bytes(body)
}

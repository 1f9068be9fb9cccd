ghost use Rattle.std.specs.Prelude.{◌≡◌, ◌++◌, ℕ};
ghost use Rattle.byte_digits.specs.Digits.{digits_high_first};
ghost use Rattle.open_framing.specs.Heads.{head_of, head_by};

use byteorder::{BigEndian, ByteOrder};
use thiserror::Error;

/// The size of a head in bytes: four for the length, two for the encoding type.
pub const HEAD_BYTES: usize = 6;

/// The encoding type of SBE 1.0 in big-endian order. The number is this project's profile.
pub const SBE_BIG: u16 = 0x5be0;

/// The encoding type of SBE 1.0 in little-endian order. The number is this project's profile.
pub const SBE_LITTLE: u16 = 0xeb50;

/// The encoding type of tag-value texts. The number is this project's profile.
pub const TAG_VALUE: u16 = 0xf000;

/// The head of a frame, in the terms of the Simple Open Framing Header 1.0.
#[derive(Clone, Copy, Debug, PartialEq, Eq)]
pub struct Head {
    /// The standard's Message_Length: the size of the whole frame in bytes. This project's profile counts the head's
    /// own six bytes too.
    pub length: u32,
    /// The standard's Encoding_Type.
    pub encoding: u16,
}

/// Why bytes don't begin a frame: the first of these that applies.
#[derive(Clone, Copy, Debug, PartialEq, Eq, Drop, Error)]
pub enum HeadErr {
    /// There are fewer than six bytes.
    #[error("a frame's head has six bytes")]
    HeadShort,
    /// This length is too small to include the head itself.
    #[error("a frame of {0} bytes is shorter than its head")]
    LengthShort(u32),
    /// This length exceeds the limit.
    #[error("a frame of {0} bytes is above the limit")]
    LengthOver(u32),
    /// This encoding type is none of the three.
    #[error("{0:04x} is no encoding type")]
    Encoding(u16),
}

/// Reads the head of a frame of at most `limit` bytes. Both numbers are big-endian, which is this project's profile.
/// Bytes after the head are ignored.
///
/// # Errors
///
/// Each variant of [`HeadErr`], checked in the order of the enum: the first one that applies.
pub fn read_head(bytes: &[u8], limit: usize) -> Result<Head, HeadErr>
    ensures { result ≡ head_of bytes.now limit }
{
    if bytes.len() < HEAD_BYTES {
        return Err(HeadErr::HeadShort);
    }
    let length = BigEndian::read_u32(bytes);
    if (length as usize) < HEAD_BYTES {
        return Err(HeadErr::LengthShort(length));
    }
    if length as usize > limit {
        return Err(HeadErr::LengthOver(length));
    }
    let encoding = BigEndian::read_u16(&bytes[4..]);
    match encoding {
        SBE_BIG | SBE_LITTLE | TAG_VALUE => Ok(Head { length, encoding }),
        other => Err(HeadErr::Encoding(other)),
    }
}

/// Writes the six bytes of a head, as [`read_head`] reads them. The two numbers aren't checked.
pub fn put_head(head: &Head, out: &mut [u8; 6])
    ensures bytes { out.new ≡ digits_high_first 4 head.now.length ++ digits_high_first 2 head.now.encoding }
    ensures back { (limit : ℕ) → head_of out.new limit ≡ head_by head.now.length head.now.encoding limit }
{
    let Head { length, encoding } = *head;
    BigEndian::write_u32(&mut out[..4], length);
    BigEndian::write_u16(&mut out[4..], encoding);
}

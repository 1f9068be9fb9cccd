// Numbers as their bits. No contract covers the result.
ghost use Rattle.std.specs.Prelude.{◌≡◌, length};

/// The lowest bits, in little-endian order.
#[inline(always)]
pub(crate) fn little(bits: u64, out: &mut [u8])
    ensures { length out.new ≡ length out.old }
{
    let bytes = bits.to_le_bytes();
    let wide = out.len();
    if wide == 8 {
        out.copy_from_slice(&bytes);
    } else if wide == 4 {
        out.copy_from_slice(&bytes[..4]);
    } else if wide == 2 {
        out.copy_from_slice(&bytes[..2]);
    } else if wide == 1 {
        out.copy_from_slice(&bytes[..1]);
    }
}

/// The lowest bits, in big-endian order.
#[inline(always)]
pub(crate) fn big(bits: u64, out: &mut [u8])
    ensures { length out.new ≡ length out.old }
{
    let bytes = bits.to_be_bytes();
    let wide = out.len();
    if wide == 8 {
        out.copy_from_slice(&bytes);
    } else if wide == 4 {
        out.copy_from_slice(&bytes[4..]);
    } else if wide == 2 {
        out.copy_from_slice(&bytes[6..]);
    } else if wide == 1 {
        out.copy_from_slice(&bytes[7..]);
    }
}

/// The bits of a number, in two's complement, or 0 if it doesn't fit 64 bits.
pub fn bits_of(number: i128) -> u64 {
    match u64::try_from(number) {
        Ok(bits) => bits,
        Err(_) => match i64::try_from(number) {
            Ok(signed) => signed.cast_unsigned(),
            Err(_) => 0,
        },
    }
}

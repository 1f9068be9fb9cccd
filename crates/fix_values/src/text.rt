ghost use Rattle.std.specs.Prelude.{◌≡◌};
ghost use Rattle.std.specs.List.{list_all};
ghost use Rattle.sbe_types.specs.Shows as shows;
ghost use Rattle.fix_values.specs.Codes as codes;
ghost use Rattle.fix_values.specs.Values.{text_shown, text_read};

use crate::V;
use sbe_types::{Leaf, LeafShape};

/// The byte that ends a field of a tag-value text.
pub const SOH: u8 = 1;

/// Checks a text that is to be written: FIX's datatype String, of one or more bytes without SOH.
///
/// # Errors
///
/// `Empty` if there is no byte, `Soh` if one of them is SOH.
pub fn show_text(bytes: &[u8]) -> Result<(), V>
    ensures { result ≡ text_shown bytes.now }
{
    if bytes.is_empty() {
        return Err(V::Empty);
    }
    if has_soh(bytes) {
        return Err(V::Soh);
    }
    Ok(())
}

/// Checks a text that was read for a char array. It may have at most as many bytes as the leaf has elements.
///
/// # Errors
///
/// `Range` if it is longer than the array, `Spelling` if it contains a byte that isn't allowed.
pub fn read_text(leaf: &Leaf, bytes: &[u8]) -> Result<(), V>
    ensures { result ≡ text_read leaf.now bytes.now }
{
    if bytes.len() > leaf.length as usize {
        return Err(V::Range);
    }
    if are_text_bytes(leaf, bytes) {
        Ok(())
    } else {
        Err(V::Spelling)
    }
}

/// Whether each byte is allowed in the leaf's texts.
fn are_text_bytes(leaf: &Leaf, bytes: &[u8]) -> bool
    ensures { result ≡ list_all (shows.is_text_byte leaf.now) bytes.now }
{
    bytes.iter().all(|byte| is_text_byte(leaf, *byte))
}

/// Whether the bytes contain SOH.
pub fn has_soh(bytes: &[u8]) -> bool
    ensures { result ≡ codes.has_soh bytes.now }
{
    bytes.contains(&SOH)
}

/// Whether the byte is allowed in the leaf's texts: it isn't 00, and is within the range if there is no character
/// encoding.
fn is_text_byte(leaf: &Leaf, byte: u8) -> bool
    ensures { result ≡ shows.is_text_byte leaf.now byte }
{
    let Leaf {
        shape,
        low,
        high,
        ..
    } = *leaf;
    let number = byte as i128;
    byte != 0 && (!is_ranged(shape) || low <= number && number <= high)
}

fn is_ranged(shape: LeafShape) -> bool
    ensures { result ≡ shows.is_ranged shape }
{
    match shape {
        LeafShape::RangedText => true,
        LeafShape::Number | LeafShape::EncodedText | LeafShape::Octets | LeafShape::Numbers =>
            false,
    }
}

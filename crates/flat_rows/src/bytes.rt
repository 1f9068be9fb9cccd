// The valid values of an enum of one byte, looked up by byte.
ghost use Rattle.std.specs.Prelude.{◌≡◌, ◌<◌, ◌≢◌, ℕ, IfOk, IfSome, None, true, length, pos};
ghost use Rattle.sbe_types.specs.declared.kind.Kind.{Enum};
ghost use Rattle.flat_rows.specs.Bytes.{is_byte, AreListedBytes, AreUnset, AreValidBytes, IsValidByte, Notes, NotesNull};
ghost use Rattle.flat_rows.specs.declared.bytes.TheConstants.{BYTES};

use lists::NoMem;
use sbe_types::{Kind, Leaf, Named, Prim};
use std::alloc::Global;

/// The number of values of a byte.
const BYTES: usize = 256;

/// Whether the bytes of a value are one byte that is a valid value, by the table of its enum. `false` is inconclusive
/// if the enum has more bytes.
#[inline(always)]
pub(crate) fn is_valid(valid: &Vec<u8>, bytes: &[u8]) -> bool
    ensures { result ≡ true → IsValidByte valid.now.items bytes.now }
{
    if bytes.len() != 1 {
        return false;
    }
    let byte = bytes[0] as usize;
    byte < valid.len() && valid[byte] == 1
}

/// For each byte, 1 if it is a valid value of an enum of one byte or its null, and 0 otherwise. Empty for other kinds.
pub(crate) fn valid_bytes(alloc: Global, kind: &Kind) -> Result<Vec<u8>, NoMem>
    ensures { IfOk result (λ valid. AreValidBytes valid.items kind.now) }
{
    match kind {
        Kind::Enum(leaf, names) => enum_bytes(alloc, leaf, names.as_slice()),
        Kind::Leaf(_) | Kind::Set(_, _) | Kind::Comp(_) | Kind::Const(_) => Ok(Vec::new(alloc)),
    }
}

/// The table of an enum.
fn enum_bytes(alloc: Global, leaf: &Leaf, names: &[Named]) -> Result<Vec<u8>, NoMem>
    ensures { IfOk result (λ valid. AreValidBytes valid.items (Enum leaf.now names.now)) }
{
    if is_byte(leaf.prim) {
        let mut valid = [0u8; BYTES];
        note_names(&mut valid, names);
        note_null(&mut valid, leaf);
        Ok(Vec::from_slice(alloc, &valid)?)
    } else {
        Ok(Vec::new(alloc))
    }
}

/// Whether each number of the primitive equals its byte.
fn is_byte(prim: Prim) -> bool
    ensures { result ≡ is_byte prim }
{
    match prim {
        Prim::Char | Prim::U8 => true,
        Prim::I8 | Prim::I16 | Prim::I32 | Prim::I64 | Prim::U16 | Prim::U32 | Prim::U64 => false,
    }
}

/// Marks each name's number, from the last name to the first.
fn note_names(valid: &mut [u8; BYTES], names: &[Named])
    requires size { length valid.old ≡ BYTES }
    requires none { AreUnset valid.old }
    ensures size { length valid.new ≡ BYTES }
    ensures noted { AreListedBytes valid.new names.now }
{
    let mut left = names.len();
    while left > 0 {
        left -= 1;
        note(valid, names[left].number);
    }
}

/// Marks the null of an enum, if it may be null.
fn note_null(valid: &mut [u8; BYTES], leaf: &Leaf)
    requires { length valid.old ≡ BYTES }
    ensures size { length valid.new ≡ BYTES }
    ensures noted { NotesNull leaf.now valid.old valid.new }
{
    if leaf.is_null(leaf.null) {
        note(valid, leaf.null);
    }
}

/// Marks a number, if it fits a byte.
fn note(valid: &mut [u8; BYTES], number: i128)
    requires { length valid.old ≡ BYTES }
    ensures size { length valid.new ≡ BYTES }
    ensures noted { Notes number valid.old valid.new }
{
    if let Some(byte) = byte_of(number) {
        valid[byte as usize] = 1;
    }
}

/// The number as a byte, if it fits one.
fn byte_of(number: i128) -> Option<u8>
    ensures some { IfSome result (λ byte. pos byte ≡ number) }
    ensures small { IfSome result (λ byte. byte < BYTES) }
    ensures none { result ≡ None → (b : ℕ) → b < BYTES → number ≢ pos b }
{
    if number >= 0 && number <= 255 {
        Some(number as u8)
    } else {
        None
    }
}

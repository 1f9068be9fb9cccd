// The names of an enum of one byte, looked up by byte.
ghost use Rattle.std.specs.Prelude.{◌≡◌, ◌+◌, ◌≤◌, ◌<◌, ◌≢◌, ◌∷◌, ℕ, List, IfOk, IfSome, OnOk, None, true, length, get_or, pos};
ghost use Rattle.sbe_types.specs.declared.kind.Kind.{Kind, Enum};
ghost use Rattle.sbe_types.specs.declared.kind.Named.{Named};
ghost use Rattle.json_rows.specs.Codes.{AddsText, AreCodes, AreTexts, IsKept, IsTextOf, IsWhole, KeepsTexts};
ghost use Rattle.flat_rows.specs.Bytes.{is_byte};
ghost use Rattle.json_rows.specs.declared.codes.TheConstants.{NAME_BYTES, NUMBERS};

use crate::rows::Codes;
use lists::NoMem;
use sbe_types::{Kind, Leaf, Named, Prim};
use std::alloc::Global;

/// The number of values of a byte.
const NUMBERS: usize = 256;

/// The size of a stored text: the text, spaces after it, and the length of the text.
const SLOT_BYTES: usize = 16;

/// The longest name whose text is stored.
const NAME_BYTES: usize = 13;

/// The most texts that are stored.
const MOST_TEXTS: usize = 255;

/// As many spaces as follow the shortest text.
const SPACES: &[u8] = b"             ";

/// The text of the enum's value in this byte: 16 bytes, and how many of them, from the first, are the text. `None` if
/// no text is stored for it.
#[inline(always)]
pub fn text_of_code(codes: &Codes, byte: u8) -> Option<(&[u8], usize)>
    requires { KeepsTexts codes.now }
    ensures { IfSome result (λ found. (kind : Kind) → AreCodes codes.now kind → IsTextOf kind byte found.0.now found.1) }
{
    let place = place_of(codes, byte);
    if place == 0 {
        return None;
    }
    let end = place * SLOT_BYTES;
    let slot = &codes.texts[end - SLOT_BYTES..end];
    Some((slot, slot[SLOT_BYTES - 1] as usize))
}

/// Which of the texts is that of a byte, counted from 1, or 0 if none is stored.
#[inline(always)]
fn place_of(codes: &Codes, byte: u8) -> usize
    ensures { result ≡ get_or codes.now.index.items byte 0 }
{
    let at = byte as usize;
    if at < codes.index.len() {
        codes.index[at] as usize
    } else {
        0
    }
}

/// The texts that a row stores of its kind.
pub(crate) fn codes_of(alloc: Global, kind: &Kind) -> Result<Codes, NoMem>
    ensures { IfOk result (λ kept. AreCodes kept kind.now) }
{
    match kind {
        Kind::Enum(leaf, names) => enum_codes(alloc, leaf, names.as_slice()),
        Kind::Leaf(_) | Kind::Set(_, _) | Kind::Comp(_) | Kind::Const(_) => Ok(no_codes(alloc)),
    }
}

/// No texts.
fn no_codes(alloc: Global) -> Codes
    ensures { (kind : Kind) → AreCodes result kind }
{
    Codes {
        index: Vec::new(alloc),
        texts: Vec::new(alloc),
    }
}

/// The texts of an enum.
fn enum_codes(alloc: Global, leaf: &Leaf, names: &[Named]) -> Result<Codes, NoMem>
    ensures { IfOk result (λ kept. AreCodes kept (Enum leaf.now names.now)) }
{
    if is_byte(leaf.prim) {
        byte_codes(alloc, leaf, names)
    } else {
        Ok(no_codes(alloc))
    }
}

/// Whether each number of the primitive equals its byte.
fn is_byte(prim: Prim) -> bool
    ensures { result ≡ is_byte prim }
{
    match prim {
        Prim::Char | Prim::U8 => true,
        Prim::I8 | Prim::I16 | Prim::I32 | Prim::I64 | Prim::U16 | Prim::U32 | Prim::U64 => false,
    }
}

/// The texts of an enum of one byte. The names are added from the last to the first, so of two with the same number the
/// first one applies.
fn byte_codes(alloc: Global, leaf: &Leaf, names: &[Named]) -> Result<Codes, NoMem>
    requires { is_byte leaf.now.prim ≡ true }
    ensures { IfOk result (λ kept. AreCodes kept (Enum leaf.now names.now)) }
{
    let mut index = [0u8; NUMBERS];
    let mut texts = Vec::new(alloc);
    let mut left = names.len();
    while left > 0 {
        left -= 1;
        add_text(&mut index, &mut texts, leaf, &names[left])?;
    }
    let index = Vec::from_slice(alloc, &index)?;
    Ok(Codes { index, texts })
}

/// Adds the text of a name, which precedes the names added so far. A name that can't be stored removes the text of its
/// number.
fn add_text(
    index: &mut [u8; NUMBERS],
    texts: &mut Vec<u8>,
    leaf: &Leaf,
    named: &Named,
) -> Result<(), NoMem>
    requires byte { is_byte leaf.now.prim ≡ true }
    requires size { length index.old ≡ NUMBERS }
    requires whole { IsWhole texts.old.items }
    ensures size { OnOk result (length index.new ≡ NUMBERS) }
    ensures whole { OnOk result (IsWhole texts.new.items) }
    ensures texts { OnOk result ((names : List Named) → AreTexts index.old texts.old.items leaf.now names
        → AreTexts index.new texts.new.items leaf.now (named.now ∷ names)) }
{
    let Some(byte) = byte_in(named) else {
        return Ok(());
    };
    let place = texts.len() / SLOT_BYTES + 1;
    if !is_kept(leaf, named, place) {
        index[byte as usize] = 0;
        return Ok(());
    }
    put_text(texts, named.name.as_slice())?;
    index[byte as usize] = place as u8;
    Ok(())
}

/// The number of a name as a byte, if it fits one.
fn byte_in(named: &Named) -> Option<u8>
    ensures some { IfSome result (λ byte. pos byte ≡ named.now.number) }
    ensures small { IfSome result (λ byte. byte < NUMBERS) }
    ensures none { result ≡ None → (b : ℕ) → b < NUMBERS → named.now.number ≢ pos b }
{
    if named.number >= 0 && named.number <= 255 {
        Some(named.number as u8)
    } else {
        None
    }
}

/// Whether the text of a name can be stored at this place: its number isn't the null, and neither it nor the texts are
/// too long.
fn is_kept(leaf: &Leaf, named: &Named, place: usize) -> bool
    ensures { result ≡ true → IsKept leaf.now named.now place }
{
    !leaf.is_null(named.number) && named.name.len() <= NAME_BYTES && place <= MOST_TEXTS
}

/// Adds a name between quotes, spaces after it, and the number of its bytes including the quotes.
fn put_text(texts: &mut Vec<u8>, name: &[u8]) -> Result<(), NoMem>
    requires { length name.now ≤ NAME_BYTES }
    ensures { OnOk result (AddsText texts.old.items texts.new.items name.now) }
{
    let count = count_of(name);
    texts.extend_from_slice(b"\"")?;
    texts.extend_from_slice(name)?;
    texts.extend_from_slice(b"\"")?;
    texts.extend_from_slice(spaces(NAME_BYTES - name.len()))?;
    texts.extend_from_slice(&[count])?;
    Ok(())
}

/// The number of bytes of a name including its quotes.
fn count_of(name: &[u8]) -> u8
    requires { length name.now ≤ NAME_BYTES }
    ensures { result ≡ length name.now + 2 }
{
    name.len() as u8 + 2
}

/// `count` spaces.
fn spaces(count: usize) -> &'static [u8]
    requires { count ≤ NAME_BYTES }
    ensures { length result.now ≡ count }
{
    &SPACES[..count]
}

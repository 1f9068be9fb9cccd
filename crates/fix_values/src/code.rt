ghost use Rattle.std.specs.Prelude.{◌≡◌, ◌∷◌, ◌++◌, [], ◌<◌, ◌≤◌, ◌+◌, ◌*◌, ◌^◌, true, false, not, ◌||◌, pos, Ok, Some, int_le, length, replicate, IsTrue};
ghost use Rattle.std.specs.Bool.{OnTrue};
ghost use Rattle.std.specs.List.{list_all};
ghost use Rattle.sbe_types.specs.Numbers.{natural};
ghost use Rattle.fix_values.specs.Codes.{bit_of, bits_of, code_number, code_text, codes_in, found_text, has_bit, has_short_text, is_apart, is_choice, judged_set, same_number, set_number, set_text};
ghost use Rattle.fix_values.specs.Tables as tables;
ghost use Rattle.fix_values.specs.Values.{Leaves};

use crate::digits::is_null;
use crate::text::has_soh;
use crate::{Code, CodeList, ROOM, Short, V};
use sbe_types::Leaf;

/// Writes the text of the first code with this number.
pub fn show_code(codes: &CodeList, n: i128, out: &mut Short) -> Result<(), V>
    requires empty { out.old ≡ [] }
    requires short { IsTrue (list_all has_short_text codes.now) }
    ensures { Leaves result out.new (code_text codes.now n) }
{
    for code in codes.as_slice() {
        if code.number == n {
            return show_code_text(code, out);
        }
    }
    Err(V::UnknownCode)
}

fn show_code_text(code: &Code, out: &mut Short) -> Result<(), V>
    requires empty { out.old ≡ [] }
    requires short { IsTrue (has_short_text code.now) }
    ensures { Leaves result out.new (found_text (Some code.now)) }
{
    let text = code.text.as_slice();
    if has_soh(text) {
        return Err(V::Soh);
    }
    out.extend(text);
    Ok(())
}

/// The number of the first code with this text that isn't the leaf's null.
pub fn read_code(codes: &CodeList, leaf: &Leaf, text: &[u8]) -> Result<i128, V>
    ensures { result ≡ code_number codes.now leaf.now text.now }
{
    for code in codes.as_slice() {
        if code.text.as_slice() == text && !is_null(leaf, code.number) {
            return Ok(code.number);
        }
    }
    Err(V::UnknownCode)
}

/// Writes the texts of the codes of the number's bits, in the list's order, separated by spaces.
pub fn show_codes(codes: &CodeList, n: i128, out: &mut Short) -> Result<(), V>
    requires empty { out.old ≡ [] }
    requires choices { IsTrue (list_all is_choice codes.now) }
    requires apart { IsTrue (is_apart same_number codes.now) }
    requires low { IsTrue (int_le (pos 0) n) }
    requires high { IsTrue (int_le n (pos 18446744073709551615)) }
    ensures { Leaves result out.new (set_text codes.now (natural n)) }
{
    let bits = n as u64;
    let shown = put_codes(codes, bits, out);
    judge_codes(bits, shown, out)
}

/// Writes the codes of these bits, and returns the number that they make up.
fn put_codes(codes: &CodeList, bits: u64, out: &mut Short) -> u128
    requires empty { out.old ≡ [] }
    requires choices { IsTrue (list_all is_choice codes.now) }
    requires apart { IsTrue (is_apart same_number codes.now) }
    ensures text { out.new ≡ tables.with_codes [] (codes_in codes.now bits) }
    ensures sum { result ≡ bits_of (codes_in codes.now bits) }
{
    let mut shown = 0u128;
    for code in codes.as_slice() {
        shown += put_choice(code, bits, out) as u128;
    }
    shown
}

/// Writes the code if its bit is one of these, and returns that bit, or 0.
fn put_choice(code: &Code, bits: u64, out: &mut Short) -> u64
    requires choice { IsTrue (is_choice code.now) }
    requires room { length out.old + 2 * length (codes_in (code.now ∷ []) bits) ≤ ROOM }
    ensures text { out.new ≡ tables.with_codes out.old (codes_in (code.now ∷ []) bits) }
    ensures sum { result ≡ bits_of (codes_in (code.now ∷ []) bits) }
    ensures small { result ≤ 2 ^ 63 }
    ensures room { length out.new ≤ length out.old + 2 * length (codes_in (code.now ∷ []) bits) }
{
    if has_choice(code, bits) {
        put_code(code, out);
        return choice_bit(code);
    }
    0
}

/// Whether the bit of a choice is one of these.
fn has_choice(code: &Code, bits: u64) -> bool
    requires { IsTrue (is_choice code.now) }
    ensures { result ≡ has_bit bits code.now }
{
    (bits >> code.number as u32) % 2 == 1
}

/// The bit of a choice.
fn choice_bit(code: &Code) -> u64
    requires { IsTrue (is_choice code.now) }
    ensures value { result ≡ bit_of code.now }
    ensures small { result ≤ 2 ^ 63 }
    ensures some { 0 < result }
{
    1u64 << code.number as u32
}

/// Writes one more code.
fn put_code(code: &Code, out: &mut Short)
    requires choice { IsTrue (is_choice code.now) }
    requires room { length out.old + 2 ≤ ROOM }
    ensures text { out.new ≡ tables.with_code out.old code.now }
    ensures room { length out.new ≤ length out.old + 2 }
{
    if !out.is_empty() {
        out.push(b' ');
    }
    match code.text.as_slice() {
        [byte] => out.push(*byte),
        text => out.extend(text),
    }
}

/// Clears the text of a set if a bit has no code, there is no bit, or the text contains SOH.
fn judge_codes(bits: u64, shown: u128, out: &mut Short) -> Result<(), V>
    ensures { Leaves result out.new (judged_set shown bits out.old) }
{
    if shown != bits as u128 {
        out.clear();
        return Err(V::UnknownCode);
    }
    if out.is_empty() {
        return Err(V::Empty);
    }
    if has_soh(out.bytes()) {
        out.clear();
        return Err(V::Soh);
    }
    Ok(())
}

/// The number of the bits whose codes are in the text: characters separated by single spaces, none of them twice.
pub fn read_codes(codes: &CodeList, text: &[u8]) -> Result<i128, V>
    requires { IsTrue (list_all is_choice codes.now) }
    ensures { result ≡ set_number codes.now text.now }
{
    let mut named = [false; 256];
    if !mark_characters(text, &mut named) {
        return Err(V::Spelling);
    }
    let mut coded = [false; 256];
    let n = mark_codes(codes, &named, &mut coded);
    if !are_characters_marked(text, &coded) {
        return Err(V::UnknownCode);
    }
    Ok(n as i128)
}

/// Marks the characters of the text, and returns whether it is spelled as a set is.
fn mark_characters(text: &[u8], named: &mut [bool; 256]) -> bool
    ensures spelled { result ≡ tables.goes_on false named.old text.now }
    ensures marks { OnTrue result (named.new ≡ tables.marks_of false named.old text.now) }
{
    let mut space = false;
    for byte in text {
        if space {
            if *byte != b' ' {
                return false;
            }
        } else {
            if named[*byte as usize] {
                return false;
            }
            named[*byte as usize] = true;
        }
        space = !space;
    }
    space
}

/// Marks the texts of all codes, and returns the number that the named ones make up.
fn mark_codes(codes: &CodeList, named: &[bool; 256], coded: &mut [bool; 256]) -> u128
    requires { IsTrue (list_all is_choice codes.now) }
    ensures sum { result ≡ bits_of (tables.marked_codes named.now codes.now) }
    ensures small { result < 2 ^ 127 }
    ensures marks { coded.new ≡ tables.with_marks coded.old codes.now }
{
    let mut n = 0u128;
    for code in codes.as_slice() {
        n += named_bit(code, named) as u128;
        coded[*code.text.at(0) as usize] = true;
    }
    n
}

/// The bit of a choice whose text is marked, or 0.
fn named_bit(code: &Code, named: &[bool; 256]) -> u64
    requires { IsTrue (is_choice code.now) }
    ensures sum { result ≡ bits_of (tables.marked_codes named.now (code.now ∷ [])) }
    ensures small { result ≤ 2 ^ 63 }
{
    if named[*code.text.at(0) as usize] {
        return choice_bit(code);
    }
    0
}

/// Whether each character of the text is marked.
fn are_characters_marked(text: &[u8], marks: &[bool; 256]) -> bool
    ensures { result ≡ tables.are_marked true marks.now text.now }
{
    let mut here = true;
    for byte in text {
        if !is_passed(here, marks, *byte) {
            return false;
        }
        here = !here;
    }
    true
}

/// Whether the byte is marked, if it is checked here.
fn is_passed(here: bool, marks: &[bool; 256], byte: u8) -> bool
    ensures { result ≡ (not here || tables.is_marked marks.now byte) }
{
    !here || marks[byte as usize]
}

// The pieces of a run.
ghost use Rattle.std.specs.Prelude.{◌≡◌, ◌≤◌, ◌<◌, ◌+◌, true, false, [], ◌==◌, length, take, drop, slice_get, Some};
ghost use Rattle.bridge_terms.specs.Gathering.{is_run};
ghost use Rattle.bridge_terms.specs.Parts.{pieces_of};
ghost use Rattle.field_judge.specs.Fields.{fields_of};
ghost use Rattle.field_judge.specs.declared.field.AppField.{AppField as AnyField};

use crate::field::AppField;

/// Whether a run has `n` pieces, and begins with the first one.
pub(crate) fn is_run(delimiter: u32, n: u128, run: &[AppField<'_>]) -> bool
    ensures { result ≡ is_run n (pieces_of delimiter (fields_of run.now)) }
{
    piece_len(delimiter, run) == 0 && count_pieces(delimiter, run) as u128 == n
}

/// How many pieces a run has.
fn count_pieces(delimiter: u32, run: &[AppField<'_>]) -> usize
    ensures same { result ≡ length (pieces_of delimiter (fields_of run.now)).pieces }
    ensures within { result ≤ length run.now }
{
    let mut count = 0;
    for i in 0..run.len() {
        count = counted(delimiter, run, i, count);
    }
    count
}

/// The count, plus one if field `i` begins a piece.
fn counted(delimiter: u32, run: &[AppField<'_>], i: usize, count: usize) -> usize
    requires within { i < length run.now }
    requires few { count ≤ i }
    ensures some { (x : AnyField) → slice_get run.now i ≡ Some x → (x.tag == delimiter) ≡ true → result ≡ count + 1 }
    ensures none { (x : AnyField) → slice_get run.now i ≡ Some x → (x.tag == delimiter) ≡ false → result ≡ count }
    ensures few { result ≤ count + 1 }
{
    if is_delimiter(delimiter, run, i) {
        return count + 1;
    }
    count
}

/// How many fields precede the first delimiter.
pub fn piece_len(delimiter: u32, run: &[AppField<'_>]) -> usize
    ensures within { result ≤ length run.now }
    ensures front { (pieces_of delimiter (fields_of run.now)).front ≡ fields_of (take result run.now) }
    ensures pieces { (pieces_of delimiter (fields_of run.now)).pieces ≡ (pieces_of delimiter (fields_of (drop result run.now))).pieces }
    ensures next { (pieces_of delimiter (fields_of (drop result run.now))).front ≡ [] }
{
    for i in 0..run.len() {
        if is_delimiter(delimiter, run, i) {
            return i;
        }
    }
    run.len()
}

/// Whether field `i` begins a piece.
fn is_delimiter(delimiter: u32, run: &[AppField<'_>], i: usize) -> bool
    requires { i < length run.now }
    ensures { (x : AnyField) → slice_get run.now i ≡ Some x → result ≡ (x.tag == delimiter) }
{
    run[i].tag == delimiter
}

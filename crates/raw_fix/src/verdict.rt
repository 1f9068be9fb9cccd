ghost use Rattle.std.specs.Prelude.{◌≡◌, ◌≤◌, ◌<◌, ◌+◌, ◌^◌, [], None, length, take, true, false, IsTrue};
ghost use Rattle.tagvalue_codec.specs.Places.{Holds};
ghost use Rattle.raw_fix.specs.Claims.{before_soh, claim_of};
ghost use Rattle.raw_fix.specs.Fields.{HasFields, fix_texts, is_fix, verdict_size};
ghost use Rattle.raw_fix.specs.Raw.{verdict_by};
ghost use Rattle.raw_walk.specs.Recalled.{Recalls, held_at};

use crate::claim::{Claim, read_claim};
use crate::code::PCode;
use crate::step::Known;
use raw_walk::Recall;
use tagvalue_codec::{DataTags, FieldTable, read_fix};

/// What is at the front of some bytes.
#[derive(Clone, Copy, Debug, PartialEq, Eq)]
pub(crate) enum Verdict {
    /// A message of this many bytes.
    Says(usize),
    /// Not a message, for this reason.
    Refuses(PCode),
}

/// What is at the front of the bytes, if bytes after them can't change it. The first `plain` bytes contain no SOH. The
/// table then holds the fields of a message.
pub(crate) fn judge(
    bytes: &[u8],
    known: Known,
    tags: &DataTags,
    table: &mut FieldTable,
    recall: &mut Recall,
) -> Option<Verdict>
    requires within { known.plain ≤ length bytes.now }
    requires none { before_soh (take known.plain bytes.now) ≡ None }
    requires room { known.at + length bytes.now < 2 ^ 64 }
    requires empty { table.old ≡ [] }
    requires recalls { Recalls (held_at known.at bytes.now) recall.old }
    ensures verdict { result ≡ verdict_by (fix_texts tags.now known.most) true bytes.now (claim_of known.most bytes.now) }
    ensures fields { HasFields tags.now bytes.now (verdict_size result) table.new }
    ensures recalls { Recalls (held_at known.at bytes.now) recall.new }
{
    match read_claim(bytes, known.most, known.plain) {
        Claim::Whole(n) => {
            if n > bytes.len() {
                None
            } else if recall.refuses(bytes, known.at, n, known.plain, tags) {
                Some(Verdict::Refuses(PCode::Text))
            } else if is_text(&bytes[..n], tags, table) {
                Some(Verdict::Says(n))
            } else {
                Some(Verdict::Refuses(PCode::Text))
            }
        }
        Claim::Open => None,
        Claim::Never => Some(Verdict::Refuses(PCode::Prefix)),
    }
}

/// Whether the bytes as a whole are a text. If so, the table holds its fields.
#[tactic(auto, using(crate::proofs::FieldLemmas::is_read, crate::proofs::FieldLemmas::is_refused))]
fn is_text(bytes: &[u8], tags: &DataTags, table: &mut FieldTable) -> bool
    ensures same { result ≡ is_fix tags.now bytes.now }
    ensures fields { IsTrue result → Holds tags.now bytes.now table.new }
    ensures empty { result ≡ false → table.new ≡ [] }
{
    match read_fix(bytes, tags, table) {
        Ok(()) => true,
        Err(_) => false,
    }
}

/// Removes all fields of the table: empty bytes aren't a text, and a text that is refused leaves no fields.
#[tactic(auto, using(crate::proofs::FieldLemmas::none_left))]
pub(crate) fn drop_fields(tags: &DataTags, table: &mut FieldTable)
    ensures { table.new ≡ [] }
{
    match read_fix(&[], tags, table) {
        Ok(()) => {}
        Err(_) => {}
    }
}

ghost use Rattle.std.specs.Prelude.{◌≡◌, ◌≤◌, ◌<◌, ◌+◌, ◌^◌, ℕ, length, take, drop, false, option_map, IfSome, List};
ghost use Rattle.tagvalue_codec.specs.Pairs.{role_of};
ghost use Rattle.tagvalue_codec.specs.Texts as texts;
ghost use Rattle.tagvalue_codec.specs.Reading.{field_read, plain_len, tagged_read};
ghost use Rattle.tagvalue_codec.specs.Places.{FindsAt, FoundAt};
ghost use Rattle.tagvalue_codec.specs.declared.data_tags.Pair.{Pair};
ghost use Rattle.tagvalue_codec.specs.declared.table.TheConstants.{FIELD_LIMIT};
ghost use Rattle.raw_walk.specs.Recalled.{AreEnds, held_at};
ghost use Rattle.raw_walk.specs.Walks.{PassesIf, Stops, step};

use crate::ends::Ends;
use crate::scan::{ends_at, number_of, tag_at};
use tagvalue_codec::{DataTags, FIELD_LIMIT, FixField, Role};

/// The bytes that are held, how many bytes of the input precede them, and how many of them are the front of a text.
#[derive(Clone, Copy)]
pub(crate) struct Front<'a> {
    pub(crate) held: &'a [u8],
    pub(crate) place: u64,
    pub(crate) stop: usize,
}

/// The offset of the first SOH from `from` on in the front, or its end if there is none.
#[tactic(auto, using(crate::proofs::Plain::end_short, crate::proofs::Plain::end_long))]
fn end_in(front: Front<'_>, from: usize, ends: &mut Ends) -> usize
    requires stop { front.stop ≤ length front.held.now }
    requires room { front.place + length front.held.now < 2 ^ 64 }
    requires within { from ≤ front.stop }
    requires ends { AreEnds (held_at front.place front.held.now) ends.old }
    ensures end { result ≡ from + plain_len (drop from (take front.entry.stop front.entry.held.now)) }
    ensures ends { AreEnds (held_at front.entry.place front.entry.held.now) ends.new }
{
    let to = ends.end_from(front.held, front.place, from);
    if to < front.stop { to } else { front.stop }
}

/// The field that begins at `at` in the front, if its value contains no SOH.
pub(crate) fn field_at(front: Front<'_>, at: usize, ends: &mut Ends) -> Option<FixField>
    requires stop { front.stop ≤ length front.held.now }
    requires room { front.place + length front.held.now < 2 ^ 64 }
    requires ends { AreEnds (held_at front.place front.held.now) ends.old }
    ensures field { FindsAt field_read (take front.entry.stop front.entry.held.now) at result }
    ensures ends { AreEnds (held_at front.entry.place front.entry.held.now) ends.new }
{
    let (tag, from) = tag_at(&front.held[..front.stop], at)?;
    let to = end_in(front, from, ends);
    if to >= front.stop || to == from {
        return None;
    }
    Some(FixField { tag, at, from, to })
}

/// The field with this tag that begins at `at` in the front.
#[tactic(auto, using(tagvalue_codec::proofs::Placing::tagged_found, tagvalue_codec::proofs::Placing::tagged_lacks))]
pub(crate) fn tagged_at(front: Front<'_>, at: usize, tag: u32, ends: &mut Ends) -> Option<FixField>
    requires stop { front.stop ≤ length front.held.now }
    requires room { front.place + length front.held.now < 2 ^ 64 }
    requires ends { AreEnds (held_at front.place front.held.now) ends.old }
    ensures field { FindsAt (tagged_read tag) (take front.entry.stop front.entry.held.now) at result }
    ensures ends { AreEnds (held_at front.entry.place front.entry.held.now) ends.new }
{
    let field = field_at(front, at, ends)?;
    if field.tag != tag {
        return None;
    }
    Some(field)
}

/// Whether a tag has a fixed position: 8, 9, 10 and 35.
fn is_locked(tag: u32) -> bool
    ensures { result ≡ texts.is_locked tag }
{
    tag == 8 || tag == 9 || tag == 10 || tag == 35
}

/// The offset after a length field and the data field with this tag after it.
fn after_data(front: &[u8], size: FixField, tag: u32) -> Option<usize>
    requires found { FoundAt field_read front.now size.at size }
    requires free { texts.is_locked size.tag ≡ false }
    ensures passes { (tags : List Pair) (many : ℕ) → role_of tags size.tag ≡ Role.Length tag → many < FIELD_LIMIT
        → PassesIf tags front.now (step many size.at) (option_map (λ next. (2, next)) result) }
    ensures within { IfSome result (λ next. (size.at < next) × (next ≤ length front.now)) }
{
    let Some(many) = number_of(&front[size.from..size.to]) else {
        return None;
    };
    let Some((next, from)) = tag_at(front, size.to + 1) else {
        return None;
    };
    if many == 0 {
        return None;
    }
    if next != tag {
        return None;
    }
    let to = from + many as usize;
    if !ends_at(front, to) {
        return None;
    }
    Some(to + 1)
}

/// How many fields are at `at`, and the offset after them: one field, or a length field and its data field.
fn fields_at(
    front: Front<'_>,
    at: usize,
    tags: &DataTags,
    ends: &mut Ends,
) -> Option<(usize, usize)>
    requires stop { front.stop ≤ length front.held.now }
    requires room { front.place + length front.held.now < 2 ^ 64 }
    requires within { at < front.stop }
    requires ends { AreEnds (held_at front.place front.held.now) ends.old }
    ensures passes { (many : ℕ) → many < FIELD_LIMIT → PassesIf tags.now (take front.entry.stop front.entry.held.now) (step many at) result }
    ensures within { IfSome result (λ r. (at < r.1) × (r.1 ≤ front.entry.stop) × (r.0 ≤ 2)) }
    ensures ends { AreEnds (held_at front.entry.place front.entry.held.now) ends.new }
{
    let Some(field) = field_at(front, at, ends) else {
        return None;
    };
    if is_locked(field.tag) {
        return None;
    }
    match tags.role(field.tag) {
        Role::Plain => Some((1, field.to + 1)),
        Role::Data => None,
        Role::Length(tag) => match after_data(&front.held[..front.stop], field, tag) {
            Some(next) => Some((2, next)),
            None => None,
        },
    }
}

/// Whether the front, from an offset on, can be the fields of a body after the first three fields of a text.
pub(crate) fn may_be_body(front: Front<'_>, begin: usize, tags: &DataTags, ends: &mut Ends) -> bool
    requires stop { front.stop ≤ length front.held.now }
    requires room { front.place + length front.held.now < 2 ^ 64 }
    requires within { begin ≤ front.stop }
    requires ends { AreEnds (held_at front.place front.held.now) ends.old }
    ensures stops { result ≡ false → Stops tags.now (take front.entry.stop front.entry.held.now) (step 3 begin) }
    ensures ends { AreEnds (held_at front.entry.place front.entry.held.now) ends.new }
{
    let mut at = begin;
    let mut many = 3;
    while at < front.stop && many < FIELD_LIMIT {
        match fields_at(front, at, tags, ends) {
            Some((more, next)) => {
                many += more;
                at = next;
            }
            None => return false,
        }
    }
    many < FIELD_LIMIT
}

// The first fields of a text.
ghost use Rattle.std.specs.Prelude.{◌≡◌, ℕ, false, true, [], Some};
ghost use Rattle.std.specs.Option.{option_map};
ghost use Rattle.std.specs.Fmt.{decimal};
ghost use Rattle.tagvalue_codec.specs.declared.write.Phase.TheVariants.{Open};
ghost use Rattle.tagvalue_codec.specs.Drafts.{begun, IsReady, IsValue};
ghost use Rattle.tagvalue_codec.specs.Fields.{tag_bytes};
ghost use Rattle.message_walk.specs.declared.halt.Cause.TheVariants as cause;
ghost use Rattle.message_walk.specs.States.{after, outcome};
ghost use Rattle.fix_messages.specs.Heads.{field_places, given, given_fields, head_fields, head_of, no_lists, IsGivenValue, IsHeadReady};
ghost use Rattle.fix_messages.specs.Texts.{IsHeadLeft};

use itoa::Buffer;
use message_walk::{Cause, Halt};
use tagvalue_codec::{FixWriter, Full};

/// The head of a text: the version of the encoding, and the header fields that are given.
#[derive(Clone, Copy)]
pub struct FixHead<'a> {
    /// BeginString (8).
    pub begin: &'a [u8],
    /// SenderCompID (49).
    pub sender: Option<&'a [u8]>,
    /// TargetCompID (56).
    pub target: Option<&'a [u8]>,
    /// MsgSeqNum (34).
    pub seq: Option<u64>,
    /// SendingTime (52).
    pub time: Option<&'a [u8]>,
}

/// Begins a text with its head. If it returns false, `halt` receives the field that has no room, and there is no text.
pub(crate) fn put_head(
    head: &FixHead<'_>,
    msg_type: &[u8],
    out: &mut FixWriter,
    halt: &mut Halt,
) -> bool
    requires head { IsHeadReady (head_of head.now) }
    requires kind { IsValue msg_type.now }
    ensures left { IsHeadLeft (after no_lists (begun out.old.limit head.now.begin.now []) (field_places (head_fields msg_type.now (head_of head.now)))) result out.new halt.new }
    ensures open { result ≡ true → out.new.phase ≡ Open }
    ensures limit { out.new.limit ≡ out.old.limit }
{
    match out.start(head.begin, msg_type) {
        Ok(()) => put_given_fields(head, out, halt),
        Err(full) => no_room(full, halt),
    }
}

/// Writes the header fields that are given.
fn put_given_fields(head: &FixHead<'_>, out: &mut FixWriter, halt: &mut Halt) -> bool
    requires open { out.old.phase ≡ Open }
    requires head { IsHeadReady (head_of head.now) }
    ensures open { out.new.phase ≡ Open }
    ensures put { outcome result out.new halt.new ≡ after no_lists out.old (field_places (given_fields (head_of head.now))) }
{
    if !put_given(b"49=", head.sender, out, halt) {
        return false;
    }
    if !put_given(b"56=", head.target, out, halt) {
        return false;
    }
    if !put_number(b"34=", head.seq, out, halt) {
        return false;
    }
    put_given(b"52=", head.time, out, halt)
}

/// Writes a header field, if it is given. `lead` is its tag with the `=`.
#[inline(always)]
fn put_given(lead: &[u8], value: Option<&[u8]>, out: &mut FixWriter, halt: &mut Halt) -> bool
    requires open { out.old.phase ≡ Open }
    requires lead { IsReady lead.now }
    requires ready { IsGivenValue (option_map (λ v. v.now) value) }
    ensures open { out.new.phase ≡ Open }
    ensures put { (tag : ℕ) → lead.now ≡ tag_bytes tag
        → outcome result out.new halt.new ≡ after no_lists out.old (field_places (given tag (option_map (λ v. v.now) value.entry))) }
{
    match value {
        None => true,
        Some(value) => put_field(lead, value, out, halt),
    }
}

/// Writes a header field with a number, if it is given.
#[inline(always)]
#[tactic(auto, using(message_walk::proofs::Values::count_value))]
fn put_number(lead: &[u8], number: Option<u64>, out: &mut FixWriter, halt: &mut Halt) -> bool
    requires open { out.old.phase ≡ Open }
    requires lead { IsReady lead.now }
    ensures open { out.new.phase ≡ Open }
    ensures put { (tag : ℕ) → lead.now ≡ tag_bytes tag
        → outcome result out.new halt.new ≡ after no_lists out.old (field_places (given tag (option_map decimal number))) }
{
    match number {
        None => true,
        Some(number) => {
            let mut buffer = Buffer::new();
            let digits = buffer.format(number).as_bytes();
            put_field(lead, digits, out, halt)
        }
    }
}

/// Writes a header field, given its tag with the `=`.
#[inline(always)]
fn put_field(lead: &[u8], value: &[u8], out: &mut FixWriter, halt: &mut Halt) -> bool
    requires open { out.old.phase ≡ Open }
    requires lead { IsReady lead.now }
    requires value { IsValue value.now }
    ensures open { out.new.phase ≡ Open }
    ensures put { (tag : ℕ) → lead.now ≡ tag_bytes tag
        → outcome result out.new halt.new ≡ after no_lists out.old (field_places (given tag (Some value.now))) }
{
    match out.ready_field(lead, value) {
        Ok(()) => true,
        Err(full) => no_room(full, halt),
    }
}

/// Records that there is no room for a field.
fn no_room(full: Full, halt: &mut Halt) -> bool
    ensures refused { result ≡ false }
    ensures halt { halt.new ≡ record { cause = cause.Full full.needed; way = [] } }
{
    halt.tell(Cause::Full(full.needed));
    false
}

ghost use Rattle.std.specs.Prelude.{◌≡◌, ℕ, List, ◌≤◌, ◌<◌, ◌+◌, ◌++◌, ◌∷◌, [], length, take, true, false, decimal, IfOk, OnOk, OnErr, IfErr, min};
ghost use Rattle.std.specs.Borrow.{sem};
ghost use Rattle.tagvalue_codec.specs.Fields.{IsTag, soh, field_bytes};
ghost use Rattle.tagvalue_codec.specs.Drafts.{IsValue, IsReady, IsFull, idle, begun, done, finished, typed, field_of, ready_bytes, data_bytes, ready_data_bytes};
ghost use Rattle.tagvalue_codec.specs.Rooms.{head_bytes, text_from, needed_for, sum_of_bytes};
ghost use Rattle.tagvalue_codec.specs.Lending.{DraftRests};
ghost use Rattle.tagvalue_codec.specs.Texts.{is_locked, text_over};
ghost use Rattle.tagvalue_codec.specs.declared.write.Phase.TheVariants.{Done};
ghost use Rattle.tagvalue_codec.specs.declared.write.TheConstants.{MOST_AFTER, MOST_MORE, MOST_SHORT};
ghost use Rattle.tagvalue_codec.specs.declared.room.TheConstants.{TEXT_LIMIT};

use crate::digits::digit_count;
use crate::framed::Framed;
use crate::room::Room;
use itoa::Buffer;
use lists::NoMem;
use std::alloc::Global;
use std::marker::Model;
use thiserror::Error;

/// No piece of a body has more bytes: a value of a slice's length, three numbers and what is between them.
const MOST_MORE: u64 = 9_223_372_036_854_775_900;

/// No text is longer than the offset of its body's end and this: the 28 bytes of 20 digits, SOH and the last field, less
/// the room for them before the body.
const MOST_AFTER: u64 = 13;

/// No field of a short value has more bytes: sixteen of its tag with the `=`, forty of its value, and SOH.
const MOST_SHORT: u64 = 57;

/// A text has no room for a field.
#[derive(Clone, Copy, Debug, PartialEq, Eq, Drop, Error)]
#[error("{needed} bytes are needed, and the limit is {limit}")]
pub struct Full {
    /// The number of bytes of the finished text with the field, or `u64::MAX` if it is larger.
    pub needed: u64,
    /// The most bytes that it may have.
    pub limit: usize,
}

/// The progress of a text.
#[derive(Clone, Copy, Debug, PartialEq, Eq)]
pub enum Phase {
    /// No text has been begun.
    Idle,
    /// Fields are being appended.
    Open,
    /// It is finished.
    Done,
}

/// Writes a text field by field.
///
/// All memory is allocated by `new`. Each field is accepted only if the finished text, with its BodyLength and its
/// CheckSum, stays within the limit.
#[derive(Drop)]
pub struct FixWriter {
    phase: Phase,
    /// The number of bytes of the value after `8=`.
    begin: usize,
    /// `8=`, its value, SOH and `9=`.
    text: Room,
    /// The body; in the whole text once it is finished.
    body: Framed,
}

impl Model for FixWriter {
    ghost use Rattle.std.specs.Prelude.{◌≡◌, ◌≤◌, ◌+◌};
    ghost use Rattle.tagvalue_codec.specs.Drafts.{Draft};
    ghost use Rattle.tagvalue_codec.specs.Rooms.{begin_in, Keeps};
    ghost use Rattle.tagvalue_codec.specs.declared.room.TheConstants.{TEXT_LIMIT};

    ghost Value = { Draft };

    ghost view = { λ w. record { phase = w.phase; begin = begin_in w.begin w.text.bytes; body = w.body.bytes; limit = w.text.limit } };

    ghost use Rattle.tagvalue_codec.specs.declared.framed.TheConstants.{SPARE};

    ghost invariant = { λ w. (w.body.size ≡ w.text.limit + SPARE) × (w.text.limit ≤ TEXT_LIMIT) × Keeps w.phase (begin_in w.begin w.text.bytes) w.text.bytes w.body w.text.limit };
}

impl FixWriter {
    /// Allocates all memory for a text of at most `limit` bytes, which is at most 16,777,216.
    ///
    /// # Errors
    ///
    /// If memory runs out.
    pub fn new(alloc: Global, limit: usize) -> Result<FixWriter, NoMem>
        requires { limit ≤ TEXT_LIMIT }
        ensures { IfOk result (λ w. w ≡ idle limit) }
    {
        let text = Room::new(alloc, limit)?;
        let body = Framed::new(alloc, limit)?;
        Ok(FixWriter {
            phase: Phase::Idle,
            begin: 0,
            text,
            body,
        })
    }

    /// The finished text. It is empty before `finish`.
    pub fn bytes(&self) -> &[u8]
        ensures { result.now ≡ finished self.now }
    {
        match self.phase {
            Phase::Done => self.body.whole(),
            Phase::Idle | Phase::Open => &[],
        }
    }

    /// Begins a new text with BeginString (8) and MsgType (35). The previous text is discarded.
    ///
    /// # Errors
    ///
    /// `Full` exactly if the finished text of these two fields exceeds the limit. No text is begun then.
    pub fn start(&mut self, begin: &[u8], msg_type: &[u8]) -> Result<(), Full>
        requires begin { IsValue begin.now }
        requires msg_type { IsValue msg_type.now }
        ensures ok { OnOk result (self.new ≡ begun self.old.limit begin.now (field_bytes (typed msg_type.now))) }
        ensures err { OnErr result (self.new ≡ idle self.old.limit) }
        ensures fits { OnOk result (length (text_over begin.now (field_bytes (typed msg_type.now))) ≤ self.old.limit) }
        ensures full { IfErr result (IsFull self.old.limit begin.now (field_bytes (typed msg_type.now))) }
    {
        self.phase = Phase::Idle;
        self.begin = 0;
        self.text.clear();
        let head = begin.len() as u64 + 5;
        let body = msg_type.len() as u64 + 4;
        match self.judge(head, body) {
            Ok(()) => {}
            Err(full) => {
                self.body.clear(0);
                return Err(full);
            }
        }
        self.begin = begin.len();
        self.body.clear(begin.len() + 5);
        put_head(&mut self.text, begin);
        self.body.append_ready(b"35=", msg_type);
        self.phase = Phase::Open;
        Ok(())
    }

    /// Appends a field.
    ///
    /// # Errors
    ///
    /// `Full` exactly if the text finished with this field exceeds the limit. The text is then unchanged.
    pub fn field(&mut self, tag: u32, value: &[u8]) -> Result<(), Full>
        requires open { self.old.phase ≡ Phase.Open }
        requires tag { IsTag tag }
        requires unlocked { is_locked tag ≡ false }
        requires value { IsValue value.now }
        ensures ok { OnOk result (self.new ≡ begun self.old.limit self.old.begin (self.old.body ++ field_bytes (field_of tag value.now))) }
        ensures err { OnErr result (self.new ≡ self.old) }
        ensures fits { OnOk result (length (text_over self.old.begin (self.old.body ++ field_bytes (field_of tag value.now))) ≤ self.old.limit) }
        ensures full { IfErr result (IsFull self.old.limit self.old.begin (self.old.body ++ field_bytes (field_of tag value.now))) }
    {
        let mut buffer = Buffer::new();
        let digits = buffer.format(tag).as_bytes();
        let more = digits.len() as u64 + value.len() as u64 + 2;
        match self.admit(more) {
            Ok(()) => {}
            Err(full) => return Err(full),
        }
        self.body.append_field(digits, value);
        Ok(())
    }

    /// Appends a field, given the bytes of its tag with the `=`, such as `55=`.
    ///
    /// # Errors
    ///
    /// `Full` exactly if the text finished with this field exceeds the limit. The text is then unchanged.
    #[inline(always)]
    pub fn ready_field(&mut self, tag: &[u8], value: &[u8]) -> Result<(), Full>
        requires open { self.old.phase ≡ Phase.Open }
        requires tag { IsReady tag.now }
        requires value { IsValue value.now }
        ensures ok { OnOk result (self.new ≡ begun self.old.limit self.old.begin (self.old.body ++ ready_bytes tag.now value.now)) }
        ensures err { OnErr result (self.new ≡ self.old) }
        ensures fits { OnOk result (length (text_over self.old.begin (self.old.body ++ ready_bytes tag.now value.now)) ≤ self.old.limit) }
        ensures full { IfErr result (IsFull self.old.limit self.old.begin (self.old.body ++ ready_bytes tag.now value.now)) }
    {
        let more = tag.len() as u64 + value.len() as u64 + 1;
        match self.admit(more) {
            Ok(()) => {}
            Err(full) => return Err(full),
        }
        self.body.append_ready(tag, value);
        Ok(())
    }

    /// Appends a field of a short value, given an array that begins with the bytes of its tag with the `=`, such as
    /// `55=`. Returns false if the text might exceed the limit, and is unchanged then.
    #[inline(always)]
    pub fn led_field(&mut self, lead: &[u8], used: usize, value: &[u8]) -> bool
        requires open { self.old.phase ≡ Phase.Open }
        requires lead { 16 ≤ length lead.now }
        requires used { used ≤ 16 }
        requires tag { IsReady (take used lead.now) }
        requires value { IsValue value.now }
        requires short { length value.now ≤ 40 }
        ensures done { result ≡ true → self.new ≡ begun self.old.limit self.old.begin (self.old.body ++ ready_bytes (take used lead.now) value.now) }
        ensures kept { result ≡ false → self.new ≡ self.old }
        ensures fits { result ≡ true → length (text_over self.old.begin (self.old.body ++ ready_bytes (take used lead.now) value.now)) ≤ self.old.limit }
    {
        if !self.has_room() {
            return false;
        }
        self.body.append_led(lead, used, value);
        true
    }

    /// The same, given an array of at least `N` bytes that begins with the value too.
    #[inline(always)]
    pub fn front_field<const N: usize>(
        &mut self,
        lead: &[u8],
        used: usize,
        value: &[u8],
        count: usize,
    ) -> bool
        requires open { self.old.phase ≡ Phase.Open }
        requires lead { 16 ≤ length lead.now }
        requires used { used ≤ 16 }
        requires tag { IsReady (take used lead.now) }
        requires short { N ≤ 40 }
        requires enough { N ≤ length value.now }
        requires count { count ≤ N }
        requires value { IsValue (take count value.now) }
        ensures done { result ≡ true → self.new ≡ begun self.old.limit self.old.begin (self.old.body ++ ready_bytes (take used lead.now) (take count value.now)) }
        ensures kept { result ≡ false → self.new ≡ self.old }
        ensures fits { result ≡ true → length (text_over self.old.begin (self.old.body ++ ready_bytes (take used lead.now) (take count value.now))) ≤ self.old.limit }
    {
        if !self.has_room() {
            return false;
        }
        self.body.append_front::<N>(lead, used, value, count);
        true
    }

    /// Appends a length field and its data field, which count as one. The value may contain SOH.
    ///
    /// # Errors
    ///
    /// `Full` exactly if the text finished with both exceeds the limit. The text is then unchanged.
    pub fn data_field(&mut self, length_tag: u32, tag: u32, value: &[u8]) -> Result<(), Full>
        requires open { self.old.phase ≡ Phase.Open }
        requires length_tag { IsTag length_tag }
        requires tag { IsTag tag }
        requires unlocked { is_locked length_tag ≡ false }
        requires unlocked_data { is_locked tag ≡ false }
        requires value { 0 < length value.now }
        ensures ok { OnOk result (self.new ≡ begun self.old.limit self.old.begin (self.old.body ++ data_bytes length_tag tag value.now)) }
        ensures err { OnErr result (self.new ≡ self.old) }
        ensures fits { OnOk result (length (text_over self.old.begin (self.old.body ++ data_bytes length_tag tag value.now)) ≤ self.old.limit) }
        ensures full { IfErr result (IsFull self.old.limit self.old.begin (self.old.body ++ data_bytes length_tag tag value.now)) }
    {
        let mut length_buffer = Buffer::new();
        let length_digits = length_buffer.format(length_tag).as_bytes();
        let mut count_buffer = Buffer::new();
        let count = count_buffer.format(value.len()).as_bytes();
        let mut buffer = Buffer::new();
        let digits = buffer.format(tag).as_bytes();
        let first = length_digits.len() as u64 + count.len() as u64 + 2;
        let second = digits.len() as u64 + value.len() as u64 + 2;
        match self.admit(first + second) {
            Ok(()) => {}
            Err(full) => return Err(full),
        }
        self.body.append_field(length_digits, count);
        self.body.append_field(digits, value);
        Ok(())
    }

    /// Appends a length field and its data field, given the bytes of their tags with the `=`, such as `95=` and `96=`.
    /// They count as one, and the value may contain SOH.
    ///
    /// # Errors
    ///
    /// `Full` exactly if the text finished with both exceeds the limit. The text is then unchanged.
    pub fn ready_data_field(
        &mut self,
        length_tag: &[u8],
        tag: &[u8],
        value: &[u8],
    ) -> Result<(), Full>
        requires open { self.old.phase ≡ Phase.Open }
        requires length_tag { IsReady length_tag.now }
        requires tag { IsReady tag.now }
        requires value { 0 < length value.now }
        ensures ok { OnOk result (self.new ≡ begun self.old.limit self.old.begin (self.old.body ++ ready_data_bytes length_tag.now tag.now value.now)) }
        ensures err { OnErr result (self.new ≡ self.old) }
        ensures fits { OnOk result (length (text_over self.old.begin (self.old.body ++ ready_data_bytes length_tag.now tag.now value.now)) ≤ self.old.limit) }
        ensures full { IfErr result (IsFull self.old.limit self.old.begin (self.old.body ++ ready_data_bytes length_tag.now tag.now value.now)) }
    {
        let mut buffer = Buffer::new();
        let count = buffer.format(value.len()).as_bytes();
        let first = length_tag.len() as u64 + count.len() as u64 + 1;
        let second = tag.len() as u64 + value.len() as u64 + 1;
        match self.admit(first + second) {
            Ok(()) => {}
            Err(full) => return Err(full),
        }
        self.body.append_ready(length_tag, count);
        self.body.append_ready(tag, value);
        Ok(())
    }

    /// Puts BodyLength (9) before the body and CheckSum (10) after it. This can't fail: each field was accepted with
    /// both counted.
    pub fn finish(&mut self)
        requires { self.old.phase ≡ Phase.Open }
        ensures { self.new ≡ done self.old }
    {
        self.body.enclose(self.text.bytes());
        self.phase = Phase::Done;
    }

    /// The finished text with six bytes before it, such as the head of its frame. It is empty before `finish`.
    #[inline(always)]
    pub fn framed(&mut self, before: &[u8; 6]) -> &[u8]
        ensures* rests { sem 𝓛 (DraftRests self.entry) }
        ensures bytes { self.old.phase ≡ Done → result.now ≡ before.now ++ finished self.old }
    {
        match self.phase {
            Phase::Done => self.body.behind(before),
            Phase::Idle | Phase::Open => &[],
        }
    }

    /// Whether the text finished with any field of a short value is within the limit.
    #[inline(always)]
    fn has_room(&self) -> bool
        requires { self.now.phase ≡ Phase.Open }
        ensures room { result ≡ true → length (head_bytes self.now.begin) + length self.now.body + MOST_SHORT ≤ self.now.limit }
        ensures fits { result ≡ true → (piece : List ℕ) → length piece ≤ MOST_SHORT → length (text_over self.now.begin (self.now.body ++ piece)) ≤ self.now.limit }
    {
        let end = self.body.end() as u64;
        if end + MOST_SHORT + MOST_AFTER <= self.text.limit() as u64 {
            return true;
        }
        false
    }

    /// Checks that the text finished with `more` bytes added to its body is within the limit.
    #[inline(always)]
    fn admit(&self, more: u64) -> Result<(), Full>
        requires open { self.now.phase ≡ Phase.Open }
        requires few { more ≤ MOST_MORE }
        ensures room { OnOk result (length (head_bytes self.now.begin) + length self.now.body + more ≤ self.now.limit) }
        ensures ok { OnOk result ((piece : List ℕ) → length piece ≡ more → length (text_over self.now.begin (self.now.body ++ piece)) ≤ self.now.limit) }
        ensures full { IfErr result (λ f. (piece : List ℕ) → length piece ≡ more → IsFull self.now.limit self.now.begin (self.now.body ++ piece) f) }
    {
        let end = self.body.end() as u64 + more;
        if end + MOST_AFTER <= self.text.limit() as u64 {
            return Ok(());
        }
        let head = self.text.len() as u64;
        let body = self.body.len() as u64 + more;
        self.judge(head, body)
    }

    /// Checks that a text with a head of `head` and a body of `body` bytes is within the limit.
    fn judge(&self, head: u64, body: u64) -> Result<(), Full>
        ensures ok { OnOk result (needed_for head body ≤ self.now.limit) }
        ensures full { IfErr result (λ f. (self.now.limit < needed_for head body) × (f.needed ≡ min (needed_for head body) 18446744073709551615) × (f.limit ≡ self.now.limit)) }
    {
        let needed = head
            .saturating_add(body)
            .saturating_add(digit_count(body) + 8);
        let limit = self.text.limit();
        if needed > limit as u64 {
            return Err(Full { needed, limit });
        }
        Ok(())
    }
}

/// Appends what precedes the number after `9=`.
#[inline(always)]
fn put_head(room: &mut Room, begin: &[u8])
    requires { length room.old.bytes + length begin.now + 5 ≤ room.old.limit }
    ensures bytes { room.new.bytes ≡ room.old.bytes ++ head_bytes begin.now }
    ensures limit { room.new.limit ≡ room.old.limit }
{
    room.append_ready(b"8=", begin);
    room.append(b"9=");
}

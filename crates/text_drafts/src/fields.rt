// The fields of a text, one after another. What is read here is a guess, and no contract covers it.
ghost use Rattle.std.specs.Prelude.{◌≤◌, length, IfSome};

use crate::lead::TagLead;
use crate::words::{SOH, word_of};

/// How many bytes the last field of a text has: `10=`, three digits and SOH.
const LAST_FIELD: usize = 7;

/// The offsets of a value: where it begins, and where it ends.
pub(crate) type Range = (usize, usize);

/// A text, its bytes from the next field on, and the first eight of them, or 0 if there are fewer.
#[derive(Drop)]
pub(crate) struct Fields<'a> {
    text: &'a [u8],
    left: &'a [u8],
    next: u64,
}

impl<'a> Fields<'a> {
    /// The fields of a text from an offset on.
    pub(crate) fn from(text: &'a [u8], at: usize) -> Fields<'a> {
        let left = bytes_from(text, at);
        Fields {
            text,
            left,
            next: word_of(left),
        }
    }

    /// Whether the next field has this tag.
    #[inline(always)]
    pub(crate) fn is_next(&self, lead: &TagLead) -> bool {
        lead.begins(self.next)
    }

    /// Whether only as many bytes are left as the last field has.
    pub(crate) fn are_over(&self) -> bool {
        self.left.len() == LAST_FIELD
    }

    /// The bytes from the value of the next field on, if it has this tag.
    #[inline(always)]
    pub(crate) fn value_of(&self, lead: &TagLead) -> Option<&'a [u8]> {
        if !self.is_next(lead) {
            return None;
        }
        Some(bytes_from(self.left, lead.many))
    }

    /// Goes to the field after a value of so many bytes, given the bytes from the value on.
    #[inline(always)]
    pub(crate) fn pass(&mut self, value: &'a [u8], many: usize) {
        self.left = bytes_from(value, many.wrapping_add(1));
        self.next = word_of(self.left);
    }

    /// The value of the next field, which is passed, if it has this tag.
    #[inline(always)]
    pub(crate) fn takes(&mut self, lead: &TagLead) -> Option<&'a [u8]> {
        let value = self.value_of(lead)?;
        let many = length_of(value)?;
        self.pass(value, many);
        Some(&value[..many])
    }

    /// The offsets of the next field's value, which is passed, if it has this tag. `many` is how many bytes the value has, or `None`
    /// if it ends at the next SOH.
    pub(crate) fn takes_data(&mut self, lead: &TagLead, many: Option<u64>) -> Option<Range> {
        let value = self.value_of(lead)?;
        let many = match many {
            Some(many) => usize::try_from(many).ok()?,
            None => length_of(value)?,
        };
        self.pass(value, many);
        let from = self.text.len().wrapping_sub(value.len());
        Some((from, from.saturating_add(many)))
    }

    /// The bytes at these offsets; none if they aren't within the text.
    pub(crate) fn bytes(&self, range: Range) -> &'a [u8] {
        let (from, to) = range;
        if from > to || to > self.text.len() {
            return &[];
        }
        &self.text[from..to]
    }
}

/// The bytes from an offset on; none if there are no more.
#[inline(always)]
fn bytes_from(bytes: &[u8], from: usize) -> &[u8] {
    if from > bytes.len() {
        return &[];
    }
    &bytes[from..]
}

/// How many bytes precede the first SOH. `None` if there is none.
#[inline(always)]
pub(crate) fn length_of(value: &[u8]) -> Option<usize>
    ensures { IfSome result (λ many. many ≤ length value.now) }
{
    value.iter().position(|byte| *byte == SOH)
}

// The bytes that a field begins with. No contract covers them.

/// No tag that is looked for has more digits: it takes the general path.
const MOST_DIGITS: usize = 7;

/// The digits of a tag and `=`, as the lowest bytes of a number; which bytes of a word they are; and how many. The first byte is the
/// lowest.
#[derive(Clone, Copy)]
pub(crate) struct TagLead {
    word: u64,
    mask: u64,
    pub(crate) many: usize,
}

impl TagLead {
    /// The lead of no field.
    pub(crate) const NONE: TagLead = TagLead {
        word: 1,
        mask: 0,
        many: 0,
    };

    /// The lead of a tag. No field has it if the tag is 0 or has more than seven digits.
    pub(crate) fn new(tag: u32) -> TagLead {
        if tag == 0 {
            return TagLead::NONE;
        }
        let mut lead = TagLead {
            word: u64::from(b'='),
            mask: 0xFF,
            many: 1,
        };
        let mut rest = tag;
        for _ in 0..MOST_DIGITS {
            if rest > 0 {
                lead.push_front(rest % 10);
                rest /= 10;
            }
        }
        if rest > 0 {
            return TagLead::NONE;
        }
        lead
    }

    /// Puts a digit before the others.
    fn push_front(&mut self, digit: u32) {
        self.word = self.word.wrapping_shl(8) | u64::from(digit.wrapping_add(u32::from(b'0')));
        self.mask = self.mask.wrapping_shl(8) | 0xFF;
        self.many = self.many.saturating_add(1);
    }

    /// Whether eight bytes begin with it.
    #[inline(always)]
    pub(crate) fn begins(&self, word: u64) -> bool {
        word & self.mask == self.word
    }
}

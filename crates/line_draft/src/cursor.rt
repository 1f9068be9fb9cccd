// A position in a line that is assumed to be printed. What is read here is a guess, and no contract covers it.
ghost use Rattle.std.specs.Prelude.{◌≤◌, length};

/// A line, and how many of its bytes were skipped.
#[derive(Drop)]
pub(crate) struct Cursor<'a> {
    line: &'a [u8],
    at: usize,
    ghost within: { at ≤ length line.now },
}

impl<'a> Cursor<'a> {
    /// The start of a line.
    pub(crate) fn new(line: &'a [u8]) -> Cursor<'a> {
        Cursor { line, at: 0 }
    }

    /// A copy of the cursor.
    pub(crate) fn again(&self) -> Cursor<'a> {
        Cursor {
            line: self.line,
            at: self.at,
        }
    }

    /// The bytes that are still to come.
    #[inline(always)]
    pub(crate) fn rest(&self) -> &'a [u8] {
        &self.line[self.at..]
    }

    /// The next byte, or 00 at the end.
    #[inline(always)]
    pub(crate) fn next(&self) -> u8 {
        if self.at < self.line.len() {
            self.line[self.at]
        } else {
            0
        }
    }

    /// Skips `count` bytes, or all that are left.
    #[inline(always)]
    pub(crate) fn pass(&mut self, count: usize) {
        if count <= self.line.len() - self.at {
            self.at += count;
        } else {
            self.at = self.line.len();
        }
    }

    /// Skips a byte, if it comes next.
    #[inline(always)]
    pub(crate) fn takes(&mut self, byte: u8) -> bool {
        if self.at < self.line.len() && self.line[self.at] == byte {
            self.at += 1;
            return true;
        }
        false
    }

    /// Skips a text, if it comes next.
    #[inline(always)]
    pub(crate) fn takes_text(&mut self, text: &[u8]) -> bool {
        if text.len() <= self.line.len() - self.at
            && &self.line[self.at..self.at + text.len()] == text
        {
            self.at += text.len();
            return true;
        }
        false
    }

    /// Skips a text where no other is possible, if its last byte is where the text would end. Whether the other bytes
    /// match is found out when the message is printed again.
    #[inline(always)]
    pub(crate) fn passes_text(&mut self, text: &[u8]) -> bool {
        let long = text.len();
        if long == 0 || long > self.line.len() - self.at {
            return false;
        }
        if self.line[self.at + (long - 1)] != text[long - 1] {
            return false;
        }
        self.at += long;
        true
    }

    /// Skips the key of a member, with a comma before it if it isn't the first, if it has the quotes and the colon of
    /// this name's key. Whether it is this name is found out when the message is printed again.
    #[inline(always)]
    pub(crate) fn passes_key(&mut self, later: bool, name: &[u8]) -> bool {
        if later && !self.takes(b',') {
            return false;
        }
        let rest = self.rest();
        let end = name.len();
        if rest.len() <= end || rest.len() - end < 3 {
            return false;
        }
        if rest[0] != b'"' || rest[end + 1] != b'"' || rest[end + 2] != b':' {
            return false;
        }
        self.pass(end + 3);
        true
    }

    /// The bytes before the next `stop`, which are skipped together with it, or `None` if there is no `stop`.
    #[inline(always)]
    pub(crate) fn up_to(&mut self, stop: u8) -> Option<&'a [u8]> {
        let rest = self.rest();
        let end = rest.iter().position(|b| *b == stop)?;
        self.pass(end + 1);
        Some(&rest[..end])
    }
}

ghost use Rattle.std.specs.Prelude.{◌≡◌};
ghost use Rattle.selftest_command.specs.Selftest.{AreWithin, added, no_sums, skipped_sums};

use sbe_wire::NCode;

/// No message adds more than this to any of the sums.
pub(crate) const MOST_ADDED: u64 = 8_589_934_592;

/// Sums up to this one leave room for those of one more message.
pub(crate) const MOST_SUMMED: u64 = 1_152_921_504_606_846_976;

/// The sums over messages.
#[derive(Clone, Copy, Debug, PartialEq, Eq)]
pub struct Sums {
    /// How many messages were encoded, each in its own frame.
    pub frames: u64,
    /// How many weren't, because they don't fit a frame, or a count or a length is out of range.
    pub skipped: u64,
    /// How many bytes all frames have, including their heads.
    pub bytes: u64,
    /// The sum of these bytes as numbers.
    pub byte_sum: u64,
    /// How many frames have a body that is still a message after one byte of it was altered.
    pub altered: u64,
}

impl Sums {
    /// The sums over no messages.
    pub(crate) fn none() -> Sums
        ensures { result ≡ no_sums }
    {
        Sums {
            frames: 0,
            skipped: 0,
            bytes: 0,
            byte_sum: 0,
            altered: 0,
        }
    }

    /// What a message adds whose first misfit is this one.
    pub(crate) fn of_misfit(code: NCode) -> Sums
        ensures sums { result ≡ skipped_sums code }
        ensures within { AreWithin MOST_ADDED result }
    {
        let mut sums = Sums::none();
        match code {
            NCode::Full | NCode::Count | NCode::Length => sums.skipped = 1,
            NCode::Range
            | NCode::EnumUnknown
            | NCode::SetUnknown
            | NCode::TextByte
            | NCode::Kind
            | NCode::Shape => {}
        }
        sums
    }

    /// These sums, and what one more message adds.
    pub(crate) fn plus(self, one: Sums) -> Sums
        requires room { AreWithin MOST_SUMMED self }
        requires within { AreWithin MOST_ADDED one }
        ensures { result ≡ added self one }
    {
        Sums {
            frames: self.frames + one.frames,
            skipped: self.skipped + one.skipped,
            bytes: self.bytes + one.bytes,
            byte_sum: self.byte_sum + one.byte_sum,
            altered: self.altered + one.altered,
        }
    }
}

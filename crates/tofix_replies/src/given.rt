//! The head with which texts begin, as it was given.

ghost use Rattle.std.specs.Prelude.{◌≡◌, min, ◌+◌};
ghost use Rattle.std.specs.Option.{option_map};
ghost use Rattle.fix_messages.specs.Heads.{head_of};
ghost use Rattle.tofix_replies.specs.ToFix.{given_head, head_after, number_after};

use fix_messages::FixHead;
use lists::Text;

/// The contents of a head: the version of the encoding, the header fields that are given, and the sequence number of
/// the first text.
#[derive(Drop)]
pub struct GivenHead {
    /// BeginString (8).
    pub begin: Text,
    /// SenderCompID (49).
    pub sender: Option<Text>,
    /// TargetCompID (56).
    pub target: Option<Text>,
    /// MsgSeqNum (34) of the first text.
    pub seq: Option<u64>,
    /// SendingTime (52).
    pub time: Option<Text>,
}

impl GivenHead {
    /// The head of the text that follows `translated` others. A sequence number stays at the largest number of 64 bits.
    pub fn after(&self, translated: u64) -> FixHead<'_>
        ensures { head_of result ≡ head_after translated (given_head self.now) }
    {
        FixHead {
            begin: self.begin.as_slice(),
            sender: lent(&self.sender),
            target: lent(&self.target),
            seq: number_after(self.seq, translated),
            time: lent(&self.time),
        }
    }
}

/// Borrows a text, if it is given.
fn lent(text: &Option<Text>) -> Option<&[u8]>
    ensures { option_map (λ t. t.now) result ≡ text.now }
{
    match text {
        Some(text) => Some(text.as_slice()),
        None => None,
    }
}

/// The sequence number of the text that follows `translated` others.
fn number_after(first: Option<u64>, translated: u64) -> Option<u64>
    ensures { result ≡ option_map (number_after translated) first }
{
    match first {
        Some(first) => Some(first.saturating_add(translated)),
        None => None,
    }
}

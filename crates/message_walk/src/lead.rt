// The beginning of a field.
ghost use Rattle.std.specs.Prelude.{◌≡◌, ◌≤◌, ◌+◌, ◌++◌, ◌∷◌, [], length, take, false, Some, IfSome};
ghost use Rattle.tagvalue_codec.specs.Fields.{tag_bytes, IsTag};
ghost use Rattle.tagvalue_codec.specs.Drafts.{IsReady};
ghost use Rattle.tagvalue_codec.specs.Texts.{is_locked};

use itoa::Buffer;
use std::marker::Model;

/// A tag as it begins a field: its digits and `=`.
#[derive(Drop)]
pub struct Lead {
    tag: u32,
    /// How many bytes of the array are used.
    used: usize,
    bytes: [u8; 16],
}

impl Model for Lead {
    ghost use Rattle.std.specs.Prelude.{◌≡◌, ◌≤◌, ℕ, length, take};
    ghost use Rattle.message_walk.specs.Leads.{IsLead};

    ghost Value = { ℕ };

    ghost view = { λ lead. lead.tag };

    ghost invariant = { λ lead. (lead.used ≤ 16) × (length lead.bytes ≡ 16) × IsLead lead.tag (take lead.used lead.bytes) };
}

impl Lead {
    /// The lead of a tag. `None` if the tag has more than nine digits or is 0, 8, 9, 10 or 35, which no application
    /// field has.
    #[tactic(auto, using(crate::proofs::Leads::few_digits, crate::proofs::Leads::lead_made))]
    pub fn new(tag: u32) -> Option<Lead>
        ensures same { IfSome result (λ lead. lead ≡ tag) }
        ensures some { IsTag tag → is_locked tag ≡ false → result ≡ Some tag }
    {
        if tag == 0 || tag > 999_999_999 || is_locked(tag) {
            return None;
        }
        let mut buffer = Buffer::new();
        let digits = buffer.format(tag).as_bytes();
        let mut bytes = [0; 16];
        let many = append(&mut bytes, 0, digits);
        let used = append(&mut bytes, many, b"=");
        Some(Lead { tag, used, bytes })
    }

    /// The tag.
    #[inline(always)]
    pub fn tag(&self) -> u32
        ensures { result ≡ self.now }
    {
        self.tag
    }

    /// The digits and `=`.
    #[inline(always)]
    #[tactic(auto, using(crate::proofs::Leads::ready_lead))]
    pub fn bytes(&self) -> &[u8]
        ensures bytes { result.now ≡ tag_bytes self.now }
        ensures ready { IsReady result.now }
    {
        &self.bytes[..self.used]
    }

    /// An array of sixteen bytes that begins with these, and how many they are.
    #[inline(always)]
    #[tactic(auto, using(crate::proofs::Leads::ready_lead))]
    pub fn array(&self) -> (&[u8], usize)
        ensures long { length result.0.now ≡ 16 }
        ensures within { result.1 ≤ 16 }
        ensures bytes { take result.1 result.0.now ≡ tag_bytes self.now }
        ensures ready { IsReady (take result.1 result.0.now) }
    {
        let bytes: &[u8] = &self.bytes;
        (bytes, self.used)
    }
}

/// Whether the tag belongs to the head or is that of the sum.
fn is_locked(tag: u32) -> bool
    ensures { result ≡ is_locked tag }
{
    tag == 8 || (tag == 9 || (tag == 10 || tag == 35))
}

/// Copies bytes after those at the front of an array, and returns where they end.
fn append(bytes: &mut [u8], used: usize, piece: &[u8]) -> usize
    requires { used + length piece.now ≤ length bytes.old }
    ensures bytes { take (used + length piece.now) bytes.new ≡ take used bytes.old ++ piece.now }
    ensures long { length bytes.new ≡ length bytes.old }
    ensures end { result ≡ used + length piece.now }
{
    let end = used + piece.len();
    bytes[used..end].copy_from_slice(piece);
    end
}

ghost use Rattle.std.specs.Prelude.{◌≡◌, ◌<◌, ◌^◌, List, IfSome};
ghost use Rattle.std.specs.Fmt.{decimal};
ghost use Rattle.std.specs.Option.{option_map};
ghost use Rattle.tagvalue_codec.specs.declared.data_tags.Pair.{Pair};
ghost use Rattle.tagvalue_codec.specs.Drafts.{IsValue};
ghost use Rattle.bridge_terms.specs.Parts.{TagLists};
ghost use Rattle.bridge_terms.specs.Plans.{Each};
ghost use Rattle.fix_messages.specs.Heads.{given_fields, head_of, IsHeadReady};
ghost use Rattle.same_texts.specs.Follow.{IsAlone};
ghost use Rattle.same_texts.specs.Same.{ArePairsOf};
ghost use Rattle.back_texts.specs.Backs.{IsHeader};
ghost use Rattle.text_heads.specs.Heads.{AreHeadTags, IsGivenOf};

use crate::own::HeadTags;
use crate::scan::field_in;
use fix_messages::FixHead;

/// What a text begins with.
#[derive(Clone, Copy)]
pub struct TextFront<'a> {
    /// The head.
    pub head: FixHead<'a>,
    /// The MsgType.
    pub kind: &'a [u8],
    /// The offset of the first field after the head.
    pub at: usize,
}

/// What a text begins with: BeginString, BodyLength and MsgType, and then the fields of SenderCompID, TargetCompID, MsgSeqNum
/// and SendingTime that are there in this order. `None` if one of the first three isn't there. Neither BodyLength nor what
/// follows is looked at, and the text may have another head: a caller compares it with what is written with this one.
pub fn front_in<'a>(own: HeadTags, text: &'a [u8]) -> Option<TextFront<'a>>
    ensures ready { IfSome result (λ f. IsHeadReady (head_of f.head)) }
    ensures kind { IfSome result (λ f. IsValue f.kind.now) }
    ensures header { IfSome result (λ f. (pairs : List Pair) (lists : TagLists) → ArePairsOf pairs lists → AreHeadTags pairs lists own
        → Each (IsHeader pairs lists) (given_fields (head_of f.head))) }
    ensures alone { IfSome result (λ f. (pairs : List Pair) (lists : TagLists) → ArePairsOf pairs lists → AreHeadTags pairs lists own
        → Each (IsAlone pairs) (given_fields (head_of f.head))) }
{
    let begin = field_in(text, b"8=")?;
    let size = field_in(begin.rest, b"9=")?;
    let kind = field_in(size.rest, b"35=")?;
    let sender = given_in(own.sender, kind.rest, b"49=");
    let target = given_in(own.target, sender.rest, b"56=");
    let seq = number_in(own.seq, target.rest, b"34=");
    let time = given_in(own.time, seq.rest, b"52=");
    Some(TextFront {
        head: FixHead {
            begin: begin.value,
            sender: sender.value,
            target: target.value,
            seq: seq.value,
            time: time.value,
        },
        kind: kind.value,
        at: text.len().saturating_sub(time.rest.len()),
    })
}

/// The value of a field that a head may have, and the bytes after the field; all bytes if it isn't there.
#[derive(Clone, Copy)]
struct Given<'a> {
    value: Option<&'a [u8]>,
    rest: &'a [u8],
}

/// The field that begins with a tag and its `=`, if it is there and the tag is known to be one of the header.
#[inline(always)]
fn given_in<'a>(known: bool, bytes: &'a [u8], lead: &[u8]) -> Given<'a>
    ensures { IsGivenOf known (option_map (λ v. v.now) result.value) }
{
    if known {
        if let Some(field) = field_in(bytes, lead) {
            return Given {
                value: Some(field.value),
                rest: field.rest,
            };
        }
    }
    Given {
        value: None,
        rest: bytes,
    }
}

/// The number of a field that a head may have, and the bytes after the field; all bytes if it isn't there.
#[derive(Clone, Copy)]
struct GivenNumber<'a> {
    value: Option<u64>,
    rest: &'a [u8],
}

/// The same, if its value is a number.
#[inline(always)]
fn number_in<'a>(known: bool, bytes: &'a [u8], lead: &[u8]) -> GivenNumber<'a>
    ensures { IsGivenOf known (option_map decimal result.value) }
{
    if known {
        if let Some(field) = field_in(bytes, lead) {
            if let Some(number) = number_of(field.value) {
                return GivenNumber {
                    value: Some(number),
                    rest: field.rest,
                };
            }
        }
    }
    GivenNumber {
        value: None,
        rest: bytes,
    }
}

/// The number that digits spell, modulo the 64 bits that hold it. `None` if a byte isn't a digit.
fn number_of(digits: &[u8]) -> Option<u64>
    ensures { IfSome result (λ n. n < 2 ^ 64) }
{
    let mut number = 0u64;
    for digit in digits {
        let more = digit.wrapping_sub(b'0');
        if more > 9 {
            return None;
        }
        number = number.wrapping_mul(10).wrapping_add(u64::from(more));
    }
    Some(number)
}

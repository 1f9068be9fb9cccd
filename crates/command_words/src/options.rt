ghost use Rattle.std.specs.Prelude.{◌≡◌, ◌↔◌, IsTrue, map, string_bytes, slice_index_or};
ghost use Rattle.std.specs.List.{list_all};
ghost use Rattle.command_words.specs.Words.{begins_a_number, draws_of, is_field_text, is_printed, number_given, number_within};

use lists::Text;

/// The option for the most bytes of a frame, including its head.
pub const MAX_FRAME: &str = "--max-frame";

/// The option for the most bytes of the input.
pub const MAX_INPUT: &str = "--max-input";

/// The option for a further schema.
pub const ALSO: &str = "--also";

/// The option for the version of the encoding of texts.
pub const BEGIN: &str = "--begin";

/// The option for the sender of texts.
pub const SENDER: &str = "--sender";

/// The option for the target of texts.
pub const TARGET: &str = "--target";

/// The option for the sequence number of the first text.
pub const SEQ: &str = "--seq";

/// The option for the sending time of texts.
pub const TIME: &str = "--time";

/// The version of the encoding if the arguments don't give one.
pub const DEFAULT_BEGIN: &str = "FIX.4.4";

/// The most bytes of a header field that is given in the arguments.
pub const MOST_FIELD_BYTES: usize = 64;

/// How many times `--also` may be given.
pub const MOST_ALSO: usize = 15;

/// The most messages that the arguments may ask for.
pub const MOST_MESSAGES: u64 = 10_000;

/// The numbers that an option or an argument accepts.
#[derive(Drop)]
pub struct NumberRange {
    pub least: u64,
    pub most: u64,
    /// The number that applies if the arguments give none.
    pub default: u64,
}

/// The sizes that the longest frame may have, in bytes.
pub const FRAME_RANGE: NumberRange = NumberRange {
    least: 64,
    most: 16_777_216,
    default: 65_536,
};

/// The sizes that the input may have, in bytes.
pub const INPUT_RANGE: NumberRange = NumberRange {
    least: 1,
    most: 1_099_511_627_776,
    default: 4_294_967_296,
};

/// The seeds that messages may be drawn from.
pub const SEED_RANGE: NumberRange = NumberRange {
    least: 0,
    most: u64::MAX,
    default: 0,
};

/// The numbers of messages that may be drawn.
pub const COUNT_RANGE: NumberRange = NumberRange {
    least: 1,
    most: MOST_MESSAGES,
    default: 0,
};

/// The sequence numbers that the first text may have; it has none if the arguments don't give one.
pub const SEQ_RANGE: NumberRange = NumberRange {
    least: 1,
    most: 4_000_000_000,
    default: 0,
};

/// Which messages are drawn.
#[derive(Clone, Copy, Debug, PartialEq, Eq)]
pub struct Draws {
    /// The seed that they are drawn from.
    pub seed: u64,
    /// The number of messages.
    pub count: u64,
}

/// What the arguments give for the head of a text.
#[derive(Drop)]
pub struct HeadWords {
    /// The version of the encoding.
    pub begin: Text,
    pub sender: Option<Text>,
    pub target: Option<Text>,
    /// The sequence number of the first text; 0 if it has none.
    pub seq: u64,
    /// The sending time.
    pub time: Option<Text>,
}

/// The seed and the count in the arguments, or no draws if there are no arguments. `None` if one of them isn't a number
/// of its range, or if their number isn't two.
pub fn draws_of(words: &[String]) -> Option<Draws>
    ensures { result ≡ draws_of (map (λ word. string_bytes word) words.now) }
{
    if words.is_empty() {
        return Some(Draws {
            seed: SEED_RANGE.default,
            count: COUNT_RANGE.default,
        });
    }
    let [seed, count] = words else {
        return None;
    };
    Some(Draws {
        seed: number_within(&SEED_RANGE, seed.as_str())?,
        count: number_within(&COUNT_RANGE, count.as_str())?,
    })
}

/// The number that options give for this one, or its default. `None` if they give that option twice, or if its value
/// isn't a number of the range.
pub fn number_given(option: &str, range: &NumberRange, options: &[String]) -> Option<u64>
    ensures { result ≡ number_given option.now range.now (map (λ word. string_bytes word) options.now) }
{
    let mut given = None;
    let mut left = options;
    while let [word, value, rest @ ..] = left {
        if word.as_str() == option {
            if given.is_some() {
                return None;
            }
            given = Some(number_within(range, value.as_str())?);
        }
        left = rest;
    }
    Some(given.unwrap_or(range.default))
}

/// The number in an argument, if it is within the range.
fn number_within(range: &NumberRange, word: &str) -> Option<u64>
    ensures { result ≡ number_within range.now.least range.now.most word.now }
{
    let NumberRange { least, most, .. } = *range;
    let bytes = word.as_bytes();
    if !begins_a_number(bytes) || begins_with_a_sign(bytes) {
        return None;
    }
    let Ok(number) = word.parse::<u64>() else {
        return None;
    };
    if number < least || number > most {
        return None;
    }
    Some(number)
}

/// Whether an argument may be a header field: it has 1 to 64 bytes, each of them printable.
pub(crate) fn is_field_text(word: &[u8]) -> bool
    ensures { result ≡ is_field_text word.now }
{
    if word.is_empty() || word.len() > MOST_FIELD_BYTES {
        return false;
    }
    are_printed(word)
}

/// Whether each of these bytes is printable.
fn are_printed(bytes: &[u8]) -> bool
    ensures { result ≡ list_all is_printed bytes.now }
{
    bytes.iter().all(|byte| is_printed(*byte))
}

/// Whether a byte is a printable ASCII character, a space included.
fn is_printed(byte: u8) -> bool
    ensures { result ≡ is_printed byte }
{
    byte >= 0x20 && byte <= 0x7e
}

/// Whether an argument isn't empty, and doesn't begin with a zero followed by more.
fn begins_a_number(word: &[u8]) -> bool
    ensures { result ≡ begins_a_number word.now }
{
    match word {
        [] | [b'0', _, ..] => false,
        _ => true,
    }
}

/// Whether an argument begins with the sign that `parse` would accept.
fn begins_with_a_sign(word: &[u8]) -> bool
    ensures { IsTrue result ↔ (slice_index_or word.now 0 0 ≡ 43) }
{
    match word {
        [b'+', ..] => true,
        _ => false,
    }
}

// Whether two names are the same.
ghost use Rattle.std.specs.Prelude.{◌≡◌, ◌≤◌, length, take};
ghost use Rattle.std.specs.Str.{bytes_eq};
ghost use Rattle.clean_walk.specs.declared.names.TheConstants.{WORD};

use byteorder::{ByteOrder, LittleEndian};

/// How many bytes are compared at once.
const WORD: usize = 8;

/// Whether two names are the same. Names of one or two words are compared by their first word and their last.
#[inline(always)]
pub(crate) fn is_same(name: &[u8], other: &[u8]) -> bool
    ensures { result ≡ bytes_eq name.now other.now }
{
    let long = name.len();
    if long != other.len() || long < WORD || long > 2 * WORD {
        return name == other;
    }
    let last = long - WORD;
    is_same_word(name, other) && is_same_word(&name[last..], &other[last..])
}

/// Whether two slices begin with the same word.
#[inline(always)]
fn is_same_word(bytes: &[u8], others: &[u8]) -> bool
    requires first { WORD ≤ length bytes.now }
    requires second { WORD ≤ length others.now }
    ensures { result ≡ bytes_eq (take WORD bytes.now) (take WORD others.now) }
{
    LittleEndian::read_u64(bytes) == LittleEndian::read_u64(others)
}

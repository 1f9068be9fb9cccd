// Refusals.
ghost use Rattle.std.specs.Prelude.{◌≡◌};
ghost use Rattle.std.specs.Option.{option_map};
ghost use Rattle.bridge_rules.specs.Values.{value_by};
ghost use Rattle.bridge_rules.specs.Rules.{Rule};
ghost use Rattle.bridge_terms.specs.WayBack.{text_wrong};
ghost use Rattle.text_values.specs.Rows.{Reads};
ghost use Rattle.field_judge.specs.Refusals.{misread_at, refusal_of};

use fix_values::V;
use text_values::{Misread, TextValue};

/// Why fields aren't translated, with the tag where this is found.
#[derive(Clone, Copy, Debug, PartialEq, Eq, Drop)]
pub enum Refused {
    /// The text of a field can't be read.
    Unreadable(u32, V),
    /// The template has no part with the tag at this level.
    Unknown(u32),
    /// A second field has the tag.
    Repeated(u32),
    /// A group has more or fewer entries than its count states, or they don't begin with the delimiter.
    Misgrouped(u32),
    /// The field of a constant has another text.
    Unlike(u32),
    /// A part must have a field, and has none.
    Missing(u32),
}

/// What is wrong with a text, if anything.
pub(crate) fn text_wrong(row: &TextValue, tag: u32, text: &[u8]) -> Option<Refused>
    ensures { (rule : Rule) → Reads row.now rule → option_map refusal_of result ≡ text_wrong tag (value_by rule text.now) }
{
    match row.read(text) {
        Ok(_) => None,
        Err(why) => Some(misread(tag, why)),
    }
}

/// The refusal of a text, with its tag.
fn misread(tag: u32, why: Misread) -> Refused
    ensures { refusal_of result ≡ misread_at tag why }
{
    match why {
        Misread::NotRead(v) => Refused::Unreadable(tag, v),
        Misread::NotTheConstant => Refused::Unlike(tag),
    }
}

// Texts that a field may have.
ghost use Rattle.std.specs.Prelude.{◌≡◌, Err};
ghost use Rattle.bridge_rules.specs.Values.{not_read};
ghost use Rattle.text_values.specs.Read.{answer_of_read};
ghost use Rattle.text_values.specs.Rows.{given};

use crate::value::{Misread, ReadValue};
use fix_values::{V, show_text};

/// Whether a field may have the text: it isn't empty, and contains SOH only if any byte is allowed.
pub(crate) fn is_given(any: bool, text: &[u8]) -> bool
    ensures { result ≡ given any text.now }
{
    if any {
        return !text.is_empty();
    }
    match show_text(text) {
        Ok(()) => true,
        Err(_) => false,
    }
}

/// A text that can't be read.
pub(crate) fn not_read<'a>(why: V) -> Result<ReadValue<'a>, Misread>
    ensures { answer_of_read result ≡ Err (not_read why) }
{
    Err(Misread::NotRead(why))
}

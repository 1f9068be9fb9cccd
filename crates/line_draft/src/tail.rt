// The template that a line seems to name at its end.
ghost use Rattle.std.specs.Prelude.{◌<◌, length, IfSome};

use sbe_types::Level;

/// The bytes before the last quote of a text.
fn before_quote(text: &[u8]) -> Option<&[u8]>
    ensures { IfSome result (λ front. length front.now < length text.now) }
{
    let end = text.iter().rposition(|b| *b == b'"')?;
    Some(&text[..end])
}

/// The name of the template, which is between the fourth and the third quote from the end.
fn name_in(line: &[u8]) -> Option<&[u8]> {
    let key = before_quote(line)?;
    let after = before_quote(key)?;
    let name = before_quote(after)?;
    let before = before_quote(name)?;
    Some(&name[before.len() + 1..])
}

/// The number of the level that the line names as its template.
pub(crate) fn template_in(levels: &[Level], line: &[u8]) -> Option<usize>
    ensures { IfSome result (λ i. i < length levels.now) }
{
    let name = name_in(line)?;
    levels
        .iter()
        .position(|level| level.name.as_slice() == name)
}

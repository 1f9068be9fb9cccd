// The template of a line of JSON.
ghost use Rattle.std.specs.Prelude.{◌≡◌, IfOk, IfErr};
ghost use Rattle.library_examples.specs.Lines.{IsRefused, NamesTemplate};

use line_reading::msg_of_line;
use line_values::LineFault;
use schema_check::Checked;
use std::alloc::Global;

/// The name of the template of the message that a line of JSON holds.
///
/// # Errors
///
/// `Refused` exactly if the line doesn't hold a message of the schema, and `Memory` if memory runs out.
pub fn template_of<'a>(
    alloc: Global,
    checked: &'a Checked,
    line: &[u8],
) -> Result<&'a [u8], LineFault>
    ensures named { IfOk result (λ name. NamesTemplate checked.now line.now name.now) }
    ensures refused { IfErr result (IsRefused checked.now line.now) }
{
    let message = msg_of_line(alloc, checked, line)?;
    let root = checked.schema().messages.at(message.template);
    Ok(root.name.as_slice())
}

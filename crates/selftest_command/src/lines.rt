ghost use Rattle.std.specs.Prelude.{◌≡◌};
ghost use Rattle.schema_lines.specs.Texts.{Puts};
ghost use Rattle.selftest_command.specs.Selftest.{sums_line};

use crate::sums::Sums;
use lists::NoMem;
use schema_lines::{put, put_count};

/// Appends the line of all sums.
///
/// # Errors
///
/// If memory runs out. A prefix of the line may then have been appended.
pub(crate) fn put_sums(sums: Sums, output: &mut Vec<u8>) -> Result<(), NoMem>
    ensures { Puts result output.old.items output.new.items (sums_line sums) }
{
    put(output, b"{\"frames\":")?;
    put_count(output, sums.frames)?;
    put(output, b",\"skipped\":")?;
    put_count(output, sums.skipped)?;
    put(output, b",\"bytes\":")?;
    put_count(output, sums.bytes)?;
    put(output, b",\"sum\":")?;
    put_count(output, sums.byte_sum)?;
    put(output, b",\"altered\":")?;
    put_count(output, sums.altered)?;
    put(output, b"}\n")
}

ghost use Rattle.std.specs.Prelude.{◌≡◌};
ghost use Rattle.schema_lines.specs.Texts.{Puts};
ghost use Rattle.schema_lines.specs.Lines.{message_line, message_lines};

use crate::counts::count_level;
use crate::text::{put, put_count, put_json_text};
use lists::NoMem;
use sbe_types::Level;

/// Appends a line for each message: its name, its id, the length of its block in bytes, and how many groups and data
/// parts it has at all levels.
///
/// # Errors
///
/// If memory runs out. A prefix of the lines may then have been appended. It also fails if there are more groups or
/// data parts than 64 bits can count; memory would run out before.
pub fn put_messages(messages: &[Level], out: &mut Vec<u8>) -> Result<(), NoMem>
    ensures { Puts result out.old.items out.new.items (message_lines messages.now) }
{
    for message in messages {
        put_message(message, out)?;
    }
    Ok(())
}

/// Appends the line of one message.
///
/// # Errors
///
/// As of `put_messages`.
pub fn put_message(message: &Level, out: &mut Vec<u8>) -> Result<(), NoMem>
    ensures { Puts result out.old.items out.new.items (message_line message.now) }
{
    let Some(counts) = count_level(message) else {
        return Err(NoMem);
    };
    put(out, b"{\"message\":")?;
    put_json_text(out, message.name.as_slice())?;
    put(out, b",\"id\":")?;
    put_count(out, message.id as u64)?;
    put(out, b",\"block\":")?;
    put_count(out, message.block_length as u64)?;
    put(out, b",\"groups\":")?;
    put_count(out, counts.groups)?;
    put(out, b",\"data\":")?;
    put_count(out, counts.parts)?;
    put(out, b"}\n")
}

ghost use Rattle.std.specs.Prelude.{◌≡◌, slice_get, Some, true};
ghost use Rattle.serde_json.specs.Written.{compact_text};
ghost use Rattle.tree_json.specs.Lines.{message_at};

use crate::same::SameSink;
use flyweight_view::MsgView;
use sbe_base::WriteFault;
use tree_json::LineLayout;

/// Whether the line of a message of a schema is this one. `false` is inconclusive. Allocates nothing.
pub fn is_line_of(lines: &LineLayout, view: &MsgView<'_>, line: &[u8]) -> bool
    requires { slice_get lines.now.messages view.now.message.template ≡ Some view.now.level }
    ensures { result ≡ true → line.now ≡ compact_text (message_at (Some view.now.level) view.now.message) }
{
    let mut sink = SameSink::new(line);
    match lines.line_of(view, &mut sink) {
        Ok(()) => sink.is_whole(line),
        Err(WriteFault) => false,
    }
}

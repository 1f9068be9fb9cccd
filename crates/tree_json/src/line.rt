ghost use Rattle.std.specs.Prelude.{◌≡◌, slice_get, IfSome, Some};
ghost use Rattle.sbe_base.specs.Writes.{Writes};
ghost use Rattle.serde_json.specs.Written.{compact_text};
ghost use Rattle.tree_json.specs.Lines.{message_at};
ghost use Rattle.json_values.specs.Plain.{plain_text, IsPlainName};
ghost use Rattle.sbe_types.specs.declared.schema.Level.{out-Level};
ghost use Rattle.tree_json.specs.Texts.{AreLevelTexts};
ghost use Rattle.tree_json.specs.Views.{PrintsOpen};
ghost use Rattle.printers.specs.Prints.{Prints};

use crate::block::put_front;
use crate::kept::{Kept, NoTexts, OfLevel};
use crate::texts::LineLayout;
use flyweight_view::MsgView;
use json_values::put_count;
use printers::{Chunk, Printer};
use sbe_base::{Sink, WriteFault};

/// Prints the line of a message, without its line end, and each field by its kind. For many messages [`LineLayout`] is
/// faster.
///
/// # Errors
///
/// [`WriteFault`] if a write fails. The sink then holds a prefix of the line.
pub fn line_of<O: Sink>(view: &MsgView<'_>, sink: &mut O) -> Result<(), WriteFault>
    ensures { Writes (O.state sink.old) (O.state sink.new) (compact_text (message_at (Some view.now.level) view.now.message)) result }
{
    let mut chunk = Chunk::new();
    let mut printer = Printer::new(sink, &mut chunk);
    put_line(&mut printer, view);
    printer.finish()
}

/// Prints the line of a message without its line end.
pub fn put_line<O: Sink>(printer: &mut Printer<'_, O>, view: &MsgView<'_>)
    ensures { Prints O.state printer.old printer.new (compact_text (message_at (Some view.now.level) view.now.message)) }
{
    put_closed(printer, NoTexts, view);
}

/// Prints the line of a message without its closing bracket and its line end.
pub fn put_open_line<O: Sink>(printer: &mut Printer<'_, O>, view: &MsgView<'_>)
    ensures { PrintsOpen (compact_text (message_at (Some view.now.level) view.now.message)) (Prints O.state printer.old printer.new) }
{
    put_open(printer, NoTexts, view);
}

impl LineLayout {
    /// Prints the line of a message of its schema, without the line end.
    ///
    /// # Errors
    ///
    /// [`WriteFault`] if a write fails. The sink then holds a prefix of the line.
    pub fn line_of<O: Sink>(&self, view: &MsgView<'_>, sink: &mut O) -> Result<(), WriteFault>
        requires { slice_get self.now.messages view.now.message.template ≡ Some view.now.level }
        ensures { Writes (O.state sink.old) (O.state sink.new) (compact_text (message_at (Some view.now.level) view.now.message)) result }
    {
        let mut chunk = Chunk::new();
        let mut printer = Printer::new(sink, &mut chunk);
        let texts = self.message(view.template());
        put_closed(&mut printer, OfLevel { texts }, view);
        printer.finish()
    }

    /// Prints the line of a message of its schema, without the closing bracket and the line end.
    pub fn put_open_line<O: Sink>(&self, printer: &mut Printer<'_, O>, view: &MsgView<'_>)
        requires { slice_get self.now.messages view.now.message.template ≡ Some view.now.level }
        ensures { PrintsOpen (compact_text (message_at (Some view.now.level) view.now.message)) (Prints O.state printer.old printer.new) }
    {
        let texts = self.message(view.template());
        put_open(printer, OfLevel { texts }, view);
    }
}

/// Prints the line of a message without its line end.
#[inline(always)]
fn put_closed<O: Sink, T: Kept + Copy>(printer: &mut Printer<'_, O>, texts: T, view: &MsgView<'_>)
    requires { IfSome (T.texts texts) (AreLevelTexts view.now.level) }
    ensures { Prints O.state printer.old printer.new (compact_text (message_at (Some view.now.level) view.now.message)) }
{
    put_open(printer, texts, view);
    printer.put(b"}");
}

/// Prints the line of a message without its closing bracket and its line end.
#[inline(always)]
fn put_open<O: Sink, T: Kept + Copy>(printer: &mut Printer<'_, O>, texts: T, view: &MsgView<'_>)
    requires { IfSome (T.texts texts) (AreLevelTexts view.now.level) }
    ensures { PrintsOpen (compact_text (message_at (Some view.now.level) view.now.message)) (Prints O.state printer.old printer.new) }
{
    // A checked schema's names need no escaping.
    let _schema = view.schema();
    put_message(printer, texts, view);
}

/// Prints a message without its closing bracket. Requires a template's name that needs no escaping.
fn put_message<O: Sink, T: Kept + Copy>(printer: &mut Printer<'_, O>, texts: T, view: &MsgView<'_>)
    requires name { IsPlainName (out-Level view.now.level).name }
    requires texts { IfSome (T.texts texts) (AreLevelTexts view.now.level) }
    ensures { PrintsOpen (plain_text (message_at (Some view.now.level) view.now.message)) (Prints O.state printer.old printer.new) }
{
    put_front(printer, texts, &view.root());
    printer.put_between(b",\"template\":\"", view.name(), b"\",\"version\":");
    put_count(printer, view.version() as u64);
}

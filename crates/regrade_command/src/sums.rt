ghost use Rattle.printers.specs.Prints.{Prints};
ghost use Rattle.replies.specs.Outside.{NotesLine};
ghost use Rattle.sbe_base.specs.Writes.{Writes};
ghost use Rattle.command_steps.specs.Ends.{done_status};
ghost use Rattle.regrade_command.specs.Regrade.{sums_line};

use command_steps::{Kept, done};
use json_values::put_count;
use printers::{Chunk, Printer};
use sbe_base::{Sink, Status, WriteFault};

/// Notes the last line of a run that read all of its input, and returns the status of the run.
pub(crate) fn tell_sums<N: Sink>(kept: &Kept, notes: &mut N) -> Status
    ensures { NotesLine (sums_line kept.now) (done_status kept.now.refused) (N.state notes.old) (N.state notes.new) result }
{
    match note_sums(kept, notes) {
        Ok(()) => done(kept),
        Err(WriteFault) => Status::WriteFault,
    }
}

/// Writes the line of the sums.
fn note_sums<N: Sink>(kept: &Kept, notes: &mut N) -> Result<(), WriteFault>
    ensures { Writes (N.state notes.old) (N.state notes.new) (sums_line kept.now) result }
{
    let mut chunk = Chunk::new();
    let mut printer = Printer::new(notes, &mut chunk);
    put_sums(&mut printer, kept);
    printer.finish()
}

/// Prints the line of the sums.
fn put_sums<N: Sink>(printer: &mut Printer<'_, N>, kept: &Kept)
    ensures { Prints N.state printer.old printer.new (sums_line kept.now) }
{
    printer.put(b"{\"regraded\":");
    put_count(printer, kept.items.saturating_sub(kept.refused));
    printer.put(b",\"dropped\":");
    put_count(printer, kept.dropped);
    printer.put(b",\"filled\":");
    put_count(printer, kept.filled);
    printer.put(b"}\n");
}

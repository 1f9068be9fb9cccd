ghost use Rattle.std.specs.Prelude.{◌≡◌};
ghost use Rattle.sbe_base.specs.Writes.{Writes};
ghost use Rattle.printers.specs.Prints.{Prints};
ghost use Rattle.replies.specs.Outside.{NotesLine};
ghost use Rattle.sbe_cli.specs.Stops.{unopened_line, unopened_status};
ghost use Rattle.sbe_cli.specs.declared.unopened.Unopened.TheVariants as unopened;

use printers::{Chunk, Printer};
use sbe_base::{Sink, Status, WriteFault};
use schema_files::{FileRole, RefusedFile, put_refusal, put_role, refusal_status};

/// Why a run ends before its items.
#[derive(Debug, Drop)]
pub enum Unopened {
    /// The arguments aren't a command.
    Usage,
    /// The file in this role couldn't be read.
    FileFault(FileRole),
    /// A file isn't accepted.
    Refused(RefusedFile),
}

impl Unopened {
    /// The status with which it ends the run.
    pub fn status(&self) -> Status
        ensures { result ≡ unopened_status self.now }
    {
        match self {
            Unopened::Usage => Status::Usage,
            Unopened::FileFault(_) => Status::FileFault,
            Unopened::Refused(file) => refusal_status(&file.why),
        }
    }
}

/// Notes why the run ends, and returns its status. Allocates nothing.
#[inline(never)]
pub fn tell<N: Sink>(why: &Unopened, notes: &mut N) -> Status
    ensures { NotesLine (unopened_line why.now) (unopened_status why.now) (N.state notes.old) (N.state notes.new) result }
{
    match note(why, notes) {
        Ok(()) => why.status(),
        Err(WriteFault) => Status::WriteFault,
    }
}

/// Writes the line that notes it.
fn note<N: Sink>(why: &Unopened, notes: &mut N) -> Result<(), WriteFault>
    ensures { Writes (N.state notes.old) (N.state notes.new) (unopened_line why.now) result }
{
    let mut chunk = Chunk::new();
    let mut printer = Printer::new(notes, &mut chunk);
    put_unopened(&mut printer, why);
    printer.finish()
}

/// Prints the line that notes it.
fn put_unopened<N: Sink>(printer: &mut Printer<'_, N>, why: &Unopened)
    ensures { Prints N.state printer.old printer.new (unopened_line why.now) }
{
    match why {
        Unopened::Usage => printer.put(
            b"{\"usage\":\"sbe check compat dump build fixcheck tofix tosbe selftest regrade rawframe\"}\n",
        ),
        Unopened::FileFault(role) => put_file_fault(printer, *role),
        Unopened::Refused(file) => put_refusal(printer, file),
    }
}

fn put_file_fault<N: Sink>(printer: &mut Printer<'_, N>, role: FileRole)
    ensures { Prints N.state printer.old printer.new (unopened_line (unopened.FileFault role)) }
{
    printer.put(b"{\"fault\":\"File\",\"file\":\"");
    put_role(printer, role);
    printer.put(b"\"}\n");
}

ghost use Rattle.std.specs.Prelude.{◌≡◌};
ghost use Rattle.sbe_base.specs.Writes.{Writes};
ghost use Rattle.printers.specs.Prints.{Prints};
ghost use Rattle.replies.specs.Outside.{NotesLine};
ghost use Rattle.command_steps.specs.Ends.{stop_status, stop_line, at_line, head_line, fault_line};
ghost use Rattle.command_steps.specs.declared.end.Stop.TheVariants as stop;

use json_values::put_count;
use open_framing::{HeadErr, LONGEST_LINE};
use printers::{Chunk, Printer};
use sbe_base::{Sink, Status, WriteFault};

/// What is noted if a run stops before its end.
#[derive(Clone, Copy, Debug, PartialEq, Eq)]
pub enum Stop {
    /// The input failed after this many bytes.
    ReadFault(u64),
    /// The input ends this many bytes into a frame, which begins at the second number.
    EndInside(u64, u64),
    /// The head at this byte of the input is faulty.
    Head(HeadErr, u64),
    /// The line at this byte of the input is longer than a line may be.
    LineOver(u64),
    /// The input has more bytes than this limit.
    InputLimit(u64),
}

impl Stop {
    /// The status with which it ends the run.
    pub fn status(&self) -> Status
        ensures { result ≡ stop_status self.now }
    {
        match self {
            Stop::ReadFault(_) => Status::ReadFault,
            Stop::EndInside(_, _) | Stop::Head(_, _) | Stop::LineOver(_) => {
                Status::FramingRefused
            }
            Stop::InputLimit(_) => Status::InputLimit,
        }
    }
}

/// Notes why the run stops, and returns its status. Allocates nothing.
#[inline(never)]
pub fn tell<N: Sink>(stop: &Stop, notes: &mut N) -> Status
    ensures { NotesLine (stop_line stop.now) (stop_status stop.now) (N.state notes.old) (N.state notes.new) result }
{
    match note(stop, notes) {
        Ok(()) => stop.status(),
        Err(WriteFault) => Status::WriteFault,
    }
}

/// Writes the line that notes a stop.
fn note<N: Sink>(stop: &Stop, notes: &mut N) -> Result<(), WriteFault>
    ensures { Writes (N.state notes.old) (N.state notes.new) (stop_line stop.now) result }
{
    let mut chunk = Chunk::new();
    let mut printer = Printer::new(notes, &mut chunk);
    put_stop(&mut printer, stop);
    printer.finish()
}

/// Prints the line that notes a stop.
fn put_stop<N: Sink>(printer: &mut Printer<'_, N>, stop: &Stop)
    ensures { Prints N.state printer.old printer.new (stop_line stop.now) }
{
    match stop {
        Stop::ReadFault(at) => put_at(printer, b"{\"fault\":\"Read\",\"at\":", *at),
        Stop::EndInside(held, at) => put_fault(printer, b"EndInside", *at, *held),
        Stop::Head(fault, at) => put_head_fault(printer, *fault, *at),
        Stop::LineOver(at) => put_fault(printer, b"LineOver", *at, LONGEST_LINE as u64 + 1),
        Stop::InputLimit(limit) => { put_at(printer, b"{\"limit\":\"Input\",\"at\":", *limit) }
    }
}

fn put_at<N: Sink>(printer: &mut Printer<'_, N>, front: &[u8], at: u64)
    ensures { Prints N.state printer.old printer.new (at_line front.now at) }
{
    printer.put(front);
    put_count(printer, at);
    printer.put(b"}\n");
}

fn put_head_fault<N: Sink>(printer: &mut Printer<'_, N>, fault: HeadErr, at: u64)
    ensures { Prints N.state printer.old printer.new (head_line fault at) }
{
    match fault {
        HeadErr::HeadShort => put_fault(printer, b"HeadShort", at, 0),
        HeadErr::LengthShort(length) => put_fault(printer, b"LengthShort", at, length as u64),
        HeadErr::LengthOver(length) => put_fault(printer, b"LengthOver", at, length as u64),
        HeadErr::Encoding(encoding) => put_fault(printer, b"Encoding", at, encoding as u64),
    }
}

fn put_fault<N: Sink>(printer: &mut Printer<'_, N>, name: &[u8], at: u64, number: u64)
    ensures { Prints N.state printer.old printer.new (fault_line name.now at number) }
{
    printer.put(b"{\"framing\":\"");
    printer.put(name);
    printer.put(b"\",\"at\":");
    put_count(printer, at);
    printer.put(b",\"number\":");
    put_count(printer, number);
    printer.put(b"}\n");
}

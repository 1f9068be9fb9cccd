ghost use Rattle.std.specs.Prelude.{◌≡◌, ◌+◌, ◌≤◌, ◌++◌, [], codes, length, take, drop};
ghost use Rattle.sbe_base.specs.Objects.{Object};
ghost use Rattle.sbe_base.specs.Writes.{Ends, Writes};
ghost use Rattle.printers.specs.declared.chunk.TheConstants.{CHUNK_BYTES};
ghost use Rattle.printers.specs.Prints.{Begins, Finishes, Prints};

use crate::chunk::{CHUNK_BYTES, Chunk};
use sbe_base::{Failed, Sink, WriteFault, write_all_to};

/// How many bytes of a lead are copied, however few it has.
const LEAD_BYTES: usize = 32;

/// How many are copied of a lead that has at most that many.
const SHORT_LEAD_BYTES: usize = 16;

/// Prints to a sink through a chunk. It allocates nothing. Once a write has failed, nothing more is written.
#[derive(Drop)]
pub struct Printer<'a, O> {
    sink: &'a mut O,
    chunk: &'a mut Chunk,
}

impl<'a, O: Sink> Printer<'a, O> {
    /// A printer that has printed nothing yet. Discards what the chunk held.
    #[inline(always)]
    pub fn new(sink: &'a mut O, chunk: &'a mut Chunk) -> Printer<'a, O>
        ensures same_reference { result.sink.ghost_name ≡ sink.entry.ghost_name }
        ensures begins { Begins O.state (O.state sink.old) result }
    {
        chunk.clear(false);
        Printer { sink, chunk }
    }

    /// Prints bytes: they are gathered, and go to the sink when the chunk is full.
    #[inline(always)]
    pub fn put(&mut self, bytes: &[u8])
        ensures { Prints O.state self.old self.new bytes.now }
    {
        if self.chunk.len() + bytes.len() <= CHUNK_BYTES {
            self.chunk.add(bytes);
        } else {
            self.spill(bytes);
        }
    }

    /// Writes what the chunk has gathered, and then `bytes`.
    #[cold]
    #[inline(never)]
    fn spill(&mut self, bytes: &[u8])
        ensures { Prints O.state self.old self.new bytes.now }
    {
        if self.chunk.has_failed() {
            return;
        }
        let waiting = self.chunk.as_slice();
        if has_fault(self.sink, waiting) {
            self.chunk.clear(true);
            return;
        }
        let failed = has_fault(self.sink, bytes);
        self.chunk.clear(failed);
    }

    /// Prints `run` bytes of `text` from `start` on: the text that leads to a value.
    #[inline(always)]
    pub fn put_lead(&mut self, text: &[u8], start: usize, run: usize)
        requires { start + run ≤ length text.now }
        ensures { Prints O.state self.old self.new (take run (drop start text.now)) }
    {
        if run > SHORT_LEAD_BYTES {
            self.put_long_lead(text, start, run);
        } else if start + SHORT_LEAD_BYTES <= text.len()
            && self.chunk.len() + SHORT_LEAD_BYTES <= CHUNK_BYTES
        {
            self.chunk.add_lead::<SHORT_LEAD_BYTES>(text, start, run);
        } else {
            self.put_apart(&text[start..start + run]);
        }
    }

    /// Prints `run` bytes of a text, which are more than a few.
    #[inline(always)]
    fn put_long_lead(&mut self, text: &[u8], start: usize, run: usize)
        requires { start + run ≤ length text.now }
        ensures { Prints O.state self.old self.new (take run (drop start text.now)) }
    {
        if start + LEAD_BYTES > text.len() {
            self.put_apart(&text[start..start + run]);
        } else if run <= LEAD_BYTES && self.chunk.len() + LEAD_BYTES <= CHUNK_BYTES {
            self.chunk.add_lead::<LEAD_BYTES>(text, start, run);
        } else {
            self.put_apart(&text[start..start + run]);
        }
    }

    /// Prints bytes between quotes.
    #[inline(always)]
    pub fn put_in_quotes(&mut self, bytes: &[u8])
        ensures { Prints O.state self.old self.new (codes "\"" ++ (bytes.now ++ codes "\"")) }
    {
        self.put_between(b"\"", bytes, b"\"");
    }

    /// Prints the first `run` bytes of a field between quotes.
    #[inline(always)]
    pub fn put_front_in_quotes(&mut self, field: &[u8], run: usize)
        requires { run ≤ length field.now }
        ensures { Prints O.state self.old self.new (codes "\"" ++ (take run field.now ++ codes "\"")) }
    {
        if self.chunk.len() + (field.len() + 2) <= CHUNK_BYTES {
            self.chunk.add_front_in_quotes(field, run);
        } else {
            self.put_each(b"\"", &field[..run], b"\"");
        }
    }

    /// Prints the first `run` bytes of `front`, which is short, and then `after` and `last`.
    #[inline(always)]
    pub fn put_front(&mut self, front: &[u8], run: usize, after: &[u8], last: &[u8])
        requires run { run ≤ length front.now }
        requires few { length front.now + (length after.now + length last.now) ≤ CHUNK_BYTES }
        ensures { Prints O.state self.old self.new (take run front.now ++ (after.now ++ last.now)) }
    {
        if self.chunk.len() + (front.len() + (after.len() + last.len())) <= CHUNK_BYTES {
            self.chunk.add_front(front, run, after, last);
        } else {
            self.put_each(&front[..run], after, last);
        }
    }

    /// Prints bytes between two others, which are short.
    #[inline(always)]
    pub fn put_between(&mut self, before: &[u8], bytes: &[u8], after: &[u8])
        requires { length before.now + length after.now ≤ CHUNK_BYTES }
        ensures { Prints O.state self.old self.new (before.now ++ (bytes.now ++ after.now)) }
    {
        if self.chunk.len() + (bytes.len() + (before.len() + after.len())) <= CHUNK_BYTES {
            self.chunk.add_between(before, bytes, after);
        } else {
            self.put_each(before, bytes, after);
        }
    }

    /// Prints bytes by a separate call: a lead that is long, or that is near the end of its text.
    #[inline(never)]
    fn put_apart(&mut self, bytes: &[u8])
        ensures { Prints O.state self.old self.new bytes.now }
    {
        self.put(bytes);
    }

    /// Prints bytes between others, piece by piece.
    #[cold]
    #[inline(never)]
    fn put_each(&mut self, before: &[u8], bytes: &[u8], after: &[u8])
        ensures { Prints O.state self.old self.new (before.now ++ (bytes.now ++ after.now)) }
    {
        self.put(before);
        self.put(bytes);
        self.put(after);
    }

    /// Writes what is gathered, and reports whether a write has failed.
    ///
    /// # Errors
    ///
    /// [`WriteFault`] if a write failed, now or before. The sink then holds a prefix of what was printed.
    #[inline(always)]
    pub fn finish(self) -> Result<(), WriteFault>
        ensures { Finishes O.state self.entry (O.state self.exit.0.now) result }
    {
        let Printer { sink, chunk } = self;
        if chunk.has_failed() {
            return Err(WriteFault);
        }
        write_whole(sink, chunk.as_slice())
    }
}

/// Writes all bytes to the sink: by one call, if that accepts them all. If there are none, the sink isn't called.
#[inline(always)]
fn write_whole<O: Sink>(sink: &mut O, bytes: &[u8]) -> Result<(), WriteFault>
    ensures { Writes (O.state sink.old) (O.state sink.new) bytes.now result }
{
    if bytes.is_empty() {
        return Ok(());
    }
    match sink.write(bytes) {
        Ok(n) if n == bytes.len() => Ok(()),
        Ok(n) => write_rest(sink, &bytes[n..]),
        Err(Failed) => Err(WriteFault),
    }
}

/// Writes the bytes that one call didn't accept.
#[cold]
#[inline(never)]
fn write_rest<O: Sink>(sink: &mut O, bytes: &[u8]) -> Result<(), WriteFault>
    ensures { Writes (O.state sink.old) (O.state sink.new) bytes.now result }
{
    write_all_to(sink, bytes)
}

/// Writes bytes to the sink, and returns whether that failed.
fn has_fault<O: Sink>(sink: &mut O, bytes: &[u8]) -> bool
    ensures { Ends result (O.state sink.old) (O.state sink.new) bytes.now }
{
    match write_all_to(sink, bytes) {
        Ok(()) => false,
        Err(WriteFault) => true,
    }
}

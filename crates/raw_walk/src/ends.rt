ghost use Rattle.std.specs.Prelude.{◌≡◌, ◌≤◌, ◌<◌, ◌+◌, ◌^◌, [], length, drop, IfOk, IfSome};
ghost use Rattle.tagvalue_codec.specs.Reading.{plain_len};
ghost use Rattle.raw_walk.specs.Recalled.{Held, AreEnds, IsEnd, held_at};

use crate::scan::end_of_value;
use lists::NoMem;
use std::alloc::Global;

/// The end of a value of at most this many bytes is searched anew each time.
const NEAR: usize = 64;

/// The value that begins at `from` ends at `to`. Both are offsets in the input.
#[derive(Clone, Copy, Debug, PartialEq, Eq)]
pub(crate) struct End {
    pub(crate) from: u64,
    pub(crate) to: u64,
}

/// The ends of long values of the input. Such values begin more than [`NEAR`] bytes apart, so one cell for each
/// [`NEAR`] bytes is enough for all that are held.
#[derive(Drop)]
pub(crate) struct Ends {
    cells: Vec<End>,
}

impl Ends {
    /// Creates it without ends, for values of which at most `size` bytes are held.
    pub(crate) fn new(alloc: Global, size: usize) -> Result<Ends, NoMem>
        ensures { IfOk result (λ ends. AreEnds (held_at 0 []) ends) }
    {
        let none = End { from: 0, to: 0 };
        let mut cells = Vec::with_capacity(alloc, size / NEAR + 2)?;
        cells.push(none)?;
        for _ in 0..size / NEAR + 1 {
            cells.push(none)?;
        }
        Ok(Ends { cells })
    }

    /// The offset of the first SOH from `from` on in the bytes that are held, or the end if there is none. `place` bytes
    /// of the input precede those that are held.
    pub(crate) fn end_from(&mut self, held: &[u8], place: u64, from: usize) -> usize
        requires within { from ≤ length held.now }
        requires room { place + length held.now < 2 ^ 64 }
        requires ends { AreEnds (held_at place held.now) self.old }
        ensures end { result ≡ from + plain_len (drop from held.now) }
        ensures ends { AreEnds (held_at place held.now) self.new }
    {
        let near = near_end(from, held.len());
        let to = end_of_value(&held[..near], from);
        if to < near {
            return to;
        }
        match self.find(place + from as u64) {
            Some(end) => (end.to - place) as usize,
            None => self.search(held, place, from),
        }
    }

    /// Searches the end of a value, and remembers it.
    fn search(&mut self, held: &[u8], place: u64, from: usize) -> usize
        requires within { from ≤ length held.now }
        requires room { place + length held.now < 2 ^ 64 }
        requires ends { AreEnds (held_at place held.now) self.old }
        ensures end { result ≡ from + plain_len (drop from held.now) }
        ensures ends { AreEnds (held_at place held.now) self.new }
    {
        let to = end_of_value(held, from);
        if to >= held.len() {
            return to;
        }
        self.put(End {
            from: place + from as u64,
            to: place + to as u64,
        });
        to
    }

    /// The value that begins at this offset of the input, if its end is remembered.
    fn find(&self, from: u64) -> Option<End>
        requires { 0 < length self.now.cells.items }
        ensures { IfSome result (λ end. (end.from ≡ from) × (end.from < end.to) × ((h : Held) → AreEnds h self.now → IsEnd h end)) }
    {
        let end = self.cells[self.cell_of(from)];
        if end.from == from && end.from < end.to {
            Some(end)
        } else {
            None
        }
    }

    /// Remembers an end.
    fn put(&mut self, end: End)
        requires { 0 < length self.old.cells.items }
        ensures { (h : Held) → AreEnds h self.old → IsEnd h end → AreEnds h self.new }
    {
        let cell = self.cell_of(end.from);
        self.cells[cell] = end;
    }

    /// The cell of a value that begins at this offset of the input.
    fn cell_of(&self, from: u64) -> usize
        requires { 0 < length self.now.cells.items }
        ensures { result < length self.now.cells.items }
    {
        (from / NEAR as u64 % self.cells.len() as u64) as usize
    }
}

/// Where the search for a near end stops.
fn near_end(from: usize, len: usize) -> usize
    requires { from ≤ len }
    ensures low { from ≤ result }
    ensures high { result ≤ len }
{
    if len - from < NEAR { len } else { from + NEAR }
}

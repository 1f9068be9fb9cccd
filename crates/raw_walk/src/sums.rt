ghost use Rattle.std.specs.Prelude.{◌≡◌, ◌≤◌, ◌<◌, ◌+◌, ◌-◌, ◌%◌, ◌^◌, ℕ, List, [], length, take, sum, slice_set, IfOk, IfSome};
ghost use Rattle.std.specs.List.{AllByRecursion};
ghost use Rattle.raw_walk.specs.Recalled.{AreSums, Held, IsCell, held_at};

use crate::scan::sum_of;
use lists::NoMem;
use std::alloc::Global;

/// How many bytes are between two places whose sums are remembered.
const WIDTH: usize = 64;

/// The sum modulo 256 of the bytes up to an offset of the input, counted from the same byte for all.
#[derive(Clone, Copy, Debug, PartialEq, Eq)]
pub(crate) struct SumAt {
    pub(crate) at: u64,
    pub(crate) sum: u8,
}

/// Sums of the bytes that are held, at every [`WIDTH`]th of them up to a place.
#[derive(Drop)]
pub(crate) struct Sums {
    cells: Vec<SumAt>,
    /// The last sum.
    last: SumAt,
}

impl Sums {
    /// Creates it without sums, for at most `size` bytes that are held.
    pub(crate) fn new(alloc: Global, size: usize) -> Result<Sums, NoMem>
        ensures { IfOk result (λ sums. AreSums (held_at 0 []) sums) }
    {
        let none = SumAt { at: 0, sum: 0 };
        let mut cells = Vec::with_capacity(alloc, size / WIDTH + 2)?;
        cells.push(none)?;
        for _ in 0..size / WIDTH + 1 {
            cells.push(none)?;
        }
        Ok(Sums { cells, last: none })
    }

    /// The sum of the first `to` bytes that are held, modulo 256. `place` bytes of the input precede those that are held.
    pub(crate) fn sum_to(&mut self, held: &[u8], place: u64, to: usize) -> u8
        requires within { to ≤ length held.now }
        requires room { place + length held.now < 2 ^ 64 }
        requires sums { AreSums (held_at place held.now) self.old }
        ensures sum { result ≡ sum (take to held.now) % 256 }
        ensures sums { AreSums (held_at place held.now) self.new }
    {
        self.begin(place);
        let first = self.extend(held, place, to) % WIDTH;
        if to < first {
            return sum_of(&held[..to]);
        }
        let end = to - (to - first) % WIDTH;
        let Some(low) = self.find(place + first as u64) else {
            return sum_of(&held[..to]);
        };
        let Some(high) = self.find(place + end as u64) else {
            return sum_of(&held[..to]);
        };
        let near = sum_of(&held[..first]) as u32 + sum_of(&held[end..to]) as u32;
        difference(near, low.sum, high.sum)
    }

    /// Begins anew at a place if it is after all that are remembered.
    fn begin(&mut self, place: u64)
        requires { 0 < length self.old.cells.items }
        ensures sums { (bytes : List ℕ) → AreSums (held_at place bytes) self.old → AreSums (held_at place bytes) self.new }
        ensures last { place ≤ self.new.last.at }
    {
        if self.last.at < place {
            self.put(SumAt { at: place, sum: 0 });
        }
    }

    /// Remembers sums of the bytes up to `to`. Returns the offset of the last one.
    fn extend(&mut self, held: &[u8], place: u64, to: usize) -> usize
        requires within { to ≤ length held.now }
        requires room { place + length held.now < 2 ^ 64 }
        requires sums { AreSums (held_at place held.now) self.old }
        requires last { place ≤ self.old.last.at }
        ensures sums { AreSums (held_at place held.now) self.new }
    {
        let mut i = (self.last.at - place) as usize;
        while i <= to && to - i >= WIDTH {
            let sum = self.last.sum.wrapping_add(sum_of(&held[i..i + WIDTH]));
            i += WIDTH;
            self.put(SumAt {
                at: place + i as u64,
                sum,
            });
        }
        i
    }

    /// Remembers a sum, which is then the last one.
    fn put(&mut self, sum: SumAt)
        requires { 0 < length self.old.cells.items }
        ensures cells { (i : ℕ) × (self.new.cells.items ≡ slice_set self.old.cells.items i sum) }
        ensures last { self.new.last ≡ sum }
    {
        let cell = self.cell_of(sum.at);
        self.cells[cell] = sum;
        self.last = sum;
    }

    /// The sum at an offset of the input, if it is remembered.
    fn find(&self, at: u64) -> Option<SumAt>
        requires { 0 < length self.now.cells.items }
        ensures { IfSome result (λ found. (found.at ≡ at) × ((h : Held) (before : ℕ) → AllByRecursion (IsCell h before self.now.last) self.now.cells.items
            → IsCell h before self.now.last found)) }
    {
        let found = self.cells[self.cell_of(at)];
        if found.at == at { Some(found) } else { None }
    }

    /// The cell of the sum at an offset of the input.
    fn cell_of(&self, at: u64) -> usize
        requires { 0 < length self.now.cells.items }
        ensures { result < length self.now.cells.items }
    {
        (at / WIDTH as u64 % self.cells.len() as u64) as usize
    }
}

/// The sum of near bytes and of those between two sums, modulo 256.
fn difference(near: u32, low: u8, high: u8) -> u8
    requires { near < 512 }
    ensures { result ≡ (near + 256 + high - low) % 256 }
{
    ((near + 256 + high as u32 - low as u32) % 256) as u8
}

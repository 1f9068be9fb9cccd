ghost use Rattle.std.specs.Prelude.{◌≡◌, ◌≤◌, ◌<◌, ◌+◌, ◌-◌, ◌^◌, [], true, false, None, Some, IfSome, IfOk, length, take};
ghost use Rattle.frame_stream.specs.Reading.{DryCause};
ghost use Rattle.raw_fix.specs.Claims.{before_soh};
ghost use Rattle.raw_fix.specs.Fields.{HasFields, settled_size, size_if, size_of, step_size};
ghost use Rattle.raw_fix.specs.Items.{item_place, Finishes, Nexts, Settles, Waits, TextFits, texts_of};
ghost use Rattle.raw_fix.specs.Raw.{IsRun, Texts};
ghost use Rattle.raw_fix.specs.Taking.{RawCause, lefts_if};
ghost use Rattle.raw_fix.specs.declared.items.TheConstants.{LEAST_FRAME};
ghost use Rattle.frame_stream.specs.declared.stream.TheConstants.{LONGEST_FRAME};
ghost use Rattle.open_framing.specs.declared.head.TheConstants.{HEAD_BYTES};
ghost use Rattle.raw_fix.specs.Steps.{Steps};
ghost use Rattle.frame_stream.specs.Window.{Reads, let_go_of, none_held};

use crate::code::PCode;
use crate::mark::{Marked, next_mark};
use crate::soh::find_soh;
use crate::step::{Known, Step, next_step};
use crate::taken::{RawErr, Run};
use frame_stream::{Dry, Window};
use open_framing::HEAD_BYTES;
use raw_walk::Recall;
use sbe_base::{NoMem, Source};
use std::alloc::Global;
use std::marker::Model;
use tagvalue_codec::{DataTags, FieldTable};

/// The lowest limit of a frame with which a stream can be opened.
pub const LEAST_FRAME: usize = 64;

/// What is decided about the front of a stream.
#[derive(Clone, Copy, Debug, PartialEq, Eq)]
pub(crate) enum Settled {
    /// The first bytes that are held, this many, are a message.
    Message(usize),
    /// These bytes aren't a message. They have been released.
    Garbled(Run),
    /// Nothing is left.
    End,
}

/// The bytes of a stream from the next item on, or from a place inside one that isn't a message and hasn't ended.
#[derive(Drop)]
pub(crate) struct Items {
    /// There is room for twice as many bytes as are held at most: they are moved to its front only after at least as
    /// many were released.
    bytes: Window,
    /// The most bytes that are held.
    size: usize,
    /// What is remembered of the bytes, for texts that lie in one another's bytes.
    recall: Recall,
    /// How many of the first bytes are known to contain no SOH.
    plain: usize,
    begun: Option<Run>,
    /// The source has ended after these bytes, and isn't read again.
    met: bool,
}

impl Model for Items {
    ghost use Rattle.raw_fix.specs.Items.{ItemState, AreItems, held_in};
    ghost use Rattle.raw_fix.specs.Kept.{IsKept};

    ghost Value = { ItemState };

    ghost view = { λ s. record { held = held_in s.size s.bytes.held; begun = s.begun; met = s.met } };

    ghost invariant = { λ s. AreItems s.plain (held_in s.size s.bytes.held) s.begun × IsKept s.size s.bytes.held s.recall };
}

impl Items {
    /// Creates it empty, with room for `size` bytes.
    pub(crate) fn new(alloc: Global, size: usize, limit: u64) -> Result<Items, NoMem>
        requires low { LEAST_FRAME ≤ size }
        requires high { size ≤ LONGEST_FRAME }
        ensures { IfOk result (λ items. items ≡ record { held = none_held size limit; begun = None; met = false }) }
    {
        Ok(Items {
            bytes: Window::new(alloc, 2 * size, limit)?,
            size,
            recall: Recall::new(alloc, size)?,
            plain: 0,
            begun: None,
            met: false,
        })
    }

    /// How many bytes were taken in all.
    pub(crate) fn taken(&self) -> u64
        ensures { result ≡ self.now.held.taken }
    {
        self.bytes.taken()
    }

    /// The first bytes that are held.
    pub(crate) fn as_slice(&self) -> &[u8]
        ensures { result.now ≡ self.now.held.bytes }
    {
        self.bytes.as_slice()
    }

    /// Releases the first bytes.
    pub(crate) fn release(&mut self, n: usize)
        requires { n ≤ length self.old.held.bytes }
        ensures { self.new ≡ record { held = let_go_of n self.old.held; begun = self.old.begun; met = self.old.met } }
    {
        self.bytes.release(n);
        self.plain = self.plain.saturating_sub(n);
    }

    /// The position of the bytes, and what is known of them.
    fn known(&self) -> Known
        ensures at { result.at + length self.now.held.bytes ≡ self.now.held.taken }
        ensures begun { result.begun ≡ self.now.begun }
        ensures within { result.plain ≤ length self.now.held.bytes }
        ensures none { before_soh (take result.plain self.now.held.bytes) ≡ None }
        ensures counts { IfSome result.begun (λ run. run.length ≤ result.at) }
        ensures some { IfSome result.begun (λ run. 0 < run.length) }
        ensures room { self.now.held.taken < 2 ^ 64 }
        ensures size { LEAST_FRAME ≤ self.now.held.size }
        ensures most { result.most ≡ self.now.held.size - HEAD_BYTES }
        ensures fits { length self.now.held.bytes ≤ self.now.held.size }
        ensures input { self.now.held.taken ≤ self.now.held.limit }
    {
        Known {
            at: self.bytes.taken() - self.bytes.len() as u64,
            begun: self.begun,
            plain: self.plain,
            most: self.size - HEAD_BYTES,
        }
    }

    /// Reads once to the place after the bytes.
    fn read<I: Source>(&mut self, input: &mut I) -> Result<(), Dry>
        requires { length self.old.held.bytes < self.old.held.size }
        ensures reads { Reads self.old.held self.new.held ((I.state input.old).told) ((I.state input.new).told) result }
        ensures begun { self.new.begun ≡ self.old.begun }
        ensures met { self.new.met ≡ self.old.met }
        ensures cause { DryCause (I.state input.old).faults (I.state input.new).faults result }
    {
        self.bytes.more(input, self.size)
    }

    /// What the bytes that are held decide. There is at least one.
    fn step(&mut self, tags: &DataTags, table: &mut FieldTable) -> Step
        requires some { 0 < length self.old.held.bytes }
        requires empty { table.old ≡ [] }
        ensures same { self.new ≡ self.old }
        ensures steps { Steps (texts_of tags.now self.old) self.old.held.bytes (item_place self.old) self.old.begun result }
        ensures fields { HasFields tags.now self.old.held.bytes (step_size result) table.new }
    {
        let known = self.known();
        next_step(self.bytes.as_slice(), known, tags, table, &mut self.recall)
    }

    /// Decides what is at the front of the bytes that are held, if they are enough. Bytes that aren't a message are
    /// released.
    fn settle(&mut self, tags: &DataTags, table: &mut FieldTable) -> Option<Settled>
        requires empty { table.old ≡ [] }
        ensures settles { Settles (texts_of tags.now self.old) self.old self.new result }
        ensures fields { HasFields tags.now self.new.held.bytes (size_if result) table.new }
    {
        let _known = self.known();
        if self.bytes.len() == 0 {
            return None;
        }
        self.look();
        match self.step(tags, table) {
            Step::Message(n) => Some(Settled::Message(n)),
            Step::Ends(run, n) => {
                self.end_run(n);
                Some(Settled::Garbled(run))
            }
            Step::GoesOn(run, n) => {
                self.go_on(run, n);
                None
            }
            Step::More => None,
        }
    }

    /// Releases the first bytes, with which a run of bytes that aren't a message ends.
    fn end_run(&mut self, n: usize)
        requires { n ≤ length self.old.held.bytes }
        ensures { self.new ≡ record { held = let_go_of n self.old.held; begun = None; met = self.old.met } }
    {
        self.release(n);
        self.begun = None;
    }

    /// Releases the first bytes, which aren't a message and haven't ended.
    fn go_on(&mut self, run: Run, n: usize)
        requires within { n ≤ length self.old.held.bytes }
        requires counts { run.length + length self.old.held.bytes ≤ self.old.held.taken + n }
        requires some { 0 < run.length }
        ensures { self.new ≡ record { held = let_go_of n self.old.held; begun = Some run; met = self.old.met } }
    {
        self.release(n);
        self.begun = Some(run);
    }

    /// Records how many of the first bytes contain no SOH, so that they aren't searched again. Inside bytes that aren't a
    /// message nothing is searched.
    fn look(&mut self)
        ensures { self.new ≡ self.old }
    {
        if self.begun.is_none() {
            self.plain = plain_front(self.bytes.as_slice(), self.plain);
        }
    }

    /// Records that nothing follows the bytes, so that the source isn't read again.
    fn meet_end(&mut self)
        ensures { self.new ≡ record self.old { met = true } }
    {
        self.met = true;
    }

    /// Decides what is at the front when nothing follows the bytes that are held.
    fn finish(&mut self) -> Settled
        ensures none { settled_size result ≡ None }
        ensures finishes { (texts : Texts) → Waits texts self.old → Finishes texts self.old self.new result }
    {
        let known = self.known();
        let len = self.bytes.len();
        match known.begun {
            Some(run) => {
                self.end_run(len);
                Settled::Garbled(run.longer(len))
            }
            None if len == 0 => Settled::End,
            None => {
                let run = Run {
                    code: PCode::Ends,
                    at: known.at,
                    length: 0,
                };
                let n = last_run(self.bytes.as_slice());
                self.end_run(n);
                Settled::Garbled(run.longer(n))
            }
        }
    }

    /// Decides the next item. Reads only if the bytes that are held don't decide it, and never after the source's end.
    pub(crate) fn next<I: Source>(
        &mut self,
        input: &mut I,
        tags: &DataTags,
        table: &mut FieldTable,
    ) -> Result<Settled, RawErr>
        requires empty { table.old ≡ [] }
        ensures nexts { Nexts (texts_of tags.now self.old) self.old self.new
            (lefts_if self.old.met (record { before = (I.state input.old).told; after = (I.state input.new).told })) result }
        ensures unread { self.old.met ≡ true → input.new ≡ input.old }
        ensures fits { TextFits self.new result }
        ensures fields { HasFields tags.now self.new.held.bytes (size_of result) table.new }
        ensures cause { RawCause (I.state input.old).faults (I.state input.new).faults result }
    {
        let _known = self.known();
        loop {
            match self.settle(tags, table) {
                Some(settled) => return Ok(settled),
                None => {}
            }
            if self.met {
                return Ok(self.finish());
            }
            match self.read(input) {
                Ok(()) => {}
                Err(Dry::Fault) => return Err(RawErr::ReadFault),
                Err(Dry::Over) => return Err(RawErr::InputLimit),
                Err(Dry::End) => {
                    self.meet_end();
                    return Ok(self.finish());
                }
            }
        }
    }
}

/// How many of the first bytes contain no SOH; for the first `plain` this is known.
fn plain_front(bytes: &[u8], plain: usize) -> usize
    requires within { plain ≤ length bytes.now }
    requires none { before_soh (take plain bytes.now) ≡ None }
    ensures within { result ≤ length bytes.now }
    ensures none { before_soh (take result bytes.now) ≡ None }
{
    match find_soh(bytes, plain) {
        Some(i) => i,
        None => bytes.len(),
    }
}

/// How far bytes that aren't a message extend, when nothing follows them.
fn last_run(bytes: &[u8]) -> usize
    requires { 0 < length bytes.now }
    ensures within { result ≤ length bytes.now }
    ensures runs { IsRun false bytes.now (take result bytes.now) }
{
    match next_mark(&bytes[1..]) {
        Marked::At(i) => i + 1,
        Marked::NotIn(_) => bytes.len(),
    }
}

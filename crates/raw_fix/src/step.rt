ghost use Rattle.std.specs.Prelude.{◌≡◌, ◌≤◌, ◌<◌, ◌+◌, ◌^◌, [], None, length, take, IfSome};
ghost use Rattle.raw_fix.specs.Claims.{before_soh};
ghost use Rattle.raw_fix.specs.Fields.{HasFields, fix_texts, step_size};
ghost use Rattle.raw_fix.specs.Steps.{Steps, RunSteps};
ghost use Rattle.raw_walk.specs.Recalled.{Recalls, held_at};

use crate::mark::{Marked, next_mark};
use crate::taken::Run;
use crate::verdict::{Verdict, judge};
use raw_walk::Recall;
use tagvalue_codec::{DataTags, FieldTable};

/// What the bytes that are held decide.
#[derive(Clone, Copy, Debug, PartialEq, Eq)]
pub(crate) enum Step {
    /// The first bytes, this many, are a message.
    Message(usize),
    /// The first bytes, this many, are the end of a run that isn't a message.
    Ends(Run, usize),
    /// The first bytes, this many, can be released: they belong to a run that isn't a message and goes on.
    GoesOn(Run, usize),
    /// Nothing until more bytes arrive.
    More,
}

/// The position of the held bytes in the input, and what is known of them.
#[derive(Clone, Copy, Debug, PartialEq, Eq)]
pub(crate) struct Known {
    /// How many bytes of the input precede them.
    pub(crate) at: u64,
    /// The preceding bytes that aren't a message and haven't ended.
    pub(crate) begun: Option<Run>,
    /// How many of the first ones are known to contain no SOH.
    pub(crate) plain: usize,
    /// The most bytes that a text may have.
    pub(crate) most: usize,
}

/// What the bytes that are held decide. The table then holds the fields of a message.
pub(crate) fn next_step(
    held: &[u8],
    known: Known,
    tags: &DataTags,
    table: &mut FieldTable,
    recall: &mut Recall,
) -> Step
    requires some { 0 < length held.now }
    requires within { known.plain ≤ length held.now }
    requires none { before_soh (take known.plain held.now) ≡ None }
    requires room { known.at + length held.now < 2 ^ 64 }
    requires counts { IfSome known.begun (λ run. run.length ≤ known.at) }
    requires empty { table.old ≡ [] }
    requires recalls { Recalls (held_at known.at held.now) recall.old }
    ensures steps { Steps (fix_texts tags.now known.most) held.now known.at known.begun result }
    ensures fields { HasFields tags.now held.now (step_size result) table.new }
    ensures recalls { Recalls (held_at known.at held.now) recall.new }
{
    match known.begun {
        Some(run) => run_on(held, 0, run),
        None => match judge(held, known, tags, table, recall) {
            Some(Verdict::Says(n)) => Step::Message(n),
            Some(Verdict::Refuses(code)) => {
                let run = Run {
                    code,
                    at: known.at,
                    length: 0,
                };
                run_on(held, 1, run)
            }
            None => Step::More,
        },
    }
}

/// A run of bytes that aren't a message continues with these: the first `front` of them, and then up to a mark.
fn run_on(held: &[u8], front: usize, run: Run) -> Step
    requires within { front ≤ length held.now }
    requires room { run.length + length held.now < 2 ^ 64 }
    ensures steps { RunSteps held.now front run result }
    ensures none { step_size result ≡ None }
{
    match next_mark(&held[front..]) {
        Marked::At(i) => Step::Ends(run.longer(front + i), front + i),
        Marked::NotIn(n) => Step::GoesOn(run.longer(front + n), front + n),
    }
}

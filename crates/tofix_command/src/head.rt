//! The head of texts, as the arguments give it.

ghost use Rattle.std.specs.Prelude.{◌≡◌, IfOk};
ghost use Rattle.tofix_replies.specs.ToFix.{given_head};
ghost use Rattle.tofix_command.specs.Bridges.{head_in, seq_in};

use command_words::HeadWords;
use lists::{NoMem, Text};
use std::alloc::Global;
use tofix_replies::GivenHead;

/// The head that the arguments give.
pub fn given_by(alloc: Global, words: &HeadWords) -> Result<GivenHead, NoMem>
    ensures { IfOk result (λ head. given_head head ≡ head_in words.now) }
{
    Ok(GivenHead {
        begin: Text::from_slice(alloc, words.begin.as_slice())?,
        sender: copied(alloc, &words.sender)?,
        target: copied(alloc, &words.target)?,
        seq: seq_in(words.seq),
        time: copied(alloc, &words.time)?,
    })
}

/// The sequence number of the first text; none if it is 0.
#[tactic(auto, using(crate::proofs::Heads::no_number, crate::proofs::Heads::first_number))]
fn seq_in(seq: u64) -> Option<u64>
    ensures { result ≡ seq_in seq }
{
    if seq == 0 { None } else { Some(seq) }
}

/// The same text, if one is given.
fn copied(alloc: Global, text: &Option<Text>) -> Result<Option<Text>, NoMem>
    ensures { IfOk result (λ copy. copy ≡ text.now) }
{
    match text {
        Some(text) => Ok(Some(Text::from_slice(alloc, text.as_slice())?)),
        None => Ok(None),
    }
}

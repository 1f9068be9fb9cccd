//! Messages that are drawn one after another, and what each adds to the sums.

ghost use Rattle.std.specs.Prelude.{◌≡◌, ◌-◌, ◌<◌, ◌^◌, IfOk, length};
ghost use Rattle.open_framing.specs.declared.head.TheConstants.{HEAD_BYTES};
ghost use Rattle.sbe_wire.specs.Misfit.{misfit};
ghost use Rattle.vectors.specs.Messages.{generated};
ghost use Rattle.selftest_command.specs.Selftest.{AreWithin, IsBoundedTrial, body_sums, drawn_sums, lies_in, message_sums, sums_until};
ghost use Rattle.selftest_command.specs.declared.sums.TheConstants.{MOST_ADDED};

use crate::bytes::sum_frame;
use crate::sums::Sums;
use dump_lines::encoding_of;
use flyweight_view::validate;
use layout_tables::Layout;
use lists::NoMem;
use open_framing::HEAD_BYTES;
use sbe_types::Msg;
use schema_check::Checked;
use std::alloc::Global;
use tree_codec::encode;
use typed_writer::FrameBuf;
use vectors::{alter, generate};

/// Which messages are tried, and in which frames.
#[derive(Clone, Copy, Debug, PartialEq, Eq)]
pub struct Trial {
    /// The seed that they are drawn from.
    pub seed: u64,
    /// The number of messages.
    pub count: u64,
    /// The most bytes of a frame, including its head.
    pub frame: usize,
}

/// The memory that each message in turn is put into.
#[derive(Drop)]
struct TrialSpace {
    /// Its body.
    buffer: FrameBuf,
    /// The same with one byte altered.
    copy: Vec<u8>,
}

/// The sums over all messages of a trial. It holds one message at a time.
pub(crate) fn sum_trial(
    alloc: Global,
    checked: &Checked,
    layout: &Layout,
    trial: Trial,
) -> Result<Sums, NoMem>
    requires layout { layout.now ≡ checked.now }
    requires bounded { IsBoundedTrial trial }
    ensures { IfOk result (λ sums. sums ≡ sums_until checked.now trial trial.count) }
{
    let mut space = TrialSpace {
        buffer: FrameBuf::new(alloc, trial.frame - HEAD_BYTES)?,
        copy: Vec::new(alloc),
    };
    let mut sums = Sums::none();
    for index in 0..trial.count {
        let one = sum_drawn(alloc, checked, layout, trial, index, &mut space)?;
        sums = sums.plus(one);
    }
    Ok(sums)
}

/// What message `index` of a trial adds. A schema without a message has none.
fn sum_drawn(
    alloc: Global,
    checked: &Checked,
    layout: &Layout,
    trial: Trial,
    index: u64,
    space: &mut TrialSpace,
) -> Result<Sums, NoMem>
    requires layout { layout.now ≡ checked.now }
    requires bounded { IsBoundedTrial trial }
    requires room { space.old.buffer.limit ≡ trial.frame - HEAD_BYTES }
    ensures sums { IfOk result (λ sums. sums ≡ drawn_sums checked.now trial index (generated checked.now trial.seed index)) }
    ensures within { IfOk result (λ sums. AreWithin MOST_ADDED sums) }
    ensures limit { space.new.buffer.limit ≡ space.old.buffer.limit }
{
    if checked.messages().is_empty() {
        return Ok(Sums::none());
    }
    let message = generate(alloc, checked, trial.seed, index)?;
    sum_message(layout, index, &message, space)
}

/// What a message adds, depending on whether it can be encoded.
fn sum_message(
    layout: &Layout,
    index: u64,
    message: &Msg,
    space: &mut TrialSpace,
) -> Result<Sums, NoMem>
    requires { space.old.buffer.limit < 2 ^ 24 }
    ensures sums { IfOk result (λ sums. sums ≡ message_sums layout.now index message.now (misfit layout.now message.now space.old.buffer.limit)) }
    ensures within { IfOk result (λ sums. AreWithin MOST_ADDED sums) }
    ensures limit { space.new.buffer.limit ≡ space.old.buffer.limit }
{
    match encode(layout, message, &mut space.buffer) {
        Ok(_) => {
            let _limit = space.buffer.limit();
            sum_body(layout, index, space.buffer.bytes(), &mut space.copy)
        }
        Err(why) => Ok(Sums::of_misfit(why.code)),
    }
}

/// What the frame of a body adds.
fn sum_body(layout: &Layout, index: u64, body: &[u8], copy: &mut Vec<u8>) -> Result<Sums, NoMem>
    requires { length body.now < 2 ^ 24 }
    ensures sums { IfOk result (λ sums. sums ≡ body_sums layout.now index body.now) }
    ensures within { IfOk result (λ sums. AreWithin MOST_ADDED sums) }
{
    copy.clear();
    copy.extend_from_slice(body)?;
    alter(copy.as_mut_slice(), index);
    Ok(Sums {
        frames: 1,
        skipped: 0,
        bytes: (body.len() + HEAD_BYTES) as u64,
        byte_sum: sum_frame(encoding_of(layout.order()), body),
        altered: u64::from(is_message(layout, copy.as_slice())),
    })
}

/// Whether some message lies in a body.
fn is_message(layout: &Layout, body: &[u8]) -> bool
    ensures { result ≡ lies_in layout.now body.now }
{
    let _schema = layout.schema();
    match validate(layout, body) {
        Ok(_) => true,
        Err(_) => false,
    }
}

ghost use Rattle.std.specs.Prelude.{◌≡◌, ◌<◌, ◌≤◌, ◌+◌, [], Err, length, take, ℕ, IfOk, IfErr};
ghost use Rattle.sbe_base.specs.Causes.{HasCause};
ghost use Rattle.frame_stream.specs.Reading.{DryCause, ReadsBehind, ReadsWithin};

use sbe_base::{Failed, Source};

/// Why no byte came.
#[derive(Clone, Copy, Debug, PartialEq, Eq)]
pub enum Dry {
    /// The read failed.
    Fault,
    /// The source has ended.
    End,
    /// There is one byte more than may be taken.
    Over,
}

/// Reads once, to the place after the first `len` bytes of a buffer, and at most `most` bytes. If none may be taken,
/// reads one more byte to see whether the source has ended, and discards it.
pub(crate) fn read_within<I: Source>(
    input: &mut I,
    buf: &mut [u8],
    len: usize,
    most: usize,
) -> Result<usize, Dry>
    requires { len + most ≤ length buf.old }
    ensures size { length buf.new ≡ length buf.old }
    ensures kept { take len buf.new ≡ take len buf.old }
    ensures bound { IfOk result (λ n. n ≤ most) }
    ensures over { IfErr result (λ dry. dry ≡ Dry.Over → most ≡ 0) }
    ensures read { ReadsWithin len (I.state input.old).told (I.state input.new).told buf.new result }
    ensures cause { DryCause (I.state input.old).faults (I.state input.new).faults result }
{
    if most == 0 {
        return Err(read_over(input));
    }
    match read_behind(input, buf, len, most) {
        Ok(0) => Err(Dry::End),
        Ok(n) => Ok(n),
        Err(_) => Err(Dry::Fault),
    }
}

/// Asks for one byte more than may be taken.
fn read_over<I: Source>(input: &mut I) -> Dry
    ensures read { ReadsWithin 0 (I.state input.old).told (I.state input.new).told [] (Err result) }
    ensures cause { DryCause {T = ℕ} (I.state input.old).faults (I.state input.new).faults (Err result) }
{
    let mut next = [0u8; 1];
    match input.read(&mut next) {
        Ok(0) => Dry::End,
        Ok(_) => Dry::Over,
        Err(_) => Dry::Fault,
    }
}

/// Reads to the place after the first bytes of a buffer.
fn read_behind<I: Source>(
    input: &mut I,
    buf: &mut [u8],
    len: usize,
    most: usize,
) -> Result<usize, Failed>
    requires room { len + most ≤ length buf.old }
    requires some { 0 < most }
    ensures size { length buf.new ≡ length buf.old }
    ensures kept { take len buf.new ≡ take len buf.old }
    ensures bound { IfOk result (λ n. n ≤ most) }
    ensures read { ReadsBehind len (I.state input.old).told (I.state input.new).told buf.new result }
    ensures cause { HasCause (I.state input.old).faults (I.state input.new).faults result }
{
    input.read(&mut buf[len..len + most])
}

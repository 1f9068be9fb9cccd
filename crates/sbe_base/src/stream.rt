ghost use Rattle.std.specs.Prelude.{◌≡◌, ◌<◌, ◌≤◌, ℕ, List, [], length, take, IfOk, IsTrue, false};
ghost use Rattle.std.specs.Io.{ReadsAtMost, StartsWith, WritesAtMost};
ghost use Rattle.std.specs.Io.KnownBytes.{Consumes, ReadConsumes, WriteAppends};
ghost use Rattle.sbe_base.specs.Causes.{HasCause};
ghost use Rattle.sbe_base.specs.Objects.{Object};
ghost use Rattle.sbe_base.specs.Writes.{Writes};

use thiserror::Error;

/// A call outside failed. The object's count of faults rose, or is at its largest value.
#[derive(Clone, Copy, Debug, PartialEq, Eq, Drop, Error)]
#[error("the call failed")]
pub struct Failed;

/// A write failed. The sink's count of faults rose, or is at its largest value.
#[derive(Clone, Copy, Debug, PartialEq, Eq, Drop, Error)]
#[error("a write failed")]
pub struct WriteFault;

/// Where bytes come from.
pub trait Source {
    /// The bytes still to come, if it models them, and the count of faults.
    ghost state: { Self → Object (List ℕ) };

    /// The bytes that it has read ahead, which come next.
    ghost read_ahead: { Self → List ℕ } = { λ source. [] };

    /// Reads the next bytes into the front of `buf`, and returns how many. If `buf` isn't empty, 0 is returned only at
    /// the end. After `Failed` nothing was taken.
    fn read(&mut self, buf: &mut [u8]) -> Result<usize, Failed>
        ensures bound { ReadsAtMost result buf.new }
        ensures bytes { ReadConsumes (state self.old).told (state self.new).told result buf.new }
        ensures cause { HasCause (state self.old).faults (state self.new).faults result };

    /// The bytes that it has read ahead, or a prefix of them. Doesn't read.
    fn ahead(&self) -> &[u8]
        ensures { StartsWith (read_ahead self.now) result.now }
    {
        &[]
    }

    /// Skips the first `n` of the bytes that it has read ahead, and returns true. If it has fewer, or can't, skips none
    /// and returns false. Doesn't read.
    fn pass(&mut self, n: usize) -> bool
        ensures bound { IsTrue result → n ≤ length (read_ahead self.old) }
        ensures bytes { IsTrue result → Consumes (state self.old).told (state self.new).told (take n (read_ahead self.old)) }
        ensures stays { result ≡ false → self.new ≡ self.old }
        ensures cause { (state self.new).faults ≡ (state self.old).faults }
    {
        let _none = n;
        false
    }
}

/// Where bytes go.
pub trait Sink {
    /// The bytes written so far, if it models them, and the count of faults.
    ghost state: { Self → Object (List ℕ) };

    /// Appends a prefix of the bytes, and returns its length. If `bytes` isn't empty, it never returns 0. After
    /// `Failed` nothing was appended.
    fn write(&mut self, bytes: &[u8]) -> Result<usize, Failed>
        ensures bound { WritesAtMost result bytes.now }
        ensures some { IfOk result (λ n. 0 < length bytes.now → 0 < n) }
        ensures bytes { WriteAppends (state self.old).told (state self.new).told result bytes.now }
        ensures cause { HasCause (state self.old).faults (state self.new).faults result };
}

/// Appends all bytes. After a fault a prefix of them was appended.
pub fn write_all_to<O: Sink>(sink: &mut O, bytes: &[u8]) -> Result<(), WriteFault>
    ensures { Writes (O.state sink.old) (O.state sink.new) bytes.now result }
{
    let mut done = 0;
    while done < bytes.len() {
        match sink.write(&bytes[done..]) {
            Ok(n) => done += n,
            Err(_) => return Err(WriteFault),
        }
    }
    Ok(())
}

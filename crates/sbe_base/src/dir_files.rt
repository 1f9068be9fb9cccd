ghost use Rattle.std.specs.Prelude.{◌≡◌, ◌≢◌, ◌≤◌, [], length, None, Err, OnOk, IfOk, IfErr};
ghost use Rattle.std.specs.IoError.{error_kind};
ghost use Rattle.sbe_base.specs.Adapters.{WrapsRuntime};
ghost use Rattle.sbe_base.specs.Loads.{LoadsRest};

use crate::retry::read_retried;
use crate::{Files, LoadErr};
use std::alloc::Global;
use std::io::{self, ErrorKind, Read};
use std::{fs, rt};

/// The most bytes that one read asks for.
const PIECE: usize = 4096;

/// The files of the file system, by path, with counts of loads and of failures. It models no contents.
#[derive(Drop)]
pub struct DirFiles<R: rt::Files + Drop> {
    rt: R,
    faults: u64,
    loads: u64,
}

impl<R: rt::Files + Drop> DirFiles<R> {
    /// The files that the runtime reaches.
    pub fn new(rt: R) -> DirFiles<R>
        ensures { WrapsRuntime rt result }
    {
        DirFiles {
            rt,
            faults: 0,
            loads: 0,
        }
    }
}

impl<R: rt::Files + Drop> Files for DirFiles<R> {
    ghost state = { λ files. record { told = None; faults = files.faults } };

    ghost load_count = { λ files. files.loads };

    fn load(
        &mut self,
        _alloc: Global,
        name: &str,
        limit: usize,
        into: &mut Vec<u8>,
    ) -> Result<(), LoadErr> {
        into.clear();
        self.loads = self.loads.saturating_add(1);
        match load_opened(fs::open(&self.rt, name), limit, into) {
            Ok(()) => Ok(()),
            Err(e) => {
                into.clear();
                if e == LoadErr::Failed {
                    self.faults = self.faults.saturating_add(1);
                }
                Err(e)
            }
        }
    }
}

/// Appends the bytes of the opened file to an empty buffer. The file is absent exactly if opening it reported that no
/// file has its name.
fn load_opened<R: Read + Drop>(
    opened: io::Result<R>,
    limit: usize,
    into: &mut Vec<u8>,
) -> Result<(), LoadErr>
    requires { into.old.items ≡ [] }
    ensures within { OnOk result (length into.new.items ≤ limit) }
    ensures whole { IfOk opened (λ file. LoadsRest (R.remaining file) limit result into.new.items) }
    ensures absent { IfErr opened (λ e. error_kind e ≡ ErrorKind.NotFound → result ≡ Err LoadErr.Absent) }
    ensures failed { IfErr opened (λ e. error_kind e ≢ ErrorKind.NotFound → result ≡ Err LoadErr.Failed) }
{
    match opened {
        Ok(mut file) => read_whole(&mut file, limit, into),
        Err(e) if e.kind() == ErrorKind::NotFound => Err(LoadErr::Absent),
        Err(_) => Err(LoadErr::Failed),
    }
}

/// Appends everything the reader has. Fails as too long as soon as one byte more than `limit` arrives.
fn read_whole<R: Read>(reader: &mut R, limit: usize, into: &mut Vec<u8>) -> Result<(), LoadErr>
    requires { into.old.items ≡ [] }
    ensures within { OnOk result (length into.new.items ≤ limit) }
    ensures whole { LoadsRest (R.remaining reader.old) limit result into.new.items }
{
    let mut piece = [0u8; PIECE];
    while into.len() <= limit {
        let most = (limit - into.len()).min(PIECE - 1) + 1;
        let count = match read_retried(reader, &mut piece[..most]) {
            Ok(0) => return Ok(()),
            Ok(count) => count,
            Err(_) => return Err(LoadErr::Failed),
        };
        let Ok(()) = into.extend_from_slice(&piece[..count]) else {
            return Err(LoadErr::Memory);
        };
    }
    Err(LoadErr::TooLong)
}

#[cfg(test)]
mod tests {
    use super::*;
    use std::io;

    /// Gives one byte per read, and fails when none are left.
    #[derive(Drop)]
    struct Torn(u8);

    impl Read for Torn {
        fn read(&mut self, buf: &mut [u8]) -> io::Result<usize> {
            if self.0 == 0 {
                return Err(io::Error::from(io::ErrorKind::UnexpectedEof));
            }
            self.0 -= 1;
            Ok(buf.len().min(1))
        }
    }

    #[test]
    fn a_read_that_fails_in_mid_stream_is_a_failure(rt: HostRuntime) {
        for (limit, answer) in [(9, LoadErr::Failed), (2, LoadErr::TooLong)] {
            let mut into = Vec::new(rt.alloc());
            assert_eq!(rt; read_whole(&mut Torn(3), limit, &mut into), Err(answer));
        }
    }
}

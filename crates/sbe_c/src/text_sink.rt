//! A text that grows.
ghost use Rattle.std.specs.Prelude.{◌≡◌, [], Some};

use sbe_base::{Failed, Sink};
use std::alloc::Global;

/// The bytes that were written. A write fails only if memory runs out.
#[derive(Drop)]
pub struct TextSink {
    /// What was written.
    pub bytes: Vec<u8>,
    /// How many writes failed.
    pub faults: u64,
}

impl TextSink {
    /// A text without bytes.
    pub fn new(alloc: Global) -> TextSink
        ensures { result.bytes.items ≡ [] }
    {
        TextSink {
            bytes: Vec::new(alloc),
            faults: 0,
        }
    }
}

impl Sink for TextSink {
    ghost state = { λ sink. record { told = Some sink.bytes.items; faults = sink.faults } };

    fn write(&mut self, bytes: &[u8]) -> Result<usize, Failed> {
        match self.bytes.extend_from_slice(bytes) {
            Ok(()) => Ok(bytes.len()),
            Err(_) => {
                self.faults = self.faults.saturating_add(1);
                Err(Failed)
            }
        }
    }
}

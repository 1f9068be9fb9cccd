//! The world outside a run: where bytes come from, where they go, and where files are, each with a count of its faults;
//! how a run ended, and how much it accepts.
#![tactic(auto)]

mod adapters;
mod calls;
mod dir_files;
mod files;
mod mem_files;
mod memory;
mod retry;
mod shared;
mod status;
mod stream;

pub use adapters::{BufferedSource, StdSink, StdSource};
pub use dir_files::DirFiles;
pub use files::{Files, LoadErr};
pub use lists::NoMem;
pub use mem_files::MemFiles;
pub use memory::{MemSink, MemSource};
pub use retry::{read_retried, write_retried};
pub use shared::{FlushFirst, SharedWriter, settled};
pub use status::{Limits, Status};
pub use stream::{Failed, Sink, Source, WriteFault, write_all_to};

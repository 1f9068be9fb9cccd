ghost use Rattle.std.specs.Prelude.{◌≡◌};
ghost use Rattle.sbe_base.specs.Status.{code_of};

/// How a run ended.
#[derive(Clone, Copy, Debug, PartialEq, Eq)]
pub enum Status {
    /// All items were answered.
    Done,
    /// All items were answered, and some were refused.
    SomeRefused,
    /// The arguments aren't a command.
    Usage,
    /// A schema was refused.
    SchemaRefused,
    /// A mapping was refused.
    MapRefused,
    /// The input is not a sequence of whole frames or lines.
    FramingRefused,
    /// Loading files failed.
    FileFault,
    /// Reading the input failed.
    ReadFault,
    /// Writing an output failed.
    WriteFault,
    /// Out of memory.
    NoMemory,
    /// The input has more bytes than the limit.
    InputLimit,
    /// A file named in the arguments is absent.
    NoFile,
}

impl Status {
    /// Its exit code, from 0 to 11.
    pub fn code(&self) -> u8
        ensures { result ≡ code_of self.now }
    {
        *self as u8
    }
}

/// How much a run accepts.
#[derive(Clone, Copy, Debug, PartialEq, Eq)]
pub struct Limits {
    /// The most bytes of one frame, its head included.
    pub frame: usize,
    /// The most bytes of the whole input.
    pub input: u64,
}

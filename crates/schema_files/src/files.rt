ghost use Rattle.std.specs.Prelude.{◌≡◌};
ghost use Rattle.schema_files.specs.Files.{stop_of};

use json_elements::Cause;
use lists::Text;
use map_types::MCode;
use schema_check::CCode;

/// What a file in the arguments is used for.
#[derive(Clone, Copy, Debug, PartialEq, Eq)]
pub enum FileRole {
    /// The schema.
    Schema,
    /// A further schema, counted from 1.
    Also(usize),
    /// The older of two schemas.
    Old,
    /// The newer of two schemas.
    New,
    /// The mapping.
    Map,
    /// The schema of the messages that are read.
    From,
    /// The schema of those that are written.
    To,
}

/// Why a file isn't accepted.
#[derive(Debug, Drop)]
pub enum FileRefusal {
    /// No file has this name.
    Absent,
    /// It exceeds its size limit.
    TooLong,
    /// It doesn't hold a schema: why, and where, as a JSON pointer.
    Unread(Cause, Text),
    /// Its schema is refused: the rule that is broken, and the path of the element that breaks it.
    Broken(CCode, Text),
    /// An earlier schema has the same id as its schema.
    SameId,
    /// Its messages begin differently from those of the first schema.
    FormDiffers,
    /// It doesn't hold a mapping, or holds one that breaks a rule: why, and where.
    NoMap(MCode, Text),
    /// Of its schema and that of the messages that are read the later doesn't extend the earlier one: the path of the first difference.
    NotAnExtension(Text),
}

/// A file that isn't accepted.
#[derive(Debug, Drop)]
pub struct RefusedFile {
    pub role: FileRole,
    pub why: FileRefusal,
}

/// Why the schema of a file couldn't be loaded.
#[derive(Debug, Drop)]
pub enum LoadStop {
    Refused(FileRefusal),
    /// Loading files failed.
    Fault,
    NoMemory,
}

/// Why a command couldn't be prepared.
#[derive(Debug, Drop)]
pub enum JobStop {
    Refused(RefusedFile),
    /// Loading this file failed.
    Fault(FileRole),
    NoMemory,
}

impl LoadStop {
    /// The same for the file in this role.
    pub fn of(self, role: FileRole) -> JobStop
        ensures { result ≡ stop_of role self }
    {
        match self {
            LoadStop::Refused(why) => JobStop::Refused(RefusedFile { role, why }),
            LoadStop::Fault => JobStop::Fault(role),
            LoadStop::NoMemory => JobStop::NoMemory,
        }
    }
}

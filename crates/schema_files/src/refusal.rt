//! How a refused file is noted.

ghost use Rattle.std.specs.Prelude.{◌≡◌};
ghost use Rattle.printers.specs.Prints.{Prints};
ghost use Rattle.schema_files.specs.Refusals.{cause_code, map_code, rule_code, refused_file, refusal_line, refusal_status, role_name, why_line};
ghost use Rattle.schema_files.specs.declared.files.FileRefusal.TheVariants as file;

use crate::files::{FileRefusal, FileRole, RefusedFile};
use json_elements::Cause;
use json_values::{put_count, put_text};
use map_types::MCode;
use printers::Printer;
use sbe_base::{Sink, Status};
use schema_check::CCode;

/// The status of a run that ends at a refused file.
pub fn refusal_status(refusal: &FileRefusal) -> Status
    ensures { result ≡ refusal_status refusal.now }
{
    match refusal {
        FileRefusal::Absent => Status::NoFile,
        FileRefusal::TooLong
        | FileRefusal::Unread(_, _)
        | FileRefusal::Broken(_, _)
        | FileRefusal::SameId
        | FileRefusal::FormDiffers
        | FileRefusal::NotAnExtension(_) => Status::SchemaRefused,
        FileRefusal::NoMap(_, _) => Status::MapRefused,
    }
}

/// Prints the line that notes a refused file.
pub fn put_refusal<N: Sink>(printer: &mut Printer<'_, N>, file: &RefusedFile)
    ensures { Prints N.state printer.old printer.new (refusal_line file.now) }
{
    let role = file.role;
    match &file.why {
        FileRefusal::Absent => put_absent(printer, role),
        FileRefusal::TooLong => put_refused(printer, role, "S06", &[]),
        FileRefusal::Unread(cause, path) => {
            put_refused(printer, role, cause_code(*cause), path.as_slice())
        }
        FileRefusal::Broken(rule, path) => {
            put_refused(printer, role, rule_code(*rule), path.as_slice())
        }
        FileRefusal::SameId => put_refused(printer, role, "X01", &[]),
        FileRefusal::FormDiffers => put_refused(printer, role, "X02", &[]),
        FileRefusal::NoMap(code, path) => {
            put_refused(printer, role, map_code(*code), path.as_slice())
        }
        FileRefusal::NotAnExtension(path) => put_refused(printer, role, "G01", path.as_slice()),
    }
}

/// Prints the name of a file's role.
pub fn put_role<N: Sink>(printer: &mut Printer<'_, N>, role: FileRole)
    ensures { Prints N.state printer.old printer.new (role_name role) }
{
    match role {
        FileRole::Schema => printer.put(b"schema"),
        FileRole::Also(number) => {
            printer.put(b"also");
            put_count(printer, number as u64);
        }
        FileRole::Old => printer.put(b"old"),
        FileRole::New => printer.put(b"new"),
        FileRole::Map => printer.put(b"map"),
        FileRole::From => printer.put(b"from"),
        FileRole::To => printer.put(b"to"),
    }
}

fn put_absent<N: Sink>(printer: &mut Printer<'_, N>, role: FileRole)
    ensures { Prints N.state printer.old printer.new (why_line role file.Absent) }
{
    printer.put(b"{\"absent\":\"");
    put_role(printer, role);
    printer.put(b"\"}\n");
}

fn put_refused<N: Sink>(printer: &mut Printer<'_, N>, role: FileRole, code: &str, path: &[u8])
    ensures { Prints N.state printer.old printer.new (refused_file role code.now path.now) }
{
    printer.put(b"{\"file\":\"");
    put_role(printer, role);
    printer.put(b"\",\"refused\":\"");
    printer.put(code.as_bytes());
    printer.put(b"\",\"path\":");
    put_text(printer, path);
    printer.put(b"}\n");
}

/// The code of why a file doesn't hold a schema.
fn cause_code(cause: Cause) -> &'static str
    ensures { result.now ≡ cause_code cause }
{
    match cause {
        Cause::Xml => "S01",
        Cause::NotJson => "S02",
        Cause::Shape => "S03",
        Cause::Missing => "S04",
        Cause::BadAttribute => "S05",
        Cause::Limit => "S06",
    }
}

/// The code of why a file doesn't hold a mapping.
fn map_code(code: MCode) -> &'static str
    ensures { result.now ≡ map_code code }
{
    match code {
        MCode::Xml => "M01",
        MCode::NotJson => "M02",
        MCode::Shape => "M03",
        MCode::BadAttribute => "M04",
        MCode::UnknownReference => "M05",
        MCode::Duplicate => "M06",
        MCode::Cycle => "M07",
        MCode::AmbiguousTag => "M08",
        MCode::Datatype => "M09",
        MCode::Limit => "M10",
    }
}

/// The code of a rule that a schema breaks.
fn rule_code(rule: CCode) -> &'static str
    ensures { result.now ≡ rule_code rule }
{
    match rule {
        CCode::DuplicateType => "C01",
        CCode::UnknownType => "C02",
        CCode::Float => "C03",
        CCode::Cycle => "C04",
        CCode::BadEncoding => "C05",
        CCode::BadNumber => "C06",
        CCode::DuplicateValue => "C07",
        CCode::Offset => "C08",
        CCode::BlockShort => "C09",
        CCode::BadHeader => "C10",
        CCode::BadDimension => "C11",
        CCode::BadData => "C12",
        CCode::DuplicateName => "C13",
        CCode::Order => "C14",
        CCode::Since => "C15",
        CCode::EmptyGroup => "C16",
        CCode::Depth => "C17",
        CCode::Width => "C18",
        CCode::Presence => "C19",
    }
}

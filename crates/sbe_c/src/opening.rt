//! Opens the schema of a file.
ghost use Rattle.std.specs.Prelude.{◌≡◌, Ok, IfOk, IfErr, length};
ghost use Rattle.schema_files.specs.FileChecks.{schema_in};
ghost use Rattle.sbe_c.specs.declared.opening.OpenErr.TheVariants.{Memory};
ghost use Rattle.sbe_c.specs.Filling.{filled};
ghost use Rattle.sbe_c.specs.Opening.{IsOpened, IsNotOpened, AnswersOpen};
ghost use Rattle.sbe_c.specs.Outcomes.{outcome};

use crate::answers::{Answer, Report, cause_number, rule_number};
use crate::filling::fill;
use crate::handle::Handle;
use crate::opened::Opened;
use json_elements::Cause;
use lists::{NoMem, Text};
use sbe_schema::{SchemaErr, read_schema};
use schema_check::{CCode, CheckErr, Checked, check};
use std::alloc::Global;

/// Why a schema isn't opened.
#[derive(Drop)]
pub enum OpenErr {
    /// The bytes don't hold the elements of a schema: why, and where.
    File(Cause, Text),
    /// The schema breaks a rule: which, and the path of the element.
    Rule(CCode, Text),
    /// Out of memory.
    Memory,
}

/// Opens the schema of a file: its elements are read, its rules are checked, and each part gets its offset.
///
/// # Errors
///
/// `File` and `Rule` carry the first fault, with its place.
pub fn open(alloc: Global, file: &[u8]) -> Result<Box<Opened>, OpenErr>
    ensures opened { IfOk result (λ opened. IsOpened file.now opened.value) }
    ensures refused { IfErr result (IsNotOpened file.now) }
{
    let checked = match read_checked(alloc, file) {
        Ok(checked) => checked,
        Err(e) => return Err(e),
    };
    match Opened::new(alloc, checked) {
        Ok(opened) => boxed(alloc, opened),
        Err(NoMem) => Err(OpenErr::Memory),
    }
}

/// The schema that the bytes of a file hold, checked.
fn read_checked(alloc: Global, file: &[u8]) -> Result<Checked, OpenErr>
    ensures checked { IfOk result (λ checked. schema_in file.now ≡ Ok checked) }
    ensures refused { IfErr result (IsNotOpened file.now) }
{
    match read_schema(alloc, file) {
        Ok(schema) => match check(alloc, schema) {
            Ok(checked) => Ok(checked),
            Err(CheckErr::Refused(rule, path)) => Err(OpenErr::Rule(rule, path)),
            Err(CheckErr::Memory) => Err(OpenErr::Memory),
        },
        Err(SchemaErr::Refused(cause, path)) => Err(OpenErr::File(cause, path)),
        Err(SchemaErr::Memory) => Err(OpenErr::Memory),
    }
}

/// Puts an opened schema on the heap.
fn boxed(alloc: Global, opened: Opened) -> Result<Box<Opened>, OpenErr>
    ensures opened { IfOk result (λ b. b.value ≡ opened) }
    ensures memory { IfErr result (λ e. e ≡ Memory) }
{
    match Box::new(alloc, opened) {
        Ok(opened) => Ok(opened),
        Err(_) => Err(OpenErr::Memory),
    }
}

/// Opens the schema of a file in a handle, or reports why not. A handle that isn't opened is closed.
pub fn open_in(
    alloc: Global,
    handle: &mut Handle,
    file: &[u8],
    path: &mut [u8],
    report: &mut Report,
) -> Answer
    ensures { AnswersOpen result file.now handle.new.opened (outcome path.old path.new report.new) }
{
    drop(handle.take(alloc));
    match open(alloc, file) {
        Ok(opened) => {
            handle.put(opened);
            Answer::Done
        }
        Err(OpenErr::File(cause, place)) => {
            tell(path, report, cause_number(cause), place.as_slice());
            Answer::File
        }
        Err(OpenErr::Rule(rule, place)) => {
            tell(path, report, rule_number(rule), place.as_slice());
            Answer::Rule
        }
        Err(OpenErr::Memory) => Answer::Memory,
    }
}

/// Reports the number of a code, and a path.
pub fn tell(buffer: &mut [u8], report: &mut Report, code: u32, path: &[u8])
    ensures text { buffer.new ≡ filled path.now buffer.old }
    ensures code { report.new.code ≡ code }
    ensures length { report.new.length ≡ length path.now }
{
    fill(buffer, path);
    report.code = code;
    report.length = path.len();
}

//! The exports. `sbe.h` says for each what C may pass, and what it gets back.
ghost use Rattle.std.specs.Prelude.{◌≡◌, None};
ghost use Rattle.field_lookup.specs.Places.{message_data, message_text, spot_at};
ghost use Rattle.sbe_c.specs.Exports.{Opens, Dumps, Finds, Reads, Validates, Builds, Names, Numbers, States, Texts};
ghost use Rattle.sbe_c.specs.Outcomes.{numbers_outcome, outcome};

use crate::answers::{Answer, Report};
use crate::building::build_in;
use crate::dumping::dump_in;
use crate::fields::{data_in, number_in, state_in, text_in};
use crate::handle::Handle;
use crate::names::part_in;
use crate::opening::open_in;
use crate::reading::{Number, find_in, numbers_in};
use crate::validating::{Message, validate_in};
use field_lookup::{EntryField, EntryNames, FieldPlace, Part, Step};
use std::alloc::Global;

/// Opens the schema of a file. What the handle owned before is freed.
#[unsafe(no_mangle)]
pub extern "C" fn sbe_open(
    alloc: Global,
    schema: &mut Handle,
    file: &[u8],
    path: &mut [u8],
    report: &mut Report,
) -> u32
    ensures { Opens result file.now schema.new.opened (outcome path.old path.new report.new) }
{
    open_in(alloc, schema, file, path, report).code()
}

/// Closes a schema, and frees what it owns.
#[unsafe(no_mangle)]
pub extern "C" fn sbe_close(alloc: Global, schema: &mut Handle)
    ensures { schema.new.opened ≡ None }
{
    drop(schema.take(alloc));
}

/// Writes the line of the message that lies in a body into a buffer.
#[unsafe(no_mangle)]
pub extern "C" fn sbe_dump(
    alloc: Global,
    schema: &mut Handle,
    body: &[u8],
    line: &mut [u8],
    report: &mut Report,
) -> u32
    ensures kept { schema.new.opened ≡ schema.old.opened }
    ensures dumps { Dumps result schema.old.opened body.now (outcome line.old line.new report.new) }
{
    match schema.take(alloc) {
        Some(opened) => {
            let answer = dump_in(alloc, &opened, body, line, report);
            schema.put(opened);
            answer.code()
        }
        None => Answer::Closed.code(),
    }
}

/// Finds a field of the entries of a group by its names.
#[unsafe(no_mangle)]
pub extern "C" fn sbe_find(
    alloc: Global,
    schema: &mut Handle,
    template: &[u8],
    group: &[u8],
    field: &[u8],
    place: &mut EntryField,
) -> u32
    ensures kept { schema.new.opened ≡ schema.old.opened }
    ensures finds { Finds result schema.old.opened (record { template = template.entry; group = group.entry; field = field.entry }) place.new }
{
    match schema.take(alloc) {
        Some(opened) => {
            let names = EntryNames {
                template,
                group,
                field,
            };
            let answer = find_in(alloc, &opened, &names, place);
            schema.put(opened);
            answer.code()
        }
        None => Answer::Closed.code(),
    }
}

/// Writes the numbers of a field of a group's entries, in the message that lies in a body, into a buffer.
#[unsafe(no_mangle)]
pub extern "C" fn sbe_numbers(
    alloc: Global,
    schema: &mut Handle,
    body: &[u8],
    place: &EntryField,
    numbers: &mut [Number],
    report: &mut Report,
) -> u32
    ensures kept { schema.new.opened ≡ schema.old.opened }
    ensures reads { Reads result schema.old.opened body.now place.now (numbers_outcome numbers.old numbers.new report.new) }
{
    match schema.take(alloc) {
        Some(opened) => {
            let answer = numbers_in(alloc, &opened, body, *place, numbers, report);
            schema.put(opened);
            answer.code()
        }
        None => Answer::Closed.code(),
    }
}

/// Reports the message that lies in a body, or its first fault.
#[unsafe(no_mangle)]
pub extern "C" fn sbe_validate(
    alloc: Global,
    schema: &mut Handle,
    body: &[u8],
    message: &mut Message,
    path: &mut [u8],
    report: &mut Report,
) -> u32
    ensures kept { schema.new.opened ≡ schema.old.opened }
    ensures validates { Validates result schema.old.opened body.now message.new (outcome path.old path.new report.new) }
{
    match schema.take(alloc) {
        Some(opened) => {
            let answer = validate_in(alloc, &opened, body, message, path, report);
            schema.put(opened);
            answer.code()
        }
        None => Answer::Closed.code(),
    }
}

/// Writes the canonical body of the message that a line holds into a buffer.
#[unsafe(no_mangle)]
pub extern "C" fn sbe_build(
    alloc: Global,
    schema: &mut Handle,
    line: &[u8],
    body: &mut [u8],
    path: &mut [u8],
    report: &mut Report,
) -> u32
    ensures kept { schema.new.opened ≡ schema.old.opened }
    ensures builds { Builds result schema.old.opened line.now (outcome body.old body.new report.new) (outcome path.old path.new report.new) }
{
    match schema.take(alloc) {
        Some(opened) => {
            let answer = build_in(alloc, &opened, line, body, path, report);
            schema.put(opened);
            answer.code()
        }
        None => Answer::Closed.code(),
    }
}

/// Finds a message, or a field, a group or data of a level, by its name.
#[unsafe(no_mangle)]
pub extern "C" fn sbe_find_part(
    alloc: Global,
    schema: &mut Handle,
    sort: u32,
    level: usize,
    name: &[u8],
    part: &mut Part,
) -> u32
    ensures kept { schema.new.opened ≡ schema.old.opened }
    ensures names { Names result schema.old.opened (record { sort = sort; level = level; name = name.now }) part.new }
{
    match schema.take(alloc) {
        Some(opened) => {
            let answer = part_in(alloc, &opened, sort, level, name, part);
            schema.put(opened);
            answer.code()
        }
        None => Answer::Closed.code(),
    }
}

/// Reads the number of a field in the message that lies in a body.
#[unsafe(no_mangle)]
pub extern "C" fn sbe_number_at(
    alloc: Global,
    schema: &mut Handle,
    body: &[u8],
    steps: &[Step],
    field: &FieldPlace,
    number: &mut Number,
    report: &mut Report,
) -> u32
    ensures kept { schema.new.opened ≡ schema.old.opened }
    ensures numbers { Numbers result schema.old.opened body.now (spot_at steps.now field.now) (number.new, report.new) }
{
    match schema.take(alloc) {
        Some(opened) => {
            let answer = number_in(&opened, body, steps, *field, number, report);
            schema.put(opened);
            answer.code()
        }
        None => Answer::Closed.code(),
    }
}

/// Reports the state of a field in the message that lies in a body.
#[unsafe(no_mangle)]
pub extern "C" fn sbe_state_at(
    alloc: Global,
    schema: &mut Handle,
    body: &[u8],
    steps: &[Step],
    field: &FieldPlace,
    report: &mut Report,
) -> u32
    ensures kept { schema.new.opened ≡ schema.old.opened }
    ensures states { States result schema.old.opened body.now (spot_at steps.now field.now) report.new }
{
    match schema.take(alloc) {
        Some(opened) => {
            let answer = state_in(&opened, body, steps, *field, report);
            schema.put(opened);
            answer.code()
        }
        None => Answer::Closed.code(),
    }
}

/// Writes the text of a field in the message that lies in a body into a buffer.
#[unsafe(no_mangle)]
pub extern "C" fn sbe_text_at(
    alloc: Global,
    schema: &mut Handle,
    body: &[u8],
    steps: &[Step],
    field: &FieldPlace,
    text: &mut [u8],
    report: &mut Report,
) -> u32
    ensures kept { schema.new.opened ≡ schema.old.opened }
    ensures texts { Texts (message_text (spot_at steps.now field.now)) result schema.old.opened body.now (outcome text.old text.new report.new) }
{
    match schema.take(alloc) {
        Some(opened) => {
            let answer = text_in(&opened, body, steps, *field, text, report);
            schema.put(opened);
            answer.code()
        }
        None => Answer::Closed.code(),
    }
}

/// Writes the bytes of a data part in the message that lies in a body into a buffer.
#[unsafe(no_mangle)]
pub extern "C" fn sbe_data_at(
    alloc: Global,
    schema: &mut Handle,
    body: &[u8],
    steps: &[Step],
    part: usize,
    bytes: &mut [u8],
    report: &mut Report,
) -> u32
    ensures kept { schema.new.opened ≡ schema.old.opened }
    ensures texts { Texts (message_data steps.now part) result schema.old.opened body.now (outcome bytes.old bytes.new report.new) }
{
    match schema.take(alloc) {
        Some(opened) => {
            let answer = data_in(&opened, body, steps, part, bytes, report);
            schema.put(opened);
            answer.code()
        }
        None => Answer::Closed.code(),
    }
}

// Templates that are the same in two versions of a schema.
ghost use Rattle.std.specs.Prelude.{◌≡◌, ◌<◌, length, take, Some, IfOk, IfSome};
ghost use Rattle.std.specs.List.{All};
ghost use Rattle.typed_writer.specs.Steps.{header_in};
ghost use Rattle.version_copies.specs.Copies.{IsSame, IsTwin};

use crate::levels::is_same_level;
use layout_tables::Layout;
use lists::{Bytes, List, NoMem};
use std::alloc::Global;
use typed_writer::FrameBuf;

/// A template of a schema, with the header of its messages in another version if it is the same there.
#[derive(Drop)]
pub struct Twin {
    pub template: usize,
    pub header: Option<Bytes>,
}

impl Twin {
    /// The header of the messages of this template, if it has one.
    pub(crate) fn header_of(&self, template: usize) -> Option<&[u8]>
        ensures { IfSome result (λ header. (self.now.template ≡ template) × (self.now.header ≡ Some header.now)) }
    {
        if self.template != template {
            return None;
        }
        match &self.header {
            Some(header) => Some(header.as_slice()),
            None => None,
        }
    }
}

/// A twin for each template of `from`, in order.
///
/// # Errors
///
/// If memory runs out.
pub fn twins_of(alloc: Global, from: &Layout, to: &Layout) -> Result<List<Twin>, NoMem>
    ensures { IfOk result (λ twins. All (IsTwin from.now to.now) twins) }
{
    let mut twins = List::new(alloc);
    for template in 0..from.templates() {
        twins.push(twin_of(alloc, from, to, template)?)?;
    }
    Ok(twins)
}

/// The twin of one template.
fn twin_of(alloc: Global, from: &Layout, to: &Layout, template: usize) -> Result<Twin, NoMem>
    requires { template < length from.now.messages }
    ensures { IfOk result (λ twin. IsTwin from.now to.now twin) }
{
    let header = match same_in(from, to, template) {
        Some(place) => header_of(alloc, to, place)?,
        None => None,
    };
    Ok(Twin { template, header })
}

/// The number that a template has in the other version, if it is the same there.
fn same_in(from: &Layout, to: &Layout, template: usize) -> Option<usize>
    requires { template < length from.now.messages }
    ensures same { IfSome result (λ place. IsSame from.now to.now template place) }
    ensures within { IfSome result (λ place. place < length to.now.messages) }
{
    if from.order() != to.order() {
        return None;
    }
    let level = from.message(template);
    let place = to.template(level.id)?;
    if !is_same_level(level, to.message(place)) {
        return None;
    }
    Some(place)
}

/// The header of a template's messages, if it can be written.
fn header_of(alloc: Global, to: &Layout, place: usize) -> Result<Option<Bytes>, NoMem>
    requires { place < length to.now.messages }
    ensures { IfOk result (λ header. IfSome header (λ bytes. header_in to.now place ≡ Some bytes)) }
{
    let _schema = to.schema();
    let wide = to.header_row().width as usize;
    let mut buffer = FrameBuf::new(alloc, wide + to.message(place).block_length as usize)?;
    match buffer.begin(to, place) {
        Ok(fields) => front_of(alloc, fields.buf.bytes(), wide),
        Err(_) => Ok(None),
    }
}

/// The first bytes of a body.
fn front_of(alloc: Global, bytes: &[u8], wide: usize) -> Result<Option<Bytes>, NoMem>
    ensures { IfOk result (λ front. IfSome front (λ b. b ≡ take wide bytes.now)) }
{
    if bytes.len() < wide {
        return Ok(None);
    }
    Ok(Some(List::from_slice(alloc, &bytes[..wide])?))
}

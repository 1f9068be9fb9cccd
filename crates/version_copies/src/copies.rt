// The copy of a body.
ghost use Rattle.std.specs.Prelude.{◌≡◌, ◌≤◌, true, length, IfSome};
ghost use Rattle.std.specs.List.{All};
ghost use Rattle.byte_digits.specs.Digits.{IsBytes};
ghost use Rattle.sbe_types.specs.declared.schema.WireSchema.{WireSchema};
ghost use Rattle.schema_facts.specs.IsChecked.{IsChecked};
ghost use Rattle.version_copies.specs.Copies.{IsCopied, IsTwin, copy_bytes};

use crate::twins::Twin;
use clean_walk::is_clean_body;
use flyweight_view::{LastRefusal, look};
use layout_tables::Layout;

/// The items of a byte slice are bytes.
fn are_bytes(bytes: &[u8])
    ensures { IsBytes bytes.now }
{}

/// A body in another version: a header, and the bytes after the header that it replaces.
#[derive(Clone, Copy)]
pub struct Copied<'a> {
    pub header: &'a [u8],
    pub rest: &'a [u8],
}

impl Copied<'_> {
    /// Whether it has at most `limit` bytes.
    pub fn is_within(&self, limit: usize) -> bool
        ensures { result ≡ true → length (copy_bytes self.now) ≤ limit }
    {
        let rest = self.rest.len();
        rest <= limit && self.header.len() <= limit - rest
    }
}

/// The copy of a body, if it is the canonical one of a message of the schema's own version and the message's template is the same
/// in the other version. `None` is inconclusive: the message may be rewritten to the same bytes. Allocates nothing.
pub fn copy_of<'a>(
    from: &Layout,
    twins: &'a [Twin],
    body: &'a [u8],
    last: &mut LastRefusal,
) -> Option<Copied<'a>>
    ensures { (to : WireSchema) → IsChecked to → All (IsTwin from.now to) twins.now
        → IfSome result (λ copy. IsCopied from.now to body.now (copy_bytes copy)) }
{
    are_bytes(body);
    let _schema = from.schema();
    let view = look(from, body, last)?;
    let template = view.template();
    if view.version() != from.version() || template >= twins.len() {
        return None;
    }
    let header = twins[template].header_of(template)?;
    if !is_clean_body(from, template, body) {
        return None;
    }
    let wide = from.header_row().width as usize;
    if body.len() < wide {
        return None;
    }
    Some(Copied {
        header,
        rest: &body[wide..],
    })
}

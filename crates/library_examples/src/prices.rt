// The prices of a feed, found by their names.
ghost use Rattle.std.specs.Prelude.{◌≡◌, IfOk, IfErr};
ghost use Rattle.sbe_wire.specs.Faults.{FirstFault};
ghost use Rattle.body_walk.specs.Refusals.{refused};
ghost use Rattle.library_examples.specs.Prices.{last_price, mantissa_at, price_in, IsLastPrice};

use field_lookup::{EntryField, composite_of, number_of};
use flyweight_view::{BlockView, EntriesView, MsgView, Refusal, validate};
use layout_tables::Layout;

/// The last price in the message that lies in a body: the mantissa of the last entry that has one. A message of another
/// template has none. Allocates nothing.
///
/// # Errors
///
/// A `Refusal` exactly if no message of the schema lies in the body.
pub fn last_price(layout: &Layout, price: EntryField, body: &[u8]) -> Result<Option<i128>, Refusal>
    ensures price { IfOk result (IsLastPrice layout.now body.now price) }
    ensures refused { IfErr result (λ r. FirstFault layout.now (refused r) body.now) }
{
    match validate(layout, body) {
        Ok(view) => Ok(price_in(&view, price)),
        Err(refusal) => Err(refusal),
    }
}

/// The last price in a message.
fn price_in(view: &MsgView<'_>, price: EntryField) -> Option<i128>
    ensures { result ≡ price_in price view.now }
{
    if view.template() != price.template {
        return None;
    }
    let root = view.root();
    if price.group >= root.counts().1 {
        return None;
    }
    match root.group(price.group) {
        Some(entries) => last_over(entries, price.field),
        None => None,
    }
}

/// The last price of entries.
fn last_over(entries: EntriesView<'_>, price: usize) -> Option<i128>
    ensures { result ≡ last_price price entries.entry }
{
    let mut last = None;
    for entry in entries {
        if let Some(mantissa) = mantissa_of(&entry, price) {
            last = Some(mantissa);
        }
    }
    last
}

/// The mantissa of a price, which is the first member of a composite.
fn mantissa_of(entry: &BlockView<'_>, price: usize) -> Option<i128>
    ensures { result ≡ mantissa_at price entry.now }
{
    if price >= entry.counts().0 {
        return None;
    }
    match composite_of(entry, price) {
        Some(members) => number_of(&members, 0),
        None => None,
    }
}

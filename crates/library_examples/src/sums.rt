// The sum of a field over the entries of a group.
ghost use Rattle.std.specs.Prelude.{◌≡◌, unwrap_or, pos, IfOk, IfErr, IfSome, IfNone};
ghost use Rattle.field_lookup.specs.Values.{group_entries, number_at};
ghost use Rattle.library_examples.specs.Sums.{group_sum, sum_at, IsNoSum, IsSum, PassesRange};

use field_lookup::number_of;
use flyweight_view::{BlockView, EntriesView, Refusal, validate};
use layout_tables::Layout;

/// Why there is no sum.
#[derive(Drop)]
pub enum SumErr {
    /// No message of the schema lies in the body.
    Refused(Refusal),
    /// The sum doesn't fit 128 bits.
    Over,
}

/// The sum of field `field` over the entries of group `group` of the message that lies in a body. Both numbers count
/// from 0. An entry without a number there counts as 0, and so does a message without the group. Allocates nothing.
///
/// # Errors
///
/// `Refused` exactly if no message of the schema lies in the body. `Over` only if the sum of the numbers of some of the
/// first entries doesn't fit 128 bits.
pub fn sum_entries(layout: &Layout, body: &[u8], group: usize, field: usize) -> Result<i128, SumErr>
    ensures sum { IfOk result (IsSum layout.now body.now group field) }
    ensures refused { IfErr result (IsNoSum layout.now body.now group field) }
{
    match validate(layout, body) {
        Ok(view) => match sum_group(&view.root(), group, field) {
            Some(sum) => Ok(sum),
            None => Err(SumErr::Over),
        },
        Err(refusal) => Err(SumErr::Refused(refusal)),
    }
}

/// The sum over the entries of a block's group.
fn sum_group(root: &BlockView<'_>, group: usize, field: usize) -> Option<i128>
    ensures sum { IfSome result (λ sum. sum ≡ group_sum group field root.now) }
    ensures over { IfNone result (PassesRange field (group_entries group root.now)) }
{
    if group >= root.counts().1 {
        return Some(0);
    }
    match root.group(group) {
        Some(entries) => sum_over(entries, field),
        None => Some(0),
    }
}

/// The sum over entries.
fn sum_over(entries: EntriesView<'_>, field: usize) -> Option<i128>
    ensures sum { IfSome result (λ sum. sum ≡ sum_at field entries.entry) }
    ensures over { IfNone result (PassesRange field entries.entry) }
{
    let mut sum: i128 = 0;
    for entry in entries {
        sum = sum.checked_add(number_or_zero(&entry, field))?;
    }
    Some(sum)
}

/// The number of a field, or 0 if it has none.
fn number_or_zero(block: &BlockView<'_>, i: usize) -> i128
    ensures { result ≡ unwrap_or (number_at i block.now) (pos 0) }
{
    number_of(block, i).unwrap_or(0)
}

ghost use Rattle.std.specs.Prelude.{◌≡◌, ℕ, true};
ghost use Rattle.tagvalue_codec.specs.Fields.{IsTag};
ghost use Rattle.bridge_terms.specs.Parts.{TagLists};
ghost use Rattle.bridge_terms.specs.Plans.{Plan, all_tags, is_in};
ghost use Rattle.message_walk.specs.Rows.{AreRows};
ghost use Rattle.exact_plans.specs.Rows.{AreTagged};

use message_walk::{Lead, PlanRow, PutValue};

/// Establishes that each tag of a plan has one to nine digits: it reads the bytes that the fields of its rows begin with.
pub fn are_tagged<R: PutValue>(rows: &[PlanRow<R>])
    ensures { (lists : TagLists) (p : Plan) → AreRows R.spells lists p rows.now → (tag : ℕ) → is_in tag (all_tags p) ≡ true → IsTag tag }
{
    read_leads(rows);
}

/// Reads the beginnings of fields of rows.
fn read_leads<R: PutValue>(rows: &[PlanRow<R>])
    ensures { AreTagged rows.now }
{
    for row in rows {
        read_lead(&row.lead);
    }
}

/// Reads the beginning of a field.
fn read_lead(lead: &Lead)
    ensures { IsTag lead.now }
{
    let _tag = lead.tag();
    let _bytes = lead.array();
}

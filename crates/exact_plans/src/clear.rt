ghost use Rattle.std.specs.Prelude.{◌≡◌, List};
ghost use Rattle.sbe_types.specs.declared.schema.DataField.{DataField};
ghost use Rattle.sbe_types.specs.declared.schema.Field.{Field};
ghost use Rattle.sbe_types.specs.declared.schema.Group.{Group};
ghost use Rattle.bridge_terms.specs.Parts.{TagLists};
ghost use Rattle.bridge_terms.specs.Plans.{Plan};
ghost use Rattle.message_walk.specs.Rows.{AreRows, Fits};
ghost use Rattle.same_texts.specs.Same.{IsClear};
ghost use Rattle.exact_plans.specs.Rows.{AreSmall, IsSmall};

use message_walk::{Part, PlanRow, PutValue};

/// Establishes that the end of each value written by the rows is found: it reads their tags, which have a bounded number of digits.
pub fn are_clear<R: PutValue>(rows: &[PlanRow<R>])
    ensures { (lists : TagLists) (p : Plan) (fields : List Field) (groups : List Group) (parts : List DataField) → AreRows R.spells lists p rows.now
        → Fits p fields groups parts → IsClear lists p }
{
    read_tags(rows);
}

/// Reads the tags of rows.
fn read_tags<R: PutValue>(rows: &[PlanRow<R>])
    ensures { AreSmall rows.now }
{
    for row in rows {
        read_row(row);
    }
}

/// Reads the tags of a row.
fn read_row<R: PutValue>(row: &PlanRow<R>)
    ensures { IsSmall row.now }
{
    let _tag = row.lead.tag();
    if let Part::Data(Some(lead)) = &row.part {
        let _own = lead.tag();
    }
}

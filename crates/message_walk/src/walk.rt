// The walk over the rows of a plan.
ghost use Rattle.std.specs.Prelude.{◌≡◌, ◌<◌, ◌+◌, ℕ, List, Option, Result, length, Some, IfSome, false};
ghost use Rattle.fix_values.specs.declared.rule.V.{V};
ghost use Rattle.sbe_types.specs.declared.message.Block.{out-Block};
ghost use Rattle.flyweight_view.specs.ByTable.{IsTableBlock};
ghost use Rattle.tagvalue_codec.specs.Drafts.{Draft};
ghost use Rattle.tagvalue_codec.specs.declared.write.Phase.TheVariants.{Open};
ghost use Rattle.bridge_rules.specs.Texts.{text_by};
ghost use Rattle.bridge_terms.specs.Blocks.{values_of, value_at};
ghost use Rattle.bridge_terms.specs.MessageFields.{length_in};
ghost use Rattle.bridge_terms.specs.Parts.{TagLists};
ghost use Rattle.bridge_terms.specs.Places.{entries_places, places_of, run_places, slot_places};
ghost use Rattle.bridge_terms.specs.Plans.{Each, Plan, Slot};
ghost use Rattle.message_walk.specs.declared.plan.Part.TheVariants as parts;
ghost use Rattle.message_walk.specs.declared.put.Put.TheVariants.{Nothing};
ghost use Rattle.message_walk.specs.Halts.{undelimited_here};
ghost use Rattle.message_walk.specs.Reached.{IsReached};
ghost use Rattle.message_walk.specs.Rows.{entries_shown, entry_places, run_inside, size_of, AreRows, FitsBlock, IsSlotAt, IsThere};
ghost use Rattle.message_walk.specs.States.{after, outcome, IsPut};

use crate::data::put_data;
use crate::halt::{Cause, Halt};
use crate::lead::Lead;
use crate::places::{at_most, first, front, rest_from};
use crate::plan::{Part, PlanRow};
use crate::put::{Put, PutValue, put_count};
use crate::reached::Reached;
use crate::trail::WayStep;
use flyweight_view::{BlockView, EntriesView, TableBlock};
use tagvalue_codec::FixWriter;

/// Writes the fields of a block by the rows of its plan. If it returns false, `halt` receives the first place that
/// isn't written, and the fields before it are written.
pub fn put_rows<R: PutValue>(
    rows: &[PlanRow<R>],
    block: &BlockView<'_>,
    out: &mut FixWriter,
    halt: &mut Halt,
) -> bool
    requires { out.old.phase ≡ Open }
    ensures open { out.new.phase ≡ Open }
    ensures put { (lists : TagLists) (p : Plan) → AreRows R.spells lists p rows.now → FitsBlock p block.now
        → outcome result out.new halt.new ≡ after lists out.old (places_of p (values_of p block.now.block)) }
{
    let table = block.by_table();
    put_left(rows, block, &table, out, halt)
}

/// The same, given the block's table, if it has one. The fields before the first group or data come first.
#[cycle(walk)]
#[inline(always)]
fn put_left<R: PutValue>(
    rows: &[PlanRow<R>],
    block: &BlockView<'_>,
    table: &Option<TableBlock<'_>>,
    out: &mut FixWriter,
    halt: &mut Halt,
) -> bool
    requires open { out.old.phase ≡ Open }
    requires table { IfSome table.now (λ t. IsTableBlock t block.now) }
    ensures open { out.new.phase ≡ Open }
    ensures put { (lists : TagLists) (p : Plan) → AreRows R.spells lists p rows.now → FitsBlock p block.now
        → outcome result out.new halt.new ≡ after lists out.old (places_of p (values_of p block.now.block)) }
{
    let mut left = rows;
    while left.len() > 0 {
        let row = first(left);
        match &row.part {
            Part::Field(rule) => {
                let put = put_field(row, rule, block, table, out, halt);
                if !goes_on(put, &row.lead, halt) {
                    return false;
                }
                left = rest_from(left, 1);
            }
            Part::Data(_) => return put_tail(left, block, table, out, halt),
            Part::Group(_) => return put_tail(left, block, table, out, halt),
        }
    }
    true
}

/// The same, before any of the block's groups and data were read.
#[cycle(walk)]
#[inline(always)]
fn put_tail<R: PutValue>(
    rows: &[PlanRow<R>],
    block: &BlockView<'_>,
    table: &Option<TableBlock<'_>>,
    out: &mut FixWriter,
    halt: &mut Halt,
) -> bool
    requires open { out.old.phase ≡ Open }
    requires table { IfSome table.now (λ t. IsTableBlock t block.now) }
    ensures open { out.new.phase ≡ Open }
    ensures put { (lists : TagLists) (p : Plan) → AreRows R.spells lists p rows.now → FitsBlock p block.now
        → outcome result out.new halt.new ≡ after lists out.old (places_of p (values_of p block.now.block)) }
{
    let mut reached = Reached::new();
    put_rest(rows, block, table, &mut reached, out, halt)
}

/// The same, once some of the block's groups and data were read.
#[cycle(walk)]
fn put_rest<'a, R: PutValue>(
    rows: &[PlanRow<R>],
    block: &BlockView<'a>,
    table: &Option<TableBlock<'_>>,
    reached: &mut Reached<'a>,
    out: &mut FixWriter,
    halt: &mut Halt,
) -> bool
    requires open { out.old.phase ≡ Open }
    requires table { IfSome table.now (λ t. IsTableBlock t block.now) }
    requires reached { IsReached block.now reached.old }
    ensures open { out.new.phase ≡ Open }
    ensures put { (lists : TagLists) (p : Plan) → AreRows R.spells lists p rows.now → FitsBlock p block.now
        → outcome result out.new halt.new ≡ after lists out.old (places_of p (values_of p block.now.block)) }
{
    let mut left = rows;
    while left.len() > 0 {
        let row = first(left);
        let rest = rest_from(left, 1);
        match &row.part {
            Part::Field(rule) => {
                let put = put_field(row, rule, block, table, out, halt);
                if !goes_on(put, &row.lead, halt) {
                    return false;
                }
                left = rest;
            }
            Part::Data(length) => {
                let put = put_part(row, length, block, reached, out, halt);
                if !goes_on(put, &row.lead, halt) {
                    return false;
                }
                left = rest;
            }
            Part::Group(size) => {
                let size = at_most(*size, rest.len());
                let entries = reached.entries_at(block, row.number);
                if !put_group(&row.lead, front(rest, size), entries, out, halt) {
                    return false;
                }
                left = rest_from(rest, size);
            }
        }
    }
    true
}

/// Whether the places after a field are written. If they aren't, the halt is in the field's part.
#[inline(always)]
fn goes_on(put: Put, lead: &Lead, halt: &mut Halt) -> bool
    ensures { (lists : TagLists) (old : Draft) (new : Draft) (text : Result (Option (List ℕ)) V)
        → IsPut lists old lead.now text (record { put = put; draft = new; halt = halt.old })
        → outcome result new halt.new ≡ after lists old (slot_places lead.now text) }
{
    match put {
        Put::Written => true,
        Put::Nothing => true,
        Put::Refused => {
            halt.under(WayStep::Part(lead.tag()));
            false
        }
    }
}

/// Writes the field of the first row of a block, if its value has one. Groups are left out.
#[inline(always)]
fn put_slot<R: PutValue>(
    row: &PlanRow<R>,
    block: &BlockView<'_>,
    table: &Option<TableBlock<'_>>,
    out: &mut FixWriter,
    halt: &mut Halt,
) -> Put
    requires open { out.old.phase ≡ Open }
    requires table { IfSome table.now (λ t. IsTableBlock t block.now) }
    ensures open { out.new.phase ≡ Open }
    ensures put { (lists : TagLists) (s : Slot) → IsSlotAt R.spells (length_in row.now.lead lists.lengths) s row.now.number row.now.part
        → IsThere s.rule s.place block.now.fields block.now.parts
        → IsPut lists out.old row.now.lead (text_by s.rule (value_at s.place block.now.block)) (record { put = result; draft = out.new; halt = halt.new }) }
    ensures group { (size : ℕ) → size_of row.now.part ≡ Some size → (result ≡ Nothing) × (out.new ≡ out.old) }
{
    match &row.part {
        Part::Field(rule) => put_field(row, rule, block, table, out, halt),
        Part::Data(length) => put_first_part(row, length, block, out, halt),
        Part::Group(_) => Put::Nothing,
    }
}

/// Writes the field of a data part's row before any of the block's data was read, if there is data.
#[inline(never)]
fn put_first_part<R: PutValue>(
    row: &PlanRow<R>,
    length: &Option<Lead>,
    block: &BlockView<'_>,
    out: &mut FixWriter,
    halt: &mut Halt,
) -> Put
    requires open { out.old.phase ≡ Open }
    requires part { row.now.part ≡ parts.Data length.now }
    ensures open { out.new.phase ≡ Open }
    ensures put { (lists : TagLists) (s : Slot) → IsSlotAt R.spells (length_in row.now.lead lists.lengths) s row.now.number row.now.part
        → IsThere s.rule s.place block.now.fields block.now.parts
        → IsPut lists out.old row.now.lead (text_by s.rule (value_at s.place block.now.block)) (record { put = result; draft = out.new; halt = halt.new }) }
{
    let mut reached = Reached::new();
    put_part(row, length, block, &mut reached, out, halt)
}

/// Writes the field of a field's row, if its value has one.
#[inline(always)]
fn put_field<R: PutValue>(
    row: &PlanRow<R>,
    rule: &R,
    block: &BlockView<'_>,
    table: &Option<TableBlock<'_>>,
    out: &mut FixWriter,
    halt: &mut Halt,
) -> Put
    requires open { out.old.phase ≡ Open }
    requires table { IfSome table.now (λ t. IsTableBlock t block.now) }
    requires part { row.now.part ≡ parts.Field rule.now }
    ensures open { out.new.phase ≡ Open }
    ensures put { (lists : TagLists) (s : Slot) → IsSlotAt R.spells (length_in row.now.lead lists.lengths) s row.now.number row.now.part
        → IsThere s.rule s.place block.now.fields block.now.parts
        → IsPut lists out.old row.now.lead (text_by s.rule (value_at s.place block.now.block)) (record { put = result; draft = out.new; halt = halt.new }) }
{
    rule.put_at(&row.lead, block, table, row.number, out, halt)
}

/// Writes the field of a data part's row, if there is data.
#[inline(always)]
fn put_part<'a, R: PutValue>(
    row: &PlanRow<R>,
    length: &Option<Lead>,
    block: &BlockView<'a>,
    reached: &mut Reached<'a>,
    out: &mut FixWriter,
    halt: &mut Halt,
) -> Put
    requires open { out.old.phase ≡ Open }
    requires part { row.now.part ≡ parts.Data length.now }
    requires reached { IsReached block.now reached.old }
    ensures reached { IsReached block.now reached.new }
    ensures open { out.new.phase ≡ Open }
    ensures put { (lists : TagLists) (s : Slot) → IsSlotAt R.spells (length_in row.now.lead lists.lengths) s row.now.number row.now.part
        → IsThere s.rule s.place block.now.fields block.now.parts
        → IsPut lists out.old row.now.lead (text_by s.rule (value_at s.place block.now.block)) (record { put = result; draft = out.new; halt = halt.new }) }
{
    let found = reached.data_at(block, row.number);
    put_data(length, &row.lead, found, out, halt)
}

/// Writes a group: its count, and then its entries.
#[cycle(walk)]
fn put_group<R: PutValue>(
    lead: &Lead,
    rows: &[PlanRow<R>],
    entries: Option<EntriesView<'_>>,
    out: &mut FixWriter,
    halt: &mut Halt,
) -> bool
    requires { out.old.phase ≡ Open }
    ensures open { out.new.phase ≡ Open }
    ensures put { (lists : TagLists) (p : Plan) → length_in lead.now lists.lengths ≡ None → AreRows R.spells lists p rows.now
        → Each (FitsBlock p) (entries_shown entries.entry)
        → outcome result out.new halt.new ≡ after lists out.old (run_places lead.now (entry_places p) (entries_shown entries.entry)) }
{
    let Some(entries) = entries else {
        return true;
    };
    if put_run(lead, rows, entries, out, halt) {
        return true;
    }
    halt.under(WayStep::Part(lead.tag()));
    false
}

/// Writes the count and the entries of a group, if there are any.
#[cycle(walk)]
fn put_run<R: PutValue>(
    lead: &Lead,
    rows: &[PlanRow<R>],
    entries: EntriesView<'_>,
    out: &mut FixWriter,
    halt: &mut Halt,
) -> bool
    requires { out.old.phase ≡ Open }
    ensures open { out.new.phase ≡ Open }
    ensures put { (lists : TagLists) (p : Plan) → length_in lead.now lists.lengths ≡ None → AreRows R.spells lists p rows.now
        → Each (FitsBlock p) entries.entry
        → outcome result out.new halt.new ≡ after lists out.old (run_inside lead.now (entry_places p) entries.entry) }
{
    let count = entries.len();
    if count == 0 {
        return true;
    }
    if !put_count(lead, count, out, halt) {
        return false;
    }
    put_entries(rows, entries, out, halt)
}

/// Writes the entries of a group, one after another.
#[cycle(walk)]
fn put_entries<R: PutValue>(
    rows: &[PlanRow<R>],
    entries: EntriesView<'_>,
    out: &mut FixWriter,
    halt: &mut Halt,
) -> bool
    requires { out.old.phase ≡ Open }
    ensures open { out.new.phase ≡ Open }
    ensures put { (lists : TagLists) (p : Plan) → AreRows R.spells lists p rows.now → Each (FitsBlock p) entries.entry
        → outcome result out.new halt.new ≡ after lists out.old (entries_places (entry_places p) 0 entries.entry) }
{
    let count = entries.len();
    let mut number = 0;
    for entry in entries {
        if !put_entry(rows, &entry, out, halt) {
            halt.under(WayStep::Entry(number));
            return false;
        }
        number = next_number(number, count);
    }
    true
}

/// The number after this one.
#[inline(always)]
fn next_number(number: usize, count: usize) -> usize
    ensures { number < count → result ≡ number + 1 }
{
    if number < count { number + 1 } else { number }
}

/// Writes an entry, which begins with the field of its first row.
#[cycle(walk)]
fn put_entry<R: PutValue>(
    rows: &[PlanRow<R>],
    entry: &BlockView<'_>,
    out: &mut FixWriter,
    halt: &mut Halt,
) -> bool
    requires { out.old.phase ≡ Open }
    ensures open { out.new.phase ≡ Open }
    ensures put { (lists : TagLists) (p : Plan) → AreRows R.spells lists p rows.now → FitsBlock p entry.now
        → outcome result out.new halt.new ≡ after lists out.old (entry_places p entry.now) }
{
    if rows.is_empty() {
        return undelimited(halt);
    }
    let row = first(rows);
    let table = entry.by_table();
    match put_slot(row, entry, &table, out, halt) {
        Put::Written => put_left(rest_from(rows, 1), entry, &table, out, halt),
        Put::Nothing => undelimited(halt),
        Put::Refused => {
            halt.under(WayStep::Part(row.lead.tag()));
            false
        }
    }
}

/// Records that an entry doesn't begin with its delimiter.
fn undelimited(halt: &mut Halt) -> bool
    ensures refused { result ≡ false }
    ensures halt { halt.new ≡ undelimited_here }
{
    halt.tell(Cause::NoDelimiter);
    false
}

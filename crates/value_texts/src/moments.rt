// The fields of days, moments and months.
ghost use Rattle.std.specs.Prelude.{◌≡◌, ℤ, None, Some};
ghost use Rattle.tagvalue_codec.specs.declared.write.Phase.TheVariants.{Open};
ghost use Rattle.bridge_terms.specs.MessageFields.{length_in};
ghost use Rattle.bridge_terms.specs.Parts.{TagLists};
ghost use Rattle.message_walk.specs.States.{IsPut};
ghost use Rattle.sbe_types.specs.Numbers.{natural};
ghost use Rattle.fix_values.specs.Values.{Leaves};
ghost use Rattle.date_answers.specs.Answers.{day_shown};
ghost use Rattle.bridge_rules.specs.Rules.{From};
ghost use Rattle.bridge_rules.specs.Members.{month_in};
ghost use Rattle.bridge_rules.specs.Texts.{moment_text, month_text, text_if_any};
ghost use Rattle.bridge_table.specs.Rows.{epoch_of};
ghost use Rattle.value_texts.specs.FieldViews.{members_seen, nth_number, unit_seen, HasMembers};

use crate::composite::{count_members, member_number};
use crate::shown::put_shown;
use bridge_table::{Epoch, Unit};
use fix_dates::{MonthYear, show_day, show_month, show_stamp, show_time};
use fix_values::{Short, V};
use flyweight_view::BlockView;
use message_walk::{Halt, Lead, Put};
use tagvalue_codec::FixWriter;

/// Writes the field of a day, if there is one.
pub(crate) fn put_day(n: Option<i128>, lead: &Lead, out: &mut FixWriter, halt: &mut Halt) -> Put
    requires { out.old.phase ≡ Open }
    ensures open { out.new.phase ≡ Open }
    ensures put { (lists : TagLists) → length_in lead.now lists.lengths ≡ None
        → IsPut lists out.old lead.now (text_if_any n day_shown) (record { put = result; draft = out.new; halt = halt.new }) }
{
    match n {
        None => Put::Nothing,
        Some(n) => {
            let mut text = Short::new();
            let shown = show_day_number(n, &mut text);
            put_shown(shown, &text, lead, out, halt)
        }
    }
}

/// Writes a day as text.
#[tactic(auto, using(crate::proofs::Dates::day_left))]
pub(crate) fn show_day_number(n: i128, out: &mut Short) -> Result<(), V>
    ensures { Leaves result out.new (day_shown n) }
{
    show_day(n, out)
}

/// Writes the field of a time and its unit, if there is a time.
pub(crate) fn put_moment(
    members: &Option<BlockView<'_>>,
    epoch: Epoch,
    unit: &Unit,
    lead: &Lead,
    out: &mut FixWriter,
    halt: &mut Halt,
) -> Put
    requires open { out.old.phase ≡ Open }
    requires members { HasMembers members.now }
    ensures open { out.new.phase ≡ Open }
    ensures put { (lists : TagLists) → length_in lead.now lists.lengths ≡ None
        → IsPut lists out.old lead.now
        (text_if_any (nth_number 0 (members_seen members.now)) (λ n. moment_text (epoch_of epoch) (unit_seen unit.now (members_seen members.now)) n))
        (record { put = result; draft = out.new; halt = halt.new }) }
{
    match member_number(members, 0) {
        None => Put::Nothing,
        Some(n) => {
            let mut text = Short::new();
            let shown = show_moment(epoch, unit_of(members, unit), n, &mut text);
            put_shown(shown, &text, lead, out, halt)
        }
    }
}

/// The unit of a moment, or `None` if it is absent or far from those that texts have.
fn unit_of(members: &Option<BlockView<'_>>, unit: &Unit) -> Option<u8>
    requires { HasMembers members.now }
    ensures { (from : From) (n : ℤ) → moment_text from (unit_seen unit.now (members_seen members.now)) n ≡ moment_text from result n }
{
    match unit {
        Unit::Always(unit) => Some(*unit),
        Unit::OnWire(_) => match member_number(members, 1) {
            None => None,
            Some(unit) => small_unit(unit),
        },
    }
}

/// A number as a unit, which is 0 if it is negative, or `None` if it is far above those that texts have.
fn small_unit(unit: i128) -> Option<u8>
    ensures { (from : From) (n : ℤ) → moment_text from (Some (natural unit)) n ≡ moment_text from result n }
{
    if unit < 0 {
        return Some(0);
    }
    match u8::try_from(unit) {
        Ok(unit) => Some(unit),
        Err(_) => None,
    }
}

/// Writes a moment as text, in a unit that is present.
fn show_moment(epoch: Epoch, unit: Option<u8>, n: i128, out: &mut Short) -> Result<(), V>
    ensures { Leaves result out.new (moment_text (epoch_of epoch) unit n) }
{
    let Some(unit) = unit else {
        out.clear();
        return Err(V::Range);
    };
    match epoch {
        Epoch::Unix => show_stamp(n, unit, out),
        Epoch::Midnight => show_time(n, unit, out),
    }
}

/// Writes the field of a month, if there is a year.
pub(crate) fn put_month(
    members: &Option<BlockView<'_>>,
    lead: &Lead,
    out: &mut FixWriter,
    halt: &mut Halt,
) -> Put
    requires open { out.old.phase ≡ Open }
    requires members { HasMembers members.now }
    ensures open { out.new.phase ≡ Open }
    ensures put { (lists : TagLists) → length_in lead.now lists.lengths ≡ None
        → IsPut lists out.old lead.now (text_if_any (nth_number 0 (members_seen members.now)) (λ year. month_text (month_in (members_seen members.now))))
        (record { put = result; draft = out.new; halt = halt.new }) }
{
    match member_number(members, 0) {
        None => Put::Nothing,
        Some(_) => {
            let mut text = Short::new();
            let shown = show_month_of(month_of(members), &mut text);
            put_shown(shown, &text, lead, out, halt)
        }
    }
}

/// The month in a composite's numbers, if its year and month are present.
fn month_of(members: &Option<BlockView<'_>>) -> Option<MonthYear>
    requires { HasMembers members.now }
    ensures { month_in (members_seen members.now) ≡ result }
{
    if count_members(members) < 4 {
        return None;
    }
    let (Some(year), Some(month)) = (member_number(members, 0), member_number(members, 1)) else {
        return None;
    };
    Some(MonthYear {
        year,
        month,
        day: member_number(members, 2),
        week: member_number(members, 3),
    })
}

/// Writes a month that is present as text.
fn show_month_of(month: Option<MonthYear>, out: &mut Short) -> Result<(), V>
    ensures { Leaves result out.new (month_text month) }
{
    match month {
        None => {
            out.clear();
            Err(V::Range)
        }
        Some(month) => show_month(&month, out),
    }
}

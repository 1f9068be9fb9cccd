ghost use Rattle.std.specs.Prelude.{◌≡◌, List, Some, slice_get};
ghost use Rattle.sbe_types.specs.declared.schema.Level.{Level};
ghost use Rattle.bridge_plan.specs.Mappings.{Mapping};
ghost use Rattle.message_plans.specs.Plans.{ArePlans};
ghost use Rattle.value_texts.specs.Rows.{Spells};
ghost use Rattle.fix_messages.specs.Heads.{head_of, IsHeadReady};
ghost use Rattle.fix_translation.specs.Translations.{IsPlanned, IsTranslated, request_of};

use fix_messages::{FixHead, MessageRows, write_text};
use flyweight_view::MsgView;
use lists::Text;
use message_plans::{Cover, Plan};
use message_walk::Halt;
use tagvalue_codec::FixWriter;
use value_texts::ValueText;

/// Why a message has no text, in the order in which it is tested.
#[derive(Drop)]
pub enum ToFixErr<'a> {
    /// The mapping has no message of the template's MsgType.
    NoMessage,
    /// The mapping doesn't cover the template: the names of the path to the first part that it doesn't cover.
    Uncovered(&'a [Text]),
    /// A place isn't written: its value has no text, its entry doesn't begin with its delimiter, or the text has no room
    /// for it.
    Unwritten(Halt),
}

/// Writes the text of a message: its head, and its fields in the order of the mapped structure. Allocates nothing.
/// Requires the plans of the message's schema.
///
/// # Errors
///
/// The first refusal, if there is one. After `Unwritten` there is no text; after the others `out` is as it was.
pub fn to_fix<'a>(
    plan: &'a Plan<ValueText>,
    view: &MsgView<'_>,
    head: &FixHead<'_>,
    out: &mut FixWriter,
) -> Result<(), ToFixErr<'a>>
    requires head { IsHeadReady (head_of head.now) }
    requires planned { IsPlanned plan.now view.now }
    ensures { (m : Mapping) (levels : List Level) → ArePlans Spells m levels plan.now → slice_get levels view.now.message.template ≡ Some view.now.level
        → IsTranslated (request_of m view.now (head_of head.now)) out.old out.new result }
{
    let template = view.template();
    match plan.cover(template) {
        Cover::NoMessage => Err(ToFixErr::NoMessage),
        Cover::Unmapped(path) => Err(ToFixErr::Uncovered(path.as_slice())),
        Cover::Mapped(rows) => {
            let text = MessageRows {
                msg_type: plan.msg_type(template),
                rows: rows.as_slice(),
            };
            let mut halt = Halt::new();
            if write_text(&text, &view.root(), head, out, &mut halt) {
                return Ok(());
            }
            Err(ToFixErr::Unwritten(halt))
        }
    }
}

ghost use Rattle.std.specs.Prelude.{◌≡◌, ◌<◌, List, map, slice_get, true, Some, IfOk, IfSome};
ghost use Rattle.sbe_types.specs.declared.schema.Level.{Level as AnyLevel, out-Level};
ghost use Rattle.map_types.specs.Trees.{members_of};
ghost use Rattle.orchestra_map.specs.Headers.{IsKept};
ghost use Rattle.tagvalue_codec.specs.declared.data_tags.Pair.{Pair};
ghost use Rattle.bridge_plan.specs.Mappings.{Mapping};
ghost use Rattle.orchestra_map.specs.DataFields.{pairs_of};
ghost use Rattle.bridge_mapping.specs.Mapped.{mapping_of};
ghost use Rattle.bridge_mapping.specs.Tables.{HaveSameTags};
ghost use Rattle.message_plans.specs.Plans.{ArePlans, IsOnly, templates};
ghost use Rattle.value_texts.specs.Rows.{Spells};
ghost use Rattle.exact_plans.specs.Exact.{is_exact as is_level_exact};
ghost use Rattle.text_judge.specs.Judges.{HasBodyOf, IsFront, IsJudge, IsJudgeFor, MarkOnly};

use crate::pairs::are_own_pairs;
use bridge_mapping::TagTable;
use exact_plans::{are_clear, are_tagged, is_exact};
use fix_messages::MessageRows;
use layout_tables::Layout;
use lists::{List, NoMem};
use map_types::Repository;
use message_plans::{Cover, Plan, Template, make_plan};
use sbe_types::Level;
use schema_check::Checked;
use std::alloc::Global;
use tagvalue_codec::DataTags;
use text_bodies::{JudgeSpace, is_body_of_text};
use text_heads::{HeadTags, TextFront, front_in};
use value_texts::ValueText;

/// Bytes that may be a text, and the template that alone has its MsgType.
#[derive(Clone, Copy)]
pub struct TypedText<'a> {
    /// The number of the template.
    pub template: usize,
    /// The MsgType and the head.
    pub front: TextFront<'a>,
    /// The bytes.
    pub text: &'a [u8],
}

/// What the bodies of texts are judged by: the plans of a schema's templates by a mapping, which of them write each value in one form,
/// which fields of a head belong to the mapping's header, and whether each length field belongs to one data field.
#[derive(Drop)]
pub struct TextJudge {
    pub(crate) plan: Plan<ValueText>,
    pub(crate) exact: List<bool>,
    /// Whether each template is the only one with its MsgType.
    pub(crate) only: List<bool>,
    pub(crate) head: HeadTags,
    pub(crate) own_pairs: bool,
}

impl TextJudge {
    /// The judge of a schema's templates by a mapping whose members keep their rules. Requires the mapping's tags and data fields.
    ///
    /// # Errors
    ///
    /// If memory runs out, or as `make_plan`.
    pub fn new(
        alloc: Global,
        checked: &Checked,
        repository: &Repository,
        table: &TagTable,
        tags: &DataTags,
    ) -> Result<TextJudge, NoMem>
        requires { IsKept repository.now }
        ensures { IfOk result (λ judge. HaveSameTags table.now (mapping_of (members_of repository.now)).lists
            → tags.now ≡ pairs_of (members_of repository.now)
            → IsJudge (mapping_of (members_of repository.now)) checked.now.messages tags.now judge) }
    {
        let own_pairs = are_own_pairs(alloc, repository, tags)?;
        let exact = exact_levels(alloc, checked.schema().messages.as_slice())?;
        let plan = make_plan(alloc, checked, repository)?;
        let only = only_templates(alloc, &plan)?;
        Ok(TextJudge {
            plan,
            exact,
            only,
            head: HeadTags::new(table, tags),
            own_pairs,
        })
    }

    /// The only template that has a MsgType. `None` if there is none, or if several have it. `likely` is the template that is looked
    /// at first.
    pub fn template_for(&self, kind: &[u8], likely: usize) -> Option<usize>
        ensures { IfSome result (λ template. (m : Mapping) (levels : List AnyLevel) (tags : List Pair) → IsJudge m levels tags self.now
            → IsOnly kind.now levels template) }
    {
        if self.is_only(kind, likely) {
            return Some(likely);
        }
        match self.plan.template_for(kind) {
            Template::One(template) => Some(template),
            Template::Unknown | Template::Several => None,
        }
    }

    /// Whether a template has a MsgType, and no other has it.
    #[inline(always)]
    fn is_only(&self, kind: &[u8], template: usize) -> bool
        ensures { result ≡ true → (m : Mapping) (levels : List AnyLevel) (tags : List Pair) → IsJudge m levels tags self.now
            → IsOnly kind.now levels template }
    {
        if template >= self.plan.templates() || template >= self.only.len() {
            return false;
        }
        if !*self.only.at(template) {
            return false;
        }
        self.plan.msg_type(template) == kind
    }

    /// The MsgType and the head of bytes that may be a text. `None` if there are none.
    pub fn front_in<'a>(&self, text: &'a [u8]) -> Option<TextFront<'a>>
        ensures { IfSome result (IsFront self.now.head) }
    {
        front_in(self.head, text)
    }

    /// Whether each plan of a template writes each value in one form. `false` if there is no such template.
    pub fn is_exact(&self, template: usize) -> bool
        ensures { result ≡ true → slice_get self.now.exact template ≡ Some true }
    {
        if template >= self.exact.len() {
            return false;
        }
        *self.exact.at(template)
    }

    /// Whether the bytes are a text, and a body is the canonical one of the message that it is translated to. `false` is
    /// inconclusive. Allocates nothing.
    pub fn is_message_of(
        &self,
        layout: &Layout,
        text: &TypedText<'_>,
        body: &[u8],
        space: &mut JudgeSpace,
    ) -> bool
        requires { IsFront self.now.head text.now.front }
        ensures { result ≡ true → (m : Mapping) (tags : List Pair) (only : IsOnly text.now.front.kind.now layout.now.messages text.now.template)
            → IsJudgeFor m layout.now tags self.now
            → HasBodyOf m layout.now text.now.template only.level (record { tags = tags; text = text.now.text.now; body = body.now }) }
    {
        if !self.own_pairs {
            return false;
        }
        if !self.is_exact(text.template) {
            return false;
        }
        if text.template >= self.plan.templates() {
            return false;
        }
        let Cover::Mapped(mapped) = self.plan.cover(text.template) else {
            return false;
        };
        let rows = mapped.as_slice();
        are_clear(rows);
        are_tagged(rows);
        let own = MessageRows {
            msg_type: text.front.kind,
            rows,
        };
        is_body_of_text(
            layout,
            text.template,
            &own,
            &text.front.head,
            text.text,
            body,
            space,
        )
    }
}

/// Whether each template is the only one with its MsgType.
fn only_templates(alloc: Global, plan: &Plan<ValueText>) -> Result<List<bool>, NoMem>
    ensures { IfOk result (λ marks. (m : Mapping) (levels : List AnyLevel) → ArePlans Spells m levels plan.now → MarkOnly levels marks) }
{
    let mut marks = List::new(alloc);
    for template in 0..plan.templates() {
        marks.push(is_only_one(plan, template))?;
    }
    Ok(marks)
}

/// Whether a template is the only one with its MsgType.
fn is_only_one(plan: &Plan<ValueText>, template: usize) -> bool
    requires { template < templates plan.now }
    ensures { (m : Mapping) (levels : List AnyLevel) (level : AnyLevel) → ArePlans Spells m levels plan.now → result ≡ true
        → slice_get levels template ≡ Some level → IsOnly (out-Level level).semantic levels template }
{
    match plan.template_for(plan.msg_type(template)) {
        Template::One(found) => found == template,
        Template::Unknown | Template::Several => false,
    }
}

/// Whether the plans of each level write each value in one form.
fn exact_levels(alloc: Global, levels: &[Level]) -> Result<List<bool>, NoMem>
    ensures { IfOk result (λ marks. marks ≡ map is_level_exact levels.now) }
{
    let mut marks = List::new(alloc);
    for level in levels {
        marks.push(is_exact(level))?;
    }
    Ok(marks)
}

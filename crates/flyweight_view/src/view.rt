// Views of messages.
ghost use Rattle.std.specs.Prelude.{◌≡◌, IfOk, IfErr, IfSome, IfNone, Some, slice_get};
ghost use Rattle.std.specs.Result.{result_ok};
ghost use Rattle.sbe_types.specs.declared.schema.Level.{out-Level};
ghost use Rattle.sbe_wire.specs.Faults.{FirstFault};
ghost use Rattle.sbe_wire.specs.Lays.{Lays};
ghost use Rattle.schema_facts.specs.IsChecked.{IsChecked};
ghost use Rattle.body_walk.specs.Heads.{header_template};
ghost use Rattle.body_walk.specs.Refusals.{refused};
ghost use Rattle.body_walk.specs.Walked.{message_in, IsWalked};
ghost use Rattle.flyweight_view.specs.TypedBlocks.{typed_level};

use crate::block::BlockView;
use crate::plan::{Plan, Span};
use body_walk::{LastRefusal, Refusal, Walked, walk_body};
use layout_tables::Layout;
use std::marker::Model;

/// A message that lies in a body, from which it borrows.
#[derive(Drop)]
pub struct MsgView<'a> {
    layout: &'a Layout,
    body: &'a [u8],
    walked: Walked<'a>,
}

impl<'a> Model for MsgView<'a> {
    ghost use Rattle.sbe_types.specs.contracts.kind.Kind as kinds;
    ghost use Rattle.sbe_types.specs.contracts.schema.Group as groups;
    ghost use Rattle.sbe_types.specs.contracts.schema.Level as levels;
    ghost use Rattle.sbe_types.specs.contracts.message.Value as values;
    ghost use Rattle.sbe_types.specs.contracts.message.Block as blocks;
    ghost use Rattle.std.specs.Coded.{codes};
    ghost use Rattle.flyweight_view.specs.TypedBlocks.{TypedMessage};

    ghost Value = { TypedMessage };

    ghost coded = { Prim.hlevel (codes, kinds.the_row.coded, groups.the_row.coded, levels.the_row.coded, values.the_row.coded, blocks.the_row.coded) };

    ghost use Rattle.flyweight_view.specs.inner.Viewed.{viewed, IsViewed};

    ghost view = { viewed };

    ghost invariant = { IsViewed };
}

impl<'a> MsgView<'a> {
    /// The number of its template in the schema.
    pub fn template(&self) -> usize
        ensures { result ≡ self.now.message.template }
    {
        self.walked.template
    }

    /// The version in its header.
    pub fn version(&self) -> u32
        ensures { result ≡ self.now.message.version }
    {
        self.walked.start.version
    }

    /// The name of its template.
    pub fn name(&self) -> &'a [u8]
        ensures { result.now ≡ (out-Level self.now.level).name }
    {
        self.walked.level.name.as_slice()
    }

    /// Its root's block.
    pub fn root(&self) -> BlockView<'a>
        ensures { result ≡ typed_level self.now.level self.now.message.block }
    {
        root_of(self.layout, self.body, &self.walked)
    }

    /// The layout of its schema, which is checked.
    pub fn schema(&self) -> &'a Layout
        ensures order { IsChecked result.now }
        ensures level { slice_get result.now.messages self.now.message.template ≡ Some self.now.level }
    {
        let _schema = self.layout.schema();
        self.layout
    }
}

/// Walks a body once (SBE 1.0, "Message structure"). Returns a view of the message that lies in it, or the first faulty
/// part in wire order.
///
/// # Errors
///
/// A [`Refusal`] exactly if no message of the schema lies in the body.
pub fn validate<'a>(layout: &'a Layout, body: &'a [u8]) -> Result<MsgView<'a>, Refusal>
    ensures lies { IfOk result (λ view. Lays layout.now view.message body.now) }
    ensures level { IfOk result (λ view. slice_get layout.now.messages view.message.template ≡ Some view.level) }
    ensures fault { IfErr result (λ r. FirstFault layout.now (refused r) body.now) }
    ensures template { IfErr result (λ r. r.template ≡ result_ok (header_template layout.now body.now)) }
{
    let mut last = LastRefusal::new();
    match look(layout, body, &mut last) {
        Some(view) => Ok(view),
        None => Err(last.refusal()),
    }
}

/// Like [`validate`], but reports the fault through `last`: returns a view of the message exactly if one lies in the
/// body. Otherwise `last` receives its first faulty part in wire order.
#[inline(always)]
pub fn look<'a>(layout: &'a Layout, body: &'a [u8], last: &mut LastRefusal) -> Option<MsgView<'a>>
    ensures lies { IfSome result (λ view. Lays layout.now view.message body.now) }
    ensures level { IfSome result (λ view. slice_get layout.now.messages view.message.template ≡ Some view.level) }
    ensures fault { IfNone result (FirstFault layout.now last.new.fault body.now) }
    ensures template { IfNone result (last.new.template ≡ result_ok (header_template layout.now body.now)) }
{
    match walk_body(layout, body, last) {
        Some(walked) => Some(MsgView {
            layout,
            body,
            walked,
        }),
        None => None,
    }
}

/// The root's block of a body that is a message.
fn root_of<'a>(layout: &'a Layout, body: &'a [u8], walked: &Walked<'a>) -> BlockView<'a>
    requires { IsWalked layout.now body.now walked.now }
    ensures { result ≡ typed_level walked.now.level.now (message_in layout.now body.now).block }
{
    let _schema = layout.schema();
    let wide = layout.header_row().width as usize;
    let span = Span {
        mode: walked.mode,
        body,
        at: wide,
        size: walked.start.block as usize,
    };
    BlockView::new(span, Plan::Level(layout, walked.root, walked.level))
}

// The header of a body, and the message after it.
ghost use Rattle.std.specs.Prelude.{◌≡◌, ◌≤◌, ◌<◌, Some, IfSome, IfNone, length, slice_get};
ghost use Rattle.std.specs.Option.{option_map};
ghost use Rattle.sbe_types.specs.declared.schema.Level.{Level, out-Level};
ghost use Rattle.sbe_wire.specs.Versions.{acting, floor, mode_of};
ghost use Rattle.schema_facts.specs.Levels.{level_at};
ghost use Rattle.layout_tables.specs.Heads.{header_width};
ghost use Rattle.body_walk.specs.Heads.{start_in, header_template};
ghost use Rattle.body_walk.specs.inner.Ready.{IsReadySchema};
ghost use Rattle.body_walk.specs.inner.Starts.{message_from, rest_end, start_check, start_went};
ghost use Rattle.body_walk.specs.inner.Outcomes.{place_or_fault};

use crate::found::Found;
use crate::head_numbers::numbers_in;
use crate::walk::walk_root;
use layout_tables::Layout;
use sbe_types::Level;
use sbe_wire::{FCode, Mode};

/// What a header states of the message after it.
#[derive(Clone, Copy)]
pub struct Start {
    /// The size of the root's block in bytes.
    pub block: u32,
    pub version: u32,
}

/// The number of the message that a header names, and what else the header states.
#[derive(Clone, Copy)]
pub(crate) struct Named {
    pub(crate) template: usize,
    pub(crate) start: Start,
}

/// Finds the message that a header names. If it names none of this schema, `out` receives the reason.
#[inline(always)]
pub(crate) fn find_template(layout: &Layout, body: &[u8], out: &mut Found) -> Option<Named>
    requires { IsReadySchema layout.now }
    ensures told { place_or_fault (option_map (λ n. n.template) result) out.new ≡ header_template layout.now body.now }
    ensures start { IfSome result (λ n. n.start ≡ start_in layout.now body.now) }
    ensures within { IfSome result (λ n. n.template < length layout.now.messages) }
    ensures header { IfSome result (λ _. header_width layout.now ≤ length body.now) }
    ensures low { IfNone result (length out.new.path ≡ 0) }
{
    let row = layout.header_row();
    let wide = row.width as usize;
    if body.len() < wide {
        out.tell(FCode::ShortHeader, 0, body.len() as i128);
        return None;
    }
    let head = numbers_in(layout, &body[..wide]);
    if head.schema != layout.id() {
        out.tell(
            FCode::SchemaId,
            row.schema.place as usize,
            head.schema as i128,
        );
        return None;
    }
    match layout.template(head.template) {
        Some(template) => Some(Named {
            template,
            start: Start {
                block: head.block,
                version: head.version,
            },
        }),
        None => {
            out.tell(
                FCode::Template,
                row.template.place as usize,
                head.template as i128,
            );
            None
        }
    }
}

/// Walks the message with this number after its header, and returns its version. If the body isn't such a message,
/// `out` receives the first fault.
#[inline(always)]
pub(crate) fn walk_message(
    layout: &Layout,
    template: usize,
    start: Start,
    body: &[u8],
    out: &mut Found,
) -> Option<u32>
    requires schema { IsReadySchema layout.now }
    requires template { template < length layout.now.messages }
    requires header { header_width layout.now ≤ length body.now }
    ensures told { (level : Level) → slice_get layout.now.messages template ≡ Some level
        → place_or_fault result out.new ≡ message_from layout.now level body.now start }
    ensures version { IfSome result (λ version. version ≡ start.version) }
    ensures low { IfNone result (length out.new.path ≤ 20) }
{
    let level = layout.message(template);
    let wide = layout.header_row().width as usize;
    let root = layout.root(template);
    match judge_start(layout, root, level, start, out) {
        Some(judged) => {
            let mode = mode_of(layout, judged.version);
            match walk_root(layout, mode, root, level, judged.block, body, wide, out) {
                Some(next) => judge_rest(mode.known, judged.version, body, next, out),
                None => None,
            }
        }
        None => None,
    }
}

/// How the values of a message of this version are read.
#[inline(always)]
pub fn mode_of(layout: &Layout, version: u32) -> Mode
    ensures { result ≡ mode_of layout.now version }
{
    Mode {
        order: layout.order(),
        known: version <= layout.version(),
        version: version.min(layout.version()),
    }
}

/// Checks a header's block length against the floor of the root.
fn judge_start(
    layout: &Layout,
    root: usize,
    level: &Level,
    start: Start,
    out: &mut Found,
) -> Option<Start>
    requires level { level_at layout.now root ≡ Some level.now }
    ensures told { start_went result out.new ≡ start_check layout.now level.now start }
    ensures same { IfSome result (λ s. s ≡ start) }
    ensures reaches { IfSome result (λ s. floor (acting layout.now s.version) (out-Level level.now).fields ≤ s.block) }
    ensures low { IfNone result (length out.new.path ≡ 0) }
{
    let acting = start.version.min(layout.version());
    if start.block < layout.floor(root, acting) {
        let row = layout.header_row();
        out.tell(
            FCode::BlockShort,
            row.block.place as usize,
            start.block as i128,
        );
        return None;
    }
    Some(start)
}

/// Checks what is left after the last part of a message of this version.
fn judge_rest(known: bool, version: u32, body: &[u8], next: usize, out: &mut Found) -> Option<u32>
    requires { next ≤ length body.now }
    ensures told { place_or_fault result out.new ≡ rest_end known version body.now next }
    ensures version { IfSome result (λ v. v ≡ version) }
    ensures low { IfNone result (length out.new.path ≡ 0) }
{
    if known && next < body.len() {
        out.tell(FCode::Trailing, next, (body.len() - next) as i128);
        return None;
    }
    Some(version)
}

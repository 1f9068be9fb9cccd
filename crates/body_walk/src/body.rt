// A whole body.
ghost use Rattle.std.specs.Prelude.{◌≡◌, IfSome, IfNone};
ghost use Rattle.std.specs.Result.{result_ok};
ghost use Rattle.sbe_wire.specs.Faults.{FirstFault};
ghost use Rattle.sbe_wire.specs.Lays.{Lays};
ghost use Rattle.body_walk.specs.Heads.{header_template};
ghost use Rattle.body_walk.specs.Walked.{message_in, IsWalked};

use crate::header::{Start, find_template, mode_of, walk_message};
use crate::refusal::LastRefusal;
use layout_tables::Layout;
use sbe_types::Level;
use sbe_wire::Mode;

/// What the walk finds in a body that is a message.
#[derive(Clone, Copy)]
pub struct Walked<'a> {
    /// The root of its template.
    pub level: &'a Level,
    /// The number of its template in the schema.
    pub template: usize,
    pub start: Start,
    /// The number of the root's level.
    pub root: usize,
    /// How its values are read.
    pub mode: Mode,
}

/// Walks a body once (SBE 1.0, "Message structure"). Returns what it finds of the message, exactly if the body is one.
/// Otherwise `last` receives its first faulty part in wire order.
#[inline(always)]
#[tactic(auto, using(crate::proofs::ReadyTold::ready_schema))]
pub fn walk_body<'a>(layout: &'a Layout, body: &[u8], last: &mut LastRefusal) -> Option<Walked<'a>>
    ensures walked { IfSome result (λ w. IsWalked layout.now body.now w) }
    ensures lies { IfSome result (λ _. Lays layout.now (message_in layout.now body.now) body.now) }
    ensures fault { IfNone result (FirstFault layout.now last.new.fault body.now) }
    ensures template { IfNone result (last.new.template ≡ result_ok (header_template layout.now body.now)) }
{
    let _schema = layout.schema();
    let named = match find_template(layout, body, &mut last.found) {
        Some(named) => named,
        None => {
            last.template = None;
            return None;
        }
    };
    let level = layout.message(named.template);
    let root = layout.root(named.template);
    let mode = mode_of(layout, named.start.version);
    match walk_message(layout, named.template, named.start, body, &mut last.found) {
        Some(version) => Some(Walked {
            level,
            template: named.template,
            start: Start {
                block: named.start.block,
                version,
            },
            root,
            mode,
        }),
        None => {
            last.template = Some(named.template);
            None
        }
    }
}

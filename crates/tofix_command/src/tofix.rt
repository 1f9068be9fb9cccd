ghost use Rattle.std.specs.Prelude.{◌≡◌, ◌≤◌, true, IfOk};
ghost use Rattle.map_types.specs.Trees.{members_of};
ghost use Rattle.bridge_mapping.specs.Mapped.{mapping_of};
ghost use Rattle.fix_messages.specs.Heads.{IsHeadReady};
ghost use Rattle.fix_translation.specs.Translations.{HasKinds};
ghost use Rattle.command_steps.specs.Replies.{no_line};
ghost use Rattle.dump_lines.specs.Dumped.{AreInOrder};
ghost use Rattle.open_framing.specs.declared.head.TheConstants.{HEAD_BYTES};
ghost use Rattle.tofix_replies.specs.ToFix.{given_head, text_limit, IsToFixReply};
ghost use Rattle.tofix_command.specs.Bridges.{bridge_of, head_in};
ghost use Rattle.tofix_command.specs.Planned.{schemas_of, ArePlannedBy};

use crate::answer::answer_frame;
use crate::head::given_by;
use crate::translations::Translations;
use command_steps::{FrameCommand, Kept, end_without_line};
use command_words::HeadWords;
use flyweight_view::LastRefusal;
use lists::NoMem;
use map_types::Repository;
use replies::Verdict;
use sbe_base::{Sink, Status};
use std::alloc::Global;
use std::marker::Model;
use tofix_replies::{GivenHead, TextSpace};

/// What answers to frames are made with: the head of the first text, the most bytes of a frame, and the space of a text.
#[derive(Drop)]
pub struct Desk {
    pub(crate) head: GivenHead,
    pub(crate) frame: usize,
    pub(crate) space: TextSpace,
    pub(crate) last: LastRefusal,
}

/// Translates messages to texts by a mapping.
#[derive(Drop)]
pub struct Translator {
    schemas: Translations,
    repository: Repository,
    desk: Desk,
}

impl Model for Translator {
    ghost use Rattle.std.specs.Coded.{codes};
    ghost use Rattle.sbe_types.specs.contracts.kind.Kind as kind;
    ghost use Rattle.sbe_types.specs.contracts.schema.Level as level;
    ghost use Rattle.tofix_replies.specs.ToFix.{given_head};
    ghost use Rattle.tofix_command.specs.Bridges.{Translating};
    ghost use Rattle.tofix_command.specs.Planned.{schemas_of, IsTranslator};

    ghost Value = { Translating };

    ghost coded = { Prim.hlevel (codes, kind.the_row.coded, level.the_row.coded) };

    ghost view = { λ t. record { schemas = schemas_of t.schemas; repository = t.repository; head = given_head t.desk.head; frame = t.desk.frame } };

    ghost invariant = { λ t. IsTranslator t.schemas t.repository (given_head t.desk.head) t.desk.frame t.desk.space.out.limit };
}

impl Desk {
    /// Allocates all memory that the answers to frames need.
    pub(crate) fn new(alloc: Global, words: &HeadWords, frame: usize) -> Result<Desk, NoMem>
        requires least { HEAD_BYTES ≤ frame }
        requires most { frame ≤ 16_777_216 }
        ensures head { IfOk result (λ desk. given_head desk.head ≡ head_in words.now) }
        ensures frame { IfOk result (λ desk. desk.frame ≡ frame) }
        ensures limit { IfOk result (λ desk. desk.space.out.limit ≡ text_limit frame) }
    {
        Ok(Desk {
            head: given_by(alloc, words)?,
            frame,
            space: TextSpace::new(alloc, frame)?,
            last: LastRefusal::new(),
        })
    }
}

impl Translator {
    /// The translator of these schemas by this mapping.
    pub(crate) fn over(desk: Desk, schemas: Translations, repository: Repository) -> Translator
        requires order { AreInOrder (schemas_of schemas) }
        requires kinds { HasKinds (mapping_of (members_of repository)) }
        requires planned { ArePlannedBy (mapping_of (members_of repository)) schemas }
        requires ready { IsHeadReady (given_head desk.head) }
        requires limit { desk.space.out.limit ≡ text_limit desk.frame }
        requires most { desk.frame ≤ 16_777_216 }
        ensures { result ≡ record { schemas = schemas_of schemas; repository = repository; head = given_head desk.head; frame = desk.frame } }
    {
        Translator {
            schemas,
            repository,
            desk,
        }
    }
}

impl FrameCommand for Translator {
    ghost is_reply = { λ t kept item reply. IsToFixReply (bridge_of t) kept item reply };

    ghost last = { no_line };

    ghost spares = { true };

    fn answer<O: Sink, N: Sink>(
        &mut self,
        kept: &Kept,
        encoding: u16,
        body: &[u8],
        output: &mut O,
        notes: &mut N,
    ) -> Result<Verdict, Status> {
        answer_frame(
            &self.schemas,
            kept,
            encoding,
            body,
            &self.desk.head.after(kept.translated),
            &mut self.desk.space,
            &mut self.desk.last,
            output,
            notes,
        )
    }

    fn end<N: Sink>(&mut self, kept: &Kept, notes: &mut N) -> Status {
        end_without_line(kept, notes)
    }
}

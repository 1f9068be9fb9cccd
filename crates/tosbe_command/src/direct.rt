ghost use Rattle.std.specs.Prelude.{◌≡◌, IfOk};
ghost use Rattle.map_types.specs.Trees.{members_of};
ghost use Rattle.orchestra_map.specs.DataFields.{pairs_of};
ghost use Rattle.orchestra_map.specs.Headers.{IsKept};
ghost use Rattle.bridge_mapping.specs.Mapped.{mapping_of};
ghost use Rattle.sbe_translation.specs.Plans.{AreBackPlans};
ghost use Rattle.text_judge.specs.Judges.{IsJudge};

use crate::bridge::BridgeParts;
use crate::drafts::Drafts;
use crate::files::BridgeFiles;
use lists::NoMem;
use std::alloc::Global;
use text_judge::TextJudge;

/// What the direct way from a text to a body needs: what drafts bodies, and what judges them.
#[derive(Drop)]
pub(crate) struct DirectWay {
    pub(crate) judge: TextJudge,
    pub(crate) drafts: Drafts,
}

impl DirectWay {
    /// The direct way by the plans of the files.
    pub(crate) fn new(
        alloc: Global,
        files: &BridgeFiles,
        parts: &BridgeParts,
    ) -> Result<DirectWay, NoMem>
        requires kept { IsKept files.now.repository }
        ensures { IfOk result (λ way. AreBackPlans (mapping_of (members_of files.now.repository)) files.now.checked.messages parts.now.planned.plan
            → parts.now.planned.tags ≡ pairs_of (members_of files.now.repository)
            → IsJudge (mapping_of (members_of files.now.repository)) files.now.checked.messages parts.now.planned.tags way.judge) }
    {
        let judge = TextJudge::new(
            alloc,
            &files.checked,
            &files.repository,
            parts.planned.plan.tags(),
            &parts.planned.tags,
        )?;
        let drafts = Drafts::new(alloc, files, parts, &judge)?;
        Ok(DirectWay { judge, drafts })
    }
}

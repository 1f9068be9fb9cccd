ghost use Rattle.std.specs.Prelude.{◌≡◌, IfOk};
ghost use Rattle.map_types.specs.Trees.{members_of};
ghost use Rattle.orchestra_map.specs.Headers.{IsKept};
ghost use Rattle.bridge_plan.specs.CheckedLevels.{HasShortCodes};
ghost use Rattle.bridge_mapping.specs.Mapped.{mapping_of};
ghost use Rattle.orchestra_map.specs.DataFields.{pairs_of};
ghost use Rattle.sbe_translation.specs.Plans.{AreBackPlans};
ghost use Rattle.text_judge.specs.Judges.{IsJudge};
ghost use Rattle.tosbe_command.specs.Bridges.{IsBackBridge};

use crate::direct::DirectWay;
use crate::files::BridgeFiles;
use layout_compile::compile;
use layout_tables::Layout;
use lists::NoMem;
use orchestra_map::data_tags;
use sbe_translation::{BackPlan, make_back_plan};
use std::alloc::Global;
use std::marker::Model;
use tagvalue_codec::DataTags;

/// The plan of a schema's templates by a mapping, and the mapping's data fields.
#[derive(Drop)]
pub(crate) struct BridgePlan {
    pub(crate) plan: BackPlan,
    pub(crate) tags: DataTags,
}

/// The layout of a schema, and the plan of its templates by a mapping.
#[derive(Drop)]
pub(crate) struct BridgeParts {
    pub(crate) layout: Layout,
    pub(crate) planned: BridgePlan,
}

/// The ways from a text to its message: by the plan of its template, and directly to the body.
#[derive(Drop)]
pub(crate) struct BridgeWays {
    pub(crate) parts: BridgeParts,
    pub(crate) direct: DirectWay,
}

/// What texts are translated by: the files, what is made of them, and the most bytes of a frame.
#[derive(Drop)]
pub(crate) struct Bridge {
    pub(crate) files: BridgeFiles,
    pub(crate) ways: BridgeWays,
    pub(crate) frame: usize,
}

impl Model for Bridge {
    ghost use Rattle.std.specs.Coded.{codes};
    ghost use Rattle.sbe_types.specs.contracts.kind.Kind as kind;
    ghost use Rattle.sbe_types.specs.contracts.schema.Level as level;
    ghost use Rattle.tosbe_command.specs.Bridges.{BackBridge, IsSetUp};

    ghost Value = { BackBridge };

    ghost coded = { Prim.hlevel (codes, kind.the_row.coded, level.the_row.coded) };

    ghost view = { λ it. record { schema = it.files.checked; repository = it.files.repository; frame = it.frame } };

    ghost invariant = { λ it. IsSetUp (record { schema = it.files.checked; repository = it.files.repository; frame = it.frame })
        it.ways.parts.layout it.ways.parts.planned.plan it.ways.parts.planned.tags it.ways.direct.judge };
}

impl Bridge {
    /// The bridge of a checked schema and of a mapping whose members keep their rules and whose codes are short.
    pub(crate) fn new(alloc: Global, files: BridgeFiles, frame: usize) -> Result<Bridge, NoMem>
        requires kept { IsKept files.repository }
        requires short { HasShortCodes (mapping_of (members_of files.repository)) }
        ensures is { IfOk result (λ bridge. bridge ≡ record { schema = files.checked; repository = files.repository; frame = frame }) }
        ensures good { IfOk result (λ bridge. IsBackBridge bridge) }
    {
        let _schema = files.checked.schema();
        match BridgeWays::new(alloc, &files) {
            Ok(ways) => Ok(Bridge { files, ways, frame }),
            Err(NoMem) => Err(NoMem),
        }
    }
}

// Each function here owns one large value, since the check of one that drops several doesn't end.

impl BridgeWays {
    fn new(alloc: Global, files: &BridgeFiles) -> Result<BridgeWays, NoMem>
        requires kept { IsKept files.now.repository }
        requires short { HasShortCodes (mapping_of (members_of files.now.repository)) }
        ensures layout { IfOk result (λ ways. ways.parts.layout ≡ files.now.checked) }
        ensures plan { IfOk result (λ ways. AreBackPlans (mapping_of (members_of files.now.repository)) files.now.checked.messages ways.parts.planned.plan) }
        ensures tags { IfOk result (λ ways. ways.parts.planned.tags ≡ pairs_of (members_of files.now.repository)) }
        ensures judge { IfOk result (λ ways. IsJudge (mapping_of (members_of files.now.repository)) files.now.checked.messages
            (pairs_of (members_of files.now.repository)) ways.direct.judge) }
    {
        let parts = BridgeParts::new(alloc, files)?;
        let direct = DirectWay::new(alloc, files, &parts)?;
        Ok(BridgeWays { parts, direct })
    }
}

impl BridgeParts {
    fn new(alloc: Global, files: &BridgeFiles) -> Result<BridgeParts, NoMem>
        requires kept { IsKept files.now.repository }
        requires short { HasShortCodes (mapping_of (members_of files.now.repository)) }
        ensures layout { IfOk result (λ parts. parts.layout ≡ files.now.checked) }
        ensures plan { IfOk result (λ parts. AreBackPlans (mapping_of (members_of files.now.repository)) files.now.checked.messages parts.planned.plan) }
        ensures tags { IfOk result (λ parts. parts.planned.tags ≡ pairs_of (members_of files.now.repository)) }
    {
        let layout = compile(alloc, &files.checked)?;
        let planned = BridgePlan::new(alloc, files)?;
        Ok(BridgeParts { layout, planned })
    }
}

impl BridgePlan {
    fn new(alloc: Global, files: &BridgeFiles) -> Result<BridgePlan, NoMem>
        requires kept { IsKept files.now.repository }
        requires short { HasShortCodes (mapping_of (members_of files.now.repository)) }
        ensures plan { IfOk result (λ planned. AreBackPlans (mapping_of (members_of files.now.repository)) files.now.checked.messages planned.plan) }
        ensures tags { IfOk result (λ planned. planned.tags ≡ pairs_of (members_of files.now.repository)) }
    {
        let plan = make_back_plan(alloc, &files.checked, &files.repository)?;
        let tags = data_tags(alloc, &files.repository)?;
        Ok(BridgePlan { plan, tags })
    }
}

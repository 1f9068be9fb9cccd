// What drafts the bodies of texts. No contract covers a draft.
use crate::bridge::{BridgeParts, BridgePlan};
use crate::files::BridgeFiles;
use back_levels::BackTree;
use line_draft::BodyDraft;
use lists::{List, NoMem};
use sbe_types::{Level, WireSchema};
use std::alloc::Global;
use text_drafts::{BackLevels, DraftTree, Drafting, draft_text, make_draft_tree};
use text_judge::{TextJudge, TypedText};

/// For each template what its bodies are drafted by, if they are drafted.
#[derive(Drop)]
pub(crate) struct Drafts {
    trees: List<Option<DraftTree>>,
}

impl Drafts {
    /// Makes what drafts the bodies of the templates whose plans write each value in one form.
    pub(crate) fn new(
        alloc: Global,
        files: &BridgeFiles,
        parts: &BridgeParts,
        judge: &TextJudge,
    ) -> Result<Drafts, NoMem> {
        let schema = files.checked.schema();
        let mut draft = BodyDraft::new();
        let mut trees = List::new(alloc);
        for (i, level) in schema.messages.as_slice().iter().enumerate() {
            let tree = if judge.is_exact(i) {
                tree_of(alloc, schema, level, &parts.planned, i, &mut draft)?
            } else {
                None
            };
            trees.push(tree)?;
        }
        Ok(Drafts { trees })
    }

    /// Drafts the body of what may be a text of a template. `false` if there is none.
    pub(crate) fn draft_text(
        &self,
        parts: &BridgeParts,
        typed: &TypedText<'_>,
        draft: &mut BodyDraft,
    ) -> bool {
        let schema = parts.layout.schema();
        let template = typed.template;
        if template >= self.trees.len() || template >= schema.messages.len() {
            return false;
        }
        let Some(tree) = self.trees.at(template) else {
            return false;
        };
        let Some(back) = parts.planned.plan.tree(template) else {
            return false;
        };
        let by = Drafting {
            schema,
            tree,
            back: levels_of(back),
        };
        draft_text(
            by,
            schema.messages.at(template),
            (typed.text, typed.front.at),
            draft,
        )
    }
}

/// What the bodies of a template are drafted by, if the mapping covers it.
fn tree_of(
    alloc: Global,
    schema: &WireSchema,
    level: &Level,
    planned: &BridgePlan,
    template: usize,
    draft: &mut BodyDraft,
) -> Result<Option<DraftTree>, NoMem> {
    let Some(back) = planned.plan.tree(template) else {
        return Ok(None);
    };
    let tree = make_draft_tree(
        alloc,
        schema,
        level,
        levels_of(back),
        planned.plan.tags(),
        draft,
    )?;
    Ok(Some(tree))
}

/// The levels of a template's structure.
fn levels_of(tree: &BackTree) -> BackLevels<'_> {
    BackLevels {
        root: &tree.root,
        levels: tree.levels.as_slice(),
    }
}

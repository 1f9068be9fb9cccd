// Whether the texts of a level are stored, expressed by a type.
ghost use Rattle.std.specs.Prelude.{◌≡◌, ◌<◌, IfSome, None, Option, Some, length};
ghost use Rattle.std.specs.Option.{option_map};
ghost use Rattle.tree_json.specs.declared.texts.LevelTexts.{LevelTexts, out-LevelTexts};
ghost use Rattle.tree_json.specs.Texts.{texts_at};

use crate::texts::LevelTexts;

/// The text of a level that is the same in each line, if it is stored.
pub(crate) trait Kept {
    /// The texts, if they are stored.
    ghost texts: { Self → Option LevelTexts };

    /// The texts of the level.
    fn level(&self) -> Option<&LevelTexts>
        ensures { option_map (λ t. t.now) result ≡ texts self.now };

    /// The same for its group `i`. Requires a group in range.
    fn group(self, i: usize) -> Self
        requires { IfSome (texts self) (λ t. i < length (out-LevelTexts t).groups) }
        ensures { texts result ≡ texts_at (texts self) i };
}

/// The texts are stored.
#[derive(Clone, Copy)]
pub(crate) struct OfLevel<'t> {
    pub(crate) texts: &'t LevelTexts,
}

impl<'t> Kept for OfLevel<'t> {
    ghost texts = { λ it. Some it.texts.now };

    #[inline(always)]
    fn level(&self) -> Option<&LevelTexts> {
        Some(self.texts)
    }

    #[inline(always)]
    fn group(self, i: usize) -> OfLevel<'t> {
        OfLevel {
            texts: self.texts.groups.at(i),
        }
    }
}

/// No texts are stored.
#[derive(Clone, Copy)]
pub(crate) struct NoTexts;

impl Kept for NoTexts {
    ghost texts = { λ it. None };

    #[inline(always)]
    fn level(&self) -> Option<&LevelTexts> {
        None
    }

    #[inline(always)]
    fn group(self, _i: usize) -> NoTexts {
        self
    }
}

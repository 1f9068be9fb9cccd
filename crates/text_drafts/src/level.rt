// The levels of a template, as its bodies are drafted.
use crate::lead::TagLead;
use field_judge::BackLevel;
use line_draft::BodyDraft;
use lists::List;
use sbe_types::{Order, Prim};

/// What is at a place of a level. Fields are given by their offset in the block.
#[derive(Clone, Copy)]
pub(crate) enum DraftPart {
    /// An integer, or the mantissa of a decimal, which has this number of digits after the point.
    Number(usize, NumberPlace, usize),
    /// A text of at most this many bytes.
    Text(usize, usize),
    /// A text in a field of eight bytes.
    Word(usize),
    /// A character.
    Character(usize),
    /// A field whose text is read as the structure says, by its number.
    Other(usize, usize),
    /// Data: its number, and what begins its length field.
    Data(usize, TagLead),
    /// A group: its number, and what begins each entry.
    Group(usize, TagLead),
}

impl DraftPart {
    /// Whether it is a field that isn't read as the structure says.
    pub(crate) fn is_plain(&self) -> bool {
        match self {
            DraftPart::Number(_, _, _) => true,
            DraftPart::Text(_, _) => true,
            DraftPart::Word(_) => true,
            DraftPart::Character(_) => true,
            DraftPart::Other(_, _) => false,
            DraftPart::Data(_, _) => false,
            DraftPart::Group(_, _) => false,
        }
    }
}

/// How the bits of a number are laid in bytes: which of a word's bytes they take, and how far they are moved up before the bytes are
/// reversed, if they are.
#[derive(Clone, Copy)]
pub(crate) struct NumberPlace {
    mask: u64,
    up: u32,
    is_reversed: bool,
}

impl NumberPlace {
    /// That of a primitive.
    pub(crate) fn new(order: Order, prim: Prim) -> NumberPlace {
        let up = match prim.width() {
            1 => 56,
            2 => 48,
            4 => 32,
            _ => 0u32,
        };
        NumberPlace {
            mask: u64::MAX.wrapping_shr(up),
            up,
            is_reversed: order == Order::Big,
        }
    }

    /// Writes a number's bits at an offset of a draft; false if there is no room.
    #[inline(always)]
    pub(crate) fn put(&self, bits: u64, draft: &mut BodyDraft, at: usize) -> bool {
        let word = if self.is_reversed {
            bits.wrapping_shl(self.up).swap_bytes()
        } else {
            bits
        };
        draft.put_masked(at, word, self.mask)
    }
}

/// A place of a level, in the order of the structure: what begins its field, and what is there.
#[derive(Clone, Copy)]
pub(crate) struct DraftRow {
    pub lead: TagLead,
    pub part: DraftPart,
}

/// A group: its dimension without a count, how its count is laid in it and where, and the number of its entries' level.
#[derive(Drop)]
pub(crate) struct DraftGroup {
    pub dim: Vec<u8>,
    pub count: NumberPlace,
    pub at: usize,
    pub level: usize,
}

/// A level: a block in which each field has the value that it has without a text, the places, the groups, and whether all places
/// are those of plain fields.
#[derive(Drop)]
pub(crate) struct DraftLevel {
    pub empty: Vec<u8>,
    pub rows: Vec<DraftRow>,
    pub groups: List<DraftGroup>,
    pub is_flat: bool,
}

/// The levels of a template's structure, by which its texts are read: its root, and those of its groups' entries.
#[derive(Clone, Copy)]
pub struct BackLevels<'a> {
    pub root: &'a BackLevel,
    pub levels: &'a [BackLevel],
}

/// The levels of a template: its root with the header of its messages, and those of its groups' entries.
#[derive(Drop)]
pub struct DraftTree {
    pub(crate) header: Vec<u8>,
    pub(crate) root: DraftLevel,
    pub(crate) levels: List<DraftLevel>,
}

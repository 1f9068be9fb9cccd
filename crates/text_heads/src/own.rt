ghost use Rattle.std.specs.Prelude.{◌≡◌, true};
ghost use Rattle.bridge_terms.specs.Parts.{TagLists};
ghost use Rattle.bridge_mapping.specs.Tables.{HaveSameTags};
ghost use Rattle.text_heads.specs.Heads.{AreHeadTags, IsHeaderTag};

use bridge_mapping::TagTable;
use tagvalue_codec::{DataTags, Role};

/// Which of the fields that a head can have belong to a mapping's header and are neither length fields nor data with one.
#[derive(Clone, Copy, Debug, PartialEq, Eq)]
pub struct HeadTags {
    /// SenderCompID (49).
    pub sender: bool,
    /// TargetCompID (56).
    pub target: bool,
    /// MsgSeqNum (34).
    pub seq: bool,
    /// SendingTime (52).
    pub time: bool,
}

impl HeadTags {
    /// Those of a mapping with these tags and data fields.
    pub fn new(table: &TagTable, tags: &DataTags) -> HeadTags
        ensures { (lists : TagLists) → HaveSameTags table.now lists → AreHeadTags tags.now lists result }
    {
        HeadTags {
            sender: is_head_tag(table, tags, 49),
            target: is_head_tag(table, tags, 56),
            seq: is_head_tag(table, tags, 34),
            time: is_head_tag(table, tags, 52),
        }
    }
}

/// Whether a tag belongs to the header and is neither a length field's nor that of data with one.
fn is_head_tag(table: &TagTable, tags: &DataTags, tag: u32) -> bool
    ensures { (lists : TagLists) → HaveSameTags table.now lists → result ≡ true → IsHeaderTag tags.now lists tag }
{
    if !table.is_header(tag) {
        return false;
    }
    match tags.role(tag) {
        Role::Plain => true,
        Role::Length(_) | Role::Data => false,
    }
}

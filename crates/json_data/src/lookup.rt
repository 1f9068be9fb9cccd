ghost use Rattle.std.specs.Prelude.{◌≡◌, option_map};
ghost use Rattle.serde_json.specs.Find.{get_member};
ghost use Rattle.json_data.specs.Trees.{data_of, members_of};

use crate::data::{Json, Pair};

/// The value of a name: that of the last member with this key.
pub fn find<'v, 'a>(members: &'v [Pair<'a>], name: &[u8]) -> Option<&'v Json<'a>>
    ensures { option_map (λ v. data_of v.now) result ≡ get_member name.now (members_of members.now) }
{
    let mut left = members.len();
    while left > 0 {
        left -= 1;
        let member = &members[left];
        if member.0.as_bytes() == name {
            return Some(&member.1);
        }
    }
    None
}

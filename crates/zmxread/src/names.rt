//! Names of glasses and tags.

ghost use Rattle.std.specs.Prelude.{◌≡◌, ◌≤◌, length, take};

use arrayvec::ArrayVec;
use lensmodel::name::Name;

/// The name of at most 40 units.
pub fn name_of(word: &[u16]) -> Name
    requires { length word.now ≤ 40 }
    ensures { result.items ≡ word.now }
{
    let mut name: Name = ArrayVec::new();
    let _ = name.try_extend_from_slice(word);
    name
}

/// The first 40 units of a tag.
pub fn tag_name(tag: &[u16]) -> Name
    ensures { result.items ≡ take 40 tag.now }
{
    name_of(&tag[..tag.len().min(40)])
}

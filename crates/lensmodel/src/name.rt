//! Names of glasses and tags.

ghost use Rattle.std.specs.Prelude.{◌≡◌};

use arrayvec::ArrayVec;

/// The 16-bit units of a name, at most 40.
pub type Name = ArrayVec<u16, 40>;

/// The same name, copied without taking memory.
pub fn copy_name(n: &Name) -> Name
    ensures { result ≡ n.now }
{
    let mut copied: Name = ArrayVec::new();
    let _ = copied.try_extend_from_slice(n.as_slice());
    copied
}

//! A book of glasses.

ghost use Rattle.std.specs.Prelude.{◌≡◌, ◌++◌, ◌<◌, [], ◌∷◌, List, Option, None, Some, IsTrue, IfOk, OnOk, OnErr, ◌↔◌, length, slice_get, map, if◌then◌else◌};
ghost use Rattle.std.specs.Option.{option_copied};
ghost use Rattle.std.specs.Map.{lookup};
ghost use Rattle.lensmodel.specs.Files.Catalogue.{find_glass};
ghost use Rattle.lensmodel.specs.Setup.Media.{upper};
ghost use Rattle.lensmodel.specs.declared.glass.Glass.{Glass as GlassValue};
ghost use Rattle.glassbook.specs.Keys.{IsKeyed, glasses_of, same_key};

use arrayvec::ArrayVec;
use indexmap::IndexMap;
use lensmodel::glass::Glass;
use lensmodel::name::Name;
use std::alloc::Global;
use std::marker::Model;

/// There was no memory for a glass.
#[derive(Clone, Copy, Debug, PartialEq, Eq)]
pub struct BookFull;

/// Glasses in the order in which they were added. No two names are equal after ASCII upper-casing.
#[derive(Drop)]
pub struct GlassBook {
    glasses: IndexMap<Name, Glass>,
}

impl Model for GlassBook {
    ghost Value = { List GlassValue };

    ghost view = { λ b. glasses_of b.glasses.entries };

    ghost invariant = { λ b. IsKeyed b.glasses.entries };
}

/// A unit with the ASCII letters in upper case.
fn upper_unit(unit: u16) -> u16
    ensures { result ≡ upper unit }
{
    if 97 <= unit && unit <= 122 {
        unit - 32
    } else {
        unit
    }
}

/// A name in upper case.
fn upper_name(name: &Name) -> Name
    ensures { result.items ≡ map upper name.now.items }
{
    let mut key: Name = ArrayVec::new();
    for unit in name.as_slice() {
        key.push(upper_unit(*unit));
    }
    key
}

/// Appends a glass under a key that isn't there yet.
fn append(glasses: &mut IndexMap<Name, Glass>, key: Name, glass: Glass) -> Result<(), BookFull>
    requires { lookup (same_key key) glasses.old.entries ≡ None }
    ensures ok { OnOk result (glasses.new.entries ≡ glasses.old.entries ++ (key, glass) ∷ []) }
    ensures full { OnErr result (glasses.new.entries ≡ glasses.old.entries) }
{
    match glasses.insert(key, glass) {
        Ok(_) => Ok(()),
        Err(_) => Err(BookFull),
    }
}

impl GlassBook {
    /// An empty book, which takes no memory.
    pub fn new(alloc: Global) -> GlassBook
        ensures { result ≡ [] }
    {
        GlassBook {
            glasses: IndexMap::new(alloc),
        }
    }

    /// How many glasses there are.
    pub fn count(&self) -> usize
        ensures { result ≡ length self.now }
    {
        self.glasses.len()
    }

    /// Adds a glass at the end. The answer is false, and nothing is changed, where a glass of the
    /// name is held already. Where there was no memory nothing is changed either.
    pub fn add(&mut self, glass: Glass) -> Result<bool, BookFull>
        ensures held { IfOk result
            (λ added. IsTrue added ↔ (find_glass glass.name.items self.old ≡ None)) }
        ensures new { IfOk result
            (λ added. self.new ≡ (if added then self.old ++ glass ∷ [] else self.old)) }
        ensures full { OnErr result (self.new ≡ self.old) }
    {
        let key = upper_name(&glass.name);
        if self.glasses.contains_key(&key) {
            return Ok(false);
        }
        append(&mut self.glasses, key, glass)?;
        Ok(true)
    }

    /// The glass of a name, compared after ASCII upper-casing.
    pub fn find(&self, name: &Name) -> Option<&Glass>
        ensures { option_copied result ≡ find_glass name.now.items self.now }
    {
        self.glasses.get(&upper_name(name))
    }

    /// The glass of a number, counted from 0, which is below the count.
    pub fn at(&self, i: usize) -> &Glass
        requires { i < length self.now }
        ensures { slice_get self.now i ≡ Some result.now }
    {
        &self.glasses[i]
    }
}

#[cfg(test)]
mod tests {
    use super::*;
    use fixdec::dec::Dec;
    use std::test::Fail;

    fn glass(name: &[u16], formula: u32) -> Glass {
        let zero = Dec::default();
        let mut units: Name = ArrayVec::new();
        let _ = units.try_extend_from_slice(name);
        Glass {
            name: units,
            formula,
            c0: zero,
            c1: zero,
            c2: zero,
            c3: zero,
            c4: zero,
            c5: zero,
            low: None,
            high: None,
        }
    }

    #[test]
    fn keeps_the_first_of_equal_names(rt: HostRuntime) -> Result<(), Fail> {
        let mut book = GlassBook::new(rt.alloc());
        assert_eq!(rt; book.count(), 0);
        assert_eq!(rt; book.add(glass(&[78, 45, 66, 75, 55], 2))?, true);
        assert_eq!(rt; book.add(glass(&[110, 45, 98, 107, 55], 1))?, false);
        assert_eq!(rt; book.add(glass(&[70, 50], 1))?, true);
        assert_eq!(rt; book.count(), 2);
        assert_eq!(rt; book.at(0).formula, 2);
        assert_eq!(rt; book.at(1).formula, 1);
        let asked = glass(&[110, 45, 66, 107, 55], 0);
        let found = book.find(&asked.name).expect(&rt, "the glass is held");
        assert_eq!(rt; found.formula, 2);
        assert_eq!(rt; book.find(&glass(&[70], 0).name).is_none(), true);
        Ok(())
    }
}

//! Tags that aren't used, with the numbers of their lines.

ghost use Rattle.std.specs.Prelude.{◌≡◌, ◌<◌, [], List, ℕ, Some, OnOk, length, slice_get};
ghost use Rattle.zmxread.specs.Tags.{pairs_of, with_one_more};

use indexmap::IndexMap;
use lensmodel::name::Name;
use std::alloc::Global;
use std::marker::Model;

/// There was no memory for a tag, or it has 2^64 lines.
#[derive(Clone, Copy, Debug, PartialEq, Eq)]
pub struct TagsFull;

/// Tags, each with the number of its lines, in order of first sight.
#[derive(Drop)]
pub struct Tags {
    counts: IndexMap<Name, u64>,
}

impl Model for Tags {
    ghost Value = { List (List ℕ × ℕ) };

    ghost view = { λ t. pairs_of t.counts.entries };
}

/// Counts one more line of a tag.
fn count_line(counts: &mut IndexMap<Name, u64>, tag: Name) -> Result<(), TagsFull>
    ensures { OnOk result
        (pairs_of counts.new.entries ≡ with_one_more tag.items (pairs_of counts.old.entries)) }
{
    let Ok(entry) = counts.entry(tag) else {
        return Err(TagsFull);
    };
    let lines = entry.or_insert(0);
    let Some(more) = lines.checked_add(1) else {
        return Err(TagsFull);
    };
    *lines = more;
    Ok(())
}

impl Tags {
    /// No tags, which take no memory.
    pub fn new(alloc: Global) -> Tags
        ensures { result ≡ [] }
    {
        Tags {
            counts: IndexMap::new(alloc),
        }
    }

    /// The tags of a map.
    pub fn of(counts: IndexMap<Name, u64>) -> Tags
        ensures { result ≡ pairs_of counts.entries }
    {
        Tags { counts }
    }

    /// The map of the tags.
    pub fn into_map(self) -> IndexMap<Name, u64>
        ensures { pairs_of result.entries ≡ self }
    {
        self.counts
    }

    /// How many tags there are.
    pub fn count(&self) -> usize
        ensures { result ≡ length self.now }
    {
        self.counts.len()
    }

    /// The tag of a number, counted from 0, which is below the count, with the number of its lines.
    pub fn at(&self, i: usize) -> (&Name, u64)
        requires { i < length self.now }
        ensures { slice_get self.now i ≡ Some (result.0.now.items, result.1) }
    {
        let (tag, lines) = self.counts.get_index(i).unwrap();
        (tag, *lines)
    }

    /// Counts one more line of a tag.
    pub fn add(&mut self, tag: Name) -> Result<(), TagsFull>
        ensures { OnOk result (self.new ≡ with_one_more tag.items self.old) }
    {
        count_line(&mut self.counts, tag)
    }
}
